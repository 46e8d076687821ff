// A program to try first: it reads a ply list from standard input and says which number each line starts with.
// Ply 10 must not arrive as ply 1 and a stray 0, so the digits are skipped by a run: the state of the lexer that reads a number
// loops on them, its row is classified, and each line is scanned by the run that this gives.
//
//     ./run plyscan < crates/plyscan/stdin
#![tactic(auto)]

use lexer_dfa::{AsciiRun, AsciiRunScan, Refusal, RunWords};
use replay_io::input::read_full;
use std::io::{Result, Stdin, Stdout};

// The state that reads a number.
const NUMBER: u16 = 7;

// The state to which any symbol but a digit leads from there.
const START: u16 = 0;

// Where each ASCII symbol leads from the state that reads a number.
fn number_row() -> [u16; 128] {
    let mut row = [START; 128];
    row[usize::from(b'0')..=usize::from(b'9')].fill(NUMBER);
    row
}

fn print_words(out: Stdout, words: RunWords) -> Result<()> {
    let RunWords {
        first,
        second,
        third,
        ..
    } = words;
    if words.length == 3 {
        return println!(out; "run {first} {second} {third}");
    }
    println!(out; "run {first}")
}

fn print_refusal(out: Stdout, refusal: Refusal) -> Result<()> {
    println!(out; "refused {} at {}", refusal.number, refusal.place)
}

// How far a run went, and how it ended.
fn print_scan(out: Stdout, scan: AsciiRunScan) -> Result<()> {
    let bytes = scan.bytes;
    let many = if bytes == 1 { "byte" } else { "bytes" };
    let ended = if scan.found_exit {
        "then an exit"
    } else {
        "to the end"
    };
    println!(out; " ({bytes} {many}, {ended})")
}

fn scan_line(out: Stdout, run: AsciiRun, line: &[u8]) -> Result<()> {
    match lexer_dfa::scan_length(run, line) {
        None => println!(out; "no run"),
        Some(scan) => {
            if scan.bytes == 0 {
                return println!(out; "no digits");
            }
            out.write_all(lexer_dfa::scan(run, line))?;
            print_scan(out, scan)
        }
    }
}

// Each line by itself, so that a run ends where its line does. The last line may lack its newline; behind that of the last line stands none.
fn scan_lines(out: Stdout, run: AsciiRun, text: &[u8]) -> Result<()> {
    for line in text.split_inclusive(|byte| *byte == b'\n') {
        scan_line(out, run, line.strip_suffix(b"\n").unwrap_or(line))?;
    }
    Ok(())
}

fn scan_list(out: Stdout, text: &[u8]) -> Result<()> {
    match lexer_dfa::classify(&number_row(), NUMBER) {
        Ok(run) => {
            print_words(out, lexer_dfa::write_serialized(run))?;
            scan_lines(out, run, text)
        }
        Err(refusal) => print_refusal(out, refusal),
    }
}

// Whether the input goes on behind what was read.
fn goes_on(from: &mut Stdin) -> Result<bool> {
    let mut one = [0u8; 1];
    Ok(read_full(from, &mut one)? == 1)
}

fn main(rt: HostRuntime) -> Result<()> {
    let out = rt.stdout();
    let mut from = rt.stdin();
    let mut list = io::large_buffer();
    let n = read_full(&mut from, &mut list)?;
    scan_list(out, &list[..n])?;
    // A list that is cut may be cut inside a number, so this is said.
    if goes_on(&mut from)? {
        return println!(out; "the list is too long, and was cut after 65536 bytes");
    }
    Ok(())
}
