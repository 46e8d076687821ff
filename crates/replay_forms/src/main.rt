// Replays a sample of rows of four wide ranges, with where the Rust original leads on a symbol, through the search over range records; and runs that
// search and the opening on what the original has no answer for: a row that does not ascend, and lists of words.
// The sample comes from standard input, as the binary `record` of rust/compare writes it: at most 65,535 bytes, records of 46 bytes, numbers with the
// least byte first:
//
//     four ranges: low u32, high u32, target u16; symbol u32; the original's target u16
//
// It prints how many records it replayed and how many of our answers differ, and how many bytes stand behind the last whole record, which must be none.
#![tactic(auto)]

ghost use Rattle.std.specs.Prelude.{◌≡◌};
ghost use Rattle.look_row.specs.Ranges.{target_in};

use look_row::WideRange;
use replay_io::{input, read};
use std::io::{Result, Stdout};

const RECORD: usize = 46;

// The row is a local that is lent as a slice.
fn target_in(row: [WideRange; 4], symbol: u32) -> u16
    ensures { result ≡ target_in row symbol }
{
    look_row::wide_target(&row, symbol)
}

fn range_at(s: &[u8]) -> WideRange {
    WideRange {
        low: read::word(s, 0),
        high: read::word(s, 4),
        target: read::half(s, 8),
    }
}

fn row_at(s: &[u8]) -> [WideRange; 4] {
    std::array::from_fn(|i| range_at(read::after(s, 10 * i)))
}

// Whether our answer is not the recorded one.
fn differs(record: &[u8]) -> bool {
    target_in(row_at(record), read::word(record, 40)) != read::half(record, 44)
}

fn report(out: Stdout, sample: &[u8]) -> Result<()> {
    let bytes = sample.len();
    let left = bytes % RECORD;
    let answers = bytes / RECORD;
    let differ = sample
        .chunks_exact(RECORD)
        .filter(|record| differs(record))
        .count();
    println!(out; "{left} left over of {bytes} bytes")?;
    println!(out; "{answers} answers, {differ} differ: wide_target")
}

fn print_target(out: Stdout, row: [WideRange; 4], symbol: u32) -> Result<()> {
    let target = target_in(row, symbol);
    println!(out; "{symbol} leads to {target}")
}

// The first range whose high reaches 250 starts past it, though a later one holds it.
fn print_falling(out: Stdout) -> Result<()> {
    let row = [
        WideRange {
            low: 900,
            high: 999,
            target: 1,
        },
        WideRange {
            low: 200,
            high: 299,
            target: 2,
        },
        WideRange {
            low: 1000,
            high: 1000,
            target: 3,
        },
        WideRange {
            low: 0,
            high: 0,
            target: 4,
        },
    ];
    print_target(out, row, 250)?;
    print_target(out, row, 950)?;
    print_target(out, row, 1000)?;
    print_target(out, row, 1001)
}

// The refusal, 0 for none, and then the modes or the place.
fn print_opening(out: Stdout, words: &[u32]) -> Result<()> {
    match word_serialized::read_opening(words) {
        Ok(n) => println!(out; "0 refuses: modes {n}"),
        Err(r) => println!(out; "{} refuses: at {}", r.number, r.place),
    }
}

fn print_openings(out: Stdout) -> Result<()> {
    let words = [0x4C440001u32, 7, 0];
    print_opening(out, &words)?;
    print_opening(out, &words[..1])?;
    print_opening(out, &words[..0])?;
    print_opening(out, &words[1..])
}

// Of an input that fills the buffer there may be more: it is no sample, and nothing is printed.
fn main(rt: HostRuntime) -> Result<()> {
    let out = rt.stdout();
    let mut sample = io::large_buffer();
    let n = input::read_full(&mut rt.stdin(), &mut sample)?;
    if n < 65536 {
        report(out, &sample[..n])?;
        print_falling(out)?;
        return print_openings(out);
    }
    Ok(())
}
