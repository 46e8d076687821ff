// Replays a sample of lookups and encoding, with the answers that the Rust original gave, through the proved functions.
// The sample comes from standard input, as the binary `record` of rust/compare writes it: at most 65,535 bytes, numbers with the
// least byte first. A table stands first, its number of words u16 and its words; then record after record about it, each opening
// with a byte for its kind:
//
//     1 mode_start            each of 1 to 9: state u16, symbol u32 (of mode_start the mode), answer u32;
//     2 state_count           4294967295 stands for no start, accept or continuation,
//     3 accept                and what a lookup does not ask for is 0
//     4 ascii_target
//     5 char_target
//     6 eof_target
//     7 char_continuation
//     8 eof_continuation
//     9 coverage
//     10 scan_ascii_run       state u16, input length u16, input, outcome u8: 1 no run, 2 ran; bytes u16, exit found u8
//     11 compiled_mode_flags  each of 11 to 13: numbers written u16, check u32 of an output of 8,192 numbers:
//     12 mode_state_counts    the sum of the sums after each number, in 32 bits
//     13 encode
//
// It prints how many of the bytes it came through, then for each kind how many of our answers are equal and how many differ. A record
// that cannot be read ends the replay, which the first line shows, so that a damaged sample cannot pass; so does a table that is refused.
#![tactic(auto)]

mod lists;
mod lookups;

ghost use Rattle.std.specs.Prelude.{◌<◌, ◌≤◌, length, IfSome};

use refusal::ROOM_NUMBERS;
use replay_io::tally::{Counts, Replayed, Report};
use replay_io::{input, read, tally};
use std::io::Result;

const KINDS: [&str; 13] = [
    "         mode_start",
    "        state_count",
    "             accept",
    "       ascii_target",
    "        char_target",
    "         eof_target",
    "  char_continuation",
    "   eof_continuation",
    "           coverage",
    "     scan_ascii_run",
    "compiled_mode_flags",
    "  mode_state_counts",
    "             encode",
];

// The record at the front of what is left, where there is one of its kind.
fn replay_record(room: &[u32], rest: &[u8]) -> Option<Replayed> {
    let kind = read::byte(rest, 0);
    match kind {
        1..=9 => Some(lookups::replay_number(room, kind, rest)),
        10 => Some(lookups::replay_scan(room, rest)),
        11..=13 => Some(lists::replay_list(room, kind, rest)),
        _ => None,
    }
}

// Counts the record at the front of what is left, and answers how many bytes it has: none where it cannot be read or is not whole.
fn count_record(room: &[u32], rest: &[u8], counts: &mut [Counts]) -> Option<usize>
    ensures { IfSome result (λ n. (0 < n) × (n ≤ length rest.now)) }
{
    tally::count(counts, rest, replay_record(room, rest)?)
}

// Counts record after record, and answers how many bytes it came through. (Each program has its own: of one that takes `count_record` as a closure no
// contract could say what it answers, and no public function goes without one.)
fn replay(room: &[u32], records: &[u8], counts: &mut [Counts]) -> usize
    ensures { result ≤ length records.now }
{
    let mut at = 0;
    while let Some(bytes) = count_record(room, &records[at..], counts) {
        at += bytes;
    }
    at
}

// Replays what stands behind the table, where it is one.
fn replay_table(sample: &[u8], counts: &mut [Counts]) -> usize {
    let mut room = [0u32; ROOM_NUMBERS];
    let bytes = 4 * read::size(sample, 0);
    let table = program_io::read_table(read::part(sample, 2, bytes), &mut room);
    match table {
        Ok(_) => 2 + bytes + replay(&room, read::after(sample, 2 + bytes), counts),
        Err(_) => 0,
    }
}

// Of an input that fills the buffer there may be more: it is no sample, and nothing is printed. (Each program has its own: of one that reads and prints for all of
// them no contract could say what it does, and no public function goes without one.)
fn main(rt: HostRuntime) -> Result<()> {
    let mut sample = io::large_buffer();
    let bytes = input::read_full(&mut rt.stdin(), &mut sample)?;
    if bytes == 65536 {
        return Ok(());
    }
    let mut counts = [tally::NONE; KINDS.len() + 1];
    let at = replay_table(&sample[..bytes], &mut counts);
    let report = Report {
        at,
        bytes,
        counts: &counts[1..],
        names: &KINDS,
    };
    print!(rt; "{report}")
}
