// Replays a sample of lists of transitions and of pools, with the answers that the Rust original gave, through the proved functions.
// The sample comes from standard input, as the binary `record` of rust/compare writes it: at most 65,535 bytes, numbers with the
// least byte first. Record stands behind record, each opening with a byte for its kind:
//
//     1 read_intervals        each of 1 to 5: list length u16, list, number of masks u16 (0 but of build_rows), for each a target u16, then for each a
//     2 char_segments         continuation u32; then two numbers of the answer, u16 each, and the check u64 of the buffers:
//     3 segment_mask_matrix   transitions and intervals; segments and 0; masks and words; masks and words; numbers of the wide and of the escape row
//     4 distinct_masks
//     5 build_rows
//     6 intern_ascii          rows u16, 384 numbers u16 of a pool, a row of 128; the row's number u16, check u64 of the pool
//     7 intern_wide           rows u16, 32 numbers u32 of a pool, a row of 6; the row's number u16, check u64 of the pool
//
// A check is over the buffer that the call is named for, its numbers behind the answer too; that of build_rows over the ascii row, the wide row and
// the escape row. It prints how many of the bytes it came through, then for each kind how many of our answers are equal and how many differ. A record
// that cannot be read ends the replay, which the first line shows, so that a damaged sample cannot pass.
#![tactic(auto)]

mod interned;
mod lists;

ghost use Rattle.std.specs.Prelude.{◌<◌, ◌≤◌, length, IfSome};

use replay_io::tally::{Counts, Replayed, Report};
use replay_io::{input, read, tally};
use std::io::Result;

const KINDS: [&str; 7] = [
    "     read_intervals",
    "      char_segments",
    "segment_mask_matrix",
    "     distinct_masks",
    "         build_rows",
    "       intern_ascii",
    "        intern_wide",
];

// The record at the front of what is left, where there is one of its kind.
fn replay_record(rest: &[u8]) -> Option<Replayed> {
    let kind = read::byte(rest, 0);
    match kind {
        1..=5 => Some(lists::replay_list(kind, rest)),
        6 => Some(interned::replay_ascii(rest)),
        7 => Some(interned::replay_wide(rest)),
        _ => None,
    }
}

// Counts the record at the front of what is left, and answers how many bytes it has: none where it cannot be read or is not whole.
fn count_record(rest: &[u8], counts: &mut [Counts]) -> Option<usize>
    ensures { IfSome result (λ n. (0 < n) × (n ≤ length rest.now)) }
{
    tally::count(counts, rest, replay_record(rest)?)
}

// Counts record after record, and answers the byte up to which it came. (Each program has its own: of one that takes `count_record` as a closure no contract
// could say what it answers, and no public function goes without one.)
fn replay(sample: &[u8], counts: &mut [Counts]) -> usize {
    let mut at = 0;
    while let Some(bytes) = count_record(&sample[at..], counts) {
        at += bytes;
    }
    at
}

// Of an input that fills the buffer there may be more: it is no sample, and nothing is printed. (Each program has its own: of one that reads and prints for all of
// them no contract could say what it does, and no public function goes without one.)
fn main(rt: HostRuntime) -> Result<()> {
    let mut sample = io::large_buffer();
    let bytes = input::read_full(&mut rt.stdin(), &mut sample)?;
    if bytes == 65536 {
        return Ok(());
    }
    let mut counts = [tally::NONE; KINDS.len() + 1];
    let at = replay(&sample[..bytes], &mut counts);
    let report = Report {
        at,
        bytes,
        counts: &counts[1..],
        names: &KINDS,
    };
    print!(rt; "{report}")
}
