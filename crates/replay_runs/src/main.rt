// Replays a sample of questions, with the answers that the Rust original gave to them, through the proved functions.
// The sample comes from standard input, as the binary `record` of rust/compare writes it: at most 65,535 bytes, record after
// record, numbers with the least byte first. A record opens with a byte for its kind:
//
//     1 classify   state u16, another target u16, 16 bytes of bits (symbol k loops where bit k % 8 of byte k / 8 is set),
//                  number of words u8, the run's words
//     2 class      three words, answer u8: 0 whitespace, 1 number, 2 identifier, 3 other, 255 refused
//     3 scan       number of words u8, words, input length u16, input,
//                  outcome u8: 0 refused, 1 no run, 2 ran; bytes u16, exit found u8
//     4 decode     number of words u8, words, refusal u8: 0 accepted; place u8, item u8, modes u8, states u8, words u8,
//                  check u32 of a room of 16,384 numbers: the sum of the sums after each number, in 32 bits
//
// It prints how many of the bytes it came through, then for each kind how many of our answers are equal and how many differ. A record
// that cannot be read ends the replay, which the first line shows, so that a damaged sample cannot pass.
#![tactic(auto)]

mod decode;
mod runs;

ghost use Rattle.std.specs.Prelude.{◌<◌, ◌≤◌, length, IfSome};

use replay_io::tally::{Counts, Replayed, Report};
use replay_io::{input, read, tally};
use std::io::Result;

const KINDS: [&str; 4] = ["classify", "   class", "    scan", "  decode"];

// The record at the front of what is left, where there is one of its kind. A new kind gets an arm here and a name in KINDS.
fn replay_record(rest: &[u8]) -> Option<Replayed> {
    match read::byte(rest, 0) {
        1 => Some(runs::replay_classify(rest)),
        2 => Some(runs::replay_class(rest)),
        3 => Some(runs::replay_scan(rest)),
        4 => Some(decode::replay_decode(rest)),
        _ => None,
    }
}

// Counts the record at the front of what is left, and answers how many bytes it has: none where it cannot be read or is not whole.
fn count_record(rest: &[u8], counts: &mut [Counts]) -> Option<usize>
    ensures { IfSome result (λ n. (0 < n) × (n ≤ length rest.now)) }
{
    tally::count(counts, rest, replay_record(rest)?)
}

// Counts record after record, and answers the byte up to which it came. (Each program has its own: of one that takes `count_record` as a closure no contract
// could say what it answers, and no public function goes without one.)
fn replay(sample: &[u8], counts: &mut [Counts]) -> usize {
    let mut at = 0;
    while let Some(bytes) = count_record(&sample[at..], counts) {
        at += bytes;
    }
    at
}

// Of an input that fills the buffer there may be more: it is no sample, and nothing is printed. (Each program has its own: of one that reads and prints for all of
// them no contract could say what it does, and no public function goes without one.)
fn main(rt: HostRuntime) -> Result<()> {
    let mut sample = io::large_buffer();
    let bytes = input::read_full(&mut rt.stdin(), &mut sample)?;
    if bytes == 65536 {
        return Ok(());
    }
    let mut counts = [tally::NONE; KINDS.len() + 1];
    let at = replay(&sample[..bytes], &mut counts);
    let report = Report {
        at,
        bytes,
        counts: &counts[1..],
        names: &KINDS,
    };
    print!(rt; "{report}")
}
