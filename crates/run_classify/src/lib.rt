// The classification of a row: the exits of a state's row and the ranges on which it loops, found from left to right, and the run of the
// state by these.
#![tactic(auto)]

ghost use Rattle.std.specs.Prelude.{◌≡◌, ◌+◌, drop};
ghost use Rattle.refusal.specs.Lists.{before};
ghost use Rattle.run_ranges.specs.Ranges.{loops_at, exits_at, one_to_four, loop_ranges};
ghost use Rattle.run_shape.specs.Shape.{held};
ghost use Rattle.run_shape.specs.Classify.{classified, by_ranges};

use refusal::{ASCII_SYMBOLS, FIELD, MAX_RANGES, Refusal};
use run_ranges::{AsciiRange, AsciiRanges};
use run_shape::AsciiRun;

// The first symbol from `from` on whose target is not the state: the row's length where there is none, or `from` past the row.
#[tactic(auto, using(refusal::proofs::Lists::searching))]
pub fn next_exit(row: &[u16], state: u16, from: usize) -> usize
    ensures { result ≡ from + before (exits_at state) (drop from row.now) }
{
    for symbol in from..row.len() {
        if row[symbol] != state {
            return symbol;
        }
    }
    row.len().max(from)
}

// The first symbol from `from` on whose target is the state, likewise.
#[tactic(auto, using(refusal::proofs::Lists::searching))]
fn next_loop(row: &[u16], state: u16, from: usize) -> usize
    ensures { result ≡ from + before (loops_at state) (drop from row.now) }
{
    for symbol in from..row.len() {
        if row[symbol] == state {
            return symbol;
        }
    }
    row.len().max(from)
}

// The maximal ranges on which the row loops on the state, if there are 1 to 4 of them.
#[tactic(auto, using(crate::proofs::Loops::looking))]
pub fn from_self_loops(row: &[u16], state: u16) -> Option<AsciiRanges>
    ensures { result ≡ one_to_four (loop_ranges state row.now) }
{
    if row.len() != ASCII_SYMBOLS {
        return None;
    }
    let mut ranges = [AsciiRange { low: 0, high: 0 }; 4];
    let mut count = 0;
    let mut low = next_loop(row, state, 0);
    while low < row.len() {
        if count == MAX_RANGES {
            return None;
        }
        let end = next_exit(row, state, low);
        ranges[count] = AsciiRange {
            low: low as u8,
            high: (end - 1) as u8,
        };
        count += 1;
        low = next_loop(row, state, end);
    }
    if count == 0 {
        return None;
    }
    Some(AsciiRanges {
        ranges,
        count: count as u8,
    })
}

// The run of a row with more than three exits: its ranges if there are 1 to 4, else none.
#[tactic(auto, using(crate::proofs::Ranged::ranging))]
fn by_ranges(row: &[u16], state: u16) -> AsciiRun
    ensures { result ≡ held (by_ranges (loop_ranges state row.now)) }
{
    match from_self_loops(row, state) {
        Some(ranges) => AsciiRun::Ranges(ranges),
        None => AsciiRun::None,
    }
}

// The run of a row of 128 targets at a state.
#[tactic(auto, using(crate::proofs::Exits::classifying))]
pub fn classify(row: &[u16], state: u16) -> Result<AsciiRun, Refusal>
    ensures { result ≡ classified state row.now }
{
    if row.len() != ASCII_SYMBOLS {
        return run_shape::refuse(FIELD, 0);
    }
    let a = next_exit(row, state, 0);
    if row.len() <= a {
        return Ok(AsciiRun::Any);
    }
    let b = next_exit(row, state, a + 1);
    if row.len() <= b {
        return Ok(AsciiRun::Until1(a as u8));
    }
    let c = next_exit(row, state, b + 1);
    if row.len() <= c {
        return Ok(AsciiRun::Until2(a as u8, b as u8));
    }
    let d = next_exit(row, state, c + 1);
    if row.len() <= d {
        return Ok(AsciiRun::Until3(a as u8, b as u8, c as u8));
    }
    Ok(by_ranges(row, state))
}
