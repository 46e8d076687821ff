// The scan by a state's run, as the front part of the input itself, and by its length. The room may be of any length and hold any numbers.
#![tactic(auto)]

ghost use Rattle.std.specs.Prelude.{◌≡◌, take, length, ◌≤◌};
ghost use Rattle.look_runs.specs.StateRun.{ascii_run, skipped_by, judged, run_in, run_of};
ghost use Rattle.run_shape.specs.Scan.{scan_by};
ghost use Rattle.run_shape.specs.Words.{read_at, short_run, kind_of, bytes_of, ranges_run};
ghost use Rattle.run_ranges.specs.Ranges.{ranges_of_run};
ghost use Rattle.refusal.specs.Said.{refusal_at};

use refusal::{ASCII_START, NOT_TABLE, Refusal, STATE};
use room_find::Missing;
use run_ranges::PackedRanges;
use run_shape::{AsciiRun, AsciiRunScan};

// The bytes that a state's run skips.
pub fn scan_ascii_run<'a>(room: &[u32], state: u16, input: &'a [u8]) -> &'a [u8]
    ensures { (result.now ≡ take (skipped_by (ascii_run room.now state) input.now) input.now)
        × (result.ref_ptr ≡ input.entry.ref_ptr) }
{
    match look_runs::ascii_run(room, state) {
        Ok(run) => run_scan::scan(run, input),
        Err(_) => &input[..0],
    }
}

fn refuse(number: u32) -> Result<Option<AsciiRunScan>, Refusal>
    ensures { result ≡ Err (refusal_at number 0) }
{
    Err(Refusal {
        number,
        item: 0,
        place: 0,
    })
}

// The scan by a run of one word. The word 0 is none, which most states have.
#[tactic(auto, using(crate::proofs::LengthLaws::scanning))]
fn scan_short(word: u32, at: usize, input: &[u8]) -> Result<Option<AsciiRunScan>, Refusal>
    ensures { result ≡ scan_by (judged (short_run at (kind_of word) (bytes_of word))) input.now }
{
    if word == 0 {
        return Ok(None);
    }
    match run_words::short_answer(word, at) {
        Ok(run) => Ok(run_scan::scan_length(run, input)),
        Err(_) => refuse(NOT_TABLE),
    }
}

// The scan by a kind-5 run, whose three words are there.
fn scan_ranges(
    kind: u32,
    words: PackedRanges,
    at: usize,
    input: &[u8],
) -> Result<Option<AsciiRunScan>, Refusal>
    ensures { result ≡ scan_by (judged (ranges_run at (ranges_of_run kind words))) input.now }
{
    match run_ranges::from_run(kind, words) {
        Some(ranges) => Ok(run_scan::scan_length(AsciiRun::Ranges(ranges), input)),
        None => refuse(NOT_TABLE),
    }
}

// The scan by the run that stands at a word. The words are read as `run_words::read_serialized` reads them, but the run is not handed on
// from call to call: through memory that takes longer than most scans.
#[tactic(auto, using(crate::proofs::LengthLaws::scanning))]
fn scan_words(words: &[u32], at: usize, input: &[u8]) -> Result<Option<AsciiRunScan>, Refusal>
    ensures { result ≡ scan_by (judged (read_at words.now at)) input.now }
{
    if words.len() <= at {
        return refuse(NOT_TABLE);
    }
    let word = words[at];
    if word % 256 != 5 {
        return scan_short(word, at, input);
    }
    if words.len() - at < 3 {
        return refuse(NOT_TABLE);
    }
    let packed = PackedRanges {
        first: words[at + 1],
        second: words[at + 2],
    };
    scan_ranges(word, packed, at, input)
}

#[tactic(auto, using(look_runs::proofs::Laws::reading), unfolding(look_runs::specs::StateRun::run_in))]
fn scan_run(
    room: &[u32],
    end: u32,
    at: usize,
    input: &[u8],
) -> Result<Option<AsciiRunScan>, Refusal>
    requires { end ≤ length room.now }
    ensures { result ≡ scan_by (run_in room.now end at) input.now }
{
    let to = end as usize;
    scan_words(&room[..to], at, input)
}

#[tactic(auto, using(look_runs::proofs::Laws::reading), unfolding(look_runs::specs::StateRun::run_of, room_find::specs::Room::follow))]
fn scan_of(room: &[u32], i: u32, input: &[u8]) -> Result<Option<AsciiRunScan>, Refusal>
    ensures { result ≡ scan_by (run_of room.now i) input.now }
{
    let Ok(p) = look_runs::find_run(room, i) else {
        return refuse(NOT_TABLE);
    };
    scan_run(room, room[ASCII_START], p, input)
}

// How many bytes a state's run skips, and whether an exit was found; or that there is no run.
#[tactic(auto, unfolding(look_runs::specs::StateRun::ascii_run, room_find::specs::Room::follow))]
pub fn scan_ascii_run_length(
    room: &[u32],
    state: u16,
    input: &[u8],
) -> Result<Option<AsciiRunScan>, Refusal>
    ensures { result ≡ scan_by (ascii_run room.now state) input.now }
{
    match room_find::find_state(room, state) {
        Ok(_) => scan_of(room, u32::from(state), input),
        Err(Missing::Absent) => refuse(STATE),
        Err(Missing::Outside) => refuse(NOT_TABLE),
    }
}
