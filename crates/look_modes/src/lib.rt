// Where a mode starts, how many states there are, and whether any mode is compiled. The room may be of any length and hold any numbers.
#![tactic(auto, using(crate::proofs::StartLaws::chain, crate::proofs::AllModesLaws::chain), unfolding(crate::specs::Start::mode_at, crate::specs::Modes::state_count, crate::specs::Modes::modes_up_to, crate::specs::Modes::of_modes, room_find::specs::Room::follow))]

ghost use Rattle.std.specs.Prelude.{◌≡◌, ◌+◌, ◌≤◌, length};
ghost use Rattle.room_find.specs.Answer as answer;
ghost use Rattle.look_modes.specs.Start.{said, started, mode_in, mode_at, mode_start, compiled};
ghost use Rattle.look_modes.specs.Modes.{count_in, state_count, up_to, modes_with, modes_in, modes_up_to, compiled_said, has_compiled_modes};
ghost use Rattle.std.specs.List.{list_all, list_any};

use refusal::{CONTINUATIONS_START, MODES_START, NONE, RUNS_START, STATES_START};
use room_find::{Missing, Span};

// A mode's start that its field allows.
fn start_of(s: u32) -> Result<Option<u16>, Missing>
    ensures { said result ≡ started s }
{
    if let Ok(start) = u16::try_from(s) {
        return Ok(Some(start));
    }
    if s == NONE {
        return Ok(None);
    }
    Err(Missing::Outside)
}

fn mode_in(room: &[u32], start: u32, end: u32, mode: u32) -> Result<usize, Missing>
    ensures { result ≡ mode_in room.now start end mode }
{
    if start < end && (end as usize) <= room.len() {
        if mode < 2147483648 {
            return room_find::record_in(room, start, end, 1, mode);
        }
        return Err(Missing::Absent);
    }
    Err(Missing::Outside)
}

fn find_mode(room: &[u32], mode: u32) -> Result<usize, Missing>
    ensures { result ≡ mode_at room.now mode }
{
    if CONTINUATIONS_START < room.len() {
        return mode_in(room, room[MODES_START], room[STATES_START], mode);
    }
    Err(Missing::Outside)
}

// The start of a mode, whose number is a 32-bit word in two's complement.
pub fn mode_start(room: &[u32], mode: u32) -> Result<Option<u16>, Missing>
    ensures { said result ≡ mode_start room.now mode }
{
    match find_mode(room, mode) {
        Ok(p) => start_of(room[p]),
        Err(Missing::Absent) => Ok(None),
        Err(Missing::Outside) => Err(Missing::Outside),
    }
}

fn count_in(room: &[u32], start: u32, end: u32) -> Result<u32, Missing>
    ensures { answer.said result ≡ count_in room.now start end }
{
    if start < end && (end as usize) <= room.len() {
        return Ok(room[start as usize]);
    }
    Err(Missing::Outside)
}

// How many states there are.
pub fn state_count(room: &[u32]) -> Result<u32, Missing>
    ensures { answer.said result ≡ state_count room.now }
{
    if CONTINUATIONS_START < room.len() {
        return count_in(room, room[STATES_START], room[RUNS_START]);
    }
    Err(Missing::Outside)
}

fn up_to(limit: u32, x: u32) -> bool
    ensures { result ≡ up_to limit x }
{
    (x <= limit) | (x == NONE)
}

// No start is past the limit. Each is asked, with no way out: `all` jumps at each, which was most of why lists of mixed modes took twice as long
// (docs/LOOK-BACK.md, d 6).
fn all_up_to(starts: &[u32], limit: u32) -> bool
    ensures { result ≡ list_all (up_to limit) starts.now }
{
    let mut all = true;
    for start in starts {
        all &= up_to(limit, *start);
    }
    all
}

fn modes_with(room: &[u32], start: u32, end: u32, count: u32, limit: u32) -> Result<Span, Missing>
    requires { end ≤ length room.now }
    ensures { result ≡ modes_with room.now start end count limit }
{
    let from = (start as usize) + 1;
    let length = count as usize;
    if length + (start as usize) < (end as usize) {
        if all_up_to(&room[from..from + length], limit) {
            return Ok(Span { from, length });
        }
    }
    Err(Missing::Outside)
}

fn modes_in(room: &[u32], start: u32, end: u32, limit: u32) -> Result<Span, Missing>
    ensures { result ≡ modes_in room.now start end limit }
{
    if start < end && (end as usize) <= room.len() {
        return modes_with(room, start, end, room[start as usize], limit);
    }
    Err(Missing::Outside)
}

// Where the starts of all modes stand, and how many there are, if no start is past the limit; a mode without start is past none.
pub fn find_modes(room: &[u32], limit: u32) -> Result<Span, Missing>
    ensures { result ≡ modes_up_to room.now limit }
{
    if CONTINUATIONS_START < room.len() {
        return modes_in(room, room[MODES_START], room[STATES_START], limit);
    }
    Err(Missing::Outside)
}

// Some start is a state.
fn some_compiled(starts: &[u32]) -> bool
    ensures { result ≡ list_any compiled starts.now }
{
    starts.iter().any(|start| *start <= 65535)
}

// Whether at least one mode is compiled.
pub fn has_compiled_modes(room: &[u32]) -> Result<bool, Missing>
    ensures { compiled_said result ≡ has_compiled_modes room.now }
{
    let modes = find_modes(room, 65535)?;
    Ok(some_compiled(&room[modes.from..modes.from + modes.length]))
}
