// Lists over all modes, written into a lent buffer: whether each is compiled, and how many states each compiled mode has.
// The room may be of any length and hold any numbers.
#![tactic(auto)]

ghost use Rattle.std.specs.Prelude.{◌≡◌, ◌+◌, ◌≤◌, ◌-◌, map, length};
ghost use Rattle.buffer.specs.Over.{Put, zeros};
ghost use Rattle.std.specs.List.{count_by};
ghost use Rattle.look_modes.specs.Start.{compiled};
ghost use Rattle.refusal.specs.Said.{refusal_at};
ghost use Rattle.look_mode_lists.specs.Written.{Writes};
ghost use Rattle.look_mode_lists.specs.Flags.{flag, flags_for, mode_flags};
ghost use Rattle.look_mode_lists.specs.Counts.{counts_of, later, first_descent, counts_for, limit_of, counts_with, mode_state_counts, gap, step};

use refusal::{NONE, NOT_TABLE, ORDER, ROOM, Refusal, STATE};
use room_find::Missing;

fn refuse(number: u32, place: usize) -> Result<usize, Refusal>
    ensures { result ≡ Err (refusal_at number place) }
{
    Err(Refusal {
        number,
        item: 0,
        place,
    })
}

// 1 for a compiled mode, else 0.
fn flag_of(start: u32) -> u32
    ensures { (result ≡ flag start) × (result ≤ 1) }
{
    u32::from(start <= 65535)
}

fn put_flags(starts: &[u32], out: &mut [u32]) -> usize
    requires { 0 + length (map flag starts.now) ≤ length out.old }
    ensures { Put (map flag starts.now) 0 out.old result out.new }
{
    let mut m = 0;
    for start in starts {
        out[m] = flag_of(*start);
        m += 1;
    }
    m
}

// The flags of modes with these starts, into a buffer of zeros.
fn flags_into(starts: &[u32], out: &mut [u32]) -> Result<usize, Refusal>
    requires { out.old ≡ zeros (length out.old) }
    ensures { Writes result (length out.old) out.new (flags_for (length out.old) starts.now) }
{
    if out.len() < starts.len() {
        return refuse(ROOM, 0);
    }
    Ok(put_flags(starts, out))
}

// For each mode 1 where it is compiled, else 0.
pub fn compiled_mode_flags(room: &[u32], out: &mut [u32]) -> Result<usize, Refusal>
    ensures { Writes result (length out.old) out.new (mode_flags room.now (length out.old)) }
{
    buffer::clear(out);
    match look_modes::find_modes(room, 65535) {
        Ok(modes) => flags_into(&room[modes.from..modes.from + modes.length], out),
        Err(_) => refuse(NOT_TABLE, 0),
    }
}

// How many modes are compiled. No jump hangs on a start, here and in `look_modes`, where more of the time goes: lists of mixed modes took twice as
// long by `filter`, `count` and `all` (docs/LOOK-BACK.md, d 6).
fn compiled_count(starts: &[u32]) -> usize
    ensures { result ≡ count_by compiled starts.now }
{
    let mut count = 0;
    for start in starts {
        count += usize::from(*start <= 65535);
    }
    count
}

fn later_of(last: u32, x: u32) -> u32
    ensures { result ≡ later last x }
{
    if x <= 65535 { x } else { last }
}

// The number of the first compiled mode that starts below the one before it.
fn first_descent(starts: &[u32]) -> Option<usize>
    ensures { result ≡ first_descent starts.now }
{
    let mut last = 0;
    for (i, start) in starts.iter().enumerate() {
        if *start < last {
            return Some(i);
        }
        last = later_of(last, *start);
    }
    None
}

fn put_gap(last: u32, next: u32, out: &mut [u32], m: usize) -> usize
    requires { m + length (gap last next) ≤ length out.old }
    ensures { Put (gap last next) m out.old result out.new }
{
    if last <= 65535 {
        out[m] = next.saturating_sub(last);
        return m + 1;
    }
    m
}

fn put_step(last: u32, x: u32, out: &mut [u32], m: usize) -> usize
    requires { m + length (step last x) ≤ length out.old }
    ensures { Put (step last x) m out.old result out.new }
{
    if x <= 65535 {
        return put_gap(last, x, out, m);
    }
    m
}

// The state counts of the modes; `last` is the start that waits for the one behind it.
fn put_counts(starts: &[u32], states: u32, out: &mut [u32]) -> usize
    requires { 0 + length (counts_of states starts.now) ≤ length out.old }
    ensures { Put (counts_of states starts.now) 0 out.old result out.new }
{
    let mut m = 0;
    let mut last = NONE;
    for start in starts {
        m = put_step(last, *start, out, m);
        last = later_of(last, *start);
    }
    put_gap(last, states, out, m)
}

// The state counts of modes with these starts, into a buffer of zeros.
fn counts_into(starts: &[u32], states: u32, out: &mut [u32]) -> Result<usize, Refusal>
    requires { out.old ≡ zeros (length out.old) }
    ensures { Writes result (length out.old) out.new (counts_for (length out.old) states starts.now) }
{
    if out.len() < compiled_count(starts) {
        return refuse(ROOM, 0);
    }
    if let Some(place) = first_descent(starts) {
        return refuse(ORDER, place);
    }
    Ok(put_counts(starts, states, out))
}

fn limit_of(states: u32) -> u32
    ensures { result ≡ limit_of states }
{
    states.min(65535)
}

fn counts_with(room: &[u32], states: u32, out: &mut [u32]) -> Result<usize, Refusal>
    requires { out.old ≡ zeros (length out.old) }
    ensures { Writes result (length out.old) out.new (counts_with room.now (length out.old) states) }
{
    match look_modes::find_modes(room, limit_of(states)) {
        Ok(modes) => counts_into(&room[modes.from..modes.from + modes.length], states, out),
        Err(_) => refuse(NOT_TABLE, 0),
    }
}

// For each compiled mode how many states it has. What the count of the states refuses with is handed on.
pub fn mode_state_counts(room: &[u32], out: &mut [u32]) -> Result<usize, Refusal>
    ensures { Writes result (length out.old) out.new (mode_state_counts room.now (length out.old)) }
{
    buffer::clear(out);
    match look_modes::state_count(room) {
        Ok(states) => counts_with(room, states, out),
        Err(Missing::Absent) => refuse(STATE, 0),
        Err(Missing::Outside) => refuse(NOT_TABLE, 0),
    }
}
