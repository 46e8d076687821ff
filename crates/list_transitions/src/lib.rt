// Lists of transitions: bytes are read record by record, or refused, and the intervals of each are counted, or written into a buffer. A list may be of
// any length and hold any bytes.
#![tactic(auto)]

mod intervals;

ghost use Rattle.std.specs.Prelude.{◌≡◌, [], ◌+◌, ◌*◌, ◌≤◌, ◌<◌, length};
ghost use Rattle.refusal.specs.Said.{refusal_at};
ghost use Rattle.list_transitions.specs.Transition.{orderly, in_order, origin};
ghost use Rattle.list_transitions.specs.Intervals.{clip, clips, gaps, intervals};
ghost use Rattle.list_transitions.specs.Bytes.{number_at, size_at, pairs_in, shape_of};
ghost use Rattle.list_transitions.specs.Values.{transition_of, IsRead, spans_of};
ghost use Rattle.list_transitions.specs.Read.{said, step_of, body_at, record_at, parse, counted};
ghost use Rattle.list_transitions.specs.Ends.{parse_into, Writes};

use refusal::{FIELD, LIMIT, MAX_INTERVALS, MAX_TRANSITIONS, ORDER, ROOM, Refusal, SHORT};

// The key of the point 0, and the key behind the last point.
pub const ORIGIN: u64 = 2147483648;

pub(crate) const BEYOND: u64 = 2148597760;

// How many points there are.
const POINTS: u64 = 1114112;

// The word of a number and that of its key differ by this.
const SIGN: u32 = 2147483648;

// Both ends of the most intervals that a list may have.
const ENDS: usize = 2048;

// How many transitions and intervals a list has.
#[derive(Clone, Copy)]
pub struct Transitions {
    pub count: usize,
    pub intervals: usize,
}

// Where the next record starts, and how many intervals this one has.
#[derive(Clone, Copy)]
struct Step {
    next: usize,
    intervals: usize,
}

// What the value of a record says: the keys of its numbers, or the bytes of its pairs, eight to a pair.
#[derive(Clone, Copy)]
pub(crate) enum Value<'a> {
    Atom(u32),
    Range(u32, u32),
    Set(&'a [u8]),
    NotSet(&'a [u8]),
    Wildcard,
}

pub(crate) fn size_at(list: &[u8], p: usize) -> usize
    requires { p + 2 ≤ length list.now }
    ensures { (result ≡ size_at list.now p) × (result < 65536) }
{
    usize::from(u16::from_le_bytes([list[p], list[p + 1]]))
}

// The key of the number whose four bytes start at p.
fn number_at(list: &[u8], p: usize) -> u32
    requires { p + 4 ≤ length list.now }
    ensures { result ≡ number_at list.now p }
{
    let word = u32::from_le_bytes([list[p], list[p + 1], list[p + 2], list[p + 3]]);
    word.wrapping_add(SIGN)
}

// The keys of the low and the high of pair i.
pub(crate) fn pair_at(pairs: &[u8], i: usize) -> (u64, u64)
    requires { 8 * i + 8 ≤ length pairs.now }
    ensures low { result.0 ≡ number_at pairs.now (8 * i) }
    ensures high { result.1 ≡ number_at pairs.now (8 * i + 4) }
    ensures fits { result.1 < 4294967296 }
{
    let low = number_at(pairs, 8 * i);
    let high = number_at(pairs, 8 * i + 4);
    (u64::from(low), u64::from(high))
}

// May a record of this tag have a value of this size?
fn shape(tag: u8, size: usize) -> bool
    ensures { result ≡ shape_of tag size }
{
    match tag {
        1 => size == 4,
        2 => size == 8,
        3 => size % 8 == 0,
        4 => size % 8 == 0,
        5 => size == 0,
        _ => false,
    }
}

// The value of a record with this tag, unless there is no such tag, or its value has another size.
pub(crate) fn read_value<'a>(tag: u8, bytes: &'a [u8]) -> Option<Value<'a>>
    ensures { IsRead tag bytes.now result }
{
    if !shape(tag, bytes.len()) {
        return None;
    }
    match tag {
        1 => Some(Value::Atom(number_at(bytes, 0))),
        2 => Some(Value::Range(number_at(bytes, 0), number_at(bytes, 4))),
        3 => Some(Value::Set(bytes)),
        4 => Some(Value::NotSet(bytes)),
        _ => Some(Value::Wildcard),
    }
}

// Are the pairs in order?
fn ordered(pairs: &[u8]) -> bool
    ensures { result ≡ orderly 0 (pairs_in pairs.now) }
{
    let mut from = 0;
    for i in 0..pairs.len() / 8 {
        let (low, high) = pair_at(pairs, i);
        if low < from {
            return false;
        }
        if high < low {
            return false;
        }
        from = high + 1;
    }
    true
}

fn in_order(value: Value) -> bool
    ensures { result ≡ in_order (transition_of value.entry) }
{
    match value {
        Value::Atom(_) => true,
        // A range may be inverted.
        Value::Range(_, _) => true,
        Value::Set(pairs) => ordered(pairs),
        Value::NotSet(pairs) => ordered(pairs),
        Value::Wildcard => true,
    }
}

// The points whose keys are from a to before b, as the first and the one behind the last, if there are any.
pub(crate) fn cut(a: u64, b: u64) -> Option<(u32, u32)>
    ensures { clip a b [] ≡ spans_of result }
{
    let low = a.saturating_sub(ORIGIN);
    let end = b.saturating_sub(ORIGIN).min(POINTS);
    if low < end {
        Some((low as u32, end as u32))
    } else {
        None
    }
}

// 1 where the keys from a to before b hold a point, else 0. It compares and makes no points as `cut` does: lists of 1,024 pairs are read 1.6 times
// as fast so (docs/LOOK-BACK.md).
fn is_live(a: u64, b: u64) -> usize
    ensures { (result ≡ length (clip a b [])) × (result ≤ 1) }
{
    if b <= ORIGIN {
        return 0;
    }
    if BEYOND <= a {
        return 0;
    }
    if b <= a {
        return 0;
    }
    1
}

// How many intervals the pairs have as a set ..
fn count_clips(pairs: &[u8]) -> usize
    ensures { result ≡ length (clips (pairs_in pairs.now)) }
{
    let mut found = 0;
    for i in 0..pairs.len() / 8 {
        let (low, high) = pair_at(pairs, i);
        found += is_live(low, high + 1);
    }
    found
}

// .. and as a not-set: between them, from the first key that no pair before has reached.
fn count_gaps(pairs: &[u8]) -> usize
    ensures { result ≡ length (gaps origin (pairs_in pairs.now)) }
{
    let mut found = 0;
    let mut next = ORIGIN;
    for i in 0..pairs.len() / 8 {
        let (low, high) = pair_at(pairs, i);
        found += is_live(next, low);
        next = next.max(high + 1);
    }
    found + is_live(next, BEYOND)
}

fn count(value: Value) -> usize
    ensures { result ≡ length (intervals (transition_of value.entry)) }
{
    match value {
        Value::Atom(k) => is_live(u64::from(k), u64::from(k) + 1),
        Value::Range(low, high) => is_live(u64::from(low), u64::from(high) + 1),
        Value::Set(pairs) => count_clips(pairs),
        Value::NotSet(pairs) => count_gaps(pairs),
        Value::Wildcard => 1,
    }
}

fn refuse(number: u32, place: usize) -> Refusal
    ensures { result ≡ refusal_at number place }
{
    Refusal {
        number,
        item: 0,
        place,
    }
}

// The record at `at`, whose value has `size` bytes, all there.
fn read_body(list: &[u8], at: usize, size: usize) -> Result<Step, Refusal>
    requires { at + 3 + size ≤ length list.now }
    ensures { result ≡ step_of at (body_at list.now at size) }
{
    let next = at + 3 + size;
    let Some(value) = read_value(list[at], &list[at + 3..next]) else {
        return Err(refuse(FIELD, at));
    };
    if !in_order(value) {
        return Err(refuse(ORDER, at));
    }
    Ok(Step {
        next,
        intervals: count(value),
    })
}

fn read_record(list: &[u8], at: usize) -> Result<Step, Refusal>
    requires { at < length list.now }
    ensures { result ≡ step_of at (record_at list.now at) }
{
    let left = list.len() - at;
    if left < 3 {
        return Err(refuse(SHORT, at));
    }
    let size = size_at(list, at + 1);
    if left - 3 < size {
        return Err(refuse(SHORT, at));
    }
    read_body(list, at, size)
}

// How many transitions a list has, and how many intervals in all. A record is judged whole before the limits are.
pub fn read_transitions(list: &[u8]) -> Result<Transitions, Refusal>
    ensures { said result ≡ counted (parse list.now) }
{
    let mut left = MAX_TRANSITIONS;
    let mut at: usize = 0;
    let mut used: usize = 0;
    while at < list.len() {
        let step = read_record(list, at)?;
        if left == 0 {
            return Err(refuse(LIMIT, at));
        }
        if MAX_INTERVALS - used < step.intervals {
            return Err(refuse(LIMIT, at));
        }
        used += step.intervals;
        left -= 1;
        at = step.next;
    }
    Ok(Transitions {
        count: MAX_TRANSITIONS - left,
        intervals: used,
    })
}

// Both ends of every interval, the low and the high + 1, in the order of the records. Refused: every number of the buffer is 0.
// Accepted: twice as many numbers as there are intervals, then zeros.
pub fn read_intervals(list: &[u8], out: &mut [u32]) -> Result<Transitions, Refusal>
    ensures { Writes result (length out.old) out.new (parse_into (length out.old) list.now) }
{
    buffer::clear(out);
    if out.len() < ENDS {
        return Err(refuse(ROOM, 0));
    }
    let answer = read_transitions(list)?;
    intervals::gather(list, out);
    Ok(answer)
}
