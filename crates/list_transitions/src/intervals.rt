// Both ends of the intervals of a list, written into a lent buffer. The list was judged before: its records are walked here without a test.
ghost use Rattle.std.specs.Prelude.{◌≡◌, [], true, ◌+◌, ◌≤◌, length};
ghost use Rattle.buffer.specs.Over.{Put};
ghost use Rattle.list_transitions.specs.Transition.{origin};
ghost use Rattle.list_transitions.specs.Intervals.{clip, clips, gaps, intervals, ends, ends_all};
ghost use Rattle.list_transitions.specs.Bytes.{pairs_in};
ghost use Rattle.list_transitions.specs.Values.{transition_of};
ghost use Rattle.list_transitions.specs.Read.{parse, is_parsed, accepted};

use crate::{BEYOND, ORIGIN, Value, cut, pair_at, read_value, size_at};

// Writes both ends of the points whose keys are from a to before b, where there is one, and answers the next place.
fn put_span(out: &mut [u32], n: usize, a: u64, b: u64) -> usize
    requires { n + length (ends (clip a b [])) ≤ length out.old }
    ensures { Put (ends (clip a b [])) n out.old result out.new }
{
    let Some((low, end)) = cut(a, b) else {
        return n;
    };
    out[n] = low;
    out[n + 1] = end;
    n + 2
}

// The ends of a set's intervals ..
fn put_clips(pairs: &[u8], out: &mut [u32], n: usize) -> usize
    requires { n + length (ends (clips (pairs_in pairs.now))) ≤ length out.old }
    ensures { Put (ends (clips (pairs_in pairs.now))) n out.old result out.new }
{
    let mut m = n;
    for i in 0..pairs.len() / 8 {
        let (low, high) = pair_at(pairs, i);
        m = put_span(out, m, low, high + 1);
    }
    m
}

// .. and of a not-set's.
fn put_gaps(pairs: &[u8], out: &mut [u32], n: usize) -> usize
    requires { n + length (ends (gaps origin (pairs_in pairs.now))) ≤ length out.old }
    ensures { Put (ends (gaps origin (pairs_in pairs.now))) n out.old result out.new }
{
    let mut next = ORIGIN;
    let mut m = n;
    for i in 0..pairs.len() / 8 {
        let (low, high) = pair_at(pairs, i);
        m = put_span(out, m, next, low);
        next = next.max(high + 1);
    }
    put_span(out, m, next, BEYOND)
}

fn put_ends(value: Value, out: &mut [u32], n: usize) -> usize
    requires { n + length (ends (intervals (transition_of value))) ≤ length out.old }
    ensures { Put (ends (intervals (transition_of value.entry))) n out.old result out.new }
{
    match value {
        Value::Atom(k) => put_span(out, n, u64::from(k), u64::from(k) + 1),
        Value::Range(low, high) => put_span(out, n, u64::from(low), u64::from(high) + 1),
        Value::Set(pairs) => put_clips(pairs, out, n),
        Value::NotSet(pairs) => put_gaps(pairs, out, n),
        Value::Wildcard => put_span(out, n, ORIGIN, BEYOND),
    }
}

// Writes the ends of all intervals of an accepted list, and answers how many.
pub(crate) fn gather(list: &[u8], out: &mut [u32]) -> usize
    requires good { is_parsed (parse list.now) ≡ true }
    requires room { 2048 ≤ length out.old }
    ensures { Put (ends_all (accepted (parse list.now))) 0 out.old result out.new }
{
    let mut at: usize = 0;
    let mut n: usize = 0;
    while at < list.len() {
        let next = at + 3 + size_at(list, at + 1);
        let value = read_value(list[at], &list[at + 3..next]).unwrap();
        n = put_ends(value, out, n);
        at = next;
    }
    n
}
