// The masks of the segments of a list of transitions: which transitions hold a segment, 64 to a word, for each segment. A list may be of any
// length and hold any bytes.
#![tactic(auto)]

mod records;

ghost use Rattle.std.specs.Prelude.{◌≡◌, true, ◌+◌, ◌*◌, ◌/◌, ◌≤◌, ◌<◌, min, length};
ghost use Rattle.buffer.specs.Over.{Put, zeros};
ghost use Rattle.list_transitions.specs.Transition.{origin, atom, holds, hold_at, in_order};
ghost use Rattle.list_transitions.specs.Bytes.{number_at, size_at, shape_of, trans_of};
ghost use Rattle.list_transitions.specs.Read.{parse, accepted};
ghost use Rattle.list_transitions.specs.Walk.{trans_at, trans_from, Fit};
ghost use Rattle.list_masks.specs.Masks.{bit, word_of, mask_of, masks_at, flat};
ghost use Rattle.list_masks.specs.Walk.{next_of, low_at, high_at, Rises, Passed, Reach, Floor, last, Spans, by_low, Tells, Covers, lows, column, Columned};
ghost use Rattle.list_masks.specs.Answer.{parse_masks, Matrix, Ready};
ghost use Rattle.list_masks.specs.Record.{transition_of};

use list_transitions::ORIGIN;
use records::{Record, high_at, low_at, number_at, record_at, size_at};
use refusal::{ROOM, Refusal};

// No point has a key above LAST; PAST is above it.
const LAST: u64 = 8589934592;

const PAST: u64 = 8589934593;

// The tag of an atom; and the one from which on a record holds what its pairs do not.
const ATOM: u8 = 1;

const NOT_SET: u8 = 4;

// Words of the most masks that a list may have, with some to spare.
pub const WORDS: usize = 8192;

// The keys from `floor` to `high`, of which a record's pairs hold just those that are not below `low`. `pairs` of them end before.
#[derive(Clone, Copy)]
struct Span {
    pairs: usize,
    floor: u64,
    low: u64,
    high: u64,
}

// How many masks there are, and of how many words each.
#[derive(Clone, Copy)]
pub struct Masks {
    pub masks: usize,
    pub words: usize,
}

fn key_of(point: u32) -> u64
    ensures { (result ≡ point + origin) × (result ≤ last) }
{
    u64::from(point) + ORIGIN
}

// How many of the ascending pairs surely end before the key q: as many as the hint says, if the last of these does, or none.
fn seek_from(pairs: &[u8], q: u64, hint: usize) -> usize
    requires { Rises pairs.now (length pairs.now / 8) 0 }
    ensures { Passed pairs.now (length pairs.now / 8) 0 q result }
{
    if hint == 0 {
        return 0;
    }
    if pairs.len() / 8 < hint {
        return 0;
    }
    if high_at(pairs, hint - 1) < q {
        return hint;
    }
    0
}

// How many of the ascending pairs end before the key q. A good hint saves the way.
fn seek(pairs: &[u8], q: u64, hint: usize) -> usize
    requires { Rises pairs.now (length pairs.now / 8) 0 }
    ensures { Reach pairs.now (length pairs.now / 8) 0 q result }
{
    let n = pairs.len() / 8;
    for j in seek_from(pairs, q, hint)..n {
        if q <= high_at(pairs, j) {
            return j;
        }
    }
    n
}

// The key just behind the first j pairs; 0, if j is.
fn floor_at(pairs: &[u8], j: usize) -> u64
    requires { j ≤ length pairs.now / 8 }
    ensures { Floor pairs.now 0 j result }
{
    if j == 0 {
        return 0;
    }
    high_at(pairs, j - 1) + 1
}

// The span of the key q for ascending pairs: up to the end of the first pair that reaches q, or to the last key, if none does.
fn pair_span(pairs: &[u8], q: u64, hint: usize) -> Span
    requires order { Rises pairs.now (length pairs.now / 8) 0 }
    requires key { q ≤ last }
    ensures { Spans pairs.now (length pairs.now / 8) 0 q result.floor result.low result.high }
{
    let j = seek(pairs, q, hint);
    let floor = floor_at(pairs, j);
    if j < pairs.len() / 8 {
        return Span {
            pairs: j,
            floor,
            low: low_at(pairs, j),
            high: high_at(pairs, j),
        };
    }
    Span {
        pairs: j,
        floor,
        low: PAST,
        high: LAST,
    }
}

// The span of the key q for the atom x.
fn atom_span(x: u64, q: u64) -> Span
    requires number { x < 4294967296 }
    requires key { q ≤ last }
    ensures { Covers (atom x) 1 q result.floor result.low result.high }
{
    if q <= x {
        return Span {
            pairs: 0,
            floor: 0,
            low: x,
            high: x,
        };
    }
    Span {
        pairs: 0,
        floor: x + 1,
        low: PAST,
        high: LAST,
    }
}

// The span of the key q for a record. A good hint, how many of its pairs end before q, saves the way.
fn find_span(rec: Record, q: u64, hint: usize) -> Span
    requires { q ≤ last }
    ensures { Covers (transition_of rec.entry) rec.entry.tag q result.floor result.low result.high }
{
    if rec.tag == ATOM {
        return atom_span(number_at(rec.value, 0), q);
    }
    pair_span(rec.value, q, hint)
}

// The same; the last span found, if q lies in it.
fn span_at(rec: Record, q: u64, found: Span) -> Span
    requires key { q ≤ last }
    requires known { Tells (transition_of rec) rec.tag found.floor found.low found.high }
    ensures { Covers (transition_of rec.entry) rec.entry.tag q result.floor result.low result.high }
{
    if found.floor <= q && q <= found.high {
        return found;
    }
    find_span(rec, q, found.pairs)
}

// The bit of a key that lies in a span with this low: is it held?
fn held(tag: u8, low: u64, q: u64) -> u64
    ensures { (result ≡ bit (by_low tag low q)) × (result ≤ 1) }
{
    if tag >= NOT_SET {
        return u64::from(q < low);
    }
    u64::from(low <= q)
}

// The bit of a record and a point: does its transition hold it?
fn bit_from(rec: Record, point: u32) -> u64
    ensures { (result ≡ bit (holds (transition_of rec.entry) point)) × (result ≤ 1) }
{
    let q = key_of(point);
    let span = find_span(rec, q, 0);
    held(rec.tag, span.low, q)
}

// The mask word of the n records from `at` on: bit i is set where record i holds the point.
fn word_of(list: &[u8], at: usize, n: usize, point: u32) -> u64
    requires sound { Fit list.now n at }
    requires few { n ≤ 64 }
    ensures { result ≡ word_of (hold_at (trans_from list.now n at) point) }
{
    if n == 0 {
        return 0;
    }
    let rec = record_at(list, at);
    let more = word_of(list, at + 3 + rec.value.len(), n - 1, point);
    bit_from(rec, point) + 2 * more
}

// Where the record stands that comes n records behind the one at `at`.
fn skip(list: &[u8], at: usize, n: usize) -> usize
    requires { Fit list.now n at }
    ensures { result ≡ next_of list.now n at }
{
    let mut here = at;
    for _ in 0..n {
        here = here + 3 + size_at(list, here + 1);
    }
    here
}

// Writes the mask of a point over n records from k on, and answers the next place. The loop counts what is left: where the next 64 records
// start is known by the walk alone.
fn put_mask(list: &[u8], n: usize, point: u32, out: &mut [u64], k: usize) -> usize
    requires sound { Fit list.now n 0 }
    requires room { k + length (mask_of (trans_from list.now n 0) point) ≤ length out.old }
    ensures { Put (mask_of (trans_from list.now n 0) point) k out.old result out.new }
{
    let mut left = n;
    let mut at: usize = 0;
    let mut m = k;
    while 0 < left {
        let few = left.min(64);
        out[m] = word_of(list, at, few, point);
        at = skip(list, at, few);
        left -= few;
        m += 1;
    }
    m
}

// Puts a bit in front of the words of `count` segments: does the transition of a record hold them? Segments ascend, so that most lie in the
// span of the one before.
fn add_column(rec: Record, segments: &[u32], count: usize, out: &mut [u64])
    requires points { 2 * count ≤ length segments.now }
    requires room { Columned count out.old }
    ensures { out.new ≡ column (transition_of rec.entry) (lows segments.now count 0) out.old }
{
    let mut span = Span {
        pairs: 0,
        floor: 1,
        low: 0,
        high: 0,
    };
    for k in 0..count {
        let q = key_of(segments[2 * k]);
        span = span_at(rec, q, span);
        let b = held(rec.tag, span.low, q);
        out[k] = b + 2 * out[k];
    }
}

// Writes the masks of `count` segments, one word each, record by record from the last, and answers how many words they are.
fn put_columns(list: &[u8], n: usize, segments: &[u32], count: usize, out: &mut [u64]) -> usize
    requires sound { Fit list.now n 0 }
    requires few { (0 < n) × (n ≤ 64) }
    requires points { 2 * count ≤ length segments.now }
    requires room { count ≤ length out.old }
    requires empty { out.old ≡ zeros (length out.old) }
    ensures { Put (flat (masks_at (trans_from list.now n 0) (lows segments.now count 0))) 0
        out.old result out.new }
{
    for i in (0..n).rev() {
        let at = skip(list, 0, i);
        add_column(record_at(list, at), segments, count, out);
    }
    count
}

// Writes the masks of `count` segments, segment by segment, and answers how many words they are.
fn put_rows(list: &[u8], n: usize, segments: &[u32], count: usize, out: &mut [u64]) -> usize
    requires sound { Fit list.now n 0 }
    requires points { 2 * count ≤ length segments.now }
    requires room { 0 + length (flat (masks_at (trans_from list.now n 0) (lows segments.now count 0))) ≤ length out.old }
    ensures { Put (flat (masks_at (trans_from list.now n 0) (lows segments.now count 0))) 0
        out.old result out.new }
{
    let mut k = 0;
    for i in 0..count {
        k = put_mask(list, n, segments[2 * i], out, k);
    }
    k
}

// Writes the masks of `count` segments into a buffer of zeros, and answers how many words they are.
fn put_masks(list: &[u8], n: usize, segments: &[u32], count: usize, out: &mut [u64]) -> usize
    requires sound { Fit list.now n 0 }
    requires points { 2 * count ≤ length segments.now }
    requires room { 0 + length (flat (masks_at (trans_from list.now n 0) (lows segments.now count 0))) ≤ length out.old }
    requires empty { out.old ≡ zeros (length out.old) }
    ensures { Put (flat (masks_at (trans_from list.now n 0) (lows segments.now count 0))) 0
        out.old result out.new }
{
    if 0 < n && n <= 64 {
        return put_columns(list, n, segments, count, out);
    }
    put_rows(list, n, segments, count, out)
}

// How many transitions an accepted list has.
fn transition_count(list: &[u8]) -> usize
    ensures { result ≡ length (accepted (parse list.now)) }
{
    match list_transitions::read_transitions(list) {
        Ok(read) => read.count,
        Err(_) => 0,
    }
}

// The masks of the segments that stand, into a buffer of zeros.
fn fill_masks(list: &[u8], segments: &[u32], count: usize, masks: &mut [u64]) -> Masks
    requires { Ready list.now segments.now count masks.old }
    ensures { Matrix (Ok result) (length segments.now) segments.now (length masks.old) masks.new
        (parse list.now) }
{
    let n = transition_count(list);
    put_masks(list, n, segments, count, masks);
    Masks {
        masks: count,
        words: (n + 63) / 64,
    }
}

// The segments of a list as low, high, and for each its mask. Refused: every number of both buffers is 0. Accepted: behind the answer's
// numbers there are zeros.
pub fn segment_mask_matrix(
    list: &[u8],
    segments: &mut [u32],
    masks: &mut [u64],
) -> Result<Masks, Refusal>
    ensures { Matrix result (length segments.old) segments.new (length masks.old) masks.new
        (parse_masks (length segments.old) (length masks.old) list.now) }
{
    buffer::clear(masks);
    if masks.len() < WORDS {
        buffer::clear(segments);
        return Err(Refusal {
            number: ROOM,
            item: 0,
            place: 0,
        });
    }
    let count = list_segments::char_segments(list, segments)?;
    Ok(fill_masks(list, segments, count, masks))
}
