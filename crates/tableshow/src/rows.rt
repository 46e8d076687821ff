// The rows of a state on a page. The room may be of any length and hold any numbers: a number that is not there reads as 0.
ghost use Rattle.std.specs.Prelude.{◌≡◌, [], ◌∷◌, ℕ, ◌+◌, ◌^◌, ◌<◌, ◌≤◌};
ghost use Rattle.room_find.specs.Answer.{said};
ghost use Rattle.program_io.specs.Wrote.{Wrote};
ghost use Rattle.tableshow.specs.Joined.{joined};
ghost use Rattle.tableshow.specs.Names.{range, target};
ghost use Rattle.tableshow.specs.Forms.{formed};
ghost use Rattle.tableshow.specs.Rows.{gap, after, ending, item, or_else, target_on, edge, low_after, items_after, ascii_from, ascii_text, ranges_from};
ghost use Rattle.tableshow.specs.Rows.{row_text, place_of, wide_row, first_with, wide_with, wide_text, escapes_text};

use crate::text::put_form;
use crate::{Page, forms};
use refusal::{DEAD_STATE, ESCAPE_STATE, ESCAPES_START, WIDE_START};
use room_find::Missing;
use rule_words::word_at;

// What a target's number may be beside a state's.
pub(crate) const ESCAPE: u32 = ESCAPE_STATE as u32;

pub(crate) const DEAD: u32 = DEAD_STATE as u32;

// A range behind what parts it from the one before: `items` says how many stand on the line.
fn gap_form(items: u32) -> usize
    ensures { (low high : ℕ) → formed result low high 0 ≡ joined (gap items ∷ range low high ∷ []) }
{
    if items == 3 {
        return forms::NEXT_LINE;
    }
    forms::SAME_LINE
}

fn after(items: u32) -> u32
    ensures { result ≡ after items }
{
    if items < 3 {
        return items + 1;
    }
    1
}

fn ending_form(items: u32) -> usize
    ensures { formed result 0 0 0 ≡ ending items }
{
    if items == 0 {
        return forms::NO_ITEMS;
    }
    forms::END_LINE
}

// What an edge leads to.
#[derive(Clone, Copy)]
pub(crate) enum Kind {
    Target,
    Continuation,
}

fn target_form(kind: Kind, to: u32) -> usize
    ensures { formed result to 0 0 ≡ target kind to }
{
    match kind {
        Kind::Continuation => forms::TO_CONTINUATION,
        Kind::Target => match to {
            ESCAPE => forms::TO_ESCAPE,
            DEAD => forms::TO_DEAD,
            _ => forms::TO,
        },
    }
}

// A range, and where it leads.
fn put_item(items: u32, low: u32, high: u32, kind: Kind, to: u32, page: &mut Page)
    ensures { Wrote (item items low high kind to) page.old page.new }
{
    put_form(gap_form(items), low as u64, high as u64, 0, page);
    put_form(target_form(kind, to), to as u64, 0, 0, page)
}

// A number that is told of a state, or another where there is none.
pub(crate) fn number_or(answer: Result<u32, Missing>, other: u32) -> u32
    ensures { result ≡ or_else other (said answer) }
{
    answer.unwrap_or(other)
}

// The target on a symbol.
fn target_on(room: &[u32], state: u16, symbol: u32) -> u32
    ensures { result ≡ target_on room.now state symbol }
{
    if symbol < 128 {
        return number_or(look_targets::ascii_target(room, state, symbol as u8), DEAD);
    }
    DEAD
}

// The range from `low` to `symbol`, if it ends there and is not dead.
fn put_edge(to: u32, next: u32, low: u32, symbol: u32, items: u32, page: &mut Page)
    ensures { Wrote (edge to next low symbol items) page.old page.new }
{
    if to == next {
        return;
    }
    if to == DEAD {
        return;
    }
    put_item(items, low, symbol, Kind::Target, to, page)
}

fn low_after(to: u32, next: u32, low: u32, symbol: u32) -> u32
    ensures { result ≡ low_after to next low symbol }
{
    if to == next {
        return low;
    }
    symbol
}

fn items_after(to: u32, next: u32, items: u32) -> u32
    ensures { result ≡ items_after to next items }
{
    if to == next {
        return items;
    }
    if to == DEAD {
        return items;
    }
    after(items)
}

// So many symbols of the ascii row.
fn put_edges(room: &[u32], state: u16, count: u32, page: &mut Page)
    ensures { Wrote (ascii_from room.now state count 0 0 0) page.old page.new }
{
    let mut low = 0;
    let mut items = 0;
    let mut to = target_on(room, state, 0);
    for symbol in 0..count {
        let next = target_on(room, state, symbol + 1);
        put_edge(to, next, low, symbol, items, page);
        low = low_after(to, next, low, symbol + 1);
        items = items_after(to, next, items);
        to = next;
    }
    put_form(ending_form(items), 0, 0, 0, page)
}

// The ascii row of a state.
pub(crate) fn put_ascii(room: &[u32], state: u16, page: &mut Page)
    ensures { Wrote (ascii_text room.now state) page.old page.new }
{
    put_form(forms::ASCII, 0, 0, 0, page);
    put_edges(room, state, 128, page)
}

// So many ranges behind the number at `at`.
fn put_ranges(kind: Kind, room: &[u32], count: u32, at: usize, page: &mut Page)
    requires { at ≤ 2 ^ 62 }
    ensures { Wrote (ranges_from kind room.now count (at + 1) 0) page.old page.new }
{
    let mut items = 0;
    for i in 0..count {
        let here = at + 1 + 3 * i as usize;
        let low = word_at(room, here);
        let high = word_at(room, here + 1);
        let to = word_at(room, here + 2);
        put_item(items, low, high, kind, to, page);
        items = after(items);
    }
    put_form(ending_form(items), 0, 0, 0, page)
}

// The row whose length stands at a place.
fn put_row(label: usize, kind: Kind, room: &[u32], at: usize, page: &mut Page)
    requires { at ≤ 2 ^ 62 }
    ensures { Wrote (row_text (formed label 0 0 0) kind room.now at) page.old page.new }
{
    let count = word_at(room, at);
    if count == 0 {
        return;
    }
    put_form(label, 0, 0, 0, page);
    put_ranges(kind, room, count, at, page)
}

// Where the lookups find record `i` of section `k`; 0 where they find none.
pub(crate) fn place_of(room: &[u32], k: usize, i: u32) -> usize
    ensures { (result ≡ place_of room.now k i) × (result < 2 ^ 62) }
{
    match room_find::find_listed(room, k, i) {
        Ok(p) => p,
        Err(_) => 0,
    }
}

// The number of a state's wide row.
fn wide_row(room: &[u32], state: u16) -> u32
    ensures { result ≡ wide_row room.now state }
{
    match room_find::find_state(room, state) {
        Ok(p) => room[p + 1],
        Err(_) => 0,
    }
}

// The first state that has a wide row, of those before `state`; or that one.
fn first_with(room: &[u32], row: u32, state: u16) -> u16
    ensures { result ≡ first_with room.now row state 0 }
{
    for t in 0..state {
        if wide_row(room, t) == row {
            return t;
        }
    }
    state
}

fn put_wide_at(room: &[u32], state: u16, at: usize, first: u16, page: &mut Page)
    requires { at < 2 ^ 62 }
    ensures { Wrote (wide_with room.now state at first) page.old page.new }
{
    if first == state {
        return put_row(forms::WIDE, Kind::Target, room, at, page);
    }
    if word_at(room, at) == 0 {
        return;
    }
    put_form(forms::WIDE_AS, first as u64, 0, 0, page)
}

// The wide row of a state, or the state before it that has the same.
pub(crate) fn put_wide(room: &[u32], state: u16, page: &mut Page)
    ensures { Wrote (wide_text room.now state) page.old page.new }
{
    let row = wide_row(room, state);
    let first = first_with(room, row, state);
    let at = place_of(room, WIDE_START, row);
    put_wide_at(room, state, at, first, page)
}

// The escape row of a state.
pub(crate) fn put_escapes(room: &[u32], state: u16, page: &mut Page)
    ensures { Wrote (escapes_text room.now state) page.old page.new }
{
    let at = place_of(room, ESCAPES_START, state as u32);
    put_row(forms::ESCAPES, Kind::Continuation, room, at + 1, page)
}
