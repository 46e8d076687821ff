// Finding a record in a room: one of a fixed size, and one of a length of its own by its place in a list.
// The room may be of any length and hold any numbers: each call says whether what it follows is there.
#![tactic(auto, unfolding(crate::specs::Room::record_in, crate::specs::Room::listed_in, crate::specs::Room::state_at, crate::specs::Room::listed_at))]

ghost use Rattle.std.specs.Prelude.{◌≡◌, ◌+◌, ◌-◌, ◌<◌, ◌≤◌, length};
ghost use Rattle.room_find.specs.Room.{placed, record_in, state_at, within, numbered, listed_in, end_of, section_of, past_lists, listed_at};
ghost use Rattle.refusal.specs.Header.{HEADER-NUMBERS, ASCII-START, CONTINUATIONS-START};

use refusal::{
    ASCII_START, CONTINUATIONS_START, HEADER_NUMBERS, RUNS_START, STATES_START, WORD_COUNT,
};

// Why a lookup gives nothing: there is none of that number; or what it follows leads outside the room or its section, so that this is no table.
#[derive(Clone, Copy, PartialEq, Eq, Debug)]
pub enum Missing {
    Absent,
    Outside,
}

// A part of the room by its place, and how many numbers it has.
#[repr(C)]
#[derive(Clone, Copy)]
pub struct Span {
    pub from: usize,
    pub length: usize,
}

// Record `i` of `count`, of `size` numbers each, in a section from `start` to before `end`.
fn place(start: u32, end: u32, count: u32, size: u32, i: u32) -> Result<usize, Missing>
    ensures { result ≡ placed start end count size i }
{
    if i < count {
        let at = (i as usize) * (size as usize) + (start as usize);
        if at + (size as usize) < (end as usize) {
            return Ok(at + 1);
        }
        return Err(Missing::Outside);
    }
    Err(Missing::Absent)
}

// Record `i` of a section whose records have `size` numbers each.
pub fn record_in(room: &[u32], start: u32, end: u32, size: u32, i: u32) -> Result<usize, Missing>
    ensures { result ≡ record_in room.now start end size i }
{
    if start < end && (end as usize) <= room.len() {
        return place(start, end, room[start as usize], size, i);
    }
    Err(Missing::Outside)
}

// A state, by its number.
pub fn find_state(room: &[u32], state: u16) -> Result<usize, Missing>
    ensures { result ≡ state_at room.now state }
{
    if CONTINUATIONS_START < room.len() {
        return record_in(
            room,
            room[STATES_START],
            room[RUNS_START],
            4,
            u32::from(state),
        );
    }
    Err(Missing::Outside)
}

// A place that lies in its section, behind the count.
fn within(start: u32, end: usize, at: u32) -> Result<usize, Missing>
    ensures { result ≡ within start end at }
{
    if start < at && (at as usize) < end {
        return Ok(at as usize);
    }
    Err(Missing::Outside)
}

// The place that is number `i` of the list at `list`, if it lies in the section.
fn place_in(room: &[u32], start: u32, end: usize, i: u32, list: usize) -> Result<usize, Missing>
    ensures { result ≡ numbered room.now start end list i }
{
    if list < room.len() && list + (i as usize) < room.len() {
        return within(start, end, room[list + (i as usize)]);
    }
    Err(Missing::Outside)
}

// Record `i` of a section whose records vary in length, by its place in the list at `list`.
fn listed_in(room: &[u32], start: u32, end: usize, i: u32, list: usize) -> Result<usize, Missing>
    ensures { result ≡ listed_in room.now start end i list }
{
    if (start as usize) < end && end <= room.len() {
        if i < room[start as usize] {
            return place_in(room, start, end, i, list);
        }
        return Err(Missing::Absent);
    }
    Err(Missing::Outside)
}

// Where section `k` ends: the last one with the words.
fn end_of(room: &[u32], k: usize) -> usize
    requires { (k ≤ CONTINUATIONS-START) × (CONTINUATIONS-START < length room.now) }
    ensures { result ≡ end_of room.now k }
{
    if k == CONTINUATIONS_START {
        return HEADER_NUMBERS + (room[WORD_COUNT] as usize);
    }
    room[k + 1] as usize
}

// The section whose places stand in list `j`.
fn section_of(j: usize) -> usize
    requires { j ≤ 4 }
    ensures { (result ≡ section_of j) × (result ≤ CONTINUATIONS-START) }
{
    if j == 0 { RUNS_START } else { ASCII_START + j }
}

// Record `i` of a section, by its place in the list behind `count` others.
fn past_lists(
    room: &[u32],
    count: usize,
    words: u32,
    start: u32,
    end: usize,
    i: u32,
) -> Result<usize, Missing>
    requires { (count ≤ 4) × (CONTINUATIONS-START < length room.now) }
    ensures { result ≡ past_lists room.now count 0 (HEADER-NUMBERS + words) (listed_in room.now start end i) }
{
    let mut list = HEADER_NUMBERS + (words as usize);
    for j in 0..count {
        let at = room[section_of(j)] as usize;
        if room.len() <= at {
            return Err(Missing::Outside);
        }
        list += room[at] as usize;
    }
    listed_in(room, start, end, i, list)
}

// Record `i` of section `k` of the header, whose records vary in length.
pub fn find_listed(room: &[u32], k: usize, i: u32) -> Result<usize, Missing>
    ensures { result ≡ listed_at room.now k i }
{
    if CONTINUATIONS_START < room.len() && k <= CONTINUATIONS_START {
        let count = k.saturating_sub(ASCII_START);
        let end = end_of(room, k);
        return past_lists(room, count, room[WORD_COUNT], room[k], end, i);
    }
    Err(Missing::Outside)
}
