// What a state accepts, by number; the record of an accept, and where in the room its actions stand. The room may be of any length and hold any numbers.
#![tactic(auto, using(crate::proofs::RecordLaws::chain), unfolding(crate::specs::Record::whole_to, crate::specs::Record::record_at, room_find::specs::Room::follow))]

ghost use Rattle.std.specs.Prelude.{◌≡◌, ◌+◌, ◌*◌, ◌<◌, ◌≤◌, length};
ghost use Rattle.room_find.specs.Answer.{said};
ghost use Rattle.look_accepts.specs.Accept.{accept_of};
ghost use Rattle.look_accepts.specs.Record as recorded;

use refusal::{ACCEPTS_START, ESCAPES_START};
use room_find::{Missing, Span};

// The rule and the flag of a record and how many actions it has.
#[derive(Clone, Copy, PartialEq, Eq, Debug)]
pub struct AcceptRecord {
    pub rule: u32,
    pub consumed_eof: bool,
    pub actions: u32,
}

// The number of a state's accept, or NONE.
pub fn accept(room: &[u32], state: u16) -> Result<u32, Missing>
    ensures { said result ≡ accept_of room.now state }
{
    let p = room_find::find_state(room, state)?;
    Ok(room[p + 3])
}

fn whole_with(end: u32, at: usize, count: u32) -> Result<usize, Missing>
    requires { at < end }
    ensures { result ≡ recorded.whole_with end at count }
{
    if (count as usize) * 3 + (at + 2) < (end as usize) {
        return Ok(at);
    }
    Err(Missing::Outside)
}

// The record at a place, if all of it lies before `end`.
fn whole_to(room: &[u32], end: u32, at: usize) -> Result<usize, Missing>
    requires { (at < end) × (end ≤ length room.now) }
    ensures { result ≡ recorded.whole_to room.now end at }
{
    if at + 2 < (end as usize) {
        return whole_with(end, at, room[at + 2]);
    }
    Err(Missing::Outside)
}

// The record with a number, whole.
fn find_record(room: &[u32], i: u32) -> Result<usize, Missing>
    ensures { result ≡ recorded.record_at room.now i }
{
    let p = room_find::find_listed(room, ACCEPTS_START, i)?;
    whole_to(room, room[ESCAPES_START], p)
}

// The record of an accept, without its actions.
pub fn accept_record(room: &[u32], number: u32) -> Result<AcceptRecord, Missing>
    ensures { recorded.said result ≡ recorded.record_of room.now number }
{
    let p = find_record(room, number)?;
    Ok(AcceptRecord {
        rule: room[p],
        consumed_eof: room[p + 1] != 0,
        actions: room[p + 2],
    })
}

fn span_of(from: usize, count: u32) -> Span
    ensures { result ≡ record { from = from; length = count * 3 } }
{
    Span {
        from,
        length: (count as usize) * 3,
    }
}

// The actions of an accept, three numbers each, by their place in the room.
pub fn accept_actions_span(room: &[u32], number: u32) -> Span
    ensures { result ≡ recorded.actions_span room.now number }
{
    match find_record(room, number) {
        Ok(p) => span_of(p + 3, room[p + 2]),
        Err(_) => span_of(0, 0),
    }
}
