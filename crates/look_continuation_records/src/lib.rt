// The record of a continuation: where it stands whole, how many contexts and configs it has, and where in the room they stand.
// The room may be of any length and hold any numbers.
#![tactic(auto, using(crate::proofs::RecordLaws::telling), unfolding(crate::specs::Configs::past_contexts, crate::specs::Configs::past_config, crate::specs::Configs::whole_behind, crate::specs::Configs::whole_from, crate::specs::Configs::whole_at, crate::specs::Configs::of_whole, room_find::specs::Room::follow))]

ghost use Rattle.std.specs.Prelude.{◌≡◌, ◌+◌, ◌^◌, ◌<◌, ◌≤◌, ◌-◌, length};
ghost use Rattle.refusal.specs.Header.{HEADER-NUMBERS};
ghost use Rattle.look_continuation_records.specs.Configs.{past_contexts, past_actions, past_config, past_configs, whole_behind, whole_from};
ghost use Rattle.look_continuation_records.specs.Configs.{whole_at, said, record_of, contexts_span, configs_span};

use refusal::{CONTINUATIONS_START, HEADER_NUMBERS, WORD_COUNT};
use room_find::{Missing, Span};

// Where the context count and the config count of a record stand, and where it ends.
#[derive(Clone, Copy, PartialEq, Eq, Debug)]
pub struct Whole {
    pub contexts: usize,
    pub configs: usize,
    pub end: usize,
}

// How many contexts and configs a record has.
#[derive(Clone, Copy, PartialEq, Eq, Debug)]
pub struct ContinuationRecord {
    pub contexts: u32,
    pub configs: u32,
}

fn past_contexts(end: usize, at: usize, count: u32) -> Result<usize, Missing>
    requires { at < 2 ^ 62 }
    ensures { result ≡ past_contexts end at count }
{
    let next = (count as usize) * 3 + (at + 1);
    if next < end {
        return Ok(next);
    }
    Err(Missing::Outside)
}

fn past_actions(end: usize, at: usize, count: u32) -> Result<usize, Missing>
    requires { at < 2 ^ 62 }
    ensures { result ≡ past_actions end at count }
{
    let next = (count as usize) * 3 + (at + 6);
    if next <= end {
        return Ok(next);
    }
    Err(Missing::Outside)
}

// Where the config at a place ends.
fn past_config(room: &[u32], end: usize, at: usize) -> Result<usize, Missing>
    requires { (at ≤ end) × (end ≤ length room.now) }
    ensures { result ≡ past_config room.now end at }
{
    if at + 5 < end {
        return past_actions(end, at, room[at + 5]);
    }
    Err(Missing::Outside)
}

// Where `count` configs from a place on end.
fn past_configs(room: &[u32], end: usize, count: u32, at: usize) -> Result<usize, Missing>
    requires { (at ≤ end) × (end ≤ length room.now) }
    ensures { result ≡ past_configs room.now end count at }
{
    let mut here = at;
    for _ in 0..count {
        here = past_config(room, end, here)?;
    }
    Ok(here)
}

fn whole_behind(room: &[u32], end: usize, at: usize, configs: usize) -> Result<Whole, Missing>
    requires { (configs < end) × (end ≤ length room.now) }
    ensures { result ≡ whole_behind room.now end at configs }
{
    let past = past_configs(room, end, room[configs], configs + 1)?;
    Ok(Whole {
        contexts: at,
        configs,
        end: past,
    })
}

// The record at a place, if all of it lies before `end`.
fn whole_from(room: &[u32], end: usize, at: usize) -> Result<Whole, Missing>
    requires { (at < end) × (end ≤ length room.now) }
    ensures { result ≡ whole_from room.now end at }
{
    let configs = past_contexts(end, at, room[at])?;
    whole_behind(room, end, at, configs)
}

fn whole_in(room: &[u32], words: u32, at: usize) -> Result<Whole, Missing>
    requires { (at < HEADER-NUMBERS + words) × (HEADER-NUMBERS + words ≤ length room.now) }
    ensures { result ≡ whole_from room.now (HEADER-NUMBERS + words) at }
{
    whole_from(room, HEADER_NUMBERS + (words as usize), at)
}

// The record with a number, whole.
pub fn find_whole(room: &[u32], i: u32) -> Result<Whole, Missing>
    ensures { result ≡ whole_at room.now i }
{
    let p = room_find::find_listed(room, CONTINUATIONS_START, i)?;
    whole_in(room, room[WORD_COUNT], p)
}

// The record of a continuation, without its contexts and configs.
pub fn continuation_record(room: &[u32], number: u32) -> Result<ContinuationRecord, Missing>
    ensures { said result ≡ record_of room.now number }
{
    let whole = find_whole(room, number)?;
    Ok(ContinuationRecord {
        contexts: room[whole.contexts],
        configs: room[whole.configs],
    })
}

fn span_between(from: usize, end: usize) -> Span
    requires { from ≤ end }
    ensures { result ≡ record { from = from; length = end - from } }
{
    Span {
        from,
        length: end - from,
    }
}

// The contexts, three numbers each, by their place in the room.
pub fn continuation_contexts_span(room: &[u32], number: u32) -> Span
    ensures { result ≡ contexts_span room.now number }
{
    match find_whole(room, number) {
        Ok(whole) => span_between(whole.contexts + 1, whole.configs),
        Err(_) => span_between(0, 0),
    }
}

// The configs, each with its actions, by their place in the room.
pub fn continuation_configs_span(room: &[u32], number: u32) -> Span
    ensures { result ≡ configs_span room.now number }
{
    match find_whole(room, number) {
        Ok(whole) => span_between(whole.configs + 1, whole.end),
        Err(_) => span_between(0, 0),
    }
}
