// What row building asks of one segment, of one range or of one call: the goal that a place was given; whether a range is left out of its
// row, from where on it is seen there and whether the next one touches it; and what stands in the way of the rows.
#![tactic(auto)]

ghost use Rattle.std.specs.Prelude.{◌≡◌, ◌&&◌, ◌||◌, suc, max, eqb, ltb, get_or};
ghost use Rattle.row_goals.specs.Edges.{no_goal, first_of};
ghost use Rattle.refusal.specs.Fixed.{NONE};
ghost use Rattle.row_goals.specs.Goals.{target_at, goal_of, differs, refusal_of};

use refusal::{DEAD_STATE, NONE, ROOM, TARGETS};

// The goal of a segment that is left out.
pub fn no_goal(escape: bool) -> u32
    ensures { result ≡ no_goal escape }
{
    if escape { NONE } else { u32::from(DEAD_STATE) }
}

// A row of targets begins at 128.
fn first_of(escape: bool) -> u32
    ensures { result ≡ first_of escape }
{
    if escape { 0 } else { 128 }
}

// Does a range that starts at `next` lie right behind a high, with the same goal?
pub fn touches(high: u32, goal: u32, next: u32, value: u32) -> bool
    ensures { result ≡ (eqb (suc high) next && eqb goal value) }
{
    high < next && next - high == 1 && goal == value
}

// Is a range left out of its row? One that ends before the row begins is, and one without a goal.
pub fn unseen(escape: bool, high: u32, goal: u32) -> bool
    ensures { result ≡ (ltb high (first_of escape) || eqb goal (no_goal escape)) }
{
    high < first_of(escape) || goal == no_goal(escape)
}

// From where on a range is seen in its row.
pub fn seen_low(escape: bool, low: u32) -> u32
    ensures { result ≡ max low (first_of escape) }
{
    low.max(first_of(escape))
}

// What a place among the distinct masks was given; behind the last, nothing was.
pub fn target_at(targets: &[u16], place: u32) -> u16
    ensures { result ≡ target_at targets.now place }
{
    targets.get(place as usize).copied().unwrap_or(DEAD_STATE)
}

fn continuation_at(continuations: &[u32], place: u32) -> u32
    ensures { result ≡ get_or continuations.now place NONE }
{
    continuations.get(place as usize).copied().unwrap_or(NONE)
}

// The goal of a segment whose mask has that place: its target, or in an escape row its continuation.
pub fn goal_of(targets: &[u16], continuations: &[u32], escape: bool, place: u32) -> u32
    ensures { result ≡ goal_of escape targets.now continuations.now place }
{
    let target = target_at(targets, place);
    if !escape {
        return u32::from(target);
    }
    if target == DEAD_STATE {
        return NONE;
    }
    continuation_at(continuations, place)
}

// What stands in the way of the rows once the records are read: targets or continuations that differ in number from the d distinct masks, or buffers too short.
pub fn refusal_for(d: usize, targets: usize, continuations: usize, short: bool) -> Option<u32>
    ensures { result ≡ refusal_of (differs d targets continuations) short }
{
    if targets != d || continuations != d {
        return Some(TARGETS);
    }
    if short {
        return Some(ROOM);
    }
    None
}
