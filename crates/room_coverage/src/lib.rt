// How many code points a state goes on with. The ascii row's 128 targets are asked one by one; behind them the ranges of the wide row are
// counted, each as long as it reaches, so that no call walks over a million points.
#![tactic(auto)]

ghost use Rattle.std.specs.Prelude.{◌≡◌, true, [], ◌∷◌, ◌+◌, ◌*◌, ◌≤◌, ◌<◌, length};
ghost use Rattle.refusal.specs.Said.{ok};
ghost use Rattle.room_find.specs.Answer.{said};
ghost use Rattle.room_find.specs.Room.{of_state};
ghost use Rattle.room_judge.specs.Judge.{is_table};
ghost use Rattle.room_coverage.specs.Coverage.{not_dead, goes_on, count, covered, coverage_of};
ghost use Rattle.room_coverage.specs.Spans.{below, span, spans, row_spans, wide_spans};

use refusal::DEAD_STATE;
use room_find::Missing;

// The first code point at which a state goes by its wide row.
const WIDE: u64 = 128;

// How many code points there are.
const POINTS: u64 = 1114112;

fn is_alive(target: Result<u32, Missing>) -> bool
    ensures { result ≡ not_dead (said target) }
{
    match target {
        Ok(t) => t != u32::from(DEAD_STATE),
        Err(_) => false,
    }
}

// The state goes on at a point.
fn goes_on(room: &[u32], state: u16, x: u32) -> bool
    ensures { result ≡ goes_on room.now state x }
{
    is_alive(look_targets::char_target(room, state, x))
}

// The points below 128.
fn ascii_points(room: &[u32], state: u16) -> u32
    ensures { result ≡ count (goes_on room.now state) 128 }
{
    let mut points = 0;
    for x in 0..128 {
        points += u32::from(goes_on(room, state, x));
    }
    points
}

// How many of the points 128 to 1,114,111 lie below `x`.
fn points_below(x: u64) -> u64
    ensures { result ≡ below x }
{
    x.min(POINTS).saturating_sub(WIDE)
}

// How many of them a range holds, where it is not dead.
fn range_points(low: u32, high: u32, target: u32) -> u64
    ensures { result ≡ span low high target }
{
    if target == u32::from(DEAD_STATE) {
        return 0;
    }
    points_below(u64::from(high) + 1).saturating_sub(points_below(u64::from(low)))
}

// The points of `count` ranges from `at`. By places and not by `chunks_exact`, since the definition, `spans`, walks the room by its places too.
fn ranges_points(room: &[u32], at: usize, count: u32) -> u64
    requires { at + count * 3 ≤ length room.now }
    ensures { result ≡ spans room.now count at }
{
    let mut points = 0;
    let mut here = at;
    for _i in 0..count {
        points += range_points(room[here], room[here + 1], room[here + 2]);
        here += 3;
    }
    points
}

// The points of the row of `count` ranges whose length stands at `at`.
fn row_points(room: &[u32], at: usize, count: u32) -> u64
    requires { at < length room.now }
    ensures { result ≡ row_spans room.now at count }
{
    if (count as usize) * 3 + at < room.len() {
        return ranges_points(room, at + 1, count);
    }
    0
}

// The points of a wide row.
fn wide_points(room: &[u32], row: u32) -> u64
    ensures { result ≡ wide_spans room.now row }
{
    match look_targets::find_wide_row(room, row) {
        Ok(p) => row_points(room, p, room[p]),
        Err(_) => 0,
    }
}

// The points of a state, in a room that is a table.
fn state_points(room: &[u32], state: u16) -> Result<u32, Missing>
    requires { is_table room.now ≡ true }
    ensures { said result ≡ of_state room.now state (λ p. ok (covered room.now state ∷ [])) }
{
    let p = room_find::find_state(room, state)?;
    let ascii = ascii_points(room, state);
    let wide = wide_points(room, room[p + 1]);
    Ok(ascii + wide as u32)
}

// How many code points from 0 to 1,114,111 are not dead in a state; NOT-TABLE exactly when the room isn't what decoding leaves for some
// accepted words.
pub fn coverage(room: &[u32], state: u16) -> Result<u32, Missing>
    ensures { said result ≡ coverage_of room.now state }
{
    match room_judge::table_in(room) {
        Ok(_) => state_points(room, state),
        Err(_) => Err(Missing::Outside),
    }
}
