// The search of a row of ranges: to the first range whose high reaches the symbol. In a room, which may be of any length and hold any
// numbers; and over a lent slice of range records (`wide_target`), which answers what the search over numbers does.
#![tactic(auto, unfolding(crate::specs::Search::searched))]

ghost use Rattle.std.specs.Prelude.{◌≡◌, ◌≤◌, ◌<◌, ◌+◌, ◌*◌, length};
ghost use Rattle.look_row.specs.Search.{found, counted, searched};
ghost use Rattle.look_row.specs.Ranges.{target_in};

use refusal::DEAD_STATE;
use room_find::Missing;

// What is left of a search.
#[derive(Clone, Copy)]
struct Rest {
    at: usize,
    left: u32,
}

// Passes ranges by fours while no high reaches `x`. A `while`, since over chunks of twelve numbers the place of the first range that is
// not passed, and how many are left, would have to be counted beside: no plainer.
fn skip(room: &[u32], x: u32, count: u32, at: usize) -> Rest
    requires { at + count * 3 ≤ length room.now }
    ensures { (found room.now x result.left result.at ≡ found room.now x count at)
        × (result.at + result.left * 3 ≤ length room.now) }
{
    let mut left = count;
    let mut here = at;
    while 3 < left {
        if x <= room[here + 1] {
            return Rest { at: here, left };
        }
        if x <= room[here + 4] {
            return Rest { at: here, left };
        }
        if x <= room[here + 7] {
            return Rest { at: here, left };
        }
        if x <= room[here + 10] {
            return Rest { at: here, left };
        }
        here += 12;
        left -= 4;
    }
    Rest { at: here, left }
}

// Of `count` ranges from `at`, the third number of the first whose high reaches `x`, unless its low passes `x`.
fn find_from(room: &[u32], x: u32, count: u32, at: usize) -> Option<u32>
    requires { at + count * 3 ≤ length room.now }
    ensures { result ≡ found room.now x count at }
{
    let mut here = at;
    for _ in 0..count {
        if x <= room[here + 1] {
            if room[here] <= x {
                return Some(room[here + 2]);
            }
            return None;
        }
        here += 3;
    }
    None
}

// The same, by fours as long as there are four.
fn find(room: &[u32], x: u32, count: u32, at: usize) -> Option<u32>
    requires { at + count * 3 ≤ length room.now }
    ensures { result ≡ found room.now x count at }
{
    let rest = skip(room, x, count, at);
    find_from(room, x, rest.left, rest.at)
}

// The row of `count` ranges behind `at`, in a section that ends at `end`.
fn search_counted(
    room: &[u32],
    at: usize,
    count: u32,
    end: u32,
    x: u32,
) -> Result<Option<u32>, Missing>
    requires { (at < end) × (end ≤ length room.now) }
    ensures { result ≡ counted room.now at end count x }
{
    if (count as usize) * 3 + at < (end as usize) {
        return Ok(find(room, x, count, at + 1));
    }
    Err(Missing::Outside)
}

// The third number of the range that holds `x`, or none, in the row whose length stands at `at`, in a section that ends at `end`.
pub fn search_row(room: &[u32], at: usize, end: u32, x: u32) -> Result<Option<u32>, Missing>
    ensures { result ≡ searched room.now at end x }
{
    if (end as usize) <= room.len() && at < (end as usize) {
        return search_counted(room, at, room[at], end, x);
    }
    Err(Missing::Outside)
}

// A range of symbols, and where it leads.
#[derive(Clone, Copy)]
pub struct WideRange {
    pub low: u32,
    pub high: u32,
    pub target: u16,
}

// The target of the first range whose high reaches the symbol, if its low does not pass the symbol; else dead.
pub fn wide_target(row: &[WideRange], symbol: u32) -> u16
    ensures { result ≡ target_in row.now symbol }
{
    for i in 0..row.len() {
        let range = row[i];
        if symbol <= range.high {
            if range.low <= symbol {
                return range.target;
            }
            return DEAD_STATE;
        }
    }
    DEAD_STATE
}
