// Where a state goes: on a byte, on a character, and at the end of the input. The room may be of any length and hold any numbers.
//
// The room of samples/ply-82.words, state 0, the symbol 8451: `find_state` sees that the room has its header and that the states' section
// holds the four numbers of state 0. The symbol is past 127, so the second of them, 0, is a wide row's number; its place stands in the
// list behind the words. The row has no range that reaches the symbol, so the answer is 65535, dead. A number that led outside would have
// been NOT-TABLE, and state 1 STATE.
#![tactic(auto, using(crate::proofs::Laws::chain), unfolding(crate::specs::Targets::ascii_row_at, crate::specs::Targets::row_target, room_find::specs::Room::follow, look_row::specs::Search::given))]

ghost use Rattle.std.specs.Prelude.{◌≡◌};
ghost use Rattle.room_find.specs.Answer.{said};
ghost use Rattle.look_targets.specs.Targets.{half, ascii_row_at, row_target, ascii_target, wide_row_at, target, eof_target};
ghost use Rattle.look_targets.specs.Targets.{search_target, wide_target, wide_of, char_target};

use refusal::{ACCEPTS_START, ASCII_START, CONTINUATIONS_START, DEAD_STATE, WIDE_START};
use room_find::Missing;

// The half of a packed word that is a symbol's.
fn half_of(word: u32, symbol: u32) -> u32
    ensures { result ≡ half word symbol }
{
    if symbol % 2 == 0 {
        return word % 65536;
    }
    word / 65536
}

fn find_ascii_row(room: &[u32], row: u32) -> Result<usize, Missing>
    ensures { result ≡ ascii_row_at room.now row }
{
    if room.len() <= CONTINUATIONS_START {
        return Err(Missing::Outside);
    }
    room_find::record_in(room, room[ASCII_START], room[WIDE_START], 64, row)
}

// The target in an ascii row.
fn row_target(room: &[u32], row: u32, symbol: u32) -> Result<u32, Missing>
    ensures { said result ≡ row_target room.now row symbol }
{
    let Ok(p) = find_ascii_row(room, row) else {
        return Err(Missing::Outside);
    };
    if symbol < 128 {
        return Ok(half_of(room[p + (symbol / 2) as usize], symbol));
    }
    Err(Missing::Absent)
}

// The target on a byte; one past 127 is no symbol of an ascii row.
pub fn ascii_target(room: &[u32], state: u16, symbol: u8) -> Result<u32, Missing>
    ensures { said result ≡ ascii_target room.now state symbol }
{
    let p = room_find::find_state(room, state)?;
    row_target(room, room[p], u32::from(symbol))
}

// Where a wide row stands: its length, and its ranges behind it.
pub fn find_wide_row(room: &[u32], row: u32) -> Result<usize, Missing>
    ensures { result ≡ wide_row_at room.now row }
{
    room_find::find_listed(room, WIDE_START, row)
}

// A target that its field allows.
fn allowed(t: u32) -> Result<u32, Missing>
    ensures { said result ≡ target t }
{
    if t <= u32::from(DEAD_STATE) {
        return Ok(t);
    }
    Err(Missing::Outside)
}

// The target at the end of the input.
pub fn eof_target(room: &[u32], state: u16) -> Result<u32, Missing>
    ensures { said result ≡ eof_target room.now state }
{
    let p = room_find::find_state(room, state)?;
    allowed(room[p + 2])
}

// The target in the wide row whose length stands at `at`; dead where no range holds the symbol.
fn search_target(room: &[u32], at: usize, end: u32, symbol: u32) -> Result<u32, Missing>
    ensures { said result ≡ search_target room.now at end symbol }
{
    match look_row::search_row(room, at, end, symbol)? {
        Some(t) => allowed(t),
        None => Ok(u32::from(DEAD_STATE)),
    }
}

fn wide_target(room: &[u32], row: u32, symbol: u32) -> Result<u32, Missing>
    ensures { said result ≡ wide_target room.now row symbol }
{
    let Ok(p) = find_wide_row(room, row) else {
        return Err(Missing::Outside);
    };
    search_target(room, p, room[ACCEPTS_START], symbol)
}

// The target on a symbol that no ascii row has.
fn wide_of(room: &[u32], state: u16, symbol: u32) -> Result<u32, Missing>
    ensures { said result ≡ wide_of room.now state symbol }
{
    let p = room_find::find_state(room, state)?;
    wide_target(room, room[p + 1], symbol)
}

// The target on a character, or on any 32-bit word that stands for one.
pub fn char_target(room: &[u32], state: u16, symbol: u32) -> Result<u32, Missing>
    ensures { said result ≡ char_target room.now state symbol }
{
    if symbol < 128 {
        return ascii_target(room, state, symbol as u8);
    }
    wide_of(room, state, symbol)
}
