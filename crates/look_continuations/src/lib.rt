// The continuation of an escaped edge: on a character, and at the end of the input. The room may be of any length and hold any numbers.
#![tactic(auto, using(crate::proofs::Laws::chain), unfolding(crate::specs::Continuation::search_row, room_find::specs::Room::follow, look_row::specs::Search::given))]

ghost use Rattle.std.specs.Prelude.{◌≡◌};
ghost use Rattle.room_find.specs.Answer.{said};
ghost use Rattle.look_continuations.specs.Continuation.{search_row, char_in_row, char_continuation, eof_in_row, eof_continuation};

use refusal::{CONTINUATIONS_START, ESCAPES_START, NONE};
use room_find::Missing;

// The continuation in the escape row whose length stands at `at`.
fn search_row(room: &[u32], at: usize, end: u32, symbol: u32) -> Result<u32, Missing>
    ensures { said result ≡ search_row room.now at end symbol }
{
    let found = look_row::search_row(room, at, end, symbol)?;
    Ok(found.unwrap_or(NONE))
}

fn char_in_row(room: &[u32], row: u32, symbol: u32) -> Result<u32, Missing>
    ensures { said result ≡ char_in_row room.now row symbol }
{
    let Ok(p) = room_find::find_listed(room, ESCAPES_START, row) else {
        return Err(Missing::Outside);
    };
    search_row(room, p + 1, room[CONTINUATIONS_START], symbol)
}

// The continuation on a character, or on any 32-bit word that stands for one.
pub fn char_continuation(room: &[u32], state: u16, symbol: u32) -> Result<u32, Missing>
    ensures { said result ≡ char_continuation room.now state symbol }
{
    room_find::find_state(room, state)?;
    char_in_row(room, u32::from(state), symbol)
}

fn eof_in_row(room: &[u32], row: u32) -> Result<u32, Missing>
    ensures { said result ≡ eof_in_row room.now row }
{
    let Ok(p) = room_find::find_listed(room, ESCAPES_START, row) else {
        return Err(Missing::Outside);
    };
    Ok(room[p])
}

// The continuation at the end of the input.
pub fn eof_continuation(room: &[u32], state: u16) -> Result<u32, Missing>
    ensures { said result ≡ eof_continuation room.now state }
{
    room_find::find_state(room, state)?;
    eof_in_row(room, u32::from(state))
}
