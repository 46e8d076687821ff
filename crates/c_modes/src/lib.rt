// The modes of a decoded table and its count of states, for C and Rust: the room passes as pointer and length, answers come back as structs.
// A number of 0 says answered; else it is document 01's refusal, and the value is 0.
#![tactic(auto, using(crate::proofs::Calls::looking))]

ghost use Rattle.std.specs.Prelude.{◌≡◌};
ghost use Rattle.look_modes.specs.Start as starting;
ghost use Rattle.look_modes.specs.Modes as moding;
ghost use Rattle.c_value.specs.Value.{value_in_c};

use c_value::CValue;
use refusal::NONE;
use room_find::Missing;

// A function and no `From`: neither type is this crate's. So is `start_in_c`.
fn compiled_in_c(compiled: Result<bool, Missing>) -> CValue
    ensures { result ≡ value_in_c (moding.compiled_said compiled) }
{
    c_value::value_in_c(compiled.map(u32::from))
}

// Whether some mode is compiled: 1 or 0.
#[unsafe(no_mangle)]
pub extern "C" fn lexer_dfa_has_compiled_modes(room: &[u32]) -> CValue
    ensures { result ≡ value_in_c (moding.has_compiled_modes room.now) }
{
    compiled_in_c(look_modes::has_compiled_modes(room))
}

// How many states there are.
#[unsafe(no_mangle)]
pub extern "C" fn lexer_dfa_state_count(room: &[u32]) -> CValue
    ensures { result ≡ value_in_c (moding.state_count room.now) }
{
    c_value::value_in_c(look_modes::state_count(room))
}

fn start_in_c(start: Result<Option<u16>, Missing>) -> CValue
    ensures { result ≡ value_in_c (starting.said start) }
{
    c_value::value_in_c(start.map(|at| at.map_or(NONE, u32::from)))
}

// The start of a mode, whose number is a 32-bit word in two's complement; NONE where it has none.
#[unsafe(no_mangle)]
pub extern "C" fn lexer_dfa_mode_start(room: &[u32], mode: u32) -> CValue
    ensures { result ≡ value_in_c (starting.mode_start room.now mode) }
{
    start_in_c(look_modes::mode_start(room, mode))
}
