// Coverage for C and Rust: the room passes as pointer and length, the answer comes back as a struct. A number of 0 says answered; else it
// is document 01's refusal, and the value is 0.
#![tactic(auto)]

ghost use Rattle.std.specs.Prelude.{◌≡◌};
ghost use Rattle.room_coverage.specs.Coverage as covering;
ghost use Rattle.c_value.specs.Value.{value_in_c};

use c_value::CValue;

// How many code points are not dead in a state.
#[unsafe(no_mangle)]
pub extern "C" fn lexer_dfa_coverage(room: &[u32], state: u16) -> CValue
    ensures { result ≡ value_in_c (covering.coverage_of room.now state) }
{
    c_value::value_in_c(room_coverage::coverage(room, state))
}
