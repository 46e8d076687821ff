// A state's targets in a decoded table, for C and Rust: the room passes as pointer and length, an answer comes back as a struct.
// A number of 0 says answered; else it is document 01's refusal, and the value is 0.
#![tactic(auto)]

ghost use Rattle.std.specs.Prelude.{◌≡◌};
ghost use Rattle.look_targets.specs.Targets as targeting;
ghost use Rattle.c_value.specs.Value.{value_in_c};

use c_value::CValue;

// Where a state goes on a byte.
#[unsafe(no_mangle)]
pub extern "C" fn lexer_dfa_ascii_target(room: &[u32], state: u16, symbol: u8) -> CValue
    ensures { result ≡ value_in_c (targeting.ascii_target room.now state symbol) }
{
    c_value::value_in_c(look_targets::ascii_target(room, state, symbol))
}

// Where a state goes on a character, which is a 32-bit word in two's complement.
#[unsafe(no_mangle)]
pub extern "C" fn lexer_dfa_char_target(room: &[u32], state: u16, symbol: u32) -> CValue
    ensures { result ≡ value_in_c (targeting.char_target room.now state symbol) }
{
    c_value::value_in_c(look_targets::char_target(room, state, symbol))
}

// Where a state goes at the end of the input.
#[unsafe(no_mangle)]
pub extern "C" fn lexer_dfa_eof_target(room: &[u32], state: u16) -> CValue
    ensures { result ≡ value_in_c (targeting.eof_target room.now state) }
{
    c_value::value_in_c(look_targets::eof_target(room, state))
}
