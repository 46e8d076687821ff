// The accepts of a decoded table, for C and Rust: the number of a state's accept, the record of it, and where its actions stand. The room
// passes as pointer and length, answers come back as structs. A number of 0 says answered; else it is document 01's refusal, and every
// other field is 0.
#![tactic(auto, using(crate::proofs::Calls::calling))]

ghost use Rattle.std.specs.Prelude.{◌≡◌};
ghost use Rattle.look_accepts.specs.Accept as accepting;
ghost use Rattle.c_value.specs.Value.{value_in_c};
ghost use Rattle.look_accepts.specs.Record as recorded;
ghost use Rattle.c_accepts.specs.Answers.{accept_in_c};

use c_value::CValue;
use look_accepts::AcceptRecord;
use refusal::NOT_TABLE;
use room_find::{Missing, Span};

// The number of a state's accept, or NONE.
#[unsafe(no_mangle)]
pub extern "C" fn lexer_dfa_accept(room: &[u32], state: u16) -> CValue
    ensures { result ≡ value_in_c (accepting.accept_of room.now state) }
{
    c_value::value_in_c(look_accepts::accept(room, state))
}

// An accept without its actions; `found` is 0 where there is none of that number. No Result, since C reads it.
#[repr(C)]
#[derive(Clone, Copy)]
pub struct CAccept {
    pub number: u32,
    pub found: u32,
    pub rule: u32,
    pub consumed_eof: u32,
    pub actions: u32,
}

// A function and no `From`: the contract of the one call says it as plainly.
fn accept_in_c(got: Result<AcceptRecord, Missing>) -> CAccept
    ensures { result ≡ accept_in_c (recorded.said got) }
{
    match got {
        Ok(accept) => CAccept {
            number: 0,
            found: 1,
            rule: accept.rule,
            consumed_eof: u32::from(accept.consumed_eof),
            actions: accept.actions,
        },
        Err(Missing::Absent) => CAccept {
            number: 0,
            found: 0,
            rule: 0,
            consumed_eof: 0,
            actions: 0,
        },
        Err(Missing::Outside) => CAccept {
            number: NOT_TABLE,
            found: 0,
            rule: 0,
            consumed_eof: 0,
            actions: 0,
        },
    }
}

// The accept of that number.
#[unsafe(no_mangle)]
pub extern "C" fn lexer_dfa_accept_record(room: &[u32], number: u32) -> CAccept
    ensures { result ≡ accept_in_c (recorded.record_of room.now number) }
{
    accept_in_c(look_accepts::accept_record(room, number))
}

// Where its actions stand in the room.
#[unsafe(no_mangle)]
pub extern "C" fn lexer_dfa_accept_actions(room: &[u32], number: u32) -> Span
    ensures { result ≡ recorded.actions_span room.now number }
{
    look_accepts::accept_actions_span(room, number)
}
