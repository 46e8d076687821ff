// The continuations of a decoded table, for C and Rust: the number of a state's continuation, the record of it, and where its contexts and
// configs stand. The room passes as pointer and length, answers come back as structs. A number of 0 says answered; else it is document 01's
// refusal, and every other field is 0.
#![tactic(auto, using(crate::proofs::Calls::calling))]

ghost use Rattle.std.specs.Prelude.{◌≡◌};
ghost use Rattle.look_continuations.specs.Continuation as continuing;
ghost use Rattle.c_value.specs.Value.{value_in_c};
ghost use Rattle.look_continuation_records.specs.Configs as resumed;
ghost use Rattle.c_continuations.specs.Answers.{continuation_in_c};

use c_value::CValue;
use look_continuation_records::ContinuationRecord;
use refusal::NOT_TABLE;
use room_find::{Missing, Span};

// The number of a state's continuation on a character, or NONE.
#[unsafe(no_mangle)]
pub extern "C" fn lexer_dfa_char_continuation(room: &[u32], state: u16, symbol: u32) -> CValue
    ensures { result ≡ value_in_c (continuing.char_continuation room.now state symbol) }
{
    c_value::value_in_c(look_continuations::char_continuation(room, state, symbol))
}

// The number of a state's continuation at the end of the input, or NONE.
#[unsafe(no_mangle)]
pub extern "C" fn lexer_dfa_eof_continuation(room: &[u32], state: u16) -> CValue
    ensures { result ≡ value_in_c (continuing.eof_continuation room.now state) }
{
    c_value::value_in_c(look_continuations::eof_continuation(room, state))
}

// How many contexts and configs a continuation has; `found` is 0 where there is none of that number. No Result, since C reads it.
#[repr(C)]
#[derive(Clone, Copy)]
pub struct CContinuation {
    pub number: u32,
    pub found: u32,
    pub contexts: u32,
    pub configs: u32,
}

// A function and no `From`: the contract of the one call says it as plainly.
fn continuation_in_c(got: Result<ContinuationRecord, Missing>) -> CContinuation
    ensures { result ≡ continuation_in_c (resumed.said got) }
{
    match got {
        Ok(record) => CContinuation {
            number: 0,
            found: 1,
            contexts: record.contexts,
            configs: record.configs,
        },
        Err(Missing::Absent) => CContinuation {
            number: 0,
            found: 0,
            contexts: 0,
            configs: 0,
        },
        Err(Missing::Outside) => CContinuation {
            number: NOT_TABLE,
            found: 0,
            contexts: 0,
            configs: 0,
        },
    }
}

// The continuation of that number.
#[unsafe(no_mangle)]
pub extern "C" fn lexer_dfa_continuation_record(room: &[u32], number: u32) -> CContinuation
    ensures { result ≡ continuation_in_c (resumed.record_of room.now number) }
{
    continuation_in_c(look_continuation_records::continuation_record(room, number))
}

// Where its contexts stand in the room.
#[unsafe(no_mangle)]
pub extern "C" fn lexer_dfa_continuation_contexts(room: &[u32], number: u32) -> Span
    ensures { result ≡ resumed.contexts_span room.now number }
{
    look_continuation_records::continuation_contexts_span(room, number)
}

// Where its configs stand in the room.
#[unsafe(no_mangle)]
pub extern "C" fn lexer_dfa_continuation_configs(room: &[u32], number: u32) -> Span
    ensures { result ≡ resumed.configs_span room.now number }
{
    look_continuation_records::continuation_configs_span(room, number)
}
