// What a lookup answers in C, and a call that writes into a lent buffer: the types that faces share.
#![tactic(auto)]

ghost use Rattle.std.specs.Prelude.{◌≡◌};
ghost use Rattle.buffer.specs.Written as writing;
ghost use Rattle.room_find.specs.Answer.{said};
ghost use Rattle.c_value.specs.Value.{value_in_c};
ghost use Rattle.c_value.specs.Written.{written_in_c};

use refusal::{NOT_TABLE, Refusal, STATE};
use room_find::Missing;

// What a lookup answers, in one register with the value in its low half. A lookup's refusal has place 0, which is left out. No Result, since C reads it.
#[repr(C)]
#[derive(Clone, Copy)]
pub struct CValue {
    pub value: u32,
    pub number: u32,
}

// What is told of a state, in C. A function and no `From`, as `written_in_c` is: docs/PROMISES.md and the laws of uniqueness name them.
pub fn value_in_c(answer: Result<u32, Missing>) -> CValue
    ensures { result ≡ value_in_c (said answer) }
{
    match answer {
        Ok(value) => CValue { value, number: 0 },
        Err(Missing::Absent) => CValue {
            value: 0,
            number: STATE,
        },
        Err(Missing::Outside) => CValue {
            value: 0,
            number: NOT_TABLE,
        },
    }
}

// How many numbers were written. A number of 0 says accepted; else it is document 01's refusal, with its place and item, and the length is 0. No Result, since C reads it.
#[repr(C)]
#[derive(Clone, Copy)]
pub struct CWritten {
    pub number: u32,
    pub item: u32,
    pub place: usize,
    pub length: usize,
}

// What was written, in C.
pub fn written_in_c(written: Result<usize, Refusal>) -> CWritten
    ensures { result ≡ written_in_c (writing.said written) }
{
    match written {
        Ok(n) => CWritten {
            number: 0,
            item: 0,
            place: 0,
            length: n,
        },
        Err(refused) => CWritten {
            number: refused.number,
            item: refused.item,
            place: refused.place,
            length: 0,
        },
    }
}
