// Lists of transitions, for C and Rust: slices pass as pointer and length, answers come back as structs.
// A number of 0 says accepted; else it is document 01's refusal, with its place and item, and every other field is 0.
#![tactic(auto)]

ghost use Rattle.std.specs.Prelude.{◌≡◌, length};
ghost use Rattle.list_transitions.specs.Read as reading;
ghost use Rattle.list_transitions.specs.Ends as ending;
ghost use Rattle.c_transitions.specs.Answers.{transitions_in_c};

use list_transitions::Transitions;
use refusal::Refusal;

// How many transitions a list has, and how many intervals they have together. No Result, since C reads it.
#[repr(C)]
#[derive(Clone, Copy)]
pub struct CTransitions {
    pub number: u32,
    pub item: u32,
    pub place: usize,
    pub transitions: usize,
    pub intervals: usize,
}

impl From<Result<Transitions, Refusal>> for CTransitions {
    ghost from_gives = { λ answer c. c ≡ transitions_in_c (reading.said answer) };

    fn from(answer: Result<Transitions, Refusal>) -> CTransitions {
        match answer {
            Ok(read) => CTransitions {
                number: 0,
                item: 0,
                place: 0,
                transitions: read.count,
                intervals: read.intervals,
            },
            Err(refusal) => CTransitions {
                number: refusal.number,
                item: refusal.item,
                place: refusal.place,
                transitions: 0,
                intervals: 0,
            },
        }
    }
}

// How many transitions and intervals a list has.
#[unsafe(no_mangle)]
pub extern "C" fn lexer_dfa_read_transitions(list: &[u8]) -> CTransitions
    ensures { result ≡ transitions_in_c (reading.counted (reading.parse list.now)) }
{
    list_transitions::read_transitions(list).into()
}

// Both ends of every interval, the low and the high + 1.
#[unsafe(no_mangle)]
pub extern "C" fn lexer_dfa_read_intervals(list: &[u8], out: &mut [u32]) -> CTransitions
    ensures { (result ≡ transitions_in_c (reading.counted (ending.parse_into (length out.old) list.now)))
        × (out.new ≡ ending.ends_in (length out.old) (ending.parse_into (length out.old) list.now)) }
{
    list_transitions::read_intervals(list, out).into()
}
