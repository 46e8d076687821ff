// Runs for C and Rust: slices pass as pointer and length, answers come back as structs.
// A number of 0 says accepted; else it is document 01's refusal, with its place and item, and every other field is 0.
#![tactic(auto)]

ghost use Rattle.std.specs.Prelude.{◌≡◌};
ghost use Rattle.run_shape.specs.Classify.{classified};
ghost use Rattle.run_shape.specs.Words.{read_at};
ghost use Rattle.look_runs.specs.StateRun as scanning;
ghost use Rattle.c_runs.specs.Answers.{run_in_c};

use refusal::Refusal;
use run_shape::AsciiRun;

// A run's words: one, or three. No Result, since C reads it.
#[repr(C)]
#[derive(Clone, Copy)]
pub struct CRun {
    pub number: u32,
    pub item: u32,
    pub place: usize,
    pub length: usize,
    pub first: u32,
    pub second: u32,
    pub third: u32,
}

impl From<Result<AsciiRun, Refusal>> for CRun {
    ghost from_gives = { λ read c. c ≡ run_in_c read };

    fn from(read: Result<AsciiRun, Refusal>) -> CRun {
        match read {
            Ok(run) => {
                let words = run_words::write_serialized(run);
                CRun {
                    number: 0,
                    item: 0,
                    place: 0,
                    length: words.length,
                    first: words.first,
                    second: words.second,
                    third: words.third,
                }
            }
            Err(refusal) => CRun {
                number: refusal.number,
                item: refusal.item,
                place: refusal.place,
                length: 0,
                first: 0,
                second: 0,
                third: 0,
            },
        }
    }
}

// The run of a row of 128 targets at a state.
#[unsafe(no_mangle)]
pub extern "C" fn lexer_dfa_classify(row: &[u16], state: u16) -> CRun
    ensures { result ≡ run_in_c (classified state row.now) }
{
    run_classify::classify(row, state).into()
}

// The run that stands at a word.
#[unsafe(no_mangle)]
pub extern "C" fn lexer_dfa_read_run(words: &[u32], at: usize) -> CRun
    ensures { result ≡ run_in_c (read_at words.now at) }
{
    run_words::read_serialized(words, at).into()
}

// The run of a state.
#[unsafe(no_mangle)]
pub extern "C" fn lexer_dfa_ascii_run(room: &[u32], state: u16) -> CRun
    ensures { result ≡ run_in_c (scanning.ascii_run room.now state) }
{
    look_runs::ascii_run(room, state).into()
}
