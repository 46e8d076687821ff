// The walk over the records of a section that asks something of each: one loop, whatever the kind of record and the question.
// Above it each index rule that walks over records, 1, 2, 4, 5, 6, 8 and 9: how many obey it before the first that does not. All work on the words
// and the places of the sections' counts.
#![tactic(auto)]

ghost use Rattle.std.specs.Prelude.{◌≡◌};
ghost use Rattle.std.specs.Result.{result_ok};
ghost use Rattle.rule_words.specs.Rules.{passing, item1, item2, item4, item5, item6, item8, item9};
ghost use Rattle.rule_walk.specs.Questions.{asked_at, passes, passing_of, all_pass};

use rule_words::word_at;

// What is asked of a record, with the numbers that it is judged by: how many states, rows, accepts or continuations there are. A run is judged by
// the places of the states' and the ASCII rows' counts.
//
// A question is a value and no closure: `all_pass`, which docs/PROMISES.md names, takes any of the nine (what may not change).
#[derive(Clone, Copy)]
pub enum Question {
    StartIsState(u32),
    StateIsValid {
        states: u32,
        ascii: u32,
        wide: u32,
        accepts: u32,
    },
    RunIsClassified {
        states: usize,
        ascii_rows: usize,
    },
    AsciiRowIsGood(u32),
    WideRowIsSearchable(u32),
    EscapeRowIsValid(u32),
    ContinuationIsValid,
    AcceptIsPlain,
    ContinuationIsPlain,
}

// Where the record that is asked ends, if its reader takes it: why not, no rule asks. Each question knows its kind of record: so the loop below
// chooses a reader as it chooses a test, and keeps the place in a register. For that a reader's answer is made an Option where it is given: one that
// may hold a refusal went through memory in two halves at each record, a third of the time of decoding a table of empty wide rows (docs/LOOK-BACK.md,
// d 9).
fn read_asked(question: Question, words: &[u32], at: usize) -> Option<usize>
    ensures { result ≡ result_ok (asked_at question words.now at) }
{
    match question {
        Question::StartIsState(_) => word_records::read_mode(words, at).ok(),
        Question::StateIsValid { .. } => word_records::read_state(words, at).ok(),
        Question::RunIsClassified { .. } => word_records::read_run(words, at).ok(),
        Question::AsciiRowIsGood(_) => word_records::read_ascii_row(words, at).ok(),
        Question::WideRowIsSearchable(_) => word_records::read_wide_row(words, at).ok(),
        Question::EscapeRowIsValid(_) => word_records::read_escape_row(words, at).ok(),
        Question::ContinuationIsValid => word_records::read_continuation(words, at).ok(),
        Question::AcceptIsPlain => word_records::read_accept(words, at).ok(),
        Question::ContinuationIsPlain => word_records::read_continuation(words, at).ok(),
    }
}

// The record of that number, at that place, passes.
fn passes(question: Question, words: &[u32], number: u32, at: usize) -> bool
    ensures { result ≡ passes question words.now number at }
{
    match question {
        Question::StartIsState(states) => rule_states::start_is_state(words, states, at),
        Question::StateIsValid {
            states,
            ascii,
            wide,
            accepts,
        } => rule_states::state_is_valid(words, states, ascii, wide, accepts, at),
        Question::RunIsClassified { states, ascii_rows } => {
            rule_runs::run_is_classified(words, states, ascii_rows, number, at)
        }
        Question::AsciiRowIsGood(states) => rule_rows::ascii_row_is_good(words, states, at),
        Question::WideRowIsSearchable(states) => {
            rule_rows::wide_row_is_searchable(words, states, at)
        }
        Question::EscapeRowIsValid(continuations) => {
            rule_rows::escape_row_is_valid(words, continuations, at)
        }
        Question::ContinuationIsValid => rule_contexts::continuation_is_valid(words, at),
        Question::AcceptIsPlain => rule_states::accept_is_plain(words, at),
        Question::ContinuationIsPlain => rule_contexts::continuation_is_plain(words, at),
    }
}

// How many of `count` records from `at` pass before the first that does not. A record is read first: none is asked past the end.
fn count_passing(question: Question, words: &[u32], count: u32, at: usize) -> u32
    ensures { result ≡ passing (passes question words.now) (asked_at question words.now) 0 count at }
{
    let mut here = at;
    for number in 0..count {
        let Some(next) = read_asked(question, words, here) else {
            return number;
        };
        if !passes(question, words, number, here) {
            return number;
        }
        here = next;
    }
    count
}

// How many records of the section whose count stands at `at` pass before the first that does not: all of them, where each does.
fn passing_in(question: Question, words: &[u32], at: usize) -> u32
    ensures { result ≡ passing_of question words.now at }
{
    if words.len() <= at {
        return 0;
    }
    count_passing(question, words, words[at], at + 1)
}

// Each record passes of the section whose count stands at `at`.
pub fn all_pass(question: Question, words: &[u32], at: usize) -> bool
    ensures { result ≡ all_pass question words.now at }
{
    passing_in(question, words, at) == word_at(words, at)
}

// Rule 1: mode starts are states.
pub fn starts_that_are_states(words: &[u32], modes: usize, states: usize) -> u32
    ensures { result ≡ item1 words.now modes states }
{
    passing_in(Question::StartIsState(word_at(words, states)), words, modes)
}

// Rule 2: each state's rows exist, its EOF target is good, its accept is NONE or exists.
pub fn states_that_are_valid(
    words: &[u32],
    states: usize,
    ascii_rows: usize,
    wide_rows: usize,
    accepts: usize,
) -> u32
    ensures { result ≡ item2 words.now states ascii_rows wide_rows accepts }
{
    let question = Question::StateIsValid {
        states: word_at(words, states),
        ascii: word_at(words, ascii_rows),
        wide: word_at(words, wide_rows),
        accepts: word_at(words, accepts),
    };
    passing_in(question, words, states)
}

// Rule 4: each run is the classification of its state's row.
pub fn runs_that_are_classified(words: &[u32], states: usize, runs: usize, ascii_rows: usize) -> u32
    ensures { result ≡ item4 words.now states runs ascii_rows }
{
    let question = Question::RunIsClassified { states, ascii_rows };
    passing_in(question, words, runs)
}

// Rule 5: ASCII targets are good.
pub fn ascii_rows_that_are_good(words: &[u32], states: usize, ascii_rows: usize) -> u32
    ensures { result ≡ item5 words.now states ascii_rows }
{
    let question = Question::AsciiRowIsGood(word_at(words, states));
    passing_in(question, words, ascii_rows)
}

// Rule 6: wide rows are searchable, their targets good.
pub fn wide_rows_that_are_searchable(words: &[u32], states: usize, wide_rows: usize) -> u32
    ensures { result ≡ item6 words.now states wide_rows }
{
    let question = Question::WideRowIsSearchable(word_at(words, states));
    passing_in(question, words, wide_rows)
}

// Rule 8: escape rows are searchable, the EOF continuation is NONE or present, the continuations are present.
pub fn escape_rows_that_are_valid(words: &[u32], escape_rows: usize, continuations: usize) -> u32
    ensures { result ≡ item8 words.now escape_rows continuations }
{
    let question = Question::EscapeRowIsValid(word_at(words, continuations));
    passing_in(question, words, escape_rows)
}

// Rule 9: contexts refer only below themselves; config contexts are at most the context count.
pub fn continuations_that_are_valid(words: &[u32], continuations: usize) -> u32
    ensures { result ≡ item9 words.now continuations }
{
    passing_in(Question::ContinuationIsValid, words, continuations)
}
