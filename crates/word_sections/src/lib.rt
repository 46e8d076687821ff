// The records of a table by their kind: one reader for a record of any kind, and one for the sections, each a count and so many records.
#![tactic(auto)]

ghost use Rattle.std.specs.Prelude.{◌≡◌};
ghost use Rattle.word_reader.specs.Parse.{section};
ghost use Rattle.word_reader.specs.Records.{mode_at, state_at, run_at, ascii_at, wide_at, accept_at, escape_at, continuation_at};
ghost use Rattle.word_sections.specs.Kinds.{record_at};

use refusal::Refusal;
use word_reader::Record;

// The kinds of records, in the order of their sections. A kind is a value: `read_record` and `read_section`, which docs/PROMISES.md names,
// take any of them (what may not change).
#[derive(Clone, Copy)]
pub enum Kind {
    Mode,
    State,
    AsciiRun,
    AsciiRow,
    WideRow,
    Accept,
    EscapeRow,
    Continuation,
}

// Where the record at `at` ends.
pub fn read_record(kind: Kind, words: &[u32], at: usize) -> Result<usize, Refusal>
    ensures { result ≡ record_at kind words.now at }
{
    match kind {
        Kind::Mode => word_records::read_mode(words, at),
        Kind::State => word_records::read_state(words, at),
        Kind::AsciiRun => word_records::read_run(words, at),
        Kind::AsciiRow => word_records::read_ascii_row(words, at),
        Kind::WideRow => word_records::read_wide_row(words, at),
        Kind::Accept => word_records::read_accept(words, at),
        Kind::EscapeRow => word_records::read_escape_row(words, at),
        Kind::Continuation => word_records::read_continuation(words, at),
    }
}

// Each kind as a record of its own: so the loop over a section has its reader inside it, and asks for the kind once a section.
struct Modes;

impl Record for Modes {
    ghost record_at = { λ k. mode_at };

    fn read(&self, words: &[u32], at: usize) -> Result<usize, Refusal> {
        word_records::read_mode(words, at)
    }
}

struct States;

impl Record for States {
    ghost record_at = { λ k. state_at };

    fn read(&self, words: &[u32], at: usize) -> Result<usize, Refusal> {
        word_records::read_state(words, at)
    }
}

struct AsciiRuns;

impl Record for AsciiRuns {
    ghost record_at = { λ k. run_at };

    fn read(&self, words: &[u32], at: usize) -> Result<usize, Refusal> {
        word_records::read_run(words, at)
    }
}

struct AsciiRows;

impl Record for AsciiRows {
    ghost record_at = { λ k. ascii_at };

    fn read(&self, words: &[u32], at: usize) -> Result<usize, Refusal> {
        word_records::read_ascii_row(words, at)
    }
}

struct WideRows;

impl Record for WideRows {
    ghost record_at = { λ k. wide_at };

    fn read(&self, words: &[u32], at: usize) -> Result<usize, Refusal> {
        word_records::read_wide_row(words, at)
    }
}

struct Accepts;

impl Record for Accepts {
    ghost record_at = { λ k. accept_at };

    fn read(&self, words: &[u32], at: usize) -> Result<usize, Refusal> {
        word_records::read_accept(words, at)
    }
}

struct EscapeRows;

impl Record for EscapeRows {
    ghost record_at = { λ k. escape_at };

    fn read(&self, words: &[u32], at: usize) -> Result<usize, Refusal> {
        word_records::read_escape_row(words, at)
    }
}

struct Continuations;

impl Record for Continuations {
    ghost record_at = { λ k. continuation_at };

    fn read(&self, words: &[u32], at: usize) -> Result<usize, Refusal> {
        word_records::read_continuation(words, at)
    }
}

// The section of a kind, whose count stands at `at`.
pub fn read_section(kind: Kind, words: &[u32], at: usize) -> Result<usize, Refusal>
    ensures { result ≡ section (record_at kind) words.now at }
{
    match kind {
        Kind::Mode => word_reader::read_section(&Modes, words, at),
        Kind::State => word_reader::read_section(&States, words, at),
        Kind::AsciiRun => word_reader::read_section(&AsciiRuns, words, at),
        Kind::AsciiRow => word_reader::read_section(&AsciiRows, words, at),
        Kind::WideRow => word_reader::read_section(&WideRows, words, at),
        Kind::Accept => word_reader::read_section(&Accepts, words, at),
        Kind::EscapeRow => word_reader::read_section(&EscapeRows, words, at),
        Kind::Continuation => word_reader::read_section(&Continuations, words, at),
    }
}
