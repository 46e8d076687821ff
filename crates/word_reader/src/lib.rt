// The covered reader of a table's words: a slice and a number for the place. Each record of a table has a reader, which says where
// reading goes on behind the record, or refuses by number and place. Here is what all readers share, and in specs/ what each record is;
// the readers stand in `word_records`.
#![tactic(auto)]

ghost use Rattle.std.specs.Prelude.{◌≡◌, ℕ, ◌-◌, List, length};
ghost use Rattle.refusal.specs.Said.{FIELD};
ghost use Rattle.word_reader.specs.Parse.{Place, short, refused, many, section};

use refusal::{FIELD, Refusal, SHORT};

// The greatest target that a state, a mode or a range may have.
pub const MAX_TARGET: u32 = 65535;

// The words of an ASCII row: two targets each.
pub const ROW_WORDS: usize = 64;

// Where the sections of a table start: the places of their counts among its words.
#[derive(Clone, Copy)]
pub struct Sections {
    pub modes: usize,
    pub states: usize,
    pub runs: usize,
    pub ascii: usize,
    pub wide: usize,
    pub accepts: usize,
    pub escapes: usize,
    pub continuations: usize,
}

// The input ended: SHORT in words returns the word count.
pub fn short(words: &[u32]) -> Result<usize, Refusal>
    ensures { result ≡ short words.now }
{
    Err(Refusal {
        number: SHORT,
        item: 0,
        place: words.len(),
    })
}

// The word at `at` is one that its field forbids.
pub fn field(at: usize) -> Result<usize, Refusal>
    ensures { result ≡ refused FIELD at }
{
    Err(Refusal {
        number: FIELD,
        item: 0,
        place: at,
    })
}

// How many words stand from `at` on.
pub fn left_from(words: &[u32], at: usize) -> usize
    ensures { result ≡ length words.now - at }
{
    if words.len() <= at {
        return 0;
    }
    words.len() - at
}

// A kind of record, with its reader: where reading goes on behind the record at `at`, or why it does not.
pub trait Record {
    ghost record_at: { Self → List ℕ → ℕ → Place };

    fn read(&self, words: &[u32], at: usize) -> Result<usize, Refusal>
        ensures { result ≡ record_at self.now words.now at };
}

// `count` records from `at`. Made part of each caller, which knows the kind: a call for each record took half as long again on tables of many short ones.
#[inline(always)]
pub fn read_many<R: Record>(
    kind: &R,
    words: &[u32],
    count: u32,
    at: usize,
) -> Result<usize, Refusal>
    ensures { result ≡ many (R.record_at kind.now words.now) count at }
{
    let mut here = at;
    for _ in 0..count {
        here = kind.read(words, here)?;
    }
    Ok(here)
}

// A section: the count stands at `at`, and so many records behind it.
#[inline(always)]
pub fn read_section<R: Record>(kind: &R, words: &[u32], at: usize) -> Result<usize, Refusal>
    ensures { result ≡ section (R.record_at kind.now) words.now at }
{
    if words.len() <= at {
        return short(words);
    }
    read_many(kind, words, words[at], at + 1)
}
