// The index rules that decoding judges once a table's words are read, in document 01's order: specs/Rules defines all nine.
// Here are the small readers and tests that the rules share; a word past the end is 0, so every function takes any place.
#![tactic(auto)]

ghost use Rattle.std.specs.Prelude.{◌≡◌, ◌+◌, get_or};
ghost use Rattle.rule_words.specs.Rules.{good, none_or, present};
ghost use Rattle.rule_words.specs.Flags.{plain};

use refusal::{DEAD_STATE, ESCAPE_STATE, NONE};

// The word at a place, or 0 past the end.
pub fn word_at(words: &[u32], at: usize) -> u32
    ensures { result ≡ get_or words.now at 0 }
{
    words.get(at).copied().unwrap_or(0)
}

// The word that stands `skip` words behind a place, or 0 past the end.
pub fn word_past(words: &[u32], at: usize, skip: usize) -> u32
    ensures { result ≡ get_or words.now (at + skip) 0 }
{
    word_at(words, at.saturating_add(skip))
}

// A target is good: a state, ESCAPE_STATE or DEAD_STATE.
pub fn good(states: u32, x: u32) -> bool
    ensures { result ≡ good states x }
{
    (x < states) | ((x == u32::from(ESCAPE_STATE)) | (x == u32::from(DEAD_STATE)))
}

// NONE, or one of `count`.
pub fn none_or(count: u32, x: u32) -> bool
    ensures { result ≡ none_or count x }
{
    (x == NONE) | (x < count)
}

// One of `count`.
pub fn present(count: u32, x: u32) -> bool
    ensures { result ≡ present count x }
{
    x < count
}

// A flag is plain: 0 or 1.
pub fn plain(x: u32) -> bool
    ensures { result ≡ plain x }
{
    x <= 1
}
