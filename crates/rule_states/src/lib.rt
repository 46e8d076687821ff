// What index rules 1 and 2 ask of a mode and of a state, and whether the flag of an accept is plain.
// Each takes the words and the place of a record; a word past the end is 0, so every function takes any place.
#![tactic(auto)]

ghost use Rattle.std.specs.Prelude.{◌≡◌};
ghost use Rattle.rule_words.specs.Rules.{start_good, state_good};
ghost use Rattle.rule_words.specs.Flags.{accept_plain};

use rule_words::{good, none_or, plain, present, word_at, word_past};

// Rule 1: a mode's start is a state, or NONE.
pub fn start_is_state(words: &[u32], states: u32, at: usize) -> bool
    ensures { result ≡ start_good states words.now at }
{
    none_or(states, word_at(words, at))
}

// Rule 2: a state's rows exist, its EOF target is good, its accept is NONE or exists.
pub fn state_is_valid(
    words: &[u32],
    states: u32,
    ascii: u32,
    wide: u32,
    accepts: u32,
    at: usize,
) -> bool
    ensures { result ≡ state_good states ascii wide accepts words.now at }
{
    let ends = good(states, word_past(words, at, 2)) & none_or(accepts, word_past(words, at, 3));
    present(ascii, word_at(words, at)) & (present(wide, word_past(words, at, 1)) & ends)
}

// The flag of an accept is 0 or 1.
pub fn accept_is_plain(words: &[u32], at: usize) -> bool
    ensures { result ≡ accept_plain words.now at }
{
    plain(word_past(words, at, 1))
}
