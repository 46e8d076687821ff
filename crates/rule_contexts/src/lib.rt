// What index rule 9 asks of a continuation: its contexts refer only below themselves, and the context of a config is at most their count (0 is none).
// And whether the flags of its configs are plain. A word past the end is 0, so every function takes any place, and a place is no slice.
#![tactic(auto)]

ghost use Rattle.std.specs.Prelude.{◌≡◌, ℕ, ◌+◌, ◌≤◌, Bool, length};
ghost use Rattle.word_reader.specs.Records.{config_at};
ghost use Rattle.rule_words.specs.Rules.{every_in, refers_below, below, continuation_good};
ghost use Rattle.rule_words.specs.Flags.{continuation_plain};
ghost use Rattle.rule_contexts.specs.Asked.{Tells};

use rule_words::{plain, word_at, word_past};

// The context at a place, of that number, refers only below it, the second word of kind 0 being free.
fn refers_below(words: &[u32], number: u64, at: usize) -> bool
    ensures { result ≡ refers_below words.now number at }
{
    let free = word_at(words, at) == 0;
    let first = u64::from(word_past(words, at, 1)) < number;
    let second = u64::from(word_past(words, at, 2)) < number;
    first & (free | second)
}

// The same of `count` contexts from `at`, numbered from 1.
fn contexts_refer_below(words: &[u32], count: u32, at: usize) -> bool
    requires { at ≤ length words.now + 1 }
    ensures { result ≡ below words.now 1 count at }
{
    let mut here = at;
    for number in 0..u64::from(count) {
        if !refers_below(words, number + 1, here) {
            return false;
        }
        here += 3;
    }
    true
}

// Each config passes, of those whose count stands at `at`.
fn configs_pass<F: Fn(usize) -> bool>(words: &[u32], at: usize, passes: F) -> bool
    requires { F.IsAlwaysCallable passes }
    ensures { (test : ℕ → Bool) → Tells (F.post passes) test → result ≡ every_in config_at test words.now at }
{
    if words.len() <= at {
        return true;
    }
    let mut here = at + 1;
    for _ in 0..words[at] {
        let Ok(next) = word_records::read_config(words, here) else {
            return false;
        };
        if !passes(here) {
            return false;
        }
        here = next;
    }
    true
}

// Rule 9, of a continuation: its configs stand behind its contexts.
pub fn continuation_is_valid(words: &[u32], at: usize) -> bool
    ensures { result ≡ continuation_good words.now at }
{
    if words.len() <= at {
        return true;
    }
    let count = words[at];
    if !contexts_refer_below(words, count, at + 1) {
        return false;
    }
    let configs = at + (count as usize * 3 + 1);
    configs_pass(
        words,
        configs,
        |config| word_past(words, config, 4) <= count,
    )
}

// The flags of a continuation are 0 or 1.
pub fn continuation_is_plain(words: &[u32], at: usize) -> bool
    ensures { result ≡ continuation_plain words.now at }
{
    if words.len() <= at {
        return true;
    }
    let configs = at + (words[at] as usize * 3 + 1);
    configs_pass(words, configs, |config| {
        plain(word_past(words, config, 2)) & plain(word_past(words, config, 3))
    })
}
