// What index rules 5, 6 and 8 ask of a row: of one of ASCII targets, of a wide row and of an escape row.
// Each takes the words and the place of a row; a word past the end is 0, so every function takes any place, and a place is no slice.
#![tactic(auto)]

ghost use Rattle.std.specs.Prelude.{◌≡◌, ℕ, ◌+◌, ◌≤◌, Bool, ◌&&◌, length};
ghost use Rattle.rule_words.specs.Rules.{each_word, both_good, ascii_good, follows, searchable, thirds, wide_good, escape_good, next_from};
ghost use Rattle.rule_rows.specs.Thirds.{Tells};

use rule_words::{good, none_or, present, word_at, word_past};
use word_reader::ROW_WORDS;

// Both targets of a word are good.
fn both_good(states: u32, x: u32) -> bool
    ensures { result ≡ both_good states x }
{
    good(states, x % 65536) & good(states, x / 65536)
}

// The targets of these words are good. All are judged, with no way out at the first that is not: the compiler then tests several at once.
fn words_are_good(words: &[u32], states: u32) -> bool
    ensures { result ≡ each_word (both_good states) words.now (length words.now) 0 }
{
    let mut all = true;
    for x in words {
        all = both_good(states, *x) & all;
    }
    all
}

// Rule 5: the targets of an ASCII row are good, those of a word past the end among them.
pub fn ascii_row_is_good(words: &[u32], states: u32, at: usize) -> bool
    ensures { result ≡ ascii_good states words.now at }
{
    if words.len() <= at {
        return both_good(states, 0);
    }
    if words.len() - at < ROW_WORDS {
        return words_are_good(&words[at..], states) & both_good(states, 0);
    }
    words_are_good(&words[at..at + ROW_WORDS], states)
}

// The range at a place starts at `from` or later, and its low is at most its high.
fn follows(words: &[u32], from: u64, at: usize) -> bool
    ensures { result ≡ follows words.now from at }
{
    let low = word_at(words, at);
    let high = word_past(words, at, 1);
    (from <= u64::from(low)) & (low <= high)
}

// Where the range behind the one at a place may start.
fn next_from(words: &[u32], at: usize) -> u64
    ensures { result ≡ next_from words.now at }
{
    u64::from(word_past(words, at, 1)) + 1
}

// `count` ranges from `at` are searchable, low at most high, each high below the next low, and their third numbers pass.
fn ranges_are_good<F: Fn(u32) -> bool>(words: &[u32], count: u32, at: usize, passes: F) -> bool
    requires callable { F.IsAlwaysCallable passes }
    requires within { at ≤ length words.now + 1 }
    ensures { (test : ℕ → Bool) → Tells (F.post passes) test → result ≡ (searchable words.now 0 count at && thirds test words.now count at) }
{
    let mut from: u64 = 0;
    let mut here = at;
    for _ in 0..count {
        if !(follows(words, from, here) & passes(word_past(words, here, 2))) {
            return false;
        }
        from = next_from(words, here);
        here += 3;
    }
    true
}

// Rule 6: a wide row is searchable, its targets good.
pub fn wide_row_is_searchable(words: &[u32], states: u32, at: usize) -> bool
    ensures { result ≡ wide_good states words.now at }
{
    if words.len() <= at {
        return true;
    }
    ranges_are_good(words, words[at], at + 1, |target| good(states, target))
}

// Rule 8: an escape row is searchable, its EOF continuation is NONE or present, its continuations are present.
pub fn escape_row_is_valid(words: &[u32], continuations: u32, at: usize) -> bool
    ensures { result ≡ escape_good continuations words.now at }
{
    if words.len() <= at {
        return none_or(continuations, 0);
    }
    let count = word_at(words, at + 1);
    let ranges = ranges_are_good(words, count, at + 2, |third| present(continuations, third));
    none_or(continuations, words[at]) & ranges
}
