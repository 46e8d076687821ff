// What index rule 4 asks of a run: it is the classification of its state's row.
// It works on the words and the places of the sections' counts; a word past the end is 0, so every function takes any place.
#![tactic(auto)]

ghost use Rattle.std.specs.Prelude.{◌≡◌, ◌+◌, ◌-◌, ◌/◌, ltb, length};
ghost use Rattle.refusal.specs.Lists.{pick};
ghost use Rattle.rule_words.specs.Rules.{row_of, row_number, classified_words, stands, run_good};

use rule_words::{word_at, word_past};
use run_shape::RunWords;

// How many words of a row are there, that starts `start` words behind a place: 64 at most.
fn words_there(words: &[u32], at: usize, start: usize) -> usize
    ensures { result ≡ pick (ltb (length words.now - (at + start)) 64) (length words.now - (at + start)) 64 }
{
    if words.len() <= at {
        return 0;
    }
    let behind = words.len() - at;
    if behind <= start {
        return 0;
    }
    (behind - start).min(64)
}

fn high_half(word: u32) -> u16
    ensures { result ≡ word / 65536 }
{
    (word / 65536) as u16
}

// Row `index` of the ASCII rows: two targets to a word, that of the even symbol in the low half. A word past the end is 0, as the row is at first.
fn row_of(words: &[u32], ascii_rows: usize, index: u32) -> [u16; 128]
    ensures { result ≡ row_of words.now ascii_rows index }
{
    let start = 1 + 64 * index as usize;
    let there = words_there(words, ascii_rows, start);
    let mut row: [u16; 128] = [0; 128];
    for i in 0..there {
        let word = words[ascii_rows + (start + i)];
        row[2 * i] = (word % 65536) as u16;
        row[2 * i + 1] = high_half(word);
    }
    row
}

// The words of the classification of row `index` at a state. A row of 128 targets always has one.
fn classified_words(words: &[u32], ascii_rows: usize, index: u32, state: u16) -> RunWords
    ensures { result ≡ classified_words words.now ascii_rows index state }
{
    let row = row_of(words, ascii_rows, index);
    run_words::write_serialized(run_classify::classify(&row, state).unwrap())
}

// The words of a run, one or three, stand at a place.
#[tactic(auto, unfolding(rule_words::specs::Rules::stands))]
fn stands(words: &[u32], at: usize, run: RunWords) -> bool
    ensures { result ≡ stands words.now at run }
{
    let first = word_at(words, at) == run.first;
    let second = word_past(words, at, 1) == run.second;
    let third = word_past(words, at, 2) == run.third;
    first & ((run.length < 3) | (second & third))
}

// The row of a state: the first of its four words.
fn row_number(words: &[u32], states: usize, state: u32) -> u32
    ensures { result ≡ row_number words.now states state }
{
    word_past(words, states, 1 + 4 * state as usize)
}

// Rule 4: the run at a place is that of a state; a state's number has 16 bits.
#[tactic(auto, unfolding(rule_words::specs::Rules::run_good))]
pub fn run_is_classified(
    words: &[u32],
    states: usize,
    ascii_rows: usize,
    state: u32,
    at: usize,
) -> bool
    ensures { result ≡ run_good words.now states ascii_rows state at }
{
    if state <= 65535 {
        let index = row_number(words, states, state);
        let run = classified_words(words, ascii_rows, index, state as u16);
        return stands(words, at, run);
    }
    false
}
