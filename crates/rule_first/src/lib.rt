// The first of the nine index rules that is broken, in document 01's order, and the first item that breaks it.
#![tactic(auto)]

ghost use Rattle.std.specs.Prelude.{◌≡◌, eqb, get_or};
ghost use Rattle.rule_words.specs.Rules.{same_count};
ghost use Rattle.rule_first.specs.Broken.{first_in};

use rule_words::word_at;
use word_reader::Sections;

// A rule by its number, and the first mode, state, row or continuation that breaks it, counted from 0.
#[derive(Clone, Copy)]
pub struct Broken {
    pub rule: u32,
    pub item: u32,
}

// Rules 3 and 7: as many runs as states, as many escape rows as states.
fn same_count(words: &[u32], one: usize, other: usize) -> bool
    ensures { result ≡ same_count words.now one other }
{
    word_at(words, one) == word_at(words, other)
}

// The section whose count stands at `at` lists so many.
fn lists(words: &[u32], at: usize, many: u32) -> bool
    ensures { result ≡ eqb many (get_or words.now at 0) }
{
    many == word_at(words, at)
}

// The first index rule that is broken, if one is. A rule holds where as many obey it as there are.
pub fn first_broken(words: &[u32], s: Sections) -> Option<Broken>
    ensures { result ≡ first_in words.now s }
{
    let starts = rule_walk::starts_that_are_states(words, s.modes, s.states);
    if !lists(words, s.modes, starts) {
        return Some(Broken {
            rule: 1,
            item: starts,
        });
    }
    let states = rule_walk::states_that_are_valid(words, s.states, s.ascii, s.wide, s.accepts);
    if !lists(words, s.states, states) {
        return Some(Broken {
            rule: 2,
            item: states,
        });
    }
    if !same_count(words, s.runs, s.states) {
        return Some(Broken { rule: 3, item: 0 });
    }
    let runs = rule_walk::runs_that_are_classified(words, s.states, s.runs, s.ascii);
    if !lists(words, s.runs, runs) {
        return Some(Broken {
            rule: 4,
            item: runs,
        });
    }
    let ascii = rule_walk::ascii_rows_that_are_good(words, s.states, s.ascii);
    if !lists(words, s.ascii, ascii) {
        return Some(Broken {
            rule: 5,
            item: ascii,
        });
    }
    let wide = rule_walk::wide_rows_that_are_searchable(words, s.states, s.wide);
    if !lists(words, s.wide, wide) {
        return Some(Broken {
            rule: 6,
            item: wide,
        });
    }
    if !same_count(words, s.escapes, s.states) {
        return Some(Broken { rule: 7, item: 0 });
    }
    let escapes = rule_walk::escape_rows_that_are_valid(words, s.escapes, s.continuations);
    if !lists(words, s.escapes, escapes) {
        return Some(Broken {
            rule: 8,
            item: escapes,
        });
    }
    let continuations = rule_walk::continuations_that_are_valid(words, s.continuations);
    if !lists(words, s.continuations, continuations) {
        return Some(Broken {
            rule: 9,
            item: continuations,
        });
    }
    None
}
