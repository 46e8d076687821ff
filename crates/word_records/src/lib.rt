// The readers of the records of a table, one for each kind: modes, states, runs, ascii rows, wide rows, accepts, escape rows, configs and
// continuations. Each says where reading goes on behind the record, or refuses by number and place, in document 01's order of SHORT and
// FIELD.
#![tactic(auto)]

ghost use Rattle.std.specs.Prelude.{◌≡◌};
ghost use Rattle.word_reader.specs.Records.{mode_at, state_at, run_at, ascii_at, range_at, wide_at, triple_at, accept_at};
ghost use Rattle.word_reader.specs.Records.{escape_at, config_at, context_at, continuation_at};

use refusal::{NONE, Refusal};
use word_reader::{MAX_TARGET, ROW_WORDS, Record};

// A mode: start state, or NONE.
pub fn read_mode(words: &[u32], at: usize) -> Result<usize, Refusal>
    ensures { result ≡ mode_at words.now at }
{
    if words.len() <= at {
        return word_reader::short(words);
    }
    let start = words[at];
    if start <= MAX_TARGET {
        return Ok(at + 1);
    }
    if start == NONE {
        return Ok(at + 1);
    }
    word_reader::field(at)
}

// A state: ascii row, wide row, EOF target, accept index. The EOF target is judged before the accept index is read.
pub fn read_state(words: &[u32], at: usize) -> Result<usize, Refusal>
    ensures { result ≡ state_at words.now at }
{
    let left = word_reader::left_from(words, at);
    if left < 3 {
        return word_reader::short(words);
    }
    let eof_target = words[at + 2];
    if MAX_TARGET < eof_target {
        return word_reader::field(at + 2);
    }
    if left < 4 {
        return word_reader::short(words);
    }
    Ok(at + 4)
}

// A run: one word, or three.
pub fn read_run(words: &[u32], at: usize) -> Result<usize, Refusal>
    ensures { result ≡ run_at words.now at }
{
    let run = run_words::read_serialized(words, at)?;
    Ok(at + run_shape::serialized_words(run))
}

// An ASCII row.
pub fn read_ascii_row(words: &[u32], at: usize) -> Result<usize, Refusal>
    ensures { result ≡ ascii_at words.now at }
{
    if word_reader::left_from(words, at) < ROW_WORDS {
        return word_reader::short(words);
    }
    Ok(at + ROW_WORDS)
}

// A wide range: low, high, target.
struct Range;

impl Record for Range {
    ghost record_at = { λ k. range_at };

    fn read(&self, words: &[u32], at: usize) -> Result<usize, Refusal> {
        if word_reader::left_from(words, at) < 3 {
            return word_reader::short(words);
        }
        let target = words[at + 2];
        if MAX_TARGET < target {
            return word_reader::field(at + 2);
        }
        Ok(at + 3)
    }
}

// A wide row: length, then its ranges.
pub fn read_wide_row(words: &[u32], at: usize) -> Result<usize, Refusal>
    ensures { result ≡ wide_at words.now at }
{
    word_reader::read_section(&Range, words, at)
}

// Three words: an action, or a range of an escape row.
struct Triple;

impl Record for Triple {
    ghost record_at = { λ k. triple_at };

    fn read(&self, words: &[u32], at: usize) -> Result<usize, Refusal> {
        if word_reader::left_from(words, at) < 3 {
            return word_reader::short(words);
        }
        Ok(at + 3)
    }
}

// The three readers of lists of triples below differ in where the count stands; with that number as an argument they would be no plainer.

// An accept: rule, consumed-EOF flag, action count, actions.
pub fn read_accept(words: &[u32], at: usize) -> Result<usize, Refusal>
    ensures { result ≡ accept_at words.now at }
{
    if word_reader::left_from(words, at) < 3 {
        return word_reader::short(words);
    }
    word_reader::read_many(&Triple, words, words[at + 2], at + 3)
}

// An escape row: EOF continuation or NONE, length, then its ranges.
pub fn read_escape_row(words: &[u32], at: usize) -> Result<usize, Refusal>
    ensures { result ≡ escape_at words.now at }
{
    if word_reader::left_from(words, at) < 2 {
        return word_reader::short(words);
    }
    word_reader::read_many(&Triple, words, words[at + 1], at + 2)
}

// A config: state, alternative rule or NONE, two flags, context, action count, actions.
pub fn read_config(words: &[u32], at: usize) -> Result<usize, Refusal>
    ensures { result ≡ config_at words.now at }
{
    if word_reader::left_from(words, at) < 6 {
        return word_reader::short(words);
    }
    word_reader::read_many(&Triple, words, words[at + 5], at + 6)
}

// A context: kind and two words, of which all three are read before the kind is judged.
struct Context;

impl Record for Context {
    ghost record_at = { λ k. context_at };

    fn read(&self, words: &[u32], at: usize) -> Result<usize, Refusal> {
        if word_reader::left_from(words, at) < 3 {
            return word_reader::short(words);
        }
        if 1 < words[at] {
            return word_reader::field(at);
        }
        Ok(at + 3)
    }
}

// A config, as the record of a section.
struct Config;

impl Record for Config {
    ghost record_at = { λ k. config_at };

    fn read(&self, words: &[u32], at: usize) -> Result<usize, Refusal> {
        read_config(words, at)
    }
}

// A continuation: its contexts, and its configs behind them.
pub fn read_continuation(words: &[u32], at: usize) -> Result<usize, Refusal>
    ensures { result ≡ continuation_at words.now at }
{
    let configs = word_reader::read_section(&Context, words, at)?;
    word_reader::read_section(&Config, words, configs)
}
