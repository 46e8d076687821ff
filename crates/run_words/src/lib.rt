// A run's words: read at a place in a list, or alone; and written.
#![tactic(auto)]

ghost use Rattle.std.specs.Prelude.{◌≡◌};
ghost use Rattle.run_ranges.specs.Ranges.{ranges_of_run};
ghost use Rattle.run_shape.specs.Words.{read_at, read_alone, or_field, short_run, kind_of, bytes_of, ranges_run, words_of_run, one_word};

use refusal::{FIELD, Refusal, SHORT};
use run_ranges::PackedRanges;
use run_shape::{AsciiRun, RunWords};

// The run where the test holds, else FIELD.
#[tactic(auto, unfolding(run_shape::specs::Words::or_field))]
fn or_field(good: bool, run: AsciiRun, at: usize) -> Result<AsciiRun, Refusal>
    ensures { result ≡ or_field at good run }
{
    if good {
        return Ok(run);
    }
    run_shape::refuse(FIELD, at)
}

// A run of one word.
#[tactic(auto, using(run_shape::proofs::Reading::reading))]
pub fn short_answer(word: u32, at: usize) -> Result<AsciiRun, Refusal>
    ensures { result ≡ short_run at (kind_of word) (bytes_of word) }
{
    let a = word / 256 % 256;
    let b = word / 65536 % 256;
    let c = word / 16777216;
    match word % 256 {
        0 => or_field((a == 0) & (b == 0) & (c == 0), AsciiRun::None, at),
        1 => or_field((a == 0) & (b == 0) & (c == 0), AsciiRun::Any, at),
        2 => or_field(
            (a < 128) & (b == 0) & (c == 0),
            AsciiRun::Until1(a as u8),
            at,
        ),
        3 => or_field(
            (a < 128) & (b < 128) & (c == 0),
            AsciiRun::Until2(a as u8, b as u8),
            at,
        ),
        4 => or_field(
            (a < 128) & (b < 128) & (c < 128),
            AsciiRun::Until3(a as u8, b as u8, c as u8),
            at,
        ),
        _ => run_shape::refuse(FIELD, at),
    }
}

// A kind-5 run, whose three words are there.
fn read_ranges(kind: u32, words: PackedRanges, at: usize) -> Result<AsciiRun, Refusal>
    ensures { result ≡ ranges_run at (ranges_of_run kind words) }
{
    match run_ranges::from_run(kind, words) {
        Some(ranges) => Ok(AsciiRun::Ranges(ranges)),
        None => run_shape::refuse(FIELD, at),
    }
}

// The run that stands at a word.
#[tactic(auto, using(run_shape::proofs::Reading::reading))]
pub fn read_serialized(words: &[u32], at: usize) -> Result<AsciiRun, Refusal>
    ensures { result ≡ read_at words.now at }
{
    if words.len() <= at {
        return run_shape::refuse(SHORT, words.len());
    }
    let word = words[at];
    if word % 256 != 5 {
        return short_answer(word, at);
    }
    if words.len() - at < 3 {
        return run_shape::refuse(SHORT, words.len());
    }
    let packed = PackedRanges {
        first: words[at + 1],
        second: words[at + 2],
    };
    read_ranges(word, packed, at)
}

// The run whose words these are, all of them; anything else is FIELD. How many there are says which kinds it can be.
#[tactic(auto, using(run_shape::proofs::Reading::reading))]
pub fn read_alone(words: &[u32]) -> Result<AsciiRun, Refusal>
    ensures { result ≡ read_alone words.now }
{
    match words {
        [word] => short_answer(*word, 0),
        [kind, first, second] => {
            let packed = PackedRanges {
                first: *first,
                second: *second,
            };
            read_ranges(*kind, packed, 0)
        }
        _ => run_shape::refuse(FIELD, 0),
    }
}

fn one_word(word: u32) -> RunWords
    ensures { result ≡ one_word word }
{
    RunWords {
        length: 1,
        first: word,
        second: 0,
        third: 0,
    }
}

// The words of a run.
pub fn write_serialized(run: AsciiRun) -> RunWords
    ensures { result ≡ words_of_run run }
{
    match run {
        AsciiRun::None => one_word(0),
        AsciiRun::Any => one_word(1),
        AsciiRun::Until1(a) => one_word(2 + 256 * u32::from(a)),
        AsciiRun::Until2(a, b) => one_word(3 + 256 * u32::from(a) + 65536 * u32::from(b)),
        AsciiRun::Until3(a, b, c) => one_word(
            4 + 256 * u32::from(a) + 65536 * u32::from(b) + 16777216 * u32::from(c),
        ),
        AsciiRun::Ranges(ranges) => {
            let packed = run_ranges::packed_words(ranges);
            RunWords {
                length: 3,
                first: 5 + 256 * u32::from(ranges.count),
                second: packed.first,
                third: packed.second,
            }
        }
    }
}
