// Where the sections of a table start: the words are read once, section by section, or refused by number and place. Before that decoding
// asks for a room that is long enough, and not too many words.
#![tactic(auto)]

ghost use Rattle.std.specs.Prelude.{◌≡◌};
ghost use Rattle.word_layout.specs.Layout.{unfound, closed, after_continuations, sections_in, layout_of};
ghost use Rattle.word_layout.specs.Limits.{laid_out};

use refusal::{LEFT, LIMIT, MAX_WORDS, ROOM, ROOM_NUMBERS, Refusal, SERIALIZED_TAG, SHORT, TAG};
use word_reader::Sections;
use word_sections::Kind;

// Refuses the words, by number and place.
fn unfound(number: u32, place: usize) -> Result<Sections, Refusal>
    ensures { result ≡ unfound number place }
{
    Err(Refusal {
        number,
        item: 0,
        place,
    })
}

// The eight sections behind the tag, one after the other: each starts where the one before it ended, and nothing is left behind the last.
fn read_sections(words: &[u32]) -> Result<Sections, Refusal>
    ensures { result ≡ closed words.now (sections_in words.now) (after_continuations words.now) }
{
    let modes = 1;
    let states = word_sections::read_section(Kind::Mode, words, modes)?;
    let runs = word_sections::read_section(Kind::State, words, states)?;
    let ascii = word_sections::read_section(Kind::AsciiRun, words, runs)?;
    let wide = word_sections::read_section(Kind::AsciiRow, words, ascii)?;
    let accepts = word_sections::read_section(Kind::WideRow, words, wide)?;
    let escapes = word_sections::read_section(Kind::Accept, words, accepts)?;
    let continuations = word_sections::read_section(Kind::EscapeRow, words, escapes)?;
    let end = word_sections::read_section(Kind::Continuation, words, continuations)?;
    if end < words.len() {
        return unfound(LEFT, end);
    }
    Ok(Sections {
        modes,
        states,
        runs,
        ascii,
        wide,
        accepts,
        escapes,
        continuations,
    })
}

// The tag, then the sections one after the other, and nothing behind them.
pub fn find_sections(words: &[u32]) -> Result<Sections, Refusal>
    ensures { result ≡ layout_of words.now }
{
    if words.len() == 0 {
        return unfound(SHORT, 0);
    }
    if words[0] != SERIALIZED_TAG {
        return unfound(TAG, 0);
    }
    read_sections(words)
}

// Where the sections of a table start, whose words these are and whose room has so many numbers; or why there is none.
pub fn find_within_limits(words: &[u32], numbers: usize) -> Result<Sections, Refusal>
    ensures { result ≡ laid_out words.now numbers }
{
    if numbers < ROOM_NUMBERS {
        return unfound(ROOM, 0);
    }
    if MAX_WORDS < words.len() {
        return unfound(LIMIT, MAX_WORDS);
    }
    find_sections(words)
}
