// Whether a room holds a table: whether it is what decoding leaves for some accepted words. The words part of the room is judged as
// words are, and every other number compared with what decoding would have written.
#![tactic(auto)]

ghost use Rattle.std.specs.Prelude.{◌≡◌};
ghost use Rattle.refusal.specs.Said.{NOT-TABLE, refusal_at};
ghost use Rattle.room_judge.specs.Judge.{Part, table_in};

use laid::Laid;
use refusal::{HEADER_NUMBERS, MAX_WORDS, NOT_TABLE, ROOM_NUMBERS, Refusal, WORD_COUNT};
use word_reader::Sections;

mod laid;
mod places;

fn not_table() -> Refusal
    ensures { result ≡ refusal_at NOT-TABLE 0 }
{
    Refusal {
        number: NOT_TABLE,
        item: 0,
        place: 0,
    }
}

// The sections of the table whose words and room these are, or NOT-TABLE.
fn find_table(words: &[u32], room: &[u32]) -> Result<Sections, Refusal>
    requires { Part words.now room.now }
    ensures { result ≡ table_in room.now }
{
    let Ok(sections) = word_layout::find_sections(words) else {
        return Err(not_table());
    };
    let laid = Laid {
        words,
        sections,
        room,
    };
    if laid.is_sound() {
        Ok(sections)
    } else {
        Err(not_table())
    }
}

// Where the sections of the table in a room start, as places in its words part; NOT-TABLE exactly when the room isn't what decoding
// leaves for some accepted words.
pub fn table_in(room: &[u32]) -> Result<Sections, Refusal>
    ensures { result ≡ table_in room.now }
{
    if room.len() < ROOM_NUMBERS {
        return Err(not_table());
    }
    let count = room[WORD_COUNT] as usize;
    if MAX_WORDS < count {
        return Err(not_table());
    }
    find_table(&room[HEADER_NUMBERS..HEADER_NUMBERS + count], room)
}
