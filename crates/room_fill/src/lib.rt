// The room of a table: one flat list of numbers, lent by the caller, which the lookups read. A header, the words with flags made 0 or
// 1, and where each record of variable length starts (docs/ARCHITECTURE.md, "The room").
#![tactic(auto)]

ghost use Rattle.std.specs.Prelude.{◌≡◌, length};
ghost use Rattle.word_layout.specs.Limits.{laid_out};
ghost use Rattle.room_fill.specs.Room.{room_for};

use refusal::Refusal;
use table::Table;
use word_reader::Sections;

mod places;
mod renew;
mod table;

// Fills the room with the numbers of the table whose words these are, and answers where its sections start. Where there is no table,
// by its layout, the room is all zeros. The index rules are not judged here.
pub fn fill(words: &[u32], room: &mut [u32]) -> Result<Sections, Refusal>
    ensures { (result ≡ laid_out words.now (length room.old))
        × (room.new ≡ room_for words.now (length room.old) result) }
{
    buffer::clear(room);
    let sections = word_layout::find_within_limits(words, room.len())?;
    Table { words, sections }.put(room);
    Ok(sections)
}
