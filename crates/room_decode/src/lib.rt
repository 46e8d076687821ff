// Words to table: decoding judges a list of words and fills the room that the lookups read.
//
// The 82 words of samples/ply-82.words: the room is long enough and the words are within the limit. The tag stands, and the eight sections
// are read one after the other: their counts are at 1, 3, 8, 10, 75, 77, 78 and 81, and nothing is left. The room gets its header, the
// words with flags made 0 or 1, and where each record of variable length starts. Then the nine rules are judged: the one run is 1, any,
// and so must be the classification of row 0 at state 0, whose 128 targets are all 0: it is. The answer is 1 mode, 1 state, 82 words. Had
// a rule been broken, the room would have been cleared again, and the refusal would have named the first mode, state, row or continuation that
// breaks it.
#![tactic(auto)]

ghost use Rattle.std.specs.Prelude.{◌≡◌, length};
ghost use Rattle.room_decode.specs.Decode.{decode_of, room_of};

use refusal::{INDEX, Refusal};
use rule_words::word_at;

// A table, by the number of its modes, states and words.
#[derive(Clone, Copy)]
pub struct Decoded {
    pub modes: u32,
    pub states: u32,
    pub words: usize,
}

// Decodes a table into the room. Refused: every number of the room is 0. Accepted: the table's numbers, then zeros.
pub fn decode(words: &[u32], room: &mut [u32]) -> Result<Decoded, Refusal>
    ensures { (result ≡ decode_of words.now (length room.old))
        × (room.new ≡ room_of words.now (length room.old)) }
{
    let s = room_fill::fill(words, room)?;
    if let Some(broken) = rule_first::first_broken(words, s) {
        buffer::clear(room);
        return Err(Refusal {
            number: INDEX,
            item: broken.item,
            place: broken.rule as usize,
        });
    }
    Ok(Decoded {
        modes: word_at(words, s.modes),
        states: word_at(words, s.states),
        words: words.len(),
    })
}
