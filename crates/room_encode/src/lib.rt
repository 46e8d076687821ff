// Table to words: encoding hands the words of a room on, section by section, once it has judged the room.
#![tactic(auto)]

ghost use Rattle.std.specs.Prelude.{◌≡◌, ◌≤◌, length, Ok};
ghost use Rattle.word_layout.specs.Layout.{layout_of};
ghost use Rattle.buffer.specs.Over.{over, lay, zeros};
ghost use Rattle.room_judge.specs.Judge.{table_in};
ghost use Rattle.room_encode.specs.Encode.{encode_of, out_of};

use refusal::{HEADER_NUMBERS, NOT_TABLE, ROOM, Refusal, WORD_COUNT};
use word_reader::Sections;

// Writes a section from the front of its own part of the output.
fn write_section(section: &[u32], out: &mut [u32])
    requires { length section.now ≤ length out.old }
    ensures { out.new ≡ over section.now out.old }
{
    for (i, x) in section.iter().enumerate() {
        out[i] = *x;
    }
}

// Writes the tag and the eight sections, each into its own part of the output: each starts where the one before it ends.
#[tactic(auto, using(crate::proofs::Writing::following))]
fn write_sections(words: &[u32], s: Sections, out: &mut [u32])
    requires found { layout_of words.now ≡ Ok s }
    requires fits { length words.now ≤ length out.old }
    ensures { out.new ≡ lay 0 words.now out.old }
{
    let ends = [
        s.modes,
        s.states,
        s.runs,
        s.ascii,
        s.wide,
        s.accepts,
        s.escapes,
        s.continuations,
        words.len(),
    ];
    let mut at = 0;
    for end in &ends {
        write_section(&words[at..*end], &mut out[at..]);
        at = *end;
    }
}

// Writes the words of a room that is a table into an output that is all zeros.
fn write_table(room: &[u32], s: Sections, out: &mut [u32]) -> Result<usize, Refusal>
    requires found { table_in room.now ≡ Ok s }
    requires cleared { out.old ≡ zeros (length out.old) }
    ensures { (result ≡ encode_of room.now (length out.old))
        × (out.new ≡ out_of room.now (length out.old)) }
{
    let words = room[WORD_COUNT] as usize;
    if out.len() < words {
        return Err(Refusal {
            number: ROOM,
            item: 0,
            place: 0,
        });
    }
    write_sections(&room[HEADER_NUMBERS..HEADER_NUMBERS + words], s, out);
    Ok(words)
}

// Encodes the table in a room. Refused: every number of the output is 0. Accepted: the table's words, flags 0 or 1, then zeros.
pub fn encode(room: &[u32], out: &mut [u32]) -> Result<usize, Refusal>
    ensures { (result ≡ encode_of room.now (length out.old))
        × (out.new ≡ out_of room.now (length out.old)) }
{
    buffer::clear(out);
    match room_judge::table_in(room) {
        Ok(s) => write_table(room, s, out),
        Err(_) => Err(Refusal {
            number: NOT_TABLE,
            item: 0,
            place: 0,
        }),
    }
}
