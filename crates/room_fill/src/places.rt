// Where the words of a table and its records stand in the room.
ghost use Rattle.std.specs.Prelude.{◌≡◌, ◌≤◌, ◌<◌, ◌+◌, length};
ghost use Rattle.word_sections.specs.Kinds.{record_at};
ghost use Rattle.buffer.specs.Over.{Put};
ghost use Rattle.room_fill.specs.Room.{in_room, placed};

use refusal::HEADER_NUMBERS;
use word_sections::Kind;

// The place in the room of what is at `at` of the words, which stand behind the header.
pub(crate) fn in_room(at: usize) -> u32
    requires { at ≤ 8192 }
    ensures { result ≡ in_room at }
{
    (at + HEADER_NUMBERS) as u32
}

// Writes, from place `n` of the room on, the places of the records of a kind, whose count stands at `at`, and answers the place behind them.
pub(crate) fn put_record_places(
    kind: Kind,
    words: &[u32],
    at: usize,
    room: &mut [u32],
    n: usize,
) -> usize
    requires within { at < length words.now }
    requires limit { length words.now ≤ 8192 }
    requires fits { n + length (placed (record_at kind) words.now at) ≤ length room.old }
    ensures { Put (placed (record_at kind) words.now at) n room.old result room.new }
{
    let mut here = at + 1;
    let mut m = n;
    for _i in 0..words[at] {
        let Ok(behind) = word_sections::read_record(kind, words, here) else {
            return m;
        };
        room[m] = in_room(here);
        m += 1;
        here = behind;
    }
    m
}
