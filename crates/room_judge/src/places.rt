// Whether the places of a table's sections and records stand in a room, where its words stand behind the header.
ghost use Rattle.std.specs.Prelude.{◌≡◌, ◌≤◌, ◌<◌, length};
ghost use Rattle.word_sections.specs.Kinds.{record_at};
ghost use Rattle.room_fill.specs.Room.{in_room, placed};
ghost use Rattle.room_judge.specs.Standing.{standing};

use refusal::HEADER_NUMBERS;
use word_sections::Kind;

// The place in the room of what is at `at` of the words.
// The twin of `in_room` in room_fill: a function that both could call would be public, and a public one asks nothing of its callers.
pub(crate) fn in_room(at: usize) -> u32
    requires { at ≤ 8192 }
    ensures { result ≡ in_room at }
{
    (at + HEADER_NUMBERS) as u32
}

// From place `n` of the room on stand the places of the records of a kind, whose count stands at `at`: the place behind them.
pub(crate) fn record_places_stand(
    kind: Kind,
    words: &[u32],
    at: usize,
    room: &[u32],
    n: usize,
) -> Option<usize>
    requires within { at < length words.now }
    requires limit { length words.now ≤ 8192 }
    ensures { result ≡ standing (placed (record_at kind) words.now at) n room.now }
{
    let mut here = at + 1;
    let mut m = n;
    for _i in 0..words[at] {
        let Ok(behind) = word_sections::read_record(kind, words, here) else {
            return Some(m);
        };
        if room.len() <= m || room[m] != in_room(here) {
            return None;
        }
        here = behind;
        m += 1;
    }
    Some(m)
}
