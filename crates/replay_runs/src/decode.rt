// The record about decoding: a table's words are decoded into a room, and the answer and all of the room are compared.
use refusal::{ROOM_NUMBERS, Refusal};
use replay_io::tally::Replayed;
use replay_io::{check, read};
use room_decode::Decoded;

// A table has no refusal, and a refusal no table: what a record does not tell of is 0.
fn same_answer(decoded: Result<Decoded, Refusal>, recorded: &[u8]) -> bool {
    match decoded {
        Ok(
            Decoded {
                modes,
                states,
                words,
            },
        ) => {
            (read::half(recorded, 0) == 0)
                & (read::byte(recorded, 2) == 0)
                & (modes as usize == read::small(recorded, 3))
                & (states as usize == read::small(recorded, 4))
                & (words == read::small(recorded, 5))
        }
        Err(refusal) => {
            (refusal.number as usize == read::small(recorded, 0))
                & (refusal.place == read::small(recorded, 1))
                & (refusal.item as usize == read::small(recorded, 2))
                & (read::half(recorded, 3) == 0)
                & (read::byte(recorded, 5) == 0)
        }
    }
}

// No number of the room is 0 before, so that one which decoding leaves alone changes the check.
pub(crate) fn replay_decode(record: &[u8]) -> Replayed {
    let n = read::small(record, 1);
    let recorded = read::after(record, 2 + 4 * n);
    let mut words = [0u32; 255];
    let k = read::put_words(read::part(record, 2, 4 * n), &mut words);
    let mut room = [1u32; ROOM_NUMBERS];
    let decoded = room_decode::decode(&words[..k], &mut room);
    Replayed {
        more: 11 + 4 * n,
        same: same_answer(decoded, recorded) & (check::short(&room) == read::word(recorded, 6)),
    }
}
