// The records about what is written into an output: how many numbers, and a check over all of the output.
use refusal::{MAX_WORDS, Refusal};
use replay_io::tally::Replayed;
use replay_io::{check, read};

// A refusal is a length that no output has.
const REFUSED: usize = 65535;

// How many numbers were written.
fn write(room: &[u32], kind: u8, out: &mut [u32]) -> Result<usize, Refusal> {
    match kind {
        11 => look_mode_lists::compiled_mode_flags(room, out),
        12 => look_mode_lists::mode_state_counts(room, out),
        _ => room_encode::encode(room, out),
    }
}

// No number of the output is 0 before, so that one which is left alone changes the check.
pub(crate) fn replay_list(room: &[u32], kind: u8, record: &[u8]) -> Replayed {
    let mut out = [1u32; MAX_WORDS];
    let length = write(room, kind, &mut out);
    Replayed {
        more: 6,
        same: (length.unwrap_or(REFUSED) == read::size(record, 1))
            & (check::short(&out) == read::word(record, 3)),
    }
}
