// The records whose answer is a number, and those of a scan.
use refusal::Refusal;
use replay_io::read;
use replay_io::tally::Replayed;
use room_find::Missing;
use run_shape::AsciiRunScan;

// The number of a record for no start, accept or continuation.
const NONE: u32 = 4294967295;

// A refusal is a number that no record of the sample has, so it differs from each.
const REFUSED: u32 = 4294967294;

fn start(answer: Result<Option<u16>, Missing>) -> Option<u32> {
    Some(answer.ok()?.map_or(NONE, u32::from))
}

// What kinds 1 to 9 answer: NONE is the answer's own number for no accept and for no continuation. (The kinds stay numbers, here and in the other programs:
// they are those of the table in main.rt, and an enum would name each of them once more.)
fn looked_up(room: &[u32], kind: u8, state: u16, symbol: u32, ascii: u8) -> Option<u32> {
    match kind {
        1 => start(look_modes::mode_start(room, symbol)),
        2 => look_modes::state_count(room).ok(),
        3 => look_accepts::accept(room, state).ok(),
        4 => look_targets::ascii_target(room, state, ascii).ok(),
        5 => look_targets::char_target(room, state, symbol).ok(),
        6 => look_targets::eof_target(room, state).ok(),
        7 => look_continuations::char_continuation(room, state, symbol).ok(),
        8 => look_continuations::eof_continuation(room, state).ok(),
        _ => room_coverage::coverage(room, state).ok(),
    }
}

// The ASCII symbol is the first byte of the symbol.
pub(crate) fn replay_number(room: &[u32], kind: u8, record: &[u8]) -> Replayed {
    let ours = looked_up(
        room,
        kind,
        read::half(record, 1),
        read::word(record, 3),
        read::byte(record, 3),
    );
    Replayed {
        more: 10,
        same: ours.unwrap_or(REFUSED) == read::word(record, 7),
    }
}

// Equal answers, and the part that the scan hands back is as long as the answer says. No record is of a refusal.
fn same_scan(scan: Result<Option<AsciiRunScan>, Refusal>, part: usize, recorded: &[u8]) -> bool {
    match scan {
        Ok(None) => (read::word(recorded, 0) == 1) & (part == 0),
        Ok(Some(AsciiRunScan { bytes, found_exit })) => {
            let exit = read::byte(recorded, 3);
            (read::byte(recorded, 0) == 2)
                & (bytes == read::size(recorded, 1))
                & (bytes == part)
                & (found_exit == (exit == 1))
                & (exit < 2)
        }
        Err(_) => false,
    }
}

pub(crate) fn replay_scan(room: &[u32], record: &[u8]) -> Replayed {
    let state = read::half(record, 1);
    let n = read::size(record, 3);
    let input = read::part(record, 5, n);
    let part = look_scan::scan_ascii_run(room, state, input);
    let scan = look_scan::scan_ascii_run_length(room, state, input);
    Replayed {
        more: 8 + n,
        same: same_scan(scan, part.len(), read::after(record, 5 + n)),
    }
}
