// The records about runs: each has a proved function answer what the original was asked, and compares.
use refusal::Refusal;
use replay_io::read;
use replay_io::tally::Replayed;
use run_class::AsciiRangeClass;
use run_shape::{AsciiRun, AsciiRunScan, RunWords};

// Where symbol k leads: its bit says whether it loops.
fn target(bits: &[u8], k: usize, state: u16, other: u16) -> u16 {
    if (read::byte(bits, k / 8) >> (k % 8)) & 1 == 1 {
        state
    } else {
        other
    }
}

fn row_of(bits: &[u8], state: u16, other: u16) -> [u16; 128] {
    std::array::from_fn(|k| target(bits, k, state, other))
}

fn same_words(ours: RunWords, n: usize, list: &[u8]) -> bool {
    (ours.length == n)
        & (ours.first == read::word(list, 0))
        & (ours.second == read::word(list, 4))
        & (ours.third == read::word(list, 8))
}

// Whether a run has just these n words. No record is of a refusal.
fn same_run(answer: Result<AsciiRun, Refusal>, n: usize, list: &[u8]) -> bool {
    match answer {
        Ok(run) => same_words(run_words::write_serialized(run), n, list),
        Err(_) => false,
    }
}

pub(crate) fn replay_classify(record: &[u8]) -> Replayed {
    let state = read::half(record, 1);
    let row = row_of(read::after(record, 5), state, read::half(record, 3));
    let n = read::small(record, 21);
    let list = read::part(record, 22, 4 * n);
    Replayed {
        more: 21 + 4 * n,
        same: same_run(run_classify::classify(&row, state), n, list),
    }
}

fn class_number(answer: Result<AsciiRangeClass, Refusal>) -> u8 {
    match answer {
        Ok(class) => class as u8,
        Err(_) => 255,
    }
}

pub(crate) fn replay_class(record: &[u8]) -> Replayed {
    let words = [
        read::word(record, 1),
        read::word(record, 5),
        read::word(record, 9),
    ];
    Replayed {
        more: 13,
        same: class_number(run_class::class(&words)) == read::byte(record, 13),
    }
}

// Equal answers, and the part that the scan hands back is as long as the answer says.
fn same_scanned(scanned: Option<AsciiRunScan>, part: usize, recorded: &[u8]) -> bool {
    match scanned {
        None => (read::word(recorded, 0) == 1) & (part == 0),
        Some(scan) => {
            let exit = read::byte(recorded, 3);
            (read::byte(recorded, 0) == 2)
                & (scan.bytes == read::size(recorded, 1))
                & (scan.bytes == part)
                & (scan.found_exit == (exit == 1))
                & (exit < 2)
        }
    }
}

fn same_scan(answer: Result<AsciiRun, Refusal>, input: &[u8], recorded: &[u8]) -> bool {
    match answer {
        Ok(run) => {
            let part = run_scan::scan(run, input);
            same_scanned(run_scan::scan_length(run, input), part.len(), recorded)
        }
        Err(_) => read::word(recorded, 0) == 0,
    }
}

pub(crate) fn replay_scan(record: &[u8]) -> Replayed {
    let n = read::small(record, 1);
    let mut words = [0u32; 255];
    let k = read::put_words(read::part(record, 2, 4 * n), &mut words);
    let run = run_words::read_alone(&words[..k]);
    let rest = read::after(record, 2 + 4 * n);
    let bytes = read::size(rest, 0);
    let input = read::part(rest, 2, bytes);
    Replayed {
        more: 7 + 4 * n + bytes,
        same: same_scan(run, input, read::after(rest, 2 + bytes)),
    }
}
