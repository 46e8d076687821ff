// The scan by a run for C and Rust: slices pass as pointer and length, the answer comes back as a struct.
// A number of 0 says accepted; else it is document 01's refusal, with its place and item, and every other field is 0.
#![tactic(auto)]

ghost use Rattle.std.specs.Prelude.{◌≡◌};
ghost use Rattle.refusal.specs.Said.{no_by};
ghost use Rattle.run_shape.specs.Scan.{said};
ghost use Rattle.c_scan.specs.Answers.{scan_call, scan_in_c};

use refusal::{FIELD, Refusal};
use run_ranges::PackedRanges;
use run_shape::{AsciiRun, AsciiRunScan};

// What is said of words that are not those of one run.
const NO_RUN: Refusal = Refusal {
    number: FIELD,
    item: 0,
    place: 0,
};

// How far a run went, and whether an exit stopped it; `ran` is 0 where there is no run. The flags are whole words, 1 or 0, so that
// a caller that loads a word finds one stored. No Result, since C reads it.
#[repr(C)]
#[derive(Clone, Copy)]
pub struct CScan {
    pub number: u32,
    pub item: u32,
    pub place: usize,
    pub ran: u32,
    pub bytes: usize,
    pub found_exit: u32,
}

impl From<Option<AsciiRunScan>> for CScan {
    ghost from_gives = { λ scanned c. c ≡ scan_in_c (said scanned) };

    fn from(scanned: Option<AsciiRunScan>) -> CScan {
        match scanned {
            None => CScan {
                number: 0,
                item: 0,
                place: 0,
                ran: 0,
                bytes: 0,
                found_exit: 0,
            },
            Some(scan) => CScan {
                number: 0,
                item: 0,
                place: 0,
                ran: 1,
                bytes: scan.bytes,
                found_exit: u32::from(scan.found_exit),
            },
        }
    }
}

impl From<Refusal> for CScan {
    ghost from_gives = { λ refusal c. c ≡ scan_in_c (no_by refusal) };

    fn from(refusal: Refusal) -> CScan {
        CScan {
            number: refusal.number,
            item: refusal.item,
            place: refusal.place,
            ran: 0,
            bytes: 0,
            found_exit: 0,
        }
    }
}

// The scan of the input by the run whose words these are. They are read as `run_words::read_alone` reads them, but the run is not handed
// on from call to call: through memory that takes longer than many scans.
#[tactic(auto, using(run_shape::proofs::Reading::reading))]
#[unsafe(no_mangle)]
pub extern "C" fn lexer_dfa_scan(words: &[u32], input: &[u8]) -> CScan
    ensures { result ≡ scan_in_c (scan_call words.now input.now) }
{
    match words {
        [word] => match run_words::short_answer(*word, 0) {
            Ok(run) => run_scan::scan_length(run, input).into(),
            Err(refusal) => refusal.into(),
        },
        [kind, first, second] => {
            let packed = PackedRanges {
                first: *first,
                second: *second,
            };
            match run_ranges::from_run(*kind, packed) {
                Some(ranges) => run_scan::scan_length(AsciiRun::Ranges(ranges), input).into(),
                None => NO_RUN.into(),
            }
        }
        _ => NO_RUN.into(),
    }
}
