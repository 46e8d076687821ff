// The scan by a state's run, for C and Rust: slices pass as pointer and length, the answer comes back as a struct.
// A number of 0 says answered; else it is document 01's refusal, and every other field is 0.
#![tactic(auto)]

ghost use Rattle.std.specs.Prelude.{◌≡◌};
ghost use Rattle.run_shape.specs.Scan.{scanned_by};
ghost use Rattle.look_runs.specs.StateRun.{ascii_run};
ghost use Rattle.c_state_scan.specs.Answers.{state_scan_in_c};

// How far a state's run went, in two registers: `stop` is 0 where there is no run, 1 where the input ended and 2 where an exit was found. No Result, since C reads it.
#[repr(C)]
#[derive(Clone, Copy)]
pub struct CStateScan {
    pub bytes: usize,
    pub number: u32,
    pub stop: u32,
}

// The scan of the input by the run of a state.
#[unsafe(no_mangle)]
pub extern "C" fn lexer_dfa_scan_ascii_run(room: &[u32], state: u16, input: &[u8]) -> CStateScan
    ensures { result ≡ state_scan_in_c (scanned_by (ascii_run room.now state) input.now) }
{
    match look_scan::scan_ascii_run_length(room, state, input) {
        Ok(None) => CStateScan {
            bytes: 0,
            number: 0,
            stop: 0,
        },
        Ok(Some(scan)) => CStateScan {
            bytes: scan.bytes,
            number: 0,
            stop: 1 + u32::from(scan.found_exit),
        },
        Err(refusal) => CStateScan {
            bytes: 0,
            number: refusal.number,
            stop: 0,
        },
    }
}
