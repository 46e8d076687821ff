// The run of a state: where its words stand, and the run that they are. The room may be of any length and hold any numbers.
#![tactic(auto)]

ghost use Rattle.std.specs.Prelude.{◌≡◌, ◌≤◌, length};
ghost use Rattle.look_runs.specs.RunPlaces.{run_place};
ghost use Rattle.look_runs.specs.StateRun.{run_in, run_of, ascii_run};

use refusal::{ASCII_START, NOT_TABLE, RUNS_START, Refusal, STATE};
use room_find::Missing;
use run_shape::{AsciiRun, refuse};

// Where the run with a number stands.
pub fn find_run(room: &[u32], i: u32) -> Result<usize, Missing>
    ensures { result ≡ run_place room.now i }
{
    room_find::find_listed(room, RUNS_START, i)
}

// The run at a place, read from its section alone, which ends at `end`. What reading refuses is no table.
#[tactic(auto, using(crate::proofs::Laws::reading), unfolding(crate::specs::StateRun::run_in))]
fn read_run(room: &[u32], end: u32, at: usize) -> Result<AsciiRun, Refusal>
    requires { end ≤ length room.now }
    ensures { result ≡ run_in room.now end at }
{
    let to = end as usize;
    run_words::read_serialized(&room[..to], at).or(refuse(NOT_TABLE, 0))
}

#[tactic(auto, using(crate::proofs::Laws::reading), unfolding(crate::specs::StateRun::run_of, room_find::specs::Room::follow))]
fn run_of(room: &[u32], i: u32) -> Result<AsciiRun, Refusal>
    ensures { result ≡ run_of room.now i }
{
    match find_run(room, i) {
        Ok(p) => read_run(room, room[ASCII_START], p),
        Err(_) => refuse(NOT_TABLE, 0),
    }
}

// The run of a state.
#[tactic(auto, unfolding(crate::specs::StateRun::ascii_run, room_find::specs::Room::follow))]
pub fn ascii_run(room: &[u32], state: u16) -> Result<AsciiRun, Refusal>
    ensures { result ≡ ascii_run room.now state }
{
    match room_find::find_state(room, state) {
        Ok(_) => run_of(room, u32::from(state)),
        Err(Missing::Absent) => refuse(STATE, 0),
        Err(Missing::Outside) => refuse(NOT_TABLE, 0),
    }
}
