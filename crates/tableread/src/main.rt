// The program of document 01, "Ply-sheet examples": it reads a table's words from standard input, the least byte first, and prints
// one line, `ok MODES STATES WORDS` or, as document 02 has it, `no NUMBER PLACE ITEM`.
//
//     ./run tableread < crates/tableread/stdin
#![tactic(auto)]

mod line;

ghost use Rattle.std.specs.Prelude.{◌≡◌, take};
ghost use Rattle.room_decode.specs.Decode.{said};
ghost use Rattle.program_io.specs.Bytes.{read_of};
ghost use Rattle.tableread.specs.Line.{line_of};

use line::Line;
use refusal::ROOM_NUMBERS;
use replay_io::input::read_full;
use std::io::Result;

// The line that answers an input.
fn answer(input: &[u8]) -> Line
    ensures { take result.at result.bytes ≡ line_of (said (read_of input.now 16384)) }
{
    let mut room = [0u32; ROOM_NUMBERS];
    line::line_of(program_io::read_table(input, &mut room))
}

// The buffer takes 65,536 bytes, which are more than 8,192 words: an input that fills it is LIMIT, whatever stands behind.
fn main(rt: HostRuntime) -> Result<()> {
    let mut input = io::large_buffer();
    let n = read_full(&mut rt.stdin(), &mut input)?;
    rt.stdout().write_all(answer(&input[..n]).written())
}
