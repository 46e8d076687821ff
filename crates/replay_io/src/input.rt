// Reads an input to the front of a buffer.
ghost use Rattle.std.specs.Prelude.{ℕ, ◌<◌, ◌≤◌, length, take, IfOk, OnErr};
ghost use Rattle.std.specs.Io.KnownBytes.{Consumes, IsAtEnd};
ghost use Rattle.io.specs.Counts.{IsPrefixLen};

use std::io::{Read, Result};

// Reads until the buffer is full or the input ends, and answers how many bytes stand at its front. A read that fails ends it: what was read before
// stands at the front then, and nothing of the input is lost.
pub fn read_full<R: Read>(from: &mut R, out: &mut [u8]) -> Result<usize>
    ensures prefix_len { IfOk result (λ n. IsPrefixLen n out.new) }
    ensures bytes { IfOk result (λ n. Consumes (R.remaining from.old) (R.remaining from.new) (take n out.new)) }
    ensures whole { IfOk result (λ n. n < length out.new → IsAtEnd (R.remaining from.new)) }
    ensures none_lost { OnErr result ((n : ℕ) × (n ≤ length out.new) × Consumes (R.remaining from.old) (R.remaining from.new) (take n out.new)) }
{
    // A read says by how many bytes it comes on, so this is no loop over a range.
    let mut done = 0;
    while done < out.len() {
        let n = from.read(&mut out[done..])?;
        if n == 0 {
            return Ok(done);
        }
        done += n;
    }
    Ok(done)
}
