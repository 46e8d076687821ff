// The scan by a run: the front part of a text that the run skips, and its length.
//
// The words 261, 14640, 0 are the run of a row that loops on the digits, and the text is "10 ply": the run is one range, 48..57, and
// `scan_scalar` counts the bytes before the first that lies in none, sixteen at once: 2. So the front part is "10", and an exit was
// found, since bytes are left.
#![tactic(auto)]

ghost use Rattle.std.specs.Prelude.{ℕ, Bool, ◌≡◌, ◌≤◌, min, length, take, [], ◌∷◌};
ghost use Rattle.refusal.specs.Lists.{pick, before};
ghost use Rattle.run_ranges.specs.Ranges.{in_range, outside, listed, used_if};
ghost use Rattle.run_shape.specs.Shape.{shape};
ghost use Rattle.run_shape.specs.Scan.{skipped, scan_of};

use run_ranges::{AsciiRange, AsciiRanges};
use run_shape::{AsciiRun, AsciiRunScan};

fn holds(range: AsciiRange, byte: u8) -> bool
    ensures { result ≡ in_range range byte }
{
    (range.low <= byte) & (byte <= range.high)
}

// With no branch, so that the compiler can test many bytes at once.
#[tactic(auto, using(crate::proofs::RangeScans::is_outside))]
fn outside(a: AsciiRange, b: AsciiRange, c: AsciiRange, d: AsciiRange, byte: u8) -> bool
    ensures { result ≡ outside (a ∷ b ∷ c ∷ d ∷ []) byte }
{
    !(holds(a, byte) | holds(b, byte) | holds(c, byte) | holds(d, byte))
}

// How many bytes stand before the first at which the test holds, byte by byte.
fn before_first<F: Fn(u8) -> bool>(input: &[u8], stops: F) -> usize
    requires { F.IsAlwaysCallable stops }
    ensures { (p : ℕ → Bool) → ((x : ℕ) (t : Bool) → F.post stops x t → t ≡ p x) → result ≡ before p input.now }
{
    for (place, byte) in input.iter().enumerate() {
        if stops(*byte) {
            return place;
        }
    }
    input.len()
}

// The place of a byte that is outside; of any other, the end of its block.
fn place_or_end(outside: bool, place: u8) -> u8
    ensures { result ≡ pick outside place 16 }
{
    if outside { place } else { 16 }
}

// How many bytes of a block stand before the first that is in none of four ranges. The loop has no early way out and a place is
// one byte, so the compiler tests the 16 bytes at once and no branch depends on where the run ends.
fn first_outside(a: AsciiRange, b: AsciiRange, c: AsciiRange, d: AsciiRange, block: &[u8]) -> usize
    requires { length block.now ≡ 16 }
    ensures { (result ≡ before (outside (a ∷ b ∷ c ∷ d ∷ [])) block.now) × (result ≤ 16) }
{
    let mut first = 16u8;
    for k in 0..16 {
        first = first.min(place_or_end(outside(a, b, c, d, block[k]), k as u8));
    }
    usize::from(first)
}

// The same as `before_first`, block by block. The last block ends with the input, so it can begin inside the one before it.
fn scan_blocks(a: AsciiRange, b: AsciiRange, c: AsciiRange, d: AsciiRange, input: &[u8]) -> usize
    requires { 16 ≤ length input.now }
    ensures { result ≡ before (outside (a ∷ b ∷ c ∷ d ∷ [])) input.now }
{
    let last = input.len() - 16;
    let mut at = 0;
    while at < last {
        let first = first_outside(a, b, c, d, &input[at..at + 16]);
        if first < 16 {
            return at + first;
        }
        at += 16;
    }
    last + first_outside(a, b, c, d, &input[last..])
}

// How many bytes stand before the first that is in none of four ranges. Always four: a loop over fewer is so short that the
// compiler unrolls it and tests byte by byte.
fn scan_four(a: AsciiRange, b: AsciiRange, c: AsciiRange, d: AsciiRange, input: &[u8]) -> usize
    ensures { result ≡ before (outside (a ∷ b ∷ c ∷ d ∷ [])) input.now }
{
    if 16 <= input.len() {
        return scan_blocks(a, b, c, d, input);
    }
    before_first(input, |byte| outside(a, b, c, d, byte))
}

// The range, or one that holds nothing.
fn used(range: AsciiRange, yes: bool) -> AsciiRange
    ensures { result ≡ used_if yes range }
{
    if yes {
        range
    } else {
        AsciiRange { low: 1, high: 0 }
    }
}

// How many bytes stand before the first that is in none of the ranges.
pub fn scan_scalar(ranges: AsciiRanges, input: &[u8]) -> usize
    ensures { result ≡ before (outside (listed ranges)) input.now }
{
    let rs = ranges.ranges;
    let count = ranges.count;
    let a = used(rs[0], 0 < count);
    let b = used(rs[1], 1 < count);
    let c = used(rs[2], 2 < count);
    let d = used(rs[3], 3 < count);
    scan_four(a, b, c, d, input)
}

// How many bytes a run skips; none skips nothing.
#[inline(always)]
#[tactic(auto, using(crate::proofs::Scans::skipping))]
fn skip(run: AsciiRun, input: &[u8]) -> usize
    ensures { result ≡ skipped (shape run) input.now }
{
    match run {
        AsciiRun::None => 0,
        AsciiRun::Any => input.len(),
        AsciiRun::Until1(a) => before_first(input, |byte| byte == a),
        AsciiRun::Until2(a, b) => before_first(input, |byte| (byte == a) | (byte == b)),
        AsciiRun::Until3(a, b, c) => before_first(
            input,
            |byte| (byte == a) | (byte == b) | (byte == c),
        ),
        AsciiRun::Ranges(ranges) => scan_scalar(ranges, input),
    }
}

// The skipped run itself: the front part of the input, where the input starts.
#[tactic(auto, using(crate::proofs::Scans::front))]
pub fn scan(run: AsciiRun, input: &[u8]) -> &[u8]
    ensures { (result.now ≡ take (skipped (shape run) input.now) input.now) × (result.ref_ptr ≡ input.entry.ref_ptr) }
{
    let bytes = skip(run, input);
    &input[..bytes]
}

// The length of the skipped run, and whether an exit was found; or that there is no run. It is made part of each caller, which knows
// what kind of run it has.
#[inline(always)]
#[tactic(auto, unfolding(run_shape::specs::Scan::scan_of))]
pub fn scan_length(run: AsciiRun, input: &[u8]) -> Option<AsciiRunScan>
    ensures { result ≡ scan_of (shape run) input.now }
{
    if matches!(run, AsciiRun::None) {
        return None;
    }
    let bytes = skip(run, input);
    Some(AsciiRunScan {
        bytes,
        found_exit: bytes < input.len(),
    })
}
