// Lent buffers made zero, whatever numbers they have: targets of 16 bits, numbers of 32, and the words of masks, of 64. In specs/ what it is to write a
// list over a part of another, and what a call says that writes into a buffer; in proofs/ the law of every loop that does.
#![tactic(auto)]

ghost use Rattle.std.specs.Prelude.{◌≡◌, IsTrue, length, replicate, bit_or};
ghost use Rattle.buffer.specs.Over.{over};
ghost use Rattle.buffer.specs.Joins.{or_zero};

// A number that a buffer has.
pub trait Number: Copy {
    ghost zero: { Self };

    ghost join: { Self → Self → Self };

    fn zero() -> Self
        ensures { result ≡ zero };

    fn is_zero(self) -> bool
        ensures { (IsTrue result → self ≡ zero) × (self ≡ zero → IsTrue result) };

    // The bits of both.
    fn joined(self, other: Self) -> Self
        ensures { result ≡ join self other };

    // Where no bit of both is set, none of either is.
    ghost join_zero: { (a b : Self) → join a b ≡ zero → (a ≡ zero) × (b ≡ zero) };
}

impl Number for u16 {
    ghost zero = { 0 };

    ghost join = { bit_or };

    ghost join_zero = { or_zero };

    fn zero() -> u16 {
        0
    }

    fn is_zero(self) -> bool {
        self == 0
    }

    fn joined(self, other: u16) -> u16 {
        self | other
    }
}

impl Number for u32 {
    ghost zero = { 0 };

    ghost join = { bit_or };

    ghost join_zero = { or_zero };

    fn zero() -> u32 {
        0
    }

    fn is_zero(self) -> bool {
        self == 0
    }

    fn joined(self, other: u32) -> u32 {
        self | other
    }
}

impl Number for u64 {
    ghost zero = { 0 };

    ghost join = { bit_or };

    ghost join_zero = { or_zero };

    fn zero() -> u64 {
        0
    }

    fn is_zero(self) -> bool {
        self == 0
    }

    fn joined(self, other: u64) -> u64 {
        self | other
    }
}

// How many numbers are read at a time, and written where they are not all 0.
pub const BLOCK: usize = 256;

// Up to so many numbers stay in the nearest cache, where to write costs less than to read.
const CACHED: usize = 4096;

// Whether every number is 0, by the bits of all together. The loop has no other way out and asks nothing: it reads several at once.
fn is_clear<T: Number>(block: &[T]) -> bool
    ensures { IsTrue result → block.now ≡ replicate (length block.now) T.zero }
{
    let mut all = T::zero();
    for number in block {
        all = all.joined(*number);
    }
    all.is_zero()
}

fn write_zeros<T: Number>(numbers: &mut [T])
    ensures { numbers.new ≡ replicate (length numbers.old) T.zero }
{
    for number in numbers.iter_mut() {
        *number = T::zero();
    }
}

fn clear_block<T: Number>(block: &mut [T])
    ensures { block.new ≡ replicate (length block.old) T.zero }
{
    if !is_clear(block) {
        write_zeros(block);
    }
}

// Block by block. A `while`, since of what `chunks_mut` lent a proof knows nothing when the loop is over.
fn clear_blocks<T: Number>(numbers: &mut [T])
    ensures { numbers.new ≡ replicate (length numbers.old) T.zero }
{
    let mut at = 0;
    while numbers.len() - at >= BLOCK {
        clear_block(&mut numbers[at..at + BLOCK]);
        at += BLOCK;
    }
    write_zeros(&mut numbers[at..]);
}

// Makes every number 0. A long buffer is lent again and again and is mostly 0 already, so it is read first: to write it all costs more.
pub fn clear<T: Number>(numbers: &mut [T])
    ensures { numbers.new ≡ replicate (length numbers.old) T.zero }
{
    if numbers.len() > CACHED {
        clear_blocks(numbers);
    } else {
        write_zeros(numbers);
    }
}

// Writes numbers over the front of others, as far as both go. By a loop, since `copy_from_slice` calls memmove, and an archive for C is to need no
// such name from outside.
pub fn copy<T: Number>(from: &[T], to: &mut [T])
    ensures { to.new ≡ over from.now to.old }
{
    for i in 0..from.len().min(to.len()) {
        to[i] = from[i];
    }
}
