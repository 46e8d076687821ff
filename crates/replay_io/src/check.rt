// A check over all numbers of a buffer: the sum of the sums after each, in 64 bits, which tells numbers in another order apart.
ghost use Rattle.std.specs.Prelude.{◌≡◌, ◌%◌, ℕ};
ghost use Rattle.replay_io.specs.Check.{with, summed, summed_by, none};

#[derive(Clone, Copy)]
pub struct Sums {
    pub sum: u64,
    pub sums: u64,
}

pub const NONE: Sums = Sums { sum: 0, sums: 0 };

// A number that can be summed, which is one of at most 64 bits. (`Into<u64>` would not do: it does not say that it gives one number only.)
pub trait Number: Copy {
    ghost value: { Self → ℕ };

    fn wide(self) -> u64
        ensures { result ≡ value self };
}

impl Number for u16 {
    ghost value = { λ x. x };

    fn wide(self) -> u64 {
        u64::from(self)
    }
}

impl Number for u32 {
    ghost value = { λ x. x };

    fn wide(self) -> u64 {
        u64::from(self)
    }
}

impl Number for u64 {
    ghost value = { λ x. x };

    fn wide(self) -> u64 {
        self
    }
}

fn with(before: Sums, x: u64) -> Sums
    ensures { result ≡ with before x }
{
    let sum = before.sum.wrapping_add(x);
    Sums {
        sum,
        sums: before.sums.wrapping_add(sum),
    }
}

pub fn of<T: Number>(before: Sums, out: &[T]) -> Sums
    ensures { result ≡ summed_by T.value before out.now }
{
    out.iter().fold(before, |sums, x| with(sums, x.wide()))
}

// The check in 32 bits.
pub fn short(out: &[u32]) -> u32
    ensures { result ≡ (summed none out.now).sums % 4294967296 }
{
    let sums = of(NONE, out).sums;
    (sums % 4294967296) as u32
}
