// Pools of rows for C and Rust: slices pass as pointer and length, answers come back as structs.
// A number of 0 says interned; else it is document 01's refusal, and the row's number is 0.
#![tactic(auto)]

ghost use Rattle.std.specs.Prelude.{◌≡◌};
ghost use Rattle.pool_rows.specs.Pools as pooling;
ghost use Rattle.pool_rows.specs.Pools.{ascii, wide};
ghost use Rattle.c_pools.specs.Answers.{interned_in_c};

use refusal::Refusal;

// The number of a row in its pool. A refusal of a pool has place 0, which is left out. No Result, since C reads it.
#[repr(C)]
#[derive(Clone, Copy)]
pub struct CInterned {
    pub row: usize,
    pub number: u32,
}

impl From<Result<usize, Refusal>> for CInterned {
    ghost from_gives = { λ interned c. c ≡ interned_in_c (pooling.said interned) };

    fn from(interned: Result<usize, Refusal>) -> CInterned {
        match interned {
            Ok(i) => CInterned { row: i, number: 0 },
            Err(refusal) => CInterned {
                row: 0,
                number: refusal.number,
            },
        }
    }
}

// Interns a row of 128 targets.
#[unsafe(no_mangle)]
pub extern "C" fn lexer_dfa_intern_ascii(pool: &mut [u16], rows: usize, row: &[u16]) -> CInterned
    ensures { (result ≡ interned_in_c (pooling.outcome_said (pooling.intern ascii pool.old rows row.now)))
        × (pool.new ≡ pooling.left_in pool.old (pooling.intern ascii pool.old rows row.now)) }
{
    pool_ascii::intern_ascii(pool, rows, row).into()
}

// Interns a row of ranges, three numbers each.
#[unsafe(no_mangle)]
pub extern "C" fn lexer_dfa_intern_wide(pool: &mut [u32], rows: usize, row: &[u32]) -> CInterned
    ensures { (result ≡ interned_in_c (pooling.outcome_said (pooling.intern wide pool.old rows row.now)))
        × (pool.new ≡ pooling.left_in pool.old (pooling.intern wide pool.old rows row.now)) }
{
    pool_wide::intern_wide(pool, rows, row).into()
}
