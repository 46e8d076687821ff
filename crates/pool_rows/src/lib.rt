// Pools: rows that stand one behind another in a lent buffer, each of them once. A row that is interned is found there, or appended. The
// crates above have a call for each kind of row; here stands what they answer.
#![tactic(auto)]

ghost use Rattle.std.specs.Prelude.{◌≡◌};
ghost use Rattle.refusal.specs.Said.{no};
ghost use Rattle.pool_rows.specs.Pools.{said};

use refusal::Refusal;

// A pool's refusal, whose place is 0, in place of the number of a row.
pub fn refuse(number: u32) -> Result<usize, Refusal>
    ensures { said result ≡ no number 0 }
{
    Err(Refusal {
        number,
        item: 0,
        place: 0,
    })
}
