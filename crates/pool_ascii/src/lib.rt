// Pools of ascii rows: 128 targets each. The pool may be of any length and hold any numbers. It is lent longer than its rows, to take more, so their
// number stands beside it (document 01).
//
// The functions are not one with those of pool_wide: numbers, place, size and copying of a row all differ, and a trait of all that is no plainer.
#![tactic(auto)]

ghost use Rattle.std.specs.Prelude.{◌≡◌, ◌*◌, ◌≤◌, length};
ghost use Rattle.pool_rows.specs.Pools.{ascii, append, equal_in, find_or_append, intern, Interns};

use pool_rows::refuse;
use refusal::{FIELD, NOT_TABLE, ROOM, Refusal};

// The number of the first equal row.
fn first_equal(pool: &[u16], rows: usize, row: &[u16]) -> Option<usize>
    requires within { rows * 128 ≤ length pool.now }
    requires size { length row.now ≡ 128 }
    ensures { result ≡ equal_in ascii pool.now rows row.now }
{
    for i in 0..rows {
        if &pool[i * 128..i * 128 + 128] == row {
            return Some(i);
        }
    }
    None
}

// Appends a row, if there is room for it.
fn append_row(pool: &mut [u16], rows: usize, row: &[u16]) -> Result<usize, Refusal>
    requires within { rows * 128 ≤ length pool.old }
    requires size { length row.now ≡ 128 }
    ensures { Interns result pool.old pool.new (append ascii pool.old rows row.now) }
{
    let at = rows * 128;
    if pool.len() - at < 128 {
        return refuse(ROOM);
    }
    buffer::copy(row, &mut pool[at..at + 128]);
    Ok(rows)
}

// Finds a good row in a pool that holds its rows, or appends it.
fn find_or_append(pool: &mut [u16], rows: usize, row: &[u16]) -> Result<usize, Refusal>
    requires within { rows * 128 ≤ length pool.old }
    requires size { length row.now ≡ 128 }
    ensures { Interns result pool.old pool.new (find_or_append ascii pool.old rows row.now) }
{
    match first_equal(pool, rows, row) {
        Some(i) => Ok(i),
        None => append_row(pool, rows, row),
    }
}

// The number of the first row of 128 targets that is equal, which is appended where there is none.
pub fn intern_ascii(pool: &mut [u16], rows: usize, row: &[u16]) -> Result<usize, Refusal>
    ensures { Interns result pool.old pool.new (intern ascii pool.old rows row.now) }
{
    if pool.len() / 128 < rows {
        return refuse(NOT_TABLE);
    }
    if row.len() != 128 {
        return refuse(FIELD);
    }
    find_or_append(pool, rows, row)
}
