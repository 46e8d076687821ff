// Pools of wide rows: a row's count, and its ranges of three numbers behind it. The pool may be of any length and hold any numbers. It is lent longer
// than its rows, to take more, so their number stands beside it (document 01). Why these are not one with the functions of pool_ascii, stands there.
#![tactic(auto)]

ghost use Rattle.std.specs.Prelude.{◌≡◌, ◌+◌, ◌*◌, ◌/◌, ◌^◌, ◌<◌, ◌≤◌, min, ◌∷◌, length, take, drop};
ghost use Rattle.refusal.specs.Lists.{same_list};
ghost use Rattle.pool_rows.specs.Pools.{wide, size_at, after_rows, in_threes, append, equal_in, find_or_append, intern, Interns};

use pool_rows::refuse;
use refusal::{FIELD, NOT_TABLE, ROOM, Refusal};

// The place behind a row of `count` ranges.
fn row_end(at: usize, count: u32) -> usize
    requires { at < 2 ^ 63 }
    ensures { result ≡ at + (1 + count * 3) }
{
    at + (1 + (count as usize) * 3)
}

// The place behind the rows; where they do not fit, some place past the pool's end.
fn rows_end(pool: &[u32], rows: usize) -> usize
    ensures { min (1 + length pool.now) result ≡ min (1 + length pool.now) (after_rows wide pool.now rows 0) }
{
    let mut at = 0;
    for _ in 0..rows {
        if pool.len() <= at {
            return pool.len() + 1;
        }
        at = row_end(at, pool[at]);
    }
    at
}

// Is the wide row at a place of the pool this one, of `count` ranges? By `==`, which asks the first number alone before it goes on by eights:
// `starts_with` compares sixteen first, and most rows differ in one of the first.
fn same_at(pool: &[u32], at: usize, count: u32, row: &[u32]) -> bool
    requires within { at + size_at wide pool.now at ≤ length pool.now }
    requires size { length row.now ≡ count * 3 }
    ensures { result ≡ same_list (take (size_at wide pool.now at) (drop at pool.now)) (count ∷ row.now) }
{
    pool[at] == count && &pool[at + 1..at + 1 + row.len()] == row
}

// The number of the first equal row.
fn first_equal(pool: &[u32], rows: usize, count: u32, row: &[u32]) -> Option<usize>
    requires within { after_rows wide pool.now rows 0 ≤ length pool.now }
    requires counts { count ≡ length row.now / 3 }
    requires size { length row.now ≡ count * 3 }
    ensures { result ≡ equal_in wide pool.now rows row.now }
{
    let mut at = 0;
    for i in 0..rows {
        if same_at(pool, at, count, row) {
            return Some(i);
        }
        at = row_end(at, pool[at]);
    }
    None
}

// Is it a row of ranges whose targets their field allows?
fn in_threes(row: &[u32]) -> bool
    ensures { result ≡ in_threes row.now }
{
    for range in row.chunks_exact(3) {
        if range[2] > 65535 {
            return false;
        }
    }
    row.len() % 3 == 0
}

// Appends a row behind the others, which end at a place, if there is room for it: its count, and its ranges behind it.
fn append_row(
    pool: &mut [u32],
    rows: usize,
    end: usize,
    count: u32,
    row: &[u32],
) -> Result<usize, Refusal>
    requires within { end ≤ length pool.old }
    requires ends { end ≡ after_rows wide pool.old rows 0 }
    requires counts { count ≡ length row.now / 3 }
    ensures { Interns result pool.old pool.new (append wide pool.old rows row.now) }
{
    if pool.len() - end <= row.len() {
        return refuse(ROOM);
    }
    pool[end] = count;
    buffer::copy(row, &mut pool[end + 1..end + 1 + row.len()]);
    Ok(rows)
}

// Finds a good row in a pool that holds its rows, or appends it.
fn find_or_append(
    pool: &mut [u32],
    rows: usize,
    end: usize,
    count: u32,
    row: &[u32],
) -> Result<usize, Refusal>
    requires within { end ≤ length pool.old }
    requires ends { end ≡ after_rows wide pool.old rows 0 }
    requires counts { count ≡ length row.now / 3 }
    requires size { length row.now ≡ count * 3 }
    ensures { Interns result pool.old pool.new (find_or_append wide pool.old rows row.now) }
{
    match first_equal(pool, rows, count, row) {
        Some(i) => Ok(i),
        None => append_row(pool, rows, end, count, row),
    }
}

// The number of the first row of ranges that is equal, which is appended where there is none.
pub fn intern_wide(pool: &mut [u32], rows: usize, row: &[u32]) -> Result<usize, Refusal>
    ensures { Interns result pool.old pool.new (intern wide pool.old rows row.now) }
{
    let end = rows_end(pool, rows);
    if pool.len() < end {
        return refuse(NOT_TABLE);
    }
    if !in_threes(row) {
        return refuse(FIELD);
    }
    match u32::try_from(row.len() / 3) {
        Ok(count) => find_or_append(pool, rows, end, count, row),
        Err(_) => refuse(ROOM),
    }
}
