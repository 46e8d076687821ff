// The records about a row that is interned: a pool in which rows stand, and a row.
use refusal::Refusal;
use replay_io::tally::Replayed;
use replay_io::{check, read};

// The row's number, and the sums over the pool, which tell whether it changed as it must. No record is of a refusal.
fn same(answer: Result<usize, Refusal>, sums: u64, recorded: &[u8]) -> bool {
    match answer {
        Ok(row) => (row == read::size(recorded, 0)) & (sums == read::long(recorded, 2)),
        Err(_) => false,
    }
}

// A pool of three rows of 128 targets.
pub(crate) fn replay_ascii(record: &[u8]) -> Replayed {
    let mut pool = [0u16; 384];
    let mut row = [0u16; 128];
    read::put_halves(read::after(record, 3), &mut pool);
    read::put_halves(read::after(record, 771), &mut row);
    let answer = pool_ascii::intern_ascii(&mut pool, read::size(record, 1), &row);
    let sums = check::of(check::NONE, &pool).sums;
    Replayed {
        more: 1036,
        same: same(answer, sums, read::after(record, 1027)),
    }
}

// A pool of 32 numbers, and a row of two ranges.
pub(crate) fn replay_wide(record: &[u8]) -> Replayed {
    let mut pool = [0u32; 32];
    let mut row = [0u32; 6];
    read::put_words(read::after(record, 3), &mut pool);
    read::put_words(read::after(record, 131), &mut row);
    let answer = pool_wide::intern_wide(&mut pool, read::size(record, 1), &row);
    let sums = check::of(check::NONE, &pool).sums;
    Replayed {
        more: 164,
        same: same(answer, sums, read::after(record, 155)),
    }
}
