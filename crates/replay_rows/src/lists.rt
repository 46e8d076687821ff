// The records about a list of transitions. No number of a buffer is 0 before a call, so that one which is left alone changes the check.
// No record is of a refusal.
use list_masks::Masks;
use list_transitions::Transitions;
use refusal::Refusal;
use replay_io::tally::Replayed;
use replay_io::{check, read};
use row_build::Rows;

// Two numbers that a call answered, and the sums over its buffers.
fn same(first: usize, second: usize, sums: u64, recorded: &[u8]) -> bool {
    (first == read::size(recorded, 0))
        & (second == read::size(recorded, 2))
        & (sums == read::long(recorded, 4))
}

fn same_intervals(list: &[u8], recorded: &[u8]) -> bool {
    let mut out = [1u32; 2048];
    let answer = list_transitions::read_intervals(list, &mut out);
    let sums = check::of(check::NONE, &out).sums;
    match answer {
        Ok(Transitions { count, intervals }) => same(count, intervals, sums, recorded),
        Err(_) => false,
    }
}

fn same_segments(list: &[u8], recorded: &[u8]) -> bool {
    let mut out = [1u32; 4096];
    let answer = list_segments::char_segments(list, &mut out);
    let sums = check::of(check::NONE, &out).sums;
    match answer {
        Ok(n) => same(n, 0, sums, recorded),
        Err(_) => false,
    }
}

fn same_masks(answer: Result<Masks, Refusal>, out: &[u64], recorded: &[u8]) -> bool {
    match answer {
        Ok(Masks { masks, words }) => {
            same(masks, words, check::of(check::NONE, out).sums, recorded)
        }
        Err(_) => false,
    }
}

fn same_matrix(list: &[u8], recorded: &[u8]) -> bool {
    let mut segments = [1u32; 4096];
    let mut out = [1u64; 8192];
    let answer = list_masks::segment_mask_matrix(list, &mut segments, &mut out);
    same_masks(answer, &out, recorded)
}

fn same_distinct(list: &[u8], recorded: &[u8]) -> bool {
    let mut segments = [1u32; 4096];
    let mut masks = [1u64; 8192];
    let mut out = [1u64; 8192];
    let answer = list_distinct::distinct_masks(list, &mut segments, &mut masks, &mut out);
    same_masks(answer, &out, recorded)
}

fn same_built(
    rows: Result<Rows, Refusal>,
    ascii: &[u16],
    wide: &[u32],
    escape: &[u32],
    recorded: &[u8],
) -> bool {
    let sums = check::of(check::of(check::NONE, ascii), wide);
    let sums = check::of(sums, escape).sums;
    match rows {
        Ok(Rows { wide, escape }) => same(wide, escape, sums, recorded),
        Err(_) => false,
    }
}

// The buffers of a row call stand in two functions, three in each: one that has all six takes long to check.
fn same_with(
    list: &[u8],
    targets: &[u16],
    continuations: &[u32],
    segments: &mut [u32],
    masks: &mut [u64],
    distinct: &mut [u64],
    recorded: &[u8],
) -> bool {
    let mut ascii = [1u16; 128];
    let mut wide = [1u32; 6144];
    let mut escape = [1u32; 6144];
    let rows = row_build::build_rows(
        list,
        targets,
        continuations,
        segments,
        masks,
        distinct,
        &mut ascii,
        &mut wide,
        &mut escape,
    );
    same_built(rows, &ascii, &wide, &escape, recorded)
}

fn same_rows(list: &[u8], targets: &[u16], continuations: &[u32], recorded: &[u8]) -> bool {
    let mut segments = [1u32; 4096];
    let mut masks = [1u64; 8192];
    let mut distinct = [1u64; 8192];
    same_with(
        list,
        targets,
        continuations,
        &mut segments,
        &mut masks,
        &mut distinct,
        recorded,
    )
}

// How many masks are given, then a target and then a continuation for each. No record tells of more than 64.
fn same_given(list: &[u8], given: &[u8], recorded: &[u8]) -> bool {
    let count = read::size(given, 0);
    let mut targets = [0u16; 64];
    let mut continuations = [0u32; 64];
    let t = read::put_halves(read::part(given, 2, 2 * count), &mut targets);
    let c = read::put_words(
        read::part(given, 2 + 2 * count, 4 * count),
        &mut continuations,
    );
    same_rows(list, &targets[..t], &continuations[..c], recorded)
}

fn same_answer(kind: u8, list: &[u8], given: &[u8], recorded: &[u8]) -> bool {
    match kind {
        1 => same_intervals(list, recorded),
        2 => same_segments(list, recorded),
        3 => same_matrix(list, recorded),
        4 => same_distinct(list, recorded),
        _ => same_given(list, given, recorded),
    }
}

// The list's length, the list, what the masks are given, and the answer.
pub(crate) fn replay_list(kind: u8, record: &[u8]) -> Replayed {
    let length = read::size(record, 1);
    let list = read::part(record, 3, length);
    let given = read::after(record, 3 + length);
    let bytes = 2 + 6 * read::size(given, 0);
    Replayed {
        more: 14 + length + bytes,
        same: same_answer(kind, list, given, read::after(given, bytes)),
    }
}
