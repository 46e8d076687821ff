// The building of rows for C and Rust: slices pass as pointer and length, the answer comes back as a struct.
// A number of 0 says built; else it is document 01's refusal, with its place and item, and every other field is 0.
#![tactic(auto)]

ghost use Rattle.std.specs.Prelude.{◌≡◌};
ghost use Rattle.row_build.specs.Answer as building;
ghost use Rattle.row_build.specs.Answer.{lent, parse_rows};
ghost use Rattle.c_rows.specs.Answers.{rows_in_c, BuildsInC};

use refusal::Refusal;
use row_build::Rows;

// How many numbers the wide row and the escape row have. No Result, since C reads it.
#[repr(C)]
#[derive(Clone, Copy)]
pub struct CRows {
    pub number: u32,
    pub item: u32,
    pub place: usize,
    pub wide: usize,
    pub escape: usize,
}

impl From<Result<Rows, Refusal>> for CRows {
    ghost from_gives = { λ rows c. c ≡ rows_in_c (building.said rows) };

    fn from(rows: Result<Rows, Refusal>) -> CRows {
        match rows {
            Ok(Rows { wide, escape }) => CRows {
                number: 0,
                item: 0,
                place: 0,
                wide,
                escape,
            },
            Err(refusal) => CRows {
                number: refusal.number,
                item: refusal.item,
                place: refusal.place,
                wide: 0,
                escape: 0,
            },
        }
    }
}

// Builds the rows of a list whose distinct masks were given targets and continuations.
#[unsafe(no_mangle)]
pub extern "C" fn lexer_dfa_build_rows(
    list: &[u8],
    targets: &[u16],
    continuations: &[u32],
    segments: &mut [u32],
    masks: &mut [u64],
    distinct: &mut [u64],
    ascii: &mut [u16],
    wide: &mut [u32],
    escape: &mut [u32],
) -> CRows
    ensures { BuildsInC result
        (lent segments.old masks.old distinct.old ascii.old wide.old escape.old)
        segments.new masks.new distinct.new ascii.new wide.new escape.new
        targets.now continuations.now
        (parse_rows (lent segments.old masks.old distinct.old ascii.old wide.old escape.old)
        list.now targets.now continuations.now) }
{
    row_build::build_rows(
        list,
        targets,
        continuations,
        segments,
        masks,
        distinct,
        ascii,
        wide,
        escape,
    )
    .into()
}
