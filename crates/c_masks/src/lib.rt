// The masks of a list of transitions, for C and Rust: slices pass as pointer and length, answers come back as structs.
// A number of 0 says accepted; else it is document 01's refusal, with its place and item, and every other field is 0.
#![tactic(auto)]

ghost use Rattle.std.specs.Prelude.{◌≡◌, length};
ghost use Rattle.list_masks.specs.Answer as masking;
ghost use Rattle.c_masks.specs.Answers.{masks_in_c, MatrixInC, DistinctInC};

use list_masks::Masks;
use refusal::Refusal;

// How many masks there are, and of how many words each. No Result, since C reads it.
#[repr(C)]
#[derive(Clone, Copy)]
pub struct CMasks {
    pub number: u32,
    pub item: u32,
    pub place: usize,
    pub masks: usize,
    pub words: usize,
}

impl From<Result<Masks, Refusal>> for CMasks {
    ghost from_gives = { λ answer c. c ≡ masks_in_c (masking.said answer) };

    fn from(answer: Result<Masks, Refusal>) -> CMasks {
        match answer {
            Ok(found) => CMasks {
                number: 0,
                item: 0,
                place: 0,
                masks: found.masks,
                words: found.words,
            },
            Err(no) => CMasks {
                number: no.number,
                item: no.item,
                place: no.place,
                masks: 0,
                words: 0,
            },
        }
    }
}

// The segments of a list, and the mask of each.
#[unsafe(no_mangle)]
pub extern "C" fn lexer_dfa_segment_mask_matrix(
    list: &[u8],
    segments: &mut [u32],
    masks: &mut [u64],
) -> CMasks
    ensures { MatrixInC result (length segments.old) segments.new (length masks.old) masks.new
        (masking.parse_masks (length segments.old) (length masks.old) list.now) }
{
    list_masks::segment_mask_matrix(list, segments, masks).into()
}

// The segments of a list, the mask of each, and the distinct ones of those that are not empty.
#[unsafe(no_mangle)]
pub extern "C" fn lexer_dfa_distinct_masks(
    list: &[u8],
    segments: &mut [u32],
    masks: &mut [u64],
    distinct: &mut [u64],
) -> CMasks
    ensures { DistinctInC result (length segments.old)
        segments.new (length masks.old) masks.new (length distinct.old) distinct.new
        (masking.parse_distinct (length segments.old) (length masks.old) (length distinct.old) list.now) }
{
    list_distinct::distinct_masks(list, segments, masks, distinct).into()
}
