// The segments of a list of transitions, for C and Rust: slices pass as pointer and length, the answer comes back as a struct.
// A number of 0 says accepted; else it is document 01's refusal, with its place and item, and the count is 0.
#![tactic(auto)]

ghost use Rattle.std.specs.Prelude.{◌≡◌, length};
ghost use Rattle.list_segments.specs.Answer as cutting;
ghost use Rattle.c_segments.specs.Answers.{segments_in_c};

use refusal::Refusal;

// How many segments a list has. No Result, since C reads it.
#[repr(C)]
#[derive(Clone, Copy)]
pub struct CSegments {
    pub number: u32,
    pub item: u32,
    pub place: usize,
    pub segments: usize,
}

impl From<Result<usize, Refusal>> for CSegments {
    ghost from_gives = { λ answer c. c ≡ segments_in_c (cutting.said answer) };

    fn from(answer: Result<usize, Refusal>) -> CSegments {
        match answer {
            Ok(n) => CSegments {
                number: 0,
                item: 0,
                place: 0,
                segments: n,
            },
            Err(refused) => CSegments {
                number: refused.number,
                item: refused.item,
                place: refused.place,
                segments: 0,
            },
        }
    }
}

// The segments of a list, as low, high.
#[unsafe(no_mangle)]
pub extern "C" fn lexer_dfa_char_segments(list: &[u8], out: &mut [u32]) -> CSegments
    ensures { (result ≡ segments_in_c (cutting.counted (cutting.parse_for (length out.old) list.now)))
        × (out.new ≡ cutting.segments_in (length out.old) (cutting.parse_for (length out.old) list.now)) }
{
    list_segments::char_segments(list, out).into()
}
