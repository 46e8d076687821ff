// The run of a state: the bytes on which the state's ASCII row loops, in a form that a scan can skip at once. Its words are in `run_words`,
// the classification of a row in `run_classify`, the scan in `run_scan`.
#![tactic(auto)]

ghost use Rattle.std.specs.Prelude.{◌≡◌};
ghost use Rattle.run_shape.specs.Shape.{refused};
ghost use Rattle.run_shape.specs.Words.{size_of};

use refusal::Refusal;
use run_ranges::AsciiRanges;

// No run; one that nothing stops; one that stops at its one to three exits; or one that stops at the first byte outside its ranges.
#[derive(Clone, Copy)]
pub enum AsciiRun {
    None,
    Any,
    Until1(u8),
    Until2(u8, u8),
    Until3(u8, u8, u8),
    Ranges(AsciiRanges),
}

// The words of a run: one, or three.
#[derive(Clone, Copy)]
pub struct RunWords {
    pub length: usize,
    pub first: u32,
    pub second: u32,
    pub third: u32,
}

// How far a run went, and whether an exit stopped it.
#[derive(Clone, Copy)]
pub struct AsciiRunScan {
    pub bytes: usize,
    pub found_exit: bool,
}

// No run, but the refusal of that number, at that place.
pub fn refuse(number: u32, place: usize) -> Result<AsciiRun, Refusal>
    ensures { result ≡ refused number place }
{
    Err(Refusal {
        number,
        item: 0,
        place,
    })
}

// How many words a run has.
pub fn serialized_words(run: AsciiRun) -> usize
    ensures { result ≡ size_of run }
{
    match run {
        AsciiRun::Ranges(_) => 3,
        _ => 1,
    }
}
