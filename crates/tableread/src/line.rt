// The line that says an answer.
ghost use Rattle.std.specs.Prelude.{◌≡◌, replicate, take};
ghost use Rattle.refusal.specs.Lists.{each};
ghost use Rattle.room_decode.specs.Decode.{said};
ghost use Rattle.program_io.specs.Shown.{Shown};
ghost use Rattle.program_io.specs.Wrote.{Wrote};
ghost use Rattle.tableread.specs.Line.{spaced, line_with, line_of};

use program_io::Page;
use refusal::Refusal;
use room_decode::Decoded;

// The most bytes that a line has are 66: three numbers of 20 digits, each behind a space, a word of two letters and the end.
pub(crate) type Line = Page<66>;

// A space and a number.
fn put_spaced(line: &mut Line, number: u64)
    ensures { Wrote (spaced number) line.old line.new }
{
    line.put_byte(b' ');
    line.put_number(number);
}

fn put_numbers(line: &mut Line, numbers: &[u64])
    ensures { Wrote (each spaced numbers.now) line.old line.new }
{
    for number in numbers {
        put_spaced(line, *number);
    }
}

// A word, numbers, and the end of the line.
fn line_with(word: &[u8], numbers: &[u64]) -> Line
    ensures { Shown (line_with word.now numbers.now) 0 (replicate 66 0) result.at result.bytes }
{
    let mut line = Page::new();
    line.put_text(word);
    put_numbers(&mut line, numbers);
    line.put_byte(b'\n');
    line
}

// The line of an answer.
pub(crate) fn line_of(answer: Result<Decoded, Refusal>) -> Line
    ensures { take result.at result.bytes ≡ line_of (said answer) }
{
    match answer {
        Ok(
            Decoded {
                modes,
                states,
                words,
            },
        ) => line_with(b"ok", &[u64::from(modes), u64::from(states), words as u64]),
        Err(refusal) => line_with(
            b"no",
            &[
                u64::from(refusal.number),
                refusal.place as u64,
                u64::from(refusal.item),
            ],
        ),
    }
}
