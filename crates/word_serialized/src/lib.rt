// The reader of the Rust, `SerializedReader`: it keeps the words and a position together. `read_state` is thin, over the covered reader,
// which takes a slice and a number; `read_opening` reads by it what the Rust's `from_serialized` reads first, the tag and how many modes a
// table has.
#![tactic(auto)]

ghost use Rattle.std.specs.Prelude.{◌≡◌};
ghost use Rattle.word_reader.specs.Records.{state_at};
ghost use Rattle.word_serialized.specs.Reader.{Moves, word_at, past_word, past_state};
ghost use Rattle.word_serialized.specs.Opened.{opening_of};

use refusal::{Refusal, SERIALIZED_TAG, SHORT, TAG};

// The words of a table, and where reading goes on.
#[derive(Clone, Copy)]
pub struct SerializedReader<'a> {
    pub data: &'a [u32],
    pub position: usize,
}

// A reader at the front of the words.
pub fn new<'a>(data: &'a [u32]) -> SerializedReader<'a>
    ensures { (result.data ≡ «data».entry) × (result.position ≡ 0) }
{
    SerializedReader { data, position: 0 }
}

impl<'a> SerializedReader<'a> {
    // The next word, or nothing at the end, where reading stays.
    pub fn next<'s>(&'s mut self) -> Option<u32>
        ensures { Moves word_at past_word self.old result self.new }
    {
        if self.data.len() <= self.position {
            return None;
        }
        let word = self.data[self.position];
        self.position += 1;
        Some(word)
    }

    // A state's words; where the record is refused reading stays at its front.
    pub fn read_state<'s>(&'s mut self) -> Result<usize, Refusal>
        ensures { Moves state_at past_state self.old result self.new }
    {
        let behind = word_records::read_state(self.data, self.position)?;
        self.position = behind;
        Ok(behind)
    }
}

// The tag, and how many modes there are. The tag is judged before the count is asked for.
pub fn read_opening(data: &[u32]) -> Result<u32, Refusal>
    ensures { result ≡ opening_of «data».now }
{
    let short = Refusal {
        number: SHORT,
        item: 0,
        place: data.len(),
    };
    let mut reader = new(data);
    let tag = reader.next().ok_or(short)?;
    if tag != SERIALIZED_TAG {
        return Err(Refusal {
            number: TAG,
            item: 0,
            place: 0,
        });
    }
    reader.next().ok_or(short)
}
