// What the programs share: a table read from the bytes of an input; and a page on which bytes, texts and numbers are written.
#![tactic(auto)]

ghost use Rattle.std.specs.Prelude.{◌≡◌, [], ◌∷◌, ◌≤◌, length, take};
ghost use Rattle.program_io.specs.Bytes.{refused, read_of, room_read};
ghost use Rattle.program_io.specs.Decimal.{number};
ghost use Rattle.program_io.specs.Shown.{Shown};
ghost use Rattle.buffer.specs.Over.{zeros};

use refusal::{LIMIT, MAX_WORDS, Refusal, SHORT};
use replay_io::read;
use room_decode::Decoded;

fn refused(number: u32, place: usize) -> Result<Decoded, Refusal>
    ensures { result ≡ refused number place }
{
    Err(Refusal {
        number,
        item: 0,
        place,
    })
}

// The table whose words these bytes are: LIMIT, then SHORT for spare bytes, then what decoding answers and leaves in the room.
pub fn read_table(bytes: &[u8], room: &mut [u32]) -> Result<Decoded, Refusal>
    ensures value { result ≡ read_of bytes.now (length room.old) }
    ensures room_after { room.new ≡ room_read bytes.now (length room.old) }
{
    let whole = bytes.len() / 4;
    if MAX_WORDS < whole {
        buffer::clear(room);
        return refused(LIMIT, MAX_WORDS);
    }
    if 0 < bytes.len() % 4 {
        buffer::clear(room);
        return refused(SHORT, whole);
    }
    let mut words = [0u32; MAX_WORDS];
    let n = read::put_words(bytes, &mut words);
    room_decode::decode(&words[..n], room)
}

// Bytes, texts and numbers on a page that is lent. Each function writes from place `n` of the page on, cuts off what does not fit, and answers the place
// behind what it wrote.
pub fn put_byte(byte: u8, page: &mut [u8], n: usize) -> usize
    ensures { Shown (byte ∷ []) n page.old result page.new }
{
    if n < page.len() {
        page[n] = byte;
        return n + 1;
    }
    n
}

pub fn put_text(text: &[u8], page: &mut [u8], n: usize) -> usize
    ensures { Shown text.now n page.old result page.new }
{
    let mut m = n;
    for byte in text {
        m = put_byte(*byte, page, m);
    }
    m
}

// A number in decimal.
pub fn put_number(x: u64, page: &mut [u8], n: usize) -> usize
    ensures { Shown (number x) n page.old result page.new }
{
    let mut digits = [0u8; 20];
    let k = io::decimal(x, &mut digits);
    put_text(&digits[..k], page, n)
}

// A page of N bytes that is written from its front on; what does not fit is cut off. Behind what was written stands `at`.
#[derive(Drop)]
pub struct Page<const N: usize> {
    pub bytes: [u8; N],
    pub at: usize,
    ghost within: { at ≤ length bytes },
}

impl<const N: usize> Page<N> {
    pub fn new() -> Page<N>
        ensures bytes { result.bytes ≡ zeros N }
        ensures at { result.at ≡ 0 }
    {
        Page {
            bytes: [0; N],
            at: 0,
        }
    }

    // Begins again at the front.
    pub fn clear(&mut self)
        ensures bytes { self.new.bytes ≡ self.old.bytes }
        ensures at { self.new.at ≡ 0 }
    {
        self.at = 0;
    }

    // What was written.
    pub fn written(&self) -> &[u8]
        ensures { result.now ≡ take self.now.at self.now.bytes }
    {
        &self.bytes[..self.at]
    }

    pub fn put_byte(&mut self, byte: u8)
        ensures { Shown (byte ∷ []) self.old.at self.old.bytes self.new.at self.new.bytes }
    {
        self.at = put_byte(byte, &mut self.bytes, self.at);
    }

    pub fn put_text(&mut self, text: &[u8])
        ensures { Shown text.now self.old.at self.old.bytes self.new.at self.new.bytes }
    {
        self.at = put_text(text, &mut self.bytes, self.at);
    }

    // A number in decimal.
    pub fn put_number(&mut self, x: u64)
        ensures { Shown (number x) self.old.at self.old.bytes self.new.at self.new.bytes }
    {
        self.at = put_number(x, &mut self.bytes, self.at);
    }
}
