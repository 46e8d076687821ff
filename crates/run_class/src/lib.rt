// Classes: of a byte (digit, hex letter, other letter, whitespace, underscore, quote, dollar or other), and of the ranges that the three
// words of a kind-5 run hold (whitespace, number, identifier or other), by what their bytes are together.
#![tactic(auto)]

ghost use Rattle.std.specs.Prelude.{◌≡◌};
ghost use Rattle.run_class.specs.Byte.{byte_class};
ghost use Rattle.run_ranges.specs.Ranges.{listed};
ghost use Rattle.run_class.specs.Class.{bytes_in, bytes_of, class_of_words};
ghost use Rattle.run_class.specs.Seen.{flags, facts_of, both, seen_in, decided};

use refusal::{FIELD, MAX_RANGES, Refusal};
use run_ranges::{AsciiRange, AsciiRanges, PackedRanges};

// What a byte is by its value. Hex letters are A to F and a to f, and `Letter` is every other letter.
#[derive(Clone, Copy)]
pub enum ByteClass {
    Digit,
    HexLetter,
    Letter,
    Whitespace,
    Underscore,
    Quote,
    Dollar,
    Other,
}

// A decision by the byte's value.
#[tactic(auto, unfolding(crate::specs::Byte::byte_class))]
pub fn class_of_byte(byte: u8) -> ByteClass
    ensures { result ≡ byte_class byte }
{
    match byte {
        b'0'..=b'9' => ByteClass::Digit,
        b'A'..=b'F' | b'a'..=b'f' => ByteClass::HexLetter,
        b'G'..=b'Z' | b'g'..=b'z' => ByteClass::Letter,
        9 | 10 | 12 | 13 | 32 => ByteClass::Whitespace,
        b'_' => ByteClass::Underscore,
        b'\'' => ByteClass::Quote,
        b'$' => ByteClass::Dollar,
        _ => ByteClass::Other,
    }
}

// What the bytes of ranges are, all together.
#[derive(Clone, Copy)]
pub enum AsciiRangeClass {
    Whitespace,
    Number,
    Identifier,
    Other,
}

// What was seen of some bytes: whether one is a digit or a letter, and whether all are whitespace, of a number, of an identifier.
#[derive(Clone, Copy)]
struct Seen {
    any_digit: bool,
    any_alpha: bool,
    all_whitespace: bool,
    all_number: bool,
    all_identifier: bool,
}

// The flags, in the order of the fields.
fn flags(digit: bool, alpha: bool, whitespace: bool, number: bool, identifier: bool) -> Seen
    ensures { result ≡ flags digit alpha whitespace number identifier }
{
    Seen {
        any_digit: digit,
        any_alpha: alpha,
        all_whitespace: whitespace,
        all_number: number,
        all_identifier: identifier,
    }
}

// What one byte says, by its class.
fn facts(class: ByteClass) -> Seen
    ensures { result ≡ facts_of class }
{
    match class {
        ByteClass::Digit => flags(true, false, false, true, true),
        ByteClass::HexLetter => flags(false, true, false, true, true),
        ByteClass::Letter => flags(false, true, false, false, true),
        ByteClass::Whitespace => flags(false, false, true, false, false),
        ByteClass::Underscore => flags(false, false, false, true, true),
        ByteClass::Quote => flags(false, false, false, true, false),
        ByteClass::Dollar => flags(false, false, false, false, true),
        ByteClass::Other => flags(false, false, false, false, false),
    }
}

// What was seen in two places, together.
#[tactic(auto, unfolding(crate::specs::Seen::both))]
fn both(a: Seen, b: Seen) -> Seen
    ensures { result ≡ both a b }
{
    Seen {
        any_digit: a.any_digit | b.any_digit,
        any_alpha: a.any_alpha | b.any_alpha,
        all_whitespace: a.all_whitespace & b.all_whitespace,
        all_number: a.all_number & b.all_number,
        all_identifier: a.all_identifier & b.all_identifier,
    }
}

// What was seen, with the bytes of one more range. A range whose low is above its high has none.
fn see_range(seen: Seen, range: AsciiRange) -> Seen
    ensures { result ≡ both seen (seen_in (bytes_in range)) }
{
    let mut seen = seen;
    let high = range.high;
    for byte in range.low..=high {
        seen = both(seen, facts(class_of_byte(byte)));
    }
    seen
}

// The bytes of the ranges that count.
fn see_ranges(ranges: AsciiRanges) -> Seen
    ensures { result ≡ seen_in (bytes_of (listed ranges)) }
{
    let count = usize::from(ranges.count).min(MAX_RANGES);
    let mut seen = flags(false, false, true, true, true);
    for range in &ranges.ranges[..count] {
        seen = see_range(seen, *range);
    }
    seen
}

// The class by what was seen.
#[tactic(auto, unfolding(crate::specs::Seen::decided))]
fn decide(seen: Seen) -> AsciiRangeClass
    ensures { result ≡ decided seen }
{
    if seen.all_whitespace {
        return AsciiRangeClass::Whitespace;
    }
    if seen.any_digit & seen.all_number {
        return AsciiRangeClass::Number;
    }
    if seen.any_alpha & seen.all_identifier {
        return AsciiRangeClass::Identifier;
    }
    AsciiRangeClass::Other
}

// What is said of words that are no good kind-5 run.
const NO_RUN: Refusal = Refusal {
    number: FIELD,
    item: 0,
    place: 0,
};

// Anything but the three words of a good kind-5 run is FIELD at place 0.
#[tactic(auto, unfolding(crate::specs::Class::class_of_words, crate::specs::Class::class_of, crate::specs::Seen::seen_in, crate::specs::Seen::decided))]
pub fn class(words: &[u32]) -> Result<AsciiRangeClass, Refusal>
    ensures { result ≡ class_of_words words.now }
{
    let [kind, first, second] = words else {
        return Err(NO_RUN);
    };
    let packed = PackedRanges {
        first: *first,
        second: *second,
    };
    let ranges = run_ranges::from_run(*kind, packed).ok_or(NO_RUN)?;
    Ok(decide(see_ranges(ranges)))
}
