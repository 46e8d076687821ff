// Ranges of ASCII bytes: the type, and the two words that hold them, read and written. The ranges on which a row loops are in
// `run_classify`, the scan by them in `run_scan`.
#![tactic(auto)]

ghost use Rattle.std.specs.Prelude.{◌≡◌, ◌<◌};
ghost use Rattle.run_ranges.specs.Ranges.{no_ranges, ordered, is_zero, unused, checked, range_in, unpacked, ranges_of_run, follows, half_of, packed_of};

use refusal::MAX_RANGES;

// The bytes from low to high, both included.
#[derive(Clone, Copy)]
pub struct AsciiRange {
    pub low: u8,
    pub high: u8,
}

// The first `count` of the ranges; the places behind them are 0.
#[derive(Clone, Copy)]
pub struct AsciiRanges {
    pub ranges: [AsciiRange; 4],
    pub count: u8,
}

// The two words that hold four ranges as low, high bytes, least byte first.
#[derive(Clone, Copy)]
pub struct PackedRanges {
    pub first: u32,
    pub second: u32,
}

// No ranges: the count is 0, and so is every place.
pub fn none() -> AsciiRanges
    ensures { result ≡ no_ranges }
{
    AsciiRanges {
        ranges: [AsciiRange { low: 0, high: 0 }; 4],
        count: 0,
    }
}

// Each low is at most its high, highs are at most 127, and each high + 1 is below the next low.
fn ordered(ranges: &[AsciiRange]) -> bool
    ensures { result ≡ ordered 0 ranges.now }
{
    let mut least = 0;
    for range in ranges {
        if !follows(*range, least) {
            return false;
        }
        least = u32::from(range.high) + 2;
    }
    true
}

// A range that may stand behind one that ends below `least` - 1.
fn follows(range: AsciiRange, least: u32) -> bool
    ensures { result ≡ follows least range }
{
    (least <= u32::from(range.low)) & (range.low <= range.high) & (range.high <= 127)
}

// Places that hold no range are 0.
fn unused(places: &[AsciiRange]) -> bool
    ensures { result ≡ unused places.now }
{
    places
        .iter()
        .all(|place| (place.low == 0) & (place.high == 0))
}

// The first `count` of four ranges, if they are a good list.
#[tactic(auto, unfolding(crate::specs::Ranges::checked, crate::specs::Ranges::good_ranges))]
fn new(count: u8, ranges: [AsciiRange; 4]) -> Option<AsciiRanges>
    ensures { result ≡ checked count ranges }
{
    let n = usize::from(count);
    if (n < 1) | (MAX_RANGES < n) {
        return None;
    }
    if ordered(&ranges[..n]) & unused(&ranges[n..]) {
        return Some(AsciiRanges { ranges, count });
    }
    None
}

// The range in the half of a word: the low byte, then the high one.
fn range_in(half: u32) -> AsciiRange
    ensures { result ≡ range_in half }
{
    AsciiRange {
        low: (half % 256) as u8,
        high: (half / 256 % 256) as u8,
    }
}

// The first `count` of the ranges that two words hold, if they are a good list.
fn from_packed(count: u8, words: PackedRanges) -> Option<AsciiRanges>
    ensures { result ≡ checked count (unpacked words) }
{
    let a = range_in(words.first % 65536);
    let b = range_in(words.first / 65536);
    let c = range_in(words.second % 65536);
    let d = range_in(words.second / 65536);
    new(count, [a, b, c, d])
}

// The ranges of the three words of a kind-5 run, or none where the words are no such run.
#[tactic(auto, unfolding(crate::specs::Ranges::ranges_of_run))]
pub fn from_run(kind: u32, words: PackedRanges) -> Option<AsciiRanges>
    ensures { result ≡ ranges_of_run kind words }
{
    if (kind % 256 != 5) | (65535 < kind) {
        return None;
    }
    from_packed((kind / 256) as u8, words)
}

fn half_of(range: AsciiRange) -> u32
    ensures { (result ≡ half_of range) × (result < 65536) }
{
    u32::from(range.low) + 256 * u32::from(range.high)
}

// The two words that hold the ranges.
pub fn packed_words(ranges: AsciiRanges) -> PackedRanges
    ensures { result ≡ packed_of ranges.ranges }
{
    let rs = ranges.ranges;
    PackedRanges {
        first: half_of(rs[0]) + 65536 * half_of(rs[1]),
        second: half_of(rs[2]) + 65536 * half_of(rs[3]),
    }
}
