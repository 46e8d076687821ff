// Counts the answers of each kind that are equal and those that differ. The kinds are numbers from 1 on, and the counts of kind k stand at place k.
ghost use Rattle.std.specs.Prelude.{◌≡◌, Some, IfSome, ◌<◌, ◌≤◌, length};
ghost use Rattle.replay_io.specs.Tally.{counted, added, taken, told, one_more, counts_text, report_text};

use crate::read;
use std::fmt;

// What came of a record: how many bytes it has behind its first, and whether our answer is the recorded one.
#[derive(Clone, Copy)]
pub struct Replayed {
    pub more: usize,
    pub same: bool,
}

// How many answers of a kind are equal, and how many differ.
#[derive(Clone, Copy)]
pub struct Counts {
    pub equal: usize,
    pub differ: usize,
}

pub const NONE: Counts = Counts {
    equal: 0,
    differ: 0,
};

impl fmt::Display for Counts {
    ghost output = { λ c. Some (counts_text c) };

    fn fmt<W: fmt::Write>(&self, f: &mut fmt::Formatter<W>) -> fmt::Result {
        let Counts { equal, differ } = *self;
        write!(f, "{equal} equal, {differ} differ")
    }
}

// What a program prints: how far it came, and then for each kind, from the first on, its counts and its name.
#[derive(Clone, Copy)]
pub struct Report<'a> {
    pub at: usize,
    pub bytes: usize,
    pub counts: &'a [Counts],
    pub names: &'a [&'a str],
}

impl fmt::Display for Report<'_> {
    ghost output = { λ r. Some (report_text r) };

    fn fmt<W: fmt::Write>(&self, f: &mut fmt::Formatter<W>) -> fmt::Result {
        let Report { at, bytes, .. } = *self;
        writeln!(f, "{at} of {bytes} bytes")?;
        for (told, name) in self.counts.iter().zip(self.names) {
            writeln!(f, "{told}: {name}")?;
        }
        Ok(())
    }
}

// No count comes near its end, since every answer takes bytes of the sample; so nothing is asked to show that it fits.
fn one_more(before: Counts, same: bool) -> Counts
    ensures { result ≡ one_more before same }
{
    let Counts { equal, differ } = before;
    if same {
        return Counts {
            equal: equal.wrapping_add(1),
            differ,
        };
    }
    Counts {
        equal,
        differ: differ.wrapping_add(1),
    }
}

// A kind that has no place is not counted.
fn add(counts: &mut [Counts], kind: usize, same: bool)
    ensures { counts.new ≡ added counts.old kind same }
{
    // By `get_mut`, whose place is written through, the proof doesn't close.
    if kind < counts.len() {
        counts[kind] = one_more(counts[kind], same);
    }
}

// Counts the record at the front of what is left, and answers how many bytes it has: none where it is not whole, and then it is not counted.
pub fn count(counts: &mut [Counts], rest: &[u8], replayed: Replayed) -> Option<usize>
    ensures some { IfSome result (λ n. (0 < n) × (n ≤ length rest.now)) }
    ensures value { result ≡ taken replayed rest.now }
    ensures counts_after { counts.new ≡ counted replayed rest.now counts.old }
{
    let Replayed { more, same } = replayed;
    if rest.len() <= more {
        return None;
    }
    add(counts, read::small(rest, 0), same);
    Some(1 + more)
}

// How many answers of a kind are equal, or differ: none of a kind that has no place.
pub fn told(counts: &[Counts], kind: u8, same: bool) -> usize
    ensures { result ≡ told counts.now kind same }
{
    let Counts { equal, differ } = counts.get(usize::from(kind)).copied().unwrap_or(NONE);
    if same { equal } else { differ }
}
