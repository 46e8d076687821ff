// Reads what stands in a slice from a place on, numbers with the least byte first. Past its end every byte is 0, so that no reader asks anything of its
// caller; whether a record is whole is seen from how many bytes it has.
ghost use Rattle.std.specs.Prelude.{◌≡◌, ◌<◌, drop, slice_index};
ghost use Rattle.io.specs.Counts.{IsPrefixLen};
ghost use Rattle.replay_io.specs.Bytes.{number, padded, After, Part, PutWhole};

pub fn byte(s: &[u8], at: usize) -> u8
    ensures { result ≡ slice_index s.now at }
{
    s.get(at).copied().unwrap_or(0)
}

// What stands after the first n bytes.
pub fn after(s: &[u8], n: usize) -> &[u8]
    ensures { After s.entry n result }
{
    &s[n.min(s.len())..]
}

// The n bytes from a place on, or all of them where there are fewer.
pub fn part(s: &[u8], at: usize, n: usize) -> &[u8]
    ensures { Part s.entry at n result }
{
    let rest = after(s, at);
    &rest[..n.min(rest.len())]
}

// The N bytes from a place on.
fn front<const N: usize>(s: &[u8], at: usize) -> [u8; N]
    ensures { result ≡ padded N (drop at s.now) }
{
    let mut bytes = [0; N];
    let there = part(s, at, N);
    bytes[..there.len()].copy_from_slice(there);
    bytes
}

// A number of two bytes.
pub fn half(s: &[u8], at: usize) -> u16
    ensures { result ≡ number 2 (drop at s.now) }
{
    u16::from_le_bytes(front(s, at))
}

// A number of four bytes.
pub fn word(s: &[u8], at: usize) -> u32
    ensures { result ≡ number 4 (drop at s.now) }
{
    u32::from_le_bytes(front(s, at))
}

// A number of eight bytes.
pub fn long(s: &[u8], at: usize) -> u64
    ensures { result ≡ number 8 (drop at s.now) }
{
    u64::from_le_bytes(front(s, at))
}

// A byte that says how many.
pub fn small(s: &[u8], at: usize) -> usize
    ensures upper_bound { result < 256 }
    ensures value { result ≡ slice_index s.now at }
{
    usize::from(byte(s, at))
}

// A half that says how many.
pub fn size(s: &[u8], at: usize) -> usize
    ensures upper_bound { result < 65536 }
    ensures value { result ≡ number 2 (drop at s.now) }
{
    usize::from(half(s, at))
}

// Puts the whole halves of the bytes at the front of `out`, as many as there is place for, and answers how many these are.
pub fn put_halves(bytes: &[u8], out: &mut [u16]) -> usize
    ensures prefix_len { IsPrefixLen result out.new }
    ensures put_whole { PutWhole 2 bytes.now out.old result out.new }
{
    let n = (bytes.len() / 2).min(out.len());
    for i in 0..n {
        out[i] = half(bytes, 2 * i);
    }
    n
}

// The same of words. (Not one function for both: over a type of numbers the contract would say of the buffer which values its elements have, and no more
// that it equals the numbers, and each number would come through a trait.)
pub fn put_words(bytes: &[u8], out: &mut [u32]) -> usize
    ensures prefix_len { IsPrefixLen result out.new }
    ensures put_whole { PutWhole 4 bytes.now out.old result out.new }
{
    let n = (bytes.len() / 4).min(out.len());
    for i in 0..n {
        out[i] = word(bytes, 4 * i);
    }
    n
}
