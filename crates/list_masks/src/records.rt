// The records of an accepted list, and the numbers of their pairs, as keys.
ghost use Rattle.std.specs.Prelude.{◌≡◌, true, ◌+◌, ◌/◌, ◌≤◌, ◌<◌, length};
ghost use Rattle.list_transitions.specs.Transition.{in_order};
ghost use Rattle.list_transitions.specs.Bytes.{number_at, size_at, shape_of, trans_of};
ghost use Rattle.list_transitions.specs.Walk.{trans_at, Fit};
ghost use Rattle.list_masks.specs.Walk.{low_at, high_at};

// The word of a number and that of its key differ by this.
const SIGN: u32 = 2147483648;

// A record of an accepted list: its tag and its value, which has the size for the tag, and whose pairs are in order.
#[derive(Clone, Copy)]
pub(crate) struct Record<'a> {
    pub(crate) tag: u8,
    pub(crate) value: &'a [u8],
    ghost fits: { shape_of tag (length value.now) ≡ true },
    ghost order: { in_order (trans_of value.now tag (length value.now) 0) ≡ true },
}

// The readers of bytes stand in list_transitions too: they ask that the bytes be there, and a function that other crates call asks nothing.
pub(crate) fn size_at(list: &[u8], p: usize) -> usize
    requires { p + 2 ≤ length list.now }
    ensures { (result ≡ size_at list.now p) × (result < 65536) }
{
    usize::from(u16::from_le_bytes([list[p], list[p + 1]]))
}

// The key of the number whose four bytes start at p.
pub(crate) fn number_at(list: &[u8], p: usize) -> u64
    requires { p + 4 ≤ length list.now }
    ensures { (result ≡ number_at list.now p) × (result < 4294967296) }
{
    let word = u32::from_le_bytes([list[p], list[p + 1], list[p + 2], list[p + 3]]);
    u64::from(word.wrapping_add(SIGN))
}

// The keys of the low and of the high of pair i.
pub(crate) fn low_at(pairs: &[u8], i: usize) -> u64
    requires { i < length pairs.now / 8 }
    ensures { (result ≡ low_at pairs.now 0 i) × (result < 4294967296) }
{
    number_at(pairs, 8 * i)
}

pub(crate) fn high_at(pairs: &[u8], i: usize) -> u64
    requires { i < length pairs.now / 8 }
    ensures { (result ≡ high_at pairs.now 0 i) × (result < 4294967296) }
{
    number_at(pairs, 8 * i + 4)
}

pub(crate) fn record_at<'a>(list: &'a [u8], at: usize) -> Record<'a>
    requires { Fit list.now 1 at }
    ensures is { trans_of result.value.now result.tag (length result.value.now) 0 ≡ trans_at list.now at }
    ensures size { length result.value.now ≡ size_at list.now (at + 1) }
{
    let size = size_at(list, at + 1);
    Record {
        tag: list[at],
        value: &list[at + 3..at + 3 + size],
    }
}
