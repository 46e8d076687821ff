// The distinct ones among the masks of a list's segments, and where each segment's mask stands among them; the same without the places.
#![tactic(auto)]

ghost use Rattle.std.specs.Prelude.{◌≡◌, [], ◌∷◌, ◌||◌, ◌+◌, ◌*◌, ◌≤◌, ◌<◌, eqb, ltb, length, take, drop, position};
ghost use Rattle.refusal.specs.Lists.{pick, same_list};
ghost use Rattle.buffer.specs.Over.{Put};
ghost use Rattle.list_masks.specs.Masks.{is_zero, index};
ghost use Rattle.list_masks.specs.Answer.{parse_masks, parse_distinct, Distinct};
ghost use Rattle.list_distinct.specs.Walk.{chunks, Entered, Gathered, Spaced, Zeroed, Cleared};
ghost use Rattle.list_distinct.specs.Answer.{parse_places, Placed};

use list_masks::{Masks, WORDS};
use refusal::{NONE, ROOM, Refusal};

// A place for each of the most segments that a list may have, and one to spare.
const PLACES: usize = 2048;

// How many segments, how many distinct masks, and of how many words each.
#[derive(Clone, Copy)]
pub struct Places {
    pub segments: usize,
    pub masks: usize,
    pub words: usize,
}

fn is_zero(mask: &[u64]) -> bool
    ensures { result ≡ is_zero mask.now }
{
    mask.iter().all(|word| *word == 0)
}

// The place of a word among the known ones.
fn find_word(known: &[u64], x: u64) -> Option<usize>
    ensures { result ≡ position (λ w. eqb w x) known.now }
{
    known.iter().position(|word| *word == x)
}

// Are two masks of as many words the same? By a loop: `==` asks the first word alone and goes on by eights, and of masks of many transitions the
// first word is mostly 0 in both (docs/LOOK-BACK.md).
fn same(one: &[u64], other: &[u64]) -> bool
    requires { length one.now ≡ length other.now }
    ensures { result ≡ same_list one.now other.now }
{
    for i in 0..one.len() {
        if one[i] != other[i] {
            return false;
        }
    }
    true
}

// The place of a mask among the first d of the known ones, or d. Masks of one word, the most common ones, need no loop over words.
fn find_mask(known: &[u64], d: usize, mask: &[u64]) -> usize
    requires { d * length mask.now ≤ length known.now }
    ensures { result ≡ index (chunks d (length mask.now) known.now) mask.now }
{
    let words = mask.len();
    if words == 1 {
        return find_word(&known[..d], mask[0]).unwrap_or(d);
    }
    for i in 0..d {
        let at = i * words;
        if same(&known[at..at + words], mask) {
            return i;
        }
    }
    d
}

// The place of a mask among the d distinct ones, behind which it is put if it is new. An empty one is not, and has no place.
fn add_mask(mask: &[u64], out: &mut [u64], d: usize) -> u32
    requires room { d * length mask.now + length mask.now ≤ length out.old }
    requires few { d < 2048 }
    ensures { Entered (chunks d (length mask.now) out.old) mask.now out.old result out.new }
{
    if is_zero(mask) {
        return NONE;
    }
    let i = find_mask(out, d, mask);
    if i < d {
        return i as u32;
    }
    let at = d * mask.len();
    buffer::copy(mask, &mut out[at..at + mask.len()]);
    d as u32
}

// How many distinct masks there are behind one whose place is known: a new one stands behind the d others.
fn count_with(d: usize, place: u32) -> usize
    requires { d < 2048 }
    ensures { result ≡ pick (eqb place d) (d + 1) d }
{
    if place as usize == d {
        return d + 1;
    }
    d
}

// Writes the distinct ones of the first `count` masks, and the place of each mask among them. Answers how many they are.
fn put_distinct(
    masks: &[u64],
    count: usize,
    words: usize,
    out: &mut [u64],
    places: &mut [u32],
) -> usize
    requires { Spaced masks.now count words out.old places.old }
    ensures { Gathered (chunks count words masks.now) out.old result out.new
        places.old places.new }
{
    let mut d = 0;
    for i in 0..count {
        let at = i * words;
        let place = add_mask(&masks[at..at + words], out, d);
        places[i] = place;
        d = count_with(d, place);
    }
    d
}

fn clear_both(words: &mut [u64], numbers: &mut [u32])
    ensures { Zeroed words.old words.new numbers.old numbers.new }
{
    buffer::clear(words);
    buffer::clear(numbers);
}

fn too_short(out: usize, places: usize) -> bool
    ensures { result ≡ (ltb out 8192 || ltb places 2048) }
{
    out < WORDS || places < PLACES
}

// The masks of a list and their places, where the buffers for distinct masks and places are long enough and hold zeros.
fn fill_places(
    list: &[u8],
    segments: &mut [u32],
    masks: &mut [u64],
    out: &mut [u64],
    places: &mut [u32],
) -> Result<Places, Refusal>
    requires { Cleared out.old places.old }
    ensures { Placed result (length segments.old) segments.new (length masks.old) masks.new
        (length out.old) out.new (length places.old) places.new
        (parse_masks (length segments.old) (length masks.old) list.now) }
{
    let matrix = list_masks::segment_mask_matrix(list, segments, masks)?;
    let d = put_distinct(masks, matrix.masks, matrix.words, out, places);
    Ok(Places {
        segments: matrix.masks,
        masks: d,
        words: matrix.words,
    })
}

// The segments of a list, the mask of each, the distinct ones of those that are not empty, in order of first segment, and for each segment
// the place of its mask among these, or NONE. Refused: every number of the four buffers is 0. Accepted: behind the answer's numbers there are
// zeros.
pub fn place_masks(
    list: &[u8],
    segments: &mut [u32],
    masks: &mut [u64],
    out: &mut [u64],
    places: &mut [u32],
) -> Result<Places, Refusal>
    ensures { Placed result (length segments.old) segments.new (length masks.old) masks.new
        (length out.old) out.new (length places.old) places.new
        (parse_places (length segments.old) (length masks.old) (length out.old) (length places.old)
        list.now) }
{
    clear_both(out, places);
    if too_short(out.len(), places.len()) {
        clear_both(masks, segments);
        return Err(Refusal {
            number: ROOM,
            item: 0,
            place: 0,
        });
    }
    fill_places(list, segments, masks, out, places)
}

// The segments of a list, the mask of each, and the distinct ones of those that are not empty, in order of first segment. Refused: every
// number of the three buffers is 0. Accepted: behind the answer's numbers there are zeros.
pub fn distinct_masks(
    list: &[u8],
    segments: &mut [u32],
    masks: &mut [u64],
    out: &mut [u64],
) -> Result<Masks, Refusal>
    ensures { Distinct result (length segments.old) segments.new (length masks.old) masks.new
        (length out.old) out.new
        (parse_distinct (length segments.old) (length masks.old) (length out.old) list.now) }
{
    let mut places = [0u32; 2048];
    let found = place_masks(list, segments, masks, out, &mut places)?;
    Ok(Masks {
        masks: found.masks,
        words: found.words,
    })
}
