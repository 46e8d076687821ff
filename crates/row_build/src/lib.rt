// Row building: each segment whose mask was given a target is a range, three numbers, of a row; the row is joined where ranges of one goal
// touch, and parted at 128 into an ascii row and a wide row; continuations go to an escape row.
//
// The ranges 100..200 and 201..300, the targets 3 and 3, no continuations: the segments are 100..200 and 201..300 with the masks 1 and 2,
// two distinct masks, and two targets were given. `split_rows` parts them at 128: the ascii row has 3 from 100 to 127, and what lies from
// 128 on touches and has one target, so it is one range, 128..300 to 3. `merge_escape_ranges` finds no continuation, and the escape row is
// empty. The answer is 3 numbers for the wide row, and 0 for the escape row.
#![tactic(auto)]

ghost use Rattle.std.specs.Prelude.{◌≡◌, true, min, ◌+◌, ◌≤◌, length};
ghost use Rattle.buffer.specs.Over.{lay, Put, zeros};
ghost use Rattle.list_distinct.specs.Answer.{parse_places};
ghost use Rattle.law_rows.specs.Row.{numbers, ascii_part};
ghost use Rattle.row_goals.specs.Goals.{target_at};
ghost use Rattle.row_build.specs.Answer.{lent, too_short, parse_rows, Builds};
ghost use Rattle.row_build.specs.Aimed.{aimed, seen_words, joined, targets_of, Spaced, Ordered, Ready, Split, Filled};
ghost use Rattle.row_build.specs.Asked.{Zeroed, Cleared, Asked, Prepared};

use list_distinct::Places;
use refusal::{DEAD_STATE, Refusal};

// Three numbers for each of the most ranges that a row may have, and one range to spare.
const NUMBERS: usize = 6144;

// A range of a row.
#[derive(Clone, Copy)]
struct Range {
    low: u32,
    high: u32,
    goal: u32,
}

impl Range {
    // Writes the range, so far as it is seen in its row: one that is left out not at all.
    fn put(self, escape: bool, out: &mut [u32], n: usize) -> usize
        requires { n + 3 ≤ length out.old }
        ensures { Put (seen_words escape self.low self.high self.goal) n out.old result out.new }
    {
        if row_goals::unseen(escape, self.high, self.goal) {
            return n;
        }
        out[n] = row_goals::seen_low(escape, self.low);
        out[n + 1] = self.high;
        out[n + 2] = self.goal;
        n + 3
    }
}

// The place of x among the 128 ascii targets, or their end.
fn edge(x: u32) -> usize
    ensures { result ≡ min x 128 }
{
    x.min(128) as usize
}

// The targets of one range, behind dead ones from n on, so far as they are ascii.
fn put_targets(out: &mut [u16], n: usize, low: u32, high: u32, goal: u16) -> usize
    requires order { (n ≤ min low 128) × (low ≤ high) }
    requires fits { 128 ≤ length out.old }
    ensures { Put (targets_of n low high goal) n out.old result out.new }
{
    let start = edge(low);
    let end = edge(high.saturating_add(1));
    out[n..start].fill(DEAD_STATE);
    out[start..end].fill(goal);
    end
}

// How many numbers the wide row and the escape row take.
#[derive(Clone, Copy)]
pub struct Rows {
    pub wide: usize,
    pub escape: usize,
}

// The segments of a list: the first and the last point of each, and the place of its mask among the distinct ones; and what was given each place.
#[derive(Clone, Copy)]
struct Segments<'a> {
    points: &'a [u32],
    places: &'a [u32],
    targets: &'a [u16],
    continuations: &'a [u32],
}

impl<'a> Segments<'a> {
    // The ascii targets: 128 of them.
    fn put_ascii(&self, out: &mut [u16])
        requires { Ordered self.now.points.now self.now.places.now (length self.now.places.now)
            out.old }
        ensures { out.new ≡
            lay 0 (ascii_part
            (aimed (target_at self.now.targets.now) self.now.points.now self.now.places.now
            (length self.now.places.now) 0)) out.old }
    {
        let mut m = 0;
        for (k, place) in self.places.iter().enumerate() {
            let target = row_goals::target_at(self.targets, *place);
            m = put_targets(out, m, self.points[2 * k], self.points[2 * k + 1], target);
        }
        out[m..128].fill(DEAD_STATE);
    }

    // Writes the row, of targets from 128 on or of continuations, joined, and answers how many numbers it has. The range that may still grow is held
    // back, at first one without a goal; its high and goal are always the last segment's.
    fn put_joined(&self, escape: bool, out: &mut [u32]) -> usize
        requires { Spaced self.now.points.now self.now.places.now (length self.now.places.now)
            out.old }
        ensures { Put
            (numbers
            (joined escape self.now.targets.now self.now.continuations.now self.now.points.now
            self.now.places.now (length self.now.places.now))) 0 out.old result out.new }
    {
        let mut held = Range {
            low: 0,
            high: 0,
            goal: row_goals::no_goal(escape),
        };
        let mut m = 0;
        for (k, place) in self.places.iter().enumerate() {
            let next = Range {
                low: self.points[2 * k],
                high: self.points[2 * k + 1],
                goal: row_goals::goal_of(self.targets, self.continuations, escape, *place),
            };
            if row_goals::touches(held.high, held.goal, next.low, next.goal) {
                held.high = next.high;
            } else {
                m = held.put(escape, out, m);
                held = next;
            }
        }
        held.put(escape, out, m)
    }

    // Parts the row of targets at 128, and joins what lies behind. Answers how many numbers the wide row has.
    fn split_rows(&self, ascii: &mut [u16], wide: &mut [u32]) -> usize
        requires narrow { Ordered self.now.points.now self.now.places.now
            (length self.now.places.now) ascii.old }
        requires broad { Spaced self.now.points.now self.now.places.now
            (length self.now.places.now) wide.old }
        ensures { Split self.now.targets.now self.now.continuations.now self.now.points.now
            self.now.places.now (length self.now.places.now)
            ascii.old ascii.new wide.old result wide.new }
    {
        self.put_ascii(ascii);
        self.put_joined(false, wide)
    }

    // Joins the row of continuations, and answers how many numbers it has.
    fn merge_escape_ranges(&self, escape: &mut [u32]) -> usize
        requires { Spaced self.now.points.now self.now.places.now (length self.now.places.now)
            escape.old }
        ensures { Put
            (numbers
            (joined true self.now.targets.now self.now.continuations.now self.now.points.now
            self.now.places.now (length self.now.places.now))) 0 escape.old result escape.new }
    {
        self.put_joined(true, escape)
    }

    fn fill_rows(&self, ascii: &mut [u16], wide: &mut [u32], escape: &mut [u32]) -> Rows
        requires { Ready self.now.points.now self.now.places.now (length self.now.places.now)
            ascii.old wide.old escape.old }
        ensures { Filled result self.now.targets.now self.now.continuations.now
            self.now.points.now self.now.places.now (length self.now.places.now)
            ascii.old ascii.new wide.old wide.new escape.old escape.new }
    {
        let wide = self.split_rows(ascii, wide);
        let escape = self.merge_escape_ranges(escape);
        Rows { wide, escape }
    }
}

fn too_short(ascii: usize, wide: usize, escape: usize) -> bool
    ensures { result ≡ too_short ascii wide escape }
{
    ascii < 128 || wide < NUMBERS || escape < NUMBERS
}

// Clears the buffers for rows, and answers whether one of them is too short.
fn clear_rows(ascii: &mut [u16], wide: &mut [u32], escape: &mut [u32]) -> bool
    ensures { Cleared result ascii.old ascii.new wide.old wide.new escape.old escape.new }
{
    let short = too_short(ascii.len(), wide.len(), escape.len());
    buffer::clear(ascii);
    buffer::clear(wide);
    buffer::clear(escape);
    short
}

fn clear_masks(segments: &mut [u32], masks: &mut [u64], distinct: &mut [u64])
    ensures { Zeroed segments.old segments.new masks.old masks.new
        distinct.old distinct.new }
{
    buffer::clear(segments);
    buffer::clear(masks);
    buffer::clear(distinct);
}

// The segments of a list, their masks, the distinct ones and the places of these, unless the list is refused, or it has another number of distinct masks than
// there are targets or continuations, or a buffer for rows is too short. The four buffers stay four parameters, here and above: callers lend each alone.
fn place_for_rows(
    list: &[u8],
    targets: usize,
    continuations: usize,
    short: bool,
    segments: &mut [u32],
    masks: &mut [u64],
    distinct: &mut [u64],
    places: &mut [u32],
) -> Result<Places, Refusal>
    ensures { Asked targets continuations short result (length segments.old) segments.new
        (length masks.old) masks.new (length distinct.old) distinct.new
        (length places.old) places.new
        (parse_places (length segments.old) (length masks.old) (length distinct.old)
        (length places.old) list.now) }
{
    let found = list_distinct::place_masks(list, segments, masks, distinct, places)?;
    if let Some(number) = row_goals::refusal_for(found.masks, targets, continuations, short) {
        clear_masks(segments, masks, distinct);
        return Err(Refusal {
            number,
            item: 0,
            place: 0,
        });
    }
    Ok(found)
}

// The same, behind the buffers for rows, which are cleared first.
fn prepare_rows(
    list: &[u8],
    targets: usize,
    continuations: usize,
    segments: &mut [u32],
    masks: &mut [u64],
    distinct: &mut [u64],
    places: &mut [u32],
    ascii: &mut [u16],
    wide: &mut [u32],
    escape: &mut [u32],
) -> Result<Places, Refusal>
    ensures { Prepared list.now targets continuations result segments.old segments.new
        masks.old masks.new distinct.old distinct.new (length places.old)
        places.new ascii.old ascii.new wide.old wide.new escape.old
        escape.new }
{
    let short = clear_rows(ascii, wide, escape);
    place_for_rows(
        list,
        targets,
        continuations,
        short,
        segments,
        masks,
        distinct,
        places,
    )
}

// The rows of a list of transitions, each distinct mask of which was given a target and a continuation: 128 ascii targets, the wide row and the escape row,
// three numbers to a range. The segments, their masks and the distinct ones are left too. Refused: every number of the six buffers is 0. Accepted: behind
// the answer's numbers there are zeros.
pub fn build_rows(
    list: &[u8],
    targets: &[u16],
    continuations: &[u32],
    segments: &mut [u32],
    masks: &mut [u64],
    distinct: &mut [u64],
    ascii: &mut [u16],
    wide: &mut [u32],
    escape: &mut [u32],
) -> Result<Rows, Refusal>
    ensures { Builds result
        (lent segments.old masks.old distinct.old ascii.old wide.old escape.old)
        segments.new masks.new distinct.new ascii.new wide.new escape.new
        targets.now continuations.now
        (parse_rows (lent segments.old masks.old distinct.old ascii.old wide.old escape.old)
        list.now targets.now continuations.now) }
{
    let mut places = [0u32; 2048];
    let found = prepare_rows(
        list,
        targets.len(),
        continuations.len(),
        segments,
        masks,
        distinct,
        &mut places,
        ascii,
        wide,
        escape,
    )?;
    let count = found.segments;
    let placed = Segments {
        points: &segments[..2 * count],
        places: &places[..count],
        targets,
        continuations,
    };
    Ok(placed.fill_rows(ascii, wide, escape))
}
