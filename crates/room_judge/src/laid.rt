// Whether a room, whose words have sections, has the numbers that decoding leaves.
ghost use Rattle.std.specs.Prelude.{◌≡◌, ◌≤◌, ◌+◌, length, eqb, Ok};
ghost use Rattle.refusal.specs.Header.{HEADER-NUMBERS};
ghost use Rattle.refusal.specs.Lists.{every};
ghost use Rattle.word_layout.specs.Layout.{layout_of};
ghost use Rattle.room_fill.specs.Room.{places};
ghost use Rattle.room_judge.specs.Standing.{eight_stand, flags_plain, standing, filled, sound};

use crate::places::{in_room, record_places_stand};
use refusal::{HEADER_NUMBERS, MODES_START};
use rule_walk::Question;
use word_reader::Sections;
use word_sections::Kind;

// A room that is long enough, the words in it, which are not too many, and where their sections start.
#[derive(Clone, Copy)]
pub(crate) struct Laid<'a> {
    pub(crate) words: &'a [u32],
    pub(crate) sections: Sections,
    pub(crate) room: &'a [u32],
    ghost found: { layout_of words.now ≡ Ok sections },
    ghost limit: { length words.now ≤ 8192 },
    ghost fits: { 16384 ≤ length room.now },
}

// All numbers are 0. No way out of the loop depends on a number, so that many are tested at once.
fn are_zero(numbers: &[u32]) -> bool
    ensures { result ≡ every (λ x. eqb x 0) numbers.now }
{
    let mut zero = true;
    for x in numbers {
        zero &= *x == 0;
    }
    zero
}

impl Laid<'_> {
    // The words break no index rule, and the room is filled.
    pub(crate) fn is_sound(&self) -> bool
        ensures { result ≡ sound self.now.words.now self.now.sections self.now.room.now }
    {
        rule_first::first_broken(self.words, self.sections).is_none() && self.is_filled()
    }

    // The room, beside its words and their count, has the numbers that decoding writes for the words.
    fn is_filled(&self) -> bool
        ensures { result ≡ filled self.now.words.now self.now.sections self.now.room.now }
    {
        if !self.counts_stand() || !self.flags_are_plain() {
            return false;
        }
        match self.places_stand() {
            Some(n) => are_zero(&self.room[n..]),
            None => false,
        }
    }

    // Behind the room's first number stand the places of the sections' counts.
    #[tactic(auto, using(crate::proofs::Filled::heading))]
    fn counts_stand(&self) -> bool
        ensures { result ≡ eight_stand self.now.sections self.now.room.now }
    {
        let s = self.sections;
        let counts = [
            in_room(s.modes),
            in_room(s.states),
            in_room(s.runs),
            in_room(s.ascii),
            in_room(s.wide),
            in_room(s.accepts),
            in_room(s.escapes),
            in_room(s.continuations),
        ];
        self.room[MODES_START..HEADER_NUMBERS] == counts[..]
    }

    // Every flag in the words is 0 or 1.
    fn flags_are_plain(&self) -> bool
        ensures { result ≡ flags_plain self.now.words.now self.now.sections.accepts self.now.sections.continuations }
    {
        let s = self.sections;
        let accepts = rule_walk::all_pass(Question::AcceptIsPlain, self.words, s.accepts);
        let continuations = rule_walk::all_pass(
            Question::ContinuationIsPlain,
            self.words,
            s.continuations,
        );
        accepts & continuations
    }

    // Behind the words stand the places of the records: the place behind all of them.
    fn places_stand(&self) -> Option<usize>
        ensures { result ≡ standing (places self.now.words.now self.now.sections) (length self.now.words.now + HEADER-NUMBERS) self.now.room.now }
    {
        let Laid {
            words,
            sections: s,
            room,
            ..
        } = *self;
        let n = words.len() + HEADER_NUMBERS;
        let a = record_places_stand(Kind::AsciiRun, words, s.runs, room, n)?;
        let b = record_places_stand(Kind::WideRow, words, s.wide, room, a)?;
        let c = record_places_stand(Kind::Accept, words, s.accepts, room, b)?;
        let d = record_places_stand(Kind::EscapeRow, words, s.escapes, room, c)?;
        record_places_stand(Kind::Continuation, words, s.continuations, room, d)
    }
}
