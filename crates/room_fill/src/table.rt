// Writes all numbers of a table whose sections were found: the header, the words, the places. Each method but the first two writes from
// place `n` of the room on; each answers the place behind what it wrote.
ghost use Rattle.std.specs.Prelude.{◌≡◌, ◌≤◌, ◌+◌, length, Ok};
ghost use Rattle.refusal.specs.Header.{HEADER-NUMBERS};
ghost use Rattle.word_layout.specs.Layout.{layout_of};
ghost use Rattle.buffer.specs.Over.{Put};
ghost use Rattle.room_fill.specs.Room.{header, later_made, made, later_places, places, numbers};

use crate::places::{in_room, put_record_places};
use crate::renew::{Accept, Continuation, copy_words, renew};
use refusal::{MODES_START, WORD_COUNT};
use word_reader::Sections;
use word_sections::Kind;

// The words of a table, which are not too many, and where its sections start.
#[derive(Clone, Copy)]
pub(crate) struct Table<'a> {
    pub(crate) words: &'a [u32],
    pub(crate) sections: Sections,
    ghost found: { layout_of words.now ≡ Ok sections },
    ghost limit: { length words.now ≤ 8192 },
}

impl Table<'_> {
    // All of it, over the front of the room.
    pub(crate) fn put(&self, room: &mut [u32]) -> usize
        requires { 16384 ≤ length room.old }
        ensures { Put (numbers self.now.words.now self.now.sections) 0 room.old result room.new }
    {
        let n = self.put_header(room);
        let m = self.put_words(room, n);
        self.put_record_places(room, m)
    }

    // The word count, and the places in the room of the sections' counts.
    #[tactic(auto, using(crate::proofs::Tables::heading))]
    fn put_header(&self, room: &mut [u32]) -> usize
        requires { HEADER-NUMBERS ≤ length room.old }
        ensures { Put (header self.now.words.now self.now.sections) 0 room.old result room.new }
    {
        let s = self.sections;
        room[WORD_COUNT] = self.words.len() as u32;
        let counts = [
            in_room(s.modes),
            in_room(s.states),
            in_room(s.runs),
            in_room(s.ascii),
            in_room(s.wide),
            in_room(s.accepts),
            in_room(s.escapes),
            in_room(s.continuations),
        ];
        copy_words(&counts, room, MODES_START)
    }

    // The words: all but the flags as they are.
    fn put_words(&self, room: &mut [u32], n: usize) -> usize
        requires { n + length (made self.now.words.now self.now.sections) ≤ length room.old }
        ensures { Put (made self.now.words.now self.now.sections) n room.old result room.new }
    {
        let accepts = self.sections.accepts;
        let a = copy_words(&self.words[..accepts], room, n);
        let b = renew::<Accept>(self.words, accepts, room, a);
        self.put_later_words(room, b)
    }

    // The words from the escape rows on.
    fn put_later_words(&self, room: &mut [u32], n: usize) -> usize
        requires { n + length (later_made self.now.words.now self.now.sections) ≤ length room.old }
        ensures { Put (later_made self.now.words.now self.now.sections) n room.old result room.new }
    {
        let s = self.sections;
        let a = copy_words(&self.words[s.escapes..s.continuations], room, n);
        renew::<Continuation>(self.words, s.continuations, room, a)
    }

    // Where all records of variable length start.
    fn put_record_places(&self, room: &mut [u32], n: usize) -> usize
        requires { n + length (places self.now.words.now self.now.sections) ≤ length room.old }
        ensures { Put (places self.now.words.now self.now.sections) n room.old result room.new }
    {
        let s = self.sections;
        let a = put_record_places(Kind::AsciiRun, self.words, s.runs, room, n);
        let b = put_record_places(Kind::WideRow, self.words, s.wide, room, a);
        self.put_later_places(room, b)
    }

    // Where the accepts, the escape rows and the continuations start.
    fn put_later_places(&self, room: &mut [u32], n: usize) -> usize
        requires { n + length (later_places self.now.words.now self.now.sections) ≤ length room.old }
        ensures { Put (later_places self.now.words.now self.now.sections) n room.old result room.new }
    {
        let s = self.sections;
        let a = put_record_places(Kind::Accept, self.words, s.accepts, room, n);
        let b = put_record_places(Kind::EscapeRow, self.words, s.escapes, room, a);
        put_record_places(Kind::Continuation, self.words, s.continuations, room, b)
    }
}
