// What every call of Vohitsamba can refuse with, and the numbers that document 01 fixes.
#![tactic(auto)]

// A refusal: document 01's number, and the place that goes with it. Of INDEX the item is the first mode, state, row or continuation that breaks
// the rule, counted from 0; it is 0 where the rule asks nothing of single ones (rules 3 and 7), and of every other refusal.
#[repr(C)]
#[derive(Clone, Copy)]
pub struct Refusal {
    pub number: u32,
    pub item: u32,
    pub place: usize,
}

// The refusals by number.
pub const SHORT: u32 = 1;

pub const TAG: u32 = 2;

pub const FIELD: u32 = 3;

pub const LIMIT: u32 = 4;

pub const LEFT: u32 = 5;

pub const INDEX: u32 = 6;

pub const ROOM: u32 = 7;

pub const STATE: u32 = 8;

pub const NOT_TABLE: u32 = 9;

pub const ORDER: u32 = 10;

pub const TARGETS: u32 = 11;

// No state, no accept, no continuation.
pub const NONE: u32 = 4294967295;

// A target that is no state: the edge goes to the interpreter, or nowhere.
pub const ESCAPE_STATE: u16 = 65534;

pub const DEAD_STATE: u16 = 65535;

// The first word of a table.
pub const SERIALIZED_TAG: u32 = 0x4C440001;

// The limits: words of a table, numbers of its room, transitions and intervals of a list.
pub const MAX_WORDS: usize = 8192;

pub const ROOM_NUMBERS: usize = 16384;

pub const MAX_TRANSITIONS: usize = 256;

pub const MAX_INTERVALS: usize = 1024;

// Symbols of an ASCII row, and the most ranges that a run keeps.
pub const ASCII_SYMBOLS: usize = 128;

pub const MAX_RANGES: usize = 4;

// The numbers of a room's header, by their places in it: how many words there are; where the count of each section stands.
pub const WORD_COUNT: usize = 0;

pub const MODES_START: usize = 1;

pub const STATES_START: usize = 2;

pub const RUNS_START: usize = 3;

pub const ASCII_START: usize = 4;

pub const WIDE_START: usize = 5;

pub const ACCEPTS_START: usize = 6;

pub const ESCAPES_START: usize = 7;

pub const CONTINUATIONS_START: usize = 8;

// How many numbers the header has: the words stand behind it.
pub const HEADER_NUMBERS: usize = 9;
