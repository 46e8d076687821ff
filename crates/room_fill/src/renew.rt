// Writes the words of a table, flags made 0 or 1, section by section. Each function writes from place `n` of the room on and answers the
// place behind what it wrote. Room and place stay two parameters: each contract speaks of the room before and after, and would say as much of a
// struct that holds both.
ghost use Rattle.std.specs.Prelude.{◌≡◌, ◌≤◌, ◌<◌, ◌+◌, ◌*◌, ℕ, List, length, map, Ok};
ghost use Rattle.word_reader.specs.Parse.{Place};
ghost use Rattle.word_reader.specs.Records.{accept_at, config_at, continuation_at};
ghost use Rattle.buffer.specs.Over.{Put};
ghost use Rattle.room_fill.specs.Room.{flag, renewed, accept_made, config_made, continuation_made};
ghost use Rattle.room_fill.specs.Flagged.{flagged};

use refusal::Refusal;

// A kind of record that has flags: how one is read, and how it is written.
pub(crate) trait Renewed {
    ghost ends: { List ℕ → ℕ → Place };

    ghost made: { List ℕ → ℕ → List ℕ };

    fn read(words: &[u32], at: usize) -> Result<usize, Refusal>
        ensures { result ≡ ends words.now at };

    // The record at `at`, which ends at `behind`.
    fn put(words: &[u32], at: usize, behind: usize, room: &mut [u32], n: usize) -> usize
        requires read { ends words.now at ≡ Ok behind }
        requires fits { n + length (made words.now at) ≤ length room.old }
        ensures { Put (made words.now at) n room.old result room.new };
}

pub(crate) struct Accept;

struct Config;

pub(crate) struct Continuation;

// One word stands before its flag.
impl Renewed for Accept {
    ghost ends = { accept_at };

    ghost made = { accept_made };

    fn read(words: &[u32], at: usize) -> Result<usize, Refusal> {
        word_records::read_accept(words, at)
    }

    fn put(words: &[u32], at: usize, behind: usize, room: &mut [u32], n: usize) -> usize {
        put_flagged(1, &words[at..behind], room, n)
    }
}

// Two words stand before its two flags.
impl Renewed for Config {
    ghost ends = { config_at };

    ghost made = { config_made };

    fn read(words: &[u32], at: usize) -> Result<usize, Refusal> {
        word_records::read_config(words, at)
    }

    fn put(words: &[u32], at: usize, behind: usize, room: &mut [u32], n: usize) -> usize {
        put_flagged(2, &words[at..behind], room, n)
    }
}

// It has no flags but those of its configs, which stand behind its contexts.
impl Renewed for Continuation {
    ghost ends = { continuation_at };

    ghost made = { continuation_made };

    fn read(words: &[u32], at: usize) -> Result<usize, Refusal> {
        word_records::read_continuation(words, at)
    }

    fn put(words: &[u32], at: usize, _behind: usize, room: &mut [u32], n: usize) -> usize {
        let configs = at + (words[at] as usize * 3 + 1);
        let m = copy_words(&words[at..configs], room, n);
        renew::<Config>(words, configs, room, m)
    }
}

fn flag(x: u32) -> u32
    ensures { result ≡ flag x }
{
    u32::from(x != 0)
}

// These words, as they are.
pub(crate) fn copy_words(words: &[u32], room: &mut [u32], n: usize) -> usize
    requires { n + length words.now ≤ length room.old }
    ensures { Put words.now n room.old result room.new }
{
    let behind = n + words.len();
    buffer::copy(words, &mut room[n..behind]);
    behind
}

// These words, each made a flag.
fn put_flags(words: &[u32], room: &mut [u32], n: usize) -> usize
    requires { n + length words.now ≤ length room.old }
    ensures { Put (map flag words.now) n room.old result room.new }
{
    for (i, x) in words.iter().enumerate() {
        room[n + i] = flag(*x);
    }
    n + words.len()
}

// The words of a record that has `k` words, `k` flags, and the rest.
fn put_flagged(k: usize, words: &[u32], room: &mut [u32], n: usize) -> usize
    requires within { k + k ≤ length words.now }
    requires fits { n + length words.now ≤ length room.old }
    ensures { Put (flagged k words.now) n room.old result room.new }
{
    let a = copy_words(&words[..k], room, n);
    let b = put_flags(&words[k..k + k], room, a);
    copy_words(&words[k + k..], room, b)
}

// The section of a kind of record, whose count stands at `at`.
pub(crate) fn renew<R: Renewed>(words: &[u32], at: usize, room: &mut [u32], n: usize) -> usize
    requires within { at < length words.now }
    requires fits { n + length (renewed R.ends R.made words.now at) ≤ length room.old }
    ensures { Put (renewed R.ends R.made words.now at) n room.old result room.new }
{
    room[n] = words[at];
    let mut here = at + 1;
    let mut m = n + 1;
    for _i in 0..words[at] {
        let Ok(behind) = R::read(words, here) else {
            return m;
        };
        m = R::put(words, here, behind, room, m);
        here = behind;
    }
    m
}
