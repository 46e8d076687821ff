// Shows a table as a page that a person can read: it reads the words as `tableread` does, the least byte first, and prints the modes and, for
// each state, what it accepts, its run, its rows and where the end of the input leads; or one line that says why the words are no table.
//
//     ./run tableshow < samples/ply-book.words
//
// Proved: every part of the page (the head, a mode, a state, the line of a refusal) is the text that specs/Page says, for every room, cut off
// where the page buffer ends. Not proved: that a state's text is never longer than the buffer, and the order in which `main` prints the parts.
#![tactic(auto)]

mod forms;
mod page;
mod rows;
mod text;

ghost use Rattle.std.specs.Prelude.{◌≡◌, min, length, take};
ghost use Rattle.tableshow.specs.Page.{state_text, mode_text, table_text, refusal_text};

use refusal::{ROOM_NUMBERS, Refusal};
use replay_io::input::read_full;
use room_decode::Decoded;
use std::io::{Result, Stdout};

// At most 2,730 ranges stand in the rows of a state, of at most 55 bytes each with the break of their line.
pub(crate) type Page = program_io::Page<163840>;

// (A page has a function of its own: its promise is the text of its part, and one that takes a closure would promise it no more plainly.)
fn table_page(table: Decoded, page: &mut Page)
    ensures { take page.new.at page.new.bytes ≡ take (length page.old.bytes) (table_text table.modes table.states table.words) }
{
    page.clear();
    page::put_table(table, page);
}

fn mode_page(room: &[u32], mode: u32, page: &mut Page)
    ensures { take page.new.at page.new.bytes ≡ take (length page.old.bytes) (mode_text room.now mode) }
{
    page.clear();
    page::put_mode(room, mode, page);
}

fn state_page(room: &[u32], state: u16, page: &mut Page)
    ensures { take page.new.at page.new.bytes ≡ take (length page.old.bytes) (state_text room.now state) }
{
    page.clear();
    page::put_state(room, state, page);
}

fn refusal_page(refusal: Refusal, page: &mut Page)
    ensures { take page.new.at page.new.bytes ≡ take (length page.old.bytes) (refusal_text refusal.number refusal.place) }
{
    page.clear();
    page::put_refusal(refusal, page);
}

fn show_modes(out: Stdout, room: &[u32], modes: u32, page: &mut Page) -> Result<()> {
    for mode in 0..modes {
        mode_page(room, mode, page);
        out.write_all(page.written())?;
    }
    Ok(())
}

fn show_states(out: Stdout, room: &[u32], states: u16, page: &mut Page) -> Result<()> {
    for state in 0..states {
        state_page(room, state, page);
        out.write_all(page.written())?;
    }
    Ok(())
}

// A table has fewer states than 65,536.
fn all_of(states: u32) -> u16
    ensures { result ≡ min states 65535 }
{
    states.min(65535) as u16
}

fn show_table(out: Stdout, room: &[u32], table: Decoded, page: &mut Page) -> Result<()> {
    table_page(table, page);
    out.write_all(page.written())?;
    show_modes(out, room, table.modes, page)?;
    show_states(out, room, all_of(table.states), page)
}

fn show_refusal(out: Stdout, refusal: Refusal, page: &mut Page) -> Result<()> {
    refusal_page(refusal, page);
    out.write_all(page.written())
}

// What decoding answered, part by part on one page.
fn show(out: Stdout, room: &[u32], decoded: std::result::Result<Decoded, Refusal>) -> Result<()> {
    let mut page = Page::new();
    match decoded {
        Ok(table) => show_table(out, room, table, &mut page),
        Err(refusal) => show_refusal(out, refusal, &mut page),
    }
}

fn main(rt: HostRuntime) -> Result<()> {
    let mut input = io::large_buffer();
    let n = read_full(&mut rt.stdin(), &mut input)?;
    let mut room = [0u32; ROOM_NUMBERS];
    let decoded = program_io::read_table(&input[..n], &mut room);
    show(rt.stdout(), &room, decoded)
}
