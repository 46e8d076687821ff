// The parts of a page: the head, a mode, a state, a refusal. A function `.._form` chooses among the forms of a line.
ghost use Rattle.std.specs.Prelude.{◌≡◌, ℕ, ◌^◌, ◌<◌};
ghost use Rattle.refusal.specs.Fixed.{NONE as none, DEAD-STATE};
ghost use Rattle.refusal.specs.Header.{RUNS-START};
ghost use Rattle.refusal.specs.Lists.{pick};
ghost use Rattle.look_accepts.specs.Record as recorded;
ghost use Rattle.look_continuations.specs.Continuation as continued;
ghost use Rattle.look_modes.specs.Start as started;
ghost use Rattle.look_targets.specs.Targets.{eof_target};
ghost use Rattle.program_io.specs.Wrote.{Wrote};
ghost use Rattle.tableshow.specs.Forms.{formed};
ghost use Rattle.tableshow.specs.Rows.{or_else, place_of};
ghost use Rattle.tableshow.specs.Page.{part, record_line, said_line, accept_text, head_text, until_text, ranges_line, run_text, run_line, end_target};
ghost use Rattle.tableshow.specs.Page.{end_continuation, rest_text, state_text, start_line, mode_text, table_text, rule_text, reason_text, refusal_text};

use crate::rows::{DEAD, ESCAPE, number_or, place_of, put_ascii, put_escapes, put_wide};
use crate::text::put_form;
use crate::{Page, forms};
use look_accepts::AcceptRecord;
use refusal::{NONE, RUNS_START, Refusal};
use room_decode::Decoded;
use room_find::Missing;
use rule_words::word_at;

fn record_form(flag: bool, actions: u32) -> usize
    ensures { (k rule : ℕ) → formed result k rule actions ≡ record_line k rule (pick flag 1 0) actions }
{
    if actions == 0 {
        if flag {
            return forms::ACCEPT_END;
        }
        return forms::ACCEPT;
    }
    if flag {
        return forms::ACCEPT_END_ACTIONS;
    }
    forms::ACCEPT_ACTIONS
}

fn rule_of(found: Result<AcceptRecord, Missing>) -> u32
    ensures { result ≡ part 0 (recorded.said found) }
{
    found.map_or(0, |record| record.rule)
}

fn flag_of(found: Result<AcceptRecord, Missing>) -> bool
    ensures { pick result 1 0 ≡ part 1 (recorded.said found) }
{
    found.map_or(false, |record| record.consumed_eof)
}

fn actions_of(found: Result<AcceptRecord, Missing>) -> u32
    ensures { result ≡ part 2 (recorded.said found) }
{
    found.map_or(0, |record| record.actions)
}

fn put_said(accept: u32, found: Result<AcceptRecord, Missing>, page: &mut Page)
    ensures { Wrote (said_line accept (recorded.said found)) page.old page.new }
{
    let rule = rule_of(found);
    let actions = actions_of(found);
    let form = record_form(flag_of(found), actions);
    put_form(form, accept as u64, rule as u64, actions as u64, page)
}

fn put_accept(room: &[u32], accept: u32, page: &mut Page)
    ensures { Wrote (accept_text room.now accept) page.old page.new }
{
    if accept == NONE {
        return put_form(forms::NO_ACCEPT, 0, 0, 0, page);
    }
    put_said(accept, look_accepts::accept_record(room, accept), page)
}

fn put_head(room: &[u32], state: u16, page: &mut Page)
    ensures { Wrote (head_text room.now state) page.old page.new }
{
    let accept = number_or(look_accepts::accept(room, state), NONE);
    put_form(forms::STATE, state as u64, 0, 0, page);
    put_accept(room, accept, page)
}

// The exits of a run: one, two or three.
fn until_form(run: u32) -> usize
    ensures { (b c : ℕ) → formed result run b c ≡ until_text run }
{
    let kind = run % 256;
    if kind < 3 {
        return forms::UNTIL_1;
    }
    if kind < 4 {
        return forms::UNTIL_2;
    }
    forms::UNTIL_3
}

// The ranges of a run: one to four.
fn ranges_form(count: u32) -> usize
    ensures { (a b c : ℕ) → formed result a b c ≡ ranges_line count b c }
{
    if count < 2 {
        return forms::ON_1;
    }
    if count < 3 {
        return forms::ON_2;
    }
    if count < 4 {
        return forms::ON_3;
    }
    forms::ON_4
}

// A run by its first word, whose lowest byte is its kind. (The word, and no `AsciiRun`: a room may hold any words, and of those that are no run it says
// what stands there.)
fn run_form(run: u32) -> usize
    ensures { (b c : ℕ) → formed result run b c ≡ run_text run b c }
{
    let kind = run % 256;
    if kind == 0 {
        return forms::NOTHING;
    }
    if kind == 1 {
        return forms::LOOPS_ALWAYS;
    }
    if kind == 5 {
        return ranges_form(run / 256 % 256);
    }
    until_form(run)
}

// The run whose words stand at a place.
fn put_run_at(room: &[u32], at: usize, page: &mut Page)
    requires { at < 2 ^ 62 }
    ensures { Wrote (run_line room.now at) page.old page.new }
{
    let run = word_at(room, at);
    let first = word_at(room, at + 1);
    let second = word_at(room, at + 2);
    put_form(run_form(run), run as u64, first as u64, second as u64, page)
}

fn put_run_of(room: &[u32], state: u16, page: &mut Page)
    ensures { Wrote (run_line room.now (place_of room.now RUNS-START state)) page.old page.new }
{
    let at = place_of(room, RUNS_START, state as u32);
    put_run_at(room, at, page)
}

fn end_form(to: u32) -> usize
    ensures { formed result to 0 0 ≡ end_target to }
{
    match to {
        DEAD => forms::NOTHING,
        ESCAPE => forms::END_ESCAPE,
        _ => forms::END_TO,
    }
}

fn put_end_of(room: &[u32], state: u16, page: &mut Page)
    ensures { Wrote (end_target (or_else DEAD-STATE (eof_target room.now state))) page.old page.new }
{
    let to = number_or(look_targets::eof_target(room, state), DEAD);
    put_form(end_form(to), to as u64, 0, 0, page)
}

fn continuation_form(to: u32) -> usize
    ensures { formed result to 0 0 ≡ end_continuation to }
{
    if to == NONE {
        return forms::NOTHING;
    }
    forms::END_CONTINUATION
}

fn put_continuation_of(room: &[u32], state: u16, page: &mut Page)
    ensures { Wrote (end_continuation (or_else none (continued.eof_continuation room.now state))) page.old page.new }
{
    let to = number_or(look_continuations::eof_continuation(room, state), NONE);
    put_form(continuation_form(to), to as u64, 0, 0, page)
}

// What is behind the ascii row.
fn put_rest(room: &[u32], state: u16, page: &mut Page)
    ensures { Wrote (rest_text room.now state) page.old page.new }
{
    put_wide(room, state, page);
    put_escapes(room, state, page);
    put_end_of(room, state, page);
    put_continuation_of(room, state, page)
}

// All of a state.
pub(crate) fn put_state(room: &[u32], state: u16, page: &mut Page)
    ensures { Wrote (state_text room.now state) page.old page.new }
{
    put_head(room, state, page);
    put_run_of(room, state, page);
    put_ascii(room, state, page);
    put_rest(room, state, page)
}

// A start's number; NONE where there is none.
fn start_number(start: Result<Option<u16>, Missing>) -> u32
    ensures { result ≡ or_else none (started.said start) }
{
    match start {
        Ok(Some(s)) => u32::from(s),
        Ok(None) => NONE,
        Err(_) => NONE,
    }
}

fn start_form(start: u32) -> usize
    ensures { (mode : ℕ) → formed result mode start 0 ≡ start_line mode start }
{
    if start == NONE {
        return forms::NOT_COMPILED;
    }
    forms::STARTS_AT
}

// The line of a mode.
pub(crate) fn put_mode(room: &[u32], mode: u32, page: &mut Page)
    ensures { Wrote (mode_text room.now mode) page.old page.new }
{
    let start = start_number(look_modes::mode_start(room, mode));
    put_form(start_form(start), mode as u64, start as u64, 0, page)
}

// The line of the table.
pub(crate) fn put_table(table: Decoded, page: &mut Page)
    ensures { Wrote (table_text table.modes table.states table.words) page.old page.new }
{
    put_form(
        forms::TABLE,
        table.modes as u64,
        table.states as u64,
        table.words as u64,
        page,
    )
}

// The index rule that is broken.
fn rule_form(rule: usize) -> usize
    ensures { formed result 0 0 0 ≡ rule_text rule }
{
    match rule {
        1 => forms::RULE_1,
        2 => forms::RULE_2,
        3 => forms::RULE_3,
        4 => forms::RULE_4,
        5 => forms::RULE_5,
        6 => forms::RULE_6,
        7 => forms::RULE_7,
        8 => forms::RULE_8,
        _ => forms::RULE_9,
    }
}

fn reason_form(refusal: Refusal) -> usize
    ensures { formed result 0 0 0 ≡ reason_text refusal.number refusal.place }
{
    match refusal.number {
        1 => forms::SHORT,
        2 => forms::TAG,
        3 => forms::FIELD,
        4 => forms::LIMIT,
        5 => forms::LEFT,
        6 => rule_form(refusal.place),
        _ => forms::OTHER,
    }
}

// The line of a refusal.
pub(crate) fn put_refusal(refusal: Refusal, page: &mut Page)
    ensures { Wrote (refusal_text refusal.number refusal.place) page.old page.new }
{
    put_form(
        forms::REFUSED,
        refusal.number as u64,
        refusal.place as u64,
        0,
        page,
    );
    put_form(reason_form(refusal), 0, 0, 0, page)
}
