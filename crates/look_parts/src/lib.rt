// The lists that go with a record, as parts of the room itself and no copies. The room may be of any length and hold any numbers.
#![tactic(auto)]

ghost use Rattle.std.specs.Prelude.{◌+◌, ◌≤◌, length};
ghost use Rattle.room_find.specs.Part.{PartOf};
ghost use Rattle.look_accepts.specs.Record.{actions_from, actions_length};
ghost use Rattle.look_continuation_records.specs.Configs.{contexts_from, contexts_length, configs_from, configs_length};

use room_find::Span;

fn part(room: &[u32], span: Span) -> &[u32]
    requires { span.from + span.length ≤ length room.now }
    ensures { PartOf room.entry span.from span.length result }
{
    let from = span.from;
    let end = from + span.length;
    &room[from..end]
}

// The actions of an accept, three numbers each.
pub fn accept_actions(room: &[u32], number: u32) -> &[u32]
    ensures { PartOf room.entry (actions_from room.now number) (actions_length room.now number) result }
{
    part(room, look_accepts::accept_actions_span(room, number))
}

// The contexts of a continuation, three numbers each.
pub fn continuation_contexts(room: &[u32], number: u32) -> &[u32]
    ensures { PartOf room.entry (contexts_from room.now number) (contexts_length room.now number) result }
{
    part(
        room,
        look_continuation_records::continuation_contexts_span(room, number),
    )
}

// The configs of a continuation, each with its actions.
pub fn continuation_configs(room: &[u32], number: u32) -> &[u32]
    ensures { PartOf room.entry (configs_from room.now number) (configs_length room.now number) result }
{
    part(
        room,
        look_continuation_records::continuation_configs_span(room, number),
    )
}
