// The flags of the modes of a decoded table and their counts of states, for C and Rust: slices pass as pointer and length, answers come back as structs.
#![tactic(auto)]

ghost use Rattle.std.specs.Prelude.{◌≡◌, length};
ghost use Rattle.look_mode_lists.specs.Written as writing;
ghost use Rattle.look_mode_lists.specs.Flags.{mode_flags};
ghost use Rattle.look_mode_lists.specs.Counts.{mode_state_counts};
ghost use Rattle.c_value.specs.Written.{written_in_c};

use c_value::CWritten;

// For each mode 1 where it is compiled, else 0.
#[unsafe(no_mangle)]
pub extern "C" fn lexer_dfa_compiled_mode_flags(room: &[u32], out: &mut [u32]) -> CWritten
    ensures { (result ≡ written_in_c (writing.wrote_said (mode_flags room.now (length out.old))))
        × (out.new ≡ writing.left_in (length out.old) (mode_flags room.now (length out.old))) }
{
    c_value::written_in_c(look_mode_lists::compiled_mode_flags(room, out))
}

// For each compiled mode how many states it has.
#[unsafe(no_mangle)]
pub extern "C" fn lexer_dfa_mode_state_counts(room: &[u32], out: &mut [u32]) -> CWritten
    ensures { (result ≡ written_in_c (writing.wrote_said (mode_state_counts room.now (length out.old))))
        × (out.new ≡ writing.left_in (length out.old) (mode_state_counts room.now (length out.old))) }
{
    c_value::written_in_c(look_mode_lists::mode_state_counts(room, out))
}
