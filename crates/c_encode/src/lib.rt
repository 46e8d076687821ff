// Encoding for C and Rust: slices pass as pointer and length, the answer comes back as a struct.
#![tactic(auto)]

ghost use Rattle.std.specs.Prelude.{◌≡◌, length};
ghost use Rattle.buffer.specs.Written.{said};
ghost use Rattle.room_encode.specs.Encode.{encode_of, out_of};
ghost use Rattle.c_value.specs.Written.{written_in_c};

use c_value::CWritten;

// Encodes the table in a room into the output, which is all zeros where there is no table, and where it is too short.
#[unsafe(no_mangle)]
pub extern "C" fn lexer_dfa_encode(room: &[u32], out: &mut [u32]) -> CWritten
    ensures { (result ≡ written_in_c (said (encode_of room.now (length out.old))))
        × (out.new ≡ out_of room.now (length out.old)) }
{
    c_value::written_in_c(room_encode::encode(room, out))
}
