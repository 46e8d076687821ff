// Decoding for C and Rust: slices pass as pointer and length, the answer comes back as a struct.
// A number of 0 says accepted; else it is document 01's refusal, with its place and item, and every other field is 0.
#![tactic(auto)]

ghost use Rattle.std.specs.Prelude.{◌≡◌, length};
ghost use Rattle.room_decode.specs.Decode.{decode_of, room_of};
ghost use Rattle.c_decode.specs.Answers.{decoded_in_c};

use refusal::Refusal;
use room_decode::Decoded;

// A table by the number of its modes, states and words. No Result, since C reads it.
#[repr(C)]
#[derive(Clone, Copy)]
pub struct CDecoded {
    pub number: u32,
    pub item: u32,
    pub place: usize,
    pub modes: u32,
    pub states: u32,
    pub words: usize,
}

impl From<Result<Decoded, Refusal>> for CDecoded {
    ghost from_gives = { λ decoded c. c ≡ decoded_in_c decoded };

    fn from(decoded: Result<Decoded, Refusal>) -> CDecoded {
        match decoded {
            Ok(table) => CDecoded {
                number: 0,
                item: 0,
                place: 0,
                modes: table.modes,
                states: table.states,
                words: table.words,
            },
            Err(refusal) => CDecoded {
                number: refusal.number,
                item: refusal.item,
                place: refusal.place,
                modes: 0,
                states: 0,
                words: 0,
            },
        }
    }
}

// Decodes a table into the room, which is all zeros where the words are none.
#[unsafe(no_mangle)]
pub extern "C" fn lexer_dfa_decode(words: &[u32], room: &mut [u32]) -> CDecoded
    ensures { (result ≡ decoded_in_c (decode_of words.now (length room.old)))
        × (room.new ≡ room_of words.now (length room.old)) }
{
    room_decode::decode(words, room).into()
}
