// The classes of bytes and of ranges for C and Rust: a slice passes as pointer and length, an answer comes back as a struct.
// A number of 0 says accepted; else it is document 01's refusal, with its place and item, and every other field is 0.
#![tactic(auto)]

ghost use Rattle.std.specs.Prelude.{◌≡◌};
ghost use Rattle.run_class.specs.Byte.{byte_class, byte_number};
ghost use Rattle.run_class.specs.Class.{class_said};
ghost use Rattle.c_class.specs.Answers.{class_in_c};

// The class of ranges: 0 whitespace, 1 number, 2 identifier, 3 other, as `run_class` has them in order. No Result, since C reads it.
#[repr(C)]
#[derive(Clone, Copy)]
pub struct CClass {
    pub number: u32,
    pub item: u32,
    pub place: usize,
    pub class: u32,
}

// The class of a byte: 0 digit, 1 hex letter, 2 other letter, 3 whitespace, 4 underscore, 5 quote, 6 dollar, 7 other, in `run_class`'s order too.
#[unsafe(no_mangle)]
pub extern "C" fn lexer_dfa_class_of_byte(byte: u8) -> u32
    ensures { result ≡ byte_number (byte_class byte) }
{
    run_class::class_of_byte(byte) as u32
}

// The class of the ranges that the three words of a kind-5 run hold.
#[unsafe(no_mangle)]
pub extern "C" fn lexer_dfa_class(words: &[u32]) -> CClass
    ensures { result ≡ class_in_c (class_said words.now) }
{
    match run_class::class(words) {
        Ok(class) => CClass {
            number: 0,
            item: 0,
            place: 0,
            class: class as u32,
        },
        Err(refusal) => CClass {
            number: refusal.number,
            item: refusal.item,
            place: refusal.place,
            class: 0,
        },
    }
}
