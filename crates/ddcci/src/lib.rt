// The library's functions for Rust and C, on numbers and slices alone.
// They are thin over the proved functions, and refuse like them.
#![tactic(auto)]

pub mod calls;
pub mod capability;
pub mod profiles;
pub mod reply;
pub mod request;
pub mod transfers;

ghost use Rattle.std.specs.Prelude.{◌≡◌};
ghost use Rattle.checksum.specs.Xor.{xor_all};
ghost use Rattle.ddcci.specs.Numbers.{built_numbers};

use message_rules::answer;
use message_rules::refusal::Refusal;

// What a builder returns.
// Numbers, not a Result: C takes this struct as it is.
#[repr(C)]
#[derive(Clone, Copy)]
pub struct BuiltNumbers {
    // The answer number.
    pub answer: u8,
    // The length of the message in the output, or 0.
    pub len: usize,
}

// Returns what a builder returned as numbers.
pub(crate) fn built_numbers(built: Result<usize, Refusal>) -> BuiltNumbers
    ensures { result ≡ built_numbers built }
{
    match built {
        Ok(len) => BuiltNumbers {
            answer: answer::DONE,
            len,
        },
        Err(refusal) => BuiltNumbers {
            answer: u8::from(refusal),
            len: 0,
        },
    }
}

// Returns the exclusive-or of the bytes with a seed.
pub fn ddcci_checksum(seed: u8, bytes: &[u8]) -> u8
    ensures { result ≡ xor_all seed bytes.now }
{
    checksum::checksum(seed, bytes)
}
