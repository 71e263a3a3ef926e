// The library `ddcci` for C and Rust: each function under its own name, with the library's contract.
// Each repeats the library's signature and clauses, since a crate is a library or an archive for C, not both.
// include/ddcci.h declares them.
#![tactic(auto)]

mod calls;
mod capability;
mod profiles;
mod reply;
mod request;
mod transfers;

ghost use Rattle.std.specs.Prelude.{◌≡◌};
ghost use Rattle.checksum.specs.Xor.{xor_all};

// Returns the exclusive-or of the bytes with a seed.
#[unsafe(no_mangle)]
pub extern "C" fn ddcci_checksum(seed: u8, bytes: &[u8]) -> u8
    ensures { result ≡ xor_all seed bytes.now }
{
    ddcci::ddcci_checksum(seed, bytes)
}
