// Comparing two settings profiles: its types and constants.
// What they mean stands in specs/, and the theorems in proofs/.
#![tactic(auto)]

use message_rules::Position;

// What stands for a value where a profile does not have the code: no value is 65,536.
// A number, not an Option: the arrays that are lent hold it, as C reads them.
pub const ABSENT: u32 = 65536;

// The most differences of two profiles: one for each code.
pub const MOST_DIFFERENCES: usize = 256;

// Which profile is refused.
// Numbers, not an enum: Compared holds one as C reads it.
pub const NEITHER: u8 = 0;

pub const FIRST: u8 = 1;

pub const SECOND: u8 = 2;

// What a comparison returns.
// Numbers, not a Result: C takes this struct as it is.
#[repr(C)]
#[derive(Clone, Copy)]
pub struct Compared {
    // The answer number: 0, 1 or 17.
    pub answer: u8,
    // The profile that is refused, or neither.
    pub profile: u8,
    // How many differences are listed; 0 where refused.
    pub differences: usize,
    // Where the refused record starts in that profile; 0 where neither is refused.
    pub position: Position,
}
