// Setting many codes in one call (document 02, K1): its limit, and what it returns.
// What they mean stands in specs/, and the theorems in proofs/.
#![tactic(auto)]

// The most settings of one call.
pub const MOST_SETTINGS: usize = 64;

// What a call leaves of the settings. Of these a Set changes only present values.
// The values stand first, where they are cheaper to copy, and a number beside them: a Result of the array copied 4,608
// bytes in a call where this copies 2,560.
#[derive(Clone, Copy)]
pub struct AllSet {
    // The present values afterwards.
    pub present: [u16; 256],
    // The answer number of the call: 0, 1 or 7.
    pub answer: u8,
}
