// The types of one device's settings: what is kept for each VCP code, and what declaring, Get and Set say of it.
// What they mean stands in specs/, and the theorems in proofs/.
#![tactic(auto)]

// The type of a momentary code; a kept one is 0.
// A number, not a bool: C gives it, and a type above 1 is refused.
pub const MOMENTARY: u8 = 1;

// The fields of a Timing reply.
#[repr(C)]
#[derive(Clone, Copy)]
pub struct Timing {
    pub status: u8,
    pub horizontal: u16,
    pub vertical: u16,
}

// What a device keeps for each code 0 to 255, and the three fields of its timing.
// Four yes-or-no properties of each code are sets of codes, as the declared codes are.
// So one proved test reads all five, and codes with several properties are found by whole words.
// The timing's numbers stand between the arrays, so that fewer bytes are copied (docs/PROVING-NOTES.md).
// Arrays of values, not one of structs: C takes this struct as it is, and a call copies only those that it needs.
#[repr(C)]
#[derive(Clone, Copy)]
pub struct Settings {
    pub declared: [u64; 4],
    pub readable: [u64; 4],
    pub writable: [u64; 4],
    pub momentary: [u64; 4],
    pub continuous: [u64; 4],
    pub maximum: [u16; 256],
    pub horizontal: u16,
    pub saved: [u16; 256],
    pub vertical: u16,
    pub present: [u16; 256],
    pub status: u8,
}

// What is said of a code when it is declared.
#[repr(C)]
#[derive(Clone, Copy)]
pub struct Declaration {
    pub code: u8,
    pub readable: bool,
    pub writable: bool,
    // The type: 0 (kept) or 1 (momentary).
    pub kind: u8,
    pub continuous: bool,
    pub maximum: u16,
    pub present: u16,
}

// What an accepted Set comes to.
#[derive(Clone, Copy, PartialEq, Eq)]
pub enum Accepted {
    // The value becomes the present one.
    Stored,
    // The code is momentary: nothing is stored.
    Momentary,
}

// What a Get shows of a code that is declared and readable.
#[derive(Clone, Copy, PartialEq, Eq)]
pub struct Shown {
    pub momentary: bool,
    pub maximum: u16,
    pub present: u16,
}
