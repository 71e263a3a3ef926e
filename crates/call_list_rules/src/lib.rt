// The call list: its types and limits.
// What they mean stands in specs/, and the theorems in proofs/.
#![tactic(auto)]

pub mod limits;

use message_rules::Position;

// An entry of a call list: what one record says.
#[repr(C)]
#[derive(Clone, Copy, PartialEq, Eq)]
pub struct Entry {
    // The token that is called.
    pub token: u32,
    // The household that it calls.
    pub household: u32,
}

// An entry's number: the records of a list counted from 0 (document 02's position of a household).
// It counts records and not bytes, so it is no `Position`.
#[repr(C)]
#[derive(Clone, Copy, PartialEq, Eq, PartialOrd, Ord)]
pub struct EntryNumber(pub usize);

// How a list was checked, as C reads it.
// Numbers with an answer number beside, not a Result: C takes this struct as it is.
#[repr(C)]
#[derive(Clone, Copy, PartialEq, Eq)]
pub struct Checked {
    // The answer number: 0, 11, 17, 19 or 20.
    pub answer: u8,
    // How many entries the list has; 0 where it is refused.
    pub entries: usize,
    // Where the record starts that is refused; after answer 0 the end of the list.
    pub position: Position,
}
