// The form of a settings profile (the papers' settings sheet), whatever display it belongs to: its constants and types.
// What they mean stands in specs/, and the theorems in proofs/.
#![tactic(auto)]

// The bytes of a record of kind 1.
pub const RECORD_SIZE: usize = 7;

// The value of its length field, which counts what follows that field.
pub const RECORD_LENGTH: u16 = 5;

// The kind of a record that holds a code and its value.
pub const VALUE_KIND: u16 = 1;

// Where the code and the value stand in a record.
pub const CODE_AT: usize = 4;

pub const VALUE_AT: usize = 5;

// The most bytes of a profile by its form: a record for each code.
// A display writes one record less, since F4 is the table.
pub const LONGEST_PROFILE: usize = 1792;

// What a record says: a code and its value.
#[derive(Clone, Copy)]
pub struct Setting {
    pub code: u8,
    pub value: u16,
}
