// Document 02's limits on a call list, as specs/Limits.antt defines them.

// The most bytes of a list.
pub const LONGEST_LIST: usize = 1024;

// The most entries of a list.
pub const MOST_ENTRIES: usize = 85;

// The bytes of a record.
pub const RECORD_SIZE: usize = 12;

// The value of its length field, which counts what follows that field.
pub const RECORD_LENGTH: u16 = 10;

// The kind of a record that holds an entry.
pub const ENTRY_KIND: u16 = 32;

// Where the token and the household stand in a record.
pub const TOKEN_AT: usize = 4;

pub const HOUSEHOLD_AT: usize = 8;
