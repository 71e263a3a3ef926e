// The answer numbers of documents 01 and 02, as specs/Answer.antt defines them.
// Numbers beside the enum Refusal: the structs that C takes hold them, and programs tell of any byte that came.

// The call is done.
pub const DONE: u8 = 0;

// A lent output has under 38 bytes, or another lent slice has a wrong length: so have fewer answers than codes to set.
// So have arrays with fewer entries than two profiles have differences.
pub const WRONG_SIZE: u8 = 1;

// A message has under 3 bytes.
pub const TOO_SHORT: u8 = 2;

// A message's first byte is wrong.
pub const WRONG_FIRST_BYTE: u8 = 3;

// A message's length byte is wrong, or the slice does not agree with it.
pub const WRONG_LENGTH: u8 = 4;

// A message's checksum is wrong.
pub const WRONG_CHECKSUM: u8 = 5;

// A message's command is not in the table of messages, or a request has no body.
pub const UNKNOWN_COMMAND: u8 = 6;

// A body's length or a field is wrong for the command, or a builder was given such a field.
// Or a call has over 64 settings, or unequally many codes and values.
pub const WRONG_FIELD: u8 = 7;

// The code is not allowed here.
pub const CODE_NOT_ALLOWED: u8 = 8;

// The value is above the code's maximum.
pub const VALUE_TOO_LARGE: u8 = 9;

// The offset or the fragment is not the one wanted.
pub const NOT_WANTED: u8 = 10;

// The text is too long for its room, or the call list is over 1,024 bytes.
pub const TEXT_TOO_LONG: u8 = 11;

// The host read the null message.
pub const NULL_MESSAGE: u8 = 12;

// The capabilities string is not in the grammar.
pub const WRONG_GRAMMAR: u8 = 13;

// The capabilities string has a word for which no node is left.
pub const NO_NODE_ROOM: u8 = 14;

// The capabilities string has groups more than 8 deep.
pub const TOO_DEEP: u8 = 15;

// The transfer was closed already.
pub const TRANSFER_CLOSED: u8 = 16;

// The profile is broken, or a record of the call list; by a profile's form alone, its codes do not rise.
pub const BROKEN_RECORD: u8 = 17;

// The declaration, the fragment size or the budget is not allowed.
pub const NOT_DECLARABLE: u8 = 18;

// A record of the call list has a token of an earlier one.
pub const REPEATED_TOKEN: u8 = 19;

// A record of the call list has a household of an earlier one.
pub const REPEATED_HOUSEHOLD: u8 = 20;
