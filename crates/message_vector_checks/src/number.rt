// Document 01's answer numbers for messages, written down once more: a wrong number in the library then shows.

// The call is done.
pub const DONE: u8 = 0;

// An output has under 38 bytes.
pub const WRONG_SIZE: u8 = 1;

// A message has under 3 bytes.
pub const TOO_SHORT: u8 = 2;

// A message's first byte is wrong.
pub const WRONG_FIRST_BYTE: u8 = 3;

// A message's length byte is wrong, or the slice does not agree with it.
pub const WRONG_LENGTH: u8 = 4;

// A message's checksum is wrong.
pub const WRONG_CHECKSUM: u8 = 5;

// A message's command is not in the table of messages, or a request has no body.
pub const UNKNOWN_COMMAND: u8 = 6;

// A body's length or a field is wrong for the command, or a builder was given such a field.
pub const WRONG_FIELD: u8 = 7;

// The host read the null message.
pub const NULL_MESSAGE: u8 = 12;

// Document 01's longest body, written down once more.
pub const LONGEST_BODY: u8 = 35;

// No answer of document 01: two readers that must agree do not.
pub const DISAGREE: u8 = 255;
