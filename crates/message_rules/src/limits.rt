// Document 01's limits on messages, as specs/Limits.antt defines them.

// The most bytes of a body to the display.
pub const LONGEST_REQUEST: usize = 35;

// The most bytes of a body to the host.
pub const LONGEST_REPLY: usize = 35;

// The most data bytes of a Table write.
pub const MOST_WRITTEN: usize = 31;

// The most data bytes of a fragment.
pub const MOST_FRAGMENT: usize = 32;

// The most bytes of a capabilities string, and of any text that is read by fragments.
pub const LONGEST_TEXT: usize = 4096;

// The bytes of output that every builder asks for: the longest message.
pub const OUTPUT_ROOM: usize = 38;
