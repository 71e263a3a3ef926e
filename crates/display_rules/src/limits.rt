// Document 01's limits on a display, as specs/Limits.antt defines them.

// The bytes of the table's buffer: the most that a table has.
pub const TABLE_ROOM: usize = 1024;
