// The limits on capabilities strings, as specs/Limits.antt defines them.

// The most groups that are open at once.
pub const DEEPEST: usize = 8;

// The most nodes, however large the lent buffers.
pub const MOST_NODES: usize = 512;

// The parent of a node in the outer group.
// A number, not an Option: the buffers that C lends hold it.
pub const NO_PARENT: u16 = 65535;
