// The numbers of a program's standard streams.
// Numbers, not std's handles: io's functions take descriptors as they are.
#![tactic(auto)]

// Standard input.
pub const STDIN_FILENO: i32 = 0;

// Standard output.
pub const STDOUT_FILENO: i32 = 1;

// Standard error.
pub const STDERR_FILENO: i32 = 2;
