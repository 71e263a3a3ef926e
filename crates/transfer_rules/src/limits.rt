// Document 01's limits on a transfer, as specs/Limits.antt defines them.

// The largest budget of exchanges.
pub const MOST_BUDGET: usize = 65535;
