// The two texts of a display: which fragment a read finds and its bytes, a write to the table, and what is answered.
// Nothing here knows of settings or of a whole display.
#![tactic(auto)]

pub mod answers;
pub mod fragments;
pub mod table;
