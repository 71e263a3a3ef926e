// What the message vectors are written with: document 01's table of messages once more, fields, and a tally.
#![tactic(auto)]

pub mod fields;
pub mod tally;
