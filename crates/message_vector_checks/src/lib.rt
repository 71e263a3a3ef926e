// Judges messages against what document 01 says of them, worked out apart from the message library.
// It judges a vector's bytes and fields, its output's room, its damaged variants, and the table of messages whole.
// A judgement restates the papers in code, so no contract says it again: those functions are proved safe and ending.
#![tactic(auto)]

mod builder;
pub mod damage;
pub mod number;
mod reader;
pub mod table;
pub mod vector;
