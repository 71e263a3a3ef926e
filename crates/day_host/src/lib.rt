// The hosts of the day: what they send, and how they judge and tell what comes back; day_reading reads texts.
// No display is stepped here.
// What is written for people has no contract; these functions are proved safe and ending.
#![tactic(auto)]

pub mod actions;
pub mod declared;
pub mod morning;
mod profile_lines;
mod requests;
pub mod texts;
pub mod trial;
pub mod writes;
