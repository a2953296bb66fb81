//! The text of a listing: numbers as digits, the first line, commands, and replies.
#![tactic(auto)]

pub mod command;
pub mod heading;
mod line;
mod number;
pub mod reply;
mod token;
