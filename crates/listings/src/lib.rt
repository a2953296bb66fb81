//! A listing: a code picked by its name, a receiver over it that is spoken to in lines, and the line that is being read.
#![tactic(auto)]

pub mod choice;
pub mod listing;
pub mod partial;
