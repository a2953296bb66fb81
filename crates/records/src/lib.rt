//! The records of a table: travel times and door times, floor by floor.
#![tactic(auto)]

pub mod layout;
pub mod lookup;
pub mod reader;
