//! The three codes that are given by generators.
#![tactic(auto)]

pub mod code;
pub mod generator;
pub mod name;

pub use code::Cyclic;
