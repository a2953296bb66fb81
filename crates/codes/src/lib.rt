//! What a code is, what its calls answer, why they refuse, and lists of words.
#![tactic(auto)]

pub mod fault;
pub mod interface;
pub mod slots;
