//! Codes laid over codes: each layer holds one code below it, of any make, and is a code again.
#![tactic(auto)]

pub mod parity;
pub mod shortened;
