//! Runs of calls on a receiver, tables carried over a noisy line, and the law of both.
#![tactic(auto)]

pub mod calls;
pub mod law;
pub mod transport;
