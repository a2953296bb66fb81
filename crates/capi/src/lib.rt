//! The library as C sees it. Each call answers 0 or the number of a refusal, and writes through its pointers only where it answers 0.
#![tactic(auto)]

mod boundary;
mod lists;
mod times;
mod transfer;
mod words;
