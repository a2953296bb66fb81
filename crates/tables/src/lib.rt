//! Tables of bytes, laid out in messages: sent as codewords, and spelled out from messages.
#![tactic(auto)]

mod feed;
pub mod sender;
pub mod speller;
mod stream;
