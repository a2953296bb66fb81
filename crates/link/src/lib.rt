//! The receiver over any code, the report that it keeps, and the sealed report.
#![tactic(auto)]

pub mod receiver;
pub mod report;
pub mod sealed;
