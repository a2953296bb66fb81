//! Sending, receiving, spelling, comparing, reading records and listings, at their edges.
use codes::fault::{Cause, Fault, Layer};
use cyclic::Cyclic;
use cyclic::name::Name;
use layers::parity::Parity;
use layers::shortened::Shortened;
use std::fmt::Debug;
use std::test::Fail;

mod comparing;
mod dialogues;
mod reading;
mod receiving;
mod sending;
mod spelling;

/// Fails where two values differ. A helper says so by its result: an assert would ask for leave to end the process.
// Each of the two crates of tests has its own: a crate for one helper would be no plainer.
fn check_eq<T: Debug + PartialEq + Drop>(found: T, wanted: T) -> Result<(), Fail> {
    if found == wanted {
        return Ok(());
    }
    Err(Fail::new(format_args!("found {found:?}, wanted {wanted:?}")))
}

/// A refusal at a place.
fn at(cause: Cause, place: usize) -> Fault {
    Fault::new(cause).at(place)
}
