//! Why a case stops early.
use codes::fault::Fault;
use std::io;
use thiserror::Error;

/// A call of the library was refused, or a line could not be printed.
#[derive(Debug, Drop, Error)]
pub enum Stop {
    #[error("{0}")]
    Refused(#[from] Fault),
    #[error(transparent)]
    Unprinted(#[from] io::Error),
}

/// Tells of the refusal that stopped a case, where one did.
pub fn told(rt: &impl Print, case: Result<(), Stop>) -> io::Result<()> {
    match case {
        Ok(()) => Ok(()),
        Err(Stop::Unprinted(error)) => Err(error),
        Err(refused) => println!(rt; "  {refused}"),
    }
}
