//! The checked words as the codes answer them, each refusal at its edge, piles of layers, and a list.
use codes::fault::{Cause, Fault};
use codes::interface::{Code, Correction, Shape};
use std::fmt::Debug;
use std::test::Fail;

mod cyclic_codes;
mod layered_codes;
mod lists;

/// Fails where two values differ. A helper says so by its result: an assert would ask for leave to end the process.
// Each of the two crates of tests has its own: a crate for one helper would be no plainer.
fn check_eq<T: Debug + PartialEq + Drop>(found: T, wanted: T) -> Result<(), Fail> {
    if found == wanted {
        return Ok(());
    }
    Err(Fail::new(format_args!("found {found:?}, wanted {wanted:?}")))
}

fn shapes<C: Code>(code: &C, length: u32, message_bits: u32, reach: u32) -> Result<(), Fail> {
    check_eq(
        code.shape(),
        Ok(Shape {
            length,
            message_bits,
            reach,
        }),
    )
}

fn encodes<C: Code>(code: &C, message: u64, codeword: u64) -> Result<(), Fail> {
    check_eq(code.encode(message), Ok(codeword))
}

fn encode_refuses<C: Code>(code: &C, message: u64, cause: Cause) -> Result<(), Fail> {
    check_eq(code.encode(message), Err(Fault::new(cause)))
}

fn corrects<C: Code>(code: &C, word: u64, message: u64, pattern: u64) -> Result<(), Fail> {
    let codeword = word ^ pattern;
    check_eq(
        code.correct(word),
        Ok(Correction {
            codeword,
            message,
            pattern,
        }),
    )
}

fn refuses<C: Code>(code: &C, word: u64, cause: Cause) -> Result<(), Fail> {
    check_eq(code.correct(word), Err(Fault::new(cause)))
}
