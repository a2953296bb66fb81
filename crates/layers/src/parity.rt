//! A code with one more bit, lowest, that makes the number of ones even.
ghost use Rattle.std.specs.Prelude.{◌≡◌, ◌^◌, ◌<◌};
ghost use Rattle.layers.specs.Parity.{with_parity, append_parity, raise, parity_over};
ghost use Rattle.layers.specs.ParityLaws.{parity_lawful};

use codes::fault::{Cause, Fault};
use codes::interface::{Code, Correction, Shape, fits_in};

/// The code below, with a parity bit.
#[derive(Clone, Copy, Drop)]
pub struct Parity<C> {
    below: C,
}

impl<C: Code> Parity<C> {
    /// The layer over a code.
    pub fn over(below: C) -> Parity<C>
        ensures { parity_over C.means result ≡ with_parity (C.means below) }
    {
        Parity { below }
    }
}

/// A word with its parity bit.
fn append_parity(word: u64) -> u64
    requires { word < 2 ^ 63 }
    ensures { result ≡ append_parity word }
{
    word * 2 + u64::from(word.count_ones() % 2)
}

/// The correction of a word, from that of its upper part.
fn raised(word: u64, below: Correction) -> Correction
    requires { below.codeword < 2 ^ 63 }
    ensures { result ≡ raise word below }
{
    let codeword = append_parity(below.codeword);
    Correction {
        codeword,
        pattern: word ^ codeword,
        ..below
    }
}

impl<C: Code> Code for Parity<C> {
    ghost means = { parity_over C.means };

    ghost lawful = { λ c. parity_lawful (C.lawful c.below) };

    fn shape(&self) -> Result<Shape, Fault> {
        let below = self.below.shape()?;
        if below.length >= 42 {
            return Err(Fault::new(Cause::OutOfService));
        }
        Ok(Shape {
            length: below.length + 1,
            ..below
        })
    }

    fn encode(&self, message: u64) -> Result<u64, Fault> {
        self.shape()?;
        let below = self.below.encode(message)?;
        Ok(append_parity(below))
    }

    #[tactic(auto, using(crate::specs::ParityLaws::parity_beyond, crate::proofs::ParityCalls::parity_wide))]
    fn correct(&self, word: u64) -> Result<Correction, Fault> {
        let shape = self.shape()?;
        if !fits_in(word, shape.length) {
            return Err(Fault::new(Cause::WordTooLong));
        }
        let below = self.below.correct(word >> 1)?;
        let found = raised(word, below);
        // The parity bit counts among the flips.
        if found.pattern.count_ones() > shape.reach {
            return Err(Fault::new(Cause::BeyondReach));
        }
        Ok(found)
    }
}
