//! A code whose highest message bits are always 0, and are left out.
ghost use Rattle.std.specs.Prelude.{◌≡◌};
ghost use Rattle.layers.specs.Shortened.{shorten, shortened_over};
ghost use Rattle.layers.specs.ShortenedLaws.{shorter_lawful};

use codes::fault::{Cause, Fault};
use codes::interface::{Code, Correction, Shape, fits_in};

/// The code below, with `by` message bits left out, or all of them where it has fewer.
#[derive(Clone, Copy, Drop)]
pub struct Shortened<C> {
    below: C,
    by: u32,
}

impl<C: Code> Shortened<C> {
    /// The layer over a code.
    pub fn over(below: C, by: u32) -> Shortened<C>
        ensures { shortened_over C.means result ≡ shorten (C.means below) by }
    {
        Shortened { below, by }
    }
}

impl<C: Code> Code for Shortened<C> {
    ghost means = { shortened_over C.means };

    ghost lawful = { λ c. shorter_lawful (C.lawful c.below) c.by };

    fn shape(&self) -> Result<Shape, Fault> {
        let below = self.below.shape()?;
        let cut = self.by.min(below.message_bits);
        Ok(Shape {
            length: below.length - cut,
            message_bits: below.message_bits - cut,
            ..below
        })
    }

    fn encode(&self, message: u64) -> Result<u64, Fault> {
        let shape = self.shape()?;
        if !fits_in(message, shape.message_bits) {
            return Err(Fault::new(Cause::MessageTooLong));
        }
        self.below.encode(message)
    }

    #[tactic(auto, using(crate::specs::ShortenedLaws::shorter_beyond, crate::specs::ShortenedLaws::shorter_from, crate::specs::ShortenedLaws::shorter_message, crate::proofs::ShortenedCalls::shorter_wide))]
    fn correct(&self, word: u64) -> Result<Correction, Fault> {
        let shape = self.shape()?;
        if !fits_in(word, shape.length) {
            return Err(Fault::new(Cause::WordTooLong));
        }
        let found = self.below.correct(word)?;
        if !fits_in(found.codeword, shape.length) {
            return Err(Fault::new(Cause::BeyondReach));
        }
        Ok(found)
    }
}
