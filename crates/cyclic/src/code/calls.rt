//! The calls of a cyclic code.
ghost use Rattle.std.specs.Prelude.{◌≡◌, ◌^◌, ◌<◌};
ghost use Rattle.codes.specs.Meaning.{Carries};
ghost use Rattle.cyclic.specs.Generator.{numbers};
ghost use Rattle.cyclic.specs.Code.{meaning_of, correction};
ghost use Rattle.cyclic.specs.Codewords;
ghost use Rattle.cyclic.specs.Facts.{facts};

use super::Cyclic;
use super::search::Search;
use codes::fault::{Cause, Fault};
use codes::interface::{Code, Correction, Shape, fits_in};

impl Cyclic {
    /// The codeword of a message: the message, above its remainder.
    fn codeword(&self, message: u64) -> u64
        requires { message < 2 ^ self.now.generator.k }
        ensures { Carries (meaning_of self.now) message result }
    {
        let shifted = message << self.generator.parity_bits();
        shifted ^ self.generator.remainder(shifted)
    }

    /// What correcting a word answers, once the pattern is found.
    fn correction(&self, word: u64, pattern: u64) -> Correction
        ensures { result ≡ correction (numbers self.now.generator) word pattern }
    {
        let codeword = word ^ pattern;
        Correction {
            codeword,
            message: codeword >> self.generator.parity_bits(),
            pattern,
        }
    }

    /// Whether a word is a codeword, by its remainder.
    pub fn is_codeword(&self, word: u64) -> bool
        ensures { result ≡ (meaning_of self.now).codeword word }
    {
        fits_in(word, self.generator.n) && self.generator.remainder(word) == 0
    }
}

impl Code for Cyclic {
    ghost means = { meaning_of };

    ghost lawful = { λ c. Codewords.lawful (numbers c.generator) (facts c.generator) };

    fn shape(&self) -> Result<Shape, Fault> {
        Ok(Shape {
            length: self.generator.n,
            message_bits: self.generator.k,
            reach: self.generator.t,
        })
    }

    fn encode(&self, message: u64) -> Result<u64, Fault> {
        if !fits_in(message, self.generator.k) {
            return Err(Fault::new(Cause::MessageTooLong));
        }
        Ok(self.codeword(message))
    }

    fn correct(&self, word: u64) -> Result<Correction, Fault> {
        if !fits_in(word, self.generator.n) {
            return Err(Fault::new(Cause::WordTooLong));
        }
        let search = Search {
            code: self,
            syndrome: self.generator.remainder(word),
        };
        search
            .pattern()
            .map(|pattern| self.correction(word, pattern))
            .ok_or(Fault::new(Cause::BeyondReach))
    }
}
