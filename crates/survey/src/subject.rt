//! Codes of the library, each held to its numbers.
ghost use Rattle.std.specs.Prelude.{◌≡◌, true, false, IfOk, MatchResult};

use crate::plain::Plain;
use crate::wrong::Wrong;
use codes::fault::Cause;
use codes::interface::Code;
use layers::parity::Parity;
use layers::shortened::Shortened;

/// A code of the library, and its numbers.
#[derive(Clone, Copy, Drop)]
pub struct Subject<C> {
    pub code: C,
    pub plain: Plain,
}

impl<C: Code> Subject<C> {
    /// The code under a parity bit.
    pub fn with_parity(self) -> Subject<Parity<C>> {
        Subject {
            code: Parity::over(self.code),
            plain: self.plain.with_parity(),
        }
    }

    /// The code without its highest message bits.
    pub fn shortened(self, by: u32) -> Subject<Shortened<C>> {
        Subject {
            code: Shortened::over(self.code, by),
            plain: self.plain.shortened(by),
        }
    }

    /// A wrong answer to a word.
    fn wrong(&self, word: u64) -> Wrong {
        Wrong::Answer {
            plain: self.plain,
            word,
        }
    }

    /// The codeword of a message, as the code and its numbers both say.
    pub fn encode(&self, message: u64) -> Result<u64, Wrong> {
        self.code
            .encode(message)
            .ok()
            .filter(|codeword| *codeword == self.plain.codeword(message))
            .ok_or(Wrong::Codeword {
                plain: self.plain,
                message,
            })
    }

    /// The pattern that the code takes from a word, or none where it refuses the word as beyond reach.
    fn correct(&self, word: u64) -> Result<Option<u64>, Wrong> {
        match self.code.correct(word) {
            Ok(found) if found == self.plain.correction(word, found.pattern) => {
                Ok(Some(found.pattern))
            }
            Err(fault) if fault.cause == Cause::BeyondReach => Ok(None),
            _ => Err(self.wrong(word)),
        }
    }

    /// An answer to a word, if it is right.
    fn judged(&self, word: u64, answer: Option<u64>, right: bool) -> Result<Option<u64>, Wrong>
        ensures { MatchResult result (λ given. (given ≡ answer) × (right ≡ true)) (λ _. right ≡ false) }
    {
        right.then_some(answer).ok_or(self.wrong(word))
    }

    /// The answer to a word: this pattern, or a refusal where there is none.
    pub fn answer(&self, word: u64, expected: Option<u64>) -> Result<Option<u64>, Wrong>
        ensures { IfOk result (λ answer. answer ≡ expected) }
    {
        let right = self.correct(word)? == expected;
        self.judged(word, expected, right)
    }
}
