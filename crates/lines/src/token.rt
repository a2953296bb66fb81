//! The parts of a line, which borrow from it.
ghost use Rattle.std.specs.Prelude.{ℕ, MatchOption};
ghost use Rattle.lines.specs.Token.{TokenWrites, AfterSpace, CutAtSpace};

use crate::number::{Base, read_number};

/// A part of a line, by what it is to be.
// A rule of this project: a line is taken apart into tokens, each by what it is to be, which borrow from it.
#[derive(Clone, Copy)]
pub(crate) enum Token<'a> {
    /// A code's name.
    Name(&'a [u8]),
    /// A place, in decimal digits.
    Place(&'a [u8]),
    /// A word, in hexadecimal digits.
    Word(&'a [u8]),
}

impl Token<'_> {
    /// The number that the token writes, absent where it writes none.
    pub(crate) fn number(self) -> Option<u64>
        ensures { MatchOption result ((x : ℕ) → TokenWrites self.entry x → ⊥) (TokenWrites self.entry) }
    {
        match self {
            Token::Name(_) => None,
            Token::Place(digits) => read_number(Base::Decimal, 3, digits),
            Token::Word(digits) => read_number(Base::Hexadecimal, 11, digits),
        }
    }
}

/// What follows a space at the front of a text, absent where there is no space.
pub(crate) fn after_space(text: &[u8]) -> Option<&[u8]>
    ensures { AfterSpace text.now result }
{
    text.strip_prefix(b" ")
}

/// What stands before the first space of a text, and what follows it, absent where there is no space.
pub(crate) fn cut_at_space(text: &[u8]) -> Option<(&[u8], &[u8])>
    ensures { CutAtSpace text.now result }
{
    let at = text.iter().position(|byte| *byte == b' ')?;
    Some((&text[..at], &text[at + 1..]))
}
