//! The first line of a listing, which names a code.
ghost use Rattle.std.specs.Prelude.{◌≡◌, Bool, MatchOption, ◌≢◌};
ghost use Rattle.cyclic.specs.declared.name.Name.{Name as CodeName};
ghost use Rattle.lines.specs.Heading.{name_text, mark_text, TokenNames, FindsHeading, HeadingReadAs, Headings};

use crate::token::Token;
use codes::fault::{Cause, Fault};
pub use cyclic::name::Name;

/// A code by its name, and whether a parity layer is added to it.
#[derive(Clone, Copy, PartialEq, Eq, Debug)]
pub struct Heading {
    pub name: Name,
    pub parity: bool,
}

/// The length of a name.
const NAME_LENGTH: usize = 3;

/// The code that a text names, absent where it names none.
fn find_name(text: &[u8]) -> Option<Name>
    ensures { MatchOption result ((n : CodeName) → text.now ≢ name_text n) (λ n. text.now ≡ name_text n) }
{
    match text {
        b"G23" => Some(Name::G23),
        b"Q31" => Some(Name::Q31),
        b"Q41" => Some(Name::Q41),
        _ => None,
    }
}

/// The code that a token names, absent where it is no name.
fn read_name(token: Token) -> Option<Name>
    ensures { MatchOption result ((n : CodeName) → TokenNames token.entry n → ⊥) (TokenNames token.entry) }
{
    match token {
        Token::Name(text) => find_name(text),
        Token::Place(_) | Token::Word(_) => None,
    }
}

/// Whether the mark behind a name adds a parity layer, absent where it is no mark.
fn read_mark(mark: &[u8]) -> Option<bool>
    ensures { MatchOption result ((p : Bool) → mark.now ≢ mark_text p) (λ p. mark.now ≡ mark_text p) }
{
    match mark {
        b"" => Some(false),
        b"+P" => Some(true),
        _ => None,
    }
}

/// The heading that a line is, absent where it is none.
fn find_heading(line: &[u8]) -> Option<Heading>
    ensures { FindsHeading line.now result }
{
    let (front, mark) = line.split_at_checked(NAME_LENGTH)?;
    let name = read_name(Token::Name(front))?;
    let parity = read_mark(mark)?;
    Some(Heading { name, parity })
}

/// Every line has one reading as a heading. It does nothing but say so.
fn headings()
    ensures { Headings }
{}

/// Reads the first line of a listing, without its line feed.
pub fn read_heading(line: &[u8]) -> Result<Heading, Fault>
    ensures read { HeadingReadAs line.now result }
    ensures law { Headings }
{
    headings();
    find_heading(line).ok_or(Fault::new(Cause::BadLine))
}
