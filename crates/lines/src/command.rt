//! The lines that stand for commands.
ghost use Rattle.std.specs.Prelude.{◌∷◌};
ghost use Rattle.lines.specs.Command.{offer_letter, repeat_letter, clear_letter, Finds, ReadAs, Grammar};

use crate::token::{Token, after_space, cut_at_space};
use codes::fault::{Cause, Fault};
use runs::calls::Call;

/// What a `W` is followed by: a word.
fn read_offer(tail: &[u8]) -> Option<Call>
    ensures { Finds (offer_letter ∷ tail.now) result }
{
    let word = Token::Word(after_space(tail)?).number()?;
    Some(Call::Offer { word })
}

/// What an `R` is followed by: a place and a word.
fn read_repeat(tail: &[u8]) -> Option<Call>
    ensures { Finds (repeat_letter ∷ tail.now) result }
{
    let (digits, rest) = cut_at_space(after_space(tail)?)?;
    let place = Token::Place(digits).number()?;
    let word = Token::Word(rest).number()?;
    Some(Call::Repeat {
        place: place as usize,
        word,
    })
}

/// What a `C` is followed by: nothing.
fn read_clear(tail: &[u8]) -> Option<Call>
    ensures { Finds (clear_letter ∷ tail.now) result }
{
    tail.is_empty().then_some(Call::Clear)
}

/// The command that a line stands for, absent where there is none. Its first letter says which.
// One case a command, since each letter is followed by a text of its own form.
fn find_command(line: &[u8]) -> Option<Call>
    ensures { Finds line.now result }
{
    let (first, tail) = line.split_first()?;
    match char::from(*first) {
        'W' => read_offer(tail),
        'R' => read_repeat(tail),
        'C' => read_clear(tail),
        _ => None,
    }
}

/// Every line has one reading. It does nothing but say so.
fn grammar()
    ensures { Grammar }
{}

/// Reads a line, without its line feed, as the command that it stands for.
// `read_heading` is made alike; what each reads, and the law that it states, is its own.
pub fn read_command(line: &[u8]) -> Result<Call, Fault>
    ensures read { ReadAs line.now result }
    ensures law { Grammar }
{
    grammar();
    find_command(line).ok_or(Fault::new(Cause::BadLine))
}
