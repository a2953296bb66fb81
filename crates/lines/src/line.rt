//! The line of a reply, as far as it is written.
ghost use Rattle.std.specs.Prelude.{◌≡◌, ℕ, ◌+◌, ◌<◌, ◌≤◌, List, [], ◌∷◌, ◌++◌, length};
ghost use Rattle.lines.specs.Number.{base_number, text_of};
ghost use Rattle.lines.specs.Reply.{line_feed, field};

use crate::number::{Base, digit_char};
use arrayvec::ArrayVec;
use std::marker::Model;

/// The longest line has `OK`, a place of 20 digits, two words of 16, three spaces and a line feed.
const ROOM: usize = 58;

/// The text of a reply, byte by byte. It holds the longest, so that none fails for want of room.
// Bytes and no `ArrayString`, and each step by `&mut`: a character takes longer to put than a byte, and a line takes as long to hand on as to write.
#[derive(Drop)]
pub(crate) struct Line {
    text: ArrayVec<u8, ROOM>,
}

impl Model for Line {
    ghost Value = { List ℕ };

    ghost view = { λ line. line.text.items };
}

impl Line {
    /// A line that begins with a word.
    // Inlined, so that each word is copied as so many bytes as it has, and not by a call.
    #[inline(always)]
    pub(crate) fn of(word: &[u8]) -> Line
        requires { length word.now ≤ 58 }
        ensures { result ≡ word.now }
    {
        let mut text = ArrayVec::new();
        text.try_extend_from_slice(word).unwrap();
        Line { text }
    }

    /// A line that begins with a word and a place.
    pub(crate) fn of_place(word: &[u8], place: usize) -> Line
        requires { length word.now ≤ 37 }
        ensures text { result ≡ word.now ++ field 10 place }
        ensures short { length result ≤ length word.now + 21 }
    {
        let mut line = Line::of(word);
        line.decimal(place as u64);
        line
    }

    /// Puts the digits of a number at the end. Those above the last one go first.
    // No clause says that `write!` succeeds where there is room, so the digits are put here.
    fn digits(&mut self, base: Base, number: u64)
        requires { length (self.old ++ text_of (base_number base) number) ≤ 58 }
        ensures { self.new ≡ self.old ++ text_of (base_number base) number }
    {
        if number >= base.radix() {
            self.digits(base, base.above(number));
        }
        self.text.push(digit_char(base.last(number)) as u8);
    }

    /// Puts a number behind a space.
    fn number(&mut self, base: Base, number: u64)
        requires { length (self.old ++ field (base_number base) number) ≤ 58 }
        ensures { self.new ≡ self.old ++ field (base_number base) number }
    {
        self.text.push(b' ');
        self.digits(base, number);
    }

    /// Puts a place or the number of a cause.
    // Two functions over `number`: each says how long a number of its base can be.
    #[tactic(auto, using(crate::proofs::Numbers::behind_decimal))]
    pub(crate) fn decimal(&mut self, number: u64)
        requires { length self.old ≤ 37 }
        ensures text { self.new ≡ self.old ++ field 10 number }
        ensures short { length self.new ≤ length self.old + 21 }
    {
        self.number(Base::Decimal, number);
    }

    /// Puts a message or a pattern.
    #[tactic(auto, using(crate::proofs::Numbers::behind_hexadecimal))]
    pub(crate) fn hexadecimal(&mut self, bits: u64)
        requires { length self.old ≤ 41 }
        ensures text { self.new ≡ self.old ++ field 16 bits }
        ensures short { length self.new ≤ length self.old + 17 }
    {
        self.number(Base::Hexadecimal, bits);
    }

    /// Ends the line.
    pub(crate) fn end(&mut self)
        requires { length self.old < 58 }
        ensures { self.new ≡ self.old ++ line_feed ∷ [] }
    {
        self.text.push(b'\n');
    }

    /// The text so far.
    pub(crate) fn as_slice(&self) -> &[u8]
        ensures { result.now ≡ self.now }
    {
        self.text.as_slice()
    }
}
