//! Codes by their numbers alone: answers that owe nothing to the library's search.
ghost use Rattle.std.specs.Prelude.{◌≡◌, ◌+◌, ◌^◌, ◌<◌, ◌≤◌, min};

use crate::patterns::{Patterns, SEED, is_within, low_ones, mixed};
use codes::interface::Correction;
use cyclic::name::Name;
use std::fmt;
use std::ops::RangeInclusive;

/// What is laid over a code.
#[derive(Clone, Copy, Debug)]
pub enum Layer {
    /// A parity bit, below the bits of the code.
    Parity,
    /// Its highest message bits are left out.
    Shortened { by: u32 },
}

/// The multiples of a generator below 2^length, with a parity bit below them or without.
#[derive(Clone, Copy, Debug)]
pub struct Plain {
    pub name: Name,
    pub layer: Option<Layer>,
    /// How many bits a word has, without the parity bit.
    pub length: u32,
    pub message_bits: u32,
    pub reach: u32,
    pub generator: u64,
    ghost parts: { message_bits ≤ length },
    ghost short: { length < 63 },
    ghost near: { reach < 63 },
}

pub const G23: Plain = Plain {
    name: Name::G23,
    layer: None,
    length: 23,
    message_bits: 12,
    reach: 3,
    generator: 0xae3,
};

pub const Q31: Plain = Plain {
    name: Name::Q31,
    layer: None,
    length: 31,
    message_bits: 16,
    reach: 3,
    generator: 0xe309,
};

pub const Q41: Plain = Plain {
    name: Name::Q41,
    layer: None,
    length: 41,
    message_bits: 21,
    reach: 4,
    generator: 0x1b4e5b,
};

impl fmt::Display for Plain {
    fn fmt<W: fmt::Write>(&self, f: &mut fmt::Formatter<W>) -> fmt::Result {
        let name = self.name;
        match self.layer {
            None => write!(f, "{name:?}"),
            Some(Layer::Parity) => write!(f, "{name:?} with parity"),
            Some(Layer::Shortened { by }) => write!(f, "{name:?} shortened by {by}"),
        }
    }
}

impl Plain {
    /// The same code with a parity bit.
    // Every field is written: a struct with ghost fields takes no `..self`.
    pub fn with_parity(self) -> Plain {
        Plain {
            name: self.name,
            layer: Some(Layer::Parity),
            length: self.length,
            message_bits: self.message_bits,
            reach: self.reach,
            generator: self.generator,
        }
    }

    /// The same code without its highest message bits.
    pub fn shortened(self, by: u32) -> Plain {
        let by = by.min(self.message_bits);
        Plain {
            name: self.name,
            layer: Some(Layer::Shortened { by }),
            length: self.length - by,
            message_bits: self.message_bits - by,
            reach: self.reach,
            generator: self.generator,
        }
    }

    fn has_parity(&self) -> bool {
        matches!(self.layer, Some(Layer::Parity))
    }

    /// How many parity bits stand below: one or none.
    fn parity_bits(&self) -> u32
        ensures { result ≤ 1 }
    {
        u32::from(self.has_parity())
    }

    /// How many bits a word has.
    pub fn bits(&self) -> u32
        ensures { result < 64 }
    {
        self.length + self.parity_bits()
    }

    /// How many bits of a multiple of the generator are no message.
    pub fn checks(&self) -> u32
        ensures { result + self.now.message_bits ≡ self.now.length }
    {
        self.length - self.message_bits
    }

    /// What long division by the generator leaves.
    pub fn remainder(&self, word: u64) -> u64 {
        // The bits of a number are no collection to go over, so their places are.
        let checks = self.checks();
        let mut rest = word;
        for place in (0..self.message_bits).rev() {
            if rest >> (checks + place) & 1 == 1 {
                rest ^= self.generator << place;
            }
        }
        rest
    }

    /// How many bits tell the class of a word.
    pub fn class_bits(&self) -> u32
        ensures { result < 64 }
    {
        self.checks() + self.parity_bits()
    }

    /// The class of a word: what division leaves of its upper part, and below it whether its ones are odd, where there is a parity bit.
    pub fn class(&self, word: u64) -> u64 {
        let rest = self.remainder(word >> self.parity_bits());
        if self.has_parity() {
            rest << 1 | u64::from(word.count_ones() % 2)
        } else {
            rest
        }
    }

    /// A word of a class.
    pub fn word_of(&self, class: u64) -> u64 {
        if self.has_parity() {
            let rest = class >> 1;
            rest << 1 | (u64::from(rest.count_ones() % 2) ^ class & 1)
        } else {
            class
        }
    }

    /// Whether a word is a codeword.
    pub fn has(&self, word: u64) -> bool {
        is_within(word, self.bits())
            && self.remainder(word >> self.parity_bits()) == 0
            && (!self.has_parity() || word.count_ones() % 2 == 0)
    }

    /// The codeword of a message.
    pub fn codeword(&self, message: u64) -> u64 {
        let shifted = message << self.checks();
        let multiple = shifted ^ self.remainder(shifted);
        if self.has_parity() {
            multiple << 1 | u64::from(multiple.count_ones() % 2)
        } else {
            multiple
        }
    }

    /// The codeword that a pattern leads to from a word, with its message.
    pub fn correction(&self, word: u64, pattern: u64) -> Correction {
        let codeword = word ^ pattern;
        Correction {
            codeword,
            message: codeword >> self.parity_bits() >> self.checks(),
            pattern,
        }
    }

    /// How many codewords there are, or the number that is asked for if that is less.
    pub fn codewords(&self, asked: u64) -> u64
        ensures { result ≡ min asked (2 ^ self.now.message_bits) }
    {
        asked.min(1 << self.message_bits)
    }

    /// A message for each index: 0, 1, all ones, and then mixed ones.
    pub fn message_at(&self, index: u64) -> u64 {
        let chosen = match index {
            0 => 0,
            1 => 1,
            2 => u64::MAX,
            _ => mixed(SEED.wrapping_mul(index)),
        };
        chosen & low_ones(self.message_bits)
    }

    /// A message for each index of a few: 0, and then mixed ones.
    pub fn message_of_few(&self, index: u64) -> u64 {
        self.message_at(index.saturating_mul(3))
    }

    /// The patterns of so many flips.
    pub fn patterns(&self, flips: RangeInclusive<u32>) -> Patterns {
        Patterns::new(flips, self.bits())
    }

    /// The pattern of at most t flips that leads from a word to a codeword, found by trying all.
    pub fn nearest(&self, word: u64) -> Option<u64> {
        self.patterns(0..=self.reach)
            .find(|pattern| self.has(word ^ *pattern))
    }
}
