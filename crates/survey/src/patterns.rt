//! Patterns one after another, and mixed words.
ghost use Rattle.std.specs.Prelude.{◌≡◌, ◌+◌, ◌-◌, ◌*◌, ◌^◌, ◌<◌, ◌≤◌, MatchBool};
ghost use Rattle.std.specs.Iterator.{at_most};

use std::ops::RangeInclusive;

/// The patterns of some length: by how many flips they have, and those of as many flips from the lowest up.
#[derive(Drop)]
pub struct Patterns {
    length: u32,
    /// The next pattern, and how many flips it has.
    next: u64,
    flips: u32,
    most: u32,
    ghost short: { length < 64 },
    ghost fit: { most ≤ length },
}

/// A number with this many ones, all lowest.
pub fn low_ones(count: u32) -> u64
    ensures { count < 64 → result + 1 ≡ 2 ^ count }
{
    1u64.checked_shl(count).unwrap_or(0).wrapping_sub(1)
}

/// Whether a word has no bit at this place or above.
// Not the `fits_in` of the library, which is held to these answers.
pub fn is_within(word: u64, length: u32) -> bool
    ensures { MatchBool result (word < 2 ^ length) (2 ^ length ≤ word) }
{
    if length >= u64::BITS {
        return true;
    }
    word < 1 << length
}

/// The next greater word with as many ones. Where there is none, the answer is no greater.
fn next_of_as_many_ones(word: u64) -> u64 {
    let lowest = word & word.wrapping_neg();
    let carried = word.wrapping_add(lowest);
    let moved = (word ^ carried) >> 2;
    carried | moved.wrapping_shr(word.trailing_zeros())
}

impl Patterns {
    /// The patterns of a length that have so many flips.
    pub fn new(flips: RangeInclusive<u32>, length: u32) -> Patterns
        requires { length < 64 }
    {
        let fewest = *flips.start();
        Patterns {
            length,
            next: low_ones(fewest),
            flips: fewest,
            most: length.min(*flips.end()),
        }
    }
}

impl Iterator for Patterns {
    type Item = u64;

    // A pattern is followed by a greater one of as many flips, or by one of more.
    ghost remaining = { λ s. at_most ((s.most + 1 - s.flips) * 2 ^ 64 - s.next) };

    fn next(&mut self) -> Option<u64> {
        if self.flips > self.most {
            return None;
        }
        let pattern = self.next;
        let next = next_of_as_many_ones(pattern);
        if next > pattern && is_within(next, self.length) {
            self.next = next;
        } else {
            self.flips += 1;
            self.next = low_ones(self.flips);
        }
        Some(pattern)
    }
}

/// Where mixed words start.
pub const SEED: u64 = 0x9e37_79b9_7f4a_7c15;

/// The mixed word after this one.
pub fn mixed(word: u64) -> u64 {
    let first = word ^ word << 13;
    let second = first ^ first >> 7;
    second ^ second << 17
}
