//! Bits on their way from symbols of one width to numbers of another.
ghost use Rattle.std.specs.Prelude.{◌≡◌, ℕ, ◌+◌, ◌/◌, ◌%◌, ◌^◌, ◌<◌, All, drop, map, slice_index};
ghost use Rattle.std.specs.Slice.Iter.{iter_rest};
ghost use Rattle.tables.specs.Feed.{supply, left};

use std::marker::Model;
use std::slice::Iter;

/// What comes in as a number: a byte, or a message.
pub(crate) trait Symbol: Copy + Into<u64> {
    ghost number: { Self → ℕ };

    // The conversion gives that number, and no other.
    ghost exact: { (symbol : Self) (n : ℕ) → Self.converts symbol n → n ≡ number symbol };
}

impl Symbol for u8 {
    ghost number = { λ byte. byte };

    ghost exact = { λ byte n is. is };
}

impl Symbol for u64 {
    ghost number = { λ message. message };

    ghost exact = { λ message n is. is };
}

/// Symbols of `width` bits that are still to come, and below them the bits in hand. The first bit is the lowest.
#[derive(Drop)]
pub(crate) struct Feed<'a, S: Symbol> {
    symbols: Iter<'a, S>,
    width: u32,
    // Bits in hand with their number: no collection holds bits.
    held: u64,
    bits: u32,
}

impl<'a, S: Symbol> Model for Feed<'a, S> {
    ghost use Rattle.std.specs.Slice.Iter.{iter_rest};
    ghost use Rattle.tables.specs.Feed.{Supply, supply, left, InHand};

    ghost Value = { Supply };

    ghost view = { λ f. supply (left S.number f.width (iter_rest f.symbols) f.held f.bits) f.width };

    ghost invariant = { λ f. InHand S.number f.width (iter_rest f.symbols) f.held f.bits };
}

/// The lowest bits of a number, so many of them.
fn lowest(number: u64, bits: u32) -> u64
    requires { bits < 64 }
    ensures { result ≡ number % 2 ^ bits }
{
    number % (1 << bits)
}

/// The number of the next symbol. Past the last one it is 0.
fn next_number<S: Symbol>(symbols: &mut Iter<'_, S>) -> u64
    ensures number { result ≡ slice_index (map S.number (iter_rest symbols.old)) 0 }
    ensures rest { iter_rest symbols.new ≡ drop 1 (iter_rest symbols.old) }
{
    symbols.next().map_or(0, |symbol| (*symbol).into())
}

impl<'a, S: Symbol> Feed<'a, S> {
    /// Symbols of `width` bits, above bits in hand.
    pub(crate) fn new(symbols: &'a [S], width: u32, held: u64, bits: u32) -> Self
        requires some { 0 < width }
        requires few { bits < 64 }
        requires below { held < 2 ^ bits }
        requires fits { All (λ s. S.number s < 2 ^ width) symbols.now }
        ensures { result ≡ supply (left S.number width symbols.now held bits) width }
    {
        Feed {
            symbols: symbols.iter(),
            width,
            held,
            bits,
        }
    }

    /// The lowest `width` bits, which are taken away. Past the last symbol the bits are 0.
    pub(crate) fn draw(&mut self, width: u32) -> u64
        requires { self.old.width + width < 64 }
        ensures number { result ≡ self.old.left % 2 ^ width }
        ensures rest { self.new ≡ supply (self.old.left / 2 ^ width) self.old.width }
    {
        while self.bits < width {
            self.held += next_number(&mut self.symbols) << self.bits;
            self.bits += self.width;
        }
        let number = lowest(self.held, width);
        self.held >>= width;
        self.bits -= width;
        number
    }
}
