//! Division by a generator, by the shifting rule.
ghost use Rattle.std.specs.Prelude.{◌≡◌, ◌^◌, ◌<◌, length};
ghost use Rattle.cyclic.specs.Polynomial.{times_x};
ghost use Rattle.cyclic.specs.Generator.{numbers, parity_bits, syndrome};
ghost use Rattle.cyclic.specs.Search.{Table};

use super::Generator;

impl Generator {
    /// How many bits of a codeword are parity.
    pub(crate) fn parity_bits(&self) -> u32
        ensures { result ≡ parity_bits (numbers self.now) }
    {
        self.n - self.k
    }

    /// x times a remainder, reduced by the generator.
    fn times_x(&self, remainder: u64) -> u64
        requires { remainder < 2 ^ parity_bits (numbers self.now) }
        ensures { result ≡ times_x (parity_bits (numbers self.now)) self.now.polynomial remainder }
    {
        // The carry is 0 or 1, and as hard to foretell as a coin: a product costs less than a branch.
        // It is read off before the shift, so that it need not wait for it.
        let carry = remainder >> (self.parity_bits() - 1);
        remainder << 1 ^ self.polynomial * carry
    }

    /// The remainder of a word: its bits are shifted in, highest first.
    pub(crate) fn remainder(&self, word: u64) -> u64
        requires { word < 2 ^ self.now.n }
        ensures value { result ≡ syndrome (numbers self.now) word }
        ensures below { result < 2 ^ parity_bits (numbers self.now) }
    {
        // The bits of a number are no collection to go over, so their places are.
        let mut remainder = 0;
        for i in (0..self.n).rev() {
            remainder = self.times_x(remainder) ^ (word >> i & 1);
        }
        remainder
    }

    /// The remainder of each x^i below x^n; 0 past the last.
    pub(crate) fn rows(&self) -> [u64; 42]
        ensures table { Table (numbers self.now) result }
        ensures size { length result ≡ 42 }
    {
        let mut rows = [0; 42];
        let mut row = 1;
        for entry in &mut rows[..self.n as usize] {
            *entry = row;
            row = self.times_x(row);
        }
        rows
    }
}
