//! The places of a word: its message bits above its parity bits.
ghost use Rattle.std.specs.Prelude.{◌≡◌, ◌+◌, ◌^◌, ◌<◌};
ghost use Rattle.cyclic.specs.Polynomial.{rotate};
ghost use Rattle.cyclic.specs.Generator.{numbers, parity_bits};
ghost use Rattle.cyclic.specs.Search.{MessageTable};

use super::Cyclic;

impl Cyclic {
    /// The syndrome of each single flip of a message bit, lowest first.
    pub(super) fn message_rows(&self) -> &[u64]
        ensures { MessageTable (numbers self.now.generator) result.now }
    {
        &self.rows[self.generator.parity_bits() as usize..self.generator.n as usize]
    }

    /// The flip of a message bit.
    pub(super) fn message_flip(&self, i: usize) -> u64
        requires { i < self.now.generator.k }
        ensures { result ≡ 2 ^ (parity_bits (numbers self.now.generator) + i) }
    {
        1 << i << self.generator.parity_bits()
    }

    /// A word of n bits, rotated k places upwards.
    pub(super) fn rotate_back(&self, word: u64) -> u64
        requires { word < 2 ^ self.now.generator.n }
        ensures { result ≡ rotate self.now.generator.k (parity_bits (numbers self.now.generator)) word }
    {
        let parity = self.generator.parity_bits();
        (word & ((1 << parity) - 1)) << self.generator.k | word >> parity
    }
}
