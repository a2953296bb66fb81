//! A cyclic code: a generator, and the syndrome of each single flip.
ghost use Rattle.std.specs.Prelude.{◌≡◌, ℕ, ◌^◌, ◌<◌, length, slice_index};
ghost use Rattle.cyclic.specs.Generator.{numbers, syndrome};

use crate::generator::Generator;

mod calls;
mod makers;
mod rows;
mod search;

/// Codewords are the multiples of the generator of degree below n, with the parity in the low n-k bits.
#[derive(Clone, Copy)]
pub struct Cyclic {
    generator: Generator,
    /// An array as long as any code needs, of which n rows are used: a code is `Copy`, as no list with a length is.
    rows: [u64; 42],
    ghost sized: { length rows ≡ 42 },
    ghost rowed: { (i : ℕ) → i < generator.n → slice_index rows i ≡ syndrome (numbers generator) (2 ^ i) },
}
