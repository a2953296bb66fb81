//! What every code answers, and what it owes.
ghost use Rattle.std.specs.Prelude.{◌≡◌, ◌^◌, ◌<◌, ◌≤◌, MatchBool};
ghost use Rattle.codes.specs.Meaning.{Meaning, Lawful};
ghost use Rattle.codes.specs.Interface.{Shaped, Encoded, Corrected, OneAnswer};

use crate::fault::Fault;

/// The length n, the number k of message bits and the reach t of a code.
#[derive(Clone, Copy, PartialEq, Eq, Debug)]
pub struct Shape {
    pub length: u32,
    pub message_bits: u32,
    pub reach: u32,
}

/// The codeword within reach of a word, its message, and the pattern: the sum of word and codeword.
#[derive(Clone, Copy, PartialEq, Eq, Debug)]
pub struct Correction {
    pub codeword: u64,
    pub message: u64,
    pub pattern: u64,
}

/// A block code over bits. What stands above a code knows no more of it than what it means and that this is lawful.
pub trait Code {
    /// What the code means: its length n, its number k of message bits, its reach t, its set of codewords, and whether it is in service.
    /// Out of service it refuses every call.
    ghost means: { Self → Meaning };

    /// n, k and t.
    fn shape(&self) -> Result<Shape, Fault>
        ensures { Shaped (means self.now) result };

    /// The codeword of a message.
    fn encode(&self, message: u64) -> Result<u64, Fault>
        ensures { Encoded (means self.now) message result };

    /// The one codeword within reach of a word, with its message and the pattern.
    fn correct(&self, word: u64) -> Result<Correction, Fault>
        ensures { Corrected (means self.now) word result };

    ghost lawful: { (c : Self) → Lawful (means c) };
}

/// Whether a number has at most so many bits.
// A test and no `Result` with the cause as a parameter: three of its nine callers refuse nothing by it.
#[tactic(auto, using(crate::proofs::Answering::widest, crate::proofs::Answering::width_by_shift))]
pub fn fits_in(number: u64, bits: u32) -> bool
    ensures { MatchBool result (number < 2 ^ bits) (2 ^ bits ≤ number) }
{
    bits >= 64 || number >> bits == 0
}

/// The calls of a code: shape, encode and correct.
const CALLS: usize = 3;

/// How many calls a code has. Each has exactly one answer that the contracts leave it.
#[tactic(auto, using(crate::proofs::Answering::one_answer))]
pub fn calls_with_one_answer() -> usize
    ensures value { result ≡ 3 }
    ensures laws { OneAnswer }
{
    CALLS
}
