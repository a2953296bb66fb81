//! Correcting a list of words in place.
ghost use Rattle.std.specs.Prelude.{◌≡◌, None};
ghost use Rattle.codes.specs.Slots.{slot, verdict_number, Filled, Listed, OneList};

use crate::fault::Cause;
use crate::interface::Code;

/// A word, and what correcting it came to: its verdict is the cause of the refusal, or none.
// No `Result`: a refused slot has a message and a pattern too, which are 0.
#[derive(Clone, Copy, PartialEq, Eq, Debug)]
pub struct Slot {
    pub word: u64,
    pub verdict: Option<Cause>,
    pub message: u64,
    pub pattern: u64,
}

impl Slot {
    /// A slot for a word that is still to be corrected.
    pub fn new(word: u64) -> Slot
        ensures { result ≡ slot word None 0 0 }
    {
        Slot {
            word,
            verdict: None,
            message: 0,
            pattern: 0,
        }
    }

    /// The number of the refusal, or 0 where there is none.
    // A method and no `From`, like the number of a cause.
    pub fn number(&self) -> u8
        ensures { result ≡ verdict_number self.now.verdict }
    {
        self.verdict.map_or(0, Cause::number)
    }

    /// The slot with its word corrected. A refused word leaves message 0 and pattern 0.
    pub fn filled<C: Code>(self, code: &C) -> Slot
        ensures { Filled (C.means code.now) self result }
    {
        match code.correct(self.word) {
            Ok(found) => Slot {
                verdict: None,
                message: found.message,
                pattern: found.pattern,
                ..self
            },
            Err(fault) => Slot {
                verdict: Some(fault.cause),
                ..Slot::new(self.word)
            },
        }
    }
}

/// Corrects the word of each slot. It never refuses: each slot has a verdict of its own.
#[tactic(auto, using(crate::proofs::Lists::one_lists))]
pub fn correct_list<C: Code>(code: &C, slots: &mut [Slot])
    ensures listed { Listed (C.means code.now) slots.old slots.new }
    ensures one { OneList }
{
    for slot in slots.iter_mut() {
        *slot = slot.filled(code);
    }
}
