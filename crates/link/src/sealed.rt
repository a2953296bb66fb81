//! A report that hears no more: it is spelled and closed.
ghost use Rattle.std.specs.Prelude.{◌≡◌, ◌*◌, ◌/◌, ◌≤◌, length, if◌then◌else◌, Some, None, sum, nat_lt};
ghost use Rattle.std.specs.List.{slice_get};
ghost use Rattle.link.specs.Report.{places_of, flips_of, settled_in};
ghost use Rattle.link.specs.Sealed.{Spells, OneSpell, line_figure};

use crate::report::{Place, Report};
use codes::fault::{Cause, Fault};
use codes::interface::Code;
use tables::speller::spell;

/// The code of a receiver, and its report, once it was sealed.
#[derive(Drop)]
pub struct Sealed<C> {
    pub(crate) code: C,
    pub(crate) report: Report,
}

// `count`, `place` and `report` stand here as in the receiver: a trait of them is no plainer, since each caller would have to import it.
impl<C: Code + Drop> Sealed<C> {
    /// How many places there are.
    pub fn count(&self) -> usize
        ensures { result ≡ length (places_of self.now.report) }
    {
        self.report.count()
    }

    /// The place at an index, absent past the end.
    pub fn place(&self, at: usize) -> Option<Place>
        ensures { result ≡ slice_get (places_of self.now.report) at }
    {
        self.report.place(at)
    }

    /// The report as it was sealed.
    pub fn report(&self) -> &Report
        ensures { result.now ≡ self.now.report }
    {
        &self.report
    }

    /// Writes the table whose messages the places hold, and answers how many bytes. A refusal leaves the buffer as it was.
    #[tactic(auto, using(crate::proofs::SpellingPlaces::spelled_places))]
    pub fn spell(&self, buffer: &mut [u8]) -> Result<usize, Fault>
        ensures spells { Spells (C.means self.now.code) (places_of self.now.report) buffer.old result buffer.new }
        ensures one { OneSpell }
    {
        one_spell();
        // `spell` tests this too, but a gap is told only where a message has bits.
        if self.code.shape()?.message_bits == 0 {
            return Err(Fault::new(Cause::NoMessageBits));
        }
        let messages = self.report.messages()?;
        spell(&self.code, &messages, buffer)
    }

    /// The line figure: flips in a thousand bits of the settled places.
    pub fn close(self) -> Option<u64>
        ensures { result ≡ line_figure (C.means self.code) (settled_in (places_of self.report)) (sum (flips_of self.report)) }
    {
        let shape = self.code.shape().ok()?;
        per_thousand(shape.length, self.report.settled(), self.report.flips())
    }
}

/// A lawful code leaves spelling one answer and one buffer. It does nothing but say so.
#[tactic(auto, using(crate::proofs::SpellingPlaces::one_spell))]
fn one_spell()
    ensures { OneSpell }
{}

/// Flips in a thousand bits of so many words of n bits, absent where there is no bit.
fn per_thousand(n: u32, settled: u64, flips: u32) -> Option<u64>
    requires { settled ≤ 256 }
    ensures { result ≡ (if nat_lt 0 (n * settled) then Some (1000 * flips / (n * settled)) else None) }
{
    let bits = u64::from(n) * settled;
    (1000 * u64::from(flips)).checked_div(bits)
}
