//! A receiver: words in, places out.
ghost use Rattle.std.specs.Prelude.{◌≡◌, [], ◌∷◌, ◌++◌, length, slice_set};
ghost use Rattle.std.specs.List.{slice_get};
ghost use Rattle.link.specs.Report.{places_of, flips_of};
ghost use Rattle.link.specs.Receiver.{Offered, Repeated, Keeps, place_by, flips_by, OneOffer, OneRepeat};
ghost use Rattle.link.specs.Steps.{AnsweredAt};

use crate::report::{Heard, Place, Report};
use crate::sealed::Sealed;
use codes::fault::{Cause, Fault};
use codes::interface::Code;

/// The answer to a word: its place, and the message and pattern where it settled.
// A place beside an `Option` is no plainer: it would call a gap `None`, as if there were no answer.
#[derive(Clone, Copy, PartialEq, Eq, Debug)]
pub enum Answer {
    Settled {
        place: usize,
        message: u64,
        pattern: u64,
    },
    Gap {
        place: usize,
    },
}

/// What the report keeps of an answer.
impl From<Answer> for Heard {
    ghost use Rattle.link.specs.Report.{place_in, flips_in};

    ghost from_gives = { λ answer heard. (place_in heard ≡ place_by answer) × (flips_in heard ≡ flips_by answer) };

    fn from(answer: Answer) -> Heard {
        match answer {
            Answer::Settled {
                message,
                pattern,
                ..
            } => Heard::Settled {
                flips: pattern.count_ones() as u8,
                message,
            },
            Answer::Gap { .. } => Heard::Gap,
        }
    }
}

/// A code, and the report of the words that were heard over it.
#[derive(Drop)]
pub struct Receiver<C> {
    pub(crate) code: C,
    pub(crate) report: Report,
}

/// The answer to a word for a place. A word beyond reach leaves a gap there; what else the code refuses goes up.
fn answer_at<C: Code>(code: &C, word: u64, place: usize) -> Result<Answer, Fault>
    ensures { AnsweredAt (C.means code.now) word place result }
{
    match code.correct(word) {
        Ok(found) => Ok(Answer::Settled {
            place,
            message: found.message,
            pattern: found.pattern,
        }),
        Err(refusal) if refusal.cause == Cause::BeyondReach => Ok(Answer::Gap { place }),
        Err(refusal) => Err(refusal.at(place)),
    }
}

/// A lawful code leaves an offer one answer and one list of places. It does nothing but say so.
#[tactic(auto, using(crate::proofs::Transitions::one_offer))]
fn one_offer()
    ensures { OneOffer }
{}

/// The same of a repeat.
#[tactic(auto, using(crate::proofs::Transitions::one_repeat))]
fn one_repeat()
    ensures { OneRepeat }
{}

// That the code stays is said by each call that changes the receiver: an invariant speaks of one state, not of two.
impl<C: Code> Receiver<C> {
    /// A receiver that has heard nothing.
    pub fn new(code: C) -> Receiver<C>
        ensures code { result.code ≡ code }
        ensures places { places_of result.report ≡ [] }
        ensures flips { flips_of result.report ≡ [] }
    {
        Receiver {
            code,
            report: Report::new(),
        }
    }

    /// Hears a word for the next place, which is settled by it or a gap.
    pub fn offer(&mut self, word: u64) -> Result<Answer, Fault>
        ensures answer { Offered (C.means self.old.code) word (places_of self.old.report) result (places_of self.new.report) }
        ensures flips { Keeps result (flips_of self.old.report) (λ a. flips_of self.old.report ++ flips_by a ∷ []) (flips_of self.new.report) }
        ensures same { self.new.code ≡ self.old.code }
        ensures one { OneOffer }
    {
        one_offer();
        let place = self.count();
        let answer = answer_at(&self.code, word, place)?;
        if self.report.is_full() {
            return Err(Fault::new(Cause::ReportFull).at(place));
        }
        self.report.push(answer.into());
        Ok(answer)
    }

    /// Hears a word once more for a place that is a gap.
    pub fn repeat(&mut self, place: usize, word: u64) -> Result<Answer, Fault>
        ensures answer { Repeated (C.means self.old.code) place word (places_of self.old.report) result (places_of self.new.report) }
        ensures flips { Keeps result (flips_of self.old.report) (λ a. slice_set (flips_of self.old.report) place (flips_by a)) (flips_of self.new.report) }
        ensures same { self.new.code ≡ self.old.code }
        ensures one { OneRepeat }
    {
        one_repeat();
        let answer = answer_at(&self.code, word, place)?;
        if !self.report.has_gap(place) {
            return Err(Fault::new(Cause::NotAGap).at(place));
        }
        self.report.replace(place, answer.into());
        Ok(answer)
    }

    /// Takes every place away; the code stays.
    pub fn clear(&mut self)
        ensures places { places_of self.new.report ≡ [] }
        ensures flips { flips_of self.new.report ≡ [] }
        ensures same { self.new.code ≡ self.old.code }
    {
        self.report.clear();
    }

    /// How many places there are.
    pub fn count(&self) -> usize
        ensures { result ≡ length (places_of self.now.report) }
    {
        self.report.count()
    }

    /// The place at an index, absent past the end.
    pub fn place(&self, at: usize) -> Option<Place>
        ensures { result ≡ slice_get (places_of self.now.report) at }
    {
        self.report.place(at)
    }

    /// The report so far.
    pub fn report(&self) -> &Report
        ensures { result.now ≡ self.now.report }
    {
        &self.report
    }

    /// Ends the hearing: what is left can be read and closed.
    pub fn seal(self) -> Sealed<C>
        ensures code { result.code ≡ self.code }
        ensures report { result.report ≡ self.report }
    {
        let Receiver { code, report } = self;
        Sealed { code, report }
    }
}
