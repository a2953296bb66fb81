//! The report of a receiver: at most 256 places, each settled or a gap.
ghost use Rattle.std.specs.Prelude.{◌≡◌, ◌≤◌, length};

use arrayvec::ArrayVec;
use codes::fault::{Cause, Fault, Layer};

/// What a word came to: its message, or a gap that a repeat may settle.
// No `Option`: a report would answer `Some(None)` for a gap and `None` past its end, which readers mix up.
#[derive(Clone, Copy, PartialEq, Eq, Debug, Default)]
pub enum Place {
    Settled(u64),
    #[default]
    Gap,
}

impl Place {
    ghost use Rattle.link.specs.Report.{is_settled};

    /// Whether a word settled the place.
    fn is_settled(self) -> bool
        ensures { result ≡ is_settled self }
    {
        matches!(self, Place::Settled(_))
    }
}

/// What is kept of a word: the message that settled its place, with the flips that it was settled over, or a gap.
// The flips stand first, beside the mark that tells the two apart, so that a report takes no more room than its messages and their marks.
#[derive(Clone, Copy)]
#[derive_where(PartialEq, Eq)]
pub(crate) enum Heard {
    Settled {
        #[derive_where(skip(EqHashOrd))]
        flips: u8,
        message: u64,
    },
    Gap,
}

impl Heard {
    ghost use Rattle.link.specs.Report.{place_in, flips_in};

    /// The place.
    fn place(self) -> Place
        ensures { result ≡ place_in self }
    {
        match self {
            Heard::Settled { message, .. } => Place::Settled(message),
            Heard::Gap => Place::Gap,
        }
    }

    /// The flips that the place was settled over: 0 for a gap.
    fn flips(self) -> u8
        ensures { result ≡ flips_in self }
    {
        match self {
            Heard::Settled { flips, .. } => flips,
            Heard::Gap => 0,
        }
    }
}

/// How many places a report has room for.
const ROOM: usize = 256;

/// What was heard, in order. Two reports are equal that have the same places, over whatever flips.
// An array and a count: to clear an `ArrayVec` takes a step for each of its elements, and to clear a report takes one step in all.
#[derive(Drop)]
pub struct Report {
    cells: [Heard; ROOM],
    count: usize,
    ghost few: { count ≤ 256 },
    ghost sized: { length cells ≡ 256 },
}

// Places and flips are spoken of apart, as two lists: reports are equal by their places alone.
impl Report {
    ghost use Rattle.std.specs.Prelude.{◌<◌, [], ◌∷◌, ◌++◌, map, length, Some, MatchBool, sum, MatchResult, ◌≢◌, slice_set};
    ghost use Rattle.std.specs.List.{slice_get};
    ghost use Rattle.codes.specs.Fault.{fault};
    ghost use Rattle.codes.specs.declared.fault.Cause.TheVariants.{GapInReport};
    ghost use Rattle.link.specs.declared.report.Place.TheVariants.{Settled, Gap};
    ghost use Rattle.link.specs.Sealed.{first_gap};
    ghost use Rattle.link.specs.Report.{heard_in, place_in, flips_in, places_of, flips_of, settled_in};

    /// A report with no place.
    pub(crate) fn new() -> Report
        ensures places { places_of result ≡ [] }
        ensures flips { flips_of result ≡ [] }
    {
        Report {
            cells: [Heard::Gap; ROOM],
            count: 0,
        }
    }

    /// What was heard, without the room past it.
    fn heard(&self) -> &[Heard]
        ensures heard { result.now ≡ heard_in self.now }
        ensures few { length result.now ≤ 256 }
    {
        &self.cells[..self.count]
    }

    /// How many places there are.
    pub fn count(&self) -> usize
        ensures { result ≡ length (places_of self.now) }
    {
        self.heard().len()
    }

    /// The place at an index, absent past the end.
    pub fn place(&self, at: usize) -> Option<Place>
        ensures { result ≡ slice_get (places_of self.now) at }
    {
        self.heard().get(at).map(|heard| heard.place())
    }

    /// Whether there is no room for another place.
    pub(crate) fn is_full(&self) -> bool
        ensures { MatchBool result (256 ≤ length (places_of self.now)) (length (places_of self.now) < 256) }
    {
        self.count() >= ROOM
    }

    /// Whether there is a gap at an index.
    pub(crate) fn has_gap(&self, at: usize) -> bool
        ensures { MatchBool result ((slice_get (places_of self.now) at ≡ Some Gap) × (at < length (places_of self.now))) (slice_get (places_of self.now) at ≢ Some Gap) }
    {
        self.place(at) == Some(Place::Gap)
    }

    /// Writes what was heard, over whatever was there before.
    fn write(&mut self, at: usize, heard: Heard)
        requires { at < 256 }
        ensures cells { self.new.cells ≡ slice_set self.old.cells at heard }
        ensures count { self.new.count ≡ self.old.count }
    {
        self.cells[at] = heard;
    }

    /// Adds a place at the end.
    pub(crate) fn push(&mut self, heard: Heard)
        requires { length (places_of self.old) < 256 }
        ensures places { places_of self.new ≡ places_of self.old ++ place_in heard ∷ [] }
        ensures flips { flips_of self.new ≡ flips_of self.old ++ flips_in heard ∷ [] }
    {
        self.write(self.count, heard);
        self.count += 1;
    }

    /// Puts another place where one is.
    #[tactic(auto, using(crate::proofs::Places::read_written))]
    pub(crate) fn replace(&mut self, at: usize, heard: Heard)
        requires { at < length (places_of self.old) }
        ensures places { places_of self.new ≡ slice_set (places_of self.old) at (place_in heard) }
        ensures flips { flips_of self.new ≡ slice_set (flips_of self.old) at (flips_in heard) }
    {
        self.write(at, heard);
    }

    /// Takes every place away. What lies past the count is never read again.
    pub(crate) fn clear(&mut self)
        ensures places { places_of self.new ≡ [] }
        ensures flips { flips_of self.new ≡ [] }
    {
        self.count = 0;
    }

    /// The messages of the places, in order, or the first gap. A report with a gap does not spell.
    pub(crate) fn messages(&self) -> Result<ArrayVec<u64, ROOM>, Fault>
        ensures { MatchResult result (λ messages. places_of self.now ≡ map Settled messages.items) (λ f. (first_gap (places_of self.now) < length (places_of self.now)) × (f ≡ fault GapInReport Layer.Report (first_gap (places_of self.now)))) }
    {
        let mut messages = ArrayVec::new();
        for (at, heard) in self.heard().iter().enumerate() {
            let Place::Settled(message) = heard.place() else {
                return Err(Fault::new(Cause::GapInReport).at(at));
            };
            messages.push(message);
        }
        Ok(messages)
    }

    /// How many places are settled.
    pub(crate) fn settled(&self) -> u64
        ensures { (result ≡ settled_in (places_of self.now)) × (result ≤ 256) }
    {
        let settled = self
            .heard()
            .iter()
            .filter(|heard| heard.place().is_settled());
        settled.count() as u64
    }

    /// The flips of all places together.
    pub(crate) fn flips(&self) -> u32
        ensures { result ≡ sum (flips_of self.now) }
    {
        self.heard()
            .iter()
            .map(|heard| u32::from(heard.flips()))
            .sum()
    }

    /// Whether both have the same places: as many, and the same message or gap at each. Flips are not compared.
    #[tactic(auto, using(crate::proofs::Places::maps_compared))]
    pub fn same(&self, other: &Report) -> bool
        ensures { MatchBool result (places_of self.now ≡ places_of other.now) (places_of self.now ≢ places_of other.now) }
    {
        self == other
    }
}

impl PartialEq for Report {
    ghost use Rattle.std.specs.Cmp.{on_per};
    ghost use Rattle.std.specs.Cmp.Lexicographic.{pointwise, lists_per};
    ghost use Rattle.link.specs.Report.{heard_in};
    ghost use Rattle.link.specs.contracts.report.HeardPartialEq.TheImpl.{ghosts as alike};
    ghost use Rattle.link.specs.contracts.report.HeardPartialEq.TheImpl.Laws.{laws-law as alike_laws};

    ghost eq = { λ r s. pointwise alike.eq (heard_in r) (heard_in s) };

    ghost laws = { on_per heard_in (lists_per alike_laws) };

    fn eq(&self, other: &Self) -> bool {
        self.heard() == other.heard()
    }
}

impl Eq for Report {
    ghost use Rattle.std.specs.Cmp.{on_equiv};
    ghost use Rattle.std.specs.Cmp.Lexicographic.{lists_equiv};
    ghost use Rattle.link.specs.Report.{heard_in};
    ghost use Rattle.link.specs.contracts.report.HeardEq.TheImpl.Laws.{laws-law as alike_laws};

    ghost laws = { on_equiv heard_in (lists_equiv alike_laws) };
}
