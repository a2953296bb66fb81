//! The table, carried in Q41 words.
use crate::single::{FIVE, FOUR};
use crate::stop::{Stop, told};
use crate::times::times;
use crate::words::{ROOM, SPOILED, TABLE, WORDS, Words, spelled};
use cyclic::Cyclic;
use cyclic::name::Name;
use link::receiver::{Answer, Receiver};
use link::report::Place;
use link::sealed::Sealed;
use runs::calls::Call;
use runs::law::{Judgement, Run, Trip, judge};
use std::fmt;

/// The cases of the table, and where they are printed.
#[derive(Drop)]
struct Cases<'a, R> {
    rt: &'a R,
    words: Words,
}

/// A place of a report, as it is shown.
#[derive(Drop)]
struct Shown(Option<Place>);

impl fmt::Display for Shown {
    fn fmt<W: fmt::Write>(&self, f: &mut fmt::Formatter<W>) -> fmt::Result {
        match self.0 {
            Some(Place::Settled(message)) => write!(f, " {message:>7x}"),
            Some(Place::Gap) => write!(f, "     gap"),
            None => write!(f, "  absent"),
        }
    }
}

impl<R: Print> Cases<'_, R> {
    /// Spells a sealed report, and says whether the table came through.
    fn spell(&self, sealed: &Sealed<Cyclic>) -> Result<(), Stop> {
        let table = spelled(|buffer| sealed.spell(buffer))?;
        let size = table.len();
        let whole = table.as_slice() == TABLE.as_slice();
        println!(self.rt; "  spelled: {size} bytes, the table that was sent: {whole}")?;
        Ok(())
    }

    /// Closes a sealed report.
    // Two texts: a figure that is absent is no number.
    fn close(&self, sealed: Sealed<Cyclic>) -> Result<(), Stop> {
        match sealed.close() {
            Some(figure) => println!(self.rt; "  line figure: {figure}")?,
            None => println!(self.rt; "  line figure: none")?,
        }
        Ok(())
    }

    /// Seals a report, spells it, and closes it.
    fn seal(&self, receiver: Receiver<Cyclic>) -> Result<(), Stop> {
        let sealed = receiver.seal();
        told(self.rt, self.spell(&sealed))?;
        self.close(sealed)
    }

    /// The hotel: four bits turned over, the table whole.
    fn hotel(&self) -> Result<(), Stop> {
        println!(self.rt; "hotel: word {SPOILED} of {WORDS} with four bits turned over")?;
        self.seal(self.words.heard(FOUR)?)
    }

    /// The places from the spoiled one on: what the report holds, and what it would hold with the word dropped.
    fn print_places(&self, kept: &Receiver<Cyclic>) -> Result<(), Stop> {
        let dropped = self.words.heard_without()?;
        println!(self.rt; "  place  report  with the word dropped")?;
        for place in SPOILED..WORDS {
            let report = Shown(kept.place(place));
            let early = Shown(dropped.place(place));
            println!(self.rt; "     {place}{report}{early}")?;
        }
        Ok(())
    }

    /// A report with a gap.
    fn side_by_side(&self) -> Result<(), Stop> {
        let kept = self.words.heard(FIVE)?;
        told(self.rt, self.print_places(&kept))?;
        self.spell(&kept.seal())
    }

    /// The gap is settled by a repeat.
    fn repaired(&self) -> Result<(), Stop> {
        let mut receiver = self.words.heard(FIVE)?;
        let repeat = receiver.repeat(SPOILED, self.words.spoiled());
        if let Ok(Answer::Settled { place, .. }) = repeat {
            println!(self.rt; "  repeated: place {place} is settled")?;
        }
        self.seal(receiver)
    }

    /// The office block: five bits turned over, beyond reach of every codeword.
    fn office(&self) -> Result<(), Stop> {
        println!(self.rt; "office: word {SPOILED} of {WORDS} with five bits turned over")?;
        told(self.rt, self.side_by_side())?;
        self.repaired()
    }

    /// Two runs that end in the same report, and the table carried twice.
    fn both(&self) -> Result<(), Stop> {
        let Judgement {
            runs,
            first,
            second,
        } = both_cases(self.words.spoiled());
        let equal = runs.equal;
        println!(self.rt;
            "both: the report after four flips and the one after a repeat are equal: {equal}"
        )?;
        if let Ok(size) = first {
            println!(self.rt; "  four flips in each word: {size} bytes spelled")?;
        }
        if second.is_err() {
            println!(self.rt; "  five flips in the first word:")?;
        }
        second?;
        Ok(())
    }
}

/// What came of two runs that end in the same report, and of the table carried twice.
fn both_cases(word: u64) -> Judgement<Cyclic, Cyclic> {
    let code = Cyclic::of(Name::Q41);
    let calls = [Call::Offer { word: word ^ FOUR }];
    let others = [
        Call::Offer { word: word ^ FIVE },
        Call::Repeat { place: 0, word },
    ];
    let mut buffer = [0; ROOM];
    let mut other = [0; ROOM];
    judge(
        Run {
            code,
            calls: &calls,
        },
        Run {
            code,
            calls: &others,
        },
        Trip {
            code,
            table: &TABLE,
            patterns: &[FOUR; WORDS],
        },
        &mut buffer,
        Trip {
            code,
            table: &TABLE,
            patterns: &[FIVE],
        },
        &mut other,
    )
}

/// The hotel, the office block, and both side by side.
pub fn every_case(rt: &(impl Print + Drop)) -> Result<(), Stop> {
    let cases = Cases {
        rt,
        words: Words::sent()?,
    };
    told(rt, cases.hotel())?;
    told(rt, cases.office())?;
    told(rt, times(rt, &cases.words))?;
    cases.both()
}
