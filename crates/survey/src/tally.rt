//! How many words were answered, and how.
ghost use Rattle.std.specs.Iterator.{IsFinite};

use crate::wrong::Wrong;

/// How many words were answered, and how many of them refused.
#[derive(Clone, Copy, Default)]
pub struct Tally {
    pub words: u64,
    pub refused: u64,
}

impl Tally {
    /// Counts one answer more.
    fn add(&mut self, answer: Option<u64>) {
        self.words = self.words.saturating_add(1);
        if answer.is_none() {
            self.refused = self.refused.saturating_add(1);
        }
    }

    /// Counts answers, up to the first wrong one.
    pub fn of<I: Iterator<Item = Result<Option<u64>, Wrong>> + Drop>(
        answers: I,
    ) -> Result<Tally, Wrong>
        requires can { I.can_next answers }
        requires ends { IsFinite (I.remaining answers) }
    {
        let mut tally = Tally::default();
        for answer in answers {
            tally.add(answer?);
        }
        Ok(tally)
    }
}
