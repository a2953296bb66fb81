//! What the words of a code are answered by their class, found by trying all patterns.
use crate::subject::Subject;
use crate::tally::Tally;
use crate::wrong::Wrong;
use codes::interface::Code;
use std::alloc::{AllocError, Global};

/// A code, and for each class of words the pattern of at most t flips that is of it, where there is one.
#[derive(Drop)]
pub struct Table<'a, C> {
    pub subject: &'a Subject<C>,
    patterns: Vec<Option<u64>>,
}

impl<'a, C: Code> Table<'a, C> {
    /// Puts each pattern of at most t flips at its class.
    pub fn of(heap: Global, subject: &'a Subject<C>) -> Result<Table<'a, C>, AllocError> {
        let plain = subject.plain;
        let mut patterns = vec![in heap; None; 1 << plain.class_bits()]?;
        for pattern in plain.patterns(0..=plain.reach) {
            if let Some(slot) = patterns.get_mut(plain.class(pattern) as usize) {
                *slot = Some(pattern);
            }
        }
        Ok(Table { subject, patterns })
    }
}

impl<C: Code> Table<'_, C> {
    /// How many classes there are.
    pub fn classes(&self) -> usize {
        self.patterns.len()
    }

    /// One word of every class: the same one for each message, added to the message's codeword.
    pub fn each_class(&self, message: u64) -> Result<Tally, Wrong> {
        let codeword = self.subject.encode(message)?;
        Tally::of(
            self.patterns.iter().enumerate().map(|(class, expected)| self.subject.answer(
                codeword ^ self.subject.plain.word_of(class as u64),
                *expected,
            )),
        )
    }

    /// The answer to a word, by its class.
    fn answer(&self, word: u64) -> Result<Option<u64>, Wrong> {
        let class = self.subject.plain.class(word) as usize;
        let expected = self.patterns.get(class).copied().flatten();
        self.subject.answer(word, expected)
    }

    /// Every pattern of one flip too many on one codeword.
    pub fn further(&self, codeword: u64) -> Result<Tally, Wrong> {
        let plain = self.subject.plain;
        let flips = plain.reach + 1;
        Tally::of(
            plain
                .patterns(flips..=flips)
                .map(|pattern| self.answer(codeword ^ pattern)),
        )
    }
}
