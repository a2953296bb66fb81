//! Every syndrome class, and samples of words, against a decoder that tries all patterns: once for all classes, and anew for each word of a sample.
use crate::Survey;
use crate::patterns::{SEED, low_ones, mixed};
use crate::subject::Subject;
use crate::table::Table;
use crate::tally::Tally;
use crate::wrong::Wrong;
use codes::interface::Code;
use std::iter;

/// Mixed words.
fn each_sample<C: Code>(subject: &Subject<C>, samples: usize) -> Result<Tally, Wrong> {
    let plain = &subject.plain;
    let bits = low_ones(plain.bits());
    Tally::of(
        iter::successors(Some(mixed(SEED)), |word| Some(mixed(*word)))
            .take(samples)
            .map(|word| word & bits)
            .map(|word| subject.answer(word, plain.nearest(word))),
    )
}

impl<R: Print + Eprint + AllocGlobal> Survey<'_, R> {
    /// Some words of every class.
    pub fn classes<C: Code>(&mut self, subject: &Subject<C>) -> anyhow::Result<()> {
        let plain = subject.plain;
        eprintln!(self.rt; "{plain}: syndrome classes")?;
        let table = Table::of(self.rt.alloc(), subject)?;
        let count = table.classes();
        let codewords = plain.codewords(self.size.few);
        let plural = if codewords == 1 { "" } else { "s" };
        let mut tally = Tally::default();
        for index in 0..codewords {
            tally = table.each_class(plain.message_of_few(index))?;
            self.count(tally.words);
        }
        let refused = tally.refused;
        println!(self.rt;
            "{plain}: {count} syndrome classes, {codewords} word{plural} of each: {refused} refused, as the brute-force decoder says"
        )?;
        Ok(())
    }
}

impl<R: Print + Eprint> Survey<'_, R> {
    /// A sample of mixed words.
    pub fn sample<C: Code>(&mut self, subject: &Subject<C>) -> anyhow::Result<()> {
        let plain = subject.plain;
        eprintln!(self.rt; "{plain}: mixed words")?;
        let Tally { words, refused } = each_sample(subject, self.size.samples_of(plain.name))?;
        println!(self.rt;
            "{plain}: {words} mixed words: {refused} refused, as the brute-force decoder says"
        )?;
        self.count(words);
        Ok(())
    }
}
