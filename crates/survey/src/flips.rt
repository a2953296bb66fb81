//! Every pattern of at most t flips, and every pattern of one flip more.
use crate::Survey;
use crate::subject::Subject;
use crate::table::Table;
use crate::tally::Tally;
use crate::wrong::Wrong;
use codes::interface::Code;

/// Every pattern of at most t flips on one codeword.
fn around<C: Code>(subject: &Subject<C>, message: u64) -> Result<Tally, Wrong> {
    let codeword = subject.encode(message)?;
    let plain = &subject.plain;
    Tally::of(
        plain.patterns(0..=plain.reach).map(|pattern| subject.answer(
            codeword ^ pattern,
            Some(pattern),
        )),
    )
}

impl<R: Print + Eprint> Survey<'_, R> {
    /// Every pattern of at most t flips on some codewords.
    pub fn within_reach<C: Code>(&mut self, subject: &Subject<C>) -> anyhow::Result<()> {
        let plain = subject.plain;
        let reach = plain.reach;
        eprintln!(self.rt; "{plain}: patterns of at most {reach} flips")?;
        let codewords = plain.codewords(self.size.codewords);
        let plural = if codewords == 1 { "" } else { "s" };
        // As in `classes`: two loops of three lines, with another step and another text.
        let mut tally = Tally::default();
        for index in 0..codewords {
            tally = around(subject, plain.message_at(index))?;
            self.count(tally.words);
        }
        let patterns = tally.words;
        println!(self.rt;
            "{plain}: {patterns} patterns of at most {reach} flips on {codewords} codeword{plural}: all corrected"
        )?;
        Ok(())
    }
}

impl<R: Print + Eprint + AllocGlobal> Survey<'_, R> {
    /// Every pattern of t+1 flips on the codeword of one message.
    fn beyond_reach_of<C: Code>(
        &mut self,
        table: &Table<'_, C>,
        message: u64,
    ) -> anyhow::Result<()> {
        let plain = table.subject.plain;
        let flips = plain.reach + 1;
        let codeword = table.subject.encode(message)?;
        let Tally { words, refused } = table.further(codeword)?;
        let near = words.saturating_sub(refused);
        println!(self.rt;
            "{plain}: {words} patterns of {flips} flips on codeword {codeword:x}: {refused} refused, {near} within reach of another codeword"
        )?;
        self.count(words);
        Ok(())
    }

    /// Every pattern of t+1 flips on some codewords.
    pub fn beyond_reach<C: Code>(&mut self, subject: &Subject<C>) -> anyhow::Result<()> {
        let plain = subject.plain;
        eprintln!(self.rt; "{plain}: patterns of one flip too many")?;
        let table = Table::of(self.rt.alloc(), subject)?;
        for index in 0..self.size.few {
            self.beyond_reach_of(&table, plain.message_of_few(index))?;
        }
        Ok(())
    }
}
