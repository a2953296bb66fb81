//! The search for a pattern of at most t flips with a given syndrome.
ghost use Rattle.std.specs.Prelude.{◌^◌, ◌<◌};
ghost use Rattle.cyclic.specs.Generator.{numbers, parity_bits};

use super::Cyclic;

/// A code, and the syndrome that a pattern is searched for.
#[derive(Clone, Copy)]
pub(super) struct Search<'a> {
    pub(super) code: &'a Cyclic,
    pub(super) syndrome: u64,
    ghost below: { syndrome < 2 ^ parity_bits (numbers code.now.generator) },
}

impl Search<'_> {
    ghost use Rattle.std.specs.Prelude.{MatchOption};
    ghost use Rattle.cyclic.specs.Sought.{Sought, NoSingle, NoPair, NoneWithFew, NoneWithMany, NoneAtAll};

    /// A pattern with one flip among the message bits.
    fn one_message_flip(&self) -> Option<u64>
        ensures { MatchOption result (NoSingle self.now) (Sought self.now) }
    {
        let code = self.code;
        let syndrome = self.syndrome;
        let reach = code.generator.t;
        let rows = code.message_rows();
        let i = rows
            .iter()
            .position(|row| (syndrome ^ row).count_ones() < reach)?;
        Some(syndrome ^ rows[i] ^ code.message_flip(i))
    }

    /// A pattern with two flips among the message bits. The first pair that is light enough ends the search.
    fn two_message_flips(&self) -> Option<u64>
        ensures { MatchOption result (NoPair self.now) (Sought self.now) }
    {
        let code = self.code;
        let most = code.generator.t.checked_sub(2)?;
        let rows = code.message_rows();
        let mut found = None;
        // A rule of this project: the search over pairs is left from inside by a label.
        'pairs: for (i, first) in rows.iter().enumerate() {
            let one = self.syndrome ^ first;
            for (j, second) in rows[i + 1..].iter().enumerate() {
                let two = one ^ second;
                if two.count_ones() <= most {
                    found = Some(two ^ code.message_flip(i + 1 + j) ^ code.message_flip(i));
                    break 'pairs;
                }
            }
        }
        found
    }

    /// A pattern with at most two flips among the message bits.
    fn few_message_flips(&self) -> Option<u64>
        ensures { MatchOption result (NoneWithFew self.now) (Sought self.now) }
    {
        if self.syndrome.count_ones() <= self.code.generator.t {
            return Some(self.syndrome);
        }
        // Tried with `or_else`: the proof knows nothing of a call inside its closure, which holds the `Search`.
        if let Some(pattern) = self.one_message_flip() {
            return Some(pattern);
        }
        self.two_message_flips()
    }

    /// The same, searched for in the word rotated: flips that are mostly in message bits are mostly in parity bits there.
    fn many_message_flips(&self) -> Option<u64>
        ensures { MatchOption result (NoneWithMany self.now) (Sought self.now) }
    {
        let code = self.code;
        let shifted = self.syndrome << code.generator.parity_bits();
        let rotated = Search {
            code,
            syndrome: code.generator.remainder(shifted),
        };
        rotated
            .few_message_flips()
            .map(|pattern| code.rotate_back(pattern))
    }

    /// A pattern of at most t flips with this syndrome, or `None` where there is none.
    pub(super) fn pattern(&self) -> Option<u64>
        ensures { MatchOption result (NoneAtAll self.now) (Sought self.now) }
    {
        // Tried with `or_else`, as above.
        if let Some(pattern) = self.few_message_flips() {
            return Some(pattern);
        }
        self.many_message_flips()
    }
}
