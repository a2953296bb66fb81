//! Words whose codewords are known beforehand.
#![tactic(auto)]

ghost use Rattle.std.specs.Prelude.{◌≡◌, length};
ghost use Rattle.words.specs.Words.{Stand, words};

const WORDS: usize = 13;

/// How many words are in the table that is proved. Each row of it is an answer of its code.
#[tactic(auto, using(crate::proofs::Table::all_stand))]
pub fn checked_words() -> usize
    ensures value { result ≡ length words }
    ensures stand { Stand words }
{
    WORDS
}

#[cfg(test)]
mod tests;
