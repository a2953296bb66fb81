//! Reads the records of a table, one after the other.
ghost use Rattle.std.specs.Prelude.{◌≡◌, ◌≤◌, length};
ghost use Rattle.records.specs.Layout.{ReadBack};
ghost use Rattle.records.specs.Reader.{ReadOn, Reading};

use crate::layout::Record;
use codes::fault::{Cause, Fault};

/// The bytes of a table, and the place of the next record.
#[derive(Clone, Copy)]
pub struct Reader<'a> {
    bytes: &'a [u8],
    at: usize,
    ghost inside: { at ≤ length bytes.now },
}

// A reader is no `Iterator`: a faulty record is refused again by each call, without end, and a `for` has to end.
impl<'a> Reader<'a> {
    /// A reader at the first byte.
    pub fn new(bytes: &'a [u8]) -> Reader<'a>
        ensures bytes { result.bytes.now ≡ bytes.now }
        ensures at { result.at ≡ 0 }
    {
        Reader { bytes, at: 0 }
    }

    /// The next record, or `None` behind the last. A faulty one is refused, and the reader stays before it.
    #[tactic(auto, using(crate::proofs::Meanings::reads_back, crate::proofs::Meanings::moved, crate::proofs::InTurn::reading))]
    pub fn next(&mut self) -> Result<Option<Record<'a>>, Fault>
        ensures read { ReadOn self.old.bytes.now self.old.at result self.new.at }
        ensures same { self.new.bytes ≡ self.old.bytes }
        ensures law { ReadBack }
        ensures reading { Reading }
    {
        let place = self.at;
        let left = &self.bytes[place..];
        if left.is_empty() {
            return Ok(None);
        }
        let refusal = Fault::new(Cause::BadRecord).at(place);
        let record = Record::at_front(left, place).ok_or(refusal)?;
        self.at = record.end();
        Ok(Some(record))
    }
}
