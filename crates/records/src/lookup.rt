//! Finds a floor's time in a table.
ghost use Rattle.std.specs.Prelude.{◌≡◌};
ghost use Rattle.std.specs.List.{slice_get};
ghost use Rattle.records.specs.Lookup.{entries, LookedUp, Entry};
ghost use Rattle.records.specs.Steps.{FirstOf};

use crate::layout::{Kind, Record};
use crate::reader::Reader;
use codes::fault::Fault;

/// The first record of a kind. What stands behind it is not looked at.
// Inlined, so that each of its calls is compiled for a kind that is known.
#[inline(always)]
fn first_of(bytes: &[u8], kind: Kind) -> Result<Option<Record<'_>>, Fault>
    ensures { FirstOf bytes.now kind result }
{
    let mut reader = Reader::new(bytes);
    while let Some(record) = reader.next()? {
        // By number, since `Kind::Other` can hold the number of a named kind.
        if u16::from(record.kind) == u16::from(kind) {
            return Ok(Some(record));
        }
    }
    Ok(None)
}

/// The entry of a floor in a payload, absent past the last one.
#[tactic(auto, using(crate::proofs::Entries::entry_past))]
fn entry(payload: &[u8], floor: u32) -> Option<u16>
    ensures { result ≡ slice_get (entries payload.now) floor }
{
    let (entries, _) = payload.as_chunks();
    let entry = entries.get(floor as usize)?;
    Some(u16::from_le_bytes(*entry))
}

/// The time of a floor, in tenths of a second, by the first record of a kind: the travel time to it, or how long the doors
/// stay open there. Floor 0 is the lowest stop. Absent where the table does not have it.
#[tactic(auto, using(crate::proofs::EntryLaw::entry_law))]
pub fn time_of(bytes: &[u8], kind: Kind, floor: u32) -> Result<Option<u16>, Fault>
    ensures time { LookedUp kind bytes.now floor result }
    ensures law { Entry kind }
{
    // A case for each kind of times: the walk over the records takes a third longer where its kind is not known.
    let record = match kind {
        Kind::Travel => first_of(bytes, Kind::Travel),
        Kind::Door => first_of(bytes, Kind::Door),
        Kind::Other(_) => first_of(bytes, kind),
    }?;
    Ok(record.and_then(|record| entry(record.payload, floor)))
}
