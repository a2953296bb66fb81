//! How a record is laid out.
ghost use Rattle.std.specs.Prelude.{◌≡◌, ◌+◌, ◌^◌, ◌<◌, ◌⊎◌, length, MatchOption};
ghost use Rattle.records.specs.Layout.{kind_number, kind_of, two_at, CutShort, HalfEntry};
ghost use Rattle.records.specs.Steps.{Begins, of_times};

/// What a record is about.
#[derive(Clone, Copy, PartialEq, Eq, Debug)]
pub enum Kind {
    /// The travel time to each floor.
    Travel,
    /// The time that the doors stay open at each floor.
    Door,
    /// Something that this library passes over.
    Other(u16),
}

impl Kind {
    /// Whether records of this kind hold times, of two bytes each.
    fn holds_times(self) -> bool
        ensures { result ≡ of_times self }
    {
        matches!(self, Kind::Travel | Kind::Door)
    }
}

/// The kind of a number.
impl From<u16> for Kind {
    ghost from_gives = { λ number kind. kind ≡ kind_of number };

    fn from(number: u16) -> Kind {
        match number {
            1 => Kind::Travel,
            2 => Kind::Door,
            _ => Kind::Other(number),
        }
    }
}

/// The number by which a kind is known in a table.
impl From<Kind> for u16 {
    ghost from_gives = { λ kind number. number ≡ kind_number kind };

    fn from(kind: Kind) -> u16 {
        match kind {
            Kind::Travel => 1,
            Kind::Door => 2,
            Kind::Other(number) => number,
        }
    }
}

/// How many bytes stand before a payload: its length and the number of its kind.
const HEAD: usize = 4;

/// A record: its kind, the place of its first byte, and its payload, which is a part of the table's bytes.
#[derive(Clone, Copy, PartialEq, Eq, Debug)]
pub struct Record<'a> {
    pub kind: Kind,
    pub place: usize,
    pub payload: &'a [u8],
}

impl<'a> Record<'a> {
    /// The record that bytes begin with, where the first of them stands at a place; absent if it is faulty.
    #[tactic(auto, using(crate::proofs::Framing::begins, crate::proofs::Framing::times_of))]
    pub(crate) fn at_front(bytes: &'a [u8], place: usize) -> Option<Record<'a>>
        ensures { MatchOption result (CutShort bytes.now ⊎ HalfEntry bytes.now) (Begins bytes.now place) }
    {
        let [_, _, _, _, rest @ ..] = bytes else {
            return None;
        };
        let size = number_at(bytes, 0);
        let payload = rest.get(..usize::from(size))?;
        let kind = Kind::from(number_at(bytes, 2));
        if kind.holds_times() && size % 2 == 1 {
            return None;
        }
        Some(Record {
            kind,
            place,
            payload,
        })
    }

    /// The place behind the record.
    pub(crate) fn end(self) -> usize
        requires { self.place + 4 + length self.payload.now < 2 ^ 64 }
        ensures { result ≡ self.entry.place + 4 + length self.entry.payload.now }
    {
        self.place + HEAD + self.payload.len()
    }
}

/// The number in the two bytes at a place, the lower one first.
// A function of its own, in which the two bytes are read at once: where a record is taken apart they are read one by one, since the lower one alone says whether the number is odd.
fn number_at(bytes: &[u8], at: usize) -> u16
    requires { at + 1 < length bytes.now }
    ensures { result ≡ two_at bytes.now at }
{
    u16::from_le_bytes([bytes[at], bytes[at + 1]])
}
