//! The line that is being read. Memory does not grow with its length: of a long line only the front is kept.
ghost use Rattle.std.specs.Prelude.{◌≡◌, ◌≤◌, length};

/// How many bytes are kept: one more than the longest line that has a form.
const ROOM: usize = 18;

/// The front of a line, as far as it was read.
// An `ArrayVec` is not `Copy`, and callers may copy the line. The model of a `Copy` type has to tell every field, so it would tell the spare bytes too.
#[derive(Clone, Copy)]
pub struct PartialLine {
    bytes: [u8; ROOM],
    count: usize,
    ghost ok: { (count ≤ 18) × (length bytes ≡ 18) },
}

impl PartialLine {
    ghost use Rattle.std.specs.Prelude.{◌≡◌, [], ◌∷◌, ◌++◌, length, take, ◌==◌};
    ghost use Rattle.listings.specs.Partial.{kept_in, FrontTells};

    /// The front of a line tells what the line stands for. It does nothing but say so.
    fn front_tells()
        ensures { FrontTells }
    {}

    /// A line of which nothing was read.
    pub fn new() -> PartialLine
        ensures { kept_in result ≡ [] }
    {
        PartialLine {
            bytes: [0; ROOM],
            count: 0,
        }
    }

    /// Reads one byte more of the line. Past the room it is not kept.
    #[tactic(auto, using(crate::proofs::Fronts::kept_more, crate::proofs::Fronts::kept_full))]
    pub fn push(&mut self, byte: u8)
        ensures { kept_in self.new ≡ take 18 (kept_in self.old ++ byte ∷ []) }
    {
        if self.count < ROOM {
            self.bytes[self.count] = byte;
            self.count += 1;
        }
    }

    /// Whether nothing was read.
    pub fn is_empty(&self) -> bool
        ensures { result ≡ (length (kept_in self.now) == 0) }
    {
        self.line().is_empty()
    }

    /// The front of the line. It stands for what the whole line stands for.
    pub fn line(&self) -> &[u8]
        ensures front { result.now ≡ kept_in self.now }
        ensures law { FrontTells }
    {
        PartialLine::front_tells();
        &self.bytes[..self.count]
    }
}
