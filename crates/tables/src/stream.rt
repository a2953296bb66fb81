//! How a table is laid out in messages.
ghost use Rattle.std.specs.Prelude.{◌≡◌, ◌+◌, ◌-◌, ◌*◌, ◌%◌, ◌<◌, ◌≤◌, MatchBool, [], ◌∷◌};
ghost use Rattle.codes.specs.Fault.{Outcome};
ghost use Rattle.codes.specs.Interface.{in_service};
ghost use Rattle.tables.specs.Sender.{has_bits};
ghost use Rattle.tables.specs.Stream.{messages_for};

use codes::fault::{Cause, Fault};
use codes::interface::Code;

/// How many bits a message has.
#[derive(Clone, Copy)]
pub(crate) struct Width {
    pub(crate) bits: u32,
    ghost some: { 0 < bits },
    ghost narrow: { bits ≤ 42 },
}

impl Width {
    /// The width of the messages of a code.
    pub(crate) fn of<C: Code>(code: &C) -> Result<Width, Fault>
        ensures { Outcome (in_service (C.means code.now) 0 ∷ has_bits (C.means code.now) ∷ []) (λ width. width.bits ≡ (C.means code.now).k) result }
    {
        let bits = code.shape()?.message_bits;
        if bits == 0 {
            return Err(Fault::new(Cause::NoMessageBits));
        }
        Ok(Width { bits })
    }

    /// How many messages hold the stream of a table.
    pub(crate) fn messages_for(self, size: u16) -> usize
        ensures { result ≡ messages_for self.bits size }
    {
        (8 * (usize::from(size) + 2)).div_ceil(self.bits as usize)
    }

    /// How many bits of the stream are in the last message.
    pub(crate) fn bits_in_last(self, size: u16) -> u32
        ensures { result ≡ (8 * (size + 2) - 1) % self.bits + 1 }
    {
        (8 * (u32::from(size) + 2) - 1) % self.bits + 1
    }

    /// The size of the longest table that 256 messages hold: they have 32 bytes for each bit of one.
    fn longest_table(self) -> usize
        ensures { result + 2 ≡ 32 * self.bits }
    {
        32 * self.bits as usize - 2
    }

    /// Whether 256 messages hold the stream of a table.
    #[tactic(auto, using(crate::proofs::Counts::fits_by_size))]
    pub(crate) fn fits(self, size: usize) -> bool
        ensures { MatchBool result (messages_for self.bits size ≤ 256) (256 < messages_for self.bits size) }
    {
        size <= self.longest_table()
    }
}
