//! Spells out the table that a list of messages holds.
ghost use Rattle.std.specs.Prelude.{◌≡◌, ◌/◌, ◌%◌, ◌<◌, length, MatchBool, MatchOption};
ghost use Rattle.tables.specs.Feed.{supply, joined, past_end, Below, NoTable, Sized};
ghost use Rattle.tables.specs.Speller.{TableOf, Spelled, OneSpelling};
ghost use Rattle.tables.specs.Stream.{messages_for};

use crate::feed::Feed;
use crate::stream::Width;
use codes::fault::{Cause, Fault};
use codes::interface::{Code, fits_in};

/// Messages of at most `width` bits each.
#[derive(Clone, Copy)]
struct Messages<'a> {
    list: &'a [u64],
    width: Width,
    ghost below: { Below width.bits list.now },
}

/// The size that the first two bytes of a stream tell, and the bytes after them.
#[derive(Drop)]
struct Header<'a> {
    size: u16,
    bytes: Feed<'a, u64>,
}

impl<'a> Messages<'a> {
    /// The messages, or `None` where one is too wide to be a table's.
    #[tactic(auto, using(crate::proofs::Spelling::too_wide))]
    fn fitting(list: &'a [u64], width: Width) -> Option<Messages<'a>>
        ensures { MatchOption result (NoTable width.bits list.now) (λ messages. (messages.list.now ≡ list.now) × (messages.width ≡ width)) }
    {
        // Tried with `then`: inside its closure it is not known that each message fits, as the value's ghost field asks.
        if list.iter().all(|message| fits_in(*message, width.bits)) {
            Some(Messages { list, width })
        } else {
            None
        }
    }

    /// Reads the size.
    fn header(&self) -> Header<'a>
        ensures size { result.size ≡ joined self.now.width.bits self.now.list.now % 65536 }
        ensures bytes { result.bytes ≡ supply (joined self.now.width.bits self.now.list.now / 65536) self.now.width.bits }
    {
        let mut stream = Feed::new(self.list, self.width.bits, 0, 0);
        let size = stream.draw(u16::BITS) as u16;
        Header {
            size,
            bytes: stream,
        }
    }

    /// Whether the bits past the end of the stream are 0. All of them are in the last message.
    #[tactic(auto, using(crate::proofs::Spelling::last_filling, crate::proofs::Spelling::when_nothing_above))]
    fn is_filled(&self, size: u16) -> bool
        requires { length self.now.list.now ≡ messages_for self.now.width.bits size }
        ensures { MatchBool result (past_end self.now.width.bits self.now.list.now size ≡ 0) (0 < past_end self.now.width.bits self.now.list.now size) }
    {
        let used = self.width.bits_in_last(size);
        self.list.last().is_some_and(|last| fits_in(*last, used))
    }

    /// The size of the table that has these messages, or `None` where no table has them.
    #[tactic(auto, using(crate::proofs::Spelling::sized_if_filled, crate::proofs::Spelling::no_table))]
    fn table_size(&self) -> Option<u16>
        ensures { MatchOption result (NoTable self.now.width.bits self.now.list.now) (Sized self.now.width.bits self.now.list.now) }
    {
        let size = self.header().size;
        if self.list.len() != self.width.messages_for(size) {
            return None;
        }
        self.is_filled(size).then_some(size)
    }

    /// Writes the bytes of the table.
    fn write(&self, table: &mut [u8])
        requires { Sized self.now.width.bits self.now.list.now (length table.old) }
        ensures { TableOf self.now.width.bits self.now.list.now table.new }
    {
        let mut bytes = self.header().bytes;
        for byte in table.iter_mut() {
            *byte = bytes.draw(u8::BITS) as u8;
        }
    }
}

/// What a lawful code means leaves exactly one answer and one buffer, whatever the code is made of.
fn one_spelling()
    ensures { OneSpelling }
{}

/// Spells out the table that has these messages: writes its bytes, and answers how many. A refusal leaves the buffer as it was.
pub fn spell<C: Code>(code: &C, messages: &[u64], buffer: &mut [u8]) -> Result<usize, Fault>
    ensures spelled { Spelled (C.means code.now) messages.now buffer.old result buffer.new }
    ensures one { OneSpelling }
{
    one_spelling();
    let width = Width::of(code)?;
    let not_a_table = Fault::new(Cause::NotATable);
    let messages = Messages::fitting(messages, width).ok_or(not_a_table)?;
    let size = usize::from(messages.table_size().ok_or(not_a_table)?);
    if buffer.len() < size {
        return Err(Fault::new(Cause::TooShort));
    }
    messages.write(&mut buffer[..size]);
    Ok(size)
}
