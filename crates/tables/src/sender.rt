//! Sends a table as codewords, one for each of its messages.
ghost use Rattle.std.specs.Prelude.{◌≡◌, ℕ, ◌^◌, ◌<◌, true, length, OnOk, slice_index};
ghost use Rattle.codes.specs.Meaning.{Carries};
ghost use Rattle.tables.specs.Feed.{supply, joined};
ghost use Rattle.tables.specs.Sender.{Sent, OneSending};
ghost use Rattle.tables.specs.Stream.{Bytes, stream, message_at};

use crate::feed::Feed;
use crate::stream::Width;
use codes::fault::{Cause, Fault};
use codes::interface::Code;

/// The bits of a table's stream: the size, and then the bytes.
fn stream(table: &[u8]) -> Feed<'_, u8>
    requires short { length table.now < 65536 }
    ensures { result ≡ supply (joined 8 (stream table.now)) 8 }
{
    Feed::new(table, u8::BITS, table.len() as u64, u16::BITS)
}

/// The codeword of a message that fits, of a code in service.
fn codeword<C: Code>(code: &C, message: u64) -> u64
    requires serving { (C.means code.now).serves ≡ true }
    requires fits { message < 2 ^ (C.means code.now).k }
    ensures { Carries (C.means code.now) message result }
{
    code.encode(message).unwrap()
}

/// Writes the codewords of the first messages, as many as there are places.
fn write_words<C: Code>(code: &C, table: &[u8], width: Width, words: &mut [u64])
    requires serving { (C.means code.now).serves ≡ true }
    requires width { width.bits ≡ (C.means code.now).k }
    requires short { length table.now < 65536 }
    ensures { (i : ℕ) → i < length words.new → Carries (C.means code.now) (message_at width.bits table.now i) (slice_index words.new i) }
{
    let mut messages = stream(table);
    for word in words.iter_mut() {
        *word = codeword(code, messages.draw(width.bits));
    }
}

/// What a lawful code means leaves exactly one answer and one list, whatever the code is made of.
fn one_sending()
    ensures { OneSending }
{}

/// Sends a table: writes the codeword of each of its messages, and answers how many. A refusal leaves the list as it was.
pub fn send<C: Code>(code: &C, table: &[u8], words: &mut [u64]) -> Result<usize, Fault>
    ensures sent { Sent (C.means code.now) table.now words.old result words.new }
    ensures one { OneSending }
    ensures bytes { OnOk result (Bytes table.now) }
{
    one_sending();
    let width = Width::of(code)?;
    if !width.fits(table.len()) {
        return Err(Fault::new(Cause::TableTooLong));
    }
    let count = width.messages_for(table.len() as u16);
    if words.len() < count {
        return Err(Fault::new(Cause::TooShort));
    }
    write_words(code, table, width, &mut words[..count]);
    Ok(count)
}
