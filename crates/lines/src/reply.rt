//! Replies, and their text.
ghost use Rattle.std.specs.Prelude.{◌≡◌, ◌≤◌, length};
ghost use Rattle.codes.specs.declared.fault.Cause.TheVariants.{TooShort};
ghost use Rattle.codes.specs.declared.fault.Layer.TheVariants.{Table};
ghost use Rattle.codes.specs.Fault.{fault};
ghost use Rattle.lines.specs.Number.{Plain};
ghost use Rattle.lines.specs.Reply.{reply_words, Written, OneWriting, Told};

use crate::line::Line;
use codes::fault::{Cause, Fault, Layer};
use link::receiver::Answer;

/// The answer to a line.
// Not `Answered(Answer)`: a reply is matched in one step, and two of its four kinds answer no word.
#[derive(Clone, Copy, PartialEq, Eq, Debug)]
pub enum Reply {
    /// The word settled its place.
    Settled {
        place: usize,
        message: u64,
        pattern: u64,
    },
    /// The word left a gap.
    Gap {
        place: usize,
    },
    /// Every place was taken away.
    Cleared,
    /// The line or its command was refused.
    Refused(Cause),
}

impl From<Answer> for Reply {
    ghost use Rattle.std.specs.Prelude.{◌≡◌};
    ghost use Rattle.lines.specs.Reply.{reply_to};

    ghost from_gives = { λ answer reply. reply ≡ reply_to answer };

    fn from(answer: Answer) -> Reply {
        match answer {
            Answer::Settled {
                place,
                message,
                pattern,
            } => Reply::Settled {
                place,
                message,
                pattern,
            },
            Answer::Gap { place } => Reply::Gap { place },
        }
    }
}

impl From<Fault> for Reply {
    ghost use Rattle.std.specs.Prelude.{◌≡◌};
    ghost use Rattle.lines.specs.declared.reply.Reply.TheVariants.{Refused};

    ghost from_gives = { λ fault reply. reply ≡ Refused fault.cause };

    fn from(fault: Fault) -> Reply {
        Reply::Refused(fault.cause)
    }
}

impl Reply {
    /// The reply without its line feed.
    fn words(self) -> Line
        ensures text { result ≡ reply_words self }
        ensures short { length result ≤ 57 }
    {
        match self {
            Reply::Settled {
                place,
                message,
                pattern,
            } => {
                let mut line = Line::of_place(b"OK", place);
                line.hexadecimal(message);
                line.hexadecimal(pattern);
                line
            }
            Reply::Gap { place } => Line::of_place(b"GAP", place),
            Reply::Cleared => Line::of(b"CLEAR"),
            Reply::Refused(cause) => {
                let mut line = Line::of(b"NO");
                line.decimal(u64::from(cause.number()));
                line
            }
        }
    }

    /// Writes the reply's line to the front of the buffer, and answers its length. A refusal leaves the buffer as it was.
    pub fn write(self, buffer: &mut [u8]) -> Result<usize, Fault>
        ensures written { Written self buffer.old result buffer.new }
        ensures one { OneWriting }
        ensures told { Told }
        ensures plain { Plain }
    {
        one_writing();
        let mut line = self.words();
        line.end();
        let text = line.as_slice();
        if buffer.len() < text.len() {
            return Err(too_short());
        }
        buffer[..text.len()].copy_from_slice(text);
        Ok(text.len())
    }
}

/// The refusal of a buffer that is too short for a line: the one 9 that belongs to the layer of the listing.
pub fn too_short() -> Fault
    ensures { result ≡ fault TooShort Table 0 }
{
    Fault {
        layer: Layer::Table,
        ..Fault::new(Cause::TooShort)
    }
}

/// A reply leaves a buffer one outcome, and is told from every other by its line; its numbers are written plainly. It does nothing but say so.
fn one_writing()
    ensures one { OneWriting }
    ensures told { Told }
    ensures plain { Plain }
{}
