//! A listing that is open: each line is a command, and gets a line for its answer.
ghost use Rattle.std.specs.Prelude.{◌≡◌, ◌≤◌, [], ◌∷◌, length};
ghost use Rattle.codes.specs.Fault.{Outcome};
ghost use Rattle.lines.specs.Command.{Grammar};
ghost use Rattle.lines.specs.Heading.{Headings};
ghost use Rattle.lines.specs.Reply.{reply_text};
ghost use Rattle.listings.specs.Choice.{named};
ghost use Rattle.listings.specs.Conversation.{KeepsBook};
ghost use Rattle.listings.specs.Listing.{meaning_in, places_in, flips_in, held_in, Opens};
ghost use Rattle.listings.specs.Line.{Replied, line_fits, Lined, OneLine, Thirteen, Refusals};
ghost use Rattle.listings.specs.Steps.{reply_for};

use crate::choice::Choice;
use codes::fault::Fault;
use lines::command::read_command;
use lines::heading::{Heading, read_heading};
use lines::reply::{Reply, too_short};
use link::receiver::Receiver;
use runs::calls::Call;

/// The receiver that the lines speak to.
#[derive(Drop)]
pub struct Listing {
    receiver: Receiver<Choice>,
}

/// How many bytes a buffer has to have. No reply takes more than 31.
pub const ROOM: usize = 32;

impl Listing {
    /// A listing that has heard nothing, over the code that a heading names.
    fn over(heading: Heading) -> Listing
        ensures code { meaning_in result ≡ named heading }
        ensures places { places_in result ≡ [] }
        ensures flips { flips_in result ≡ [] }
    {
        Listing {
            receiver: Receiver::new(Choice::from(heading)),
        }
    }

    /// Opens a listing over the code that its first line names.
    pub fn open(line: &[u8]) -> Result<Listing, Fault>
        ensures opens { Opens line.now result }
        ensures law { Headings }
    {
        let heading = read_heading(line)?;
        Ok(Listing::over(heading))
    }

    /// Carries out the command that a line stands for.
    // That the code stays is said by each call that changes the listing: an invariant speaks of one state, not of two.
    fn carry_out(&mut self, line: &[u8]) -> Result<Reply, Fault>
        ensures replied { Replied (meaning_in self.old) line.now (held_in self.old) (reply_for result) (held_in self.new) }
        ensures same { self.new.receiver.code ≡ self.old.receiver.code }
    {
        let reply = match read_command(line)? {
            Call::Offer { word } => self.receiver.offer(word)?.into(),
            Call::Repeat { place, word } => self.receiver.repeat(place, word)?.into(),
            Call::Clear => {
                self.receiver.clear();
                Reply::Cleared
            }
        };
        Ok(reply)
    }

    /// The reply to a line, which is always short.
    fn answer(&mut self, line: &[u8]) -> Reply
        ensures replied { Replied (meaning_in self.old) line.now (held_in self.old) result (held_in self.new) }
        ensures same { self.new.receiver.code ≡ self.old.receiver.code }
        ensures short { length (reply_text result) ≤ 31 }
    {
        self.carry_out(line).unwrap_or_else(Reply::from)
    }

    /// Answers a line, without its line feed: writes the reply to the front of the buffer, with its line feed, and answers its length.
    pub fn line(&mut self, line: &[u8], buffer: &mut [u8]) -> Result<usize, Fault>
        ensures lined { Lined (meaning_in self.old) line.now (held_in self.old, buffer.old) result (held_in self.new, buffer.new) }
        ensures same { self.new.receiver.code ≡ self.old.receiver.code }
        ensures grammar { Grammar }
        ensures one { OneLine }
        ensures thirteen { Thirteen }
        ensures refusals { Refusals }
        ensures book { KeepsBook }
    {
        line_laws();
        check_room(buffer)?;
        self.answer(line).write(buffer)
    }
}

/// Refuses a buffer that has no room for every reply.
fn check_room(buffer: &[u8]) -> Result<(), Fault>
    ensures { Outcome (line_fits buffer.now ∷ []) (λ _. Unit {0}) result }
{
    if buffer.len() < ROOM {
        return Err(too_short());
    }
    Ok(())
}

/// Each line has one reading, and leaves one answer, one report and one buffer; whole conversations keep to the book. It does nothing but say so.
fn line_laws()
    ensures grammar { Grammar }
    ensures one { OneLine }
    ensures thirteen { Thirteen }
    ensures refusals { Refusals }
    ensures book { KeepsBook }
{}
