//! Sending and receiving a table.
ghost use Rattle.std.specs.Prelude.{◌≡◌, Err};
ghost use Rattle.link.specs.Report.{places_of};
ghost use Rattle.listings.specs.Choice.{choice_means};
ghost use Rattle.tables.specs.Sender.{Sent};
ghost use Rattle.capi.specs.declared.boundary.Refusal.TheVariants.{UnknownCode};
ghost use Rattle.capi.specs.Transfer.{SendsOver, HeardAll, Received, ReceivesOver};
ghost use Rattle.capi.specs.Steps.{Over};

use crate::boundary::{Refusal, answer, pick};
use codes::fault::Fault;
use link::receiver::Receiver;
use listings::choice::Choice;
use tables::sender;

/// Sends a table into a list, by the code of a number, and how many words it is.
fn send(code: u32, table: &[u8], words: &mut [u64]) -> Result<usize, Refusal>
    ensures sent { Over (λ n. n) code (λ m r. Sent m table.now words.old r words.new) result }
    ensures kept { result ≡ Err UnknownCode → words.new ≡ words.old }
{
    Ok(sender::send(&pick(code)?, table, words)?)
}

/// Sends a table as codewords.
#[unsafe(no_mangle)]
pub extern "C" fn wz_send(code: u32, table: &[u8], words: &mut [u64], count: &mut usize) -> u32
    ensures { SendsOver code table.now (words.old, count.old) result (words.new, count.new) }
{
    answer(send(code, table, words), count)
}

/// Offers the words in order, and stops at the first that is refused.
// The loop of `runs` offers words of a line, each with its flips, and says what arrives; this one says what each offer answers.
fn offer_all(receiver: &mut Receiver<Choice>, words: &[u64]) -> Result<(), Fault>
    ensures same { receiver.new.code ≡ receiver.old.code }
    ensures heard { HeardAll (choice_means receiver.old.code) (places_of receiver.old.report) words.now result (places_of receiver.new.report) }
{
    for word in words {
        receiver.offer(*word)?;
    }
    Ok(())
}

/// Hears the words in a new receiver, and spells its report.
// Words and buffer go through three calls side by side, since C lends them side by side.
fn hear(code: Choice, words: &[u64], table: &mut [u8]) -> Result<usize, Fault>
    ensures { Received (choice_means code) words.now table.old result table.new }
{
    let mut receiver = Receiver::new(code);
    offer_all(&mut receiver, words)?;
    receiver.seal().spell(table)
}

/// Receives a table into a buffer, by the code of a number, and how many bytes it is.
fn receive(code: u32, words: &[u64], table: &mut [u8]) -> Result<usize, Refusal>
    ensures received { Over (λ n. n) code (λ m r. Received m words.now table.old r table.new) result }
    ensures kept { result ≡ Err UnknownCode → table.new ≡ table.old }
{
    Ok(hear(pick(code)?, words, table)?)
}

/// Receives a table: offers all words in order to a new receiver, stops at the first that is refused, then seals and spells.
#[unsafe(no_mangle)]
pub extern "C" fn wz_receive(code: u32, words: &[u64], table: &mut [u8], length: &mut usize) -> u32
    ensures { ReceivesOver code words.now (table.old, length.old) result (table.new, length.new) }
{
    answer(receive(code, words, table), length)
}
