//! A floor table of twelve stops, and what is heard of its words.
ghost use Rattle.std.specs.Iterator.{IsFinite};

use crate::single::FIVE;
use arrayvec::ArrayVec;
use codes::fault::Fault;
use cyclic::Cyclic;
use cyclic::name::Name;
use link::receiver::Receiver;
use link::sealed::Sealed;
use tables::sender::send;

/// Travel times and door times, in tenths of a second.
pub const TABLE: [u8; 56] = [
    24, 0, 1, 0, 0, 0, 41, 0, 63, 0, 84, 0, 105, 0, 126, 0, 147, 0, 168, 0, 189, 0, 210, 0, 231, 0,
    252, 0, 24, 0, 2, 0, 55, 0, 40, 0, 35, 0, 35, 0, 35, 0, 35, 0, 35, 0, 35, 0, 35, 0, 35, 0, 35,
    0, 60, 0,
];

/// How many words the table takes.
pub const WORDS: usize = 23;

/// The word that the line spoils.
pub const SPOILED: usize = 17;

/// How many bytes a spelled table may have.
pub const ROOM: usize = 64;

/// A table that was spelled.
pub type Spelled = ArrayVec<u8, ROOM>;

/// What `spell` writes into a buffer, without what it leaves of the buffer.
pub fn spelled<F: FnOnce(&mut [u8]) -> Result<usize, Fault>>(spell: F) -> Result<Spelled, Fault>
    requires { F.IsAlwaysCallable spell }
{
    let mut buffer = [0; ROOM];
    let size = spell(&mut buffer)?;
    let mut table = Spelled::from(buffer);
    table.truncate(size);
    Ok(table)
}

/// A receiver that was offered these words, in order.
// The loop for C offers a list; here the words come from an iterator, with one spoiled or left out.
fn offered<I: Iterator<Item = u64> + Drop>(words: I) -> Result<Receiver<Cyclic>, Fault>
    requires can { I.can_next words }
    requires ends { IsFinite (I.remaining words) }
{
    let mut receiver = Receiver::new(Cyclic::of(Name::Q41));
    for word in words {
        receiver.offer(word)?;
    }
    Ok(receiver)
}

/// The words of the table, as they are sent.
#[derive(Drop)]
pub struct Words([u64; WORDS]);

impl Words {
    pub fn sent() -> Result<Words, Fault> {
        let mut words = [0; WORDS];
        send(&Cyclic::of(Name::Q41), &TABLE, &mut words)?;
        Ok(Words(words))
    }

    /// The spoiled word, as it was sent.
    pub fn spoiled(&self) -> u64 {
        self.0[SPOILED]
    }

    /// A receiver that was offered the words, with these bits turned over in the spoiled one.
    pub fn heard(&self, pattern: u64) -> Result<Receiver<Cyclic>, Fault> {
        offered(
            self.0.iter().enumerate().map(|(place, word)| {
                if place == SPOILED {
                    word ^ pattern
                } else {
                    *word
                }
            }),
        )
    }

    /// A receiver whose software drops the spoiled word.
    pub fn heard_without(&self) -> Result<Receiver<Cyclic>, Fault> {
        offered(
            self.0
                .iter()
                .enumerate()
                .filter(|(place, _)| *place != SPOILED)
                .map(|(_, word)| *word),
        )
    }

    /// A report whose gap was settled by a repeat.
    pub fn repaired_report(&self) -> Result<Sealed<Cyclic>, Fault> {
        let mut receiver = self.heard(FIVE)?;
        receiver.repeat(SPOILED, self.spoiled())?;
        Ok(receiver.seal())
    }
}
