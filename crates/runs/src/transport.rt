//! Carrying a table over a noisy line, from its bytes to its bytes.
ghost use Rattle.std.specs.Prelude.{◌≡◌, [], length, MatchResult, slice_index};
ghost use Rattle.link.specs.Report.{places_of};
ghost use Rattle.runs.specs.Steps.{Arriving, Stopped};
ghost use Rattle.runs.specs.Transport.{Carried, Arrives};

use codes::fault::Fault;
use codes::interface::Code;
use link::receiver::Receiver;
use tables::sender::send;

/// The most words that a table is sent as.
const ROOM: usize = 256;

/// The bits that are turned over in a word; none where there is no pattern for it.
fn pattern_at(patterns: &[u64], i: usize) -> u64
    ensures { result ≡ slice_index patterns.now i }
{
    patterns.get(i).copied().unwrap_or(0)
}

/// Offers the words in order, each with its bits turned over, and stops at the first that is refused.
// No `zip`: where the patterns end, the words go on, and zeros chained behind them without end are no plainer than `pattern_at`.
#[tactic(auto, using(crate::proofs::Carrying::arriving_none))]
fn offer_all<C: Code>(
    receiver: &mut Receiver<C>,
    words: &[u64],
    patterns: &[u64],
) -> Result<(), Fault>
    requires { places_of receiver.old.report ≡ [] }
    ensures same { receiver.new.code ≡ receiver.old.code }
    ensures heard { MatchResult result (λ _. Arriving (C.means receiver.old.code) words.now patterns.now (length words.now) (places_of receiver.new.report)) (Stopped (C.means receiver.old.code) words.now patterns.now) }
{
    for (i, word) in words.iter().enumerate() {
        receiver.offer(*word ^ pattern_at(patterns, i))?;
    }
    Ok(())
}

/// Sends a table, turns over the bits of the pattern in each word, offers the words in order to a new receiver, seals it and spells.
// Its parameters are those of a `Trip`, side by side, as a program that carries one table has them.
pub fn carry<C: Code + Drop>(
    code: C,
    table: &[u8],
    patterns: &[u64],
    buffer: &mut [u8],
) -> Result<usize, Fault>
    ensures carried { Carried (C.means code) table.now patterns.now buffer.old result buffer.new }
    ensures arrives { Arrives (C.means code) table.now patterns.now buffer.old result buffer.new }
{
    // No heap: the words are written into an array, and their count is the answer.
    let mut words = [0; ROOM];
    let count = send(&code, table, &mut words)?;
    let mut receiver = Receiver::new(code);
    offer_all(&mut receiver, &words[..count], patterns)?;
    receiver.seal().spell(buffer)
}
