//! Running lists of calls, and comparing two runs.
ghost use Rattle.std.specs.Prelude.{◌≡◌, ℕ, List, MatchBool, sum, ◌≢◌};
ghost use Rattle.link.specs.Report.{places_of, flips_of, settled_in};
ghost use Rattle.runs.specs.Book.{book, noted, Demanded, Tally};
ghost use Rattle.runs.specs.Law.{Runs};

use codes::interface::Code;
use link::receiver::Receiver;

/// A call on a receiver that may change its report.
// Calls are data and no closures: the law speaks of lists of them, and two lists can be compared.
#[derive(Clone, Copy, PartialEq, Eq, Debug)]
pub enum Call {
    Offer { word: u64 },
    Repeat { place: usize, word: u64 },
    Clear,
}

/// Makes one call, whether it is heard or refused.
fn make<C: Code>(receiver: &mut Receiver<C>, call: Call)
    ensures same { receiver.new.code ≡ receiver.old.code }
    ensures follows { (ws : List ℕ) →
        Demanded (C.means receiver.old.code) ws (places_of receiver.old.report) (flips_of receiver.old.report) →
        Demanded (C.means receiver.old.code) (noted (C.means receiver.old.code) ws call) (places_of receiver.new.report) (flips_of receiver.new.report) }
{
    match call {
        Call::Offer { word } => {
            let _ = receiver.offer(word);
        }
        Call::Repeat { place, word } => {
            let _ = receiver.repeat(place, word);
        }
        Call::Clear => receiver.clear(),
    }
}

/// A new receiver over the code, after the calls in their order.
#[tactic(auto, using(crate::proofs::Following::demanded_none, crate::proofs::Following::run_all, crate::proofs::Following::tallied))]
pub fn replay<C: Code>(code: C, calls: &[Call]) -> Receiver<C>
    ensures holds { result.code ≡ code }
    ensures places { Demanded (C.means code) (book (C.means code) calls.now) (places_of result.report) (flips_of result.report) }
    ensures tally { Tally (C.means code) (book (C.means code) calls.now) (settled_in (places_of result.report)) (sum (flips_of result.report)) }
{
    let mut receiver = Receiver::new(code);
    for call in calls {
        make(&mut receiver, *call);
    }
    receiver
}

/// Two runs, and whether their reports are equal.
// A field and no method: the comparison is made before the receivers are handed on, and its outcome is a clause.
#[derive(Drop)]
pub struct Comparison<C, D> {
    pub first: Receiver<C>,
    pub second: Receiver<D>,
    pub equal: bool,
}

/// Runs each list of calls on a new receiver of its own, and compares the reports.
// Code and calls side by side, as `replay` takes them: a caller with both at hand would make a `Run` for this one call.
pub fn compare<C: Code, D: Code>(
    one: C,
    calls: &[Call],
    other: D,
    others: &[Call],
) -> Comparison<C, D>
    ensures law { Runs (C.means one) (D.means other) calls.now others.now (places_of result.first.report) (flips_of result.first.report) (places_of result.second.report) (flips_of result.second.report) }
    ensures codes { (result.first.code ≡ one) × (result.second.code ≡ other) }
    ensures verdict { MatchBool result.equal (places_of result.first.report ≡ places_of result.second.report) (places_of result.first.report ≢ places_of result.second.report) }
{
    let first = replay(one, calls);
    let second = replay(other, others);
    let equal = first.report().same(second.report());
    Comparison {
        first,
        second,
        equal,
    }
}
