//! Both laws at once: two runs of calls, and two tables carried.
ghost use Rattle.std.specs.Prelude.{◌≡◌, MatchBool, ◌≢◌};
ghost use Rattle.link.specs.Report.{places_of, flips_of};
ghost use Rattle.runs.specs.Law.{Carriages, Law};
ghost use Rattle.runs.specs.Transport.{Carried, Arrives};

use crate::calls::{Call, Comparison, compare};
use crate::transport::carry;
use codes::fault::Fault;
use codes::interface::Code;

/// Calls, and the code of the receiver that they are made on.
pub struct Run<'a, C> {
    pub code: C,
    pub calls: &'a [Call],
}

/// A table, the bits that are turned over in each of its words, and the code that it is sent over.
#[derive(Drop)]
pub struct Trip<'a, C> {
    pub code: C,
    pub table: &'a [u8],
    pub patterns: &'a [u64],
}

impl<C: Code + Drop> Trip<'_, C> {
    /// Carries the table over its code.
    fn carry(self, buffer: &mut [u8]) -> Result<usize, Fault>
        ensures carried { Carried (C.means self.entry.code) self.entry.table.now self.entry.patterns.now buffer.old result buffer.new }
        ensures arrives { Arrives (C.means self.entry.code) self.entry.table.now self.entry.patterns.now buffer.old result buffer.new }
    {
        carry(self.code, self.table, self.patterns, buffer)
    }
}

/// What came of two runs and two trips.
#[derive(Drop)]
pub struct Judgement<C, D> {
    pub runs: Comparison<C, D>,
    pub first: Result<usize, Fault>,
    pub second: Result<usize, Fault>,
}

/// Carries two tables, each over its own code and into its own buffer.
// Each buffer stands beside its trip, so that the clauses name what it held and what it holds now.
#[tactic(auto, using(crate::proofs::Carrying::carriages_from))]
pub fn carry_both<E: Code + Drop, F: Code + Drop>(
    first: Trip<'_, E>,
    buffer: &mut [u8],
    second: Trip<'_, F>,
    other: &mut [u8],
) -> (Result<usize, Fault>, Result<usize, Fault>)
    ensures first { Carried (E.means first.entry.code) first.entry.table.now first.entry.patterns.now buffer.old result.0 buffer.new }
    ensures second { Carried (F.means second.entry.code) second.entry.table.now second.entry.patterns.now other.old result.1 other.new }
    ensures law { Carriages (E.means first.entry.code) (F.means second.entry.code) first.entry.table.now first.entry.patterns.now buffer.old result.0 buffer.new second.entry.table.now second.entry.patterns.now other.old result.1 other.new }
{
    (first.carry(buffer), second.carry(other))
}

/// Makes both runs and compares their reports, and carries both tables.
pub fn judge<C: Code, D: Code, E: Code + Drop, F: Code + Drop>(
    one: Run<'_, C>,
    other: Run<'_, D>,
    first: Trip<'_, E>,
    first_buffer: &mut [u8],
    second: Trip<'_, F>,
    second_buffer: &mut [u8],
) -> Judgement<C, D>
    ensures codes { (result.runs.first.code ≡ one.entry.code) × (result.runs.second.code ≡ other.entry.code) }
    ensures verdict { MatchBool result.runs.equal (places_of result.runs.first.report ≡ places_of result.runs.second.report) (places_of result.runs.first.report ≢ places_of result.runs.second.report) }
    ensures first { Carried (E.means first.entry.code) first.entry.table.now first.entry.patterns.now first_buffer.old result.first first_buffer.new }
    ensures second { Carried (F.means second.entry.code) second.entry.table.now second.entry.patterns.now second_buffer.old result.second second_buffer.new }
    ensures law { Law (C.means one.entry.code) (D.means other.entry.code) one.entry.calls.now other.entry.calls.now (places_of result.runs.first.report) (flips_of result.runs.first.report) (places_of result.runs.second.report) (flips_of result.runs.second.report)
        (E.means first.entry.code) (F.means second.entry.code) first.entry.table.now first.entry.patterns.now first_buffer.old result.first first_buffer.new second.entry.table.now second.entry.patterns.now second_buffer.old result.second second_buffer.new }
{
    let Run { code, calls } = one;
    let Run {
        code: other_code,
        calls: other_calls,
    } = other;
    let runs = compare(code, calls, other_code, other_calls);
    let (first, second) = carry_both(first, first_buffer, second, second_buffer);
    Judgement {
        runs,
        first,
        second,
    }
}
