//! Looking up a floor's time.
ghost use Rattle.std.specs.Prelude.{◌≡◌, true, false, MatchResult};
ghost use Rattle.records.specs.Layout.{kind_of, holds_times};
ghost use Rattle.capi.specs.declared.boundary.Refusal.TheVariants.{Absent};
ghost use Rattle.capi.specs.Times.{LookedUpTo};
ghost use Rattle.capi.specs.Steps.{LooksUp};

use crate::boundary::{Refusal, answer};
use records::layout::Kind;
use records::lookup::time_of;

/// The kind of times that C knows by a number: 1 is travel, 2 the doors.
// The numbers are those of the header, and no other kind has one there.
fn kind_of_times(number: u32) -> Result<Kind, Refusal>
    ensures { MatchResult result (λ k. (holds_times number ≡ true) × (k ≡ kind_of number)) (λ r. (r ≡ Absent) × (holds_times number ≡ false)) }
{
    match number {
        1 => Ok(Kind::Travel),
        2 => Ok(Kind::Door),
        _ => Err(Refusal::Absent),
    }
}

/// The time of a floor, by C's number of its kind.
fn lookup(table: &[u8], kind: u32, floor: u32) -> Result<u32, Refusal>
    ensures { LooksUp table.now kind floor result }
{
    let tenths = time_of(table, kind_of_times(kind)?, floor)?.ok_or(Refusal::Absent)?;
    Ok(u32::from(tenths))
}

/// The time of a floor by the number of its kind: 1 is travel, 2 the doors.
#[unsafe(no_mangle)]
pub extern "C" fn wz_lookup(table: &[u8], kind: u32, floor: u32, time: &mut u32) -> u32
    ensures { LookedUpTo table.now kind floor time.old result time.new }
{
    answer(lookup(table, kind, floor), time)
}
