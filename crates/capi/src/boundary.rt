//! Codes by number, and what C is told of a call.
ghost use Rattle.std.specs.Prelude.{◌≡◌, MatchOption, MatchResult};
ghost use Rattle.capi.specs.declared.boundary.Refusal.TheVariants.{UnknownCode, Faulty};
ghost use Rattle.capi.specs.Boundary.{name_number, code_number, NamesNone, NumbersNone, Picks};
ghost use Rattle.capi.specs.Steps.{refusal_number, told, kept};

use codes::fault::Fault;
use cyclic::name::Name;
use lines::heading::Heading;
use listings::choice::Choice;

/// Why a call answers another number than 0.
#[derive(Clone, Copy, PartialEq, Eq, Debug)]
pub(crate) enum Refusal {
    /// No code has the number.
    UnknownCode,
    /// There is no such time.
    Absent,
    /// The library refuses the call.
    Faulty(Fault),
}

impl From<Fault> for Refusal {
    ghost from_gives = { λ fault refusal. refusal ≡ Faulty fault };

    fn from(fault: Fault) -> Refusal {
        Refusal::Faulty(fault)
    }
}

impl Refusal {
    /// The number by which C knows the refusal.
    // C knows refusals by number, and two of them are no cause of the library. A method and no `From`, like the number of a cause.
    fn number(self) -> u32
        ensures { result ≡ refusal_number self }
    {
        match self {
            Refusal::UnknownCode => 254,
            Refusal::Absent => 255,
            Refusal::Faulty(fault) => u32::from(fault.cause.number()),
        }
    }
}

/// What the parity layer adds to the number of a code.
const PARITY: u32 = 4;

/// The name of a code without the parity layer, by its number.
// The numbers are those of the header.
fn name_of(number: u32) -> Option<Name>
    ensures { MatchOption result (NamesNone number) (λ n. name_number n ≡ number) }
{
    match number {
        0 => Some(Name::G23),
        1 => Some(Name::Q31),
        2 => Some(Name::Q41),
        _ => None,
    }
}

/// The code of a number, as a heading names it.
fn heading_of(code: u32) -> Option<Heading>
    ensures { MatchOption result (NumbersNone code) (λ h. code_number h ≡ code) }
{
    let parity = code >= PARITY;
    let name = name_of(if parity { code - PARITY } else { code })?;
    Some(Heading { name, parity })
}

/// The code of a number.
pub(crate) fn pick(code: u32) -> Result<Choice, Refusal>
    ensures { MatchResult result (Picks code) (λ r. (r ≡ UnknownCode) × NumbersNone code) }
{
    heading_of(code)
        .map(Choice::from)
        .ok_or(Refusal::UnknownCode)
}

/// Writes what a call came to, if it is no refusal, and tells C its number: 0, or that of the refusal.
pub(crate) fn answer<T: Copy>(outcome: Result<T, Refusal>, out: &mut T) -> u32
    ensures number { result ≡ told outcome }
    ensures written { out.new ≡ kept out.old outcome }
{
    match outcome {
        Ok(value) => {
            *out = value;
            0
        }
        Err(refusal) => refusal.number(),
    }
}
