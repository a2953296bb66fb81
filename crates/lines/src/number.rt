//! Numbers as digits, in one of two bases.
ghost use Rattle.std.specs.Prelude.{◌≡◌, ℕ, ◌/◌, ◌%◌, ◌<◌, ◌≤◌, MatchOption};
ghost use Rattle.lines.specs.Number.{base_number, digit, IsDigit, Writes};

/// The base that a number is written in.
#[derive(Clone, Copy)]
pub(crate) enum Base {
    Decimal = 10,
    Hexadecimal = 16,
}

impl Base {
    /// How many digits the base has.
    pub(crate) fn radix(self) -> u64
        ensures value { result ≡ base_number self }
        ensures range { (2 ≤ result) × (result ≤ 16) }
    {
        self as u64
    }

    /// A number without its last digit. Each base divides by a constant of its own, which takes less time than to divide by a variable.
    pub(crate) fn above(self, number: u64) -> u64
        ensures { result ≡ number / base_number self }
    {
        match self {
            Base::Decimal => number / 10,
            Base::Hexadecimal => number / 16,
        }
    }

    /// The last digit of a number.
    pub(crate) fn last(self, number: u64) -> u32
        ensures { result ≡ number % base_number self }
    {
        match self {
            Base::Decimal => (number % 10) as u32,
            Base::Hexadecimal => (number % 16) as u32,
        }
    }
}

/// The digit that a byte is, absent where it is none of the base. Letters stand in lower case.
fn read_digit(base: Base, byte: u8) -> Option<u64>
    ensures { MatchOption result ((d : ℕ) → IsDigit (base_number base) byte d → ⊥) (IsDigit (base_number base) byte) }
{
    if byte.is_ascii_uppercase() {
        return None;
    }
    char::from(byte)
        .to_digit(base.radix() as u32)
        .map(u64::from)
}

/// The number that a text writes with at most so many digits, absent where it writes none.
pub(crate) fn read_number(base: Base, most: usize, text: &[u8]) -> Option<u64>
    requires { most ≤ 11 }
    ensures { MatchOption result ((x : ℕ) → Writes (base_number base) most text.now x → ⊥) (Writes (base_number base) most text.now) }
{
    if !(1..=most).contains(&text.len()) {
        return None;
    }
    let mut value = 0;
    for byte in text {
        value = value * base.radix() + read_digit(base, *byte)?;
    }
    Some(value)
}

/// The character of a digit.
pub(crate) fn digit_char(value: u32) -> char
    requires { value < 16 }
    ensures { result ≡ digit value }
{
    char::from_digit(value, 16).unwrap()
}
