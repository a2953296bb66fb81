//! Why a call was refused, by which layer, and at which place.
ghost use Rattle.std.specs.Prelude.{◌≡◌, Some};
ghost use Rattle.codes.specs.Fault.{fault, number, letter, layer_of, fault_text};

use std::fmt;

/// Why a call was refused. Its number is the one by which it is known outside the program.
#[derive(Clone, Copy, PartialEq, Eq, Debug)]
pub enum Cause {
    /// The code is out of service.
    OutOfService = 1,
    /// The word is not below 2^n.
    WordTooLong = 2,
    /// The message is not below 2^k.
    MessageTooLong = 3,
    /// No codeword lies within t flips of the word.
    BeyondReach = 4,
    /// The report has no place left.
    ReportFull = 5,
    /// The named place is not a gap, or not there.
    NotAGap = 6,
    /// k is 0, so that a message holds no bit.
    NoMessageBits = 7,
    /// The table needs more than 256 words.
    TableTooLong = 8,
    /// The list or the buffer is too short.
    TooShort = 9,
    /// A gap is in the report.
    GapInReport = 10,
    /// The places are not the messages of any table.
    NotATable = 11,
    /// The record is cut short, or has half an entry.
    BadRecord = 12,
    /// The line is in none of the forms.
    BadLine = 13,
}

impl Cause {
    /// The number of the cause.
    // A method and no `From`: `cause.number()` says what is asked, and nothing generic converts a cause.
    pub fn number(self) -> u8
        ensures { result ≡ number self }
    {
        self as u8
    }

    /// The layer that the cause belongs to.
    pub fn layer(self) -> Layer
        ensures { result ≡ layer_of self }
    {
        match self {
            Cause::OutOfService | Cause::WordTooLong | Cause::MessageTooLong | Cause::BeyondReach =>
                Layer::Word,
            Cause::ReportFull
            | Cause::NotAGap
            | Cause::NoMessageBits
            | Cause::TableTooLong
            | Cause::TooShort
            | Cause::GapInReport
            | Cause::NotATable => Layer::Report,
            Cause::BadRecord | Cause::BadLine => Layer::Table,
        }
    }
}

/// Where in the library a call was refused.
#[derive(Clone, Copy, PartialEq, Eq, Debug)]
pub enum Layer {
    /// A code: its words and messages.
    Word,
    /// The sender, the receiver and its report.
    Report,
    /// The records of a table, and the lines of a listing.
    Table,
}

impl Layer {
    /// The letter by which the layer is known outside the program.
    // A method and no `From`, like the number of a cause.
    pub fn letter(self) -> char
        ensures { result ≡ letter self }
    {
        match self {
            Layer::Word => 'W',
            Layer::Report => 'R',
            Layer::Table => 'T',
        }
    }
}

/// A refusal. It goes up through the library unchanged.
#[derive(Clone, Copy, PartialEq, Eq, Debug)]
pub struct Fault {
    pub cause: Cause,
    pub layer: Layer,
    pub place: usize,
}

impl Fault {
    /// A fault in the layer that the cause belongs to, at place 0.
    pub fn new(cause: Cause) -> Fault
        ensures { result ≡ fault cause (layer_of cause) 0 }
    {
        Fault {
            cause,
            layer: cause.layer(),
            place: 0,
        }
    }

    /// The same refusal at another place.
    pub fn at(self, place: usize) -> Fault
        ensures { result ≡ fault self.cause self.layer place }
    {
        Fault { place, ..self }
    }
}

impl fmt::Display for Fault {
    ghost output = { λ f. Some (fault_text f) };

    fn fmt<W: fmt::Write>(&self, f: &mut fmt::Formatter<W>) -> fmt::Result {
        let number = self.cause.number();
        let layer = self.layer.letter();
        let place = self.place;
        write!(f, "refused with {number}, layer {layer}, place {place}")
    }
}
