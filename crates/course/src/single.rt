//! Single words.
use crate::stop::{Stop, told};
use codes::interface::{Code, Correction};
use cyclic::Cyclic;
use cyclic::name::Name;
use layers::parity::Parity;
use layers::shortened::Shortened;

const MESSAGE: u64 = 0x1234f;

/// Four bits turned over, as many as can be taken back.
pub const FOUR: u64 = 1 << 3 | 1 << 11 | 1 << 20 | 1 << 37;

/// The same four and one more, which leaves a word beyond reach of every codeword.
pub const FIVE: u64 = FOUR | 1;

fn hear<C: Code>(rt: &impl Print, car: &str, code: &C, word: u64) -> Result<(), Stop> {
    println!(rt; "{car} car hears {word:x}")?;
    let Correction {
        message,
        pattern,
        ..
    } = code.correct(word)?;
    let flips = pattern.count_ones();
    println!(rt; "  corrected: message {message:x}, pattern {pattern:x}, flips {flips}")?;
    Ok(())
}

/// One codeword, heard by two cars with other bits turned over.
fn two_words<C: Code>(
    rt: &impl Print,
    name: &str,
    code: &C,
    message: u64,
    cars: [(&str, u64); 2],
) -> Result<(), Stop> {
    let codeword = code.encode(message)?;
    println!(rt; "{name}: message {message:x} goes out as {codeword:x}")?;
    let [(first, flips), (second, others)] = cars;
    told(rt, hear(rt, first, code, codeword ^ flips))?;
    hear(rt, second, code, codeword ^ others)
}

/// The same word over one code, heard by two cars.
pub fn two_cars(rt: &impl Print) -> Result<(), Stop> {
    let code = Cyclic::of(Name::Q41);
    let cars = [("hotel", FOUR), ("office", FIVE)];
    two_words(rt, "Q41", &code, MESSAGE, cars)
}

/// A pile of layers: Q41 without its five highest message bits, and with a parity bit.
pub fn pile(rt: &impl Print) -> Result<(), Stop> {
    let code = Parity::over(Shortened::over(Cyclic::of(Name::Q41), 5));
    let cars = [("service", 0xf0), ("service", 0xf1)];
    two_words(rt, "Q41 shortened by 5, with parity", &code, 0x1234, cars)
}
