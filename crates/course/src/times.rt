//! What the cars read: the times of some floors, from the table that was sent and from the same table with a word dropped.
use crate::stop::Stop;
use crate::words::{SPOILED, Spelled, WORDS, Words, spelled};
use codes::fault::Fault;
use cyclic::Cyclic;
use cyclic::name::Name;
use link::report::Place;
use records::layout::Kind;
use records::lookup::time_of;
use std::{array, fmt, io};
use tables::speller::spell;

/// The lowest stop, some above it, and one that the building does not have.
const FLOORS: [u32; 6] = [0, 4, 5, 6, 11, 12];

/// The table that a car spells once the gap is settled.
fn whole_table(words: &Words) -> Result<Spelled, Fault> {
    let sealed = words.repaired_report()?;
    spelled(|buffer| sealed.spell(buffer))
}

/// The messages of a car that drops the spoiled word: each later one stands one place early, and a 0 fills the last place.
fn shifted_messages(words: &Words) -> Result<[u64; WORDS], Fault> {
    let dropped = words.heard_without()?;
    Ok(array::from_fn(|place| match dropped.place(place) {
        Some(Place::Settled(message)) => message,
        Some(Place::Gap) | None => 0,
    }))
}

/// The table that such a car spells.
fn shifted_table(words: &Words) -> Result<Spelled, Fault> {
    let messages = shifted_messages(words)?;
    spelled(|buffer| spell(&Cyclic::of(Name::Q41), &messages, buffer))
}

/// A time as it is shown, in seconds.
#[derive(Drop)]
struct Shown(Result<Option<u16>, Fault>);

impl fmt::Display for Shown {
    fn fmt<W: fmt::Write>(&self, f: &mut fmt::Formatter<W>) -> fmt::Result {
        match self.0 {
            Ok(Some(tenths)) => {
                let seconds = tenths / 10;
                let tenth = tenths % 10;
                write!(f, " {seconds:>6}.{tenth}")
            }
            Ok(None) => write!(f, "   absent"),
            Err(_) => write!(f, "  refused"),
        }
    }
}

fn show_floor(rt: &impl Print, floor: u32, whole: &[u8], shifted: &[u8]) -> io::Result<()> {
    let travel = Shown(time_of(whole, Kind::Travel, floor));
    let travel_dropped = Shown(time_of(shifted, Kind::Travel, floor));
    let door = Shown(time_of(whole, Kind::Door, floor));
    let door_dropped = Shown(time_of(shifted, Kind::Door, floor));
    println!(rt; "  {floor:>5}{travel}{travel_dropped}{door}{door_dropped}")
}

/// The times of some floors, read from both tables.
pub fn times(rt: &impl Print, words: &Words) -> Result<(), Stop> {
    let whole = whole_table(words)?;
    let shifted = shifted_table(words)?;
    println!(rt;
        "times in seconds, each beside what the car would read with word {SPOILED} dropped and a 0 in the last place"
    )?;
    println!(rt; "  floor   travel  dropped     door  dropped")?;
    for floor in FLOORS {
        show_floor(rt, floor, whole.as_slice(), shifted.as_slice())?;
    }
    Ok(())
}
