//! The code that a heading names, picked at run time.
ghost use Rattle.std.specs.Prelude.{◌≡◌};
ghost use Rattle.listings.specs.Choice.{choice_means, named};
ghost use Rattle.listings.specs.Lawfulness.{choice_lawful};

use codes::fault::Fault;
use codes::interface::{Code, Correction, Shape};
use cyclic::Cyclic;
use layers::parity::Parity;
use lines::heading::Heading;

/// One of the three codes, with or without a parity bit.
// An enum and no `dyn Code`: it is picked in a function and handed out, as no `dyn` may be.
#[derive(Clone, Copy)]
pub enum Choice {
    Plain(Cyclic),
    WithParity(Parity<Cyclic>),
}

/// The code that a heading names.
impl From<Heading> for Choice {
    ghost from_gives = { λ heading choice. choice_means choice ≡ named heading };

    fn from(heading: Heading) -> Choice {
        let code = Cyclic::of(heading.name);
        if heading.parity {
            Choice::WithParity(Parity::over(code))
        } else {
            Choice::Plain(code)
        }
    }
}

impl Code for Choice {
    ghost means = { choice_means };

    ghost lawful = { λ c. choice_lawful c };

    fn shape(&self) -> Result<Shape, Fault> {
        match self {
            Choice::Plain(code) => code.shape(),
            Choice::WithParity(code) => code.shape(),
        }
    }

    fn encode(&self, message: u64) -> Result<u64, Fault> {
        match self {
            Choice::Plain(code) => code.encode(message),
            Choice::WithParity(code) => code.encode(message),
        }
    }

    fn correct(&self, word: u64) -> Result<Correction, Fault> {
        match self {
            Choice::Plain(code) => code.correct(word),
            Choice::WithParity(code) => code.correct(word),
        }
    }
}
