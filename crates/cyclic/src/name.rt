//! The three codes by name.
ghost use Rattle.std.specs.Prelude.{◌≡◌};
ghost use Rattle.cyclic.specs.Generator.{numbers};
ghost use Rattle.cyclic.specs.Name.{numbers_named};

use crate::generator::Generator;

/// The name of a code.
#[derive(Clone, Copy, PartialEq, Eq, Debug)]
pub enum Name {
    /// 23 bits, 12 of them the message, reach 3, generator ae3.
    G23,
    /// 31 bits, 16 of them the message, reach 3, generator e309.
    Q31,
    /// 41 bits, 21 of them the message, reach 4, generator 1b4e5b.
    Q41,
}

impl Name {
    /// The generator of the code.
    pub(crate) fn generator(self) -> Generator
        ensures { numbers result ≡ numbers_named self }
    {
        match self {
            Name::G23 => Generator {
                n: 23,
                k: 12,
                t: 3,
                polynomial: 0xae3,
            },
            Name::Q31 => Generator {
                n: 31,
                k: 16,
                t: 3,
                polynomial: 0xe309,
            },
            Name::Q41 => Generator {
                n: 41,
                k: 21,
                t: 4,
                polynomial: 0x1b4e5b,
            },
        }
    }
}
