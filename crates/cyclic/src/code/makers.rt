//! The three codes, made.
ghost use Rattle.std.specs.Prelude.{◌≡◌};
ghost use Rattle.cyclic.specs.Generator.{code_of, g23, Multiples};
ghost use Rattle.cyclic.specs.Name.{numbers_named, distance_named};
ghost use Rattle.cyclic.specs.Code.{meaning_of, LeastDistance, Perfect};

use super::Cyclic;
use crate::generator::Generator;
use crate::name::Name;

/// Each of the three is what its name says; G23 leaves no word beyond reach. It does nothing but say so.
fn three_codes(name: Name)
    ensures multiples { Multiples (numbers_named name) }
    ensures distance { LeastDistance (code_of (numbers_named name)) (distance_named name) }
    ensures perfect { Perfect (code_of g23) }
{}

impl Cyclic {
    /// A generator's code, with its rows.
    fn new(generator: Generator) -> Cyclic
        ensures { result.generator ≡ generator }
    {
        let rows = generator.rows();
        Cyclic { generator, rows }
    }

    /// The code of a name.
    // A maker and no `From`: what it makes is said by four clauses.
    pub fn of(name: Name) -> Cyclic
        ensures code { meaning_of result ≡ code_of (numbers_named name) }
        ensures multiples { Multiples (numbers_named name) }
        ensures distance { LeastDistance (code_of (numbers_named name)) (distance_named name) }
        ensures perfect { Perfect (code_of g23) }
    {
        three_codes(name);
        Cyclic::new(name.generator())
    }
}
