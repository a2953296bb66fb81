//! How much is surveyed.
use anyhow::ensure;
use cyclic::name::Name;
use std::env;
use std::rt::Env;

#[derive(Clone, Copy)]
pub struct Size {
    /// Codewords under every pattern of at most t flips.
    pub codewords: u64,
    /// Codewords under every class, and under every pattern of t+1 flips.
    pub few: u64,
    /// Mixed words of each code that is made of G23 or Q31.
    samples: usize,
    /// And of each that is made of Q41: fewer, since on each word all its patterns are tried.
    samples_of_q41: usize,
}

impl Size {
    const SHORT: Size = Size {
        codewords: 5,
        few: 2,
        samples: 4096,
        samples_of_q41: 128,
    };

    const LONG: Size = Size {
        codewords: 64,
        few: 8,
        samples: 32768,
        samples_of_q41: 1024,
    };

    /// Mixed words of each code that is made of the one with this name.
    pub fn samples_of(&self, name: Name) -> usize {
        match name {
            Name::G23 | Name::Q31 => self.samples,
            Name::Q41 => self.samples_of_q41,
        }
    }

    /// The size that the argument asks for: `long`, or none.
    pub fn asked(rt: &(impl Env + AllocGlobal)) -> anyhow::Result<Size> {
        let mut size = Size::SHORT;
        for word in env::args(rt)?.skip(1) {
            ensure!(word.as_str() == "long", "usage: survey [long]");
            size = Size::LONG;
        }
        Ok(size)
    }
}
