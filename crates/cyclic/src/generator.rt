//! A generator over bits, with the numbers of the code that it makes.
ghost use Rattle.std.specs.Prelude.{◌≡◌, ◌≤◌, true};
ghost use Rattle.cyclic.specs.Sound.{sound};

mod division;

/// The generator of a cyclic code of length `n` with `k` message bits and reach `t`.
#[derive(Clone, Copy)]
pub struct Generator {
    pub(crate) n: u32,
    pub(crate) k: u32,
    pub(crate) t: u32,
    pub(crate) polynomial: u64,
    ghost split: { k ≤ n },
    ghost short: { n ≤ 42 },
    ghost near: { t ≤ 4 },
    ghost tested: { sound n k t polynomial ≡ true },
}
