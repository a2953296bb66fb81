//! The codes by themselves, under a parity bit, and shortened.
use crate::Survey;
use crate::plain::{G23, Q31, Q41};
use crate::subject::Subject;
use codes::interface::Code;
use cyclic::Cyclic;

/// The three codes by themselves.
fn cyclic() -> [Subject<Cyclic>; 3] {
    [G23, Q31, Q41].map(|plain| Subject {
        code: Cyclic::of(plain.name),
        plain,
    })
}

impl<R: Print + Eprint + AllocGlobal> Survey<'_, R> {
    /// The three codes by themselves.
    pub fn bare(&mut self) -> anyhow::Result<()> {
        let subjects = cyclic();
        subjects
            .iter()
            .try_for_each(|subject| self.within_reach(subject))?;
        subjects
            .iter()
            .try_for_each(|subject| self.classes(subject))?;
        subjects.iter().try_for_each(|subject| self.sample(subject))
    }

    /// Patterns on some codewords, every class, and a sample of mixed words.
    fn all<C: Code>(&mut self, subject: &Subject<C>) -> anyhow::Result<()> {
        self.within_reach(subject)?;
        self.classes(subject)?;
        self.sample(subject)
    }

    /// The three codes under a parity bit.
    pub fn with_parity(&mut self) -> anyhow::Result<()> {
        cyclic()
            .iter()
            .try_for_each(|subject| self.all(&subject.with_parity()))
    }

    /// A code, shortened by each of these.
    fn cut(&mut self, subject: Subject<Cyclic>, cuts: [u32; 4]) -> anyhow::Result<()> {
        for by in cuts {
            self.all(&subject.shortened(by))?;
        }
        Ok(())
    }

    /// The three codes shortened by 1, 2, 5, and all their message bits.
    pub fn shortened(&mut self) -> anyhow::Result<()> {
        let [g23, q31, q41] = cyclic();
        self.cut(g23, [1, 2, 5, 12])?;
        self.cut(q31, [1, 2, 5, 16])?;
        self.cut(q41, [1, 2, 5, 21])
    }

    /// One flip too many.
    pub fn beyond(&mut self) -> anyhow::Result<()> {
        let [_, q31, q41] = cyclic();
        self.beyond_reach(&q31)?;
        self.beyond_reach(&q41)
    }
}
