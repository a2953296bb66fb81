//! A survey of the codes: every answer is held to one that was found without the library.
#![tactic(auto)]

mod classes;
mod flips;
mod layered;
mod patterns;
mod plain;
mod refusals;
mod size;
mod subject;
mod table;
mod tally;
mod wrong;

use crate::size::Size;
use std::process::ExitCode;
use std::rt::Env;

/// A survey under way.
#[derive(Drop)]
struct Survey<'a, R> {
    rt: &'a R,
    size: Size,
    /// How many words were compared so far.
    words: u64,
}

impl<R> Survey<'_, R> {
    /// Counts words that were compared.
    fn count(&mut self, words: u64) {
        self.words = self.words.saturating_add(words);
    }
}

fn run(rt: &(impl Print + Eprint + Env + AllocGlobal + Drop)) -> anyhow::Result<()> {
    let mut survey = Survey {
        rt,
        size: Size::asked(rt)?,
        words: 0,
    };
    survey.bare()?;
    survey.with_parity()?;
    survey.shortened()?;
    survey.beyond()?;
    survey.refusals()?;
    let words = survey.words;
    println!(rt; "survey: {words} words compared, none wrong")?;
    Ok(())
}

fn main(rt: HostRuntime) -> ExitCode {
    match run(&rt) {
        Ok(()) => ExitCode::SUCCESS,
        Err(error) => {
            // Where standard error is closed too, nobody is left to tell.
            let _ = eprintln!(rt; "survey: {error}");
            ExitCode::FAILURE
        }
    }
}
