//! The two cases of the course, side by side: a word that is corrected, and a word that is refused.
#![tactic(auto)]

mod single;
mod stop;
mod table;
mod times;
mod words;

use crate::stop::told;

fn run(rt: &(impl Print + Drop)) -> anyhow::Result<()> {
    told(rt, single::two_cars(rt))?;
    told(rt, single::pile(rt))?;
    told(rt, table::every_case(rt))?;
    Ok(())
}

fn main(rt: HostRuntime) -> anyhow::Result<()> {
    run(&rt)
}
