//! Calls each function that may allocate, and retries if an allocation fails. Because each failed call is repeated,
//! every run of the program prints the same output, whether or not an allocation fails. The script
//! `.ci/refused-growths` makes each allocation fail in turn.
#![tactic(auto)]

mod backups;
mod choices;
mod databases;
mod documents;
mod fronts;
mod logs;
mod nets;
mod peers;
mod pools;
mod replications;
mod revisions;
mod surveys;
mod trees;
mod values;
mod worlds;

use anyhow::Result;

fn main(rt: HostRuntime) -> Result<()> {
    revisions::run(&rt, rt.alloc())?;
    trees::run(&rt, rt.alloc())?;
    fronts::run(&rt, rt.alloc())?;
    logs::run(&rt, rt.alloc())?;
    values::run(&rt, rt.alloc())?;
    documents::run(&rt, rt.alloc())?;
    databases::run(&rt, rt.alloc())?;
    peers::run(&rt, rt.alloc())?;
    backups::run(&rt, rt.alloc())?;
    replications::run(&rt, rt.alloc())?;
    choices::run(&rt, rt.alloc())?;
    worlds::run(&rt, rt.alloc())?;
    nets::run(&rt, rt.alloc())?;
    surveys::run(&rt, rt.alloc())?;
    pools::run(&rt, rt.alloc())?;
    Ok(())
}
