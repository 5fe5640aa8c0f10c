//! Four examples of using the libraries. Each module is an independent example, whose function `run` could be the
//! `main` of a program.
#![tactic(auto)]

mod backup;
mod filter;
mod hub;
mod pool;

use anyhow::Result;

fn main(rt: HostRuntime) -> Result<()> {
    println!(rt; "backup:")?;
    backup::run(&rt)?;
    println!(rt; "filter:")?;
    filter::run(&rt)?;
    println!(rt; "hub:")?;
    hub::run(&rt)?;
    println!(rt; "pool:")?;
    pool::run(&rt, rt.alloc())
}
