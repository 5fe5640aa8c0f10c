//! The workers of a run of the pool: the workers' messages and steps, and the combined results of all workers.
//!
//! The rules are in docs/PROFILE.md, "The pool".
#![tactic(auto)]

mod brands;
mod channels;
mod context;
mod ends;
mod fault;
mod fetcher;
mod gate;
mod gather;
mod given_target;
mod messages;
mod parcels;
mod reader;
mod run_target;
mod show;
mod start;
mod threads;
mod totals;
mod turns;
mod windows;
mod worker;
mod writer;

pub use brands::{SourceBrand, TargetBrand};
pub use channels::Channels;
pub use context::Context;
pub use fault::{Halt, PoolFault};
pub use gate::{Gate, Open, Place, Turn};
pub use given_target::GivenTarget;
pub use run_target::RunTarget;
pub use threads::{Ended, Owned};
pub use totals::{Summed, collect};
