//! Decides which requests a replication sends to two CouchDB servers, and when the replication may record a checkpoint.
//!
//! The program reads responses on standard input, and writes requests to standard output (docs/PROFILE.md, "Relay").
#![tactic(auto)]

mod exchange;
mod inbox;
mod options;
mod program;
mod run;

use std::process::ExitCode;

fn main(rt: HostRuntime) -> ExitCode {
    ExitCode::from(program::run_program(&rt))
}
