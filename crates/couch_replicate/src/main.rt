//! A program that runs scripts of commands on in-memory document databases.
//!
//! docs/PROFILE.md, "Command lines" and "Answers", defines scripts. The crate `script_engine` reads lines, and the
//! crate `commands` runs the lines on the databases of `script_databases`. This crate handles the command line, the
//! standard streams and the exit status.
#![tactic(auto)]

mod error_reporter;
mod options;
mod program;
mod run;
mod seen;

use std::io::IsTerminal;
use std::process::ExitCode;

fn main(rt: HostRuntime) -> ExitCode {
    ExitCode::from(program::run_program(&rt, rt.stderr().is_terminal()))
}
