//! A program that converts CouchDB responses to scripts, and script output to CouchDB requests and to diagrams.
//!
//! docs/PROFILE.md, "CouchDB's answers" and "Lines of documents", defines the formats. The crates `response_parser` and
//! `response_output` convert responses, and the crate `diagrams` draws diagrams. This crate handles the command line,
//! the standard streams and the exit status.
#![tactic(auto)]

mod options;
mod program;
mod run;
mod tasks;

use std::process::ExitCode;

fn main(rt: HostRuntime) -> ExitCode {
    ExitCode::from(program::run_program(&rt))
}
