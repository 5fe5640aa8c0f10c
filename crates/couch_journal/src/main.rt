//! This program reads and checks the journals and the CouchDB responses that the scripts in `jobs/` use.
//!
//! The crate `journal_core` has the checksums of journals, and the crate `journal_lines` has the lines of journals. The
//! crates `journal_tasks` and `journal_responses` implement the program's tasks. The crate `couch_journal` has the
//! command line, the standard streams and the exit status.
#![tactic(auto)]

mod ended;
mod options;
mod program;
mod run;
mod tasks;

use std::process::ExitCode;

fn main(rt: HostRuntime) -> ExitCode {
    ExitCode::from(program::run_program(&rt))
}
