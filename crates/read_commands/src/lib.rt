//! The read-only commands, with their parameters and output (docs/PROFILE.md, "Command lines" and "Answers").
//!
//! Each command has a separate source file. `feed` prints a database's feed row by row. A command implements the trait
//! `StreamingCommand` (`streaming_command`) if its output is produced in pieces. The module `rest` produces the pieces
//! of the command's output.
#![tactic(auto)]

mod audit;
mod changes;
mod compare;
mod conflicts;
mod doc;
mod docs;
mod feed;
mod info;
mod ledger;
mod log;
mod rest;
mod show;
mod streaming_command;

pub use audit::Audit;
pub use changes::Changes;
pub use compare::Compare;
pub use conflicts::Conflicts;
pub use doc::Doc;
pub use docs::Docs;
pub use info::Info;
pub use ledger::Ledger;
pub use log::Log;
pub use rest::Rest;
pub use show::Show;
pub use streaming_command::{begin_in, whole};
