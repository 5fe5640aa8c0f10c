//! Explains why a line failed: which command, member or document is wrong, and what the error name means.
//!
//! docs/PROFILE.md lists the error names ("Names of refusals") and the members of commands ("Command lines"). An
//! explanation depends only on the line and the error name, not on the databases.
#![tactic(auto)]

mod commands;
mod lines;
mod places;
mod sentences;
mod texts;

pub use lines::explain;
