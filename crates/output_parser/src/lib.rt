//! Parses the lines of a script's output, for diagrams.
//!
//! docs/PROFILE.md, "Answers" and "Pictures", defines the formats.
#![tactic(auto)]

mod cuts;
mod lines;
mod logs;
mod numbers;
mod revs;
mod rows;
mod told;
mod undrawn;

pub use lines::read_line;
pub use told::{Column, Entry, Finding, Found, Log, Member, Row, Table, Told};
