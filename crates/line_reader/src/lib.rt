//! Reads an input line by line, or the complete input at once, for tasks that write text.
#![tactic(auto)]

mod run;
mod task;
mod whole;

pub use run::run_task;
pub use task::LineTask;
pub use whole::read_all;
