//! Scripts of commands on in-memory document databases.
//!
//! docs/PROFILE.md, "Command lines" and "Answers", defines scripts. Each line of a script is a JSON object that names a
//! command (`words`). The read-only commands are in `read_commands`, and all other commands in `write_commands`. The
//! crates `read_commands` and `write_commands` use the crate `command_api`. `interpreter` runs a script.
#![tactic(auto)]

mod interpreter;
mod observe_answer;
mod words;

pub use interpreter::run_script;
pub use observe_answer::ObserveAnswers;
