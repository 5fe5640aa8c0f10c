//! Parses the command lines of all programs, and determines the exit statuses of invalid command lines.
//!
//! Each program defines its own options.
#![tactic(auto)]

mod status;
mod words;

pub use status::{
    BAD_COMMAND_LINE, report_arguments, report_bad_arguments, report_out_of_memory, words_of,
};
pub use words::{find, flag, hidden_word, program};
