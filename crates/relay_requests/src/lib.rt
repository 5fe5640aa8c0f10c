//! Writes the requests of the relay: docs/PROFILE.md, "Requests of the relay".
#![tactic(auto)]

mod bodies;
mod faults;
mod logs;
mod notices;
mod options;
mod requests;
mod words;

pub use options::{RequestOptions, log_path};
pub use requests::write_request;
