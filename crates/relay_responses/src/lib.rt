//! Reads the responses to the relay's requests, as specified in docs/PROFILE.md, "Responses to the relay".
#![tactic(auto)]

mod diffs;
mod logs;
mod pages;
mod parsed;
mod responses;
mod rows;
mod values;

pub use responses::read_response;
