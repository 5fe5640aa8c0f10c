//! A streaming parser that finds the documents in CouchDB responses.
//!
//! docs/PROFILE.md, "CouchDB's answers", defines the responses. The parser stores the text of at most one value at a
//! time.
#![tactic(auto)]

mod brackets;
mod copies;
mod cover;
mod fronts;
mod lines;
mod members;
mod place;
mod reading;
mod revs;
mod signs;
mod spelling;
mod strings;
mod values;
mod wanted;

pub use fronts::Front;
pub use place::{Found, LinePlace, Name, Place, Refusal, RevPlace, Wanted};
pub use reading::Reading;
