//! Writes the contents of CouchDB responses as script lines or request bodies.
//!
//! docs/PROFILE.md, "CouchDB's answers" and "Lines of documents", defines the formats.
#![tactic(auto)]

mod forms;
mod run;
mod wording;

pub use forms::Form;
pub use run::{AnswerFault, run_answers};
pub use wording::Wording;
