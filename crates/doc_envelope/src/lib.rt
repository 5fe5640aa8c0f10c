//! Splits the text of a document into its members without parsing their values, and wraps members into an envelope.
//!
//! docs/PROFILE.md, "Documents in envelopes", defines envelopes.
#![tactic(auto)]

mod envelope;
mod json_scratch;
mod members;
mod names;
mod printed_envelopes;
mod printing;
mod puts;
mod streaming;
mod takes;
mod values;

pub use envelope::{Envelope, has_id};
pub use names::{id_of, is_log};
pub use printed_envelopes::is_printed_envelope;
