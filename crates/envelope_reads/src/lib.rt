//! Proves that `doc_json` never rejects an envelope with `Attachments`, `SpecialMember` or `Fraction`, the errors about
//! members that the envelope wraps.
#![tactic(auto)]

mod read;

pub use read::read_envelope;
