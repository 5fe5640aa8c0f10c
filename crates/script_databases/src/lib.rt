//! The databases of a script: peers by name, the program's settings, and generated ids.
//!
//! If a script line fails, the error is a variant of the enum `Refusal`. This crate does not depend on the format of a
//! script's lines.
#![tactic(auto)]

mod backups;
mod databases;
mod made_ids;
mod pair;
mod refusal;
mod settings;
mod watched;

pub use databases::{Databases, Edited, PutBack};
pub use made_ids::MadeIds;
pub use refusal::Refusal;
pub use settings::Settings;
pub use watched::Watched;
