//! The commands that change databases, with their parameters, effects and output (docs/PROFILE.md, "Command lines" and
//! "Answers"). Each command has a separate source file.
#![tactic(auto)]

mod backup;
mod edit;
mod load;
mod replicate;
mod restore;
mod sync;

pub use backup::Backup;
pub use edit::Edit;
pub use load::Load;
pub use replicate::Replicate;
pub use restore::Restore;
pub use sync::BothWays;
