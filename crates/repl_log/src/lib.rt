//! Logs of replications, and the common checkpoint of two logs.
//!
//! The rules are in docs/PROFILE.md, "Replication ids and logs", "Common checkpoint" and "Limits".
#![tactic(auto)]

mod checkpoint;
mod counts;
mod entry;
mod fault;
mod log;
mod logs;
mod moment;
mod replication;
mod text;
mod written;

pub use checkpoint::common;
pub use counts::Counts;
pub use entry::Entry;
pub use fault::LogFault;
pub use log::Log;
pub use logs::Logs;
pub use moment::Moment;
pub use replication::RepId;
pub use text::rep_id;
pub use written::write_log;
