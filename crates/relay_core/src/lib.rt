//! Decides what a replication requests of two servers, and when the replication may record a checkpoint.
#![tactic(auto)]

mod leaf_set;
mod leaves;
mod logs;
mod messages;
mod pages;
mod phase;
mod refusals;
mod relay;
mod settings;

pub use leaves::{missing_of, name_all};
pub use messages::{
    ChangesPage, Checkpoint, Counts, DocLeaves, Fault, LogEntry, Notice, Operation, RefusedLeaf,
    ReplicationLog, Request, Response, RowError, Side, Unaccounted,
};
pub use phase::{PageEnd, Phase, Recorded, Run, Stage, Start, Transfer};
pub use relay::step;
pub use settings::Settings;
