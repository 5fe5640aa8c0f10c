//! Replicates one peer into another by one thread, and audits replications.
//!
//! The rules of replications and audits are in docs/PROFILE.md, "Goal and windows", "Common checkpoint" and "Audit".
//! This crate re-exports all public items of `repl_peer`.
#![tactic(auto)]

mod auditing;
mod replication;

pub use auditing::found::Audit;
pub use auditing::{audit, hole_above, hole_within};
pub use repl_peer::{
    Backup, Beginning, Cause, DeferredDrops, Peer, ReadyWindow, Reason, Refused, Report, Rules,
    Scope, Settled, StoredWindow, TargetFault, Verdict, WriteFilter, checkpoint, rep_between,
};
pub use replication::sync::{SyncFault, Synced, sync_alone};
pub use replication::{
    MOST_ROWS, Plan, begin_plan, check_peers, check_plan, has_left, record_at_source,
    replicate_alone,
};
