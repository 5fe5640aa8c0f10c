//! A replication peer: a database with incoming sessions, local writes and logs. A lock usually protects the peer.
//!
//! The specification of a peer's sessions and logs is in docs/PROFILE.md, "Sessions of a peer", "Settling" and
//! "Replication ids and logs".
#![tactic(auto)]

mod fault;
mod logs;
mod peer;
mod room;
mod session;

pub use fault::{Cause, Reason, Report, Settled, TargetFault};
pub use logs::{checkpoint, rep_between};
pub use peer::Peer;
pub use peer::backup::Backup;
pub use peer::filter::{Rules, Verdict, WriteFilter};
pub use session::beginning::{Beginning, Scope};
pub use session::deferred_drops::DeferredDrops;
pub use session::ready_window::ReadyWindow;
pub use session::refused::Refused;
pub use session::window::StoredWindow;
