//! The parameters of a session.
use repl_log::RepId;
use rev_tree::SessionId;

/// The parameters of a session that never change (docs/PROFILE.md, "Sessions of a peer").
#[derive(Debug, Drop)]
pub struct Scope {
    /// The replication.
    pub rep: RepId,
    /// The life that the source's database had when the session's start was computed from the source's log.
    pub life: u64,
    /// The base: the earlier session that this session continues, if there is one.
    pub base: Option<SessionId>,
    /// The source's sequence up to which the session reads.
    pub goal: u64,
}

/// The parameters of a new session.
#[derive(Debug, Drop)]
pub struct Beginning {
    /// The parameters of the new session that never change.
    pub scope: Scope,
    /// The source's sequence above which the session reads.
    pub start: u64,
}
