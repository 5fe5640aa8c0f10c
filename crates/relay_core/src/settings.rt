//! The settings of a run.

/// The settings of a replication run.
#[derive(Drop)]
pub struct Settings {
    /// The id of the replication session, which differs from the ids of all other sessions.
    pub session_id: String,
    /// The largest number of documents in one part of a transfer.
    pub carry: u64,
    /// The maximum number of pages with rows between two checkpoints.
    pub every: u64,
    /// Whether the run waits for changes after the feed's end.
    pub continuous: bool,
    /// Whether the run reports its progress.
    pub progress: bool,
    /// Whether a filter excludes documents from the source's feed.
    pub filtered: bool,
}
