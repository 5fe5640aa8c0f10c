//! The result of an audit.
use doc_json::DocId;
use rev_core::Rev;

/// The result of an audit.
#[derive(Debug, Drop)]
pub enum Audit {
    /// The target covers every audited leaf, or there is no common checkpoint.
    Clean,
    /// The first audited leaf that the target does not cover. `audit` examines the leaves of the source's selected feed
    /// at or below the common checkpoint.
    Hole { seq: u64, id: DocId, rev: Rev },
}
