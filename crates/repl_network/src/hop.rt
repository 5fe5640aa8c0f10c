//! Replications between the peers of a network.

use repl_target::Plan;

/// A replication from the peer at one index into the peer at another index.
#[derive(Debug, Drop)]
pub struct Hop {
    /// The index of the source peer.
    pub from: usize,
    /// The index of the target peer.
    pub to: usize,
    /// The parameters of the hop's replication.
    pub plan: Plan,
}
