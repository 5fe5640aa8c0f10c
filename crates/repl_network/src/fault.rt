//! Errors of this crate.
ghost use Rattle.std.specs.Prelude.{◌≡◌};
ghost use Rattle.repl_network.specs.declared.fault.NetFault.TheVariants as faults;

use couch_base::BaseFault;
use repl_target::TargetFault;
use std::alloc::AllocError;
use thiserror::Error;

/// The reason why a call on a network failed.
#[derive(Debug, Drop, Error)]
pub enum NetFault {
    /// The network has no peer at the given index.
    #[error("no peer is at place {0}")]
    NoPeer(usize),
    /// The peer at the given index already has the UUID of the new peer.
    #[error("the peer at place {0} has this UUID")]
    SameUuid(usize),
    /// The hop at the given index failed, and the earlier hops succeeded.
    #[error("hop {0}: {1}")]
    Hop(usize, TargetFault),
    /// The network has no peer, or the number of plans for a direction differs from the number of peers other than the
    /// hub.
    #[error("one plan each way is wanted for each peer behind the hub")]
    Plans,
    /// An allocation failed before the call added a peer or replicated a document.
    #[error("out of memory")]
    Memory,
    /// The write of a document at a peer failed.
    #[error("{0}")]
    Write(BaseFault),
}

impl From<AllocError> for NetFault {
    ghost from_gives = { λ _ fault. fault ≡ faults.Memory };

    fn from(_refused: AllocError) -> NetFault {
        NetFault::Memory
    }
}
