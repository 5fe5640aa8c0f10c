//! The reasons why a worker halts, and why a run fails.
ghost use Rattle.std.specs.Prelude.{◌≡◌, None, IfSome};
ghost use Rattle.pool_workers.specs.Faults.{fault_of, IsOneFault};
ghost use Rattle.pool_workers.specs.declared.fault.Halt.TheVariants as halts;
ghost use Rattle.pool_workers.specs.declared.fault.PoolFault.TheVariants as faults;

use crate::gate::Place;
use doc_json::DocId;
use repl_target::TargetFault;
use rev_core::Rev;
use std::alloc::AllocError;
use thiserror::Error;

/// The reason why a worker, or the reading of windows, stopped.
#[derive(Debug, Drop)]
pub enum Halt {
    /// The gate, a callback that workers call at each stage, stopped the worker.
    Stopped(Place),
    /// A call on the target failed.
    Refused(TargetFault),
    /// A count of documents or parcels would exceed its maximum.
    CountFull,
    /// The worker's read counter on the progress board would exceed its maximum.
    BoardFull,
    /// An allocation failed.
    Memory,
    /// A channel was disconnected, or the run received a window that the plan does not allow.
    Lost,
}

impl From<AllocError> for Halt {
    ghost from_gives = { λ _ e. e ≡ halts.Memory };

    fn from(_refused: AllocError) -> Halt {
        Halt::Memory
    }
}

/// The reason why a run of the pool failed.
#[derive(Debug, Drop, Error)]
pub enum PoolFault {
    /// The plan has no workers.
    #[error("a pool has 1 to 64 workers")]
    NoWorkers,
    /// The plan has more than 64 workers.
    #[error("a pool has 1 to 64 workers")]
    TooManyWorkers,
    /// The window size of the plan is 0 or exceeds 10,000.
    #[error("a window has 1 to 10000 rows")]
    BadBatch,
    /// The source and the target have the same UUID.
    #[error("a database is not replicated into itself")]
    SamePeer,
    /// A step failed.
    #[error(transparent)]
    Refused(TargetFault),
    /// The gate, a callback that workers call at each stage, returned `Stop`. The place in `Halted` gives the stage,
    /// and the number of the window.
    #[error("stopped by the gate")]
    Halted(Place),
    /// A leaf of the source that the target does not cover after a run: the first one in the feed above the session's
    /// start. No run returns the error `Hole`. The contract of a run excludes `Hole` in the clause `runs` (field
    /// `early`). No code creates the variant `Hole`.
    #[error("a leaf of the source is not covered")]
    Hole { seq: u64, id: DocId, rev: Rev },
    /// A fetcher's count of documents would exceed 9,007,199,254,740,991.
    #[error("a count of documents is full")]
    CountFull,
    /// A writer's counter of read documents on the board would exceed 9,007,199,254,740,991. The error `BoardFull` is
    /// possible only for a run with a board.
    #[error("a worker's count on the board is full")]
    BoardFull,
    /// An allocation failed, or a thread cannot be created.
    #[error("out of memory")]
    Memory,
}

impl From<AllocError> for PoolFault {
    ghost from_gives = { λ _ e. e ≡ faults.Memory };

    fn from(_refused: AllocError) -> PoolFault {
        PoolFault::Memory
    }
}

impl From<Halt> for PoolFault {
    ghost from_gives = { λ halt e. e ≡ fault_of halt };

    fn from(halt: Halt) -> PoolFault {
        match halt {
            Halt::Stopped(place) => PoolFault::Halted(place),
            Halt::Refused(fault) => PoolFault::Refused(fault),
            Halt::CountFull => PoolFault::CountFull,
            Halt::BoardFull => PoolFault::BoardFull,
            Halt::Memory => PoolFault::Memory,
            Halt::Lost => PoolFault::Memory,
        }
    }
}

/// Returns why the page reader, a fetcher or a writer halted, if one of them halted.
pub fn merge(read: Option<Halt>, fetched: Option<Halt>, written: Option<Halt>) -> Option<PoolFault>
    ensures none { result ≡ None → (read ≡ None) × (fetched ≡ None) × (written ≡ None) }
    ensures some { IfSome result (IsOneFault read fetched written) }
{
    match (read, fetched, written) {
        (Some(halt), _, _) => Some(PoolFault::from(halt)),
        (None, Some(halt), _) => Some(PoolFault::from(halt)),
        (None, None, Some(halt)) => Some(PoolFault::from(halt)),
        (None, None, None) => None,
    }
}
