//! The results and errors of calls on peers.
ghost use Rattle.std.specs.Prelude.{◌≡◌};
ghost use Rattle.repl_peer.specs.logs.Logs.{refused_by_log};
ghost use Rattle.repl_peer.specs.session.Sessions.{refused_by_front};
ghost use Rattle.repl_peer.specs.session.Settling.{cause_by_database, cause_by_front};
ghost use Rattle.repl_peer.specs.declared.fault.Cause.TheVariants as causes;
ghost use Rattle.repl_peer.specs.declared.fault.TargetFault.TheVariants as faults;

use couch_base::BaseFault;
use doc_json::{Doc, DocId};
use range_front::FrontFault;
use repl_log::{Counts, LogFault};
use rev_core::Rev;
use rev_tree::SessionId;
use std::alloc::{AllocError, AllocFailed};
use thiserror::Error;

/// Why a document is in a session's ledger.
#[derive(Clone, Copy, Debug)]
pub enum Reason {
    /// The write filter refuses the document.
    Filtered,
    /// The ancestry of the document contradicts the tree, because a revision of the ancestry has another parent in the
    /// tree. The field `child` is the newest revision with two different parents. The field `known` is the child's
    /// parent in the tree, and `given` is the child's parent in the ancestry.
    Contradicting { child: Rev, known: Rev, given: Rev },
}

/// The reason why only a part of a parcel was settled.
#[derive(Clone, Copy, Debug, PartialEq, Eq)]
pub enum Cause {
    /// An allocation failed.
    Memory,
    /// A document would change the database, but the database has no sequence left.
    SeqFull,
}

/// The number of a parcel's documents that were written, and the number that were refused.
#[derive(Clone, Copy, Debug, PartialEq, Eq)]
pub struct Settled {
    /// The number of documents stored, including documents that already existed.
    pub written: u64,
    /// The number of documents added to the ledger.
    pub failures: u64,
}

/// The reason why a call on a peer's sessions failed.
#[derive(Debug, Drop, Error)]
pub enum TargetFault {
    /// The peer already has a session with the given id.
    #[error("the session is there already")]
    SessionExists,
    /// The base of a new session is not an earlier session of the same replication.
    #[error("no such base session")]
    NoSuchBase,
    /// A new session would start above the recorded sequence of its base, the earlier session that it continues. A new
    /// session without a base must start at 0.
    #[error("the start is above {recorded}, which its base has recorded")]
    StartAboveBase {
        recorded: u64,
    },
    /// The goal is below the start.
    #[error("the goal is below the start")]
    GoalBelowStart,
    /// The peer has no session with the given id.
    #[error("no such session")]
    NoSuchSession,
    /// The life of a window differs from the session's life, or the life of a log entry differs from the database's
    /// life. The field `now` is the life of the session (for a window) or of the database (for a log entry).
    #[error("of another life than {now}")]
    OtherLife {
        now: u64,
    },
    /// The window does not begin at the sequence `expected`, at which the stored windows end.
    #[error("a window that begins at {expected} is due")]
    Gap {
        expected: u64,
    },
    /// The window ends above the session's goal.
    #[error("the window ends above the goal")]
    PastGoal,
    /// The session has no window with the parcel's bounds, or a document of the parcel has no row in that window.
    #[error("the parcel is of no window of the session")]
    ForeignParcel,
    /// The parcel's window is already done.
    #[error("the window is done already")]
    AlreadyDone,
    /// A count of the session would exceed 9,007,199,254,740,991.
    #[error("a count of the session is full")]
    CountFull,
    /// Only the parcel's first `settled` documents are settled. The field `rest` has the remaining documents. The
    /// parcel's window is not done.
    #[error("stopped after {settled} documents")]
    Stopped {
        settled: u64,
        rest: Vec<Doc>,
        cause: Cause,
    },
    /// The parcel's documents are settled, but the window is not done because a leaf of the window's rows is not
    /// covered. The fields `seq` and `id` name the row of the first leaf that is not covered, and the field `rev` is
    /// this leaf.
    #[error("a leaf of the window is not covered")]
    Uncovered {
        seq: u64,
        id: DocId,
        rev: Rev,
    },
    /// The session has not reached its goal. Every window up to the sequence `low_water` is done.
    #[error("done only up to {low_water}")]
    Unfinished {
        low_water: u64,
    },
    /// The log's entry of the session has a recorded sequence (`stored`) that is greater than the new entry's recorded
    /// sequence.
    #[error("older than the stored entry, which recorded {stored}")]
    Older {
        stored: u64,
    },
    /// The peer has an incoming session.
    #[error("the peer is a target")]
    IsTarget,
    /// The backup is of a database with another UUID.
    #[error("the copy is of another database")]
    ForeignBackup,
    /// The database cannot be restored, because its life (a number that each restore raises) would exceed
    /// 9,007,199,254,740,991.
    #[error("no life is left")]
    LifeFull,
    /// The window size of a plan is 0 or exceeds 10,000.
    #[error("a window has 1 to 10000 rows")]
    BadBatch,
    /// The source and the target have the same UUID.
    #[error("a database is not replicated into itself")]
    SamePeer,
    /// An allocation failed.
    #[error("out of memory")]
    Memory,
}

/// The result of a session: the session's log entry without timestamps.
#[derive(Clone, Copy, Debug, PartialEq, Eq)]
pub struct Report {
    /// The session.
    pub session: SessionId,
    /// The source's sequence at which the session started. The session read only the changes above this sequence.
    pub start: u64,
    /// The source's sequence up to which every window of the session is done.
    pub recorded: u64,
    /// The session's counts of checked leaves, requested revisions, and read, accepted and rejected documents.
    pub counts: Counts,
}

impl From<AllocError> for Cause {
    ghost from_gives = { λ _ cause. cause ≡ causes.Memory };

    fn from(_refused: AllocError) -> Cause {
        Cause::Memory
    }
}

/// Converts an error of `Database::put`, other than `Contradiction`, to a `Cause`, the reason why settling stopped.
impl From<BaseFault> for Cause {
    ghost from_gives = { λ fault cause. cause ≡ cause_by_database fault };

    fn from(fault: BaseFault) -> Cause {
        match fault {
            BaseFault::Memory => Cause::Memory,
            _ => Cause::SeqFull,
        }
    }
}

/// Converts an error of `Front::finish` to a `Cause`, the reason why settling a parcel stopped. Before settling calls
/// `finish`, settling checks that the window exists and is not done. The only other error of `finish` is `Memory`.
impl From<FrontFault> for Cause {
    ghost from_gives = { λ fault cause. cause ≡ cause_by_front fault };

    fn from(fault: FrontFault) -> Cause {
        match fault {
            FrontFault::Memory => Cause::Memory,
            _ => Cause::SeqFull,
        }
    }
}

impl From<AllocError> for TargetFault {
    ghost from_gives = { λ _ fault. fault ≡ faults.Memory };

    fn from(_refused: AllocError) -> TargetFault {
        TargetFault::Memory
    }
}

impl<T: Drop> From<AllocFailed<T>> for TargetFault {
    ghost from_gives = { λ _ fault. fault ≡ faults.Memory };

    fn from(_refused: AllocFailed<T>) -> TargetFault {
        TargetFault::Memory
    }
}

/// Converts the error of a replication log to an error of the peer.
impl From<LogFault> for TargetFault {
    ghost from_gives = { λ refused fault. fault ≡ refused_by_log refused };

    fn from(refused: LogFault) -> TargetFault {
        match refused {
            LogFault::Older { stored } => TargetFault::Older { stored },
            LogFault::Memory => TargetFault::Memory,
            // Storing an entry in a log never returns `BadMoment` or `EmptyLog`.
            LogFault::BadMoment | LogFault::EmptyLog => TargetFault::Older { stored: 0 },
        }
    }
}

/// Converts an error of a session's `Front` to an error of the peer.
impl From<FrontFault> for TargetFault {
    ghost from_gives = { λ refused fault. fault ≡ refused_by_front refused };

    fn from(refused: FrontFault) -> TargetFault {
        match refused {
            FrontFault::NotRising { end } => TargetFault::Gap { expected: end },
            FrontFault::NoSuchWindow => TargetFault::ForeignParcel,
            FrontFault::AlreadyDone => TargetFault::AlreadyDone,
            FrontFault::Memory => TargetFault::Memory,
        }
    }
}
