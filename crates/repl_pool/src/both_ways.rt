//! Replication in both directions by the pool.
ghost use Rattle.std.specs.Prelude.{List, OnOk};
ghost use Rattle.doc_json.specs.Chosen.{Choice};
ghost use Rattle.repl_peer.specs.peer.Backups.{BackupValue};
ghost use Rattle.repl_target.specs.ties.Ties.{IsTiedWith, StaysTied};
ghost use Rattle.repl_target.specs.replication.Sync.{MeetBoth};
ghost use Rattle.repl_pool.specs.Sync.{SyncRuns};

use crate::running::{Ran, run};
use pool_workers::{Gate, PoolFault};
use repl_target::{Peer, Plan, Synced, WriteFilter};
use std::alloc::Global;
use std::sync::Wait;
use std::thread::Threads;
use thiserror::Error;

/// Which of the two runs failed (forward or reverse), and why.
#[derive(Debug, Drop, Error)]
pub enum SyncFault {
    /// The run from the first peer into the second failed. If the forward run failed, the reverse run did not begin.
    #[error("there: {0}")]
    There(PoolFault),
    /// The run from the second peer into the first failed. If the reverse run failed, the forward run had succeeded.
    #[error("back: {0}")]
    Back(PoolFault),
}

/// The result of replicating in both directions: both peers, and the reports of the two runs or the error.
#[derive(Drop)]
pub struct SyncRan<F: WriteFilter> {
    /// The first peer.
    pub a: Peer<F>,
    /// The second peer.
    pub b: Peer<F>,
    /// The reports of the runs in both directions, or the error of the run that failed.
    pub outcome: Result<Synced, SyncFault>,
}

/// Replicates in both directions with a pool of threads. The first run replicates peer `a` into peer `b`, and uses the
/// plan `there`. If the first run succeeds, a second run replicates `b` into `a`, and uses the plan `back`. In both
/// directions, workers call the same `Gate`.
///
/// A successful call has all guarantees of `sync_alone`. A document is shared if both plans of `sync` select the
/// document, and neither peer has ever rejected it. After a successful `sync` of peers that were consistent in both
/// directions (docs/PROFILE.md, "Tied peers"), each peer has all leaves of each shared document. If the revision trees
/// of a shared document also agreed and had complete histories, both peers have the same document after the `sync`. If
/// the peers are consistent in both directions, they stay consistent, even if the call fails. Peer `a` stays consistent
/// with each third peer that does not have the UUID of `b`. Peer `b` stays consistent with each third peer that does
/// not have the UUID of `a`.
///
/// The call of `sync` blocks until the replications end. The contract of `sync` does not guarantee that the
/// replications end.
pub fn sync<F: WriteFilter + Send + Sync, G: Gate + Sync, R: Threads + Wait + Sync>(
    rt: &R,
    alloc: Global,
    a: Peer<F>,
    b: Peer<F>,
    there: &Plan,
    back: &Plan,
    gate: &G,
) -> SyncRan<F>
    ensures runs { SyncRuns F.refuses (G.may_stop gate.now) there.now back.now a b result.a result.b result.outcome }
    ensures tied_there { (chosen : Choice) (backups : List BackupValue)
        → IsTiedWith backups a.1 b.1 chosen → IsTiedWith backups result.a.1 result.b.1 chosen }
    ensures tied_back { (chosen : Choice) (backups : List BackupValue)
        → IsTiedWith backups b.1 a.1 chosen → IsTiedWith backups result.b.1 result.a.1 chosen }
    ensures others { StaysTied a.1 result.a.1 b.1.db.uuid × StaysTied b.1 result.b.1 a.1.db.uuid }
    ensures meet { OnOk result.outcome (MeetBoth a.1 b.1 result.a.1 result.b.1 there.now back.now) }
{
    a.law();
    b.law();
    let Ran {
        source: a,
        target: b,
        fetched: _,
        seats: _,
        outcome,
    } = run(rt, alloc, a, b, there, gate);
    let first = match outcome {
        Ok(report) => report,
        Err(fault) => {
            let outcome = Err(SyncFault::There(fault));
            return SyncRan { a, b, outcome };
        }
    };
    b.law();
    a.law();
    let Ran {
        source: b,
        target: a,
        fetched: _,
        seats: _,
        outcome,
    } = run(rt, alloc, b, a, back, gate);
    a.law();
    b.law();
    match outcome {
        Ok(report) => {
            let synced = Synced {
                there: first,
                back: report,
            };
            let outcome = Ok(synced);
            SyncRan { a, b, outcome }
        }
        Err(fault) => {
            let outcome = Err(SyncFault::Back(fault));
            SyncRan { a, b, outcome }
        }
    }
}
