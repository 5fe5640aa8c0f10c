//! Replication in both directions by one thread.
ghost use Rattle.std.specs.Prelude.{◌≡◌, List, OnOk};
ghost use Rattle.doc_json.specs.Chosen.{Choice};
ghost use Rattle.repl_peer.specs.peer.Backups.{BackupValue};
ghost use Rattle.repl_target.specs.ties.Ties.{IsTiedWith, StaysTied};
ghost use Rattle.repl_target.specs.replication.Sync.{Syncs, MeetBoth};
ghost use Rattle.repl_peer.specs.peer.Law.{Lawful};

use crate::replication::{Plan, replicate_alone};
use repl_peer::{Peer, Report, TargetFault, WriteFilter};
use std::alloc::Global;
use thiserror::Error;

/// The reports of two replications, one in each direction.
#[derive(Clone, Copy, Debug, PartialEq, Eq)]
pub struct Synced {
    /// The report of the forward replication, from peer `a` into peer `b`.
    pub there: Report,
    /// The report of the reverse replication, from peer `b` into peer `a`.
    pub back: Report,
}

/// The direction of the failed replication (forward or reverse), and the reason why it failed.
#[derive(Debug, Drop, Error)]
pub enum SyncFault {
    /// The forward replication, from peer `a` into peer `b`, failed, and the reverse replication did not begin.
    #[error("there: {0}")]
    There(TargetFault),
    /// The reverse replication, from peer `b` into peer `a`, failed after the forward replication had succeeded.
    #[error("back: {0}")]
    Back(TargetFault),
}

/// Replicates in both directions, on one thread. The call first replicates `a` into `b`. If the replication of `a` into
/// `b` succeeds, the call then replicates `b` into `a`. Each direction is a `replicate_alone` with a separate plan.
///
/// If the peers are consistent in both directions (docs/PROFILE.md, "Tied peers"), a successful call gives each peer
/// the other peer's leaves of each shared document. A document is shared if both plans select the document and neither
/// peer has ever refused the document. Two trees agree if no revision has different parents or contents in the two
/// trees. Assume that a shared document's trees agree and have complete histories before a successful call between
/// consistent peers. After the call, the trees still agree and have complete histories. Both peers then have the same
/// revisions, parents, contents of leaves and winner of the document.
///
/// If the peers are consistent in both directions, they stay consistent for every result of the call. Peer `a` stays
/// consistent with every other peer whose UUID differs from the UUID of `b`. Peer `b` stays consistent with every other
/// peer whose UUID differs from the UUID of `a`.
pub fn sync_alone<F: WriteFilter, G: WriteFilter>(
    alloc: Global,
    a: &mut Peer<F>,
    b: &mut Peer<G>,
    there: &Plan,
    back: &Plan,
) -> Result<Synced, SyncFault>
    ensures replicates { Syncs (F.refuses a.old.0) (G.refuses b.old.0) a.old.1 b.old.1 there.now back.now result
        a.new.1 b.new.1 }
    ensures filters { (a.new.0 ≡ a.old.0) × (b.new.0 ≡ b.old.0) }
    ensures a_law { Lawful (F.refuses a.new.0) a.new.1 }
    ensures b_law { Lawful (G.refuses b.new.0) b.new.1 }
    ensures tied_there { (chosen : Choice) (backups : List BackupValue)
        → IsTiedWith backups a.old.1 b.old.1 chosen → IsTiedWith backups a.new.1 b.new.1 chosen }
    ensures tied_back { (chosen : Choice) (backups : List BackupValue)
        → IsTiedWith backups b.old.1 a.old.1 chosen → IsTiedWith backups b.new.1 a.new.1 chosen }
    ensures others { StaysTied a.old.1 a.new.1 b.old.1.db.uuid × StaysTied b.old.1 b.new.1 a.old.1.db.uuid }
    ensures meet { OnOk result (MeetBoth a.old.1 b.old.1 a.new.1 b.new.1 there.now back.now) }
{
    a.law();
    b.law();
    let first = match replicate_alone(alloc, a, b, there) {
        Ok(report) => report,
        Err(fault) => return Err(SyncFault::There(fault)),
    };
    b.law();
    a.law();
    let second = match replicate_alone(alloc, b, a, back) {
        Ok(report) => report,
        Err(fault) => return Err(SyncFault::Back(fault)),
    };
    a.law();
    b.law();
    Ok(Synced {
        there: first,
        back: second,
    })
}
