//! The logs of a peer. A peer computes the logs of its incoming sessions from the sessions, and stores the logs of its
//! outgoing sessions.
ghost use Rattle.std.specs.Prelude.{◌≡◌, OnOk, OnErr, IfOk};
ghost use Rattle.std.specs.Option.{option_copied};
ghost use Rattle.repl_log.specs.Entry.{value_of};
ghost use Rattle.repl_peer.specs.logs.Checkpoint.{checkpoint_between, rep_between};
ghost use Rattle.repl_peer.specs.peer.Law.{Lawful};
ghost use Rattle.repl_peer.specs.session.Sessions.{GivesUnlessMemory};

use crate::fault::TargetFault;
use crate::peer::Peer;
use crate::peer::filter::WriteFilter;
use doc_json::Chosen;
use repl_log::{Entry, Log, RepId};
use rev_tree::SessionId;
use std::alloc::{AllocError, Global};

/// Returns the id of the replication from one peer into another. The replication id contains the UUIDs of the source's
/// database and of the target's database. The returned id and the selection `chosen` share one list of document ids in
/// memory. The contract of `rep_between` also states that both peers satisfy the invariant of peers.
pub fn rep_between<F: WriteFilter, G: WriteFilter>(
    source: &Peer<F>,
    target: &Peer<G>,
    chosen: Option<&Chosen>,
) -> Result<RepId, AllocError>
    ensures id { IfOk result (λ id. id ≡ rep_between source.now.1 target.now.1 (option_copied chosen.entry)) }
    ensures source_law { Lawful (F.refuses source.now.0) source.now.1 }
    ensures target_law { Lawful (G.refuses target.now.0) target.now.1 }
{
    RepId::new(source.db().uuid(), target.db().uuid(), chosen)
}

/// Returns the common checkpoint of a replication (docs/PROFILE.md, "Common checkpoint"). The checkpoint names the
/// newest session in the target's log that the source's log also has. The checkpoint's sequence is the lesser of the
/// two sequences that the source's log and the target's log have recorded for this session. Returns `None` if the logs
/// share no session.
///
/// The call scans the target's sessions of the replication, newest first, until it finds a session that is also in the
/// source's log. Does not allocate.
pub fn checkpoint<F: WriteFilter, G: WriteFilter>(
    source: &Peer<F>,
    target: &Peer<G>,
    rep: &RepId,
) -> Option<(SessionId, u64)>
    ensures { result ≡ checkpoint_between source.now.1 target.now.1 rep.now }
{
    match source.outgoing.get(rep) {
        Some(log) => target.sessions.shared_with(rep, log),
        None => None,
    }
}

impl<F: WriteFilter> Peer<F> {
    ghost use Rattle.repl_peer.specs.logs.Logs.{target_log, source_log, put_entry_answer, after_put_entry};

    /// Returns the log of a replication into this peer: the entries of the replication's sessions, newest first.
    pub fn target_log(&self, alloc: Global, rep: &RepId) -> Result<Log, AllocError>
        ensures log { IfOk result (λ l. l ≡ target_log self.now.1 rep.now) }
    {
        self.sessions.log(alloc, rep)
    }

    /// Returns the stored log of a replication from this peer, or an empty log if none is stored.
    pub fn source_log(&self, alloc: Global, rep: &RepId) -> Result<Log, AllocError>
        ensures log { IfOk result (λ l. l ≡ source_log self.now.1 rep.now) }
    {
        self.outgoing.copy_of(alloc, rep)
    }

    /// Stores an entry in the log of a replication from this peer. If the replication has no log, the call creates it.
    ///
    /// # Errors
    ///
    /// Checked in this order; an error changes nothing:
    ///
    /// - `OtherLife`: the entry's life is not the database's current life.
    /// - `Older`: the log's entry of the session has a greater recorded sequence.
    /// - `Memory`: an allocation failed.
    pub fn put_entry(&mut self, rep: &RepId, entry: Entry) -> Result<(), TargetFault>
        ensures answer { GivesUnlessMemory result (put_entry_answer self.old.1 rep.now (value_of entry)) }
        ensures filter { self.new.0 ≡ self.old.0 }
        ensures ok { OnOk result (self.new.1 ≡ after_put_entry self.old.1 rep.now (value_of entry)) }
        ensures err { OnErr result (self.new.1 ≡ self.old.1) }
        ensures law { Lawful (F.refuses self.new.0) self.new.1 }
    {
        let now = self.db.life();
        if entry.life != now {
            return Err(TargetFault::OtherLife { now });
        }
        self.outgoing.put(rep, entry)?;
        Ok(())
    }
}
