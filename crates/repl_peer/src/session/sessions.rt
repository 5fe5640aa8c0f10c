//! The table of a peer's incoming sessions.
ghost use Rattle.std.specs.Prelude.{◌≡◌, [], ◌∷◌, ◌==◌, Ok, length, slice_get, OnOk, OnErr, IfOk, if◌then◌else◌};
ghost use Rattle.std.specs.Option.{option_copied, option_map};
ghost use Rattle.range_front.specs.Front.{low_water};
ghost use Rattle.repl_log.specs.Log.{common};
ghost use Rattle.repl_peer.specs.logs.Logs.{log_of};
ghost use Rattle.repl_peer.specs.peer.Peer.{PeerValue, session_in};
ghost use Rattle.repl_peer.specs.session.Sessions.{GivesUnlessMemory, new_session, append_in, with_window, recorded_at, conclude_in};
ghost use Rattle.repl_peer.specs.session.Settling.{SettleGives};
ghost use Rattle.repl_peer.specs.session.SettlingParts.{with_parts};
ghost use Rattle.repl_peer.specs.session.SessionCalls.{in_ledgers, with_changed, answer_in, begin_in, recorded_by};

use crate::fault::{Report, Settled, TargetFault};
use crate::peer::filter::WriteFilter;
use crate::session::Session;
use crate::session::beginning::Beginning;
use crate::session::deferred_drops::DeferredDrops;
use crate::session::ledger_index::LedgerIndex;
use crate::session::ready_window::ReadyWindow;
use crate::session::rep_index::RepIndex;
use crate::session::settle::settle_parcel;
use couch_base::{Database, Parcel};
use doc_json::DocId;
use indexmap::IndexMap;
use repl_log::{Log, Moment, RepId};
use rev_core::Rev;
use rev_tree::SessionId;
use std::alloc::{AllocError, Global};
use std::marker::Model;

/// The incoming sessions of a peer, newest first, with lookup tables of refused revisions and of sessions by
/// replication.
///
/// The map `entries` has the sessions by session id, and keeps the order in which the sessions began. A call that gets
/// a session id finds the session in this map without a scan of all sessions.
#[derive(Drop)]
pub(crate) struct Sessions {
    entries: IndexMap<SessionId, Session>,
    ledgered: LedgerIndex,
    by_rep: RepIndex,
}

impl Model for Sessions {
    ghost use Rattle.std.specs.Prelude.{List};
    ghost use Rattle.std.specs.Coded.{coded_list};
    ghost use Rattle.repl_peer.specs.peer.Peer.{SessionValue};
    ghost use Rattle.repl_peer.specs.peer.PeerCode.{coded_session};

    ghost Value = { List SessionValue };

    ghost coded = { coded_list coded_session };

    ghost use Rattle.repl_peer.specs.session.StoredSessions.{sessions_of, AreListed, IsTableOf};

    ghost view = { λ s. sessions_of s.entries.entries };

    ghost invariant = { λ s. IsTableOf s.ledgered s.entries.entries × AreListed s.by_rep (sessions_of s.entries.entries) };
}

impl Sessions {
    /// Creates an empty table.
    pub(crate) fn new(alloc: Global) -> Sessions
        ensures { result ≡ [] }
    {
        Sessions {
            entries: IndexMap::new(alloc),
            ledgered: LedgerIndex::new(alloc),
            by_rep: RepIndex::new(alloc),
        }
    }

    // ---- readers

    /// Returns the allocator of the table.
    pub(crate) fn allocator(&self) -> Global {
        *self.entries.allocator()
    }

    /// Returns the number of sessions.
    pub(crate) fn len(&self) -> usize
        ensures { result ≡ length self.now }
    {
        self.entries.len()
    }

    /// Returns the id of the session at an index, if there is one. The index of the newest session is 0.
    pub(crate) fn id_at(&self, place: usize) -> Option<SessionId>
        ensures { result ≡ option_map (λ s. s.id) (slice_get self.now place) }
    {
        let len = self.entries.len();
        if place >= len {
            return None;
        }
        let (_, session) = self.entries.get_index(len - 1 - place)?;
        Some(session.id)
    }

    /// Returns the session with the given id.
    pub(crate) fn find(&self, id: SessionId) -> Option<&Session>
        ensures { option_copied result ≡ session_in self.now id }
    {
        self.entries.get(&id)
    }

    /// Whether a revision is in the ancestry of a document that a session refused.
    pub(crate) fn has_refused(&self, id: &DocId, rev: Rev) -> bool
        ensures { result ≡ in_ledgers self.now id.now rev }
    {
        self.ledgered.has(id, rev)
    }

    /// Returns the log entries of the sessions of a replication, newest first. The call scans only the sessions of the
    /// given replication.
    pub(crate) fn log(&self, alloc: Global, rep: &RepId) -> Result<Log, AllocError>
        ensures log { IfOk result (λ l. l ≡ log_of self.now rep.now) }
    {
        let mut log = Log::new(alloc);
        let ids = self.by_rep.of(rep);
        for i in 0..ids.len() {
            let id = ids[i];
            let Some(session) = self.entries.get(&id) else {
                unreachable!()
            };
            log.set(session.entry())?;
        }
        Ok(log)
    }

    /// Returns the common checkpoint of a replication. The checkpoint names the replication's newest session that is
    /// also in the source's log. The checkpoint's sequence is the lesser of the two sequences that the target and the
    /// source's log have recorded for this session. The call scans only sessions of the replication `rep`, newest
    /// first, and stops at the first session that is also in the source's log.
    pub(crate) fn shared_with(&self, rep: &RepId, source: &Log) -> Option<(SessionId, u64)>
        ensures { result ≡ common source.now (log_of self.now rep.now) }
    {
        let ids = self.by_rep.of(rep);
        let mut left = ids.len();
        while left > 0 {
            left -= 1;
            let id = ids[left];
            if let Some(recorded) = source.recorded_of(id) {
                let Some(session) = self.entries.get(&id) else {
                    unreachable!()
                };
                return Some((id, recorded.min(session.recorded)));
            }
        }
        None
    }

    // ---- changes

    /// Begins a session, which becomes the newest session.
    ///
    /// # Errors
    ///
    /// Checked in this order; an error changes nothing:
    ///
    /// - `SessionExists`: there is a session with the given id.
    /// - `NoSuchBase`: the base is not a session of the same replication.
    /// - `StartAboveBase`: the start exceeds the base's recorded sequence or, if there is no base, exceeds 0.
    /// - `GoalBelowStart`: the goal is below the start.
    /// - `Memory`: an allocation failed.
    pub(crate) fn begin(
        &mut self,
        id: SessionId,
        beginning: Beginning,
        at: Moment,
    ) -> Result<(), TargetFault>
        ensures answer { GivesUnlessMemory result (begin_in self.old id beginning) }
        ensures ok { OnOk result (self.new ≡ new_session id beginning at ∷ self.old) }
        ensures err { OnErr result (self.new ≡ self.old) }
    {
        self.check_new(id, &beginning)?;
        let alloc = *self.entries.allocator();
        self.entries.reserve(1)?;
        self.by_rep.add(&beginning.scope.rep, id)?;
        let session = Session::new(alloc, id, beginning, at);
        let Ok(_) = self.entries.insert(id, session) else {
            unreachable!()
        };
        Ok(())
    }

    /// Checks whether a session may begin.
    fn check_new(&self, id: SessionId, beginning: &Beginning) -> Result<(), TargetFault>
        ensures { result ≡ begin_in self.now id beginning.now }
    {
        let (start, goal) = (beginning.start, beginning.scope.goal);
        if self.entries.contains_key(&id) {
            return Err(TargetFault::SessionExists);
        }
        let recorded = self.recorded_of(&beginning.scope.rep, beginning.scope.base)?;
        if start > recorded {
            return Err(TargetFault::StartAboveBase { recorded });
        }
        if goal < start {
            return Err(TargetFault::GoalBelowStart);
        }
        Ok(())
    }

    /// Returns the recorded sequence of the earlier session `base`, or 0 if `base` is `None`. Returns `NoSuchBase` if
    /// `base` is not the id of a session of the replication `rep`.
    fn recorded_of(&self, rep: &RepId, base: Option<SessionId>) -> Result<u64, TargetFault>
        ensures { result ≡ recorded_by self.now rep.now base }
    {
        let Some(base) = base else {
            return Ok(0);
        };
        match self.entries.get(&base) {
            Some(session) => {
                if session.scope.rep == *rep {
                    Ok(session.recorded)
                } else {
                    Err(TargetFault::NoSuchBase)
                }
            }
            None => Err(TargetFault::NoSuchBase),
        }
    }

    /// Adds the next window to a session.
    pub(crate) fn append(&mut self, id: SessionId, ready: ReadyWindow) -> Result<(), TargetFault>
        ensures answer { GivesUnlessMemory result (answer_in self.old id (append_in ready)) }
        ensures ok { OnOk result (self.new
            ≡ with_changed self.old id (λ s. with_window ready s (append_in ready s))) }
        ensures err { OnErr result (self.new ≡ self.old) }
    {
        let Some(session) = self.entries.get_mut(&id) else {
            return Err(TargetFault::NoSuchSession);
        };
        session.append(ready)
    }

    /// Settles a parcel of a session as `settle_parcel` does, but first checks for the error `NoSuchSession`.
    pub(crate) fn settle_session<F: WriteFilter>(
        &mut self,
        filter: &F,
        db: &mut Database,
        id: SessionId,
        parcel: Parcel,
        spent: &mut DeferredDrops,
    ) -> Result<Settled, TargetFault>
        ensures { (p : PeerValue)
            → SettleGives (F.refuses filter.now) (with_parts p db.old self.old) id parcel result
            (with_parts p db.new self.new) }
    {
        let Some(session) = self.entries.get_mut(&id) else {
            return Err(TargetFault::NoSuchSession);
        };
        settle_parcel(filter, db, &mut self.ledgered, session, parcel, spent)
    }

    /// Records the low water of a session.
    pub(crate) fn record(&mut self, id: SessionId, at: Moment) -> Result<u64, TargetFault>
        ensures answer { result ≡ answer_in self.old id (λ s. Ok (low_water s.front)) }
        ensures sessions { self.new ≡ with_changed self.old id (recorded_at at) }
    {
        let Some(session) = self.entries.get_mut(&id) else {
            return Err(TargetFault::NoSuchSession);
        };
        Ok(session.record(at))
    }

    /// Concludes a session if every window up to the session's goal is done.
    pub(crate) fn conclude(&mut self, id: SessionId, at: Moment) -> Result<Report, TargetFault>
        ensures answer { result ≡ answer_in self.old id conclude_in }
        ensures sessions { self.new
            ≡ with_changed self.old id (λ s. if low_water s.front == s.goal then recorded_at at s else s) }
    {
        let Some(session) = self.entries.get_mut(&id) else {
            return Err(TargetFault::NoSuchSession);
        };
        session.conclude(at)
    }
}
