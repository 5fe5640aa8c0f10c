//! Peers.
ghost use Rattle.std.specs.Prelude.{◌≡◌, ◌<◌, ◌≤◌, not, length, Ok, OnOk, OnErr, IfOk};
ghost use Rattle.std.specs.List.{find};
ghost use Rattle.std.specs.Option.{option_copied};
ghost use Rattle.rev_tree.specs.Tree.{has};
ghost use Rattle.couch_base.specs.Database.{tree_of};

pub(crate) mod backup;
pub(crate) mod filter;
pub(crate) mod ghost_writes;
pub(crate) mod local;
mod readers;

use crate::fault::{Report, Settled, TargetFault};
use crate::peer::filter::WriteFilter;
use crate::peer::local::Locals;
use crate::session::beginning::Beginning;
use crate::session::deferred_drops::DeferredDrops;
use crate::session::ready_window::ReadyWindow;
use crate::session::rows::has_in;
use crate::session::sessions::Sessions;
use couch_base::{
    Asked, BaseFault, Change, Database, Listed, LookupHint, Parcel, Put, Revised, Window,
};
use doc_json::{Body, Chosen, Doc, DocId};
use repl_log::{Entry, Logs, Moment};
use rev_core::Rev;
use rev_tree::SessionId;
use std::alloc::{AllocError, Global};
use std::marker::Model;

/// One side of a replication: a database, its local writes, its incoming sessions, and the logs of its outgoing
/// sessions.
///
/// The invariant of a peer (docs/PROFILE.md, "The peer's law") holds after every call, in any order of calls.
pub struct Peer<F: WriteFilter> {
    filter: F,
    pub(crate) db: Database,
    pub(crate) locals: Locals,
    pub(crate) sessions: Sessions,
    pub(crate) outgoing: Logs,
}

// `Peer` implements `Drop` by hand. With `#[derive(Drop)]`, each crate that owns a `Peer` would have to prove the
// derived code again (docs/DECISIONS.md, "Letting values go").
impl<F: WriteFilter + Drop> Drop for Peer<F> {
    fn drop(self) {
        let Peer {
            filter: _,
            db: _,
            locals: _,
            sessions: _,
            outgoing: _,
        } = self;
    }
}

impl<F: WriteFilter> Model for Peer<F> {
    ghost use Rattle.std.specs.Coded.{coded×};
    ghost use Rattle.repl_peer.specs.peer.Peer.{PeerValue};
    ghost use Rattle.repl_peer.specs.peer.PeerCode.{coded_peer};

    ghost Value = { F × PeerValue };

    ghost coded = { coded× F.code coded_peer };

    ghost use Rattle.repl_peer.specs.peer.Stored.{IsStoredPeer};

    ghost view = { λ p. (
      p.filter,
      record {
        db = p.db;
        locals = p.locals;
        sessions = p.sessions;
        outgoing = p.outgoing;
      },
    ) };

    ghost invariant = { λ p. IsStoredPeer (F.refuses p.filter) (record {
      db = p.db;
      locals = p.locals;
      sessions = p.sessions;
      outgoing = p.outgoing;
    }) };
}

impl<F: WriteFilter> Peer<F> {
    ghost use Rattle.couch_base.specs.Lists.{Among};
    ghost use Rattle.couch_base.specs.Database.{LawfulDatabase, no_documents_at};
    ghost use Rattle.couch_base.specs.Answers.{GivesUnlessMemory as BaseUnlessMemory};
    ghost use Rattle.couch_base.specs.Put.{put_answer, PutGives};
    ghost use Rattle.couch_base.specs.Edit.{edit_answer, EditGives};
    ghost use Rattle.couch_base.specs.Feed.{page, page_answer};
    ghost use Rattle.couch_base.specs.Messages.{revs_diff, open_revs};
    ghost use Rattle.repl_peer.specs.peer.Peer.{SessionValue, new_peer, new_peer_at, entry_of};
    ghost use Rattle.repl_peer.specs.peer.Covered.{covers, Honest};
    ghost use Rattle.repl_peer.specs.peer.Writing.{after_load, after_edit};
    ghost use Rattle.repl_peer.specs.session.Sessions.{GivesUnlessMemory, session_answer, begin_answer, after_begin, append_answer, after_append, record_answer, after_record, conclude_answer, after_conclude};
    ghost use Rattle.repl_peer.specs.session.Settling.{SettleGives};
    ghost use Rattle.repl_peer.specs.session.SessionCalls.{entry_value};
    ghost use Rattle.repl_peer.specs.peer.Law.{Lawful};
    ghost use Rattle.repl_peer.specs.peer.Trusted.{IsTrusted};

    /// Creates a peer without documents. `uuid` is the database's UUID as a number, and `filter` decides which
    /// replicated documents the peer refuses.
    pub fn new(alloc: Global, uuid: u128, filter: F) -> Peer<F>
        ensures value { result ≡ (filter, new_peer uuid) }
        ensures law { Lawful (F.refuses result.0) result.1 }
    {
        Peer::without_sessions(alloc, Database::new(alloc, uuid), filter)
    }

    /// Creates a peer with an empty database.
    fn without_sessions(alloc: Global, db: Database, filter: F) -> Peer<F>
        requires { db ≡ no_documents_at db.uuid db.update_seq }
        ensures value { result ≡ (filter, new_peer_at db.uuid db.update_seq) }
        ensures law { Lawful (F.refuses result.0) result.1 }
    {
        Peer {
            filter,
            db,
            locals: Locals::new(),
            sessions: Sessions::new(alloc),
            outgoing: Logs::new(alloc),
        }
    }

    /// Returns the database.
    ///
    /// The contract of `db` also states the following properties, which every peer has. Up to a session's recorded
    /// sequence, each leaf in the rows of the session's windows is covered: it is in the tree or rightly refused. Each
    /// revision in the database comes from a local write or from a row of a window. The number of read documents is the
    /// number of written documents plus the number of refused documents.
    pub fn db(&self) -> &Database
        ensures value { result.now ≡ self.now.1.db }
        ensures law { Lawful (F.refuses self.now.0) self.now.1 }
        ensures honest { (s : SessionValue) → Among s self.now.1.sessions → Honest self.now.1 s s.recorded }
        ensures trusted { IsTrusted (F.refuses self.now.0) self.now.1 }
    {
        &self.db
    }

    /// Gives proofs the invariant of the peer and the invariant of the peer's database. A call of `law` has no effect
    /// at run time.
    pub fn law(&self)
        ensures peer { Lawful (F.refuses self.now.0) self.now.1 }
        ensures database { LawfulDatabase self.now.1.db }
    {
        self.db.law();
    }

    /// Returns the write filter.
    pub fn filter(&self) -> &F
        ensures { result.now ≡ self.now.0 }
    {
        &self.filter
    }

    // ---- local writes

    /// Stores a user's document with the ancestry in `doc`, without computing a new revision id. If the put changes the
    /// database, the put becomes the peer's next local write.
    ///
    /// The call returns the errors of `Database::put`. The call returns `Memory` only if the put would change the
    /// database. An error changes nothing.
    pub fn load(&mut self, doc: &Doc) -> Result<Put, BaseFault>
        ensures answer { PutGives result (put_answer self.old.1.db doc.now) }
        ensures filter { self.new.0 ≡ self.old.0 }
        ensures ok { OnOk result (self.new.1 ≡ after_load self.old.1 doc.now) }
        ensures err { OnErr result (self.new.1 ≡ self.old.1) }
        ensures law { Lawful (F.refuses self.new.0) self.new.1 }
    {
        local::load(&mut self.db, &mut self.locals, doc)
    }

    /// Edits a document, stores the edit as the next local write, and returns the new revision.
    ///
    /// The call returns the errors of `Database::edit`. The call never returns `Memory` instead of `NoSuchDocument`,
    /// `Conflict` or `GenerationFull`. An error changes nothing.
    pub fn edit(&mut self, id: &DocId, parent: Option<Rev>, deleted: bool, body: &Body) -> Revised
        ensures answer { EditGives result (edit_answer self.old.1.db id.now parent deleted body.now) }
        ensures filter { self.new.0 ≡ self.old.0 }
        ensures ok { OnOk result (self.new.1 ≡ after_edit self.old.1 id.now parent deleted body.now) }
        ensures err { OnErr result (self.new.1 ≡ self.old.1) }
        ensures law { Lawful (F.refuses self.new.0) self.new.1 }
    {
        local::edit(&mut self.db, &mut self.locals, id, parent, deleted, body)
    }

    // ---- database calls

    /// Returns a page of the changes feed (`Database::page`).
    pub fn page(
        &self,
        alloc: Global,
        since: u64,
        goal: u64,
        limit: u64,
        chosen: Option<&Chosen>,
    ) -> Listed
        ensures { BaseUnlessMemory result
            (page_answer self.now.1.db since goal limit (option_copied chosen.entry)) }
    {
        self.db.page(alloc, since, goal, limit, chosen)
    }

    /// Returns a page of the changes feed by calling `Database::page_due`. The caller guarantees that `limit` is above
    /// 0, `since` is below `goal`, and `goal` is at most the update sequence.
    pub fn page_due(
        &self,
        alloc: Global,
        since: u64,
        goal: u64,
        limit: u64,
        chosen: Option<&Chosen>,
    ) -> Result<Window, AllocError>
        requires limit { 0 < limit }
        requires range { since < goal }
        requires goal { goal ≤ self.now.1.db.update_seq }
        ensures { IfOk result (λ w. w ≡ page self.now.1.db since goal limit (option_copied chosen.entry)) }
    {
        self.db.page_due(alloc, since, goal, limit, chosen)
    }

    /// Returns those leaves of a window from another database that this peer's database lacks (`Database::revs_diff`).
    pub fn revs_diff(&self, alloc: Global, window: &Window) -> Result<Asked, AllocError>
        ensures asked { IfOk result (λ a. a ≡ revs_diff self.now.1.db window.now) }
    {
        self.db.revs_diff(alloc, window)
    }

    /// Returns the documents for a request (`Database::open_revs`).
    pub fn open_revs(&self, alloc: Global, asked: &Asked) -> Result<Parcel, AllocError>
        ensures parcel { IfOk result (λ p. p ≡ open_revs self.now.1.db asked.now) }
    {
        self.db.open_revs(alloc, asked)
    }

    /// Does the same as `open_revs`, but moves the request into the parcel instead of copying it.
    pub fn open_asked(&self, alloc: Global, asked: Asked) -> Result<Parcel, AllocError>
        ensures parcel { IfOk result (λ p. p ≡ open_revs self.now.1.db asked) }
    {
        self.db.open_asked(alloc, asked)
    }

    /// Returns the number of documents that `open_revs` would return.
    pub fn count_asked(&self, alloc: Global, asked: &Asked) -> Result<u128, AllocError>
        ensures count { IfOk result (λ n. n ≡ length (open_revs self.now.1.db asked.now).docs) }
    {
        self.db.count_asked(alloc, asked)
    }

    /// Whether a revision is covered: the revision is in its document's tree, or in the ancestry of a document that a
    /// session refused.
    pub fn covered(&self, id: &DocId, rev: Rev) -> bool
        ensures { result ≡ covers self.now.1 id.now rev }
    {
        has_in(self.db.tree(id), rev) || self.sessions.has_refused(id, rev)
    }

    /// Returns a changed document's first leaf that is not covered. The hint `near` makes lookups faster if the caller
    /// passes documents in order.
    pub fn uncovered_in(
        &self,
        alloc: Global,
        near: &mut LookupHint,
        change: &Change<'_>,
    ) -> Result<Option<Rev>, AllocError>
        ensures { IfOk result
            (λ rev. rev ≡ find (λ rev. not (covers self.now.1 change.now.id rev)) change.now.leaves) }
    {
        let tree = self.db.tree_by_hint(near, change.id());
        let leaves = change.leaves(alloc)?;
        for rev in leaves.as_slice() {
            if !(has_in(tree, *rev) || self.sessions.has_refused(change.id(), *rev)) {
                return Ok(Some(*rev));
            }
        }
        Ok(None)
    }

    /// Reserves the capacity that storing all documents of another peer needs (`Database::reserve_like`).
    pub fn reserve_like<G: WriteFilter>(&mut self, other: &Peer<G>)
        ensures same { self.new ≡ self.old }
    {
        self.db.reserve_like(&other.db);
    }

    // ---- sessions

    /// Begins a session, which becomes the peer's newest session.
    ///
    /// # Errors
    ///
    /// Checked in this order; an error changes nothing:
    ///
    /// - `SessionExists`: the peer already has a session with the given id.
    /// - `NoSuchBase`: the base is not a session of the same replication.
    /// - `StartAboveBase`: the start exceeds the base's recorded sequence or, if there is no base, exceeds 0.
    /// - `GoalBelowStart`: the goal is below the start.
    /// - `Memory`: an allocation failed.
    pub fn begin(
        &mut self,
        id: SessionId,
        beginning: Beginning,
        at: Moment,
    ) -> Result<(), TargetFault>
        ensures answer { GivesUnlessMemory result (begin_answer self.old.1 id beginning) }
        ensures filter { self.new.0 ≡ self.old.0 }
        ensures ok { OnOk result (self.new.1 ≡ after_begin self.old.1 id beginning at) }
        ensures err { OnErr result (self.new.1 ≡ self.old.1) }
        ensures law { Lawful (F.refuses self.new.0) self.new.1 }
    {
        self.sessions.begin(id, beginning, at)
    }

    /// Adds the next window to a session.
    ///
    /// # Errors
    ///
    /// Checked in this order; an error changes nothing:
    ///
    /// - `NoSuchSession`: the peer has no session with the given id.
    /// - `OtherLife`: the window's life is not the session's life.
    /// - `Gap`: the window does not begin at the end of the stored windows.
    /// - `PastGoal`: the window ends above the goal.
    /// - `Memory`: an allocation failed.
    pub fn append(&mut self, id: SessionId, window: Window) -> Result<(), TargetFault>
        ensures answer { GivesUnlessMemory result (append_answer self.old.1 id window) }
        ensures filter { self.new.0 ≡ self.old.0 }
        ensures ok { OnOk result (self.new.1 ≡ after_append self.old.1 id window) }
        ensures err { OnErr result (self.new.1 ≡ self.old.1) }
        ensures law { Lawful (F.refuses self.new.0) self.new.1 }
    {
        self.append_prepared(id, ReadyWindow::new(window))
    }

    /// Does the same as `append` for a prepared window. A prepared window may have a copy of its rows without the
    /// leaves, which was built in advance. When a prepared window is done, the session stores only the rows without
    /// leaves, unless their allocation fails.
    pub fn append_prepared(&mut self, id: SessionId, ready: ReadyWindow) -> Result<(), TargetFault>
        ensures answer { GivesUnlessMemory result (append_answer self.old.1 id ready) }
        ensures filter { self.new.0 ≡ self.old.0 }
        ensures ok { OnOk result (self.new.1 ≡ after_append self.old.1 id ready) }
        ensures err { OnErr result (self.new.1 ≡ self.old.1) }
        ensures law { Lawful (F.refuses self.new.0) self.new.1 }
    {
        // Only the proof needs the call of `hi`: the contract of `hi` states that the window satisfies the invariant of
        // windows.
        let _hi = ready.window().hi();
        self.sessions.append(id, ready)
    }

    /// Settles a parcel of a session: applies the parcel's documents in order, then marks the parcel's window as done.
    ///
    /// If the filter refuses a document, or if the document contradicts the tree, the document goes into the session's
    /// ledger. Any other document counts as written, even if the tree already had the document. Returns the number of
    /// written documents and the number of documents that went into the ledger.
    ///
    /// # Errors
    ///
    /// Checked in this order; the first four change nothing:
    ///
    /// - `NoSuchSession`: the peer has no session with the given id.
    /// - `ForeignParcel`: the session has no window with the parcel's bounds, or a document has no row in that window.
    /// - `AlreadyDone`: the window is already done.
    /// - `CountFull`: a count of the session would exceed 9,007,199,254,740,991.
    /// - `Stopped`: a document could not get a sequence, or an allocation failed. When `settle` stops, the parcel's
    ///   first `settled` documents are settled, and the field `rest` of `Stopped` has the remaining documents.
    /// - `Uncovered`: the target does not cover a leaf of the window's rows, because the leaf is neither in the
    ///   document's tree nor in a session's ledger. The error `Uncovered` names the first leaf that the target does not
    ///   cover. All documents are settled.
    pub fn settle(&mut self, id: SessionId, parcel: Parcel) -> Result<Settled, TargetFault>
        ensures settles { SettleGives (F.refuses self.old.0) self.old.1 id parcel result self.new.1 }
        ensures filter { self.new.0 ≡ self.old.0 }
        ensures law { Lawful (F.refuses self.new.0) self.new.1 }
    {
        let mut spent = DeferredDrops::new(self.sessions.allocator());
        self.settle_into(id, parcel, &mut spent)
    }

    /// Does the same as `settle`. If all documents are settled, the call moves the parts of the parcel into `spent`
    /// instead of dropping the parts. A caller that holds the peer's lock can drop `spent` after the caller releases
    /// the lock.
    ///
    /// The call stores a new document in less time if the parcel has a prepared tree of the document
    /// (`Parcel::prepare`).
    pub fn settle_into(
        &mut self,
        id: SessionId,
        parcel: Parcel,
        spent: &mut DeferredDrops,
    ) -> Result<Settled, TargetFault>
        ensures settles { SettleGives (F.refuses self.old.0) self.old.1 id parcel result self.new.1 }
        ensures filter { self.new.0 ≡ self.old.0 }
        ensures law { Lawful (F.refuses self.new.0) self.new.1 }
    {
        self.sessions
            .settle_session(&self.filter, &mut self.db, id, parcel, spent)
    }

    /// Records the low water of a session, and returns the low water. The low water is the source's sequence up to
    /// which every window is done.
    ///
    /// Returns `NoSuchSession` if the peer has no session with the given id. Does not allocate.
    pub fn record(&mut self, id: SessionId, at: Moment) -> Result<u64, TargetFault>
        ensures answer { result ≡ record_answer self.old.1 id }
        ensures filter { self.new.0 ≡ self.old.0 }
        ensures peer { self.new.1 ≡ after_record self.old.1 id at }
        ensures law { Lawful (F.refuses self.new.0) self.new.1 }
    {
        self.sessions.record(id, at)
    }

    /// Records a session whose windows are done up to the session's goal, and returns the session's report.
    ///
    /// # Errors
    ///
    /// Checked in this order; an error changes nothing:
    ///
    /// - `NoSuchSession`: the peer has no session with the given id.
    /// - `Unfinished`: the session is done only up to a sequence below its goal.
    ///
    /// Does not allocate.
    pub fn conclude(&mut self, id: SessionId, at: Moment) -> Result<Report, TargetFault>
        ensures answer { result ≡ conclude_answer self.old.1 id }
        ensures filter { self.new.0 ≡ self.old.0 }
        ensures peer { self.new.1 ≡ after_conclude self.old.1 id at }
        ensures law { Lawful (F.refuses self.new.0) self.new.1 }
    {
        self.sessions.conclude(id, at)
    }

    /// Returns the log entry of a session.
    ///
    /// Returns `NoSuchSession` if the peer has no session with the given id. Does not allocate.
    pub fn entry(&self, id: SessionId) -> Result<Entry, TargetFault>
        ensures { entry_value result ≡ session_answer self.now.1 id (λ s. Ok (entry_of s)) }
    {
        match self.sessions.find(id) {
            Some(session) => Ok(session.entry()),
            None => Err(TargetFault::NoSuchSession),
        }
    }
}

impl<F: WriteFilter + Drop> Peer<F> {
    ghost use Rattle.repl_peer.specs.peer.Peer.{new_at_answer};
    ghost use Rattle.repl_peer.specs.peer.Law.{Lawful};

    /// Creates a peer without documents whose update sequence is `seq`. Returns `SeqTooLarge` if `seq` exceeds
    /// 9,007,199,254,740,991. Does not allocate.
    pub fn new_at(alloc: Global, uuid: u128, filter: F, seq: u64) -> Result<Peer<F>, BaseFault>
        ensures answer { result ≡ new_at_answer filter uuid seq }
        ensures law { IfOk result (λ p. Lawful (F.refuses p.0) p.1) }
    {
        let db = Database::new_at(alloc, uuid, seq)?;
        Ok(Peer::without_sessions(alloc, db, filter))
    }
}
