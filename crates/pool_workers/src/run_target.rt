//! The state that the target's lock protects: the target, and the counts of documents that the run's session has read.
ghost use Rattle.std.specs.Prelude.{◌≡◌, ℕ, ◌+◌, ◌<◌, ◌≤◌, true, length, Option, Some, None, is_some, IfSome, IfOk, IfErr, OnOk, OnErr};
ghost use Rattle.std.specs.Coded.{coded×};
ghost use Rattle.rev_tree.specs.declared.origin.SessionId.{SessionId};
ghost use Rattle.pool_workers.specs.Faults.{IsStepFault};
ghost use Rattle.pool_workers.specs.Grown.{HasRun, TargetKeeps};
ghost use Rattle.pool_workers.specs.Paging.{IsOneLess, HasNoWindows, LetsStore};
ghost use Rattle.repl_target.specs.replication.Replication.{has_left};
ghost use Rattle.couch_base.specs.Messages.{revs_diff};
ghost use Rattle.repl_peer.specs.peer.Peer.{PeerValue};
ghost use Rattle.repl_peer.specs.peer.PeerCode.{coded_peer};
ghost use Rattle.repl_peer.specs.session.ReadCounts.{read_in, taken};
ghost use Rattle.repl_peer.specs.session.Sessions.{GivesUnlessMemory, append_answer, after_append, record_answer, after_record};
ghost use Rattle.repl_peer.specs.session.Settling.{SettleGives};

use crate::brands::{SourceBrand, TargetBrand};
use crate::messages::{Fetched, Paged};
use couch_base::Asked;
use repl_log::Moment;
use repl_target::{DeferredDrops, Peer, Settled, TargetFault, WriteFilter, has_left};
use rev_tree::SessionId;
use std::alloc::{AllocError, Global};
use std::marker::{Model, PhantomData};
use std::sync::ledger::{Book, Ledger, Share};

/// The target of a run, in the state after the calls that the run has made so far. The run calls the target's methods
/// only with messages that come from the source. The field `ledger` of `RunTarget` is a ghost count of the documents
/// that the run's session has read. If the plan limits the number of windows, `more` is the number of windows that the
/// run may still store. For the run's session, the methods `append` and `record` have the effects of `Peer::append` and
/// `Peer::record`. The method `append` first checks that the plan allows another window. The method `settle_counted`
/// settles a parcel. The method also adds the number of settled documents to a worker's share of the ghost count.
#[derive(Drop)]
pub struct RunTarget<F: WriteFilter, S: SourceBrand, T: TargetBrand<F>, L: Ledger> {
    target: Peer<F>,
    session: SessionId,
    ledger: Book<L>,
    more: Option<u64>,
    source: PhantomData<S>,
    given: PhantomData<T>,
}

impl<F: WriteFilter, S: SourceBrand, T: TargetBrand<F>, L: Ledger> Model for RunTarget<F, S, T, L> {
    ghost Value = { F × PeerValue };

    ghost coded = { coded× F.code coded_peer };

    ghost view = { λ t. t.target };

    ghost invariant = { λ t. TargetKeeps F.refuses S.source S.plan T.given t.session t.ledger.total t.more
        t.target };
}

/// Subtracts one from the number of windows that the run may still store.
fn one_less(more: Option<u64>) -> Option<u64>
    requires { has_left more 0 ≡ true }
    ensures { IsOneLess more result }
{
    match more {
        Some(windows) => Some(windows - 1),
        None => None,
    }
}

/// Returns the number of documents of a parcel that a call of `settle` has settled.
pub fn taken_of(answer: &Result<Settled, TargetFault>, documents: u64) -> u64
    ensures { result ≡ taken answer.now documents }
{
    match answer {
        Ok(_) => documents,
        Err(TargetFault::Uncovered { .. }) => documents,
        Err(TargetFault::Stopped { settled, .. }) => *settled,
        Err(_) => 0,
    }
}

impl<F: WriteFilter, S: SourceBrand, T: TargetBrand<F>, L: Ledger> RunTarget<F, S, T, L> {
    /// Wraps the given target and the number of windows that the plan allows. The target's session must have no
    /// windows, and must not have read a document.
    pub fn open(
        target: Peer<F>,
        session: SessionId,
        more: Option<u64>,
        ledger: Book<L>,
    ) -> RunTarget<F, S, T, L>
        requires given { T.given ≡ Some (target, session) }
        requires none { read_in target.1.sessions session ≡ 0 }
        requires fresh { HasNoWindows session target.1.sessions }
        requires run { HasRun S.source session target.1.sessions }
        requires more { more ≡ S.plan.stop_after }
        requires ledger { ledger.total ≡ 0 }
        ensures { result ≡ target }
    {
        RunTarget {
            target,
            session,
            ledger,
            more,
            source: PhantomData,
            given: PhantomData,
        }
    }

    /// Stores a page of the source in the run's session (`Peer::append_prepared`). Returns `None`, and stores nothing,
    /// exactly if the plan allows no further window.
    pub fn append(&mut self, page: Paged<S>) -> Option<Result<(), TargetFault>>
        ensures filter { self.new.0 ≡ self.old.0 }
        ensures left { IfSome T.given (λ g. LetsStore S.plan g.1 (is_some result) self.old.1.sessions) }
        ensures answer { IfSome result
            (λ r. IfSome T.given (λ g. GivesUnlessMemory r (append_answer self.old.1 g.1 page))) }
        ensures ok { IfSome result
            (λ r. OnOk r (IfSome T.given (λ g. self.new.1 ≡ after_append self.old.1 g.1 page))) }
        ensures err { IfSome result (λ r. OnErr r (self.new.1 ≡ self.old.1)) }
        ensures none { result ≡ None → self.new.1 ≡ self.old.1 }
        ensures step { IfSome result (λ r. IfErr r IsStepFault) }
    {
        if !has_left(self.more, 0) {
            return None;
        }
        let less = one_less(self.more);
        let ready = page.into_ready();
        match self.target.append_prepared(self.session, ready) {
            Ok(()) => {
                self.more = less;
                Some(Ok(()))
            }
            Err(fault) => Some(Err(fault)),
        }
    }

    /// Returns the request for the leaves of a page that the target lacks.
    pub fn diff(&self, alloc: Global, page: &Paged<S>) -> Result<Asked, AllocError>
        ensures asked { IfOk result (λ asked. asked ≡ revs_diff self.now.1.db page.now) }
    {
        self.target.revs_diff(alloc, page.window())
    }

    /// Settles a parcel that the source has sent (`Peer::settle_into`). The call adds the number of settled documents
    /// to the worker's share of the ledger.
    pub fn settle_counted(
        &mut self,
        share: &mut Share<L>,
        fetched: Fetched<S>,
        spent: &mut DeferredDrops,
    ) -> Result<Settled, TargetFault>
        requires { 0 < share.old.parts }
        ensures parts { share.new.parts ≡ share.old.parts }
        ensures taken { share.new.amount ≡ share.old.amount + taken result (length fetched.docs) }
        ensures most { taken result (length fetched.docs) ≤ length fetched.docs }
        ensures filter { self.new.0 ≡ self.old.0 }
        ensures settles { IfSome T.given
            (λ g. SettleGives (F.refuses self.old.0) self.old.1 g.1 fetched result self.new.1) }
        ensures step { IfErr result IsStepFault }
    {
        self.target.law();
        let documents = fetched.documents();
        let ready = fetched.into_ready();
        let result = self.target.settle_into(self.session, ready, spent);
        let taken = taken_of(&result, documents);
        self.ledger.add(share, taken);
        result
    }

    /// Records the low water: `Peer::record`.
    pub fn record(&mut self, at: Moment) -> Result<u64, TargetFault>
        ensures filter { self.new.0 ≡ self.old.0 }
        ensures answer { IfSome T.given (λ g. result ≡ record_answer self.old.1 g.1) }
        ensures peer { IfSome T.given (λ g. self.new.1 ≡ after_record self.old.1 g.1 at) }
        ensures step { IfErr result IsStepFault }
    {
        self.target.record(self.session, at)
    }

    /// Returns the target after the caller has collected the ghost counts of all workers. The sum of the workers' ghost
    /// counts is the number of documents that the run's session has read.
    pub fn close(self, all: &mut Share<L>) -> Peer<F>
        requires { all.old.parts ≡ L.parts }
        ensures { (session : SessionId) × (more : Option ℕ)
            × TargetKeeps F.refuses S.source S.plan T.given session all.old.amount more result }
    {
        let RunTarget {
            target,
            session: _,
            mut ledger,
            more: _,
            source: _,
            given: _,
        } = self;
        ledger.audit(all);
        target
    }

    /// Returns the target.
    pub fn give_back(self) -> Peer<F>
        ensures { (session : SessionId) × (total : ℕ) × (more : Option ℕ)
            × TargetKeeps F.refuses S.source S.plan T.given session total more result }
    {
        let RunTarget {
            target,
            session: _,
            ledger,
            more: _,
            source: _,
            given: _,
        } = self;
        drop(ledger);
        target
    }
}
