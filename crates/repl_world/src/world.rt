//! Two peers, the messages between them, and the steps that change the peers and the messages.
ghost use Rattle.std.specs.Prelude.{◌≡◌, ℕ, Some, None, Err, IfOk, OnOk, OnErr};
ghost use Rattle.couch_base.specs.declared.fault.BaseFault.TheVariants as base_faults;
ghost use Rattle.repl_peer.specs.session.Settling.{stopped_at};
ghost use Rattle.repl_peer.specs.declared.fault.TargetFault.TheVariants as faults;

use crate::bag::Bag;
use crate::fault::WorldFault;
use crate::step::Step;
use couch_base::BaseFault;
use doc_json::{Body, Chosen, Doc, DocId};
use repl_log::{Moment, common};
use repl_target::{
    Backup, Beginning, Cause, Peer, Scope, Settled, TargetFault, WriteFilter, rep_between,
};
use rev_core::Rev;
use rev_tree::SessionId;
use std::alloc::{AllocError, Global};
use std::marker::Model;

/// Two peers (a source and a target), the messages in transit between them, and backups of the source.
#[derive(Drop)]
pub struct World<F: WriteFilter> {
    source: Peer<F>,
    target: Peer<F>,
    chosen: Option<Chosen>,
    bag: Bag,
    backups: Vec<Backup>,
}

impl<F: WriteFilter> Model for World<F> {
    ghost use Rattle.std.specs.Coded.{coded×};
    ghost use Rattle.repl_world.specs.Worlds.{WorldValue};
    ghost use Rattle.repl_world.specs.WorldCode.{coded_world};

    ghost Value = { (F × F) × WorldValue };

    ghost coded = { coded× (coded× F.code F.code) coded_world };

    ghost view = { λ w. (
      (w.source.0, w.target.0),
      record {
        source = w.source.1;
        target = w.target.1;
        chosen = w.chosen;
        bag = w.bag;
        backups = w.backups.items;
      },
    ) };
}

impl<F: WriteFilter + Drop> World<F> {
    ghost use Rattle.repl_world.specs.Worlds.{new_answer};
    ghost use Rattle.repl_world.specs.Tied.{IsWorld, Tied, HoldNone};

    /// Creates a `World` of two peers, without messages between them. Replications in the `World` copy the selected
    /// documents, or all documents if `chosen` is `None`.
    ///
    /// Returns `SamePeer` if the two databases have the same UUID. The new `World` is consistent if the target has no
    /// session of the replication, and the source has no log entry of the replication.
    pub fn new(
        alloc: Global,
        source: Peer<F>,
        target: Peer<F>,
        chosen: Option<Chosen>,
    ) -> Result<World<F>, WorldFault>
        ensures answer { result ≡ new_answer source target chosen }
        ensures tied { IfOk result (λ w. HoldNone source.1 target.1 chosen → Tied w.1) }
        ensures world { IfOk result (λ w. IsWorld (F.refuses w.0.1) w.1) }
    {
        source.law();
        if source.db().uuid() == target.db().uuid() {
            return Err(WorldFault::SamePeer);
        }
        let bag = Bag::new(alloc);
        Ok(World {
            source,
            target,
            chosen,
            bag,
            backups: Vec::new(alloc),
        })
    }
}

impl<F: WriteFilter> World<F> {
    ghost use Rattle.std.specs.Prelude.{length, slice_get};
    ghost use Rattle.couch_base.specs.Feed.{page_answer};
    ghost use Rattle.repl_peer.specs.peer.Writing.{after_load, after_edit};
    ghost use Rattle.repl_peer.specs.peer.Backups.{backup_answer};
    ghost use Rattle.repl_world.specs.Worlds.{paged, appends, differs, fetches, settles, stops, records, concludes, puts, reads_log, begins, backs_up, restores, happens, run, IsStopped, CutShort, StoppedIn};
    ghost use Rattle.repl_world.specs.Tied.{IsWorld, Tied, IsTrustworthy};

    /// Returns the source.
    pub fn source(&self) -> &Peer<F>
        ensures { result.now ≡ (self.now.0.0, self.now.1.source) }
    {
        &self.source
    }

    /// Returns the target.
    pub fn target(&self) -> &Peer<F>
        ensures { result.now ≡ (self.now.0.1, self.now.1.target) }
    {
        &self.target
    }

    /// Returns the counts of windows, requests, parcels, log entries and logs in transit.
    pub fn bag_sizes(&self) -> (usize, usize, usize, usize, usize)
        ensures sizes { result
            ≡ (
              length self.now.1.bag.windows,
              length self.now.1.bag.asked,
              length self.now.1.bag.parcels,
              length self.now.1.bag.entries,
              length self.now.1.bag.logs,
            ) }
        ensures world { IsWorld (F.refuses self.now.0.1) self.now.1 }
    {
        self.law();
        self.bag.sizes()
    }

    /// Makes the invariant of the `World` available to proofs, in the contract of `law`. The call has no effect at run
    /// time.
    fn law(&self)
        ensures { IsWorld (F.refuses self.now.0.1) self.now.1 }
    {
        self.source.law();
        self.target.law();
        self.bag.law();
    }

    /// Takes steps in order.
    ///
    /// If a call on a peer fails in a step, the step has the effects of this failed call. If no message or backup has
    /// the index that a step names, the step changes nothing. If an allocation fails in a step that settles a parcel,
    /// the step may already have settled documents of the parcel (`Stopped`). In any other step, a failed allocation
    /// changes nothing.
    ///
    /// If the `World` is consistent (docs/PROFILE.md, "Worlds") before the steps, it is consistent after the steps. In
    /// a consistent `World`, the target covers the source's current feed up to each sequence that both peers' logs
    /// claim.
    pub fn run(&mut self, alloc: Global, steps: &[Step]) -> Result<(), AllocError>
        ensures filters { self.new.0 ≡ self.old.0 }
        ensures ok { OnOk result (self.new.1 ≡ run (F.refuses self.old.0.1) self.old.1 steps.now) }
        ensures memory { OnErr result (StoppedIn (F.refuses self.old.0.1) self.old.1 steps.now self.new.1) }
        ensures trust { Tied self.old.1 → IsTrustworthy (F.refuses self.new.0.1) self.new.1 }
    {
        let answer = self.take_all(alloc, steps);
        self.law();
        answer
    }

    /// Takes steps in order.
    fn take_all(&mut self, alloc: Global, steps: &[Step]) -> Result<(), AllocError>
        ensures filters { self.new.0 ≡ self.old.0 }
        ensures ok { OnOk result (self.new.1 ≡ run (F.refuses self.old.0.1) self.old.1 steps.now) }
        ensures memory { OnErr result (StoppedIn (F.refuses self.old.0.1) self.old.1 steps.now self.new.1) }
        ensures tied { Tied self.old.1 → Tied self.new.1 }
    {
        for step in steps {
            self.take(alloc, step)?;
        }
        Ok(())
    }

    /// Takes a step.
    fn take(&mut self, alloc: Global, step: &Step) -> Result<(), AllocError>
        ensures filters { self.new.0 ≡ self.old.0 }
        ensures ok { OnOk result (self.new.1 ≡ happens (F.refuses self.old.0.1) self.old.1 step.now) }
        ensures err { OnErr result (CutShort (F.refuses self.old.0.1) self.old.1 step.now self.new.1) }
        ensures tied { Tied self.old.1 → Tied self.new.1 }
    {
        self.law();
        self.do_step(alloc, step)
    }

    /// Performs a step.
    fn do_step(&mut self, alloc: Global, step: &Step) -> Result<(), AllocError>
        ensures filters { self.new.0 ≡ self.old.0 }
        ensures ok { OnOk result (self.new.1 ≡ happens (F.refuses self.old.0.1) self.old.1 step.now) }
        ensures err { OnErr result (CutShort (F.refuses self.old.0.1) self.old.1 step.now self.new.1) }
    {
        match step {
            Step::EditSource {
                id,
                parent,
                deleted,
                body,
            } => self.edit_source(id, *parent, *deleted, body),
            Step::EditTarget {
                id,
                parent,
                deleted,
                body,
            } => self.edit_target(id, *parent, *deleted, body),
            Step::LoadSource(doc) => self.load_source(doc),
            Step::ThirdParty(doc) => self.load_target(doc),
            Step::ReadLog => self.read_log(alloc),
            Step::Begin {
                session,
                log,
                goal,
                at,
            } => self.begin(alloc, *session, *log, *goal, *at),
            Step::Page { since, goal, limit } => self.page(alloc, *since, *goal, *limit),
            Step::Append { session, window } => self.append(alloc, *session, *window),
            Step::Diff { window } => self.diff(alloc, *window),
            Step::Fetch { asked } => self.fetch(alloc, *asked),
            Step::Settle { session, parcel } => self.settle(alloc, *session, *parcel),
            Step::Record { session, at } => self.record(*session, *at),
            Step::Conclude { session, at } => self.conclude(*session, *at),
            Step::PutEntry { entry } => self.put_entry(*entry),
            Step::Backup => self.back_up(alloc),
            Step::Restore { backup } => self.restore(*backup),
            Step::Crash => {
                self.bag.clear();
                Ok(())
            }
        }
    }

    /// Edits a document in the source's database.
    fn edit_source(
        &mut self,
        id: &DocId,
        parent: Option<Rev>,
        deleted: bool,
        body: &Body,
    ) -> Result<(), AllocError>
        ensures filters { self.new.0 ≡ self.old.0 }
        ensures ok { OnOk result
            (self.new.1 ≡ record self.old.1 { source = after_edit self.old.1.source id.now parent deleted body.now }) }
        ensures err { OnErr result (self.new.1 ≡ self.old.1) }
    {
        match self.source.edit(id, parent, deleted, body) {
            Ok(_) => Ok(()),
            Err(fault) => passed(fault),
        }
    }

    /// Edits a document in the target's database.
    fn edit_target(
        &mut self,
        id: &DocId,
        parent: Option<Rev>,
        deleted: bool,
        body: &Body,
    ) -> Result<(), AllocError>
        ensures filters { self.new.0 ≡ self.old.0 }
        ensures ok { OnOk result
            (self.new.1 ≡ record self.old.1 { target = after_edit self.old.1.target id.now parent deleted body.now }) }
        ensures err { OnErr result (self.new.1 ≡ self.old.1) }
    {
        match self.target.edit(id, parent, deleted, body) {
            Ok(_) => Ok(()),
            Err(fault) => passed(fault),
        }
    }

    /// Stores a document, with its ancestry as given, in the source's database.
    fn load_source(&mut self, doc: &Doc) -> Result<(), AllocError>
        ensures filters { self.new.0 ≡ self.old.0 }
        ensures ok { OnOk result (self.new.1 ≡ record self.old.1 { source = after_load self.old.1.source doc.now }) }
        ensures err { OnErr result (self.new.1 ≡ self.old.1) }
    {
        match self.source.load(doc) {
            Ok(_) => Ok(()),
            Err(fault) => passed(fault),
        }
    }

    /// Stores a document, with its ancestry as given, in the target's database.
    fn load_target(&mut self, doc: &Doc) -> Result<(), AllocError>
        ensures filters { self.new.0 ≡ self.old.0 }
        ensures ok { OnOk result (self.new.1 ≡ record self.old.1 { target = after_load self.old.1.target doc.now }) }
        ensures err { OnErr result (self.new.1 ≡ self.old.1) }
    {
        match self.target.load(doc) {
            Ok(_) => Ok(()),
            Err(fault) => passed(fault),
        }
    }

    /// Adds the source's log of the replication to the messages in transit.
    fn read_log(&mut self, alloc: Global) -> Result<(), AllocError>
        ensures filters { self.new.0 ≡ self.old.0 }
        ensures ok { OnOk result (self.new.1 ≡ reads_log self.old.1) }
        ensures err { OnErr result (self.new.1 ≡ self.old.1) }
    {
        let rep = rep_between(&self.source, &self.target, self.chosen.as_ref())?;
        let life = self.source.db().life();
        let log = self.source.source_log(alloc, &rep)?;
        self.bag.put_log(life, log)
    }

    /// Begins a session at the target. The session starts at the common checkpoint of two logs: the target's log, and a
    /// log of the source in transit.
    fn begin(
        &mut self,
        alloc: Global,
        session: SessionId,
        place: usize,
        goal: u64,
        at: Moment,
    ) -> Result<(), AllocError>
        ensures filters { self.new.0 ≡ self.old.0 }
        ensures ok { OnOk result (self.new.1 ≡ begins self.old.1 session goal at (slice_get self.old.1.bag.logs place)) }
        ensures err { OnErr result (self.new.1 ≡ self.old.1) }
    {
        let Some((life, log)) = self.bag.log(place) else {
            return Ok(());
        };
        let life = *life;
        let rep = rep_between(&self.source, &self.target, self.chosen.as_ref())?;
        let incoming = self.target.target_log(alloc, &rep)?;
        let (base, start) = match common(log, &incoming) {
            Some((session, recorded)) => (Some(session), recorded),
            None => (None, 0),
        };
        let scope = Scope {
            rep,
            life,
            base,
            goal,
        };
        let beginning = Beginning { scope, start };
        unless_memory(self.target.begin(session, beginning, at))
    }

    /// Adds a page of the source's feed to the messages in transit.
    fn page(&mut self, alloc: Global, since: u64, goal: u64, limit: u64) -> Result<(), AllocError>
        ensures filters { self.new.0 ≡ self.old.0 }
        ensures ok { OnOk result (self.new.1 ≡ paged self.old.1 (page_answer self.old.1.source.db since goal limit self.old.1.chosen)) }
        ensures err { OnErr result (self.new.1 ≡ self.old.1) }
    {
        match self
            .source
            .page(alloc, since, goal, limit, self.chosen.as_ref())
        {
            Ok(window) => self.bag.put_window(window),
            Err(fault) => passed(fault),
        }
    }

    /// Adds a window from the messages in transit to a session of the target.
    fn append(&mut self, alloc: Global, session: SessionId, place: usize) -> Result<(), AllocError>
        ensures filters { self.new.0 ≡ self.old.0 }
        ensures ok { OnOk result (self.new.1 ≡ appends self.old.1 session (slice_get self.old.1.bag.windows place)) }
        ensures err { OnErr result (self.new.1 ≡ self.old.1) }
    {
        let Some(window) = self.bag.window(place) else {
            return Ok(());
        };
        let window = window.copy(alloc)?;
        self.target.law();
        unless_memory(self.target.append(session, window))
    }

    /// Computes the target's request for the missing leaves of a window in transit, and adds the request to the
    /// messages in transit.
    fn diff(&mut self, alloc: Global, place: usize) -> Result<(), AllocError>
        ensures filters { self.new.0 ≡ self.old.0 }
        ensures ok { OnOk result (self.new.1 ≡ differs self.old.1 place (slice_get self.old.1.bag.windows place)) }
        ensures err { OnErr result (self.new.1 ≡ self.old.1) }
    {
        let Some(window) = self.bag.window(place) else {
            return Ok(());
        };
        let asked = self.target.revs_diff(alloc, window)?;
        self.bag.put_asked(place, asked)
    }

    /// Computes the source's parcel for a request in transit, and adds the parcel to the messages in transit.
    fn fetch(&mut self, alloc: Global, place: usize) -> Result<(), AllocError>
        ensures filters { self.new.0 ≡ self.old.0 }
        ensures ok { OnOk result (self.new.1 ≡ fetches self.old.1 (slice_get self.old.1.bag.asked place)) }
        ensures err { OnErr result (self.new.1 ≡ self.old.1) }
    {
        let Some((window, asked)) = self.bag.asked(place) else {
            return Ok(());
        };
        let window = *window;
        let parcel = self.source.open_revs(alloc, asked)?;
        self.bag.put_parcel(window, parcel)
    }

    /// Settles one of the parcels in transit, in a session of the target. Settling stores or rejects the documents of
    /// the parcel, in order.
    fn settle(&mut self, alloc: Global, session: SessionId, place: usize) -> Result<(), AllocError>
        ensures filters { self.new.0 ≡ self.old.0 }
        ensures ok { OnOk result
            (self.new.1
            ≡ settles (F.refuses self.old.0.1) self.old.1 session (slice_get self.old.1.bag.parcels place)) }
        ensures err { OnErr result
            (IsStopped (F.refuses self.old.0.1) self.old.1 session (slice_get self.old.1.bag.parcels place)
            self.new.1) }
    {
        let Some(held) = self.bag.parcel(place) else {
            return Ok(());
        };
        let parcel = held.1.copy(alloc)?;
        found_memory(self.target.settle(session, parcel))
    }

    /// Records a session, and adds the session's log entry to the messages in transit.
    fn record(&mut self, session: SessionId, at: Moment) -> Result<(), AllocError>
        ensures filters { self.new.0 ≡ self.old.0 }
        ensures ok { OnOk result (self.new.1 ≡ records self.old.1 session at) }
        ensures err { OnErr result (self.new.1 ≡ self.old.1) }
    {
        self.bag.record(&mut self.target, session, at)
    }

    /// Concludes a session, and adds the session's log entry to the messages in transit if concluding succeeds.
    fn conclude(&mut self, session: SessionId, at: Moment) -> Result<(), AllocError>
        ensures filters { self.new.0 ≡ self.old.0 }
        ensures ok { OnOk result (self.new.1 ≡ concludes self.old.1 session at) }
        ensures err { OnErr result (self.new.1 ≡ self.old.1) }
    {
        self.bag.conclude(&mut self.target, session, at)
    }

    /// Adds a backup of the source to the backups.
    fn back_up(&mut self, alloc: Global) -> Result<(), AllocError>
        ensures filters { self.new.0 ≡ self.old.0 }
        ensures ok { OnOk result (self.new.1 ≡ backs_up self.old.1 (backup_answer self.old.1.source)) }
        ensures err { OnErr result (self.new.1 ≡ self.old.1) }
    {
        match self.source.backup(alloc) {
            Ok(backup) => {
                self.backups.push(backup)?;
                Ok(())
            }
            Err(fault) => unless_memory(Err(fault)),
        }
    }

    /// Restores the source from a backup.
    fn restore(&mut self, place: usize) -> Result<(), AllocError>
        ensures filters { self.new.0 ≡ self.old.0 }
        ensures ok { OnOk result (self.new.1 ≡ restores self.old.1 (slice_get self.old.1.backups place)) }
        ensures err { OnErr result (self.new.1 ≡ self.old.1) }
    {
        let Some(backup) = self.backups.get(place) else {
            return Ok(());
        };
        unless_memory(self.source.restore(backup))
    }

    /// Stores a log entry from the messages in transit in the source's log.
    fn put_entry(&mut self, place: usize) -> Result<(), AllocError>
        ensures filters { self.new.0 ≡ self.old.0 }
        ensures ok { OnOk result (self.new.1 ≡ puts self.old.1 (slice_get self.old.1.bag.entries place)) }
        ensures err { OnErr result (self.new.1 ≡ self.old.1) }
    {
        let Some(entry) = self.bag.entry(place) else {
            return Ok(());
        };
        let rep = rep_between(&self.source, &self.target, self.chosen.as_ref())?;
        unless_memory(self.source.put_entry(&rep, entry))
    }
}

/// Returns an error if and only if the database's error is `Memory`. Only a failed allocation ends a run of steps.
fn passed(fault: BaseFault) -> Result<(), AllocError>
    ensures ok { OnOk result (fault ≡ base_faults.Memory → ⊥) }
    ensures err { OnErr result (fault ≡ base_faults.Memory) }
{
    match fault {
        BaseFault::Memory => Err(AllocError),
        _ => Ok(()),
    }
}

/// Returns an error exactly if the result of a peer's call is `Memory`.
fn unless_memory(answer: Result<(), TargetFault>) -> Result<(), AllocError>
    ensures ok { OnOk result (answer ≡ Err faults.Memory → ⊥) }
    ensures err { OnErr result (answer ≡ Err faults.Memory) }
{
    match answer {
        Err(TargetFault::Memory) => Err(AllocError),
        _ => Ok(()),
    }
}

/// Returns an error exactly if an allocation failed while a parcel was settled.
fn found_memory(answer: Result<Settled, TargetFault>) -> Result<(), AllocError>
    ensures ok { OnOk result (stopped_at answer ≡ None) }
    ensures err { OnErr result ((n : ℕ) × (stopped_at answer ≡ Some n)) }
{
    match answer {
        Err(
            TargetFault::Stopped {
                settled: _,
                rest: _,
                cause: Cause::Memory,
            },
        ) => Err(AllocError),
        _ => Ok(()),
    }
}
