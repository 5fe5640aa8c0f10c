//! Replication by one thread.
ghost use Rattle.std.specs.Prelude.{◌≡◌, ◌⊎◌, ℕ, ◌<◌, true, false, List, Some, None, Ok, Err, IfOk, IfErr, OnOk, OnErr};
ghost use Rattle.doc_json.specs.Chosen.{Choice};
ghost use Rattle.couch_base.specs.Database.{LawfulDatabase};
ghost use Rattle.repl_log.specs.Entry.{EntryValue};
ghost use Rattle.repl_peer.specs.logs.Checkpoint.{rep_between};
ghost use Rattle.repl_target.specs.Audit.{audit_answer, CoversFeed};
ghost use Rattle.repl_peer.specs.peer.Backups.{BackupValue};
ghost use Rattle.repl_target.specs.ties.Ties.{IsTiedPair, IsTiedWith, KeepsOthersTied};
ghost use Rattle.repl_peer.specs.peer.Peer.{SessionValue, session_in, entry_of};
ghost use Rattle.repl_peer.specs.session.Sessions.{session_answer, conclude_answer};
ghost use Rattle.repl_target.specs.replication.Expected.{IsExpected};
ghost use Rattle.repl_target.specs.replication.Replication.{Reading, is_batch, plan_answer, start_between, begins_answer, after_begins, Carries, WindowRefused, has_left, ReadsAll, ReadsUntil, closed, PutsOver, Closes, Replicates, CoversFrom, IsReported, IsEmpty, SameDocuments};
ghost use Rattle.repl_peer.specs.peer.Law.{Lawful};
ghost use Rattle.repl_peer.specs.declared.fault.TargetFault.TheVariants as faults;

pub(crate) mod sync;

use doc_json::Chosen;
use repl_log::Moment;
use repl_peer::{
    Beginning, Peer, Report, Scope, TargetFault, WriteFilter, checkpoint, rep_between,
};
use rev_tree::SessionId;
use std::alloc::{AllocError, Global};

/// The maximum number of rows of a window.
pub const MOST_ROWS: u64 = 10_000;

/// The parameters of a replication.
#[derive(Debug, Drop)]
pub struct Plan {
    /// The id of the new session.
    pub session: SessionId,
    /// The number of fetchers, which is also the number of writers. `replicate_alone` ignores the number of fetchers.
    pub workers: u64,
    /// The maximum number of rows of a window: 1 to 10,000.
    pub batch: u64,
    /// The number of windows after which the replication stops, even if the windows end below the goal.
    pub stop_after: Option<u64>,
    /// The timestamp to record.
    pub at: Moment,
    /// The selected documents; `None` selects all.
    pub chosen: Option<Chosen>,
}

impl Plan {
    /// Copies the plan. The copy and the original plan share the selection.
    pub fn copy(&self) -> Result<Plan, AllocError>
        ensures copied { IfOk result (λ plan. plan ≡ self.now) }
    {
        let chosen = match &self.chosen {
            Some(chosen) => Some(chosen.copy()?),
            None => None,
        };
        Ok(Plan {
            session: self.session,
            workers: self.workers,
            batch: self.batch,
            stop_after: self.stop_after,
            at: self.at,
            chosen,
        })
    }
}

/// Replicates the source's documents into the target, on one thread. The replication starts at the common checkpoint of
/// the source's log and the target's log, and ends at the source's update sequence. The call settles each window before
/// it reads the next window. After the last window, the call records the session, first at the target and then in the
/// source's log.
///
/// If the call succeeds, the target covers each leaf of the source's selected feed above the start, and the report is
/// the session's report. A successful call into an empty target, without refused documents, gives each selected
/// document the same revisions, parents and leaf contents at both peers. The source's database never changes.
///
/// If the source and the target are consistent (docs/PROFILE.md, "Tied peers"), they stay consistent for every
/// selection, even if the replication fails. After a replication between consistent peers, an audit finds no uncovered
/// leaf. An uncovered leaf is neither in the document's tree at the target nor in the ledger of a session. If the peers
/// are consistent and the call succeeds, each leaf of the source's complete selected feed is covered, including leaves
/// below the start. A third peer that was consistent with the source or the target stays consistent with that peer,
/// with two exceptions (`KeepsOthersTied`). The first exception is a second source of the target, if both sources have
/// the same UUID. The second exception is a second target of the source, if both targets have the same UUID.
///
/// # Errors
///
/// Checked in this order:
///
/// - `BadBatch`: the batch is not 1 to 10,000.
/// - `SamePeer`: the two databases have the same UUID.
/// - The error of a step of the replication. The effects of the failed step and of all earlier steps remain.
/// - `Unfinished`: the plan's `stop_after` windows were read, and they end below the goal. When the call returns
///   `Unfinished`, both peers have recorded the session.
///
/// If the source's log already has a newer entry of the session, the call does not store its own entry. This is not an
/// error.
pub fn replicate_alone<F: WriteFilter, G: WriteFilter>(
    alloc: Global,
    source: &mut Peer<F>,
    target: &mut Peer<G>,
    plan: &Plan,
) -> Result<Report, TargetFault>
    ensures replicates { Replicates (G.refuses target.old.0) source.old.1 target.old.1 plan.now result source.new.1
        target.new.1 }
    ensures filters { (source.new.0 ≡ source.old.0) × (target.new.0 ≡ target.old.0) }
    ensures source { source.new.1 ≡ record source.old.1 { outgoing = source.new.1.outgoing } }
    ensures source_law { Lawful (F.refuses source.new.0) source.new.1 }
    ensures target_law { Lawful (G.refuses target.new.0) target.new.1 }
    ensures covered { OnOk result (CoversFrom source.old.1 target.new.1 plan.now.chosen
        (start_between source.old.1 target.old.1 plan.now.chosen)) }
    ensures report { IfOk result (λ report. IsReported source.old.1 target.old.1 target.new.1 plan.now report) }
    ensures copied { IfOk result
        (λ report. IsEmpty target.old.1 → report.counts.failures ≡ 0 → SameDocuments plan.now.chosen source.old.1.db target.new.1.db) }
    ensures tied { (chosen : Choice) (backups : List BackupValue)
        → IsTiedWith backups source.old.1 target.old.1 chosen → IsTiedWith backups source.new.1 target.new.1 chosen }
    ensures others { KeepsOthersTied source.old.1 target.old.1 source.new.1 target.new.1 }
    ensures whole { OnOk result
        (IsTiedPair source.old.1 target.old.1 plan.now.chosen
        → CoversFeed source.old.1 target.new.1 plan.now.chosen source.old.1.db.update_seq) }
    ensures clean { (chosen : Choice) → IsTiedPair source.old.1 target.old.1 chosen
        → audit_answer source.new.1 target.new.1 chosen ≡ None }
    ensures expected { IfErr result
        (λ why. IsTiedPair source.old.1 target.old.1 plan.now.chosen
        → IsExpected source.old.1 target.old.1 plan.now why) }
{
    source.law();
    target.law();
    let answer = carry_all(alloc, source, target, plan);
    source.law();
    target.law();
    answer
}

/// Performs the steps of `replicate_alone`.
fn carry_all<F: WriteFilter, G: WriteFilter>(
    alloc: Global,
    source: &mut Peer<F>,
    target: &mut Peer<G>,
    plan: &Plan,
) -> Result<Report, TargetFault>
    ensures replicates { Replicates (G.refuses target.old.0) source.old.1 target.old.1 plan.now result source.new.1
        target.new.1 }
    ensures filters { (source.new.0 ≡ source.old.0) × (target.new.0 ≡ target.old.0) }
    ensures source { source.new.1 ≡ record source.old.1 { outgoing = source.new.1.outgoing } }
    ensures covered { OnOk result (CoversFrom source.old.1 target.new.1 plan.now.chosen
        (start_between source.old.1 target.old.1 plan.now.chosen)) }
    ensures report { IfOk result (λ report. IsReported source.old.1 target.old.1 target.new.1 plan.now report) }
    ensures copied { IfOk result
        (λ report. IsEmpty target.old.1 → report.counts.failures ≡ 0 → SameDocuments plan.now.chosen source.old.1.db target.new.1.db) }
{
    source.law();
    target.law();
    check_peers(source, target, plan)?;
    let start = begin_plan(source, target, plan)?;
    read_windows(alloc, source, target, plan, start)?;
    close(source, target, plan)
}

/// Checks whether a plan is valid for two peers (`check_plan`).
pub fn check_peers<F: WriteFilter, G: WriteFilter>(
    source: &Peer<F>,
    target: &Peer<G>,
    plan: &Plan,
) -> Result<(), TargetFault>
    ensures { result ≡ plan_answer source.now.1.db.uuid target.now.1.db.uuid plan.now }
{
    check_plan(source.db().uuid(), target.db().uuid(), plan)
}

/// Checks whether a plan is valid for databases with the given UUIDs.
///
/// # Errors
///
/// Checked in this order:
///
/// - `BadBatch`: the batch is not 1 to 10,000.
/// - `SamePeer`: the UUIDs are equal.
pub fn check_plan(source: u128, target: u128, plan: &Plan) -> Result<(), TargetFault>
    ensures { result ≡ plan_answer source target plan.now }
{
    if plan.batch < 1 || plan.batch > MOST_ROWS {
        return Err(TargetFault::BadBatch);
    }
    if source == target {
        return Err(TargetFault::SamePeer);
    }
    Ok(())
}

/// Begins the session of a plan, and returns the session's start. The new session continues the session of the common
/// checkpoint of both logs, and starts at the checkpoint's sequence. If the logs of the source and the target have no
/// common checkpoint, the session starts at 0. The goal of the session is the source's update sequence.
///
/// If the call fails, it returns `Memory`, or an error of `Peer::begin`. An error changes nothing.
pub fn begin_plan<F: WriteFilter, G: WriteFilter>(
    source: &Peer<F>,
    target: &mut Peer<G>,
    plan: &Plan,
) -> Result<u64, TargetFault>
    ensures filter { target.new.0 ≡ target.old.0 }
    ensures start { IfOk result (λ start. start ≡ start_between source.now.1 target.old.1 plan.now.chosen) }
    ensures ok { OnOk result
        ((begins_answer source.now.1 target.old.1 plan.now ≡ Ok tt)
        × (target.new.1 ≡ after_begins source.now.1 target.old.1 plan.now)) }
    ensures err { OnErr result (target.new.1 ≡ target.old.1) }
    ensures refused { IfErr result
        (λ why. (why ≡ faults.Memory) ⊎ (begins_answer source.now.1 target.old.1 plan.now ≡ Err why)) }
    ensures target_law { Lawful (G.refuses target.new.0) target.new.1 }
    ensures source_law { LawfulDatabase source.now.1.db }
{
    let life = source.db().life();
    let goal = source.db().update_seq();
    let rep = rep_between(source, target, plan.chosen.as_ref())?;
    let (base, start) = match checkpoint(source, target, &rep) {
        Some((session, recorded)) => (Some(session), recorded),
        None => (None, 0),
    };
    let scope = Scope {
        rep,
        life,
        base,
        goal,
    };
    let beginning = Beginning { scope, start };
    target.begin(plan.session, beginning, plan.at)?;
    Ok(start)
}

/// Reads windows from a start until no further window must be read, and settles each window before it reads the next
/// window.
fn read_windows<F: WriteFilter, G: WriteFilter>(
    alloc: Global,
    source: &Peer<F>,
    target: &mut Peer<G>,
    plan: &Plan,
    start: u64,
) -> Result<(), TargetFault>
    requires { is_batch plan.now.batch ≡ true }
    ensures filter { target.new.0 ≡ target.old.0 }
    ensures ok { OnOk result
        (ReadsAll (G.refuses target.old.0) source.now.1.db plan.now (record { since = start; target = target.old.1 })
        target.new.1) }
    ensures err { IfErr result
        (λ why. ReadsUntil (G.refuses target.old.0) source.now.1.db plan.now
        (record { since = start; target = target.old.1 }) why target.new.1) }
    ensures law { Lawful (G.refuses target.new.0) target.new.1 }
{
    let goal = source.db().update_seq();
    let mut since = start;
    let mut windows = 0;
    while since < goal && has_left(plan.stop_after, windows) {
        since = carry_window(alloc, source, target, plan, since)?;
        windows += 1;
    }
    target.law();
    Ok(())
}

/// Whether a plan allows another window after `windows` windows were read.
pub fn has_left(stop_after: Option<u64>, windows: u64) -> bool
    ensures { result ≡ has_left stop_after windows }
{
    match stop_after {
        Some(most) => windows < most,
        None => true,
    }
}

/// Reads the window above a sequence, stores the window at the target, and settles the leaves that the target lacks.
/// Returns the sequence at which the window ends.
fn carry_window<F: WriteFilter, G: WriteFilter>(
    alloc: Global,
    source: &Peer<F>,
    target: &mut Peer<G>,
    plan: &Plan,
    since: u64,
) -> Result<u64, TargetFault>
    requires batch { is_batch plan.now.batch ≡ true }
    requires due { since < source.now.1.db.update_seq }
    ensures filter { target.new.0 ≡ target.old.0 }
    ensures moves { IfOk result (λ hi. since < hi) }
    ensures ok { IfOk result
        (λ hi. Carries (G.refuses target.old.0) source.now.1.db plan.now
        (record { since = since; target = target.old.1 }) (record { since = hi; target = target.new.1 })) }
    ensures err { IfErr result
        (λ why. WindowRefused (G.refuses target.old.0) source.now.1.db plan.now
        (record { since = since; target = target.old.1 }) why target.new.1) }
    ensures law { Lawful (G.refuses target.new.0) target.new.1 }
{
    target.law();
    let goal = source.db().update_seq();
    let window = source.page_due(alloc, since, goal, plan.batch, plan.chosen.as_ref())?;
    let asked = target.revs_diff(alloc, &window)?;
    let parcel = source.open_asked(alloc, asked)?;
    let hi = window.hi();
    target.append(plan.session, window)?;
    target.settle(plan.session, parcel)?;
    Ok(hi)
}

/// Records the session of a plan at the target, and stores the session's entry in the source's log. Returns the result
/// of concluding the session.
fn close<F: WriteFilter, G: WriteFilter>(
    source: &mut Peer<F>,
    target: &mut Peer<G>,
    plan: &Plan,
) -> Result<Report, TargetFault>
    requires held { (s : SessionValue) × (session_in target.now.1.sessions plan.now.session ≡ Some s) }
    ensures filters { (source.new.0 ≡ source.old.0) × (target.new.0 ≡ target.old.0) }
    ensures closes { Closes source.old.1 target.old.1 plan.now result source.new.1 target.new.1 }
    ensures source { source.new.1 ≡ record source.old.1 { outgoing = source.new.1.outgoing } }
    ensures source_law { Lawful (F.refuses source.new.0) source.new.1 }
    ensures target_law { Lawful (G.refuses target.new.0) target.new.1 }
{
    let concluded = record_at_target(target, plan);
    record_at_source(source, target, plan)?;
    concluded
}

/// Concludes the session of a plan. If concluding fails, the call records the session.
fn record_at_target<G: WriteFilter>(
    target: &mut Peer<G>,
    plan: &Plan,
) -> Result<Report, TargetFault>
    ensures filter { target.new.0 ≡ target.old.0 }
    ensures answer { result ≡ conclude_answer target.old.1 plan.now.session }
    ensures closed { target.new.1 ≡ closed target.old.1 plan.now }
    ensures law { Lawful (G.refuses target.new.0) target.new.1 }
{
    match target.conclude(plan.session, plan.at) {
        Ok(report) => Ok(report),
        Err(fault) => {
            let _low_water = target.record(plan.session, plan.at);
            Err(fault)
        }
    }
}

/// Stores the target's entry of a plan's session in the source's log. The target must have a session with the plan's
/// session id. If the source's log has a newer entry of the session, the call stores nothing.
///
/// An error changes nothing.
pub fn record_at_source<F: WriteFilter, G: WriteFilter>(
    source: &mut Peer<F>,
    target: &Peer<G>,
    plan: &Plan,
) -> Result<(), AllocError>
    requires held { (s : SessionValue) × (session_in target.now.1.sessions plan.now.session ≡ Some s) }
    ensures filter { source.new.0 ≡ source.old.0 }
    ensures law { Lawful (F.refuses source.new.0) source.new.1 }
    ensures told { (entry : EntryValue)
        × (session_answer target.now.1 plan.now.session (λ s. Ok (entry_of s)) ≡ Ok entry)
        × PutsOver source.old.1 (rep_between source.old.1 target.now.1 plan.now.chosen) entry result source.new.1 }
{
    let Ok(entry) = target.entry(plan.session) else {
        unreachable!()
    };
    let rep = rep_between(source, target, plan.chosen.as_ref())?;
    match source.put_entry(&rep, entry) {
        Err(TargetFault::Memory) => Err(AllocError),
        _ => Ok(()),
    }
}
