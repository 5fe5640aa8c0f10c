//! Ends a run: concludes or records its session, and stores the session's entry in the source's log.
ghost use Rattle.std.specs.Prelude.{◌≡◌, Some, Ok, Err, IfOk, IfErr, OnOk};
ghost use Rattle.couch_base.specs.Database.{DatabaseValue};
ghost use Rattle.repl_peer.specs.peer.Peer.{SessionValue, session_in};
ghost use Rattle.doc_json.specs.Chosen.{Choice};
ghost use Rattle.pool_workers.specs.Grown.{GrownPeer};
ghost use Rattle.repl_peer.specs.session.Sessions.{record_answer, after_record};
ghost use Rattle.repl_pool.specs.Runs.{IsConcluded, unfinished_at, IsRecorded, UnlessMemory, PutsEntry, ClosesRun};

use crate::running::Ran;
use pool_workers::{PoolFault, Summed};
use repl_target::{Peer, Plan, Report, TargetFault, WriteFilter, record_at_source};

/// Records the session's low water at the target. Returns `Unfinished` with the low water, or the error of the target's
/// call `record`.
fn record<F: WriteFilter>(target: &mut Peer<F>, plan: &Plan) -> PoolFault
    ensures told { result ≡ unfinished_at (record_answer target.old.1 plan.now.session) }
    ensures peer { target.new.1 ≡ after_record target.old.1 plan.now.session plan.now.at }
    ensures grown { (db : DatabaseValue) (c : Choice) → GrownPeer F.refuses db c plan.now.session target.old target.new }
{
    match target.record(plan.session, plan.at) {
        Ok(low_water) => PoolFault::Refused(TargetFault::Unfinished { low_water }),
        Err(fault) => PoolFault::Refused(fault),
    }
}

/// Concludes the session at the target if no step failed or was stopped (`fault` is `None`) and all sent parcels were
/// received (`complete`). If the session is not concluded, the call records the session's low water.
fn close_target<F: WriteFilter>(
    target: &mut Peer<F>,
    plan: &Plan,
    fault: Option<PoolFault>,
    complete: bool,
) -> Result<Report, PoolFault>
    ensures grown { (db : DatabaseValue) (c : Choice) → GrownPeer F.refuses db c plan.now.session target.old target.new }
    ensures ok { IfOk result (IsConcluded plan.now fault complete target.old.1 target.new.1) }
    ensures err { IfErr result (IsRecorded plan.now fault complete target.old.1 target.new.1) }
{
    if let Some(fault) = fault {
        let _ = record(target, plan);
        return Err(fault);
    }
    if !complete {
        return Err(record(target, plan));
    }
    match target.conclude(plan.session, plan.at) {
        Ok(report) => Ok(report),
        Err(fault) => {
            let _ = record(target, plan);
            Err(PoolFault::Refused(fault))
        }
    }
}

/// Reads the log entry of the run's session at the target, and stores the entry in the source's log. If the source's
/// log has a newer entry of the session, the call stores nothing.
///
/// The call returns the given outcome of the run. If the allocation for the entry fails, the call returns `Memory`
/// instead of `Ok`.
fn put_entry<F: WriteFilter>(
    source: &mut Peer<F>,
    target: &Peer<F>,
    plan: &Plan,
    outcome: Result<Report, PoolFault>,
) -> Result<Report, PoolFault>
    requires held { (s : SessionValue) × (session_in target.now.1.sessions plan.now.session ≡ Some s) }
    ensures filter { source.new.0 ≡ source.old.0 }
    ensures source { source.new.1 ≡ record source.old.1 { outgoing = source.new.1.outgoing } }
    ensures told { UnlessMemory outcome result }
    ensures puts { PutsEntry source.old.1 target.now.1 source.new.1 plan.now result }
{
    let put = record_at_source(source, target, plan);
    let report = outcome?;
    put?;
    Ok(report)
}

/// Ends a run. The call concludes or records the session at the target, stores the session's entry at the source, and
/// returns both peers.
pub fn end<F: WriteFilter>(source: Peer<F>, summed: Summed<F>, plan: &Plan) -> Ran<F>
    requires held { (s : SessionValue) × (session_in summed.target.1.sessions plan.now.session ≡ Some s) }
    ensures fetched { result.fetched ≡ summed.fetched }
    ensures seats { result.seats ≡ summed.seats }
    ensures filter { result.source.0 ≡ source.0 }
    ensures source { result.source.1 ≡ record source.1 { outgoing = result.source.1.outgoing } }
    ensures grown { (db : DatabaseValue) (c : Choice)
        → GrownPeer F.refuses db c plan.now.session summed.target result.target }
    ensures ends { ClosesRun plan.now summed.fault summed.complete source.1 summed.target.1 result.source.1
        result.target.1 result.outcome }
{
    let Summed {
        mut target,
        fetched,
        seats,
        fault,
        complete,
    } = summed;
    let mut source = source;
    source.law();
    target.law();
    let concluded = close_target(&mut target, plan, fault, complete);
    let outcome = put_entry(&mut source, &target, plan, concluded);
    Ran {
        source,
        target,
        fetched,
        seats,
        outcome,
    }
}
