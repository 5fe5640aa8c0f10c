//! Calls on peers for the steps that all implementations of a replication (one thread or several) have in common.
use crate::tests::records::fault_text;
use repl_log::Moment;
use repl_target::{Peer, Plan, Rules, begin_plan, check_plan, record_at_source};
use rev_tree::SessionId;
use std::alloc::Global;
use test_support::shown;

/// Creates the plan of a session, given the maximum number of rows of a window, and a timestamp.
pub(crate) fn plan(session: SessionId, batch: u64, moment: u64) -> Option<Plan> {
    let Ok(at) = Moment::new(moment) else {
        return None;
    };
    Some(Plan {
        session,
        workers: 1,
        batch,
        stop_after: None,
        at,
        chosen: None,
    })
}

/// Checks whether a plan is valid for two peers.
pub(crate) fn check(
    alloc: Global,
    source: &Peer<Rules>,
    target: &Peer<Rules>,
    batch: u64,
) -> Option<String> {
    let (source, target) = (source.db().uuid(), target.db().uuid());
    let Some(plan) = plan(SessionId(1), batch, 0) else {
        return None;
    };
    match check_plan(source, target, &plan) {
        Ok(()) => "can begin".to_string(alloc).ok(),
        Err(fault) => fault_text(alloc, fault),
    }
}

/// Begins the session of a plan at a target.
pub(crate) fn begin(
    alloc: Global,
    source: &Peer<Rules>,
    target: &mut Peer<Rules>,
    session: SessionId,
    moment: u64,
) -> Option<String> {
    let Some(plan) = plan(session, 500, moment) else {
        return None;
    };
    match begin_plan(source, target, &plan) {
        Ok(start) => shown(alloc, &start),
        Err(fault) => fault_text(alloc, fault),
    }
}

/// Reads a session's entry at the target, and stores the entry in the source's log.
pub(crate) fn record(
    alloc: Global,
    source: &mut Peer<Rules>,
    target: &Peer<Rules>,
    session: SessionId,
) -> Option<String> {
    let Some(plan) = plan(session, 500, 0) else {
        return None;
    };
    // The contract of `record_at_source` requires that the session exists at the target.
    let Some(_windows) = target.windows(plan.session) else {
        return None;
    };
    let Ok(()) = record_at_source(source, target, &plan) else {
        return None;
    };
    "recorded".to_string(alloc).ok()
}
