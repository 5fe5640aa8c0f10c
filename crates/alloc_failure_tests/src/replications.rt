//! Calls `replicate_alone`. After a failed allocation, an audit finds no uncovered leaf (a leaf of the source that the
//! target neither stored nor rejected). If an allocation fails in a replication, a second replication with another
//! session id succeeds.
use crate::peers::load;
use anyhow::{Result, bail};
use repl_log::Moment;
use repl_target::{Audit, Cause, Peer, Plan, Report, Rules, TargetFault, audit, replicate_alone};
use rev_tree::SessionId;
use std::alloc::Global;

/// Creates the plan of a session with windows (ranges of the source's changes) of one row each.
pub(crate) fn plan(session: u128, at: Moment) -> Plan {
    Plan {
        session: SessionId(session),
        workers: 1,
        batch: 1,
        stop_after: None,
        at,
        chosen: None,
    }
}

/// Whether a replication ran out of memory.
pub(crate) fn is_memory(fault: TargetFault) -> bool {
    match fault {
        TargetFault::Memory => true,
        TargetFault::Stopped { cause, .. } => cause == Cause::Memory,
        _ => false,
    }
}

/// Audits two peers, and retries if an allocation fails. Returns whether the audit finds no uncovered leaf.
pub(crate) fn is_clean(alloc: Global, source: &Peer<Rules>, target: &Peer<Rules>) -> bool {
    let found = match audit(alloc, source, target, None).ok() {
        Some(found) => Some(found),
        None => audit(alloc, source, target, None).ok(),
    };
    match found {
        Some(found) => is_nothing(found),
        None => false,
    }
}

/// Whether the result of an audit is `Clean`.
pub(crate) fn is_nothing(found: Audit) -> bool {
    match found {
        Audit::Clean => true,
        Audit::Hole { .. } => false,
    }
}

/// Replicates the source into the target, and retries with another session id if an allocation fails.
fn replicate(
    alloc: Global,
    source: &mut Peer<Rules>,
    target: &mut Peer<Rules>,
    at: Moment,
) -> Option<Report> {
    match replicate_alone(alloc, source, target, &plan(1, at)) {
        Ok(report) => Some(report),
        Err(fault) => {
            if !is_memory(fault) || !is_clean(alloc, source, target) {
                return None;
            }
            replicate_alone(alloc, source, target, &plan(2, at)).ok()
        }
    }
}

/// Loads two documents.
fn fill(alloc: Global, source: &mut Peer<Rules>) -> Option<()> {
    load(
        alloc,
        source,
        r#"{"_id":"d","_revisions":{"start":2,"ids":["b","a"]},"n":1}"#,
    )?;
    let Some(_put) = load(alloc, source, r#"{"_id":"e","_rev":"1-a"}"#) else {
        return None;
    };
    Some(())
}

/// Returns the recorded sequence of the last replication, and the target's update sequence. The last returned value
/// says whether, according to an audit, the target has stored or rejected each leaf of the source.
fn ended(
    alloc: Global,
    source: &mut Peer<Rules>,
    target: &mut Peer<Rules>,
) -> Option<(u64, u64, bool)> {
    let Ok(at) = Moment::new(10) else {
        return None;
    };
    let Some(()) = fill(alloc, source) else {
        return None;
    };
    let Some(report) = replicate(alloc, source, target, at) else {
        return None;
    };
    let clean = is_clean(alloc, source, target);
    Some((report.recorded, target.db().update_seq(), clean))
}

/// Replicates a source into a new target. Each variable of a function that owns a peer lengthens the function's proof.
/// The source and the target are therefore variables of different functions.
fn into_target(alloc: Global, source: &mut Peer<Rules>) -> Option<(u64, u64, bool)> {
    let mut target = Peer::new(alloc, 2, Rules { deny: None });
    ended(alloc, source, &mut target)
}

/// Replicates a new source into a new target.
fn between(alloc: Global) -> Option<(u64, u64, bool)> {
    let mut source = Peer::new(alloc, 1, Rules { deny: None });
    into_target(alloc, &mut source)
}

pub(crate) fn run(rt: &impl Print, alloc: Global) -> Result<()> {
    let Some((recorded, sequence, clean)) = between(alloc) else {
        bail!("replications: another answer");
    };
    println!(rt;
        "replications as wanted: recorded {recorded}, sequence {sequence}, clean {clean}"
    )?;
    Ok(())
}
