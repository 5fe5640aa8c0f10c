//! Calls the pool's `run` with one worker on the caller's thread, and with two fetchers and two writers on separate
//! threads. After a failed allocation, the run returns both peers, an audit finds no uncovered leaf, and another run
//! succeeds.
use crate::peers::load;
use crate::replications::{is_clean, is_memory, plan};
use anyhow::{Result, bail};
use repl_log::Moment;
use repl_pool::{Gate, Open, Place, PoolFault, Ran, Turn, run as run_pool};
use repl_target::{Peer, Plan, Report, Rules};
use std::alloc::Global;
use std::mem;
use std::sync::Wait;
use std::thread::Threads;

/// A `Gate` (a callback that workers call at each stage of a window) that never blocks a worker, but whose `may_block`
/// returns true. With `Separate` as the workers' callback, a run of the pool starts a separate thread for each fetcher
/// and each writer.
struct Separate;

impl Gate for Separate {
    ghost may_stop = { λ _ _. ⊥ };

    fn at<R: Wait>(&self, _rt: &R, _place: Place) -> Turn {
        Turn::Go
    }
}

/// The parameters of a run of the pool: the callback that workers call at each stage, and the number of workers.
struct Kind<'a, G: Gate> {
    gate: &'a G,
    workers: u64,
}

/// Takes a peer out of a variable for a run, and leaves a new peer in the variable.
fn taken(alloc: Global, place: &mut Peer<Rules>) -> Peer<Rules> {
    mem::replace(place, Peer::new(alloc, 0, Rules { deny: None }))
}

/// Runs a session between two peers, and stores both peers after the run.
fn once<G: Gate + Sync, R: Threads + Wait + Sync>(
    rt: &R,
    alloc: Global,
    kind: &Kind<'_, G>,
    source: &mut Peer<Rules>,
    target: &mut Peer<Rules>,
    session: u128,
) -> Result<Report, PoolFault> {
    let Ok(at) = Moment::new(10) else {
        return Err(PoolFault::Memory);
    };
    let (from, into) = (taken(alloc, source), taken(alloc, target));
    let plan = Plan {
        workers: kind.workers,
        ..plan(session, at)
    };
    let ran = run_pool(rt, alloc, from, into, &plan, kind.gate);
    let Ran {
        source: from,
        target: into,
        outcome,
        ..
    } = ran;
    *source = from;
    *target = into;
    outcome
}

/// Whether a run ran out of memory.
fn is_want(fault: PoolFault) -> bool {
    match fault {
        PoolFault::Memory => true,
        PoolFault::Refused(fault) => is_memory(fault),
        _ => false,
    }
}

/// Runs the pool, and retries with another session if an allocation fails.
fn replicate<G: Gate + Sync, R: Threads + Wait + Sync>(
    rt: &R,
    alloc: Global,
    kind: &Kind<'_, G>,
    source: &mut Peer<Rules>,
    target: &mut Peer<Rules>,
) -> Option<Report> {
    match once(rt, alloc, kind, source, target, 1) {
        Ok(report) => Some(report),
        Err(fault) => {
            if !is_want(fault) || !is_clean(alloc, source, target) {
                return None;
            }
            once(rt, alloc, kind, source, target, 2).ok()
        }
    }
}

/// Loads two conflicting edits of a document, and another document.
fn fill(alloc: Global, source: &mut Peer<Rules>) -> Option<()> {
    load(
        alloc,
        source,
        r#"{"_id":"d","_rev":"2-a","_revisions":{"start":2,"ids":["a","r"]}}"#,
    )?;
    load(
        alloc,
        source,
        r#"{"_id":"d","_rev":"2-b","_revisions":{"start":2,"ids":["b","r"]}}"#,
    )?;
    load(alloc, source, r#"{"_id":"e","_rev":"1-a"}"#)?;
    Some(())
}

/// Returns the recorded sequence of the last run, the target's update sequence, and whether an audit finds no uncovered
/// leaf.
fn ended<G: Gate + Sync, R: Threads + Wait + Sync>(
    rt: &R,
    alloc: Global,
    kind: &Kind<'_, G>,
    source: &mut Peer<Rules>,
    target: &mut Peer<Rules>,
) -> Option<(u64, u64, bool)> {
    let Some(()) = fill(alloc, source) else {
        return None;
    };
    let Some(report) = replicate(rt, alloc, kind, source, target) else {
        return None;
    };
    let clean = is_clean(alloc, source, target);
    Some((report.recorded, target.db().update_seq(), clean))
}

/// Replicates a source into a new target with the pool. Each variable of a function that owns a peer lengthens the
/// function's proof. The source and the target are therefore variables of different functions.
fn into_target<G: Gate + Sync, R: Threads + Wait + Sync>(
    rt: &R,
    alloc: Global,
    kind: &Kind<'_, G>,
    source: &mut Peer<Rules>,
) -> Option<(u64, u64, bool)> {
    let mut target = Peer::new(alloc, 2, Rules { deny: None });
    ended(rt, alloc, kind, source, &mut target)
}

/// Replicates a new source into a new target with the pool.
fn between<G: Gate + Sync, R: Threads + Wait + Sync>(
    rt: &R,
    alloc: Global,
    kind: &Kind<'_, G>,
) -> Option<(u64, u64, bool)> {
    let mut source = Peer::new(alloc, 1, Rules { deny: None });
    into_target(rt, alloc, kind, &mut source)
}

/// Returns the result of a run with one worker, and the result of a run with two fetchers and two writers.
fn both<R: Threads + Wait + Sync>(
    rt: &R,
    alloc: Global,
) -> Option<((u64, u64, bool), (u64, u64, bool))> {
    let alone = between(
        rt,
        alloc,
        &Kind {
            gate: &Open,
            workers: 1,
        },
    )?;
    let apart = between(
        rt,
        alloc,
        &Kind {
            gate: &Separate,
            workers: 2,
        },
    )?;
    Some((alone, apart))
}

pub(crate) fn run<R: Print + Threads + Wait + Sync>(rt: &R, alloc: Global) -> Result<()> {
    let Some((alone, apart)) = both(rt, alloc) else {
        bail!("pools: another answer");
    };
    let (recorded, sequence, clean) = alone;
    println!(rt; "pools as wanted: recorded {recorded}, sequence {sequence}, clean {clean}")?;
    let (recorded, sequence, clean) = apart;
    println!(rt; "two of each as wanted: recorded {recorded}, sequence {sequence}, clean {clean}")?;
    Ok(())
}
