//! Tests selections of documents, and replications of selected documents. The tests check that a call whose allocation
//! fails changes nothing.
use crate::peers::load;
use crate::replications::{is_memory, is_nothing, plan};
use anyhow::{Result, bail};
use couch_base::{BaseFault, Window};
use doc_json::{Chosen, DocFault, DocId};
use repl_log::{Moment, RepId, rep_id};
use repl_target::{Peer, Report, Rules, audit, hole_above, replicate_alone};
use std::alloc::{AllocError, Global};

/// Parses a document id.
fn id(alloc: Global, text: &str) -> Option<DocId> {
    match DocId::parse(alloc, text) {
        Err(DocFault::Memory) => DocId::parse(alloc, text).ok(),
        answer => answer.ok(),
    }
}

/// Returns a list of three ids, two of which are equal.
fn ids(alloc: Global) -> Option<Vec<DocId>> {
    let mut ids = Vec::new(alloc);
    for text in ["f", "d", "f"] {
        let Some(id) = id(alloc, text) else {
            return None;
        };
        if ids.reserve(1).is_err() {
            let Ok(()) = ids.reserve(1) else {
                return None;
            };
        }
        let Ok(()) = ids.push(id) else {
            return None;
        };
    }
    Some(ids)
}

/// Creates the selection of a list of ids, and retries if an allocation fails.
fn choose(alloc: Global) -> Option<Chosen> {
    match Chosen::new(ids(alloc)?) {
        Err(DocFault::Memory) => Chosen::new(ids(alloc)?).ok(),
        answer => answer.ok(),
    }
}

/// Returns the length of the text that `rep_id` returns for a replication of the selected documents.
fn named(alloc: Global, chosen: &Chosen) -> Option<usize> {
    let Ok(rep) = RepId::new(1, 2, Some(chosen)).ok()?.copy(alloc) else {
        return None;
    };
    match rep_id(alloc, &rep) {
        Err(AllocError) => Some(rep_id(alloc, &rep).ok()?.len()),
        answer => Some(answer.ok()?.len()),
    }
}

/// Reads a page of a source's changes feed, restricted to a selection.
fn page(alloc: Global, source: &Peer<Rules>, chosen: &Chosen) -> Option<Window> {
    let goal = source.db().update_seq();
    match source.page(alloc, 0, goal, 10, Some(chosen)) {
        Err(BaseFault::Memory) => source.page(alloc, 0, goal, 10, Some(chosen)).ok(),
        answer => answer.ok(),
    }
}

/// Whether an audit of the selected documents finds no uncovered leaf.
fn is_clean(
    alloc: Global,
    source: &Peer<Rules>,
    target: &Peer<Rules>,
    chosen: &Chosen,
) -> Option<bool> {
    let found = match audit(alloc, source, target, Some(chosen)) {
        Err(AllocError) => audit(alloc, source, target, Some(chosen)).ok(),
        answer => answer.ok(),
    };
    Some(is_nothing(found?))
}

/// Whether the target covers the selected documents of the source, but not all documents of the source.
fn has_them_alone(
    alloc: Global,
    source: &Peer<Rules>,
    target: &Peer<Rules>,
    chosen: &Chosen,
) -> Option<bool> {
    let some = match hole_above(alloc, source, target, 0, Some(chosen)) {
        Err(AllocError) => hole_above(alloc, source, target, 0, Some(chosen)).ok(),
        answer => answer.ok(),
    };
    let all = match hole_above(alloc, source, target, 0, None) {
        Err(AllocError) => hole_above(alloc, source, target, 0, None).ok(),
        answer => answer.ok(),
    };
    Some(is_nothing(some?) && !is_nothing(all?))
}

/// Replicates the selected documents in a session.
fn carry(
    alloc: Global,
    source: &mut Peer<Rules>,
    target: &mut Peer<Rules>,
    session: u128,
    chosen: &Chosen,
) -> Option<Result<Report, bool>> {
    let mut plan = plan(session, Moment::new(10).ok()?);
    plan.chosen = Some(chosen.copy().ok()?);
    match replicate_alone(alloc, source, target, &plan.copy().ok()?) {
        Ok(report) => Some(Ok(report)),
        Err(fault) => Some(Err(is_memory(fault))),
    }
}

/// Replicates the selected documents, and retries with another session if an allocation fails.
fn replicate(
    alloc: Global,
    source: &mut Peer<Rules>,
    target: &mut Peer<Rules>,
    chosen: &Chosen,
) -> Option<Report> {
    match carry(alloc, source, target, 1, chosen)? {
        Ok(report) => Some(report),
        Err(is_memory) => {
            if is_memory && is_clean(alloc, source, target, chosen)? {
                return carry(alloc, source, target, 2, chosen)?.ok();
            }
            None
        }
    }
}

/// Loads three documents, two of which are selected.
fn fill(alloc: Global, source: &mut Peer<Rules>) -> Option<()> {
    let Some(_put) = load(alloc, source, r#"{"_id":"d","_rev":"1-a"}"#) else {
        return None;
    };
    let Some(_put) = load(alloc, source, r#"{"_id":"e","_rev":"1-a"}"#) else {
        return None;
    };
    let Some(_put) = load(alloc, source, r#"{"_id":"f","_rev":"1-a"}"#) else {
        return None;
    };
    Some(())
}

/// The values that the test observes in a replication of selected documents. The first three values are the length of
/// the replication id, the number of rows in a page of the feed, and the recorded sequence. The fourth value is the
/// target's update sequence. The last value says whether the target covers the selected documents, but not all
/// documents.
type Seen = (usize, usize, u64, u64, bool);

/// Fills the peer `source`, replicates the selected documents into the peer `target`, and returns the values that the
/// test observes (`Seen`).
fn ended(alloc: Global, source: &mut Peer<Rules>, target: &mut Peer<Rules>) -> Option<Seen> {
    let Some(()) = fill(alloc, source) else {
        return None;
    };
    let Some(chosen) = choose(alloc) else {
        return None;
    };
    let Some(named) = named(alloc, &chosen) else {
        return None;
    };
    let rows = page(alloc, source, &chosen)?.rows().len();
    let Some(report) = replicate(alloc, source, target, &chosen) else {
        return None;
    };
    let Some(clean) = is_clean(alloc, source, target, &chosen) else {
        return None;
    };
    let alone = clean && has_them_alone(alloc, source, target, &chosen)?;
    Some((
        named,
        rows,
        report.recorded,
        target.db().update_seq(),
        alone,
    ))
}

/// Replicates selected documents of a source into a new target. Each variable of a function that owns a peer lengthens
/// the function's proof. The source and the target are therefore variables of different functions.
fn into_target(alloc: Global, source: &mut Peer<Rules>) -> Option<Seen> {
    let mut target = Peer::new(alloc, 2, Rules { deny: None });
    ended(alloc, source, &mut target)
}

/// Replicates selected documents of a new source into a new target.
fn between(alloc: Global) -> Option<Seen> {
    let mut source = Peer::new(alloc, 1, Rules { deny: None });
    into_target(alloc, &mut source)
}

pub(crate) fn run(rt: &impl Print, alloc: Global) -> Result<()> {
    let Some((named, rows, recorded, sequence, alone)) = between(alloc) else {
        bail!("choices: another answer");
    };
    println!(rt;
        "choices as wanted: id {named}, rows {rows}, recorded {recorded}, sequence {sequence}, alone {alone}"
    )?;
    Ok(())
}
