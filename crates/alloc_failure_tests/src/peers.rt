//! Tests local writes, sessions and settling of a `Peer`. The tests check that a call whose allocation fails leaves the
//! peer in the state that the call's contract allows.
use anyhow::{Result, bail};
use couch_base::{Asked, BaseFault, Parcel, Put, Window};
use doc_json::{Body, Doc, DocFault, DocId, read_body, read_doc};
use repl_log::{Moment, RepId};
use repl_target::{Beginning, Cause, Peer, Report, Rules, Scope, Settled, TargetFault};
use rev_core::Rev;
use rev_tree::SessionId;
use serde_json::Value;
use std::alloc::{AllocError, Global};

/// The only session.
const SESSION: SessionId = SessionId(1);

/// The id of the replication from the peer with UUID 1 to the peer with UUID 2.
const REP: RepId = RepId {
    source: 1,
    target: 2,
    chosen: None,
};

fn value(alloc: Global, text: &str) -> Option<Value> {
    match Value::from_str(alloc, text) {
        Ok(value) => Some(value),
        Err(_) => Value::from_str(alloc, text).ok(),
    }
}

pub(crate) fn doc(alloc: Global, text: &str) -> Option<Doc> {
    let Some(value) = value(alloc, text) else {
        return None;
    };
    match read_doc(alloc, &value) {
        Err(DocFault::Memory) => read_doc(alloc, &value).ok(),
        answer => answer.ok(),
    }
}

pub(crate) fn body(alloc: Global, text: &str) -> Option<Body> {
    let Some(value) = value(alloc, text) else {
        return None;
    };
    match read_body(alloc, &value) {
        Err(DocFault::Memory) => read_body(alloc, &value).ok(),
        answer => answer.ok(),
    }
}

pub(crate) fn doc_id(alloc: Global, text: &str) -> Option<DocId> {
    match DocId::parse(alloc, text) {
        Err(DocFault::Memory) => DocId::parse(alloc, text).ok(),
        answer => answer.ok(),
    }
}

pub(crate) fn load(alloc: Global, peer: &mut Peer<Rules>, text: &str) -> Option<Put> {
    let Some(doc) = doc(alloc, text) else {
        return None;
    };
    let before = peer.db().update_seq();
    match peer.load(&doc) {
        Err(BaseFault::Memory) => {
            if peer.db().update_seq() != before {
                return None;
            }
            peer.load(&doc).ok()
        }
        answer => answer.ok(),
    }
}

/// Edits a document, without a retry if an allocation fails.
fn edited(peer: &mut Peer<Rules>, id: &DocId, parent: &Option<Rev>, body: &Body) -> Option<Rev> {
    peer.edit(id, *parent, false, body).ok()
}

fn edit(alloc: Global, peer: &mut Peer<Rules>, id: &str, parent: &Option<Rev>) -> Option<Rev> {
    let Some(id) = doc_id(alloc, id) else {
        return None;
    };
    let Some(body) = body(alloc, r#"{"n":1}"#) else {
        return None;
    };
    let before = peer.db().update_seq();
    match edited(peer, &id, parent, &body) {
        Some(rev) => Some(rev),
        None => {
            if peer.db().update_seq() != before {
                return None;
            }
            edited(peer, &id, parent, &body)
        }
    }
}

fn page(alloc: Global, peer: &Peer<Rules>) -> Option<Window> {
    let goal = peer.db().update_seq();
    match peer.page(alloc, 0, goal, 10, None) {
        Err(BaseFault::Memory) => peer.page(alloc, 0, goal, 10, None).ok(),
        answer => answer.ok(),
    }
}

fn copied(alloc: Global, window: &Window) -> Option<Window> {
    match window.copy(alloc) {
        Err(AllocError) => window.copy(alloc).ok(),
        answer => answer.ok(),
    }
}

fn asked(alloc: Global, peer: &Peer<Rules>, window: &Window) -> Option<Asked> {
    match peer.revs_diff(alloc, window) {
        Err(AllocError) => peer.revs_diff(alloc, window).ok(),
        answer => answer.ok(),
    }
}

fn opened(alloc: Global, peer: &Peer<Rules>, asked: &Asked) -> Option<Parcel> {
    match peer.open_revs(alloc, asked) {
        Err(AllocError) => peer.open_revs(alloc, asked).ok(),
        answer => answer.ok(),
    }
}

/// Returns the parameters of a session from sequence 0 to the sequence `goal` of the source. The source's database has
/// the life 0.
fn beginning(goal: u64) -> Beginning {
    let scope = Scope {
        rep: REP,
        life: 0,
        base: None,
        goal,
    };
    Beginning { scope, start: 0 }
}

fn begin(peer: &mut Peer<Rules>, goal: u64, at: Moment) -> Option<()> {
    match peer.begin(SESSION, beginning(goal), at) {
        Err(TargetFault::Memory) => {
            if peer.entry(SESSION).is_ok() {
                return None;
            }
            peer.begin(SESSION, beginning(goal), at).ok()
        }
        answer => answer.ok(),
    }
}

fn append(alloc: Global, peer: &mut Peer<Rules>, window: &Window) -> Option<()> {
    match peer.append(SESSION, copied(alloc, window)?) {
        Err(TargetFault::Memory) => peer.append(SESSION, copied(alloc, window)?).ok(),
        answer => answer.ok(),
    }
}

/// If settling ran out of memory, returns the numbers of settled and of unsettled documents.
fn stopped(fault: TargetFault) -> Option<(u64, usize)> {
    match fault {
        TargetFault::Stopped {
            settled,
            rest,
            cause: Cause::Memory,
        } => Some((settled, rest.len())),
        _ => None,
    }
}

/// Returns the numbers of documents read and of leaves checked by the session.
fn counted(peer: &Peer<Rules>) -> Option<(u64, u64)> {
    let Ok(entry) = peer.entry(SESSION) else {
        return None;
    };
    Some((entry.counts.read, entry.counts.checked))
}

/// Settles a parcel of fetched documents, and retries if an allocation fails.
fn settle(
    alloc: Global,
    peer: &mut Peer<Rules>,
    source: &Peer<Rules>,
    asked: &Asked,
) -> Option<Settled> {
    let Some(first) = opened(alloc, source, asked) else {
        return None;
    };
    let all = first.docs().len();
    match peer.settle(SESSION, first) {
        Ok(settled) => Some(settled),
        Err(fault) => {
            let (settled, rest) = stopped(fault).unwrap_or((0, 0));
            if settled.saturating_add(rest as u64) != all as u64
                || counted(peer) != Some((settled, 0))
            {
                return None;
            }
            let Some(again) = opened(alloc, source, asked) else {
                return None;
            };
            peer.settle(SESSION, again).ok()
        }
    }
}

/// Loads three documents, and edits a fourth document twice.
fn fill_source(alloc: Global, source: &mut Peer<Rules>) -> Option<()> {
    for text in [
        r#"{"_id":"a","_revisions":{"start":2,"ids":["b","a"]},"n":1}"#,
        r#"{"_id":"secret","_revisions":{"start":2,"ids":["b","a"]}}"#,
        r#"{"_id":"d","_revisions":{"start":3,"ids":["d","c","x"]}}"#,
    ] {
        let Some(_put) = load(alloc, source, text) else {
            return None;
        };
    }
    let Some(rev) = edit(alloc, source, "e", &None) else {
        return None;
    };
    let Some(_rev) = edit(alloc, source, "e", &Some(rev)) else {
        return None;
    };
    Some(())
}

fn prefix(alloc: Global) -> Option<String> {
    match "secret".to_string(alloc) {
        Ok(prefix) => Some(prefix),
        Err(_) => "secret".to_string(alloc).ok(),
    }
}

/// Begins the session with the source's complete feed, and requests the leaves that the target lacks.
fn ask(alloc: Global, source: &Peer<Rules>, target: &mut Peer<Rules>, at: Moment) -> Option<Asked> {
    let Some(window) = page(alloc, source) else {
        return None;
    };
    let Some(()) = begin(target, source.db().update_seq(), at) else {
        return None;
    };
    let Some(()) = append(alloc, target, &window) else {
        return None;
    };
    asked(alloc, target, &window)
}

/// Runs the session.
fn replicate(
    alloc: Global,
    source: &Peer<Rules>,
    target: &mut Peer<Rules>,
) -> Option<(Settled, Report)> {
    let Ok(at) = Moment::new(10) else {
        return None;
    };
    let Some(asked) = ask(alloc, source, target, at) else {
        return None;
    };
    let Some(settled) = settle(alloc, target, source, &asked) else {
        return None;
    };
    Some((settled, target.conclude(SESSION, at).ok()?))
}

/// Prints the result of the session.
fn tell(rt: &impl Print, settled: Settled, report: Report, sequence: u64) -> Result<()> {
    println!(rt;
        "peers as wanted: written {}, failures {}, recorded {}, checked {}, sequence {sequence}",
        settled.written, settled.failures, report.recorded, report.counts.checked
    )?;
    Ok(())
}

/// Runs the session, and returns the numbers of settled documents, the report, and the target's update sequence. Before
/// the session, a tree of the target contradicts a tree of the source. A revision has different parents in the two
/// trees.
fn session(
    alloc: Global,
    source: &mut Peer<Rules>,
    target: &mut Peer<Rules>,
) -> Option<(Settled, Report, u64)> {
    let Some(()) = fill_source(alloc, source) else {
        return None;
    };
    load(
        alloc,
        target,
        r#"{"_id":"d","_revisions":{"start":2,"ids":["c","b"]}}"#,
    )?;
    let Some((settled, report)) = replicate(alloc, source, target) else {
        return None;
    };
    Some((settled, report, target.db().update_seq()))
}

/// Runs the session with a target that refuses documents. Each variable of a function that owns a peer lengthens the
/// function's proof. The source and the target are therefore variables of different functions.
fn into_target(
    alloc: Global,
    source: &mut Peer<Rules>,
    deny: Option<String>,
) -> Option<(Settled, Report, u64)> {
    let mut target = Peer::new(alloc, 2, Rules { deny });
    session(alloc, source, &mut target)
}

/// Runs the session of a source and a target.
fn between(alloc: Global, deny: Option<String>) -> Option<(Settled, Report, u64)> {
    let mut source = Peer::new(alloc, 1, Rules { deny: None });
    into_target(alloc, &mut source, deny)
}

/// Runs the session with a target that refuses documents whose ids begin with a prefix.
fn refusing(alloc: Global) -> Option<(Settled, Report, u64)> {
    let Some(deny) = prefix(alloc) else {
        return None;
    };
    between(alloc, Some(deny))
}

pub(crate) fn run(rt: &impl Print, alloc: Global) -> Result<()> {
    let Some((settled, report, sequence)) = refusing(alloc) else {
        bail!("peers: another answer");
    };
    tell(rt, settled, report, sequence)
}
