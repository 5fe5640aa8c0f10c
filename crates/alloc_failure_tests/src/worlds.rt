//! Calls `World::run`. If an allocation fails in a step of `World::run`, the step has no effect, or has settled only a
//! part of a parcel. After a failed step, the test takes the remaining steps. The final result is the same as after a
//! run without a failed allocation.
use crate::peers::{body, doc, doc_id};
use anyhow::{Result, bail};
use repl_log::Moment;
use repl_target::{Audit, Peer, Rules, audit};
use repl_world::{Step, World};
use rev_core::Rev;
use rev_tree::SessionId;
use std::alloc::Global;

/// The only session.
const SESSION: SessionId = SessionId(1);

/// The number of a session's windows, its low water (the sequence up to which all windows are done), and its recorded
/// sequence.
type Session = (usize, u64, u64);

/// The observed values of a world: the source's life (incarnation), the peers' update sequences, the session if it has
/// begun, and the numbers of messages that were sent (`World::bag_sizes`).
#[derive(Clone, Copy, PartialEq, Eq)]
struct Seen {
    life: u64,
    source: u64,
    target: u64,
    session: Option<Session>,
    sizes: (usize, usize, usize, usize, usize),
}

/// Each entry of `BEFORE` has the values that a failed step may leave, and the index of the step with which the test
/// continues. Three entries of `BEFORE` are for the step that settles a parcel. This step may fail after it has settled
/// a part of the parcel. The test may repeat the steps that store a log entry or back up the source. The test therefore
/// does not observe the source's log and backups.
static BEFORE: &[(
    u64,
    u64,
    u64,
    Option<Session>,
    (usize, usize, usize, usize, usize),
    usize,
)] = &[
    (0, 0, 0, None, (0, 0, 0, 0, 0), 0),
    (0, 1, 0, None, (0, 0, 0, 0, 0), 1),
    (0, 2, 0, None, (0, 0, 0, 0, 0), 2),
    (0, 3, 0, None, (0, 0, 0, 0, 0), 3),
    (0, 3, 1, None, (0, 0, 0, 0, 0), 4),
    (0, 3, 2, None, (0, 0, 0, 0, 0), 5),
    (0, 3, 2, None, (0, 0, 0, 0, 1), 6),
    (0, 3, 2, Some((0, 0, 0)), (0, 0, 0, 0, 1), 7),
    (0, 3, 2, Some((0, 0, 0)), (1, 0, 0, 0, 1), 8),
    (0, 3, 2, Some((1, 0, 0)), (1, 0, 0, 0, 1), 9),
    (0, 3, 2, Some((1, 0, 0)), (1, 1, 0, 0, 1), 10),
    (0, 3, 2, Some((1, 0, 0)), (1, 1, 1, 0, 1), 11),
    (0, 3, 3, Some((1, 0, 0)), (1, 1, 1, 0, 1), 11),
    (0, 3, 4, Some((1, 0, 0)), (1, 1, 1, 0, 1), 11),
    (0, 3, 4, Some((1, 3, 0)), (1, 1, 1, 0, 1), 12),
    (0, 3, 4, Some((1, 3, 3)), (1, 1, 1, 1, 1), 13),
    (0, 3, 4, Some((1, 3, 3)), (1, 1, 1, 2, 1), 14),
    (0, 4, 4, Some((1, 3, 3)), (1, 1, 1, 2, 1), 17),
    (1, 3, 4, Some((1, 3, 3)), (1, 1, 1, 2, 1), 18),
];

/// Returns the parameters of an edit whose parent is 1-a: document id, parent and body.
fn edit(alloc: Global, id: &str) -> Option<(doc_json::DocId, Option<Rev>, doc_json::Body)> {
    let Some(id) = doc_id(alloc, id) else {
        return None;
    };
    let parent = Rev::parse(b"1-a").ok();
    let Some(body) = body(alloc, r#"{"n":1}"#) else {
        return None;
    };
    Some((id, parent, body))
}

/// Appends the steps that write to the two databases.
fn writes(alloc: Global, steps: &mut Vec<Step>) -> Option<()> {
    let d = doc(
        alloc,
        r#"{"_id":"d","_revisions":{"start":2,"ids":["b","a"]}}"#,
    )?;
    steps.push(Step::LoadSource(d)).ok()?;
    let e = doc(alloc, r#"{"_id":"e","_rev":"1-a"}"#)?;
    steps.push(Step::LoadSource(e)).ok()?;
    let (id, parent, body) = edit(alloc, "e")?;
    steps
        .push(Step::EditSource {
            id,
            parent,
            deleted: false,
            body,
        })
        .ok()?;
    let f = doc(alloc, r#"{"_id":"f","_rev":"1-a"}"#)?;
    steps.push(Step::ThirdParty(f)).ok()?;
    let (id, parent, body) = edit(alloc, "f")?;
    steps
        .push(Step::EditTarget {
            id,
            parent,
            deleted: false,
            body,
        })
        .ok()
}

/// Returns the step at the given index of a replication.
fn step(at: Moment, place: usize) -> Step {
    let (window, asked, parcel, entry) = (0, 0, 0, 1);
    let session = SESSION;
    match place {
        0 => Step::ReadLog,
        1 => Step::Begin {
            session,
            log: 0,
            goal: 3,
            at,
        },
        2 => Step::Page {
            since: 0,
            goal: 3,
            limit: 10,
        },
        3 => Step::Append { session, window },
        4 => Step::Diff { window },
        5 => Step::Fetch { asked },
        6 => Step::Settle { session, parcel },
        7 => Step::Record { session, at },
        8 => Step::Conclude { session, at },
        _ => Step::PutEntry { entry },
    }
}

/// Appends the steps that back up the source, change the source, and restore the backup.
fn restoring(alloc: Global, steps: &mut Vec<Step>) -> Option<()> {
    let Ok(()) = steps.push(Step::Backup) else {
        return None;
    };
    let Some(g) = doc(alloc, r#"{"_id":"g","_rev":"1-a"}"#) else {
        return None;
    };
    let Ok(()) = steps.push(Step::LoadSource(g)) else {
        return None;
    };
    let Ok(()) = steps.push(Step::Restore { backup: 0 }) else {
        return None;
    };
    steps.push(Step::ReadLog).ok()
}

/// Returns all steps, or `None` if an allocation fails.
fn steps(alloc: Global) -> Option<Vec<Step>> {
    let Ok(at) = Moment::new(10) else {
        return None;
    };
    let mut steps = Vec::new(alloc);
    let Some(()) = writes(alloc, &mut steps) else {
        return None;
    };
    for place in 0..10usize {
        let Ok(()) = steps.push(step(at, place)) else {
            return None;
        };
    }
    let Some(()) = restoring(alloc, &mut steps) else {
        return None;
    };
    Some(steps)
}

/// Returns the number of windows, the low water and the recorded sequence of the session `SESSION`, if the session has
/// begun.
fn session(target: &Peer<Rules>) -> Option<Session> {
    let windows = target.windows(SESSION)?.len();
    let done = target.front(SESSION)?.low_water();
    Some((windows, done, target.entry(SESSION).ok()?.recorded))
}

/// Returns the source's life, the peers' update sequences, the values of `SESSION`, and the numbers of messages in
/// transit.
fn look(world: &World<Rules>) -> Seen {
    Seen {
        life: world.source().db().life(),
        source: world.source().db().update_seq(),
        target: world.target().db().update_seq(),
        session: session(world.target()),
        sizes: world.bag_sizes(),
    }
}

/// Returns the index of the step with which the test continues, or `None` if `BEFORE` lacks the observed values.
fn left(seen: Seen) -> Option<usize> {
    for (life, source, target, session, sizes, place) in BEFORE {
        let before = Seen {
            life: *life,
            source: *source,
            target: *target,
            session: *session,
            sizes: *sizes,
        };
        if seen == before {
            return Some(*place);
        }
    }
    None
}

/// Performs all steps of a list on a world (two peers and the messages between them). If an allocation fails, the call
/// continues with the step whose index `left` returns.
fn take(alloc: Global, world: &mut World<Rules>, steps: &[Step]) -> Option<()> {
    if world.run(alloc, steps).is_ok() {
        return Some(());
    }
    let Some(place) = left(look(world)) else {
        return None;
    };
    world.run(alloc, steps.get(place..)?).ok()
}

/// Audits two peers, and retries if an allocation fails. Returns whether the audit finds no uncovered leaf.
fn is_clean(alloc: Global, world: &World<Rules>) -> bool {
    let found = match audit(alloc, world.source(), world.target(), None).ok() {
        Some(found) => Some(found),
        None => audit(alloc, world.source(), world.target(), None).ok(),
    };
    match found {
        Some(Audit::Clean) => true,
        _ => false,
    }
}

/// Performs all steps of the test on a world (two peers and the messages between them). Returns the session's recorded
/// sequence, and the values observed after the last step. The last returned value says whether, according to an audit,
/// the target has stored or rejected each leaf of the source.
fn ended(alloc: Global, world: &mut World<Rules>) -> Option<(u64, Seen, bool)> {
    let all = match steps(alloc) {
        Some(all) => Some(all),
        None => steps(alloc),
    };
    let Some(all) = all else {
        return None;
    };
    let Some(()) = take(alloc, world, &all) else {
        return None;
    };
    let clean = is_clean(alloc, world);
    let Ok(entry) = world.target().entry(SESSION) else {
        return None;
    };
    Some((entry.recorded, look(world), clean))
}

/// Calls `ended` with two new peers and no messages in transit. During the call of `ended`, only the variable `world`
/// is alive, because each further variable lengthens the proof.
fn of_two(alloc: Global) -> Option<(u64, Seen, bool)> {
    let source = Peer::new(alloc, 1, Rules { deny: None });
    let target = Peer::new(alloc, 2, Rules { deny: None });
    let Ok(mut world) = World::new(alloc, source, target, None) else {
        return None;
    };
    ended(alloc, &mut world)
}

pub(crate) fn run(rt: &impl Print, alloc: Global) -> Result<()> {
    let Some((recorded, seen, clean)) = of_two(alloc) else {
        bail!("worlds: another answer");
    };
    let (windows, asked, parcels, entries, logs) = seen.sizes;
    println!(rt;
        "worlds as wanted: recorded {recorded}, sequence {}, bag {windows} {asked} {parcels} {entries} {logs}, life {}, clean {clean}",
        seen.target, seen.life
    )?;
    Ok(())
}
