//! Performs steps on two peers and the messages between them (a `World`), and reads the state after the steps.
use crate::tests::databases::tree;
use crate::tests::peers::{agreed, entry, source_log, target_log};
use crate::tests::texts::{body, doc, expect_answer};
use doc_json::DocId;
use repl_log::{Moment, RepId};
use repl_target::{Audit, Peer, Rules, audit};
use repl_world::{Step, World, WorldFault};
use rev_tree::SessionId;
use std::alloc::{AllocError, Global};
use std::process::Abort;
use test_support::rev;

/// The replication from the source of a test, with UUID 1, into the target, with UUID 2.
const REP: RepId = RepId {
    source: 1,
    target: 2,
    chosen: None,
};

/// A step of a test that is written with strings for ids, revisions and documents, and is converted to a `Step`. All
/// timestamps are 0.
#[derive(Clone, Copy)]
pub(crate) enum Act<'a> {
    /// Edit a document at the source, given the document's id, the parent revision and the body.
    EditSource(&'a str, &'a str, &'a str),
    /// Edit a document at the target, given the document's id, the parent revision and the body.
    EditTarget(&'a str, &'a str, &'a str),
    LoadSource(&'a str),
    ThirdParty(&'a str),
    ReadLog,
    /// Begin a session from a log. The parameters are the log's index among the messages in transit, and the session's
    /// goal.
    Begin(SessionId, usize, u64),
    Page(u64, u64, u64),
    Append(SessionId, usize),
    Diff(usize),
    Fetch(usize),
    Settle(SessionId, usize),
    Record(SessionId),
    Conclude(SessionId),
    PutEntry(usize),
    Backup,
    Restore(usize),
    Crash,
}

/// A question about the source, the target or the messages in transit, which a test asks after its steps. Side 1 is the
/// source, and side 2 is the target.
#[derive(Clone, Copy)]
pub(crate) enum Question<'a> {
    /// The common checkpoint of the two logs.
    Common,
    /// The target's log entry of a session.
    Entry(SessionId),
    /// The log that a side (source or target) has of the replication.
    Log(u128),
    /// The revision tree of a document at the source (side 1) or at the target (side 2).
    Tree(u128, &'a str),
    /// The numbers of windows, requests, parcels, entries and logs in the message bag (the messages in transit).
    Sizes,
    /// The life of the source's database, a number that rises when the source is restored.
    Life,
    /// The result of an audit.
    Audit,
}

/// Steps in order.
pub(crate) type Acts = &'static [Act<'static>];

/// Questions that a test asks after its steps, each with the expected result.
pub(crate) type Told = &'static [(Question<'static>, &'static str)];

/// Creates the timestamp 0.
fn at_0() -> Option<Moment> {
    Moment::new(0).ok()
}

/// Converts an `Act`, a step that is written with strings, to a `Step`.
fn step(alloc: Global, act: Act) -> Option<Step> {
    match act {
        Act::EditSource(id, parent, text) => edit_source(alloc, id, parent, text),
        Act::EditTarget(id, parent, text) => edit_target(alloc, id, parent, text),
        Act::LoadSource(text) => doc(alloc, text).map(Step::LoadSource),
        Act::ThirdParty(text) => doc(alloc, text).map(Step::ThirdParty),
        other => plain_step(other),
    }
}

/// Creates a `Step` that edits a document at the source.
fn edit_source(alloc: Global, id: &str, parent: &str, text: &str) -> Option<Step> {
    let Some(body) = body(alloc, text) else {
        return None;
    };
    let Ok(id) = DocId::parse(alloc, id) else {
        return None;
    };
    Some(Step::EditSource {
        id,
        parent: rev(parent),
        deleted: false,
        body,
    })
}

/// Creates a `Step` that edits a document at the target.
fn edit_target(alloc: Global, id: &str, parent: &str, text: &str) -> Option<Step> {
    let Some(body) = body(alloc, text) else {
        return None;
    };
    let Ok(id) = DocId::parse(alloc, id) else {
        return None;
    };
    Some(Step::EditTarget {
        id,
        parent: rev(parent),
        deleted: false,
        body,
    })
}

/// Converts an `Act` that has no document, document id or revision to a `Step`.
fn plain_step(act: Act) -> Option<Step> {
    let Some(at) = at_0() else {
        return None;
    };
    match act {
        Act::ReadLog => Some(Step::ReadLog),
        Act::Begin(session, log, goal) => Some(Step::Begin {
            session,
            log,
            goal,
            at,
        }),
        Act::Page(since, goal, limit) => Some(Step::Page { since, goal, limit }),
        Act::Append(session, window) => Some(Step::Append { session, window }),
        Act::Diff(window) => Some(Step::Diff { window }),
        Act::Fetch(asked) => Some(Step::Fetch { asked }),
        Act::Settle(session, parcel) => Some(Step::Settle { session, parcel }),
        Act::Record(session) => Some(Step::Record { session, at }),
        Act::Conclude(session) => Some(Step::Conclude { session, at }),
        Act::PutEntry(entry) => Some(Step::PutEntry { entry }),
        Act::Backup => Some(Step::Backup),
        Act::Restore(backup) => Some(Step::Restore { backup }),
        _ => Some(Step::Crash),
    }
}

/// Converts each `Act` of a list to a `Step`.
fn steps(alloc: Global, acts: &[Act]) -> Option<Vec<Step>> {
    let mut all = Vec::new(alloc);
    for act in acts {
        let Some(()) = push_step(&mut all, step(alloc, *act)) else {
            return None;
        };
    }
    Some(all)
}

/// Appends an optional step.
fn push_step(all: &mut Vec<Step>, step: Option<Step>) -> Option<()> {
    match step {
        Some(step) => all.push(step).ok(),
        None => None,
    }
}

/// Converts each `Act` of a list to a `Step`, and performs the steps in `world`.
fn take(alloc: Global, world: &mut World<Rules>, acts: &[Act]) -> Option<()> {
    let Some(steps) = steps(alloc, acts) else {
        return None;
    };
    world.run(alloc, &steps).ok()
}

/// Returns the log that a side (source or target) has of the replication.
fn side_log(alloc: Global, world: &World<Rules>, side: u128) -> Option<String> {
    if side == 1 {
        source_log(alloc, world.source(), &REP)
    } else {
        target_log(alloc, world.target(), &REP)
    }
}

/// Returns the result of an audit as a string, or `None` if an allocation failed.
fn audit_text(alloc: Global, world: &World<Rules>) -> Option<String> {
    match audit(alloc, world.source(), world.target(), None) {
        Ok(Audit::Clean) => "clean".to_string(alloc).ok(),
        Ok(Audit::Hole { seq, .. }) => format!(in alloc; "hole {seq}").ok(),
        Err(AllocError) => None,
    }
}

/// Returns the source of `world` if `number` is 1, and otherwise the target.
fn side(world: &World<Rules>, number: u128) -> &Peer<Rules> {
    if number == 1 {
        world.source()
    } else {
        world.target()
    }
}

/// Returns the numbers of windows, requests, parcels, entries and logs in the message bag (the messages in transit).
fn sizes_text(alloc: Global, sizes: (usize, usize, usize, usize, usize)) -> Option<String> {
    let (windows, asked, parcels, entries, logs) = sizes;
    format!(in alloc; "{windows} {asked} {parcels} {entries} {logs}").ok()
}

/// Returns the life of the source's database, a number that rises when the source is restored.
fn life_text(alloc: Global, world: &World<Rules>) -> Option<String> {
    let life = world.source().db().life();
    format!(in alloc; "{life}").ok()
}

/// Returns the value that a `Question` asks for, as a string.
fn answer(alloc: Global, world: &World<Rules>, question: Question) -> Option<String> {
    match question {
        Question::Common => agreed(alloc, world.source(), world.target(), &REP),
        Question::Entry(session) => entry(alloc, world.target(), session),
        Question::Log(number) => side_log(alloc, world, number),
        Question::Tree(number, id) => tree(alloc, side(world, number).db(), id),
        Question::Sizes => sizes_text(alloc, world.bag_sizes()),
        Question::Life => life_text(alloc, world),
        Question::Audit => audit_text(alloc, world),
    }
}

/// Performs steps in `world`, and then asserts that each question in `told` has its expected result.
fn tell(rt: &impl Abort, alloc: Global, world: &mut World<Rules>, lists: &[Acts], told: Told) {
    for acts in lists {
        if take(alloc, world, acts).is_none() {
            rt.panic(format_args!("the steps can't be taken"));
        }
    }
    for (i, (question, wanted)) in told.iter().enumerate() {
        expect_answer(rt, i, answer(alloc, world, *question), wanted);
    }
}

/// Creates a peer that refuses nothing.
fn peer(alloc: Global, uuid: u128) -> Peer<Rules> {
    Peer::new(alloc, uuid, Rules { deny: None })
}

/// Creates a `World` of two empty peers, without messages in transit.
fn world(rt: &impl Abort, alloc: Global) -> World<Rules> {
    let (source, target) = (peer(alloc, 1), peer(alloc, 2));
    World::new(alloc, source, target, None).expect(rt, "two peers")
}

/// Performs lists of steps on two empty peers, and then asserts that each question in `told` has its expected result.
pub(crate) fn expect(rt: &impl Abort, alloc: Global, lists: &[Acts], told: Told) {
    let mut world = world(rt, alloc);
    tell(rt, alloc, &mut world, lists, told);
}

/// Loads a given number of documents at the source: d0, d1 and so on, each at 1-a.
fn load_many(alloc: Global, world: &mut World<Rules>, count: u64) -> Option<()> {
    for number in 0..count {
        let Ok(text) = format!(in alloc; r#"{{"_id":"d{number}","_rev":"1-a"}}"#) else {
            return None;
        };
        let Some(()) = take(alloc, world, &[Act::LoadSource(text.as_str())]) else {
            return None;
        };
    }
    Some(())
}

/// Performs lists of steps on an empty target and a source with `count` documents. Asserts that each question of `told`
/// has the expected result after the steps.
pub(crate) fn expect_of_many(
    rt: &impl Abort,
    alloc: Global,
    count: u64,
    lists: &[Acts],
    told: Told,
) {
    let mut world = world(rt, alloc);
    load_many(alloc, &mut world, count).expect(rt, "the documents");
    tell(rt, alloc, &mut world, lists, told);
}

/// Asserts that `World::new` fails with `SamePeer` if the source and the target have the same UUID.
pub(crate) fn refuse_one(rt: &impl Abort, alloc: Global) {
    let (source, target) = (peer(alloc, 1), peer(alloc, 1));
    let fault = World::new(alloc, source, target, None).err();
    assert_eq!(rt; fault, Some(WorldFault::SamePeer));
}
