//! Tests that edit pairs of peers at random, and replicate each pair in both directions, by one thread and by the pool.
//! After a replication in both directions, both peers must have the same documents. If the peers are not edited after a
//! replication, a second replication in both directions must copy no document.
use crate::tests::checks::holds;
use crate::tests::feeds::id;
use crate::tests::merges::below;
use crate::tests::plain_sides::IDS;
use doc_json::{Body, DocId, read_body};
use rand_chacha::ChaCha8Rng;
use rand_core::SeedableRng;
use repl_log::Moment;
use repl_pool::{Open, SyncRan, sync};
use repl_target::{Peer, Plan, Rules, Synced, sync_alone};
use rev_core::Rev;
use rev_tree::{SessionId, Tree};
use serde_json::Value;
use std::alloc::Global;
use std::process::Abort;
use std::sync::Wait;
use std::thread::Threads;

/// The number of rounds of a test. In each round, both peers are edited and then replicated.
const MEETINGS: usize = 3;

/// Returns one of three bodies at random, so that two peers sometimes make the same edit.
pub(crate) fn body(rt: &impl Abort, alloc: Global, rng: &mut ChaCha8Rng) -> Body {
    let text = format!(in alloc; "{{\"n\":{}}}", below(rng, 3)).expect(rt, "memory");
    let value = Value::from_slice(alloc, text.as_bytes()).expect(rt, "a value");
    read_body(alloc, &value).expect(rt, "a body")
}

/// Returns a random leaf of a tree, or `None` if there is no tree.
pub(crate) fn leaf(
    rt: &impl Abort,
    alloc: Global,
    rng: &mut ChaCha8Rng,
    tree: Option<&Tree>,
) -> Option<Rev> {
    let leaves = tree?.leaves(alloc).expect(rt, "memory");
    let leaves = leaves.as_slice();
    let place = below(rng, 60) % leaves.len().max(1);
    leaves.get(place).copied()
}

/// Creates a document, or changes or deletes a leaf of the document.
fn edit_one(
    rt: &impl Abort,
    alloc: Global,
    rng: &mut ChaCha8Rng,
    peer: &mut Peer<Rules>,
    number: usize,
) {
    let id = id(rt, alloc, number);
    let parent = leaf(rt, alloc, rng, peer.db().tree(&id));
    let deleted = parent.is_some() && below(rng, 5) == 0;
    let body = body(rt, alloc, rng);
    let _revised = peer.edit(&id, parent, deleted, &body);
}

/// Makes a given number of random edits of a peer's documents.
fn edit(
    rt: &impl Abort,
    alloc: Global,
    rng: &mut ChaCha8Rng,
    peer: &mut Peer<Rules>,
    edits: usize,
) {
    for _ in 0..edits {
        let number = below(rng, IDS as u32);
        edit_one(rt, alloc, rng, peer, number);
    }
}

/// Makes a given number of random edits of a peer's documents other than d0.
fn edit_others(
    rt: &impl Abort,
    alloc: Global,
    rng: &mut ChaCha8Rng,
    peer: &mut Peer<Rules>,
    edits: usize,
) {
    for _ in 0..edits {
        let number = below(rng, IDS as u32 - 1) % (IDS - 1);
        edit_one(rt, alloc, rng, peer, 1 + number);
    }
}

/// Whether two trees agree about the number of revisions, the leaves and their order, and the ancestry and content of
/// each leaf.
fn are_same(rt: &impl Abort, alloc: Global, one: &Tree, other: &Tree) -> bool {
    let leaves = one.leaves(alloc).expect(rt, "memory");
    let mut same = one.rev_count() == other.rev_count()
        && leaves.as_slice() == other.leaves(alloc).expect(rt, "memory").as_slice();
    for leaf in leaves.as_slice() {
        same = same && is_same_leaf(rt, alloc, one, other, *leaf);
    }
    same
}

/// Whether a leaf has the same ancestry and content in both trees.
fn is_same_leaf(rt: &impl Abort, alloc: Global, one: &Tree, other: &Tree, leaf: Rev) -> bool {
    let (ours, theirs) = match (one.ancestry(alloc, leaf), other.ancestry(alloc, leaf)) {
        (Ok(ours), Ok(theirs)) => (ours, theirs),
        _ => return false,
    };
    match (one.content(leaf), other.content(leaf)) {
        (Some(ours_is), Some(theirs_is)) => {
            ours.revs() == theirs.revs()
                && ours_is.deleted() == theirs_is.deleted()
                && ours_is.body() == theirs_is.body()
        }
        _ => false,
    }
}

/// Whether two peers have the same tree of a document.
fn is_same(rt: &impl Abort, alloc: Global, a: &Peer<Rules>, b: &Peer<Rules>, id: &DocId) -> bool {
    match (a.db().tree(id), b.db().tree(id)) {
        (Some(one), Some(other)) => are_same(rt, alloc, one, other),
        (None, None) => true,
        _ => false,
    }
}

/// Asserts that two peers have the same documents.
pub(crate) fn assert_same(rt: &impl Abort, alloc: Global, a: &Peer<Rules>, b: &Peer<Rules>) {
    for number in 0..IDS {
        let same = is_same(rt, alloc, a, b, &id(rt, alloc, number));
        holds(rt, same, "a document is the same on both sides");
    }
}

/// Asserts that two peers have the same documents, except that only the first peer has d0.
fn assert_same_but_d0(rt: &impl Abort, alloc: Global, a: &Peer<Rules>, b: &Peer<Rules>) {
    for number in 1..IDS {
        let same = is_same(rt, alloc, a, b, &id(rt, alloc, number));
        holds(rt, same, "a document that nobody refused is the same");
    }
    let d0 = id(rt, alloc, 0);
    holds(rt, a.db().tree(&d0).is_some(), "one side has the other one");
    holds(rt, b.db().tree(&d0).is_none(), "the other side hasn't");
}

/// Creates the plan of the next session, whose windows scan a random number (1 to 4) of rows.
pub(crate) fn plan(
    rt: &impl Abort,
    rng: &mut ChaCha8Rng,
    workers: u64,
    sessions: &mut u128,
) -> Plan {
    *sessions = sessions.saturating_add(1);
    Plan {
        session: SessionId(*sessions),
        workers,
        batch: below(rng, 4) as u64 + 1,
        stop_after: None,
        at: Moment::new(10).expect(rt, "a moment"),
        chosen: None,
    }
}

/// Replicates two peers in both directions. If the plan has no workers, one thread replicates. Otherwise, the pool
/// replicates.
fn meet<R: Abort + Threads + Wait + Sync>(
    rt: &R,
    alloc: Global,
    a: Peer<Rules>,
    b: Peer<Rules>,
    there: &Plan,
    back: &Plan,
) -> (Peer<Rules>, Peer<Rules>, Synced) {
    if there.workers == 0 {
        let (mut a, mut b) = (a, b);
        let synced = sync_alone(alloc, &mut a, &mut b, there, back).expect(rt, "nothing refused");
        return (a, b, synced);
    }
    let SyncRan { a, b, outcome } = sync(rt, alloc, a, b, there, back, &Open);
    (a, b, outcome.expect(rt, "nothing refused"))
}

/// Repeatedly edits two peers' documents at random, and replicates twice in both directions.
fn of_seed<R: Abort + Threads + Wait + Sync>(rt: &R, alloc: Global, seed: u64, workers: u64) {
    let mut rng = ChaCha8Rng::seed_from_u64(seed);
    let mut sessions = 0;
    let mut a = Peer::new(alloc, 1, Rules { deny: None });
    let mut b = Peer::new(alloc, 2, Rules { deny: None });
    for _ in 0..MEETINGS {
        edit(rt, alloc, &mut rng, &mut a, 12);
        edit(rt, alloc, &mut rng, &mut b, 8);
        for again in 0..2u64 {
            let there = plan(rt, &mut rng, workers, &mut sessions);
            let back = plan(rt, &mut rng, workers, &mut sessions);
            let (one, other, synced) = meet(rt, alloc, a, b, &there, &back);
            assert_same(rt, alloc, &one, &other);
            let carried = synced
                .there
                .counts
                .read
                .saturating_add(synced.back.counts.read);
            holds(rt, again == 0 || carried == 0, "nothing is left to carry");
            (a, b) = (one, other);
        }
    }
}

/// Edits the document d0 of a peer, or creates d0.
fn edit_d0(rt: &impl Abort, alloc: Global, rng: &mut ChaCha8Rng, peer: &mut Peer<Rules>) {
    let id = id(rt, alloc, 0);
    let parent = leaf(rt, alloc, rng, peer.db().tree(&id));
    let body = body(rt, alloc, rng);
    let _revised = peer.edit(&id, parent, false, &body);
}

/// Creates a peer that refuses the document `d0`.
fn refusing(rt: &impl Abort, alloc: Global) -> Peer<Rules> {
    let deny = "d0".to_string(alloc).expect(rt, "memory");
    Peer::new(alloc, 2, Rules { deny: Some(deny) })
}

/// Tests two peers, of which the second refuses d0. After each round, both peers must have the same documents except
/// d0.
fn beside_refusals<R: Abort + Threads + Wait + Sync>(
    rt: &R,
    alloc: Global,
    seed: u64,
    workers: u64,
) {
    let mut rng = ChaCha8Rng::seed_from_u64(seed);
    let mut sessions = 0;
    let mut a = Peer::new(alloc, 1, Rules { deny: None });
    let mut b = refusing(rt, alloc);
    for _ in 0..MEETINGS {
        edit_d0(rt, alloc, &mut rng, &mut a);
        edit(rt, alloc, &mut rng, &mut a, 12);
        edit_others(rt, alloc, &mut rng, &mut b, 8);
        let there = plan(rt, &mut rng, workers, &mut sessions);
        let back = plan(rt, &mut rng, workers, &mut sessions);
        let (one, other, synced) = meet(rt, alloc, a, b, &there, &back);
        assert_same_but_d0(rt, alloc, &one, &other);
        holds(rt, 0 < synced.there.counts.failures, "d0 is refused");
        (a, b) = (one, other);
    }
}

#[test]
fn ten_pairs_meet_beside_refusals(rt: HostRuntime) {
    for seed in 0..10u64 {
        beside_refusals(&rt, rt.alloc(), seed, seed % 4);
    }
}

#[test]
fn thirty_pairs_meet(rt: HostRuntime) {
    for seed in 0..30u64 {
        of_seed(&rt, rt.alloc(), seed, 0);
    }
}

#[test]
fn thirty_pairs_meet_by_the_pool(rt: HostRuntime) {
    for seed in 0..30u64 {
        of_seed(&rt, rt.alloc(), seed, 1 + seed % 4);
    }
}
