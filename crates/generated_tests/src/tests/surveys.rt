//! Compares the results of `repl_inspect` with the reference model, and copies all leaves of a database into an empty
//! database.
use crate::tests::checks::holds;
use crate::tests::exchanges::Side;
use crate::tests::feeds::id;
use crate::tests::merges::{are, rev};
use crate::tests::plain_sides::{IDS, PlainSide};
use crate::tests::reference::{Answer, Reference};
use couch_base::Database;
use doc_json::DocId;
use rand_chacha::ChaCha8Rng;
use rand_core::SeedableRng;
use repl_inspect::{Census, Comparison, Total, census_of, compare, conflicting, documents_of};
use rev_tree::Origin;
use std::alloc::Global;
use std::process::Abort;

/// Finds the first leaf whose ancestry contradicts the target's tree, and returns the index of the ancestry's newest
/// contradicting revision.
fn contradicts(
    rt: &impl Abort,
    alloc: Global,
    tree: &Reference,
    held: &Reference,
    leaves: &[usize],
) -> Option<usize> {
    for leaf in leaves {
        let walk = tree.ancestry(alloc, *leaf).expect(rt, "memory");
        if let Some(Answer::Contradiction { child, .. }) = held.contradiction(&walk) {
            return Some(child);
        }
    }
    None
}

/// Returns the indices of the leaves that have a different content in the target's tree.
fn differ(
    rt: &impl Abort,
    alloc: Global,
    tree: &Reference,
    held: &Reference,
    leaves: &[usize],
) -> Vec<usize> {
    let mut found = Vec::new(alloc);
    for leaf in leaves {
        let theirs = held.content(*leaf);
        if theirs.is_some() && theirs != tree.content(*leaf) {
            found.push(*leaf).expect(rt, "memory");
        }
    }
    found
}

/// Whether a comparison names the expected contradicting child. The expected child is the revision at index `place`, or
/// no revision if `place` is `None`.
fn names(rt: &impl Abort, comparison: &Comparison, place: Option<usize>) -> bool {
    match (comparison.contradiction(), place) {
        (Some(found), Some(place)) => found.child == rev(rt, place),
        (None, None) => true,
        _ => false,
    }
}

/// Asserts that a document's comparison has the expected missing, differing and contradicting revisions. The arguments
/// `tree` and `held` are the document's expected trees at the source and at the target.
fn says(
    rt: &impl Abort,
    alloc: Global,
    comparison: &Comparison,
    tree: &Reference,
    held: &Reference,
) {
    let leaves = tree.leaves(alloc).expect(rt, "memory");
    let missing = held.missing(rt, alloc, &leaves);
    let differing = differ(rt, alloc, tree, held, &leaves);
    let place = contradicts(rt, alloc, tree, held, &missing);
    holds(rt, comparison.leaves() == leaves.len(), "the leaves");
    holds(
        rt,
        are(rt, comparison.missing(), &missing),
        "what is missing",
    );
    holds(
        rt,
        are(rt, comparison.differing(), &differing),
        "what differs",
    );
    holds(rt, names(rt, comparison, place), "what contradicts");
}

/// Compares each document of a source and a target, and returns the total of the differences.
fn compares(rt: &impl Abort, alloc: Global, source: &Side, target: &Side) -> Total {
    let mut total = Total::none();
    for number in 0..IDS {
        let id = id(rt, alloc, number);
        let comparison = compare(alloc, &source.db, &target.db, &id).expect(rt, "memory");
        let (tree, held) = (source.plain.tree(number), target.plain.tree(number));
        says(rt, alloc, &comparison, &tree, &held);
        total.add(&comparison);
    }
    total
}

/// Returns the indices of the live leaves.
fn live(rt: &impl Abort, alloc: Global, tree: &Reference) -> Vec<usize> {
    let mut live = Vec::new(alloc);
    for leaf in &tree.leaves(alloc).expect(rt, "memory") {
        if tree.content(*leaf).map(|content| content.0) == Some(false) {
            live.push(*leaf).expect(rt, "memory");
        }
    }
    live
}

/// Asserts that `conflicting` returns all live leaves, or no leaf if the document has fewer than two live leaves.
fn conflicts(rt: &impl Abort, alloc: Global, database: &Database, id: &DocId, live: &[usize]) {
    if let Some(tree) = database.tree(id) {
        let found = conflicting(alloc, tree).expect(rt, "memory");
        let wanted = if live.len() < 2 { &[] } else { live };
        holds(rt, are(rt, &found, wanted), "what is in conflict");
    }
}

/// Adds the counts of a document to the expected counts of a database.
fn counts(census: &mut Census, tree: &Reference, leaves: usize, live: usize) {
    census.documents = census.documents.saturating_add(1);
    census.deleted = census.deleted.saturating_add(u64::from(live == 0));
    census.conflicts = census.conflicts.saturating_add(u64::from(live > 1));
    census.leaves = census.leaves.saturating_add(leaves as u64);
    census.revisions = census.revisions.saturating_add(tree.count() as u64);
}

/// Asserts that the conflicts that `conflicting` finds in a database, and the counts that `census_of` returns, agree
/// with the reference model. Returns the number of documents in conflict.
fn in_conflict(rt: &impl Abort, alloc: Global, side: &Side) -> u64 {
    let mut wanted = Census::none();
    for number in 0..IDS {
        let tree = side.plain.tree(number);
        let leaves = tree.leaves(alloc).expect(rt, "memory");
        let live = live(rt, alloc, &tree);
        conflicts(rt, alloc, &side.db, &id(rt, alloc, number), &live);
        if !leaves.is_empty() {
            counts(&mut wanted, &tree, leaves.len(), live.len());
        }
    }
    let census = census_of(alloc, &side.db).expect(rt, "memory");
    holds(rt, census == wanted, "how much there is");
    wanted.conflicts
}

/// Puts all leaves of a document, with the ancestries and contents of the leaves, into a database.
fn give(rt: &impl Abort, alloc: Global, source: &Database, id: &DocId, target: &mut Database) {
    for doc in &documents_of(alloc, source, id).expect(rt, "memory") {
        holds(rt, target.put(doc, Origin::Local(0)).is_ok(), "a put");
    }
}

/// Asserts that each document has the same leaves in a database and in the reference model.
fn has_leaves(rt: &impl Abort, alloc: Global, database: &Database, plain: &PlainSide) {
    for number in 0..IDS {
        let wanted = plain.tree(number).leaves(alloc).expect(rt, "memory");
        match database.tree(&id(rt, alloc, number)) {
            Some(tree) => {
                let leaves = tree.leaves(alloc).expect(rt, "memory");
                holds(
                    rt,
                    are(rt, leaves.as_slice(), &wanted),
                    "leaves that are back",
                );
            }
            None => holds(rt, wanted.is_empty(), "a document that is back"),
        }
    }
}

/// Copies all leaves of a database into the empty database `again`, and asserts that `again` then has the leaves of the
/// reference model.
fn comes_back(rt: &impl Abort, alloc: Global, side: &Side, again: &mut Database) {
    for number in 0..IDS {
        give(rt, alloc, &side.db, &id(rt, alloc, number), again);
    }
    has_leaves(rt, alloc, again, &side.plain);
}

/// Asserts that all calls of `repl_inspect` agree with the reference model. Returns the numbers of contradicting
/// documents, of differing leaves, and of documents in conflict.
fn survey(rt: &impl Abort, alloc: Global, source: &Side, target: &Side) -> [u64; 3] {
    let total = compares(rt, alloc, source, target);
    let conflicts = in_conflict(rt, alloc, source);
    let mut again = Database::new(alloc, 3);
    comes_back(rt, alloc, source, &mut again);
    [total.contradicting, total.differing, conflicts]
}

/// Tests the calls of `repl_inspect` with a source and a target. This code is a separate function, because each live
/// variable makes the proof of the caller larger.
fn with_target(rt: &impl Abort, alloc: Global, seed: u64, source: &mut Side) -> [u64; 3] {
    let mut rng = ChaCha8Rng::seed_from_u64(seed);
    let mut target = Side::new(alloc, 2);
    source.grow(rt, alloc, &mut rng, 20);
    target.grow(rt, alloc, &mut rng, 20);
    survey(rt, alloc, source, &target)
}

#[test]
fn two_hundred_pairs_agree(rt: HostRuntime) {
    let mut found = [0u64; 3];
    for seed in 0..200u64 {
        let mut source = Side::new(rt.alloc(), 1);
        let more = with_target(&rt, rt.alloc(), seed, &mut source);
        for at in 0..3usize {
            found[at] = found[at].saturating_add(more[at]);
        }
    }
    // In the 200 pairs of databases together, there must be more than 100 contradicting documents, more than 50
    // differing leaves, and more than 100 documents in conflict.
    assert!(rt;
        found[0] > 100 && found[1] > 50 && found[2] > 100,
        "{found:?}"
    );
}
