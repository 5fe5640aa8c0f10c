//! Compares two representations of a revision tree, `Tree` and `PlainTree`, after random merges. After the same merges,
//! each call on a `Tree` must return the same result as the call on a `PlainTree`.

use crate::tests::checks::holds;
use crate::tests::merges::{ancestry, below, content, places, rev};
use crate::tests::plain::{PlainAnswer, PlainTree};
use crate::tests::reference::PLACES;
use rand_chacha::ChaCha8Rng;
use rand_core::SeedableRng;
use rev_core::{Ancestry, Rev};
use rev_tree::{Merged, Origin, Revs, SessionId, Tree, TreeFault};
use std::alloc::{AllocError, Global};
use std::process::Abort;

/// Converts the result of a merge to `PlainAnswer`, the result type of `PlainTree::merge`.
fn plain_answer(rt: &impl Abort, answer: Result<Merged, TreeFault>) -> PlainAnswer {
    let fault = match answer {
        Ok(merged) => return Ok(merged),
        Err(fault) => fault,
    };
    match fault {
        TreeFault::Contradiction {
            child,
            known,
            given,
        } => Err((child, known, given)),
        _ => rt.panic(format_args!("neither an answer nor a contradiction")),
    }
}

/// Asserts that a revision has the same content in a `Tree` and in a `PlainTree`.
fn agree_on_content(rt: &impl Abort, tree: &Tree, plain: &PlainTree, one: Rev) {
    match (tree.content(one), plain.content(one)) {
        (Some(content), Some((deleted, byte))) => {
            holds(
                rt,
                content.deleted() == deleted && content.body() == [byte].as_slice(),
                "a content",
            );
        }
        (None, None) => {}
        _ => rt.panic(format_args!("a content in one form alone")),
    }
}

/// Asserts that a call returned the expected list of revisions.
fn are_same(rt: &impl Abort, answer: Result<Revs, AllocError>, wanted: &[Rev]) {
    let revs = answer.expect(rt, "revisions");
    holds(rt, revs.as_slice() == wanted, "revisions");
}

/// Asserts that a revision has the same ancestry in a `Tree` and in a `PlainTree`.
fn agree_on_walk(rt: &impl Abort, alloc: Global, tree: &Tree, plain: &PlainTree, one: Rev) {
    match tree.ancestry(alloc, one) {
        Ok(walk) => is_walk(rt, alloc, plain, one, walk.revs()),
        Err(_) => holds(rt, plain.origin(one).is_none(), "no revision"),
    }
}

/// Asserts that a list of revisions is the ancestry of a revision in a `PlainTree`.
fn is_walk(rt: &impl Abort, alloc: Global, plain: &PlainTree, one: Rev, walk: &[Rev]) {
    let wanted = plain.ancestry(alloc, one).expect(rt, "memory");
    holds(
        rt,
        plain.origin(one).is_some() && walk == wanted.as_slice(),
        "an ancestry",
    );
}

/// Whether a `Tree` and a `PlainTree` agree about the existence and the origin of a revision, and about whether the
/// revision is a leaf.
fn has_as(tree: &Tree, plain: &PlainTree, one: Rev) -> bool {
    let origin = plain.origin(one);
    let stands = tree.has(one) == origin.is_some();
    stands && tree.origin(one) == origin && tree.is_leaf(one) == plain.is_leaf(one)
}

/// Asserts that a `Tree` and a `PlainTree` agree about a revision, for example about its parent and its content.
fn agree_on_rev(rt: &impl Abort, alloc: Global, tree: &Tree, plain: &PlainTree, one: Rev) {
    holds(rt, has_as(tree, plain, one), "a revision");
    holds(rt, tree.parent_of(one) == plain.parent_of(one), "a parent");
    agree_on_content(rt, tree, plain, one);
    agree_on_walk(rt, alloc, tree, plain, one);
}

/// Asserts that a tree has exactly the given leaves.
fn agree_on_leaves(rt: &impl Abort, alloc: Global, tree: &Tree, leaves: &[Rev]) {
    are_same(rt, tree.leaves(alloc), leaves);
    holds(rt, tree.leaf_count() == leaves.len(), "the leaves");
    holds(rt, tree.winner() == leaves.first().copied(), "the winner");
}

/// Asserts that a `Tree` and a `PlainTree` agree about which leaves have one of the given revisions in their
/// ancestries.
fn agree_on_above(
    rt: &impl Abort,
    alloc: Global,
    tree: &Tree,
    plain: &PlainTree,
    leaves: &[Rev],
    asked: &[Rev],
) {
    let above = plain.above(alloc, leaves, asked).expect(rt, "memory");
    are_same(rt, tree.leaves_above(alloc, asked), &above);
}

/// Asserts that a `Tree` and a `PlainTree` agree about which of the given revisions are missing.
fn agree_on_missing(rt: &impl Abort, alloc: Global, tree: &Tree, plain: &PlainTree, asked: &[Rev]) {
    let missing = plain.missing(alloc, asked).expect(rt, "memory");
    are_same(rt, tree.missing(alloc, asked), &missing);
}

/// Asserts that a `Tree` and a `PlainTree` agree about the leaves, the number of revisions, and each of the given
/// revisions.
fn agree(rt: &impl Abort, alloc: Global, tree: &Tree, plain: &PlainTree, asked: &[Rev]) {
    let leaves = plain.leaves(alloc).expect(rt, "memory");
    agree_on_leaves(rt, alloc, tree, &leaves);
    holds(rt, tree.rev_count() == plain.rev_count(), "the revisions");
    agree_on_above(rt, alloc, tree, plain, &leaves, asked);
    agree_on_missing(rt, alloc, tree, plain, asked);
    for one in asked {
        agree_on_rev(rt, alloc, tree, plain, *one);
    }
}

/// Returns a random origin for a merge: the local write with number `round`, or the row of session 7 with sequence
/// `round`.
fn origin_of(rng: &mut ChaCha8Rng, round: u64) -> Origin {
    if below(rng, 2) == 0 {
        Origin::Local(round)
    } else {
        Origin::Feed(SessionId(7), round)
    }
}

/// Returns a random ancestry.
fn ancestry_by_chance(rt: &impl Abort, alloc: Global, rng: &mut ChaCha8Rng) -> Ancestry {
    let places = places(rng, alloc).expect(rt, "memory");
    ancestry(rt, alloc, &places)
}

/// Merges a random ancestry into a `Tree` and a `PlainTree`. Asserts that both merges return the same result, and that
/// the `Tree` and the `PlainTree` then agree about the merged revisions.
fn merge(
    rt: &impl Abort,
    alloc: Global,
    rng: &mut ChaCha8Rng,
    tree: &mut Tree,
    plain: &mut PlainTree,
    round: u64,
) {
    let given = ancestry_by_chance(rt, alloc, rng);
    let (deleted, byte) = (below(rng, 3) == 0, (round % 251) as u8);
    let origin = origin_of(rng, round);
    let answer = tree.merge(&given, content(rt, alloc, deleted, byte), origin);
    let wanted = plain.merge(alloc, &given, (deleted, byte), origin);
    holds(
        rt,
        wanted.ok() == Some(plain_answer(rt, answer)),
        "an answer",
    );
    agree(rt, alloc, tree, plain, given.revs());
}

/// Merges a random ancestry into a `Tree` and a `PlainTree`. Asserts that the `Tree` and the `PlainTree` return equal
/// results for the revisions of another random ancestry.
fn merge_and_read(
    rt: &impl Abort,
    alloc: Global,
    rng: &mut ChaCha8Rng,
    tree: &mut Tree,
    plain: &mut PlainTree,
    round: u64,
) {
    merge(rt, alloc, rng, tree, plain, round);
    if below(rng, 2) == 0 {
        *tree = tree.copy(alloc).expect(rt, "memory");
    }
    let asked = ancestry_by_chance(rt, alloc, rng);
    agree(rt, alloc, tree, plain, asked.revs());
}

/// Performs fifty random merges, which the argument `seed` determines, in a `Tree` and a `PlainTree`. After each merge,
/// the function compares the merged revisions and random other revisions of the `Tree` and the `PlainTree`. After about
/// half of the merges, chosen at random, the function replaces the `Tree` by a copy. After the last merge, the function
/// compares every possible revision of the `Tree` and the `PlainTree`.
fn merges_alike(rt: &impl Abort, alloc: Global, seed: u64, tree: &mut Tree) {
    let mut rng = ChaCha8Rng::seed_from_u64(seed);
    let mut plain = PlainTree::new(alloc);
    for round in 0..50u64 {
        merge_and_read(rt, alloc, &mut rng, tree, &mut plain, round);
    }
    for place in 0..PLACES {
        agree_on_rev(rt, alloc, tree, &plain, rev(rt, place));
    }
}

#[test]
fn two_forms_agree(rt: HostRuntime) {
    for seed in 0..200u64 {
        let mut tree = Tree::new(rt.alloc());
        merges_alike(&rt, rt.alloc(), seed, &mut tree);
    }
}
