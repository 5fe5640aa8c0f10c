//! Performs random merges. After each merge, the test compares the result of the merge and the results of all read
//! calls with the reference model.
ghost use Rattle.std.specs.Prelude.{◌≤◌};

use crate::tests::checks::holds;
use crate::tests::reference::{Answer, PLACES, Reference, mask_of};
use rand_chacha::ChaCha8Rng;
use rand_core::{Rng, SeedableRng};
use rev_core::{Ancestry, Rev, Sig};
use rev_tree::{Content, Merged, Origin, Revs, Tree, TreeFault};
use std::alloc::{AllocError, Global};
use std::process::Abort;
use std::sync::ArcSlice;

/// Returns the signature of the revision at an index of the reference model.
fn sig(rt: &impl Abort, place: usize) -> Sig {
    match Sig::parse(&[b'a' + (place % 3) as u8]) {
        Ok(sig) => sig,
        Err(_) => rt.panic(format_args!("a signature")),
    }
}

/// Returns the revision that the module `reference` represents by the index `place`.
pub(crate) fn rev(rt: &impl Abort, place: usize) -> Rev {
    let text = [
        b'1' + (place % PLACES / 3) as u8,
        b'-',
        b'a' + (place % 3) as u8,
    ];
    match Rev::parse(&text) {
        Ok(rev) => rev,
        Err(_) => rt.panic(format_args!("a revision")),
    }
}

/// Whether the list `revs` has exactly the revisions with the indices `places`, in the same order. The module
/// `reference` defines the index of a revision.
pub(crate) fn are(rt: &impl Abort, revs: &[Rev], places: &[usize]) -> bool {
    let mut are = revs.len() == places.len();
    for (one, place) in revs.iter().zip(places) {
        are = are && *one == rev(rt, *place);
    }
    are
}

/// Returns a random number below a bound, or 0 if the bound is 0.
pub(crate) fn below(rng: &mut ChaCha8Rng, bound: u32) -> usize
    ensures { result ≤ bound }
{
    if bound == 0 {
        0
    } else {
        (rng.next_u32() % bound) as usize
    }
}

/// Returns the indices of a random ancestry, newest first.
pub(crate) fn places(rng: &mut ChaCha8Rng, alloc: Global) -> Result<Vec<usize>, AllocError> {
    let start = below(rng, 6);
    let length = below(rng, 6);
    let mut places = Vec::new(alloc);
    for back in 0..6usize {
        if back <= start && back <= length {
            places.push((start - back) * 3 + below(rng, 3))?;
        }
    }
    Ok(places)
}

/// Creates the ancestry of the revisions at the given indices.
pub(crate) fn ancestry(rt: &impl Abort, alloc: Global, places: &[usize]) -> Ancestry {
    let mut sigs = Vec::new(alloc);
    for place in places {
        sigs.push(sig(rt, *place)).expect(rt, "memory");
    }
    let start = places.first().map_or(0, |place| *place % PLACES / 3 + 1);
    Ancestry::from_parts(alloc, start as u32, &sigs).expect(rt, "an ancestry")
}

/// Asserts that a revision has the same content in the tree and in the reference model (`Reference`).
fn agree_on_content(rt: &impl Abort, tree: &Tree, reference: &Reference, one: Rev, place: usize) {
    match (tree.content(one), reference.content(place)) {
        (Some(content), Some((deleted, body))) => {
            holds(
                rt,
                content.deleted() == deleted && content.body() == [body].as_slice(),
                "a content",
            );
        }
        (None, None) => {}
        _ => rt.panic(format_args!("a content on one side alone")),
    }
}

/// Asserts that a call returned the list of the revisions at the given indices.
fn assert_are(rt: &impl Abort, answer: Result<Revs, AllocError>, places: &[usize]) {
    let revs = answer.expect(rt, "revisions");
    holds(rt, are(rt, revs.as_slice(), places), "revisions");
}

/// Asserts that a revision has the same ancestry in the tree and in the reference model (`Reference`).
fn agree_on_walk(
    rt: &impl Abort,
    alloc: Global,
    tree: &Tree,
    reference: &Reference,
    one: Rev,
    place: usize,
) {
    match tree.ancestry(alloc, one) {
        Ok(walk) => is_walk(rt, alloc, reference, place, walk.revs()),
        Err(_) => holds(rt, !reference.has(place), "no revision"),
    }
}

/// Asserts that the list `walk` of revisions is the ancestry that the reference model has for the revision at index
/// `place`.
fn is_walk(rt: &impl Abort, alloc: Global, reference: &Reference, place: usize, walk: &[Rev]) {
    let places = reference.ancestry(alloc, place).expect(rt, "memory");
    holds(
        rt,
        reference.has(place) && are(rt, walk, &places),
        "an ancestry",
    );
}

/// Whether a tree and the reference model (`Reference`) agree about the existence and the origin of a revision, and
/// about whether the revision is a leaf.
fn has_as(tree: &Tree, reference: &Reference, one: Rev, place: usize) -> bool {
    let stands = tree.has(one) == reference.has(place);
    let is_leaf = tree.is_leaf(one) == reference.is_leaf(place);
    let origin = match reference.origin(place) {
        Some(number) => Some(Origin::Local(number)),
        None => None,
    };
    stands && is_leaf && tree.origin(one) == origin
}

/// Asserts that a tree and the reference model agree about the revision at an index.
fn agree_at(rt: &impl Abort, alloc: Global, tree: &Tree, reference: &Reference, place: usize) {
    let one = rev(rt, place);
    holds(rt, has_as(tree, reference, one, place), "a revision");
    agree_on_content(rt, tree, reference, one, place);
    agree_on_walk(rt, alloc, tree, reference, one, place);
}

/// Asserts that a tree's leaves are the revisions at the given indices, and that the winner is the first of these
/// revisions.
fn agree_on_leaves(rt: &impl Abort, alloc: Global, tree: &Tree, places: &[usize]) {
    assert_are(rt, tree.leaves(alloc), places);
    holds(rt, tree.leaf_count() == places.len(), "the leaves");
    match places.first() {
        Some(place) => holds(rt, tree.winner() == Some(rev(rt, *place)), "the winner"),
        None => holds(rt, tree.winner().is_none(), "no winner"),
    }
}

/// Asserts that a tree and the reference model agree about the leaves, the number of revisions, and every revision.
fn agree(rt: &impl Abort, alloc: Global, tree: &Tree, reference: &Reference) {
    let leaves = reference.leaves(alloc).expect(rt, "memory");
    agree_on_leaves(rt, alloc, tree, &leaves);
    holds(rt, tree.rev_count() == reference.count(), "the revisions");
    for place in 0..PLACES {
        agree_at(rt, alloc, tree, reference, place);
    }
}

/// Returns the revisions at the given indices.
fn revs(rt: &impl Abort, alloc: Global, places: &[usize]) -> Vec<Rev> {
    let mut revs = Vec::new(alloc);
    for place in places {
        revs.push(rev(rt, *place)).expect(rt, "memory");
    }
    revs
}

/// Asserts that a tree and the reference model agree about which of the given revisions are missing.
fn agree_on_missing(
    rt: &impl Abort,
    alloc: Global,
    tree: &Tree,
    reference: &Reference,
    asked: &[usize],
) {
    let revs = revs(rt, alloc, asked);
    let missing = reference.missing(rt, alloc, asked);
    assert_are(rt, tree.missing(alloc, &revs), &missing);
}

/// Asserts that a tree and the reference model agree about which leaves have one of the given revisions in their
/// ancestries.
fn agree_on_above(
    rt: &impl Abort,
    alloc: Global,
    tree: &Tree,
    reference: &Reference,
    asked: &[usize],
) {
    let revs = revs(rt, alloc, asked);
    let above = reference.leaves_above(rt, alloc, mask_of(asked));
    assert_are(rt, tree.leaves_above(alloc, &revs), &above);
}

/// Chooses random revisions. Asserts that a tree and the reference model agree about which chosen revisions are
/// missing, and about which leaves have a chosen revision in their ancestries.
fn agree_on_asked(
    rt: &impl Abort,
    alloc: Global,
    rng: &mut ChaCha8Rng,
    tree: &Tree,
    reference: &Reference,
) {
    let asked = places(rng, alloc).expect(rt, "memory");
    agree_on_missing(rt, alloc, tree, reference, &asked);
    agree_on_above(rt, alloc, tree, reference, &asked);
}

/// Asserts that a merge returns the result that the reference model returns.
fn answers(rt: &impl Abort, answer: Result<Merged, TreeFault>, wanted: Answer) {
    match answer {
        Ok(Merged::Changed) => holds(rt, wanted == Answer::Changed, "a change"),
        Ok(Merged::Same) => holds(rt, wanted == Answer::Same, "no change"),
        Err(fault) => refused(rt, fault, wanted),
    }
}

/// Returns the child, the known parent and the given parent that a `Contradiction` error names.
fn contradiction(fault: TreeFault) -> Option<(Rev, Rev, Rev)> {
    match fault {
        TreeFault::Contradiction {
            child,
            known,
            given,
        } => Some((child, known, given)),
        _ => None,
    }
}

/// Asserts that a merge returns the error that the reference model returns.
fn refused(rt: &impl Abort, fault: TreeFault, wanted: Answer) {
    let Some((child, known, given)) = contradiction(fault) else {
        rt.panic(format_args!("no contradiction"))
    };
    let places = match wanted {
        Answer::Contradiction {
            child,
            known,
            given,
        } => [child, known, given],
        _ => rt.panic(format_args!("refused, where {wanted:?} was wanted")),
    };
    holds(
        rt,
        are(rt, &[child, known, given], &places),
        "a contradiction",
    );
}

/// Creates a content with a body of one byte.
pub(crate) fn content(rt: &impl Abort, alloc: Global, deleted: bool, byte: u8) -> Content {
    let body = ArcSlice::from_slice(alloc, &[byte]).expect(rt, "memory");
    Content::new(deleted, body)
}

/// Merges a random ancestry into a tree and into the reference model. Returns whether the merge failed.
fn merge(
    rt: &impl Abort,
    alloc: Global,
    rng: &mut ChaCha8Rng,
    tree: &mut Tree,
    reference: &mut Reference,
    round: u64,
) -> bool {
    let given = places(rng, alloc).expect(rt, "memory");
    let deleted = below(rng, 3) == 0;
    let byte = (below(rng, 10) % 256) as u8;
    let ancestry = ancestry(rt, alloc, &given);
    let answer = tree.merge(
        &ancestry,
        content(rt, alloc, deleted, byte),
        Origin::Local(round),
    );
    let is_refused = answer.is_err();
    answers(rt, answer, reference.merge(&given, (deleted, byte), round));
    is_refused
}

/// Performs fifty random merges, which a seed determines. Returns the number of merges that failed.
fn merges(rt: &impl Abort, alloc: Global, seed: u64, tree: &mut Tree) -> usize {
    let mut rng = ChaCha8Rng::seed_from_u64(seed);
    let mut reference = Reference::new();
    let mut refusals = 0usize;
    for round in 0..50u64 {
        if merge(rt, alloc, &mut rng, tree, &mut reference, round) {
            refusals = refusals.saturating_add(1);
        }
        agree(rt, alloc, tree, &reference);
        agree_on_asked(rt, alloc, &mut rng, tree, &reference);
    }
    refusals
}

#[test]
fn two_hundred_seeds_agree(rt: HostRuntime) {
    let mut refusals = 0usize;
    for seed in 0..200u64 {
        let mut tree = Tree::new(rt.alloc());
        refusals = refusals.saturating_add(merges(&rt, rt.alloc(), seed, &mut tree));
    }
    // The test asserts that more than 1,000 and fewer than 9,000 of the 10,000 merges fail.
    assert!(rt; 1_000 < refusals && refusals < 9_000, "{refusals} refusals");
}
