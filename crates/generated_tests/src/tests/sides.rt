//! Compares the trees, the covered revisions and the ledgers of a peer with the peer's plain model.
use crate::tests::exchanges::place_of;
use crate::tests::feeds::{id, number_of};
use crate::tests::merges::{are, rev};
use crate::tests::plain_sides::{PlainSide, Row};
use crate::tests::reference::{PLACES, Reference, bit};
use repl_target::{Peer, Reason, Refused, Rules};
use rev_core::Rev;
use rev_tree::{SessionId, Tree};
use std::alloc::Global;
use std::process::Abort;

/// Whether a peer and its plain model have the same update sequence, and agree about the trees and the covered
/// revisions of the first `documents` documents.
pub(crate) fn agrees(
    rt: &impl Abort,
    alloc: Global,
    peer: &Peer<Rules>,
    plain: &PlainSide,
    documents: usize,
) -> bool {
    let mut agrees = peer.db().update_seq() == plain.update_seq;
    for number in 0..documents {
        agrees = agrees && agrees_on(rt, alloc, peer, plain, number);
    }
    agrees
}

/// Whether a peer and its plain model agree about a document.
fn agrees_on(
    rt: &impl Abort,
    alloc: Global,
    peer: &Peer<Rules>,
    plain: &PlainSide,
    number: usize,
) -> bool {
    let id = id(rt, alloc, number);
    let wanted = plain.tree(number);
    let same = match peer.db().tree(&id) {
        Some(tree) => is_tree(rt, alloc, tree, &wanted),
        None => wanted.count() == 0,
    };
    let mut covers = true;
    for place in 0..PLACES {
        let covered = plain.covered(number) & bit(place) != 0;
        covers = covers && peer.covered(&id, rev(rt, place)) == covered;
    }
    same && covers
}

/// Whether a `Tree` and its simple model `Reference` agree about the number of revisions, the leaves, and the leaves'
/// ancestries and contents.
fn is_tree(rt: &impl Abort, alloc: Global, tree: &Tree, wanted: &Reference) -> bool {
    let places = wanted.leaves(alloc).expect(rt, "memory");
    let leaves = tree.leaves(alloc).expect(rt, "memory");
    let mut same = tree.rev_count() == wanted.count() && are(rt, &leaves, &places);
    for place in &places {
        same = same && is_leaf(rt, alloc, tree, wanted, *place);
    }
    same
}

/// Whether a leaf has the same ancestry and content in a `Tree` and in its simple model `Reference`.
fn is_leaf(rt: &impl Abort, alloc: Global, tree: &Tree, wanted: &Reference, place: usize) -> bool {
    let one = rev(rt, place);
    let walk = tree.ancestry(alloc, one).expect(rt, "a revision");
    let places = wanted.ancestry(alloc, place).expect(rt, "memory");
    has_content(tree, one, wanted.content(place)) && are(rt, walk.revs(), &places)
}

/// Whether a revision has a content with the expected deleted flag and the body `{}`.
fn has_content(tree: &Tree, one: Rev, wanted: Option<(bool, u8)>) -> bool {
    match (tree.content(one), wanted) {
        (Some(content), Some((deleted, _))) => {
            content.deleted() == deleted && content.body() == b"{}".as_slice()
        }
        _ => false,
    }
}

/// Whether the ledger of a session has the expected rows, in any order.
pub(crate) fn has_ledger(
    rt: &impl Abort,
    alloc: Global,
    peer: &Peer<Rules>,
    session: SessionId,
    wanted: &mut Vec<Row>,
) -> bool {
    let ledger = peer.ledger(session).expect(rt, "a session");
    let mut rows = Vec::new(alloc);
    for refused in ledger {
        rows.push(row(rt, refused)).expect(rt, "memory");
    }
    rows.sort_unstable();
    wanted.sort_unstable();
    rows.as_slice() == wanted.as_slice()
}

/// Converts a row of a peer's ledger to the plain model's form of a row.
fn row(rt: &impl Abort, refused: &Refused) -> Row {
    let doc = refused.doc();
    let number = number_of(rt, doc.id().text());
    let head = place_of(rt, doc.ancestry().head());
    match refused.reason() {
        Reason::Filtered => [number, head, PLACES, PLACES, PLACES],
        Reason::Contradicting {
            child,
            known,
            given,
        } => [
            number,
            head,
            place_of(rt, child),
            place_of(rt, known),
            place_of(rt, given),
        ],
    }
}
