//! The functions in this file call `replicate_alone` and functions of `Peer` with large values, such as documents with
//! long ancestries. Because the contracts allow the error `Memory` even if no allocation fails, tests must check that
//! calls with large values succeed.
use crate::tests::databases::{edit_text, put_text};
use crate::tests::plans::plan;
use crate::tests::records::{fault_text, report_text};
use crate::tests::texts::body;
use doc_json::{Body, Doc, DocId};
use repl_target::{Peer, Rules, replicate_alone};
use rev_core::{Ancestry, Rev, Sig};
use rev_tree::{SessionId, Tree};
use std::alloc::Global;
use test_support::rev_text;

/// Returns the revision signature that consists of the decimal digits of a number.
fn sig(alloc: Global, number: u32) -> Option<Sig> {
    let Ok(text) = number.to_string(alloc) else {
        return None;
    };
    Sig::parse(text.as_bytes()).ok()
}

/// Returns `length` revision signatures. The signatures are the numbers from 0 to `length - 1` in decimal digits.
fn sigs(alloc: Global, length: u32) -> Option<Vec<Sig>> {
    let mut sigs = Vec::new(alloc);
    for number in 0..length {
        let Some(sig) = sig(alloc, number) else {
            return None;
        };
        let Ok(()) = sigs.push(sig) else {
            return None;
        };
    }
    Some(sigs)
}

/// Returns the document d with an empty body, and with an ancestry whose newest revision has a given generation.
fn doc(alloc: Global, start: u32, sigs: &[Sig]) -> Option<Doc> {
    let Ok(id) = DocId::parse(alloc, "d") else {
        return None;
    };
    let Ok(ancestry) = Ancestry::from_parts(alloc, start, sigs) else {
        return None;
    };
    let Some(body) = body(alloc, "{}") else {
        return None;
    };
    Some(Doc::new(id, ancestry, false, body))
}

/// Loads the document d with an ancestry of a given length, whose oldest revision has generation 1.
pub(crate) fn load_long(alloc: Global, peer: &mut Peer<Rules>, length: u32) -> Option<String> {
    let Some(sigs) = sigs(alloc, length) else {
        return None;
    };
    let Some(doc) = doc(alloc, length, &sigs) else {
        return None;
    };
    put_text(alloc, peer.load(&doc))
}

/// Loads the document d at a revision of generation 1. The revision's signature consists of the decimal digits of
/// `number`.
fn load_leaf(alloc: Global, peer: &mut Peer<Rules>, number: u32) -> Option<String> {
    let Some(sig) = sig(alloc, number) else {
        return None;
    };
    let Some(doc) = doc(alloc, 1, &[sig]) else {
        return None;
    };
    put_text(alloc, peer.load(&doc))
}

/// Loads a given number of leaves of the document d, all of generation 1, and returns the result of the last load.
pub(crate) fn load_wide(alloc: Global, peer: &mut Peer<Rules>, leaves: u32) -> Option<String> {
    let mut text = String::new(alloc);
    for number in 0..leaves {
        let Some(answer) = load_leaf(alloc, peer, number) else {
            return None;
        };
        text = answer;
    }
    Some(text)
}

/// Returns a body with a string of a given number of letters x.
fn letters_body(alloc: Global, letters: usize) -> Option<Body> {
    let Ok(mut text) = r#"{"t":""#.to_string(alloc) else {
        return None;
    };
    for _ in 0..letters {
        let Ok(()) = text.push('x') else {
            return None;
        };
    }
    let Ok(()) = text.push_str(r#""}"#) else {
        return None;
    };
    body(alloc, text.as_str())
}

/// Creates the document d by an edit. The body has a string of a given number of letters x.
pub(crate) fn edit_large(alloc: Global, peer: &mut Peer<Rules>, letters: usize) -> Option<String> {
    let Some(body) = letters_body(alloc, letters) else {
        return None;
    };
    let Ok(id) = DocId::parse(alloc, "d") else {
        return None;
    };
    edit_text(alloc, peer.edit(&id, None, false, &body))
}

/// Reads the size of the document d's tree: the winner, the numbers of leaves and revisions, and the lengths of the
/// winner's ancestry and body.
pub(crate) fn sizes(alloc: Global, peer: &Peer<Rules>) -> Option<String> {
    let Ok(id) = DocId::parse(alloc, "d") else {
        return None;
    };
    match peer.db().tree(&id) {
        Some(tree) => tree_sizes(alloc, tree),
        None => None,
    }
}

/// Returns the number of leaves that a tree lists.
fn leaf_count(alloc: Global, tree: &Tree) -> Option<usize> {
    let Ok(leaves) = tree.leaves(alloc) else {
        return None;
    };
    Some(leaves.as_slice().len())
}

/// Returns the length of a revision's ancestry.
fn walk_length(alloc: Global, tree: &Tree, rev: Rev) -> Option<usize> {
    let Ok(walk) = tree.ancestry(alloc, rev) else {
        return None;
    };
    Some(walk.revs().len())
}

/// Reads the size of a tree.
fn tree_sizes(alloc: Global, tree: &Tree) -> Option<String> {
    let Some(winner) = tree.winner() else {
        return None;
    };
    let Some(leaves) = leaf_count(alloc, tree) else {
        return None;
    };
    let Some(walk) = walk_length(alloc, tree, winner) else {
        return None;
    };
    let Some(content) = tree.content(winner) else {
        return None;
    };
    let body = content.body().len();
    let Some(text) = rev_text(alloc, winner) else {
        return None;
    };
    format!(in alloc;
        "{text} of {leaves} leaves and {} revs, walk {walk}, body {body}",
        tree.rev_count()
    )
    .ok()
}

/// Replicates one peer into another peer by one thread.
pub(crate) fn replicate(
    alloc: Global,
    source: &mut Peer<Rules>,
    target: &mut Peer<Rules>,
    session: SessionId,
    batch: u64,
) -> Option<String> {
    let Some(plan) = plan(session, batch, 0) else {
        return None;
    };
    match replicate_alone(alloc, source, target, &plan) {
        Ok(report) => report_text(alloc, report),
        Err(fault) => fault_text(alloc, fault),
    }
}
