//! Formats results as strings, and parses the arguments of calls.
use couch_base::{Asked, BaseFault, Database, Parcel, Row, Wanted, Window};
use doc_json::{Body, Doc, DocId, read_body, read_doc};
use repl_target::StoredWindow;
use rev_core::Rev;
use rev_tree::{Origin, Tree};
use serde_json::Value;
use std::alloc::Global;
use std::process::Abort;
use test_support::{rev_text, revs_text, shown};

/// Asserts that the test could perform a call, and that the call returned the expected string. If `answer` is `None`,
/// the test could not perform the call.
pub(crate) fn expect_answer(rt: &impl Abort, number: usize, answer: Option<String>, wanted: &str) {
    let is_wanted = match &answer {
        Some(text) => text.as_str() == wanted,
        None => false,
    };
    assert!(rt; is_wanted, "call {number}: {answer:?}, not {wanted}");
}

/// Parses a document.
pub(crate) fn doc(alloc: Global, text: &str) -> Option<Doc> {
    let Ok(value) = Value::from_str(alloc, text) else {
        return None;
    };
    read_doc(alloc, &value).ok()
}

/// Parses a body.
pub(crate) fn body(alloc: Global, text: &str) -> Option<Body> {
    let Ok(value) = Value::from_str(alloc, text) else {
        return None;
    };
    read_body(alloc, &value).ok()
}

/// Concatenates two strings, or returns `None` if a string is missing. A caller that joins many strings needs to check
/// for `None` only once, at the end.
pub(crate) fn joined(all: Option<String>, text: Option<String>) -> Option<String> {
    let (Some(mut all), Some(text)) = (all, text) else {
        return None;
    };
    match all.push_str(text.as_str()) {
        Ok(()) => Some(all),
        Err(_) => None,
    }
}

/// Copies a string.
pub(crate) fn plain(alloc: Global, text: &str) -> Option<String> {
    text.to_string(alloc).ok()
}

/// Returns the text of the bounds of a window, request or parcel.
fn bounds_text(alloc: Global, lo: u64, hi: u64) -> Option<String> {
    format!(in alloc; "{lo} to {hi}:").ok()
}

/// Returns the bounds and the rows of a window.
pub(crate) fn window_text(alloc: Global, window: &Window) -> Option<String> {
    let mut all = bounds_text(alloc, window.lo(), window.hi());
    for row in window.rows() {
        all = joined(all, row_text(alloc, row));
    }
    all
}

/// Returns the sequence, the id and the leaves of a row.
fn row_text(alloc: Global, row: &Row) -> Option<String> {
    let Some(leaves) = revs_text(alloc, row.leaves()) else {
        return None;
    };
    format!(in alloc; " {} {} {leaves};", row.seq(), row.id().text()).ok()
}

/// Returns the bounds of stored windows, and whether each window still has its complete rows.
pub(crate) fn stored_text(alloc: Global, windows: &[StoredWindow]) -> Option<String> {
    let mut all = Some(String::new(alloc));
    for window in windows {
        all = joined(all, one_stored_text(alloc, window));
    }
    all
}

/// Returns the bounds of a stored window, and whether the window still has its complete rows.
fn one_stored_text(alloc: Global, window: &StoredWindow) -> Option<String> {
    let (life, lo, hi) = (window.life(), window.lo(), window.hi());
    match window.rows() {
        Some(rows) => format!(in alloc; "{lo} to {hi} of {life} with {} rows;", rows.len()).ok(),
        None => format!(in alloc; "{lo} to {hi} of {life};").ok(),
    }
}

/// Returns the bounds and the documents of a request.
pub(crate) fn asked_text(alloc: Global, asked: &Asked) -> Option<String> {
    let mut all = bounds_text(alloc, asked.lo(), asked.hi());
    for wanted in asked.docs() {
        all = joined(all, wanted_text(alloc, wanted));
    }
    all
}

/// Returns the id and the revisions of a requested document.
fn wanted_text(alloc: Global, wanted: &Wanted) -> Option<String> {
    let Some(revs) = revs_text(alloc, wanted.revs()) else {
        return None;
    };
    format!(in alloc; " {} {revs};", wanted.id().text()).ok()
}

/// Returns the bounds, the documents and the gone revisions of a parcel.
pub(crate) fn parcel_text(alloc: Global, parcel: &Parcel) -> Option<String> {
    let mut all = bounds_text(alloc, parcel.lo(), parcel.hi());
    for doc in parcel.docs() {
        all = joined(all, doc_text(alloc, doc));
    }
    for (id, rev) in parcel.gone() {
        all = joined(all, gone_text(alloc, id, *rev));
    }
    all
}

/// Returns a gone revision.
fn gone_text(alloc: Global, id: &DocId, rev: Rev) -> Option<String> {
    let Some(rev) = rev_text(alloc, rev) else {
        return None;
    };
    format!(in alloc; " gone {} {rev};", id.text()).ok()
}

/// Returns the UUID and the update sequence of a database.
pub(crate) fn numbers_text(alloc: Global, db: &Database) -> Option<String> {
    format!(in alloc; "{} at {}", db.uuid(), db.update_seq()).ok()
}

/// Returns the text of a fetched document: the id, the ancestry, `live` or `deleted`, and the body.
pub(crate) fn doc_text(alloc: Global, doc: &Doc) -> Option<String> {
    let Ok(body) = std::str::from_utf8(doc.body().text()) else {
        return None;
    };
    let kind = if doc.deleted() { "deleted" } else { "live" };
    let Some(revs) = revs_text(alloc, doc.ancestry().revs()) else {
        return None;
    };
    format!(in alloc; " {} {revs} {kind} {body};", doc.id().text()).ok()
}

/// Returns the leaves of a tree, winner first, and the number of the tree's revisions.
pub(crate) fn tree_text(alloc: Global, tree: &Tree) -> Option<String> {
    let Ok(leaves) = tree.leaves(alloc) else {
        return None;
    };
    let Some(text) = revs_text(alloc, leaves.as_slice()) else {
        return None;
    };
    format!(in alloc; "{text} of {}", tree.rev_count()).ok()
}

/// Returns the text of a revision of a tree: the parent, the origin and the content.
pub(crate) fn node_text(alloc: Global, tree: &Tree, rev: Rev) -> Option<String> {
    let all = parent_text(alloc, tree, rev);
    let all = joined(all, origin_text(alloc, tree.origin(rev)));
    joined(all, content_text(alloc, tree, rev))
}

/// Returns the parent of a revision.
fn parent_text(alloc: Global, tree: &Tree, rev: Rev) -> Option<String> {
    match tree.parent_of(rev) {
        Some(parent) => rev_text(alloc, parent),
        None => "no parent".to_string(alloc).ok(),
    }
}

/// Returns the origin of a revision (the write that added the revision) as text between commas. If `origin` is `None`,
/// returns `None`.
fn origin_text(alloc: Global, origin: Option<Origin>) -> Option<String> {
    match origin {
        Some(origin) => format!(in alloc; ", {origin:?}, ").ok(),
        None => None,
    }
}

/// Returns the content of a revision.
fn content_text(alloc: Global, tree: &Tree, rev: Rev) -> Option<String> {
    let Some(content) = tree.content(rev) else {
        return "no content".to_string(alloc).ok();
    };
    let Ok(body) = std::str::from_utf8(content.body()) else {
        return None;
    };
    let kind = if content.deleted() { "deleted" } else { "live" };
    format!(in alloc; "{kind} {body}").ok()
}

/// Returns the text of an error of a call on a database.
pub(crate) fn base_fault_text(alloc: Global, fault: BaseFault) -> Option<String> {
    match fault {
        BaseFault::RevExists { rev } => named_text(alloc, "RevExists", &[rev]),
        BaseFault::Contradiction {
            child,
            known,
            given,
        } => named_text(alloc, "Contradiction", &[child, known, given]),
        plain => shown(alloc, &plain),
    }
}

/// Returns a string with a name, a sequence, a document id and a revision.
pub(crate) fn place_text(
    alloc: Global,
    name: &str,
    seq: u64,
    id: &DocId,
    rev: Rev,
) -> Option<String> {
    let Some(rev) = rev_text(alloc, rev) else {
        return None;
    };
    format!(in alloc; "{name} {seq} {} {rev}", id.text()).ok()
}

/// Returns a string with a name and a list of revisions.
fn named_text(alloc: Global, name: &str, revs: &[Rev]) -> Option<String> {
    let Some(revs) = revs_text(alloc, revs) else {
        return None;
    };
    format!(in alloc; "{name} {revs}").ok()
}
