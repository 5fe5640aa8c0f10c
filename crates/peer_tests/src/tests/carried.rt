//! Functions that read the leaves of a peer's document, and the documents that the peer refused.
use crate::tests::texts::{doc_text, joined};
use couch_base::Database;
use doc_json::DocId;
use repl_target::{Peer, Refused, Rules};
use rev_core::Rev;
use rev_tree::SessionId;
use std::alloc::Global;
use test_support::shown;

/// Returns the text of each leaf of a document (with the leaf's ancestry and content), winner first.
pub(crate) fn leaves(alloc: Global, db: &Database, id: &str) -> Option<String> {
    let Ok(id) = DocId::parse(alloc, id) else {
        return None;
    };
    let Some(tree) = db.tree(&id) else {
        return "no document".to_string(alloc).ok();
    };
    let Ok(leaves) = tree.leaves(alloc) else {
        return None;
    };
    all_at(alloc, db, &id, leaves.as_slice())
}

/// Formats a document at each of the given revisions, and concatenates the strings.
fn all_at(alloc: Global, db: &Database, id: &DocId, revs: &[Rev]) -> Option<String> {
    let mut all = Some(String::new(alloc));
    for rev in revs {
        all = joined(all, at(alloc, db, id, *rev));
    }
    all
}

/// Formats a document at a revision as a string: the id, the ancestry, `live` or `deleted`, and the body.
fn at(alloc: Global, db: &Database, id: &DocId, rev: Rev) -> Option<String> {
    match db.document(alloc, id, rev) {
        Ok(Some(doc)) => doc_text(alloc, &doc),
        _ => None,
    }
}

/// Returns, in order, the texts of the rows for a given document in a session's ledger. The text of a row has the
/// fetched document, and the reason why the peer did not store the document.
pub(crate) fn refused(
    alloc: Global,
    peer: &Peer<Rules>,
    session: SessionId,
    id: &str,
) -> Option<String> {
    match peer.ledger(session) {
        Some(rows) => refused_of(alloc, rows, id),
        None => None,
    }
}

/// Returns the texts of the ledger rows that belong to the document with a given id.
fn refused_of(alloc: Global, rows: &[Refused], id: &str) -> Option<String> {
    let mut all = Some(String::new(alloc));
    for row in rows {
        if row.doc().id().text() == id {
            all = joined(all, refused_text(alloc, row));
        }
    }
    all
}

/// Returns the text of a ledger row: the fetched document, and the reason why the peer did not store the document.
fn refused_text(alloc: Global, row: &Refused) -> Option<String> {
    joined(doc_text(alloc, row.doc()), shown(alloc, &row.reason()))
}
