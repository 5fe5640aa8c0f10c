//! Searches the rows of a window.
ghost use Rattle.std.specs.Prelude.{◌≡◌, ◌≤◌, ◌-◌, ◌^◌, ◌||◌, None, true, false, not, map, length, min, unwrap_or, IfSome, IfNone};
ghost use Rattle.std.specs.List.{find, list_any, list_all, sum_by};
ghost use Rattle.std.specs.Option.{option_map, option_copied};
ghost use Rattle.std.specs.Str.{bytes_eq};
ghost use Rattle.rev_tree.specs.Tree.{has, no_revisions};
ghost use Rattle.couch_base.specs.Database.{DatabaseValue, tree_of};
ghost use Rattle.couch_base.specs.Lists.{EachOnce};
ghost use Rattle.repl_peer.specs.peer.Covered.{first_unknown};
ghost use Rattle.repl_peer.specs.session.LedgerIndex.{is_ledgered};
ghost use Rattle.repl_peer.specs.session.Settling.{seq_in};
ghost use Rattle.repl_peer.specs.session.SettlingParts.{known_of, HasDocuments, IsRowOf};
ghost use Rattle.repl_peer.specs.declared.session.ledger_index.LedgerIndex.{LedgerIndex};

use crate::session::ledger_index::LedgerIndex;
use couch_base::{Database, LookupHint, Row, Wanted};
use doc_json::{Doc, DocId};
use rev_core::Rev;
use rev_tree::Tree;

/// Returns the index of the first row that has the given document id.
fn row_in(rows: &[Row], id: &DocId) -> Option<usize>
    ensures some { IfSome result (IsRowOf rows.now id.now) }
    ensures none { IfNone result (list_any (λ row. bytes_eq row.id id.now) rows.now ≡ false) }
{
    for (i, row) in rows.iter().enumerate() {
        if row.id() == id {
            return Some(i);
        }
    }
    None
}

/// Returns the index of a row that has the given document id. The search begins with the row at index `from + 1`. If
/// the row at index `from + 1` does not exist or has another id, `row_from` searches the rows from index `from` on.
/// Last, `row_from` searches the rows before index `from`.
///
/// Consecutive documents of a parcel usually have consecutive rows of the window, or the same row.
pub(crate) fn row_from(rows: &[Row], id: &DocId, from: usize) -> Option<usize>
    requires { from ≤ length rows.now }
    ensures some { IfSome result (IsRowOf rows.now id.now) }
    ensures none { IfNone result (list_any (λ row. bytes_eq row.id id.now) rows.now ≡ false) }
{
    let next = from + 1;
    if next < rows.len() {
        if rows[next].id() == id {
            return Some(next);
        }
    }
    match row_in(&rows[from..], id) {
        Some(i) => Some(from + i),
        None => row_in(&rows[..from], id),
    }
}

/// Returns the index and the sequence of the row that has the given document id. The caller guarantees that a row with
/// the document id exists. Searches the rows with `row_from`, which begins at index `from + 1`.
pub(crate) fn seq_from(rows: &[Row], id: &DocId, from: usize) -> (usize, u64)
    requires within { from ≤ length rows.now }
    requires there { list_any (λ row. bytes_eq row.id id.now) rows.now ≡ true }
    requires distinct { EachOnce bytes_eq (map (λ row. row.id) rows.now) }
    ensures within { result.0 ≤ length rows.now }
    ensures seq { result.1 ≡ seq_in rows.now id.now }
{
    let place = row_from(rows, id, from).unwrap();
    (place, rows[place].seq())
}

/// Whether each document has a row in the window.
pub(crate) fn all_have_rows(rows: &[Row], docs: &[Doc]) -> bool
    ensures { result ≡ list_all (λ d. list_any (λ row. bytes_eq row.id d.id) rows.now) docs.now }
{
    let mut place = 0;
    for doc in docs {
        match row_from(rows, doc.id(), place) {
            Some(found) => place = found,
            None => return false,
        }
    }
    true
}

/// Returns the number of leaves in the rows, or 2^64 - 1 if the number is greater.
pub(crate) fn leaf_count(rows: &[Row]) -> u64
    ensures { result ≡ min (sum_by (λ row. length row.leaves) rows.now) (2 ^ 64 - 1) }
{
    let mut count: u64 = 0;
    for row in rows {
        count = count.saturating_add(row.leaves().len() as u64);
    }
    count
}

/// Returns the number of requested revisions, or 2^64 - 1 if the number is greater.
pub(crate) fn asked_count(docs: &[Wanted]) -> u64
    ensures { result ≡ min (sum_by (λ wanted. length wanted.revs) docs.now) (2 ^ 64 - 1) }
{
    let mut count: u64 = 0;
    for wanted in docs {
        count = count.saturating_add(wanted.revs().len() as u64);
    }
    count
}

/// Whether a tree exists and has a given revision.
pub(crate) fn has_in(tree: Option<&Tree>, rev: Rev) -> bool
    ensures { result ≡ has (unwrap_or (option_copied tree.entry) no_revisions) rev }
{
    match tree {
        Some(tree) => tree.has(rev),
        None => false,
    }
}

/// Whether a revision is in a document's tree, or in the ancestry of a refused document.
fn is_known(tree: Option<&Tree>, ledgered: &LedgerIndex, id: &DocId, rev: Rev) -> bool
    ensures { result
        ≡ (has (unwrap_or (option_copied tree.entry) no_revisions) rev || is_ledgered ledgered.now id.now rev) }
{
    has_in(tree, rev) || ledgered.has(id, rev)
}

/// Returns the first unknown leaf of a row. A leaf is unknown if it is neither in its document's tree nor in the index
/// of refused revisions.
fn unknown_in(
    db: &Database,
    ledgered: &LedgerIndex,
    row: &Row,
    near: &mut LookupHint,
) -> Option<Rev>
    ensures { result ≡ find (λ rev. not (known_of db.now ledgered.now row.now.id rev)) row.now.leaves }
{
    let tree = db.tree_by_hint(near, row.id());
    for rev in row.leaves() {
        if !is_known(tree, ledgered, row.id(), *rev) {
            return Some(*rev);
        }
    }
    None
}

/// Whether the list has a document at index `i`, and that document has the given id and the given newest revision.
fn brings(docs: &[Doc], i: usize, id: &DocId, rev: Rev) -> bool
    ensures { result ≡ true → (db : DatabaseValue) → HasDocuments db docs.now → has (tree_of db.docs id.now) rev ≡ true }
{
    match docs.get(i) {
        Some(doc) => doc.id() == id && doc.ancestry().head() == rev,
        None => false,
    }
}

/// Whether the documents from index `from` on bring the leaves of a row, in the order of the leaves.
fn brings_all(docs: &[Doc], from: usize, row: &Row) -> bool
    ensures { result ≡ true → (db : DatabaseValue) (index : LedgerIndex) → HasDocuments db docs.now
        → find (λ rev. not (known_of db index row.now.id rev)) row.now.leaves ≡ None }
{
    let mut next = from;
    for rev in row.leaves() {
        if !brings(docs, next, row.id(), *rev) {
            return false;
        }
        next = next.saturating_add(1);
    }
    true
}

/// Returns the index of the first document from index `from` on that does not have the given id.
fn after_id(docs: &[Doc], from: usize, id: &DocId) -> usize {
    for i in from..docs.len() {
        if docs[i].id() != id {
            return i;
        }
    }
    docs.len()
}

/// Does the same as `unknown_in`, but looks first whether the leaves of the row are stored documents. `docs` are stored
/// documents, in the order of the rows. `next` is the index of the row's first document, if the row has documents, and
/// the call moves `next` after the row's documents.
fn unknown_of(
    db: &Database,
    ledgered: &LedgerIndex,
    row: &Row,
    near: &mut LookupHint,
    docs: &[Doc],
    next: &mut usize,
) -> Option<Rev>
    requires { HasDocuments db.now docs.now }
    ensures { result ≡ find (λ rev. not (known_of db.now ledgered.now row.now.id rev)) row.now.leaves }
{
    if brings_all(docs, *next, row) {
        *next = next.saturating_add(row.leaves().len());
        return None;
    }
    *next = after_id(docs, *next, row.id());
    unknown_in(db, ledgered, row, near)
}

/// Returns the first unknown leaf of the rows, with the leaf's row. A leaf is unknown if it is neither in its
/// document's tree nor in the index of refused revisions.
///
/// `docs` are documents that the database has stored. The call looks up no tree for the rows of `docs`, if the
/// documents are in the order of the rows and of the leaves.
pub(crate) fn first_unknown<'a>(
    db: &Database,
    ledgered: &LedgerIndex,
    rows: &'a [Row],
    docs: &[Doc],
) -> Option<(&'a Row, Rev)>
    requires { HasDocuments db.now docs.now }
    ensures { option_map (λ u. record { seq = u.0.now.seq; id = u.0.now.id; rev = u.1 }) result
        ≡ first_unknown (known_of db.now ledgered.now) rows.now }
{
    let mut near = LookupHint::new();
    let mut next = 0;
    for row in rows {
        if let Some(rev) = unknown_of(db, ledgered, row, &mut near, docs, &mut next) {
            return Some((row, rev));
        }
    }
    None
}
