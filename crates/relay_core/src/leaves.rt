//! Functions over lists of documents with their leaf revisions.
ghost use Rattle.std.specs.Prelude.{◌≡◌, ◌++◌, IfOk, OnOk, filter};
ghost use Rattle.relay_core.specs.Views.{texts_of, docs_view};
ghost use Rattle.std.specs.List.{list_all};
ghost use Rattle.relay_core.specs.Leaves.{names, have_leaves, name_all, docs_where, doc_if_any};
ghost use Rattle.relay_core.specs.LeafSets.{has_leaf, all_leaves};

use crate::leaf_set::{LeafSet, has_leaf, leaf_set};
use crate::messages::DocLeaves;
use std::alloc::{AllocError, Global};

/// Whether each of the given documents has at least one leaf.
pub(crate) fn have_leaves(docs: &[DocLeaves]) -> bool
    ensures { result ≡ have_leaves (docs_view docs.now) }
{
    for doc in docs {
        if doc.revs.is_empty() {
            return false;
        }
    }
    true
}

/// Whether the set `leaves` has all leaves `revs` of the document `id`.
fn has_each(leaves: &LeafSet<'_>, id: &str, revs: &Vec<String>) -> bool
    ensures { result ≡ list_all (λ r. has_leaf leaves.now.keys id.now r) (texts_of revs.now.items) }
{
    for rev in revs {
        if !has_leaf(leaves, id, rev.as_str()) {
            return false;
        }
    }
    true
}

/// Whether a set of leaves has each leaf of the given documents.
fn has_all(leaves: &LeafSet<'_>, docs: &[DocLeaves]) -> bool
    ensures { result ≡ all_leaves (has_leaf leaves.now.keys) (docs_view docs.now) }
{
    for doc in docs {
        if !has_each(leaves, doc.id.as_str(), &doc.revs) {
            return false;
        }
    }
    true
}

/// Whether each leaf of the documents `named` is also a leaf of the documents `docs`.
pub fn name_all(alloc: Global, docs: &[DocLeaves], named: &[DocLeaves]) -> Result<bool, AllocError>
    ensures { IfOk result (λ b. b ≡ name_all (docs_view docs.now) (docs_view named.now)) }
{
    let leaves = leaf_set(alloc, docs)?;
    Ok(has_all(&leaves, named))
}

/// Filters the leaves `revs` of the document `id`: returns only those that are in the set `leaves`.
fn revs_in(
    alloc: Global,
    leaves: &LeafSet<'_>,
    id: &str,
    revs: &Vec<String>,
) -> Result<Vec<String>, AllocError>
    ensures { IfOk result (λ v. texts_of v.items ≡ filter (λ r. has_leaf leaves.now.keys id.now r) (texts_of revs.now.items)) }
{
    let mut kept = Vec::new(alloc);
    for rev in revs {
        if has_leaf(leaves, id, rev.as_str()) {
            kept.push(String::from_str(alloc, rev.as_str())?)?;
        }
    }
    Ok(kept)
}

/// Appends a document with the leaves `revs` to a list, unless `revs` is empty.
fn push_doc(
    alloc: Global,
    docs: &mut Vec<DocLeaves>,
    id: &str,
    revs: Vec<String>,
) -> Result<(), AllocError>
    ensures { OnOk result (docs_view docs.new.items ≡ docs_view docs.old.items ++ doc_if_any id.now (texts_of revs.items)) }
{
    if revs.is_empty() {
        return Ok(());
    }
    let id = String::from_str(alloc, id)?;
    docs.push(DocLeaves { id, revs })?;
    Ok(())
}

/// Copies the given documents, but only with leaves that are in the set `leaves`. If no leaf of a document is in the
/// set `leaves`, the document is omitted.
fn leaves_in(
    alloc: Global,
    docs: &[DocLeaves],
    leaves: &LeafSet<'_>,
) -> Result<Vec<DocLeaves>, AllocError>
    ensures { IfOk result (λ v. docs_view v.items ≡ docs_where (λ id leaf. has_leaf leaves.now.keys id leaf) (docs_view docs.now)) }
{
    let mut kept = Vec::new(alloc);
    for doc in docs {
        let revs = revs_in(alloc, leaves, doc.id.as_str(), &doc.revs)?;
        push_doc(alloc, &mut kept, doc.id.as_str(), revs)?;
    }
    Ok(kept)
}

/// Copies the given documents, but only with the leaves that a response lists as missing. The result omits documents
/// without missing leaves.
pub fn missing_of(
    alloc: Global,
    docs: &[DocLeaves],
    named: &[DocLeaves],
) -> Result<Vec<DocLeaves>, AllocError>
    ensures { IfOk result (λ v. docs_view v.items ≡ docs_where (λ id leaf. names (docs_view named.now) id leaf) (docs_view docs.now)) }
{
    let leaves = leaf_set(alloc, named)?;
    leaves_in(alloc, docs, &leaves)
}

/// Returns the number of leaves of the given documents.
pub(crate) fn leaf_count(docs: &[DocLeaves]) -> u64 {
    let mut count: u64 = 0;
    for doc in docs {
        count = count.saturating_add(doc.revs.len() as u64);
    }
    count
}
