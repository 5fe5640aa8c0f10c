//! Functions for the error rows in the responses to a transfer, and for the leaves that these rows refuse.
ghost use Rattle.std.specs.Prelude.{◌≡◌, ◌+◌, ◌++◌, IfOk, OnOk, option_map, length, string_bytes};
ghost use Rattle.relay_core.specs.Views.{texts_of, docs_view, row_error_view, row_errors_view};
ghost use Rattle.relay_core.specs.Leaves.{is_refusal, is_about, are_about, refusals_in, are_all_about, cover, too_large_row, too_large_rows, leaf_count};

use crate::messages::{DocLeaves, RefusedLeaf, RowError, Unaccounted};
use std::alloc::{AllocError, Global};

/// Whether an error row means that the target refuses the document: the row's error is `forbidden` or `unauthorized`.
fn is_refusal(row: &RowError) -> bool
    ensures { result ≡ is_refusal (row_error_view row.now) }
{
    row.error.as_str() == "forbidden" || row.error.as_str() == "unauthorized"
}

/// Sorts the rows of a response: appends rows that refuse a document to `refused`, and all other rows to `others`.
pub(crate) fn sort_rows(
    rows: Vec<RowError>,
    refused: &mut Vec<RowError>,
    others: &mut Vec<RowError>,
) -> Result<(), AllocError>
    ensures { OnOk result (row_errors_view refused.new.items ≡ row_errors_view refused.old.items ++ refusals_in (row_errors_view rows.items)) }
{
    for row in rows {
        if is_refusal(&row) {
            refused.push(row)?;
        } else {
            others.push(row)?;
        }
    }
    Ok(())
}

/// Creates the error row for a leaf whose document is too large for the target.
fn too_large_row(alloc: Global, id: &str, leaf: &str) -> Result<RowError, AllocError>
    ensures { IfOk result (λ r. row_error_view r ≡ too_large_row id.now leaf.now) }
{
    Ok(RowError {
        id: String::from_str(alloc, id)?,
        rev: Some(String::from_str(alloc, leaf)?),
        error: String::from_str(alloc, "too_large")?,
        reason: String::from_str(alloc, "status 413")?,
    })
}

/// Appends an error row for each leaf of a document that is too large for the target.
pub(crate) fn push_too_large(
    alloc: Global,
    refused: &mut Vec<RowError>,
    doc: &DocLeaves,
) -> Result<(), AllocError>
    ensures { OnOk result (row_errors_view refused.new.items ≡ row_errors_view refused.old.items ++ too_large_rows (string_bytes doc.now.id) (texts_of doc.now.revs.items)) }
{
    for rev in &doc.revs {
        refused.push(too_large_row(alloc, doc.id.as_str(), rev.as_str())?)?;
    }
    Ok(())
}

/// Whether an error row concerns a leaf. `rev` is the row's revision, if the row has one. A row without a revision
/// concerns every leaf of the row's document.
fn is_about(rev: &Option<String>, leaf: &str) -> bool
    ensures { result ≡ is_about (option_map string_bytes rev.now) leaf.now }
{
    match rev {
        Some(rev) => rev.as_str() == leaf,
        None => true,
    }
}

/// Whether an error row in the list concerns the given leaf of a document.
fn are_about(rows: &[RowError], id: &str, leaf: &str) -> bool
    ensures { result ≡ are_about (row_errors_view rows.now) id.now leaf.now }
{
    for row in rows {
        if row.id.as_str() == id && is_about(&row.rev, leaf) {
            return true;
        }
    }
    false
}

/// Whether each leaf in `revs`, of the document `id`, has an error row in `rows`.
fn are_all_about(rows: &[RowError], id: &str, revs: &Vec<String>) -> bool
    ensures { result ≡ are_all_about (row_errors_view rows.now) id.now (texts_of revs.now.items) }
{
    for rev in revs {
        if !are_about(rows, id, rev.as_str()) {
            return false;
        }
    }
    true
}

/// Whether the error rows `rows` have a row for each leaf of the documents `docs`.
pub(crate) fn cover(rows: &[RowError], docs: &[DocLeaves]) -> bool
    ensures { result ≡ cover (row_errors_view rows.now) (docs_view docs.now) }
{
    for doc in docs {
        if !are_all_about(rows, doc.id.as_str(), &doc.revs) {
            return false;
        }
    }
    true
}

/// Returns a document's first error row that names the given leaf. If no row names the leaf, returns the document's
/// first row without a revision.
fn row_about<'a>(rows: &'a [RowError], id: &str, leaf: &str) -> Option<&'a RowError> {
    let mut general = None;
    for row in rows {
        if row.id.as_str() == id {
            match &row.rev {
                Some(rev) => {
                    if rev.as_str() == leaf {
                        return Some(row);
                    }
                }
                None => {
                    if general.is_none() {
                        general = Some(row);
                    }
                }
            }
        }
    }
    general
}

/// Creates a `RefusedLeaf` with the error and the reason from the leaf's error row.
fn refused_leaf(
    alloc: Global,
    rows: &[RowError],
    id: &str,
    leaf: &str,
) -> Result<RefusedLeaf, AllocError> {
    let (error, reason) = match row_about(rows, id, leaf) {
        Some(row) => (row.error.as_str(), row.reason.as_str()),
        None => ("", ""),
    };
    Ok(RefusedLeaf {
        id: String::from_str(alloc, id)?,
        rev: String::from_str(alloc, leaf)?,
        error: String::from_str(alloc, error)?,
        reason: String::from_str(alloc, reason)?,
    })
}

fn push_refused(
    alloc: Global,
    leaves: &mut Vec<RefusedLeaf>,
    rows: &[RowError],
    doc: &DocLeaves,
) -> Result<(), AllocError>
    ensures { OnOk result (length leaves.new.items ≡ length leaves.old.items + length doc.now.revs.items) }
{
    for rev in &doc.revs {
        leaves.push(refused_leaf(alloc, rows, doc.id.as_str(), rev.as_str())?)?;
    }
    Ok(())
}

/// Returns each leaf of the given documents as a refused leaf.
pub(crate) fn refused_leaves(
    alloc: Global,
    rows: &[RowError],
    docs: &[DocLeaves],
) -> Result<Vec<RefusedLeaf>, AllocError>
    ensures { IfOk result (λ v. length v.items ≡ leaf_count (docs_view docs.now)) }
{
    let mut leaves = Vec::new(alloc);
    for doc in docs {
        push_refused(alloc, &mut leaves, rows, doc)?;
    }
    Ok(leaves)
}

/// Counts a document's leaves without an error row in `rows`, and returns the count and the first of these leaves.
fn first_open<'a>(rows: &[RowError], doc: &'a DocLeaves) -> (u64, Option<&'a str>) {
    let mut count: u64 = 0;
    let mut first = None;
    for rev in &doc.revs {
        if !are_about(rows, doc.id.as_str(), rev.as_str()) {
            count = count.saturating_add(1);
            if first.is_none() {
                first = Some(rev.as_str());
            }
        }
    }
    (count, first)
}

/// Finds the document's first error row in `others`, and returns the row's error and reason.
fn error_of(
    alloc: Global,
    others: &[RowError],
    id: &str,
) -> Result<Option<(String, String)>, AllocError> {
    for row in others {
        if row.id.as_str() == id {
            let error = String::from_str(alloc, row.error.as_str())?;
            let reason = String::from_str(alloc, row.reason.as_str())?;
            return Ok(Some((error, reason)));
        }
    }
    Ok(None)
}

/// Counts the leaves in `docs` without an error row in `refused`, and returns the count and the first of these leaves.
/// If `others` has error rows about this leaf's document, the result also has the error and the reason of the first
/// such row.
pub(crate) fn unaccounted(
    alloc: Global,
    refused: &[RowError],
    others: &[RowError],
    docs: &[DocLeaves],
) -> Result<Unaccounted, AllocError> {
    let mut count: u64 = 0;
    let mut found: Option<(&str, &str)> = None;
    for doc in docs {
        let (open, first) = first_open(refused, doc);
        count = count.saturating_add(open);
        if found.is_none() {
            found = first.map(|leaf| (doc.id.as_str(), leaf));
        }
    }
    let (id, leaf) = found.unwrap_or(("", ""));
    Ok(Unaccounted {
        id: String::from_str(alloc, id)?,
        rev: String::from_str(alloc, leaf)?,
        error: error_of(alloc, others, id)?,
        count,
    })
}
