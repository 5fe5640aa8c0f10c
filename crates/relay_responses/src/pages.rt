//! Parses the pages of changes in responses.
ghost use Rattle.std.specs.Prelude.{◌≡◌, IfOk, OnOk, codes, map, option_map, string_bytes, filter};
ghost use Rattle.json.specs.Value.{value_view, items_view};
ghost use Rattle.json.specs.Find.{get};
ghost use Rattle.relay_core.specs.Views.{texts_of, doc_view, docs_view, page_view};
ghost use Rattle.std.specs.List.{list_all};
ghost use Rattle.relay_responses.specs.Read.{each_item};
ghost use Rattle.relay_responses.specs.Maps.{texts_in, texts_or_none, docs_in};
ghost use Rattle.relay_responses.specs.Pages.{is_plain_byte, plain, rev_in, some_leaf, row_in, add_revs, add_row, merged, pending_of, is_zero, page_in};

use crate::values::{copied, items_at, sequence_at, text_at};
use indexmap::{IndexMap, IndexSet};
use json::Value;
use relay_core::{ChangesPage, DocLeaves};
use std::alloc::{AllocError, Global};

/// The leaf revisions of documents, by document id.
type Docs<'a> = IndexMap<&'a str, IndexSet<&'a str>>;

/// Whether the given bytes have no ASCII control character.
fn are_plain(bytes: &[u8]) -> bool
    ensures { result ≡ list_all is_plain_byte bytes.now }
{
    bytes.iter().all(|b| *b >= 32 && *b != 127)
}

/// Returns a string, or `None` if the string has an ASCII control character. A string without control characters can be
/// printed in one line.
fn plain<'a>(text: &'a str) -> Option<&'a str>
    ensures { option_map (λ s. s.now) result ≡ plain text.now }
{
    if are_plain(text.as_bytes()) {
        Some(text)
    } else {
        None
    }
}

/// Returns the revision of an item in the list `changes` of a row.
fn rev_of<'v, 'a>(change: &'v Value<'a>) -> Option<&'a str>
    ensures { option_map (λ s. s.now) result ≡ rev_in (value_view change.now) }
{
    match text_at(change, "rev") {
        Some(rev) => plain(rev),
        None => None,
    }
}

fn revs_of(alloc: Global, changes: &Vec<Value<'_>>) -> Result<Option<Vec<String>>, AllocError>
    ensures { IfOk result (λ o. option_map (λ v. texts_of v.items) o
        ≡ each_item rev_in (items_view changes.now.items)) }
{
    let mut revs = Vec::new(alloc);
    for change in changes {
        let Some(rev) = rev_of(change) else {
            return Ok(None);
        };
        revs.push(String::from_str(alloc, rev)?)?;
    }
    Ok(Some(revs))
}

/// Returns the document id and the leaf revisions of a row in a page of changes.
fn row_of(alloc: Global, row: &Value<'_>) -> Result<Option<DocLeaves>, AllocError>
    ensures { IfOk result (λ o. option_map doc_view o ≡ row_in (value_view row.now)) }
{
    let Some(id) = text_at(row, "id") else {
        return Ok(None);
    };
    let Some(changes) = items_at(row, "changes") else {
        return Ok(None);
    };
    let Some(revs) = revs_of(alloc, changes)? else {
        return Ok(None);
    };
    if revs.is_empty() {
        return Ok(None);
    }
    let id = String::from_str(alloc, id)?;
    Ok(Some(DocLeaves { id, revs }))
}

fn rows_of(alloc: Global, items: &Vec<Value<'_>>) -> Result<Option<Vec<DocLeaves>>, AllocError>
    ensures { IfOk result (λ o. option_map (λ v. docs_view v.items) o ≡ each_item row_in (items_view items.now.items)) }
{
    let mut rows = Vec::new(alloc);
    for item in items {
        let Some(row) = row_of(alloc, item)? else {
            return Ok(None);
        };
        rows.push(row)?;
    }
    Ok(Some(rows))
}

/// Adds the given revisions to a set of revisions.
fn add_revs<'a>(known: &mut IndexSet<&'a str>, revs: &'a [String]) -> Result<(), AllocError>
    ensures { OnOk result (texts_in known.new.keys ≡ add_revs (texts_in known.old.keys) (texts_of revs.now)) }
{
    for rev in revs {
        known.insert(rev.as_str())?;
    }
    Ok(())
}

fn known_or_empty<'a>(alloc: Global, known: Option<IndexSet<&'a str>>) -> IndexSet<&'a str>
    ensures { texts_in result.keys ≡ texts_or_none known.entry }
{
    match known {
        Some(known) => known,
        None => IndexSet::new(alloc),
    }
}

/// Adds the leaves in a row to the known leaves of the row's document.
fn add_row<'a>(alloc: Global, docs: &mut Docs<'a>, row: &'a DocLeaves) -> Result<(), AllocError>
    ensures { OnOk result (docs_in docs.new.entries ≡ add_row (docs_in docs.old.entries) (doc_view row.now)) }
{
    let known = docs.insert(row.id.as_str(), IndexSet::new(alloc))?;
    let mut revs = known_or_empty(alloc, known);
    add_revs(&mut revs, row.revs.as_slice())?;
    docs.insert(row.id.as_str(), revs)?;
    Ok(())
}

fn copied_revs(alloc: Global, revs: &[&str]) -> Result<Vec<String>, AllocError>
    ensures { IfOk result (λ v. texts_of v.items ≡ texts_in revs.now) }
{
    let mut copies = Vec::with_capacity(alloc, revs.len())?;
    for rev in revs {
        copies.push(String::from_str(alloc, rev)?)?;
    }
    Ok(copies)
}

fn copied_doc(alloc: Global, id: &str, revs: &IndexSet<&str>) -> Result<DocLeaves, AllocError>
    ensures { IfOk result (λ d. doc_view d ≡ (id.now, texts_in revs.now.keys)) }
{
    let id = String::from_str(alloc, id)?;
    let revs = copied_revs(alloc, revs.as_slice())?;
    Ok(DocLeaves { id, revs })
}

fn copied_docs(alloc: Global, docs: &Docs<'_>) -> Result<Vec<DocLeaves>, AllocError>
    ensures { IfOk result (λ v. docs_view v.items ≡ docs_in docs.now.entries) }
{
    let mut copies = Vec::with_capacity(alloc, docs.len())?;
    for i in 0..docs.len() {
        let Some((id, revs)) = docs.get_index(i) else {
            return Ok(copies);
        };
        copies.push(copied_doc(alloc, id, revs)?)?;
    }
    Ok(copies)
}

/// Returns one entry for each document that the rows name, with the leaves of all rows of this document.
fn merged(alloc: Global, rows: &[DocLeaves]) -> Result<Vec<DocLeaves>, AllocError>
    ensures { IfOk result (λ v. docs_view v.items ≡ merged (docs_view rows.now)) }
{
    let mut docs = IndexMap::new(alloc);
    for row in rows {
        add_row(alloc, &mut docs, row)?;
    }
    copied_docs(alloc, &docs)
}

/// Returns the member `pending` of a page, which is the number of changed documents after the page. Returns
/// `Some(None)` if `pending` is missing or null, and `None` if `pending` has another type.
fn pending_of(alloc: Global, value: &Value<'_>) -> Result<Option<Option<String>>, AllocError>
    ensures { IfOk result (λ o. option_map (option_map string_bytes) o
        ≡ pending_of (get (codes "pending") (value_view value.now))) }
{
    match value.get("pending") {
        None | Some(Value::Null) => Ok(Some(None)),
        Some(Value::Number(text)) => {
            let text = String::from_str(alloc, text)?;
            Ok(Some(Some(text)))
        }
        _ => Ok(None),
    }
}

/// Whether a page says that no documents remain after the page.
fn is_zero(pending: &Option<String>) -> bool
    ensures { result ≡ is_zero (option_map string_bytes pending.now) }
{
    match pending {
        Some(pending) => pending.as_str() == "0",
        None => false,
    }
}

/// Returns the page of changes that a JSON value describes, or `None` if the value is not a page.
pub(crate) fn page_of(alloc: Global, value: &Value<'_>) -> Result<Option<ChangesPage>, AllocError>
    ensures { IfOk result (λ o. option_map page_view o ≡ page_in (value_view value.now)) }
{
    let Some(items) = items_at(value, "results") else {
        return Ok(None);
    };
    let Some(rows) = rows_of(alloc, items)? else {
        return Ok(None);
    };
    let Some(last_seq) = sequence_at(value, "last_seq") else {
        return Ok(None);
    };
    let Some(pending) = pending_of(alloc, value)? else {
        return Ok(None);
    };
    let rows = merged(alloc, rows.as_slice())?;
    let last_seq = String::from_str(alloc, last_seq)?;
    let is_last = is_zero(&pending);
    Ok(Some(ChangesPage {
        rows,
        last_seq,
        is_last,
        pending,
    }))
}
