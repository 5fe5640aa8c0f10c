//! Prints the pages of changes that CouchDB returns.
ghost use Rattle.std.specs.Prelude.{◌≡◌, ◌++◌, Bool, None, IfErr, IfOk, IsSomeAnd, OnOk, bytes_eq, codes, map, option_map};
ghost use Rattle.std.specs.List.{list_any};
ghost use Rattle.json.specs.Find.{get};
ghost use Rattle.json.specs.Value.{value_view, items_view};
ghost use Rattle.journal_lines.specs.Lists.{leaves_view, texts_of};
ghost use Rattle.journal_lines.specs.Lists.{each_item};
ghost use Rattle.journal_responses.specs.Pages.{changes_in, each_once, is_plain, is_printed, last_line, page_in, pending_in, rev_in, row_in, row_seq, row_text, rows_text};
ghost use Rattle.journal_responses.specs.Responses.{IsOther, IsSaid};
ghost use Rattle.journal_responses.specs.Stored.{page_text};

use crate::members::{are_digits, seq_at, seq_of};
use crate::said::{Said, said_of};
use itoa::Buffer;
use journal_lines::{Leaves, items_at, push_leaves, text_at};
use json::Value;
use std::alloc::{AllocError, Global};

/// Whether a revision has no ASCII control character.
fn is_plain(text: &str) -> bool
    ensures { result ≡ is_plain text.now }
{
    text.as_bytes().iter().all(|b| *b >= 32 && *b != 127)
}

/// Returns the revision of an item in a row's list of changes.
fn rev_of<'v, 'a>(change: &'v Value<'a>) -> Option<&'a str>
    ensures { option_map (λ s. s.now) result ≡ rev_in (value_view change.now) }
{
    match text_at(change, "rev") {
        Some(rev) if is_plain(rev) => Some(rev),
        _ => None,
    }
}

fn revs_of(alloc: Global, changes: &Vec<Value<'_>>) -> Result<Option<Vec<String>>, AllocError>
    ensures { IfOk result (λ o. option_map (λ v. texts_of v.items) o ≡ each_item rev_in (items_view changes.now.items)) }
{
    let mut revs = Vec::new(alloc);
    for change in changes {
        let Some(rev) = rev_of(change) else {
            return Ok(None);
        };
        revs.push(String::from_str(alloc, rev)?)?;
    }
    Ok(Some(revs))
}

/// Returns the revisions of a row's list of changes, or `None` if the list is empty.
fn changes_of(alloc: Global, changes: &Vec<Value<'_>>) -> Result<Option<Vec<String>>, AllocError>
    ensures { IfOk result (λ o. option_map (λ v. texts_of v.items) o ≡ changes_in (items_view changes.now.items)) }
{
    match revs_of(alloc, changes)? {
        Some(revs) if !revs.is_empty() => Ok(Some(revs)),
        _ => Ok(None),
    }
}

fn has_rev(revs: &[String], rev: &str) -> bool
    ensures { result ≡ list_any (bytes_eq rev.now) (texts_of revs.now) }
{
    for known in revs {
        if rev == known.as_str() {
            return true;
        }
    }
    false
}

/// Returns copies of the given revisions without duplicates.
fn each_once(alloc: Global, revs: &[String]) -> Result<Vec<String>, AllocError>
    ensures { IfOk result (λ v. texts_of v.items ≡ each_once (texts_of revs.now)) }
{
    let mut once = Vec::new(alloc);
    for rev in revs {
        if !has_rev(once.as_slice(), rev.as_str()) {
            once.push(String::from_str(alloc, rev.as_str())?)?;
        }
    }
    Ok(once)
}

/// Returns the sequence of a row of changes, or `-` if the sequence is `null` or missing.
fn row_seq<'v, 'a>(row: &'v Value<'a>) -> Option<&'a str>
    ensures { option_map (λ s. s.now) result ≡ row_seq (get (codes "seq") (value_view row.now)) }
{
    match row.get("seq") {
        None | Some(Value::Null) => Some("-"),
        Some(seq) => seq_of(seq),
    }
}

/// Returns the sequence, the document id and the leaves of a row of changes.
fn row_of(alloc: Global, row: &Value<'_>) -> Result<Option<Leaves>, AllocError>
    ensures { IfOk result (λ o. option_map leaves_view o ≡ row_in (value_view row.now)) }
{
    let Some(id) = text_at(row, "id") else {
        return Ok(None);
    };
    let Some(seq) = row_seq(row) else {
        return Ok(None);
    };
    let Some(changes) = items_at(row, "changes") else {
        return Ok(None);
    };
    let Some(revs) = changes_of(alloc, changes)? else {
        return Ok(None);
    };
    let revs = each_once(alloc, revs.as_slice())?;
    let seq = String::from_str(alloc, seq)?;
    let id = String::from_str(alloc, id)?;
    Ok(Some(Leaves { seq, id, revs }))
}

fn rows_of(alloc: Global, items: &Vec<Value<'_>>) -> Result<Option<Vec<Leaves>>, AllocError>
    ensures { IfOk result (λ o. option_map (λ v. map leaves_view v.items) o ≡ each_item row_in (items_view items.now.items)) }
{
    let mut rows = Vec::new(alloc);
    for item in items {
        let Some(row) = row_of(alloc, item)? else {
            return Ok(None);
        };
        rows.push(row)?;
    }
    Ok(Some(rows))
}

/// Whether a row of changes is printed as a journal's `state` line. If `several` is true, only rows of changes with two
/// or more leaves are printed.
fn is_printed(several: bool, row: &Leaves) -> bool
    ensures { result ≡ is_printed several (leaves_view row.now) }
{
    if several { row.revs.len() >= 2 } else { true }
}

/// Appends the journal's `state` line for a row of changes, unless `several` is true and the row has fewer than two
/// leaves.
fn push_row(
    alloc: Global,
    text: &mut Vec<u8>,
    several: bool,
    row: &Leaves,
) -> Result<(), AllocError>
    ensures { OnOk result (text.new.items ≡ text.old.items ++ row_text several (leaves_view row.now)) }
{
    if !is_printed(several, row) {
        return Ok(());
    }
    let revs = row.revs.as_slice();
    push_leaves(
        alloc,
        text,
        "state",
        row.seq.as_str(),
        row.id.as_str(),
        revs,
    )
}

fn push_rows(
    alloc: Global,
    text: &mut Vec<u8>,
    several: bool,
    rows: &[Leaves],
) -> Result<(), AllocError>
    ensures { OnOk result (text.new.items ≡ text.old.items ++ rows_text several (map leaves_view rows.now)) }
{
    for row in rows {
        push_row(alloc, text, several, row)?;
    }
    Ok(())
}

/// Returns the number of changed documents after a page, or `-` if the response has no such number.
fn pending_of<'v, 'a>(value: &'v Value<'a>) -> Option<&'a str>
    ensures { option_map (λ s. s.now) result ≡ pending_in (get (codes "pending") (value_view value.now)) }
{
    match value.get("pending") {
        None | Some(Value::Null) => Some("-"),
        Some(Value::Number(text)) if are_digits(text.as_bytes()) => Some(*text),
        _ => None,
    }
}

/// A page of changes in parsed form.
#[derive(Drop)]
struct Page {
    rows: Vec<Leaves>,
    last: String,
    pending: String,
}

/// Returns the page that a JSON value describes. Each row of a page has a sequence, an id and at least one revision.
fn read_page(alloc: Global, value: &Value<'_>) -> Result<Option<Page>, AllocError>
    ensures { IfOk result (λ o. (several : Bool) → option_map (page_text several) o ≡ page_in several (value_view value.now)) }
{
    let Some(items) = items_at(value, "results") else {
        return Ok(None);
    };
    let Some(rows) = rows_of(alloc, items)? else {
        return Ok(None);
    };
    let Some(last) = seq_at(value, "last_seq") else {
        return Ok(None);
    };
    let Some(pending) = pending_of(value) else {
        return Ok(None);
    };
    let last = String::from_str(alloc, last)?;
    let pending = String::from_str(alloc, pending)?;
    Ok(Some(Page {
        rows,
        last,
        pending,
    }))
}

/// Appends the last line of a page's text. The line has the number of rows, the last sequence, and the number of
/// documents after the page.
fn push_last(text: &mut Vec<u8>, rows: usize, last: &str, pending: &str) -> Result<(), AllocError>
    ensures { OnOk result (text.new.items ≡ text.old.items ++ last_line rows last.now pending.now) }
{
    let mut digits = Buffer::new();
    text.extend_from_slice(b"page ".as_slice())?;
    text.extend_from_slice(digits.format(rows).as_bytes())?;
    text.push(b' ')?;
    text.extend_from_slice(last.as_bytes())?;
    text.push(b' ')?;
    text.extend_from_slice(pending.as_bytes())?;
    text.push(b'\n')?;
    Ok(())
}

/// Appends a journal's `state` line for each row of a page, and then the last line of the page's text. If `several` is
/// true, appends `state` lines only for rows with two or more leaves.
fn push_page(
    alloc: Global,
    text: &mut Vec<u8>,
    several: bool,
    page: &Page,
) -> Result<(), AllocError>
    ensures { OnOk result (text.new.items ≡ text.old.items ++ page_text several page.now) }
{
    push_rows(alloc, text, several, page.rows.as_slice())?;
    push_last(
        text,
        page.rows.len(),
        page.last.as_str(),
        page.pending.as_str(),
    )
}

/// Appends a journal's `state` line for each row of a page of changes. If `several` is true, appends `state` lines only
/// for rows with two or more leaves. The last line of a page has the number of rows, the last sequence, and the number
/// of documents after the page.
///
/// # Errors
///
/// Returns `Error` if the value is an error of CouchDB, or `Other` if the value is neither a page nor an error. Returns
/// `Memory` if an allocation failed. After an error, a part of the page's output may be in the buffer `text`.
pub fn page_of(
    alloc: Global,
    text: &mut Vec<u8>,
    several: bool,
    value: &Value<'_>,
) -> Result<(), Said>
    ensures ok { OnOk result (IsSomeAnd (page_in several (value_view value.now)) (λ page. text.new.items ≡ text.old.items ++ page)) }
    ensures err { IfErr result (λ said. IsOther said → page_in several (value_view value.now) ≡ None) }
    ensures said { IfErr result (IsSaid (value_view value.now)) }
{
    let Some(page) = read_page(alloc, value)? else {
        return Err(said_of(alloc, value));
    };
    push_page(alloc, text, several, &page)?;
    Ok(())
}
