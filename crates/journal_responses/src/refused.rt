//! Prints the documents that a server refused to store.
ghost use Rattle.std.specs.Prelude.{◌≡◌, ◌++◌, IfErr, IfOk, IsSomeAnd, None, OnOk, codes, option_map};
ghost use Rattle.json.specs.Find.{as_array};
ghost use Rattle.json.specs.Value.{value_view, items_view};
ghost use Rattle.journal_responses.specs.Refusals.{any_refused, entry_text, is_refused, refused_line, refused_text, word_at};
ghost use Rattle.journal_responses.specs.Responses.{IsOther, IsSaid};

use crate::said::{Said, said_of};
use journal_lines::{items_of, push_json, text_at};
use json::Value;
use std::alloc::{AllocError, Global};

/// Returns an object's member as a string, which is empty if the member is missing or is not a string.
fn word_at<'v, 'a>(value: &'v Value<'a>, name: &str) -> &'a str
    ensures { result.now ≡ word_at name.now (value_view value.now) }
{
    match text_at(value, name) {
        Some(text) => text,
        None => "",
    }
}

/// Appends the line of a document that a server rejected.
fn push_refused(alloc: Global, text: &mut Vec<u8>, entry: &Value<'_>) -> Result<(), AllocError>
    ensures { OnOk result (text.new.items ≡ text.old.items ++ refused_line (value_view entry.now)) }
{
    text.extend_from_slice(b"refused ".as_slice())?;
    push_json(alloc, text, word_at(entry, "id"))?;
    text.push(b' ')?;
    push_json(alloc, text, word_at(entry, "rev"))?;
    text.push(b' ')?;
    push_json(alloc, text, word_at(entry, "error"))?;
    text.push(b' ')?;
    push_json(alloc, text, word_at(entry, "reason"))?;
    text.push(b'\n')?;
    Ok(())
}

/// Whether an entry of a `_bulk_docs` response reports an error.
fn is_refused(entry: &Value<'_>) -> bool
    ensures { result ≡ is_refused (value_view entry.now) }
{
    entry.get("error").is_some()
}

/// Appends a line for an entry of a `_bulk_docs` response, if the entry reports an error. Returns whether the call
/// appended a line.
fn push_entry(alloc: Global, text: &mut Vec<u8>, entry: &Value<'_>) -> Result<bool, AllocError>
    ensures text { OnOk result (text.new.items ≡ text.old.items ++ entry_text (value_view entry.now)) }
    ensures refused { IfOk result (λ refused. refused ≡ is_refused (value_view entry.now)) }
{
    if !is_refused(entry) {
        return Ok(false);
    }
    push_refused(alloc, text, entry)?;
    Ok(true)
}

/// Appends a line for each entry of a `_bulk_docs` response that reports an error. Returns whether the call appended a
/// line.
fn push_entries(
    alloc: Global,
    text: &mut Vec<u8>,
    entries: &Vec<Value<'_>>,
) -> Result<bool, AllocError>
    ensures text { OnOk result (text.new.items ≡ text.old.items ++ refused_text (items_view entries.now.items)) }
    ensures refused { IfOk result (λ refused. refused ≡ any_refused (items_view entries.now.items)) }
{
    let mut refused = false;
    for entry in entries {
        let more = push_entry(alloc, text, entry)?;
        refused = refused || more;
    }
    Ok(refused)
}

/// Appends a line for each document that the server rejected according to a `_bulk_docs` response. Returns whether the
/// call appended a line.
///
/// # Errors
///
/// Returns `Error` if the value is an error of CouchDB, or `Other` if the value is neither a list nor an error. Returns
/// `Memory` if an allocation failed.
pub fn refused_of(alloc: Global, text: &mut Vec<u8>, value: &Value<'_>) -> Result<bool, Said>
    ensures ok { IfOk result (λ refused. IsSomeAnd (as_array (value_view value.now)) (λ entries.
        (text.new.items ≡ text.old.items ++ refused_text entries) × (refused ≡ any_refused entries))) }
    ensures err { IfErr result (λ said. IsOther said → as_array (value_view value.now) ≡ None) }
    ensures said { IfErr result (IsSaid (value_view value.now)) }
{
    let Some(entries) = items_of(value) else {
        return Err(said_of(alloc, value));
    };
    let refused = push_entries(alloc, text, entries)?;
    Ok(refused)
}
