//! Reads and writes the lines that list the leaves of a document.
ghost use Rattle.std.specs.Prelude.{◌≡◌, ◌++◌, IfOk, OnOk, codes, option_and_then, option_map};
ghost use Rattle.std.specs.List.{list_all};
ghost use Rattle.json.specs.Json.{document};
ghost use Rattle.json.specs.Value.{value_view, items_view};
ghost use Rattle.journal_lines.specs.Texts.{is_token, is_token_byte, text_in};
ghost use Rattle.journal_lines.specs.Lists.{leaves_in, leaves_line, token, list_in, leaves_view, named_in, revs_json, revs_text, texts_of};

use crate::text::{cut_at_blank, push_json, text_of};
use json::{Error, Scratch, Value};
use std::alloc::{AllocError, Global};

/// The leaves of a document, with the sequence at which the document has them.
#[derive(Drop)]
pub struct Leaves {
    /// The sequence at which the document has the leaves, or `-` if the sequence is unknown.
    pub seq: String,
    /// The id of the document.
    pub id: String,
    /// The leaf revisions of the document.
    pub revs: Vec<String>,
}

/// Whether a sequence may contain the given byte.
fn is_token_byte(byte: u8) -> bool
    ensures { result ≡ is_token_byte byte }
{
    byte >= 33 && byte <= 126 && byte != b'"' && byte != b'\\'
}

fn are_token_bytes(bytes: &[u8]) -> bool
    ensures { result ≡ list_all is_token_byte bytes.now }
{
    bytes.iter().all(|b| is_token_byte(*b))
}

/// Whether a string is a sequence. A sequence consists of one or more printable ASCII characters, and has no blank,
/// quotation mark or backslash.
pub fn is_token(text: &str) -> bool
    ensures { result ≡ is_token text.now }
{
    let bytes = text.as_bytes();
    if bytes.is_empty() {
        return false;
    }
    are_token_bytes(bytes)
}

/// Returns the strings of a list, or `None` if an item is not a string.
pub(crate) fn revs_of(alloc: Global, items: &[Value<'_>]) -> Result<Option<Vec<String>>, AllocError>
    ensures { IfOk result (λ o. option_map (λ v. texts_of v.items) o ≡ revs_json (items_view items.now)) }
{
    let mut revs = Vec::new(alloc);
    for item in items {
        let Some(rev) = item.as_str() else {
            return Ok(None);
        };
        revs.push(String::from_str(alloc, rev)?)?;
    }
    Ok(Some(revs))
}

/// Returns the document id and the revisions that a JSON list names.
fn named_of(alloc: Global, seq: &str, value: &Value<'_>) -> Result<Option<Leaves>, AllocError>
    ensures { IfOk result (λ o. option_map leaves_view o ≡ named_in seq.now (value_view value.now)) }
{
    let Value::Array(items) = value else {
        return Ok(None);
    };
    let Some(first) = items.first() else {
        return Ok(None);
    };
    let Some(id) = first.as_str() else {
        return Ok(None);
    };
    let Some(revs) = revs_of(alloc, &items[1..])? else {
        return Ok(None);
    };
    let seq = String::from_str(alloc, seq)?;
    let id = String::from_str(alloc, id)?;
    Ok(Some(Leaves { seq, id, revs }))
}

/// Returns the JSON value that a text contains, or `None` if the text is not JSON.
pub fn value_of<'a>(
    alloc: Global,
    scratch: &'a mut Scratch,
    text: &'a str,
) -> Result<Option<Value<'a>>, AllocError>
    ensures { IfOk result (λ o. option_map value_view o ≡ document text.now) }
{
    match Value::parse(alloc, text, scratch) {
        Ok(value) => Ok(Some(value)),
        Err(Error::OutOfMemory) => Err(AllocError),
        Err(_) => Ok(None),
    }
}

fn list_of(
    alloc: Global,
    scratch: &mut Scratch,
    seq: &str,
    list: &str,
) -> Result<Option<Leaves>, AllocError>
    ensures { IfOk result (λ o. option_map leaves_view o ≡ list_in seq.now list.now) }
{
    let Some(value) = value_of(alloc, scratch, list)? else {
        return Ok(None);
    };
    let leaves = named_of(alloc, seq, &value)?;
    Ok(leaves)
}

/// Returns the given bytes as a sequence, or `None` if the bytes are not a sequence.
fn seq_of(bytes: &[u8]) -> Option<&str>
    ensures { option_map (λ s. s.now) result ≡ option_and_then token (text_in bytes.now) }
{
    match text_of(bytes) {
        Some(text) if is_token(text) => Some(text),
        _ => None,
    }
}

/// Parses the rest of a journal line after `state ` or `lacks `, and returns the leaves that the line lists. A valid
/// line has a sequence, a blank and a JSON list after `state ` or `lacks `.
pub(crate) fn leaves_of(
    alloc: Global,
    scratch: &mut Scratch,
    rest: &[u8],
) -> Result<Option<Leaves>, AllocError>
    ensures { IfOk result (λ o. option_map leaves_view o ≡ leaves_in rest.now) }
{
    let Some((seq, list)) = cut_at_blank(rest) else {
        return Ok(None);
    };
    let Some(seq) = seq_of(seq) else {
        return Ok(None);
    };
    let Some(list) = text_of(list) else {
        return Ok(None);
    };
    list_of(alloc, scratch, seq, list)
}

/// Appends revisions as JSON strings, each after a comma.
fn push_revs(alloc: Global, out: &mut Vec<u8>, revs: &[String]) -> Result<(), AllocError>
    ensures { OnOk result (out.new.items ≡ out.old.items ++ revs_text (texts_of revs.now)) }
{
    for rev in revs {
        out.push(b',')?;
        push_json(alloc, out, rev.as_str())?;
    }
    Ok(())
}

/// Appends a line that lists the leaves of a document. The line consists of the keyword `word` (such as `state`), the
/// sequence, and a JSON list of the id and the revisions.
pub fn push_leaves(
    alloc: Global,
    out: &mut Vec<u8>,
    word: &str,
    seq: &str,
    id: &str,
    revs: &[String],
) -> Result<(), AllocError>
    ensures { OnOk result (out.new.items ≡ out.old.items ++ leaves_line word.now seq.now id.now (texts_of revs.now)) }
{
    out.extend_from_slice(word.as_bytes())?;
    out.push(b' ')?;
    out.extend_from_slice(seq.as_bytes())?;
    out.extend_from_slice(b" [".as_slice())?;
    push_json(alloc, out, id)?;
    push_revs(alloc, out, revs)?;
    out.extend_from_slice(b"]\n".as_slice())?;
    Ok(())
}
