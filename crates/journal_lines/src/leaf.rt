//! Parses the lines that have a document.
ghost use Rattle.std.specs.Prelude.{◌≡◌, ◌-◌, IfOk, codes, option_and_then, option_map, string_bytes};
ghost use Rattle.json.specs.Find.{get};
ghost use Rattle.json.specs.Value.{value_view};
ghost use Rattle.journal_lines.specs.Lists.{texts_of};
ghost use Rattle.journal_lines.specs.Leafs.{ancestry_by, ancestry_in, ancestry_view, head_in, head_view, is_deleted, knows_at, knows_rev, leaf_view, line_head, rev_at};

use crate::leaves::{revs_of, value_of};
use crate::members::{items_at, number_at, text_at};
use crate::text::text_of;
use itoa::Buffer;
use json::{Scratch, Value};
use std::alloc::{AllocError, Global};

/// The head of a document: the document's id, revision and known ancestry, and whether the document is deleted.
#[derive(Drop)]
pub struct Leaf {
    /// The id of the document.
    pub id: String,
    /// The revision of the document.
    pub rev: String,
    /// The generation of the revision.
    pub start: u64,
    /// The signatures (ids without the generation) of the revision and of its ancestors, newest first.
    pub names: Vec<String>,
    /// Whether the document's revision is deleted.
    pub deleted: bool,
}

/// Returns the revision with the given generation and signature.
pub fn rev_of(alloc: Global, generation: u64, name: &str) -> Result<String, AllocError>
    ensures { IfOk result (λ rev. string_bytes rev ≡ rev_at generation name.now) }
{
    let mut digits = Buffer::new();
    let mut rev = String::from_str(alloc, digits.format(generation))?;
    rev.push_str("-")?;
    rev.push_str(name)?;
    Ok(rev)
}

/// Whether a revision is in an ancestry. The argument `start` is the generation of the ancestry's newest revision. The
/// list `names` has the signatures of the ancestry's revisions, newest first.
fn is_in(alloc: Global, rev: &str, start: u64, names: &[String]) -> Result<bool, AllocError>
    ensures { IfOk result (λ is_in. is_in ≡ knows_at rev.now start (texts_of names.now)) }
{
    let mut number = start;
    for name in names {
        let known = rev_of(alloc, number, name.as_str())?;
        if rev == known.as_str() {
            return Ok(true);
        }
        number = number.saturating_sub(1);
    }
    Ok(false)
}

impl Leaf {
    /// Returns the generation of the ancestry's revision at the given index. The newest revision has index 0.
    pub fn generation(&self, index: usize) -> u64
        ensures { result ≡ self.now.start - index }
    {
        self.start.saturating_sub(index as u64)
    }

    /// Whether the given revision is the leaf or one of the leaf's ancestors.
    pub fn knows(&self, alloc: Global, rev: &str) -> Result<bool, AllocError>
        ensures { IfOk result (λ knows. knows ≡ knows_rev (leaf_view self.now) rev.now) }
    {
        if rev == self.rev.as_str() {
            return Ok(true);
        }
        is_in(alloc, rev, self.start, self.names.as_slice())
    }
}

fn ancestry_in(
    alloc: Global,
    revisions: &Value<'_>,
) -> Result<Option<(u64, Vec<String>)>, AllocError>
    ensures { IfOk result (λ o. option_map ancestry_view o ≡ ancestry_in (value_view revisions.now)) }
{
    let Some(start) = number_at(revisions, "start") else {
        return Ok(None);
    };
    let Some(items) = items_at(revisions, "ids") else {
        return Ok(None);
    };
    match revs_of(alloc, items.as_slice())? {
        Some(names) => Ok(Some((start, names))),
        None => Ok(None),
    }
}

/// Returns the newest generation and the signatures from a document's `_revisions`. If the document lacks this member,
/// returns 0 and an empty list. Returns `None` if the member is invalid.
fn ancestry_of(alloc: Global, doc: &Value<'_>) -> Result<Option<(u64, Vec<String>)>, AllocError>
    ensures { IfOk result (λ o. option_map ancestry_view o ≡ ancestry_by (get (codes "_revisions") (value_view doc.now))) }
{
    match doc.get("_revisions") {
        Some(revisions) => ancestry_in(alloc, revisions),
        None => Ok(Some((0, Vec::new(alloc)))),
    }
}

/// Whether a document's member `_deleted` is `true`.
fn is_deleted(doc: &Value<'_>) -> bool
    ensures { result ≡ is_deleted (value_view doc.now) }
{
    match doc.get("_deleted") {
        Some(Value::Bool(deleted)) => *deleted,
        _ => false,
    }
}

/// Returns the id, the revision, the ancestry and the deleted flag of a document, or `None` if the value `doc` is not a
/// document.
fn head_of(alloc: Global, doc: &Value<'_>) -> Result<Option<Leaf>, AllocError>
    ensures { IfOk result (λ o. option_map head_view o ≡ head_in (value_view doc.now)) }
{
    let Some(id) = text_at(doc, "_id") else {
        return Ok(None);
    };
    let Some(rev) = text_at(doc, "_rev") else {
        return Ok(None);
    };
    let Some((start, names)) = ancestry_of(alloc, doc)? else {
        return Ok(None);
    };
    let id = String::from_str(alloc, id)?;
    let rev = String::from_str(alloc, rev)?;
    Ok(Some(Leaf {
        id,
        rev,
        start,
        names,
        deleted: is_deleted(doc),
    }))
}

/// Reads a document's id, revision, ancestry and deleted flag from the member `doc` of a JSON value. Returns `None` if
/// the member is missing or is not a document.
fn head_at(alloc: Global, value: &Value<'_>) -> Result<Option<Leaf>, AllocError>
    ensures { IfOk result (λ o. option_map head_view o ≡ option_and_then head_in (get (codes "doc") (value_view value.now))) }
{
    match value.get("doc") {
        Some(doc) => head_of(alloc, doc),
        None => Ok(None),
    }
}

/// Reads a document's id, revision, ancestry and deleted flag from the member `doc` of a journal line. Returns `None`
/// if the line is not JSON with a document in the member `doc`.
pub(crate) fn leaf_of(
    alloc: Global,
    scratch: &mut Scratch,
    line: &[u8],
) -> Result<Option<Leaf>, AllocError>
    ensures { IfOk result (λ o. option_map head_view o ≡ line_head line.now) }
{
    let Some(text) = text_of(line) else {
        return Ok(None);
    };
    let Some(value) = value_of(alloc, scratch, text)? else {
        return Ok(None);
    };
    let head = head_at(alloc, &value)?;
    Ok(head)
}
