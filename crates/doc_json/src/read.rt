//! Reading documents.
ghost use Rattle.std.specs.Prelude.{◌≡◌, Ok, Err, IfOk, IfErr, option_map};
ghost use Rattle.serde_json.specs.View.{view};
ghost use Rattle.json_values.specs.LineView.{line_view};
ghost use Rattle.json_values.specs.Plain.{ArePlain};
ghost use Rattle.doc_json.specs.Answers.{GivesUnlessMemory};
ghost use Rattle.doc_json.specs.DocId.{doc_id_read};
ghost use Rattle.doc_json.specs.DocRead.{doc_read, flag_of, id_of};

use crate::body::plain_body;
use crate::doc::Doc;
use crate::doc_id::{DocId, check_id};
use crate::fault::DocFault;
use crate::json_value::JsonValue;
use crate::members::find_members;
use crate::owned_value::NONE_KNOWN;
use crate::revisions::{read_rev, read_revisions};
use json_values::{LinePart, PlainTexts};
use serde_json::Value;
use std::alloc::Global;

/// Reads a JSON value as a document. The call ignores the members `_conflicts`, `_deleted_conflicts`, `_revs_info` and
/// `_local_seq`.
///
/// # Errors
///
/// Checked in this order:
///
/// - `NotObject`: the value is not an object.
/// - `NoId`: the member `_id` is missing, not a string, or empty.
/// - `ReservedId`: the member `_id` begins with `_` and is not the id of a design document.
/// - `Attachments`: there is a member `_attachments`.
/// - `SpecialMember`: a member that begins with `_` is unknown, or `_deleted` is not a Boolean.
/// - `NoRev`: the member `_rev` is not a revision id, or both `_rev` and `_revisions` are missing.
/// - `BadRevisions`: the member `_revisions` is not an ancestry.
/// - `RevMismatch`: the member `_rev` is not the newest revision of `_revisions`.
/// - `Fraction`: a member without a leading `_` contains, at any depth, a number that is neither an i64 nor a u64.
/// - `Memory`: an allocation failed. The call returns `Memory` only if no other error applies.
pub fn read_doc(alloc: Global, value: &Value) -> Result<Doc, DocFault>
    ensures { GivesUnlessMemory result (doc_read (view value.now)) }
{
    document_of(alloc, value, NONE_KNOWN, 0)
}

/// Reads a JSON value inside a line as a document. The call returns the errors of `read_doc`.
pub fn read_line_doc(alloc: Global, part: &LinePart<'_, '_>) -> Result<Doc, DocFault>
    ensures { GivesUnlessMemory result (doc_read (line_view part.now)) }
{
    document_of(alloc, part.value(), part.plain(), part.long_len())
}

/// Reads a value as a document. The argument `plain` says which strings of the value need no escapes when they are
/// written as JSON. The initial capacity of the body's buffer is at least `room` bytes.
fn document_of<'v, V: JsonValue<'v>>(
    alloc: Global,
    value: &'v V,
    plain: PlainTexts,
    room: usize,
) -> Result<Doc, DocFault>
where
    V::Object: 'v,
    requires order { V.in_order value.now }
    requires plain { ArePlain plain (V.seen value.now) }
    ensures { GivesUnlessMemory result (doc_read (V.seen value.now)) }
{
    let Some(members) = value.as_object() else {
        return Err(DocFault::NotObject);
    };
    let found = find_members::<V>(members);
    let id = read_id(found.id)?;
    if found.attachments.is_some() {
        return Err(DocFault::Attachments);
    }
    if found.has_unknown {
        return Err(DocFault::SpecialMember);
    }
    let deleted = read_flag(found.deleted)?;
    let rev = read_rev(found.rev)?;
    let ancestry = read_revisions(alloc, found.revisions, rev)?;
    if found.has_fraction {
        return Err(DocFault::Fraction);
    }
    let ancestry = ancestry?;
    let id = DocId::of_checked(alloc, id)?;
    let body = plain_body::<V>(alloc, members, plain, room)?;
    Ok(Doc::new(id, ancestry, deleted, body))
}

/// Reads the member `_id`.
fn read_id<'v, V: JsonValue<'v>>(member: Option<&'v V>) -> Result<&'v str, DocFault>
    ensures id { IfOk result (λ text. id_of (option_map (λ v. V.seen v.now) member.entry) ≡ Ok text.now) }
    ensures read { IfOk result (λ text. doc_id_read text.now ≡ Ok text.now) }
    ensures err { IfErr result (λ e. id_of (option_map (λ v. V.seen v.now) member.entry) ≡ Err e) }
{
    let Some(value) = member else {
        return Err(DocFault::NoId);
    };
    let Some(text) = value.as_str() else {
        return Err(DocFault::NoId);
    };
    check_id(text)?;
    Ok(text)
}

/// Reads the member `_deleted`, whose value is false if the member is missing.
fn read_flag<'v, V: JsonValue<'v>>(member: Option<&'v V>) -> Result<bool, DocFault>
    ensures { result ≡ flag_of (option_map (λ v. V.seen v.now) member.entry) }
{
    match member {
        None => Ok(false),
        Some(value) => value.as_bool().ok_or(DocFault::SpecialMember),
    }
}
