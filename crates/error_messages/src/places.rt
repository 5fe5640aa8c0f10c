//! Finds the document, member or databases at fault in a line.
ghost use Rattle.std.specs.Prelude.{OnOk, string_bytes};
ghost use Rattle.error_messages.specs.Told.{AddsSeen};

use crate::texts::{push_named, push_words};
use doc_json::has_fraction;
use json_values::{LineValue, is_same_text};
use std::alloc::AllocError;

/// Appends the part of the line that is at fault (a document, a member or databases), and then a colon. If the
/// document, member or databases that caused the error are unknown, the call appends nothing to `text`.
#[tactic(auto, using(crate::proofs::Seen::seen_none))]
pub(crate) fn push_place(
    text: &mut String,
    name: &str,
    object: &LineValue<'_>,
) -> Result<(), AllocError>
    ensures { OnOk result (AddsSeen (string_bytes text.old) (string_bytes text.new)) }
{
    if !is_same_text("NoDatabase", name)
        && let Some(id) = id_of(object)
    {
        return push_document(text, name, object, id);
    }
    if let Some(db) = text_of(object, "db") {
        return push_database(text, db);
    }
    if let Some(source) = text_of(object, "source") {
        return push_databases(text, object, source);
    }
    Ok(())
}

/// Appends the id of a document, the name of the document's member at fault (if this member is known), and a colon.
fn push_document(
    text: &mut String,
    name: &str,
    object: &LineValue<'_>,
    id: &str,
) -> Result<(), AllocError>
    ensures { OnOk result (AddsSeen (string_bytes text.old) (string_bytes text.new)) }
{
    push_named(text, "document ", id)?;
    push_member(text, name, object)?;
    push_words(text, ": ")
}

/// Appends the name of the document's member at fault, if this member is known.
#[tactic(auto, using(crate::proofs::Seen::seen_none))]
fn push_member(text: &mut String, name: &str, object: &LineValue<'_>) -> Result<(), AllocError>
    ensures { OnOk result (AddsSeen (string_bytes text.old) (string_bytes text.new)) }
{
    match member_at_fault(name, object) {
        Some(member) => push_named(text, ", member ", member),
        None => Ok(()),
    }
}

/// Appends the name of a database and a colon.
fn push_database(text: &mut String, db: &str) -> Result<(), AllocError>
    ensures { OnOk result (AddsSeen (string_bytes text.old) (string_bytes text.new)) }
{
    push_named(text, "database ", db)?;
    push_words(text, ": ")
}

/// Appends `from`, the name of a replication's source, and a colon to the text. If the failed line names a target, the
/// call appends `to` and the target's name before the colon.
fn push_databases(text: &mut String, object: &LineValue<'_>, source: &str) -> Result<(), AllocError>
    ensures { OnOk result (AddsSeen (string_bytes text.old) (string_bytes text.new)) }
{
    push_named(text, "from ", source)?;
    push_target(text, object)?;
    push_words(text, ": ")
}

/// Appends `to` and the name of a replication's target, if the failed line names a target.
#[tactic(auto, using(crate::proofs::Seen::seen_none))]
fn push_target(text: &mut String, object: &LineValue<'_>) -> Result<(), AllocError>
    ensures { OnOk result (AddsSeen (string_bytes text.old) (string_bytes text.new)) }
{
    match text_of(object, "target") {
        Some(target) => push_named(text, " to ", target),
        None => Ok(()),
    }
}

/// Returns the document id in a line, if the id is a string.
fn id_of<'v>(object: &'v LineValue<'_>) -> Option<&'v str> {
    match object.get("doc") {
        Some(doc) => text_of(doc, "_id"),
        None => text_of(object, "id"),
    }
}

/// Returns the value of a member, if the value is a string.
fn text_of<'v>(object: &'v LineValue<'_>, name: &str) -> Option<&'v str> {
    match object.get(name) {
        Some(value) => value.as_str(),
        None => None,
    }
}

/// Returns the name of the member that caused the error, in the line's document or body. Returns `None` if this member
/// is not known.
fn member_at_fault<'v>(name: &str, object: &'v LineValue<'_>) -> Option<&'v str> {
    let (value, is_body) = match object.get("doc") {
        Some(document) => (document, false),
        None => (object.get("body")?, true),
    };
    for entry in value.as_object()? {
        if is_at_fault(name, entry.0, &entry.1, is_body) {
            return Some(entry.0);
        }
    }
    None
}

/// Whether the member `member` of a document causes the error `name`. If `is_body` is false, the document is the line's
/// member `doc`. If `is_body` is true, the line has no `doc`, and the document is the line's member `body`.
fn is_at_fault(name: &str, member: &str, value: &LineValue<'_>, is_body: bool) -> bool {
    if is_same_text("Fraction", name) {
        return has_fraction(value);
    }
    if is_same_text("Attachments", name) {
        return is_same_text("_attachments", member);
    }
    if is_same_text("SpecialMember", name) {
        return is_special(member) && (is_body || is_odd(member, value));
    }
    false
}

/// Whether the name of a member begins with `_`.
fn is_special(member: &str) -> bool {
    member.as_bytes().first() == Some(&b'_')
}

/// Whether a document is rejected because of the given special member (a member whose name begins with `_`). A document
/// is rejected if `_deleted` is not a Boolean, or if a special member is not in the list of docs/PROFILE.md, "What
/// `read_doc` accepts".
fn is_odd(member: &str, value: &LineValue<'_>) -> bool {
    if is_same_text("_deleted", member) {
        return value.as_bool().is_none();
    }
    !is_same_text("_id", member)
        && !is_same_text("_rev", member)
        && !is_same_text("_revisions", member)
        && !is_same_text("_conflicts", member)
        && !is_same_text("_deleted_conflicts", member)
        && !is_same_text("_revs_info", member)
        && !is_same_text("_local_seq", member)
}
