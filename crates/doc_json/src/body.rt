//! The bodies of documents.
ghost use Rattle.std.specs.Prelude.{◌≡◌, false, IfOk};
ghost use Rattle.std.specs.Arc.{arc_slice_items};
ghost use Rattle.serde_json.specs.Data.{object};
ghost use Rattle.serde_json.specs.View.{view};
ghost use Rattle.serde_json.specs.Written.{has_float, members_have_float};
ghost use Rattle.json_values.specs.LineView.{line_view};
ghost use Rattle.json_values.specs.Plain.{AreMembersPlain, ArePlain};
ghost use Rattle.doc_json.specs.Answers.{GivesUnlessMemory};
ghost use Rattle.doc_json.specs.Members.{plain_members};
ghost use Rattle.doc_json.specs.Body.{body_read, body_text, IsWritten};

use crate::compact::{plain_text, value_text};
use crate::fault::DocFault;
use crate::json_value::JsonValue;
use crate::members::has_special;
use crate::owned_value::NONE_KNOWN;
use json_values::{LinePart, PlainTexts};
use serde_json::Value;
use std::alloc::{AllocError, Global};
use std::marker::Model;
use std::sync::ArcSlice;

/// The body of a document: a JSON object in compact serialized form. No member of the object begins with `_`, and each
/// number in the object is an i64 or a u64. Copies of a body share its bytes.
#[derive(Debug)]
pub struct Body {
    text: ArcSlice<u8>,
}

// `Drop` is implemented by hand because the derived code would be proved again in each crate that owns a `Body`
// (docs/DECISIONS.md, "Letting values go").
impl Drop for Body {
    fn drop(self) {
        let Body { text: _ } = self;
    }
}

impl Model for Body {
    ghost use Rattle.std.specs.Prelude.{List, ℕ};

    ghost Value = { List ℕ };

    ghost use Rattle.std.specs.Arc.{arc_slice_items};
    ghost use Rattle.doc_json.specs.Body.{IsBody};

    ghost view = { λ a. arc_slice_items a.text };

    ghost invariant = { λ a. IsBody (arc_slice_items a.text) };
}

impl Body {
    ghost use Rattle.std.specs.Prelude.{◌≡◌, IfOk};
    ghost use Rattle.std.specs.Arc.{arc_slice_items};
    ghost use Rattle.doc_json.specs.Body.{IsBody};

    /// Wraps bytes that the caller knows to be a serialized body.
    pub fn from_text(text: ArcSlice<u8>) -> Body
        requires { IsBody (arc_slice_items text) }
        ensures { result ≡ arc_slice_items text }
    {
        Body { text }
    }

    /// Returns the serialized body.
    pub fn text(&self) -> &[u8]
        ensures text { result.now ≡ self.now }
        ensures body { IsBody self.now }
    {
        self.text.as_slice()
    }

    /// Returns the serialized body as a shared reference.
    pub fn share(&self) -> Result<ArcSlice<u8>, AllocError>
        ensures shared { IfOk result (λ text. arc_slice_items text ≡ self.now) }
        ensures body { IsBody self.now }
    {
        self.text.clone()
    }

    /// Copies the body. The copy of a body shares the body's bytes.
    pub fn copy(&self) -> Result<Body, AllocError>
        ensures copied { IfOk result (λ b. b ≡ self.now) }
    {
        Ok(Body {
            text: self.share()?,
        })
    }
}

/// Reads a document's body from a JSON value.
///
/// # Errors
///
/// Checked in this order:
///
/// - `NotObject`: the value is not an object.
/// - `SpecialMember`: a member begins with `_`.
/// - `Fraction`: the value contains, at any depth, a number that is neither an i64 nor a u64.
/// - `Memory`: an allocation failed. The call returns `Memory` only if no other error applies.
pub fn read_body(alloc: Global, value: &Value) -> Result<Body, DocFault>
    ensures { GivesUnlessMemory result (body_read (view value.now)) }
{
    body_of(alloc, value, NONE_KNOWN, 0)
}

/// Reads a document's body from a `LinePart`, a JSON value inside a line. Returns the same errors as `read_body`.
pub fn read_line_body(alloc: Global, part: &LinePart<'_, '_>) -> Result<Body, DocFault>
    ensures { GivesUnlessMemory result (body_read (line_view part.now)) }
{
    body_of(alloc, part.value(), part.plain(), part.long_len())
}

/// Reads a document's body from a JSON value. The argument `plain` says which strings of the value need no escapes when
/// they are written as JSON. The initial capacity of the body's buffer is at least `room` bytes.
fn body_of<'v, V: JsonValue<'v>>(
    alloc: Global,
    value: &'v V,
    plain: PlainTexts,
    room: usize,
) -> Result<Body, DocFault>
where
    V::Object: 'v,
    requires order { V.in_order value.now }
    requires plain { ArePlain plain (V.seen value.now) }
    ensures { GivesUnlessMemory result (body_read (V.seen value.now)) }
{
    let Some(members) = value.as_object() else {
        return Err(DocFault::NotObject);
    };
    if has_special::<V>(members) {
        return Err(DocFault::SpecialMember);
    }
    if value.has_fraction() {
        return Err(DocFault::Fraction);
    }
    let text = written(alloc, value, plain, room)?;
    Ok(Body::from_text(text))
}

/// Builds a document's body from a JSON object, and omits the members whose names begin with `_`.
pub(crate) fn plain_body<'v, V: JsonValue<'v>>(
    alloc: Global,
    members: &'v V::Object,
    plain: PlainTexts,
    room: usize,
) -> Result<Body, AllocError>
    requires exact { members_have_float (plain_members (V.members_seen members.now)) ≡ false }
    requires order { V.members_in_order members.now }
    requires plain { AreMembersPlain plain (V.members_seen members.now) }
    ensures body { IfOk result (λ b. b ≡ body_text (V.members_seen members.now)) }
{
    let text = plain_written::<V>(alloc, members, plain, room)?;
    Ok(Body::from_text(text))
}

/// Serializes a JSON object, without the members whose names begin with `_`, into shared bytes.
fn plain_written<'v, V: JsonValue<'v>>(
    alloc: Global,
    members: &'v V::Object,
    plain: PlainTexts,
    room: usize,
) -> Result<ArcSlice<u8>, AllocError>
    requires exact { members_have_float (plain_members (V.members_seen members.now)) ≡ false }
    requires order { V.members_in_order members.now }
    requires plain { AreMembersPlain plain (V.members_seen members.now) }
    ensures { IfOk result
        (λ v. IsWritten (arc_slice_items v) (object (plain_members (V.members_seen members.now)))) }
{
    let text = plain_text::<V>(alloc, members, plain, room)?;
    ArcSlice::from_vec(text)
}

/// Serializes a value into shared bytes.
fn written<'v, V: JsonValue<'v>>(
    alloc: Global,
    value: &'v V,
    plain: PlainTexts,
    room: usize,
) -> Result<ArcSlice<u8>, AllocError>
    requires exact { has_float (V.seen value.now) ≡ false }
    requires order { V.in_order value.now }
    requires plain { ArePlain plain (V.seen value.now) }
    ensures { IfOk result (λ v. IsWritten (arc_slice_items v) (V.seen value.now)) }
{
    let text = value_text(alloc, value, plain, room)?;
    ArcSlice::from_vec(text)
}
