//! Serializes a JSON value, or the members of a JSON object, in compact form.
ghost use Rattle.std.specs.Prelude.{◌≡◌, ◌++◌, ◌∷◌, true, false, OnOk, IfOk};
ghost use Rattle.json.specs.Print.{quoted};
ghost use Rattle.serde_json.specs.Data.{object};
ghost use Rattle.serde_json.specs.Written.{has_float, members_have_float, comma_if, compact_text, members_text};
ghost use Rattle.json_values.specs.LineOrder.{IsOrdered, IsInOrderOfNames};
ghost use Rattle.json_values.specs.Plain.{AreMembersPlain, ArePlain, PlainIf};
ghost use Rattle.doc_json.specs.DocId.{is_special};
ghost use Rattle.doc_json.specs.Members.{plain_members};
ghost use Rattle.doc_json.specs.Numbers.{AllReadBack, MembersReadBack};
ghost use Rattle.doc_json.specs.Body.{IsWritten};

use crate::doc_id::is_special;
use crate::json_value::JsonValue;
use crate::text::push_name;
use json_values::PlainTexts;
use std::alloc::{AllocError, Global};

/// The minimum initial capacity of a serialization buffer, in bytes. A buffer of 136 bytes is large enough for most
/// small documents. The allocator uses the same amount of memory for each capacity from 121 to 136 bytes.
const SHORT: usize = 136;

/// Serializes a JSON object without its members whose names begin with `_`. The initial capacity of the buffer is at
/// least `room`. The returned buffer has fewer than 32 unused bytes. If the text has at most `SHORT` bytes, the
/// returned buffer has fewer than 16 unused bytes, unless the allocation of a smaller buffer failed.
pub(crate) fn plain_text<'v, V: JsonValue<'v>>(
    alloc: Global,
    members: &'v V::Object,
    plain: PlainTexts,
    room: usize,
) -> Result<Vec<u8>, AllocError>
    requires exact { members_have_float (plain_members (V.members_seen members.now)) ≡ false }
    requires order { V.members_in_order members.now }
    requires plain { AreMembersPlain plain (V.members_seen members.now) }
    ensures { IfOk result (λ v. IsWritten v.items (object (plain_members (V.members_seen members.now)))) }
{
    let mut out = Vec::with_capacity(alloc, room.max(SHORT))?;
    push_plain::<V>(members, plain, &mut out)?;
    Ok(fitted(alloc, trimmed(out)))
}

/// Serializes a value. The initial capacity of the buffer is at least `room`. The buffer of the result has fewer than
/// 32 unused bytes.
pub(crate) fn value_text<'v, V: JsonValue<'v>>(
    alloc: Global,
    value: &'v V,
    plain: PlainTexts,
    room: usize,
) -> Result<Vec<u8>, AllocError>
    requires exact { has_float (V.seen value.now) ≡ false }
    requires order { V.in_order value.now }
    requires plain { ArePlain plain (V.seen value.now) }
    ensures { IfOk result (λ v. IsWritten v.items (V.seen value.now)) }
{
    let mut out = Vec::with_capacity(alloc, room.max(SHORT))?;
    value.push(plain, &mut out)?;
    Ok(trimmed(out))
}

/// Shrinks a buffer that has at least 32 unused bytes, because the allocator cannot reuse fewer than 32 bytes.
fn trimmed(text: Vec<u8>) -> Vec<u8>
    ensures { result.items ≡ text.items }
{
    let mut text = text;
    if text.capacity().saturating_sub(text.len()) >= 32 {
        text.shrink_to_fit();
    }
    text
}

/// Copies a text of at most `SHORT` bytes into a buffer of the text's length, if the old buffer has at least 16 unused
/// bytes. In all other cases, and if the allocation fails, the call returns the text in its old buffer.
fn fitted(alloc: Global, text: Vec<u8>) -> Vec<u8>
    ensures { result.items ≡ text.items }
{
    let spare = text.capacity().saturating_sub(text.len());
    if spare < 16 || text.len() > SHORT {
        return text;
    }
    match Vec::from_slice(alloc, &text) {
        Ok(exact) => exact,
        Err(_) => text,
    }
}

/// Appends the serialized form of a JSON object to a buffer, without the members whose names begin with `_`.
fn push_plain<'v, V: JsonValue<'v>>(
    members: &'v V::Object,
    plain: PlainTexts,
    out: &mut Vec<u8>,
) -> Result<(), AllocError>
    requires exact { members_have_float (plain_members (V.members_seen members.now)) ≡ false }
    requires order { V.members_in_order members.now }
    requires plain { AreMembersPlain plain (V.members_seen members.now) }
    ensures text { OnOk result (out.new.items
        ≡ out.old.items ++ 123 ∷ members_text false (plain_members (V.members_seen members.now))) }
    ensures numbers { OnOk result (MembersReadBack (plain_members (V.members_seen members.now))) }
    ensures order { OnOk result (IsInOrderOfNames (plain_members (V.members_seen members.now))) }
{
    out.push(b'{')?;
    let mut later = false;
    let mut left = V::walk(members);
    while let Some((name, member)) = V::next_member(&mut left) {
        later = push_unless_special(name, member, later, plain, out)?;
    }
    out.push(b'}')?;
    Ok(())
}

/// Serializes a member, unless the member's name begins with `_`. Returns whether a comma must precede the next member.
fn push_unless_special<'v, V: JsonValue<'v>>(
    name: &str,
    member: &'v V,
    later: bool,
    plain: PlainTexts,
    out: &mut Vec<u8>,
) -> Result<bool, AllocError>
    requires exact { is_special name.now ≡ false → has_float (V.seen member.now) ≡ false }
    requires order { V.in_order member.now }
    requires name { PlainIf plain.names name.now }
    requires plain { ArePlain plain (V.seen member.now) }
    ensures special { IfOk result (λ now. is_special name.now ≡ true
        → (now ≡ later) × (out.new.items ≡ out.old.items)) }
    ensures plain { IfOk result (λ now. is_special name.now ≡ false
        → (now ≡ true) × (out.new.items
        ≡ out.old.items ++ (comma_if later ++ (quoted name.now ++ 58 ∷ compact_text (V.seen member.now))))) }
    ensures numbers { IfOk result (λ now. is_special name.now ≡ false → AllReadBack (V.seen member.now)) }
    ensures order { IfOk result (λ now. is_special name.now ≡ false → IsOrdered (V.seen member.now)) }
{
    if is_special(name) {
        return Ok(later);
    }
    push_name(out, later, name, plain.names)?;
    member.push(plain, out)?;
    Ok(true)
}
