//! Implements the trait `JsonValue` for `LineValue`, a JSON value that was read from a line.
ghost use Rattle.std.specs.Prelude.{◌≡◌, ◌++◌, ◌∷◌, false, OnOk};
ghost use Rattle.std.specs.Slice.Iter.{iter_rest};
ghost use Rattle.json_values.specs.LineView.{line_view, line_items, line_members};
ghost use Rattle.json_values.specs.LineOrder.{IsOrdered, IsInOrderOfNames};
ghost use Rattle.json_values.specs.Plain.{AreItemsPlain, AreMembersPlain, ArePlain};
ghost use Rattle.serde_json.specs.Written.{has_float, items_have_float, members_have_float};
ghost use Rattle.serde_json.specs.Written.{compact_text, items_text, members_text};
ghost use Rattle.doc_json.specs.Numbers.{AllReadBack, ItemsReadBack, MembersReadBack};

use crate::json_value::JsonValue;
use crate::text::{push_comma, push_integer, push_known_text, push_name};
use json_values::{LineValue, PlainTexts};
use serde_json::Number;
use std::alloc::AllocError;
use std::slice;

impl<'v, 'a: 'v> JsonValue<'v> for LineValue<'a> {
    type Object = &'a [(&'a str, LineValue<'a>)];

    type Members = slice::Iter<'v, (&'a str, LineValue<'a>)>;

    ghost seen = { line_view };

    ghost members_seen = { λ members. line_members members.now };

    ghost left = { λ it. line_members (iter_rest it) };

    ghost in_order = { λ v. IsOrdered (line_view v) };

    ghost members_in_order = { λ members. IsInOrderOfNames (line_members members.now) };

    ghost left_in_order = { λ it. IsInOrderOfNames (line_members (iter_rest it)) };

    #[inline(always)]
    fn as_str(&'v self) -> Option<&'v str> {
        self.as_str()
    }

    #[inline(always)]
    fn as_bool(&'v self) -> Option<bool> {
        self.as_bool()
    }

    #[inline(always)]
    fn as_number(&'v self) -> Option<&'v Number> {
        match self {
            LineValue::Number(number) => Some(number),
            _ => None,
        }
    }

    #[inline(always)]
    fn as_array(&'v self) -> Option<&'v [LineValue<'a>]> {
        self.as_array()
    }

    #[inline(always)]
    fn as_object(&'v self) -> Option<&'v &'a [(&'a str, LineValue<'a>)]> {
        match self {
            LineValue::Object(members) => Some(members),
            _ => None,
        }
    }

    #[inline(always)]
    fn get(&'v self, name: &str) -> Option<&'v LineValue<'a>> {
        self.get(name)
    }

    #[inline(always)]
    fn walk(
        members: &'v &'a [(&'a str, LineValue<'a>)],
    ) -> slice::Iter<'v, (&'a str, LineValue<'a>)> {
        members.iter()
    }

    #[inline(always)]
    fn next_member(
        members: &mut slice::Iter<'v, (&'a str, LineValue<'a>)>,
    ) -> Option<(&'v str, &'v LineValue<'a>)> {
        match members.next() {
            Some(entry) => Some((entry.0, &entry.1)),
            None => None,
        }
    }

    #[inline(always)]
    fn has_fraction(&'v self) -> bool {
        has_fraction(self)
    }

    #[inline(always)]
    fn push(&'v self, plain: PlainTexts, out: &mut Vec<u8>) -> Result<(), AllocError> {
        push_value(self, plain, out)
    }
}

/// Whether a value is or contains, at any depth, a number that is neither an i64 nor a u64.
#[cycle(fraction)]
#[inline(always)]
pub fn has_fraction(value: &LineValue<'_>) -> bool
    ensures { result ≡ has_float (line_view value.now) }
{
    match value {
        LineValue::Null => false,
        LineValue::Bool(_) => false,
        LineValue::Number(number) => number.is_f64(),
        LineValue::String(_) => false,
        LineValue::Array(items) => items_have_fraction(items),
        LineValue::Object(members) => members_have_fraction(members),
    }
}

/// Whether one of an array's items is or contains a number that is neither an i64 nor a u64.
#[cycle(fraction)]
#[inline(never)]
fn items_have_fraction(items: &[LineValue<'_>]) -> bool
    ensures { result ≡ items_have_float (line_items items.now) }
{
    for item in items {
        if has_fraction(item) {
            return true;
        }
    }
    false
}

/// Whether the value of an object's member is or contains a number that is neither an i64 nor a u64.
#[cycle(fraction)]
#[inline(never)]
fn members_have_fraction(members: &[(&str, LineValue<'_>)]) -> bool
    ensures { result ≡ members_have_float (line_members members.now) }
{
    for entry in members {
        if has_fraction(&entry.1) {
            return true;
        }
    }
    false
}

/// Appends the serialized form of a value to a buffer.
#[cycle(push)]
#[inline(always)]
fn push_value(value: &LineValue<'_>, plain: PlainTexts, out: &mut Vec<u8>) -> Result<(), AllocError>
    requires { has_float (line_view value.now) ≡ false }
    ensures text { OnOk result (ArePlain plain (line_view value.now)
        → out.new.items ≡ out.old.items ++ compact_text (line_view value.now)) }
    ensures numbers { OnOk result (AllReadBack (line_view value.now)) }
{
    match value {
        LineValue::Null => out.extend_from_slice(b"null"),
        LineValue::Bool(true) => out.extend_from_slice(b"true"),
        LineValue::Bool(false) => out.extend_from_slice(b"false"),
        LineValue::Number(n) => push_integer(out, n),
        LineValue::String(text) => push_known_text(out, *text, plain.values),
        LineValue::Array(items) => push_items(items, plain, out),
        LineValue::Object(members) => push_members(members, plain, out),
    }
}

/// Appends the items of an array, in brackets, to a buffer.
#[cycle(push)]
#[inline(never)]
fn push_items(
    items: &[LineValue<'_>],
    plain: PlainTexts,
    out: &mut Vec<u8>,
) -> Result<(), AllocError>
    requires { items_have_float (line_items items.now) ≡ false }
    ensures text { OnOk result (AreItemsPlain plain (line_items items.now)
        → out.new.items ≡ out.old.items ++ 91 ∷ items_text false (line_items items.now)) }
    ensures numbers { OnOk result (ItemsReadBack (line_items items.now)) }
{
    out.push(b'[')?;
    let mut later = false;
    for item in items {
        push_comma(out, later)?;
        push_value(item, plain, out)?;
        later = true;
    }
    out.push(b']')?;
    Ok(())
}

/// Appends the members of an object, in braces, to a buffer.
#[cycle(push)]
#[inline(never)]
fn push_members(
    members: &[(&str, LineValue<'_>)],
    plain: PlainTexts,
    out: &mut Vec<u8>,
) -> Result<(), AllocError>
    requires { members_have_float (line_members members.now) ≡ false }
    ensures text { OnOk result
        (AreMembersPlain plain (line_members members.now)
        → out.new.items ≡ out.old.items ++ 123 ∷ members_text false (line_members members.now)) }
    ensures numbers { OnOk result (MembersReadBack (line_members members.now)) }
{
    out.push(b'{')?;
    let mut later = false;
    for entry in members {
        push_name(out, later, entry.0, plain.names)?;
        push_value(&entry.1, plain, out)?;
        later = true;
    }
    out.push(b'}')?;
    Ok(())
}
