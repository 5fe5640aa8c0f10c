//! Implements `JsonValue` for the values of `serde_json`.
ghost use Rattle.std.specs.Prelude.{◌≡◌, ◌++◌, ◌∷◌, false, OnOk};
ghost use Rattle.std.specs.List.Sorted.{IsStrictlySortedBy};
ghost use Rattle.std.specs.Map.{keys_of};
ghost use Rattle.std.specs.String.{string_cmp};
ghost use Rattle.serde_json.specs.View.{view, items_view, members_view};
ghost use Rattle.serde_json.specs.Written.{has_float, items_have_float, members_have_float};
ghost use Rattle.serde_json.specs.Written.{compact_text, items_text, members_text};
ghost use Rattle.json_values.specs.LineOrder.{AreOrdered, IsInOrderOfNames, IsOrdered};
ghost use Rattle.doc_json.specs.Numbers.{AllReadBack, ItemsReadBack, MembersReadBack};

use crate::json_value::JsonValue;
use crate::text::{push_comma, push_integer, push_name, push_text};
use json_values::PlainTexts;
use serde_json::{Map, Number, Value};
use std::alloc::AllocError;
use std::collections::btree_map;

/// States that every string may need escapes, because a `serde_json` value does not record which strings need no
/// escapes.
pub(crate) const NONE_KNOWN: PlainTexts = PlainTexts {
    names: false,
    values: false,
};

impl<'v> JsonValue<'v> for Value {
    type Object = Map<String, Value>;

    type Members = btree_map::Iter<'v, String, Value>;

    ghost seen = { view };

    ghost members_seen = { λ members. members_view members.entries };

    ghost left = { λ it. members_view it };

    ghost in_order = { λ _. Unit {0} };

    ghost members_in_order = { λ _. Unit {0} };

    ghost left_in_order = { λ it. IsStrictlySortedBy string_cmp (keys_of it) };

    fn as_str(&'v self) -> Option<&'v str> {
        self.as_str()
    }

    fn as_bool(&'v self) -> Option<bool> {
        self.as_bool()
    }

    fn as_number(&'v self) -> Option<&'v Number> {
        self.as_number()
    }

    fn as_array(&'v self) -> Option<&'v [Value]> {
        match self.as_array() {
            Some(items) => Some(items.as_slice()),
            None => None,
        }
    }

    fn as_object(&'v self) -> Option<&'v Map<String, Value>> {
        self.as_object()
    }

    fn get(&'v self, name: &str) -> Option<&'v Value> {
        self.get(name)
    }

    fn walk(members: &'v Map<String, Value>) -> btree_map::Iter<'v, String, Value> {
        members.iter()
    }

    fn next_member(
        members: &mut btree_map::Iter<'v, String, Value>,
    ) -> Option<(&'v str, &'v Value)> {
        match members.next() {
            Some((name, member)) => Some((name.as_str(), member)),
            None => None,
        }
    }

    fn has_fraction(&'v self) -> bool {
        has_fraction(self)
    }

    // The call ignores the argument `_plain`, because every string of a `serde_json` value may need escapes.
    fn push(&'v self, _plain: PlainTexts, out: &mut Vec<u8>) -> Result<(), AllocError> {
        push_value(self, out)
    }
}

/// Whether a value is or contains, at any depth, a number that is neither an i64 nor a u64.
#[cycle(fraction)]
#[inline(always)]
fn has_fraction(value: &Value) -> bool
    ensures { result ≡ has_float (view value.now) }
{
    match value {
        Value::Null => false,
        Value::Bool(_) => false,
        Value::Number(number) => number.is_f64(),
        Value::String(_) => false,
        Value::Array(items) => items_have_fraction(items),
        Value::Object(members) => members_have_fraction(members),
    }
}

/// Whether one of an array's items is or contains a number that is neither an i64 nor a u64.
#[cycle(fraction)]
#[inline(never)]
fn items_have_fraction(items: &Vec<Value>) -> bool
    ensures { result ≡ items_have_float (items_view items.now.items) }
{
    for item in items {
        if has_fraction(item) {
            return true;
        }
    }
    false
}

/// Whether the value of an object's member is or contains a number that is neither an i64 nor a u64.
#[cycle(fraction)]
#[inline(never)]
fn members_have_fraction(members: &Map<String, Value>) -> bool
    ensures { result ≡ members_have_float (members_view members.now.entries) }
{
    for (_, member) in members.iter() {
        if has_fraction(member) {
            return true;
        }
    }
    false
}

/// Appends the serialized form of a value to a buffer.
#[cycle(push)]
#[inline(always)]
fn push_value(value: &Value, out: &mut Vec<u8>) -> Result<(), AllocError>
    requires { has_float (view value.now) ≡ false }
    ensures text { OnOk result (out.new.items ≡ out.old.items ++ compact_text (view value.now)) }
    ensures numbers { OnOk result (AllReadBack (view value.now)) }
    ensures order { OnOk result (IsOrdered (view value.now)) }
{
    match value {
        Value::Null => out.extend_from_slice(b"null"),
        Value::Bool(true) => out.extend_from_slice(b"true"),
        Value::Bool(false) => out.extend_from_slice(b"false"),
        Value::Number(n) => push_integer(out, n),
        Value::String(text) => push_text(out, text.as_str()),
        Value::Array(items) => push_items(items, out),
        Value::Object(members) => push_members(members, out),
    }
}

/// Appends the items of an array, in brackets, to a buffer.
#[cycle(push)]
#[inline(never)]
fn push_items(items: &Vec<Value>, out: &mut Vec<u8>) -> Result<(), AllocError>
    requires { items_have_float (items_view items.now.items) ≡ false }
    ensures text { OnOk result
        (out.new.items ≡ out.old.items ++ 91 ∷ items_text false (items_view items.now.items)) }
    ensures numbers { OnOk result (ItemsReadBack (items_view items.now.items)) }
    ensures order { OnOk result (AreOrdered (items_view items.now.items)) }
{
    out.push(b'[')?;
    let mut later = false;
    for item in items {
        push_comma(out, later)?;
        push_value(item, out)?;
        later = true;
    }
    out.push(b']')?;
    Ok(())
}

/// Appends the members of an object, in braces, to a buffer.
#[cycle(push)]
#[inline(never)]
fn push_members(members: &Map<String, Value>, out: &mut Vec<u8>) -> Result<(), AllocError>
    requires { members_have_float (members_view members.now.entries) ≡ false }
    ensures text { OnOk result
        (out.new.items ≡ out.old.items ++ 123 ∷ members_text false (members_view members.now.entries)) }
    ensures numbers { OnOk result (MembersReadBack (members_view members.now.entries)) }
    ensures order { OnOk result (IsInOrderOfNames (members_view members.now.entries)) }
{
    out.push(b'{')?;
    let mut later = false;
    for (name, member) in members.iter() {
        push_name(out, later, name.as_str(), false)?;
        push_value(member, out)?;
        later = true;
    }
    out.push(b'}')?;
    Ok(())
}
