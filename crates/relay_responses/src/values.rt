//! Finds the parts of a JSON value.
ghost use Rattle.std.specs.Prelude.{◌≡◌, IfOk, option_map, string_bytes};
ghost use Rattle.json.specs.Find.{as_array};
ghost use Rattle.json.specs.Value.{value_view, items_view};
ghost use Rattle.std.specs.List.{list_all};
ghost use Rattle.std.specs.Char.{is_ascii_digit};
ghost use Rattle.relay_responses.specs.Read.{text_at, items_at, digits_in, sequence_in, sequence_at};

use json::Value;
use std::alloc::{AllocError, Global};

/// Returns an object's member with the given name, if the member is a string.
pub(crate) fn text_at<'v, 'a>(value: &'v Value<'a>, name: &str) -> Option<&'a str>
    ensures { option_map (λ s. s.now) result ≡ text_at name.now (value_view value.now) }
{
    match value.get(name) {
        Some(member) => member.as_str(),
        None => None,
    }
}

/// Returns the items of a JSON value, if the value is a list.
pub(crate) fn items_of<'v, 'a>(value: &'v Value<'a>) -> Option<&'v Vec<Value<'a>>>
    ensures { option_map (λ v. items_view v.now.items) result ≡ as_array (value_view value.now) }
{
    match value {
        Value::Array(items) => Some(items),
        _ => None,
    }
}

/// Returns an object's member with the given name, if the member is a list.
pub(crate) fn items_at<'v, 'a>(value: &'v Value<'a>, name: &str) -> Option<&'v Vec<Value<'a>>>
    ensures { option_map (λ v. items_view v.now.items) result ≡ items_at name.now (value_view value.now) }
{
    match value.get(name) {
        Some(member) => items_of(member),
        None => None,
    }
}

fn are_digits(bytes: &[u8]) -> bool
    ensures { result ≡ list_all is_ascii_digit bytes.now }
{
    bytes.iter().all(|b| b.is_ascii_digit())
}

/// Returns the text of a number, if the text consists only of digits.
fn digits_of<'a>(text: &'a str) -> Option<&'a str>
    ensures { option_map (λ s. s.now) result ≡ digits_in text.now }
{
    if are_digits(text.as_bytes()) {
        Some(text)
    } else {
        None
    }
}

/// Returns the sequence in a JSON value. The sequence is the content of a string or the digits of a non-negative
/// integer.
fn sequence_of<'v, 'a>(value: &'v Value<'a>) -> Option<&'a str>
    ensures { option_map (λ s. s.now) result ≡ sequence_in (value_view value.now) }
{
    match value {
        Value::String(text) => Some(*text),
        Value::Number(text) => digits_of(text),
        _ => None,
    }
}

/// Returns the sequence in an object's member with the given name, if the member's value is a sequence.
pub(crate) fn sequence_at<'v, 'a>(value: &'v Value<'a>, name: &str) -> Option<&'a str>
    ensures { option_map (λ s. s.now) result ≡ sequence_at name.now (value_view value.now) }
{
    match value.get(name) {
        Some(member) => sequence_of(member),
        None => None,
    }
}

/// Copies an optional string.
pub(crate) fn copied(alloc: Global, text: Option<&str>) -> Result<Option<String>, AllocError>
    ensures { IfOk result (λ o. option_map string_bytes o ≡ option_map (λ s. s.now) text.entry) }
{
    match text {
        Some(text) => {
            let copy = String::from_str(alloc, text)?;
            Ok(Some(copy))
        }
        None => Ok(None),
    }
}
