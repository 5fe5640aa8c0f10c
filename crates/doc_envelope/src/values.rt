//! Parses and prints the values of members with the crate `json`.
ghost use Rattle.std.specs.Prelude.{◌≡◌, ◌++◌, true, Some, IfOk, option_map};
ghost use Rattle.std.specs.Str.{is_utf8};
ghost use Rattle.json.specs.Print.{quoted};
ghost use Rattle.std.specs.List.{list_all};
ghost use Rattle.json.specs.Value.{value_view};
ghost use Rattle.doc_envelope.specs.Envelopes.{string_of, is_envelope, is_envelope_value, may_stand};

use json::{Error, Scratch, Value, Writer};
use std::alloc::{AllocError, Global};
use std::mem;

/// Parses a JSON string. The result is `None` if the text is not a JSON string.
pub(crate) fn string_of<'a>(
    alloc: Global,
    text: &'a [u8],
    scratch: &'a mut Scratch,
) -> Result<Option<&'a str>, AllocError>
    ensures { IfOk result (λ said. option_map (λ s. s.now) said ≡ string_of text.now) }
{
    match Value::from_slice(alloc, text, scratch) {
        Ok(value) => Ok(value.as_str()),
        Err(Error::OutOfMemory) => Err(AllocError),
        Err(Error::Invalid) => Ok(None),
        Err(Error::TooLong) => Ok(None),
        Err(Error::DuplicateKey) => Ok(None),
    }
}

/// Appends a text as a JSON string, or returns `false` if the text is not UTF-8.
pub(crate) fn quote(alloc: Global, text: &[u8], made: &mut Vec<u8>) -> Result<bool, AllocError>
    ensures is { IfOk result (λ ok. ok ≡ is_utf8 text.now) }
    ensures made { IfOk result (λ ok. ok ≡ true → made.new.items ≡ made.old.items ++ quoted text.now) }
{
    let Ok(said) = simdutf8::basic::from_utf8(text) else {
        return Ok(false);
    };
    let mut writer = Writer::new(mem::replace(made, Vec::new(alloc)));
    writer.string(said)?;
    *made = writer.into_inner();
    Ok(true)
}

/// Whether a text is JSON with only members that an envelope may have.
pub(crate) fn is_envelope(
    alloc: Global,
    text: &[u8],
    scratch: &mut Scratch,
) -> Result<bool, AllocError>
    ensures { IfOk result (λ is. is ≡ is_envelope text.now) }
{
    match Value::from_slice(alloc, text, scratch) {
        Ok(value) => Ok(is_envelope_value(&value)),
        Err(Error::OutOfMemory) => Err(AllocError),
        Err(Error::Invalid) => Ok(false),
        Err(Error::TooLong) => Ok(false),
        Err(Error::DuplicateKey) => Ok(false),
    }
}

/// Whether a JSON value is an object with only members that an envelope may have.
fn is_envelope_value(value: &Value<'_>) -> bool
    ensures { result ≡ is_envelope_value (Some (value_view value.now)) }
{
    match value {
        Value::Object(members) => all_may_stand(members.as_slice()),
        _ => false,
    }
}

/// Whether an envelope may have each member of a list.
fn all_may_stand(members: &[(&str, Value<'_>)]) -> bool
    ensures { result ≡ list_all (λ m. may_stand m.0.now (value_view m.1)) members.now }
{
    members.iter().all(|m| may_stand(m.0, &m.1))
}

/// Whether an envelope may have a given member.
fn may_stand(name: &str, value: &Value<'_>) -> bool
    ensures { result ≡ may_stand name.now (value_view value.now) }
{
    if name == "_id" || name == "_rev" || name == "_revisions" {
        true
    } else if name == "_deleted" {
        value.as_bool().is_some()
    } else if name == "whole" {
        value.as_str().is_some()
    } else {
        false
    }
}
