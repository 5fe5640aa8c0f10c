//! Reads members of a line's JSON object, each of one type, such as a string, a Boolean, an integer or a UUID.
ghost use Rattle.std.specs.Prelude.{◌≡◌, map, option_map};
ghost use Rattle.std.specs.List.{list_all, list_any};
ghost use Rattle.std.specs.Str.{bytes_eq};
ghost use Rattle.serde_json.specs.Find.{as_bool, as_str};
ghost use Rattle.std.specs.Option.{option_copied};
ghost use Rattle.json_values.specs.LineView.{line_view, line_items};
ghost use Rattle.command_api.specs.Members.{are_texts, as_texts, as_uuid, as_whole, has_only, is_name, is_name_byte, name_at, optional, text_at, texts_of};

use json_values::{LineValue, is_same_text};
use uuid::Uuid;

/// Reads a required string.
pub fn text_member<'v>(value: &'v LineValue<'_>, key: &str) -> Option<&'v str>
    ensures { option_map (λ s. s.now) result ≡ text_at key.now (line_view value.now) }
{
    match value.get(key) {
        Some(member) => member.as_str(),
        None => None,
    }
}

/// Reads a required name of a database: 1 to 32 ASCII letters, digits, `-` or `_`.
pub fn name_member<'v>(value: &'v LineValue<'_>, key: &str) -> Option<&'v str>
    ensures { option_map (λ s. s.now) result ≡ name_at key.now (line_view value.now) }
{
    match text_member(value, key) {
        Some(text) if is_name(text) => Some(text),
        _ => None,
    }
}

/// Reads an optional Boolean. If the object lacks the member, returns `Some(None)`. If the member has a wrong type,
/// returns `None`.
pub fn optional_flag(value: &LineValue<'_>, key: &str) -> Option<Option<bool>>
    ensures { result ≡ optional as_bool key.now (line_view value.now) }
{
    let Some(member) = value.get(key) else {
        return Some(None);
    };
    match member.as_bool() {
        Some(flag) => Some(Some(flag)),
        None => None,
    }
}

/// Reads an optional string.
pub fn optional_text<'v>(value: &'v LineValue<'_>, key: &str) -> Option<Option<&'v str>>
    ensures { option_map option_copied result ≡ optional as_str key.now (line_view value.now) }
{
    let Some(member) = value.get(key) else {
        return Some(None);
    };
    match member.as_str() {
        Some(text) => Some(Some(text)),
        None => None,
    }
}

/// Reads an optional member that must be a list of strings.
pub fn optional_texts<'v, 'a>(
    value: &'v LineValue<'a>,
    key: &str,
) -> Option<Option<&'v [LineValue<'a>]>>
    ensures { option_map (option_map (λ v. texts_of (line_items v.now))) result
        ≡ optional as_texts key.now (line_view value.now) }
{
    let Some(member) = value.get(key) else {
        return Some(None);
    };
    let Some(items) = member.as_array() else {
        return None;
    };
    if !are_texts(items) {
        return None;
    }
    Some(Some(items))
}

/// Whether every item of a list is a string.
fn are_texts(items: &[LineValue<'_>]) -> bool
    ensures { result ≡ are_texts (line_items items.now) }
{
    for item in items {
        if item.as_str().is_none() {
            return false;
        }
    }
    true
}

/// Reads an optional member that must be an integer from 0 to 2^64 - 1.
pub fn optional_whole(value: &LineValue<'_>, key: &str) -> Option<Option<u64>>
    ensures { result ≡ optional as_whole key.now (line_view value.now) }
{
    let Some(member) = value.get(key) else {
        return Some(None);
    };
    match member.as_u64() {
        Some(number) => Some(Some(number)),
        None => None,
    }
}

/// Reads an optional UUID as a number.
pub fn optional_uuid(value: &LineValue<'_>, key: &str) -> Option<Option<u128>>
    ensures { result ≡ optional as_uuid key.now (line_view value.now) }
{
    let Some(member) = value.get(key) else {
        return Some(None);
    };
    match as_uuid(member) {
        Some(uuid) => Some(Some(uuid)),
        None => None,
    }
}

/// Parses a UUID as a number.
fn as_uuid(value: &LineValue<'_>) -> Option<u128>
    ensures { result ≡ as_uuid (line_view value.now) }
{
    let Some(text) = value.as_str() else {
        return None;
    };
    match Uuid::parse_str(text) {
        Ok(uuid) => Some(uuid.as_u128()),
        Err(_) => None,
    }
}

/// Whether a value is an object that has only members with the given names.
#[inline(always)]
pub fn has_only_members(value: &LineValue<'_>, keys: &[&str]) -> bool
    ensures { result ≡ has_only (map (λ x. x.now) keys.now) (line_view value.now) }
{
    match value.as_object() {
        Some(members) => are_all_among(members, keys),
        None => false,
    }
}

#[inline(always)]
fn are_all_among(members: &[(&str, LineValue<'_>)], allowed: &[&str]) -> bool
    ensures { result ≡ list_all (λ m. list_any (λ k. bytes_eq m.0.now k.now) allowed.now) members.now }
{
    for member in members {
        if !is_one_of(member.0, allowed) {
            return false;
        }
    }
    true
}

#[inline(always)]
fn is_one_of(key: &str, keys: &[&str]) -> bool
    ensures { result ≡ list_any (λ k. bytes_eq key.now k.now) keys.now }
{
    keys.iter().any(|k| is_same_text(key, *k))
}

fn is_name(text: &str) -> bool
    ensures { result ≡ is_name text.now }
{
    let bytes = text.as_bytes();
    if bytes.is_empty() || bytes.len() > 32 {
        return false;
    }
    are_name_bytes(bytes)
}

fn are_name_bytes(bytes: &[u8]) -> bool
    ensures { result ≡ list_all is_name_byte bytes.now }
{
    bytes.iter().all(|b| is_name_byte(*b))
}

fn is_name_byte(b: u8) -> bool
    ensures { result ≡ is_name_byte b }
{
    matches!(b, b'0'..=b'9' | b'A'..=b'Z' | b'a'..=b'z' | b'-' | b'_')
}
