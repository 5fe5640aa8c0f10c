//! Finds the members of a JSON object.
ghost use Rattle.std.specs.Prelude.{◌≡◌, option_map};
ghost use Rattle.json.specs.Find.{as_array};
ghost use Rattle.json.specs.Value.{value_view, items_view};
ghost use Rattle.journal_lines.specs.Members.{text_at, items_at, number_at, number_in};

use json::Value;

/// Returns an object's member with the given name, if the member is a string.
pub fn text_at<'v, 'a>(value: &'v Value<'a>, name: &str) -> Option<&'a str>
    ensures { option_map (λ s. s.now) result ≡ text_at name.now (value_view value.now) }
{
    match value.get(name) {
        Some(member) => member.as_str(),
        None => None,
    }
}

/// Returns the items of a JSON value, if the value is a list.
pub fn items_of<'v, 'a>(value: &'v Value<'a>) -> Option<&'v Vec<Value<'a>>>
    ensures { option_map (λ v. items_view v.now.items) result ≡ as_array (value_view value.now) }
{
    match value {
        Value::Array(items) => Some(items),
        _ => None,
    }
}

/// Returns an object's member with the given name, if the member is a list.
pub fn items_at<'v, 'a>(value: &'v Value<'a>, name: &str) -> Option<&'v Vec<Value<'a>>>
    ensures { option_map (λ v. items_view v.now.items) result ≡ items_at name.now (value_view value.now) }
{
    match value.get(name) {
        Some(member) => items_of(member),
        None => None,
    }
}

/// Returns the number in a JSON value, if the value is a number without sign, point and exponent.
fn number_of(value: &Value<'_>) -> Option<u64>
    ensures { result ≡ number_in (value_view value.now) }
{
    value.as_u64()
}

/// Returns an object's member with the given name, if the member is a number without sign, point and exponent.
pub(crate) fn number_at(value: &Value<'_>, name: &str) -> Option<u64>
    ensures { result ≡ number_at name.now (value_view value.now) }
{
    match value.get(name) {
        Some(member) => number_of(member),
        None => None,
    }
}
