//! Finds the members of a JSON object in a response.
ghost use Rattle.std.specs.Prelude.{◌≡◌, option_map};
ghost use Rattle.std.specs.Char.{is_ascii_digit};
ghost use Rattle.std.specs.List.{list_all};
ghost use Rattle.json.specs.Value.{value_view};
ghost use Rattle.journal_lines.specs.Lists.{token};
ghost use Rattle.journal_responses.specs.Members.{seq_in, seq_at};

use journal_lines::is_token;
use json::Value;

/// Returns the given string if the string is a sequence.
fn token_of<'a>(text: &'a str) -> Option<&'a str>
    ensures { option_map (λ s. s.now) result ≡ token text.now }
{
    if is_token(text) { Some(text) } else { None }
}

/// Returns the sequence in a JSON value. The sequence is the content of a string or the text of a number.
pub(crate) fn seq_of<'v, 'a>(value: &'v Value<'a>) -> Option<&'a str>
    ensures { option_map (λ s. s.now) result ≡ seq_in (value_view value.now) }
{
    match value {
        Value::String(text) => token_of(*text),
        Value::Number(text) => Some(*text),
        _ => None,
    }
}

/// Returns an object's member with the given name, if the member is a sequence.
pub(crate) fn seq_at<'v, 'a>(value: &'v Value<'a>, name: &str) -> Option<&'a str>
    ensures { option_map (λ s. s.now) result ≡ seq_at name.now (value_view value.now) }
{
    match value.get(name) {
        Some(member) => seq_of(member),
        None => None,
    }
}

pub(crate) fn are_digits(bytes: &[u8]) -> bool
    ensures { result ≡ list_all is_ascii_digit bytes.now }
{
    bytes.iter().all(|b| b.is_ascii_digit())
}
