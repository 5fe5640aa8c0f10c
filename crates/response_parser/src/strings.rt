//! Strings without escapes.
ghost use Rattle.std.specs.Prelude.{◌≡◌, true, IsTrue};
ghost use Rattle.doc_envelope.specs.Texts.{is_json};

use json_values::is_plain;

/// Returns true only if a text is a JSON string of ASCII characters without escapes, with its quotation marks.
pub(crate) fn is_plain_string(text: &[u8]) -> bool
    ensures { IsTrue result → is_json text.now ≡ true }
{
    let length = text.len();
    if length < 2 || text[0] != b'"' || text[length - 1] != b'"' {
        return false;
    }
    is_plain(&text[1..length - 1]) && text.is_ascii()
}
