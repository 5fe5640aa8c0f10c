//! Parts of an explanation. The functions of this file append no hidden character.
ghost use Rattle.std.specs.Prelude.{string_bytes, OnOk};
ghost use Rattle.error_messages.specs.Told.{AddsSeen};

use std::alloc::AllocError;
use visible_text::{push_quoted, push_visible};

/// Appends a text with each hidden character replaced by its escape.
pub(crate) fn push_words(text: &mut String, words: &str) -> Result<(), AllocError>
    ensures { OnOk result (AddsSeen (string_bytes text.old) (string_bytes text.new)) }
{
    push_visible(text, words)
}

/// Appends the text `words`, and then the string `name` as a JSON string without hidden characters.
pub(crate) fn push_named(text: &mut String, words: &str, name: &str) -> Result<(), AllocError>
    ensures { OnOk result (AddsSeen (string_bytes text.old) (string_bytes text.new)) }
{
    push_words(text, words)?;
    push_json(text, name)
}

/// Appends a string as a JSON string without hidden characters.
fn push_json(text: &mut String, name: &str) -> Result<(), AllocError>
    ensures { OnOk result (AddsSeen (string_bytes text.old) (string_bytes text.new)) }
{
    push_quoted(text, name)
}
