//! Prints the identity of a server or of a database.
ghost use Rattle.std.specs.Prelude.{◌≡◌, ◌++◌, IfErr, OnOk, codes, false, true};
ghost use Rattle.json.specs.Value.{value_view};
ghost use Rattle.journal_responses.specs.Infos.{info_text, instance_by, is_info, is_object, word_or_none};
ghost use Rattle.journal_responses.specs.Responses.{IsOther, IsSaid};

use crate::members::seq_at;
use crate::said::{Said, said_of};
use json::Value;
use std::alloc::{AllocError, Global};

/// Returns an object's member that is a sequence, or `-` if the member is missing or is not a sequence.
fn word_at<'v, 'a>(value: &'v Value<'a>, name: &str) -> &'a str
    ensures { result.now ≡ word_or_none name.now (value_view value.now) }
{
    match seq_at(value, name) {
        Some(text) => text,
        None => "-",
    }
}

/// Returns the time at which a database was created, or `-` if the time is missing or `0`.
fn instance_of<'v, 'a>(value: &'v Value<'a>) -> &'a str
    ensures { result.now ≡ instance_by (word_or_none (codes "instance_start_time") (value_view value.now)) }
{
    let word = word_at(value, "instance_start_time");
    if word == "0" { "-" } else { word }
}

/// Appends a line with the identity of a server, the identity of a database, and the database's update sequence.
fn push_info(text: &mut Vec<u8>, value: &Value<'_>) -> Result<(), AllocError>
    ensures { OnOk result (text.new.items ≡ text.old.items ++ info_text (value_view value.now)) }
{
    text.extend_from_slice(b"info ".as_slice())?;
    text.extend_from_slice(word_at(value, "uuid").as_bytes())?;
    text.push(b' ')?;
    text.extend_from_slice(instance_of(value).as_bytes())?;
    text.push(b' ')?;
    text.extend_from_slice(word_at(value, "update_seq").as_bytes())?;
    text.push(b'\n')?;
    Ok(())
}

fn is_object(value: &Value<'_>) -> bool
    ensures { result ≡ is_object (value_view value.now) }
{
    matches!(value, Value::Object(_))
}

/// Whether a JSON value describes a server or a database.
fn is_info(value: &Value<'_>) -> bool
    ensures { result ≡ is_info (value_view value.now) }
{
    is_object(value) && value.get("error").is_none()
}

/// Appends a line with the identity of the server or the database that a response describes.
///
/// # Errors
///
/// Returns `Error` if the value is an error of CouchDB, or `Other` if the value is neither a description nor an error.
/// Returns `Memory` if an allocation failed.
pub fn info_of(alloc: Global, text: &mut Vec<u8>, value: &Value<'_>) -> Result<(), Said>
    ensures ok { OnOk result ((text.new.items ≡ text.old.items ++ info_text (value_view value.now))
        × (is_info (value_view value.now) ≡ true)) }
    ensures err { IfErr result (λ said. IsOther said → is_info (value_view value.now) ≡ false) }
    ensures said { IfErr result (IsSaid (value_view value.now)) }
{
    if !is_info(value) {
        return Err(said_of(alloc, value));
    }
    push_info(text, value)?;
    Ok(())
}
