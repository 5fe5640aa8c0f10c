//! The errors for responses that do not have the requested form.
ghost use Rattle.std.specs.Prelude.{◌≡◌, IfErr, IfOk, Some, option_map};
ghost use Rattle.json.specs.Json.{document};
ghost use Rattle.json.specs.Value.{value_view};
ghost use Rattle.journal_responses.specs.Responses.{IsErrorOf, IsSaid, IsUnread, error_in, response_in};
ghost use Rattle.journal_responses.specs.declared.said.Said.TheVariants.{Memory};

use journal_lines::{text_at, text_of};
use json::{Error, Scratch, Value};
use std::alloc::{AllocError, Global};

/// The reason why a response does not have the requested form.
#[derive(Drop)]
pub enum Said {
    /// The response is an error of CouchDB, with its reason.
    Error(String, String),
    /// The response is not exactly one JSON value in UTF-8.
    NotJson,
    /// The response is a JSON value that does not have the requested form.
    Other,
    /// An allocation failed.
    Memory,
}

impl From<AllocError> for Said {
    ghost from_gives = { λ _ e. e ≡ Memory };

    fn from(_refused: AllocError) -> Said {
        Said::Memory
    }
}

fn value_of<'a>(alloc: Global, scratch: &'a mut Scratch, text: &'a str) -> Result<Value<'a>, Said>
    ensures ok { IfOk result (λ value. document text.now ≡ Some (value_view value)) }
    ensures err { IfErr result (IsUnread (document text.now)) }
{
    match Value::parse(alloc, text, scratch) {
        Ok(value) => Ok(value),
        Err(Error::OutOfMemory) => Err(Said::Memory),
        Err(_) => Err(Said::NotJson),
    }
}

/// Returns the JSON value of a response.
///
/// # Errors
///
/// Returns `NotJson` if the response is not exactly one JSON value in UTF-8. Returns `Memory` if an allocation failed.
pub fn read_said<'a>(
    alloc: Global,
    scratch: &'a mut Scratch,
    body: &'a [u8],
) -> Result<Value<'a>, Said>
    ensures ok { IfOk result (λ value. response_in body.now ≡ Some (value_view value)) }
    ensures err { IfErr result (IsUnread (response_in body.now)) }
{
    let Some(text) = text_of(body) else {
        return Err(Said::NotJson);
    };
    value_of(alloc, scratch, text)
}

/// Returns the members `error` and `reason` of a JSON value, if the value is an error of CouchDB.
fn error_in<'v, 'a>(value: &'v Value<'a>) -> Option<(&'a str, &'a str)>
    ensures { option_map (λ p. (p.0.now, p.1.now)) result ≡ error_in (value_view value.now) }
{
    match (text_at(value, "error"), text_at(value, "reason")) {
        (Some(error), Some(reason)) => Some((error, reason)),
        _ => None,
    }
}

/// Returns the fault for CouchDB's error with the given name and reason.
fn error_of(alloc: Global, error: &str, reason: &str) -> Result<Said, AllocError>
    ensures { IfOk result (IsErrorOf error.now reason.now) }
{
    let error = String::from_str(alloc, error)?;
    let reason = String::from_str(alloc, reason)?;
    Ok(Said::Error(error, reason))
}

/// Returns the reason why a JSON value does not have the requested form.
pub(crate) fn said_of(alloc: Global, value: &Value<'_>) -> Said
    ensures { IsSaid (value_view value.now) result }
{
    let Some((error, reason)) = error_in(value) else {
        return Said::Other;
    };
    match error_of(alloc, error, reason) {
        Ok(said) => said,
        Err(refused) => Said::from(refused),
    }
}
