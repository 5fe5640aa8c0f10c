//! Parses the JSON text of a response.
ghost use Rattle.std.specs.Prelude.{◌≡◌, IfOk, IfSome, string_bytes, option_map};
ghost use Rattle.json.specs.Json.{Json};
ghost use Rattle.json.specs.Tree.{HasNumbers};
ghost use Rattle.json.specs.Value.{value_view};
ghost use Rattle.relay_core.specs.Messages.{ResponseView};
ghost use Rattle.relay_responses.specs.Read.{json_in};
ghost use Rattle.relay_responses.specs.Responses.{is_success, words_in, json_response, read_as};
ghost use Rattle.relay_responses.specs.Parsed.{response_by, IsWritable};

use crate::values::text_at;
use json::{Error, Scratch, Value};
use relay_core::{Fault, Operation, Side};
use std::alloc::{AllocError, Global};
use std::str;

/// The result of parsing the body of a response.
#[derive(Drop)]
pub(crate) enum Parsed<'a> {
    Json(Value<'a>),
    Fault(Fault),
}

/// Returns the JSON value of a response's body, or `None` if the body is not exactly one JSON value.
fn value_of<'a>(
    alloc: Global,
    scratch: &'a mut Scratch,
    body: &'a [u8],
) -> Result<Option<Value<'a>>, AllocError>
    ensures value { IfOk result (λ o. option_map value_view o ≡ json_in body.now) }
    ensures writable { IfOk result (λ o. IfSome o (λ v. HasNumbers (value_view v))) }
{
    let Ok(text) = str::from_utf8(body) else {
        return Ok(None);
    };
    match Value::parse(alloc, text, scratch) {
        Ok(value) => Ok(Some(value)),
        Err(Error::OutOfMemory) => Err(AllocError),
        Err(_) => Ok(None),
    }
}

/// Returns the error and the reason that a server's response gives, as one string.
pub(crate) fn words_of(
    alloc: Global,
    scratch: &mut Scratch,
    body: &[u8],
) -> Result<String, AllocError>
    ensures { IfOk result (λ s. string_bytes s ≡ words_in body.now) }
{
    let Some(value) = value_of(alloc, scratch, body)? else {
        return String::from_str(alloc, "no error text");
    };
    match (text_at(&value, "error"), text_at(&value, "reason")) {
        (Some(error), Some(reason)) => format!(in alloc; "{error}: {reason}"),
        _ => String::from_str(alloc, "no error text"),
    }
}

/// Returns the JSON value of a response with any status, or a fault if the body is not JSON.
pub(crate) fn parsed_json<'a>(
    alloc: Global,
    scratch: &'a mut Scratch,
    operation: Operation,
    body: &'a [u8],
) -> Result<Parsed<'a>, AllocError>
    ensures response { IfOk result (λ p. (f : Json → ResponseView) → response_by f p ≡ json_response operation body.now f) }
    ensures writable { IfOk result IsWritable }
{
    match value_of(alloc, scratch, body)? {
        Some(value) => Ok(Parsed::Json(value)),
        None => Ok(Parsed::Fault(Fault::NotJson(operation))),
    }
}

fn is_success(status: u16) -> bool
    ensures { result ≡ is_success status }
{
    status == 200 || status == 201 || status == 202
}

/// Returns the JSON value of a response with a status of success, or a fault.
pub(crate) fn parsed_if_success<'a>(
    alloc: Global,
    scratch: &'a mut Scratch,
    side: Side,
    operation: Operation,
    status: u16,
    body: &'a [u8],
) -> Result<Parsed<'a>, AllocError>
    ensures response { IfOk result (λ p. (f : Json → ResponseView) → response_by f p ≡ read_as side operation status body.now f) }
    ensures writable { IfOk result IsWritable }
{
    if status == 0 {
        return Ok(Parsed::Fault(Fault::Unanswered(side, operation)));
    }
    if is_success(status) {
        return parsed_json(alloc, scratch, operation, body);
    }
    let words = words_of(alloc, scratch, body)?;
    Ok(Parsed::Fault(Fault::Status(side, operation, status, words)))
}
