//! Interprets each response according to the kind of the request.
ghost use Rattle.std.specs.Prelude.{◌≡◌, IfOk};
ghost use Rattle.relay_core.specs.declared.messages.Operation.TheVariants.{ReadLog};
ghost use Rattle.relay_core.specs.Messages.{log_response};
ghost use Rattle.relay_responses.specs.Logs.{no_log};
ghost use Rattle.relay_core.specs.Views.{docs_view, request_view, response_view};
ghost use Rattle.relay_responses.specs.Responses.{is_rejection, json_response, side_or, log_response_in, page_response_in, diff_response_in, carry_response_in, put_response_in, response_in};

use crate::diffs::diff_of;
use crate::logs::{is_stored, log_of};
use crate::pages::page_of;
use crate::parsed::{Parsed, parsed_if_success, parsed_json, words_of};
use crate::rows::row_errors_of;
use json::Scratch;
use relay_core::{DocLeaves, Fault, Operation, ReplicationLog, Request, Response, Side};
use std::alloc::{AllocError, Global};

/// Returns the response to a request for a replication log that does not exist.
fn no_log_response(
    alloc: Global,
    scratch: &mut Scratch,
    body: &[u8],
) -> Result<Response, AllocError>
    ensures { IfOk result (λ r. response_view r ≡ json_response ReadLog body.now (λ j. log_response no_log)) }
{
    match parsed_json(alloc, scratch, Operation::ReadLog, body)? {
        Parsed::Json(_) => Ok(Response::Log(ReplicationLog {
            rev: None,
            history: Vec::new(alloc),
        })),
        Parsed::Fault(fault) => Ok(Response::Fault(fault)),
    }
}

/// Returns the response to a request for a replication log.
fn log_response(
    alloc: Global,
    scratch: &mut Scratch,
    side: Side,
    from: Side,
    status: u16,
    body: &[u8],
) -> Result<Response, AllocError>
    ensures { IfOk result (λ r. response_view r ≡ log_response_in side from status body.now) }
{
    if status == 404 {
        return no_log_response(alloc, scratch, body);
    }
    match parsed_if_success(alloc, scratch, from, Operation::ReadLog, status, body)? {
        Parsed::Json(value) => match log_of(alloc, &value)? {
            Some(log) => Ok(Response::Log(log)),
            None => Ok(Response::Fault(Fault::BadLog(side))),
        },
        Parsed::Fault(fault) => Ok(Response::Fault(fault)),
    }
}

fn page_response(
    alloc: Global,
    scratch: &mut Scratch,
    from: Side,
    status: u16,
    body: &[u8],
) -> Result<Response, AllocError>
    ensures { IfOk result (λ r. response_view r ≡ page_response_in from status body.now) }
{
    match parsed_if_success(alloc, scratch, from, Operation::Changes, status, body)? {
        Parsed::Json(value) => match page_of(alloc, &value)? {
            Some(page) => Ok(Response::Page(page)),
            None => Ok(Response::Fault(Fault::BadFeed)),
        },
        Parsed::Fault(fault) => Ok(Response::Fault(fault)),
    }
}

fn diff_response(
    alloc: Global,
    scratch: &mut Scratch,
    docs: &[DocLeaves],
    from: Side,
    status: u16,
    body: &[u8],
) -> Result<Response, AllocError>
    ensures { IfOk result (λ r. response_view r ≡ diff_response_in (docs_view docs.now) from status body.now) }
{
    match parsed_if_success(alloc, scratch, from, Operation::RevsDiff, status, body)? {
        Parsed::Json(value) => match diff_of(alloc, docs, &value)? {
            Some(missing) => Ok(Response::Missing(missing)),
            None => Ok(Response::Fault(Fault::BadDiff)),
        },
        Parsed::Fault(fault) => Ok(Response::Fault(fault)),
    }
}

/// Whether `status` means that a failed transfer may succeed with fewer documents.
fn is_rejection(status: u16) -> bool
    ensures { result ≡ is_rejection status }
{
    400 <= status
        && status < 500
        && !(status == 401 || status == 403 || status == 404 || status == 408 || status == 429)
}

fn carry_response(
    alloc: Global,
    scratch: &mut Scratch,
    from: Side,
    status: u16,
    body: &[u8],
) -> Result<Response, AllocError>
    ensures { IfOk result (λ r. response_view r ≡ carry_response_in from status body.now) }
{
    if is_rejection(status) {
        let words = words_of(alloc, scratch, body)?;
        return Ok(Response::CarryRejected(from, status, words));
    }
    match parsed_if_success(alloc, scratch, from, Operation::Carry, status, body)? {
        Parsed::Json(value) => match row_errors_of(alloc, &value)? {
            Some(rows) => Ok(Response::RowErrors(rows)),
            None => Ok(Response::Fault(Fault::BadAnswer(Operation::Carry))),
        },
        Parsed::Fault(fault) => Ok(Response::Fault(fault)),
    }
}

fn put_response(
    alloc: Global,
    scratch: &mut Scratch,
    from: Side,
    status: u16,
    body: &[u8],
) -> Result<Response, AllocError>
    ensures { IfOk result (λ r. response_view r ≡ put_response_in from status body.now) }
{
    if status == 409 {
        return Ok(Response::Conflict);
    }
    match parsed_if_success(alloc, scratch, from, Operation::WriteLog, status, body)? {
        Parsed::Json(value) => {
            if is_stored(&value) {
                Ok(Response::Stored)
            } else {
                Ok(Response::Fault(Fault::BadAnswer(Operation::WriteLog)))
            }
        }
        Parsed::Fault(fault) => Ok(Response::Fault(fault)),
    }
}

/// Returns the server that the response names, or else the server of the request.
fn side_or(who: Option<Side>, side: Side) -> Side
    ensures { result ≡ side_or who side }
{
    match who {
        Some(named) => named,
        None => side,
    }
}

/// Returns the parsed response to a request. The call interprets the response's body according to the kind of the
/// request.
pub fn read_response(
    alloc: Global,
    scratch: &mut Scratch,
    request: &Request<'_>,
    status: u16,
    who: Option<Side>,
    body: &[u8],
) -> Result<Response, AllocError>
    ensures { IfOk result (λ r. response_view r ≡ response_in (request_view request.now) status who body.now) }
{
    match request {
        Request::GetLog(side) => log_response(
            alloc,
            scratch,
            *side,
            side_or(who, *side),
            status,
            body,
        ),
        Request::GetChanges(_, _) => page_response(
            alloc,
            scratch,
            side_or(who, Side::Source),
            status,
            body,
        ),
        Request::RevsDiff(docs) => diff_response(
            alloc,
            scratch,
            docs,
            side_or(who, Side::Target),
            status,
            body,
        ),
        Request::Carry(_) => carry_response(
            alloc,
            scratch,
            side_or(who, Side::Source),
            status,
            body,
        ),
        Request::PutLog(side, _, _) => put_response(
            alloc,
            scratch,
            side_or(who, *side),
            status,
            body,
        ),
        Request::Tell(_) | Request::Done(_, _, _) => Ok(Response::Noted),
    }
}
