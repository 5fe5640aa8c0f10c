//! The text of each kind of request.
ghost use Rattle.std.specs.Prelude.{◌≡◌, ◌++◌, IfOk, codes, string_bytes};
ghost use Rattle.relay_core.specs.Views.{request_view};
ghost use Rattle.relay_core.specs.Messages.{get_changes};
ghost use Rattle.relay_requests.specs.Words.{side_text};
ghost use Rattle.relay_requests.specs.Requests.{encoded, wait_text, filter_text, query_text, changes_method, path_with, changes_path, two_lines, request_text};

use crate::bodies::{carry_body, diff_body};
use crate::logs::log_body;
use crate::notices::{done_body, exit_status, notice_kind, notice_text};
use crate::options::RequestOptions;
use crate::words::side_text;
use percent_encoding::{AsciiSet, NON_ALPHANUMERIC, ascii_set, percent_encode};
use relay_core::{Counts, Fault, Request, Side};
use std::alloc::{AllocError, Global};

/// The ASCII characters that are percent-encoded in a parameter.
pub(crate) const RESERVED: AsciiSet = ascii_set!(
    NON_ALPHANUMERIC
        .remove(b'-')
        .remove(b'.')
        .remove(b'_')
        .remove(b'~')
);

fn encoded(alloc: Global, text: &str) -> Result<String, AllocError>
    ensures { IfOk result (λ s. string_bytes s ≡ encoded text.now) }
{
    let mut out = String::new(alloc);
    percent_encode(text.as_bytes(), RESERVED).append_to(&mut out)?;
    Ok(out)
}

/// Returns the parameters of a longpoll request, or an empty string if the request has no timeout.
fn wait_text(alloc: Global, wait: Option<u32>) -> Result<String, AllocError>
    ensures { IfOk result (λ s. string_bytes s ≡ wait_text wait) }
{
    match wait {
        Some(milliseconds) => format!(in alloc; "&feed=longpoll&timeout={milliseconds}"),
        None => Ok(String::new(alloc)),
    }
}

/// Returns the parameter that names the filter of a changes feed.
fn filter_text(alloc: Global, filter: &str) -> Result<String, AllocError>
    ensures { IfOk result (λ s. string_bytes s ≡ filter_text filter.now) }
{
    if filter.is_empty() {
        return Ok(String::new(alloc));
    }
    let filter = encoded(alloc, filter)?;
    format!(in alloc; "&filter={filter}")
}

/// Returns `&` and the query parameters that the caller adds to a `_changes` request, or an empty string if there are
/// no such parameters.
fn query_text(alloc: Global, query: &str) -> Result<String, AllocError>
    ensures { IfOk result (λ s. string_bytes s ≡ query_text query.now) }
{
    if query.is_empty() {
        return Ok(String::new(alloc));
    }
    format!(in alloc; "&{query}")
}

fn changes_method(choice: &str) -> &'static str
    ensures { result.now ≡ changes_method choice.now }
{
    if choice.is_empty() { "GET" } else { "POST" }
}

fn path_with(
    alloc: Global,
    batch: u64,
    since: &str,
    wait: &str,
    filter: &str,
    query: &str,
) -> Result<String, AllocError>
    ensures { IfOk result (λ s. string_bytes s ≡ path_with batch since.now wait.now filter.now query.now) }
{
    format!(in alloc;
        "/_changes?style=all_docs&limit={batch}&seq_interval={batch}&since={since}{wait}{filter}{query}"
    )
}

fn changes_path(
    alloc: Global,
    options: &RequestOptions,
    since: &str,
    wait: Option<u32>,
) -> Result<String, AllocError>
    ensures { IfOk result (λ s. string_bytes s ≡ changes_path options.now since.now wait) }
{
    let since = encoded(alloc, since)?;
    let wait = wait_text(alloc, wait)?;
    let filter = filter_text(alloc, options.filter.as_str())?;
    let query = query_text(alloc, options.query.as_str())?;
    path_with(
        alloc,
        options.batch,
        since.as_str(),
        wait.as_str(),
        filter.as_str(),
        query.as_str(),
    )
}

/// Returns the head line and the body line of a request, each followed by a line feed.
fn two_lines(mut head: Vec<u8>, body: &[u8]) -> Result<Vec<u8>, AllocError>
    ensures { IfOk result (λ text. text.items ≡ two_lines head.items body.now) }
{
    head.push(b'\n')?;
    head.extend_from_slice(body)?;
    head.push(b'\n')?;
    Ok(head)
}

/// Returns the head line of a request that reads or stores a server's replication log.
fn log_head(alloc: Global, path: &str, side: Side, method: &str) -> Result<String, AllocError>
    ensures { IfOk result (λ s. string_bytes s ≡ side_text side ++ codes " " ++ method.now ++ codes " " ++ path.now) }
{
    let side = side_text(side);
    format!(in alloc; "{side} {method} {path}")
}

/// Returns a request that reads or stores a server's replication log.
fn log_request(
    alloc: Global,
    options: &RequestOptions,
    side: Side,
    method: &str,
    body: &[u8],
) -> Result<Vec<u8>, AllocError>
    ensures { IfOk result (λ text. text.items
        ≡ two_lines (side_text side ++ codes " " ++ method.now ++ codes " " ++ string_bytes options.now.log_path) body.now) }
{
    let head = log_head(alloc, options.log_path.as_str(), side, method)?;
    two_lines(head.into_bytes(), body)
}

fn changes_request(
    alloc: Global,
    options: &RequestOptions,
    since: &str,
    wait: Option<u32>,
) -> Result<Vec<u8>, AllocError>
    ensures { IfOk result (λ text. text.items ≡ request_text options.now (get_changes since.now wait)) }
{
    let method = changes_method(options.choice.as_str());
    let path = changes_path(alloc, options, since, wait)?;
    let head = format!(in alloc; "source {method} {path}")?;
    two_lines(head.into_bytes(), options.choice.as_bytes())
}

/// Returns the text of a request, which is a head line and a body line.
pub fn write_request(
    alloc: Global,
    options: &RequestOptions,
    request: &Request<'_>,
) -> Result<Vec<u8>, AllocError>
    ensures { IfOk result (λ text. text.items ≡ request_text options.now (request_view request.now)) }
{
    match request {
        Request::GetLog(side) => log_request(alloc, options, *side, "GET", b""),
        Request::GetChanges(since, wait) => changes_request(alloc, options, since, *wait),
        Request::RevsDiff(docs) => {
            let body = diff_body(alloc, docs)?;
            let head = String::from_str(alloc, "target POST /_revs_diff")?;
            two_lines(head.into_bytes(), body.as_slice())
        }
        Request::Carry(docs) => {
            let body = carry_body(alloc, docs)?;
            let head = String::from_str(
                alloc,
                "carry POST /_bulk_get?revs=true&latest=true&attachments=true",
            )?;
            two_lines(head.into_bytes(), body.as_slice())
        }
        Request::PutLog(side, log, checkpoint) => {
            let body = log_body(alloc, options.session_id.as_str(), log, checkpoint)?;
            log_request(alloc, options, *side, "PUT", body.as_slice())
        }
        Request::Tell(notice) => {
            let kind = notice_kind(notice);
            let head = format!(in alloc; "tell {kind} -")?;
            let body = notice_text(alloc, notice)?;
            two_lines(head.into_bytes(), body.as_bytes())
        }
        Request::Done(fault, counts, recorded) => {
            let status = exit_status(*fault, counts);
            let head = format!(in alloc; "done {status} -")?;
            let body = done_body(alloc, options.session_id.as_str(), *fault, counts, recorded)?;
            two_lines(head.into_bytes(), body.as_slice())
        }
    }
}
