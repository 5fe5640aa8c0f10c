//! Writes a request to a given writer, and reads the response to the request from a given reader.
ghost use Rattle.std.specs.Prelude.{◌≡◌, ◌++◌, ℕ, List, IfOk, OnOk, OnErr};
ghost use Rattle.std.specs.Io.KnownBytes.{Appends, Keeps};
ghost use Rattle.relay_core.specs.Views.{request_view};
ghost use Rattle.relay_requests.specs.Requests.{request_text};
ghost use Rattle.couch_relay.specs.Faults.{ReadCounts, WriteCounts};
ghost use Rattle.couch_relay.specs.Inbox.{pending, IsInbox, Took};
ghost use Rattle.couch_relay.specs.Runs.{Receives};

use crate::inbox::Inbox;
use json::Scratch;
use relay_core::{Request, Response};
use relay_requests::{RequestOptions, write_request};
use relay_responses::read_response;
use script_engine::{ScriptFault, ScriptRead, ScriptWrite, write_all};
use std::alloc::Global;

/// A response, with the date from the response's first line.
#[derive(Drop)]
pub(crate) struct Dated {
    pub(crate) response: Response,
    pub(crate) date: String,
}

/// Flushes a writer, so that the writer passes on all bytes that it has accepted.
///
/// # Errors
///
/// Returns `Write` if the writer failed.
fn pass_on<W: ScriptWrite>(writer: &mut W) -> Result<(), ScriptFault>
    ensures bytes { Keeps (W.held writer.old) (W.held writer.new) }
    ensures sent { OnOk result (Keeps (W.held writer.new) (W.sent writer.new)) }
    ensures counts { WriteCounts result (W.failures writer.old) (W.failures writer.new) }
{
    match writer.flush() {
        Ok(()) => Ok(()),
        Err(_) => Err(ScriptFault::Write),
    }
}

/// Writes a request and flushes the writer.
///
/// # Errors
///
/// Returns `Memory` if an allocation failed. If the call returns `Memory`, the output is unchanged. Returns `Write` if
/// the writer failed. If the call returns `Write`, it has written a prefix of the request.
pub(crate) fn send<W: ScriptWrite>(
    alloc: Global,
    options: &RequestOptions,
    request: &Request<'_>,
    writer: &mut W,
) -> Result<(), ScriptFault>
    ensures text { OnOk result (Appends (W.held writer.old) (W.held writer.new) (request_text options.now (request_view request.now))) }
    ensures sent { OnOk result (Keeps (W.held writer.new) (W.sent writer.new)) }
    ensures err { OnErr result ((front : List ℕ) × (back : List ℕ)
        × (request_text options.now (request_view request.now) ≡ front ++ back)
        × Appends (W.held writer.old) (W.held writer.new) front) }
    ensures counts { WriteCounts result (W.failures writer.old) (W.failures writer.new) }
{
    let text = write_request(alloc, options, request)?;
    write_all(writer, text.as_slice())?;
    pass_on(writer)
}

/// Reads the response to a request from the reader. Returns `None` if the input has no further complete response.
pub(crate) fn receive<R: ScriptRead>(
    alloc: Global,
    request: &Request<'_>,
    inbox: &mut Inbox,
    scratch: &mut Scratch,
    reader: &mut R,
) -> Result<Option<Dated>, ScriptFault>
    requires { IsInbox inbox.old }
    ensures inbox { OnOk result (IsInbox inbox.new) }
    ensures response { IfOk result (λ o. Receives (request_view request.now) (R.taken reader.old) (R.taken reader.new)
        (R.ended reader.new) (pending inbox.old) (pending inbox.new) o) }
    ensures err { OnErr result (Took (R.taken reader.old) (R.taken reader.new)) }
    ensures counts { ReadCounts result (R.reads reader.new) (R.failures reader.old) (R.failures reader.new) }
{
    let Some(head) = inbox.head(alloc, reader)? else {
        return Ok(None);
    };
    if !inbox.has(reader, head.size)? {
        return Ok(None);
    }
    let response = read_response(
        alloc,
        scratch,
        request,
        head.status,
        head.who,
        inbox.body(head.size),
    )?;
    inbox.take(head.size);
    Ok(Some(Dated {
        response,
        date: head.date,
    }))
}
