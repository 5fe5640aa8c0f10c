//! Names of servers, kinds of requests and required responses, for use in requests and error messages.
ghost use Rattle.std.specs.Prelude.{◌≡◌, IfOk, string_bytes};
ghost use Rattle.relay_requests.specs.Words.{side_text, operation_text, expected_text, quoted};

use json::Writer;
use relay_core::{Operation, Side};
use std::alloc::{AllocError, Global};

/// Returns the name of a server.
pub(crate) fn side_text(side: Side) -> &'static str
    ensures { result.now ≡ side_text side }
{
    match side {
        Side::Source => "source",
        Side::Target => "target",
    }
}

/// Returns the name of a kind of request for use in error messages.
pub(crate) fn operation_text(operation: Operation) -> &'static str
    ensures { result.now ≡ operation_text operation }
{
    match operation {
        Operation::ReadLog => "GET _local",
        Operation::Changes => "_changes",
        Operation::RevsDiff => "_revs_diff",
        Operation::Carry => "_bulk_docs",
        Operation::WriteLog => "PUT _local",
    }
}

/// Returns the name of the form that a response to a kind of request must have.
pub(crate) fn expected_text(operation: Operation) -> &'static str
    ensures { result.now ≡ expected_text operation }
{
    match operation {
        Operation::ReadLog => "a replication log",
        Operation::Changes => "a page of changes",
        Operation::RevsDiff => "an object of missing revisions",
        Operation::Carry => "a list",
        Operation::WriteLog => "an object with \"ok\":true",
    }
}

/// Returns the JSON string of a text, in quotation marks.
pub(crate) fn quoted(alloc: Global, text: &str) -> Result<String, AllocError>
    ensures { IfOk result (λ s. string_bytes s ≡ quoted text.now) }
{
    let mut writer = Writer::new(Vec::new(alloc));
    writer.string(text)?;
    match String::from_utf8(writer.into_inner()) {
        Ok(text) => Ok(text),
        Err(_) => Err(AllocError),
    }
}
