//! The names and the descriptions of faults.
ghost use Rattle.std.specs.Prelude.{◌≡◌, IfOk, option_map, string_bytes};
ghost use Rattle.relay_core.specs.Views.{fault_view};
ghost use Rattle.relay_requests.specs.Words.{fault_name, fault_text, missing_text, row_error_text};

use crate::words::{expected_text, operation_text, quoted, side_text};
use relay_core::{Fault, Unaccounted};
use std::alloc::{AllocError, Global};

/// Returns the name of a fault, which `couch_relay` prints as the member `error` of its result.
pub(crate) fn fault_name(fault: &Fault) -> &'static str
    ensures { result.now ≡ fault_name (fault_view fault.now) }
{
    match fault {
        Fault::Unanswered(_, _) => "unanswered",
        Fault::Status(_, _, _, _) => "status",
        Fault::NotJson(_) => "not_json",
        Fault::BadFeed => "bad_feed",
        Fault::BadDiff => "bad_diff",
        Fault::BadAnswer(_) => "bad_answer",
        Fault::BadLog(_) => "bad_log",
        Fault::Refused(_, _, _, _) => "refused",
        Fault::Unaccounted(_) => "unaccounted",
        Fault::LogChanged => "log_changed",
    }
}

/// Returns a comma and a description of the error in a `_bulk_docs` row. If the row has no error, returns an empty
/// string.
fn row_error_text(alloc: Global, error: &Option<(String, String)>) -> Result<String, AllocError>
    ensures { IfOk result (λ s. string_bytes s
        ≡ row_error_text (option_map (λ e. (string_bytes e.0, string_bytes e.1)) error.now)) }
{
    match error {
        Some((error, reason)) => {
            let error = error.as_str();
            let reason = reason.as_str();
            format!(in alloc; ", {error}: {reason}")
        }
        None => Ok(String::new(alloc)),
    }
}

/// Returns the sentence that says which leaf is missing on the target, and how many leaves are missing.
fn missing_text(
    alloc: Global,
    id: &str,
    rev: &str,
    error: &str,
    count: u64,
) -> Result<String, AllocError>
    ensures { IfOk result (λ s. string_bytes s ≡ missing_text id.now rev.now error.now count) }
{
    format!(in alloc;
        "{id} {rev} is missing on the target and was not refused{error}; {count} in all"
    )
}

/// Returns the description of the fault `Unaccounted`, which says that leaves are missing on the target.
fn unaccounted_text(alloc: Global, leaf: &Unaccounted) -> Result<String, AllocError>
    ensures { IfOk result (λ s. string_bytes s ≡ fault_text (fault_view (Fault.Unaccounted leaf.now))) }
{
    let id = quoted(alloc, leaf.id.as_str())?;
    let error = row_error_text(alloc, &leaf.error)?;
    missing_text(
        alloc,
        id.as_str(),
        leaf.rev.as_str(),
        error.as_str(),
        leaf.count,
    )
}

/// Returns the description of a fault for the user.
pub(crate) fn fault_text(alloc: Global, fault: &Fault) -> Result<String, AllocError>
    ensures { IfOk result (λ s. string_bytes s ≡ fault_text (fault_view fault.now)) }
{
    match fault {
        Fault::Unanswered(side, operation) => {
            let side = side_text(*side);
            let operation = operation_text(*operation);
            format!(in alloc; "incomplete response from the {side} to {operation}")
        }
        Fault::Status(side, operation, status, words) => {
            let side = side_text(*side);
            let operation = operation_text(*operation);
            let words = words.as_str();
            format!(in alloc; "status {status} from the {side} for {operation}: {words}")
        }
        Fault::NotJson(operation) => {
            let operation = operation_text(*operation);
            format!(in alloc; "the response to {operation} is not JSON")
        }
        Fault::BadFeed => String::from_str(
            alloc,
            "the response to _changes is not a page of changes",
        ),
        Fault::BadDiff => String::from_str(
            alloc,
            "the response to _revs_diff is not an object of missing revisions, or it names a revision that was not requested",
        ),
        Fault::BadAnswer(operation) => {
            let expected = expected_text(*operation);
            let operation = operation_text(*operation);
            format!(in alloc; "the response to {operation} is not {expected}")
        }
        Fault::BadLog(side) => {
            let side = side_text(*side);
            format!(in alloc;
                "the replication log of the {side} has no _rev, or its history is not a list"
            )
        }
        Fault::Refused(id, side, status, words) => {
            let id = quoted(alloc, id.as_str())?;
            let side = side_text(*side);
            let words = words.as_str();
            format!(in alloc; "status {status} from the {side} for document {id} alone: {words}")
        }
        Fault::Unaccounted(leaf) => unaccounted_text(alloc, leaf),
        Fault::LogChanged => String::from_str(
            alloc,
            "another replication writes the same replication logs",
        ),
    }
}
