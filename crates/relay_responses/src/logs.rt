//! Parses the replication logs in responses.
ghost use Rattle.std.specs.Prelude.{◌≡◌, IfOk, codes, option_map, string_bytes};
ghost use Rattle.json.specs.Find.{get};
ghost use Rattle.json.specs.Print.{print};
ghost use Rattle.json.specs.Tree.{HasNumbers, ItemsHaveNumbers, json_tokens};
ghost use Rattle.json.specs.Value.{value_view, items_view};
ghost use Rattle.relay_core.specs.Views.{entry_view, entries_view, log_view};
ghost use Rattle.relay_responses.specs.Read.{some_items};
ghost use Rattle.relay_responses.specs.Logs.{entry_in, history_of, log_in, is_stored};

use crate::values::{sequence_at, text_at};
use json::{Value, to_vec};
use relay_core::{LogEntry, ReplicationLog};
use std::alloc::{AllocError, Global};

/// Returns the compact JSON text of a JSON value.
fn json_of(alloc: Global, value: &Value<'_>) -> Result<String, AllocError>
    requires { HasNumbers (value_view value.now) }
    ensures { IfOk result (λ s. string_bytes s ≡ print (json_tokens (value_view value.now))) }
{
    match String::from_utf8(to_vec(alloc, value)?) {
        Ok(text) => Ok(text),
        Err(_) => Err(AllocError),
    }
}

/// Returns the history entry that a JSON value describes, or `None` if the value lacks a session id or a recorded
/// sequence.
fn entry_of(alloc: Global, value: &Value<'_>) -> Result<Option<LogEntry>, AllocError>
    requires { HasNumbers (value_view value.now) }
    ensures { IfOk result (λ o. option_map entry_view o ≡ entry_in (value_view value.now)) }
{
    let Some(session_id) = text_at(value, "session_id") else {
        return Ok(None);
    };
    let Some(recorded_seq) = sequence_at(value, "recorded_seq") else {
        return Ok(None);
    };
    let json = json_of(alloc, value)?;
    let session_id = String::from_str(alloc, session_id)?;
    let recorded_seq = String::from_str(alloc, recorded_seq)?;
    Ok(Some(LogEntry {
        session_id,
        recorded_seq,
        json,
    }))
}

/// Returns the log entries in a JSON list.
fn entries_of(alloc: Global, items: &[Value<'_>]) -> Result<Vec<LogEntry>, AllocError>
    requires { ItemsHaveNumbers (items_view items.now) }
    ensures { IfOk result (λ v. entries_view v.items ≡ some_items entry_in (items_view items.now)) }
{
    let mut entries = Vec::new(alloc);
    for item in items {
        if let Some(entry) = entry_of(alloc, item)? {
            entries.push(entry)?;
        }
    }
    Ok(entries)
}

/// Returns the log entries of a history, or `None` if the history is not a list.
fn history_in(alloc: Global, value: &Value<'_>) -> Result<Option<Vec<LogEntry>>, AllocError>
    requires { HasNumbers (value_view value.now) }
    ensures { IfOk result (λ o. option_map (λ v. entries_view v.items) o ≡ history_of (Some (value_view value.now))) }
{
    match value {
        Value::Array(items) => {
            let entries = entries_of(alloc, items.as_slice())?;
            Ok(Some(entries))
        }
        _ => Ok(None),
    }
}

/// Returns the history of a log, which is empty if the log lacks the member `history`. Returns `None` if the member
/// `history` is not a list.
fn history_of(alloc: Global, value: &Value<'_>) -> Result<Option<Vec<LogEntry>>, AllocError>
    requires { HasNumbers (value_view value.now) }
    ensures { IfOk result (λ o. option_map (λ v. entries_view v.items) o
        ≡ history_of (get (codes "history") (value_view value.now))) }
{
    match value.get("history") {
        None => Ok(Some(Vec::new(alloc))),
        Some(history) => history_in(alloc, history),
    }
}

/// Returns the replication log that a JSON value describes, or `None` if the value is not a log.
pub(crate) fn log_of(alloc: Global, value: &Value<'_>) -> Result<Option<ReplicationLog>, AllocError>
    requires { HasNumbers (value_view value.now) }
    ensures { IfOk result (λ o. option_map log_view o ≡ log_in (value_view value.now)) }
{
    let Some(rev) = text_at(value, "_rev") else {
        return Ok(None);
    };
    let Some(history) = history_of(alloc, value)? else {
        return Ok(None);
    };
    let rev = String::from_str(alloc, rev)?;
    Ok(Some(ReplicationLog {
        rev: Some(rev),
        history,
    }))
}

/// Whether a response says that the server stored a log.
pub(crate) fn is_stored(value: &Value<'_>) -> bool
    ensures { result ≡ is_stored (value_view value.now) }
{
    match value.get("ok") {
        Some(Value::Bool(ok)) => *ok,
        _ => false,
    }
}
