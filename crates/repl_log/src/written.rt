//! Serializes logs as compact JSON objects.
ghost use Rattle.std.specs.Prelude.{◌≡◌, ◌++◌, false, OnOk, IfOk, string_bytes, codes, decimal};
ghost use Rattle.httpdate.specs.Date.{unix_secs, date_text};
ghost use Rattle.httpdate.specs.declared.date.HttpDate.{HttpDate as Date};
ghost use Rattle.json.specs.Print.{quoted};
ghost use Rattle.serde_json.specs.Written.{comma_if, compact_text};
ghost use Rattle.repl_log.specs.Answers.{GivesUnlessMemory, bytes_of};
ghost use Rattle.repl_log.specs.Entry.{value_of};
ghost use Rattle.repl_log.specs.Time.{time_text};
ghost use Rattle.repl_log.specs.Text.{rep_text, entry_with, entry_json, listed, log_json, log_text};

use crate::entry::Entry;
use crate::fault::LogFault;
use crate::log::Log;
use crate::moment::Moment;
use crate::replication::RepId;
use crate::text::{digits, whole_text};
use doc_json::push_text;
use httpdate::HttpDate;
use itoa::Buffer;
use std::alloc::{AllocError, Global};

/// Serializes a log as a compact JSON object (docs/PROFILE.md, "Replication ids and logs").
///
/// # Errors
///
/// - `EmptyLog`: the log has no entries.
/// - `Memory`: an allocation failed.
pub fn write_log(alloc: Global, id: &RepId, log: &Log) -> Result<Vec<u8>, LogFault>
    ensures answer { GivesUnlessMemory (bytes_of result) (log_text id.now log.now) }
    // The timestamps in a serialized log have the format of the crate `httpdate`.
    ensures times { (date : Date) → time_text (unix_secs date) ≡ date_text date }
{
    let Some(newest) = log.get(0) else {
        return Err(LogFault::EmptyLog);
    };
    Ok(whole_log(alloc, id, newest, log)?)
}

/// Serializes a log that has the given newest entry.
fn whole_log(alloc: Global, id: &RepId, newest: Entry, log: &Log) -> Result<Vec<u8>, AllocError>
    ensures { IfOk result (λ text. text.items ≡ compact_text (log_json id.now (value_of newest) log.now)) }
{
    let name = log_name(alloc, id)?;
    let session = digits(alloc, newest.session.0)?;
    let mut out = Vec::new(alloc);
    push_quoted(&mut out, "{\"_id\":", name.as_str())?;
    out.extend_from_slice(b",\"history\":[")?;
    push_entries(alloc, &mut out, log)?;
    out.push(b']')?;
    push_whole(&mut out, ",\"replication_id_version\":", 3)?;
    push_quoted(&mut out, ",\"session_id\":", session.as_str())?;
    push_whole(&mut out, ",\"source_last_seq\":", newest.recorded)?;
    out.push(b'}')?;
    Ok(out)
}

/// Returns the `_id` of a log, which is `_local/` and the replication id.
fn log_name(alloc: Global, id: &RepId) -> Result<String, AllocError>
    ensures { IfOk result (λ name. string_bytes name ≡ codes "_local/" ++ rep_text id.now) }
{
    let text = whole_text(alloc, id.source, id.target, id.chosen.as_ref())?;
    let mut name = String::from_str(alloc, "_local/")?;
    name.push_str(text.as_str())?;
    Ok(name)
}

/// Appends the entries of a log, newest first, separated by commas.
fn push_entries(alloc: Global, out: &mut Vec<u8>, log: &Log) -> Result<(), AllocError>
    ensures { OnOk result (out.new.items ≡ out.old.items ++ listed false log.now) }
{
    for i in 0..log.len() {
        let Some(entry) = log.get(i) else {
            unreachable!()
        };
        push_comma(out, 0 < i)?;
        push_entry(alloc, out, entry)?;
    }
    Ok(())
}

/// Appends a comma to a buffer if `later` is true.
fn push_comma(out: &mut Vec<u8>, later: bool) -> Result<(), AllocError>
    ensures { OnOk result (out.new.items ≡ out.old.items ++ comma_if later) }
{
    if later {
        out.push(b',')?;
    }
    Ok(())
}

/// Appends an entry of a log's history as a JSON object.
fn push_entry(alloc: Global, out: &mut Vec<u8>, entry: Entry) -> Result<(), AllocError>
    ensures { OnOk result (out.new.items ≡ out.old.items ++ compact_text (entry_json (value_of entry))) }
{
    let session = digits(alloc, entry.session.0)?;
    let start = date(alloc, entry.start_time)?;
    let end = date(alloc, entry.end_time)?;
    push_members(out, entry, session.as_str(), start.as_str(), end.as_str())
}

/// Appends the members of an entry, given the strings of the session id and of the two timestamps.
fn push_members(
    out: &mut Vec<u8>,
    entry: Entry,
    session: &str,
    start: &str,
    end: &str,
) -> Result<(), AllocError>
    ensures { OnOk result (out.new.items
        ≡ out.old.items ++ compact_text (entry_with (value_of entry) session.now start.now end.now)) }
{
    push_whole(out, "{\"doc_write_failures\":", entry.counts.failures)?;
    push_whole(out, ",\"docs_read\":", entry.counts.read)?;
    push_whole(out, ",\"docs_written\":", entry.counts.written)?;
    push_whole(out, ",\"end_last_seq\":", entry.recorded)?;
    push_quoted(out, ",\"end_time\":", end)?;
    push_whole(out, ",\"missing_checked\":", entry.counts.checked)?;
    push_whole(out, ",\"missing_found\":", entry.counts.found)?;
    push_whole(out, ",\"recorded_seq\":", entry.recorded)?;
    push_quoted(out, ",\"session_id\":", session)?;
    push_whole(out, ",\"start_last_seq\":", entry.start)?;
    push_quoted(out, ",\"start_time\":", start)?;
    out.push(b'}')?;
    Ok(())
}

/// Appends a member of a JSON object with an integer value. The text `name` has the member's name and its punctuation.
fn push_whole(out: &mut Vec<u8>, name: &str, number: u64) -> Result<(), AllocError>
    ensures { OnOk result (out.new.items ≡ out.old.items ++ (name.now ++ decimal number)) }
{
    out.extend_from_slice(name.as_bytes())?;
    let mut buffer = Buffer::new();
    out.extend_from_slice(buffer.format(number).as_bytes())
}

/// Appends a member of a JSON object with a string value. The text `name` has the member's name and its punctuation.
fn push_quoted(out: &mut Vec<u8>, name: &str, text: &str) -> Result<(), AllocError>
    ensures { OnOk result (out.new.items ≡ out.old.items ++ (name.now ++ quoted text.now)) }
{
    out.extend_from_slice(name.as_bytes())?;
    push_text(out, text)
}

/// Formats a timestamp as an HTTP date (IMF-fixdate).
fn date(alloc: Global, moment: Moment) -> Result<String, AllocError>
    ensures { IfOk result (λ text. string_bytes text ≡ time_text moment) }
{
    match HttpDate::from_unix_secs(moment.seconds()) {
        Ok(date) => httpdate::fmt_http_date(alloc, date),
        Err(_) => unreachable!(),
    }
}
