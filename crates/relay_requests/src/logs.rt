//! The JSON text of a replication log.
ghost use Rattle.std.specs.Prelude.{List, length, nat_lt, ◌≡◌, ◌++◌, ◌∷◌, [], IfOk, OnOk, count_by, decimal, option_map, string_bytes};
ghost use Rattle.std.specs.List.{list_any};
ghost use Rattle.json.specs.Token.{key, string, number};
ghost use Rattle.json.specs.Print.{print};
ghost use Rattle.relay_requests.specs.Kept.{kept_view, recorded_view};
ghost use Rattle.relay_core.specs.Messages.{EntryView};
ghost use Rattle.relay_core.specs.Views.{log_view, checkpoint_view, entry_view, entries_view};
ghost use Rattle.relay_requests.specs.Logs.{counts_tokens, entry_tokens, head_tokens, rev_tokens, position_tokens, is_of_session, is_recorded, may_keep, thinned, older_text, log_text};

use json::Writer;
use relay_core::{Checkpoint, Counts, LogEntry, ReplicationLog};
use std::alloc::{AllocError, Global};

fn put_count(writer: &mut Writer, name: &str, count: u64) -> Result<(), AllocError>
    ensures before { OnOk result (writer.new.before ≡ writer.old.before) }
    ensures tokens { OnOk result (writer.new.tokens ≡ writer.old.tokens ++ key name.now ∷ number (decimal count) ∷ []) }
{
    writer.key(name)?;
    writer.u64(count)?;
    Ok(())
}

/// Writes the counts of a run as members of an object.
pub(crate) fn put_counts(writer: &mut Writer, counts: &Counts) -> Result<(), AllocError>
    ensures before { OnOk result (writer.new.before ≡ writer.old.before) }
    ensures tokens { OnOk result (writer.new.tokens ≡ writer.old.tokens ++ counts_tokens counts.now) }
{
    put_count(writer, "missing_checked", counts.missing_checked)?;
    put_count(writer, "missing_found", counts.missing_found)?;
    put_count(writer, "docs_read", counts.docs_read)?;
    put_count(writer, "docs_written", counts.docs_written)?;
    put_count(writer, "doc_write_failures", counts.doc_write_failures)?;
    Ok(())
}

fn put_member(writer: &mut Writer, name: &str, text: &str) -> Result<(), AllocError>
    ensures before { OnOk result (writer.new.before ≡ writer.old.before) }
    ensures tokens { OnOk result (writer.new.tokens ≡ writer.old.tokens ++ key name.now ∷ string text.now ∷ []) }
{
    writer.key(name)?;
    writer.string(text)?;
    Ok(())
}

fn put_entry(
    writer: &mut Writer,
    session_id: &str,
    checkpoint: &Checkpoint,
) -> Result<(), AllocError>
    ensures before { OnOk result (writer.new.before ≡ writer.old.before) }
    ensures tokens { OnOk result (writer.new.tokens
        ≡ writer.old.tokens ++ entry_tokens session_id.now (checkpoint_view checkpoint.now)) }
{
    writer.begin_object()?;
    put_member(writer, "session_id", session_id)?;
    put_member(writer, "start_time", checkpoint.start_time.as_str())?;
    put_member(writer, "end_time", checkpoint.end_time.as_str())?;
    put_member(writer, "start_last_seq", checkpoint.start_last_seq.as_str())?;
    put_member(writer, "end_last_seq", checkpoint.seq.as_str())?;
    put_member(writer, "recorded_seq", checkpoint.seq.as_str())?;
    put_counts(writer, &checkpoint.counts)?;
    writer.end_object()?;
    Ok(())
}

/// Writes the member `_rev` of a log, if the log has a revision.
fn put_rev(writer: &mut Writer, rev: &Option<String>) -> Result<(), AllocError>
    ensures before { OnOk result (writer.new.before ≡ writer.old.before) }
    ensures tokens { OnOk result (writer.new.tokens
        ≡ writer.old.tokens ++ rev_tokens (option_map string_bytes rev.now)) }
{
    match rev {
        Some(rev) => put_member(writer, "_rev", rev.as_str()),
        None => Ok(()),
    }
}

/// Writes the members of a log for the log's session id, recorded sequence and format version.
pub(crate) fn put_position(
    writer: &mut Writer,
    session_id: &str,
    seq: &str,
) -> Result<(), AllocError>
    ensures before { OnOk result (writer.new.before ≡ writer.old.before) }
    ensures tokens { OnOk result (writer.new.tokens ≡ writer.old.tokens ++ position_tokens session_id.now seq.now) }
{
    put_member(writer, "session_id", session_id)?;
    put_member(writer, "source_last_seq", seq)?;
    put_count(writer, "replication_id_version", 4)?;
    Ok(())
}

/// Writes the beginning of a replication log, which ends before the first entry of the log's history.
fn put_head(
    writer: &mut Writer,
    rev: &Option<String>,
    session_id: &str,
    seq: &str,
) -> Result<(), AllocError>
    ensures before { OnOk result (writer.new.before ≡ writer.old.before) }
    ensures tokens { OnOk result (writer.new.tokens
        ≡ writer.old.tokens ++ head_tokens (option_map string_bytes rev.now) session_id.now seq.now) }
{
    writer.begin_object()?;
    put_rev(writer, rev)?;
    put_position(writer, session_id, seq)?;
    writer.key("history")?;
    writer.begin_array()?;
    Ok(())
}

/// Returns the JSON text of the beginning of a replication log, which ends before the first entry of the log's history.
fn log_head(
    alloc: Global,
    rev: &Option<String>,
    session_id: &str,
    seq: &str,
) -> Result<Vec<u8>, AllocError>
    ensures { IfOk result (λ text. text.items
        ≡ print (head_tokens (option_map string_bytes rev.now) session_id.now seq.now)) }
{
    let mut writer = Writer::new(Vec::new(alloc));
    put_head(&mut writer, rev, session_id, seq)?;
    Ok(writer.into_inner())
}

/// A session id, and a sequence that the session has recorded.
#[derive(Clone, Copy, Drop)]
pub(crate) struct Recorded<'a> {
    pub(crate) session_id: &'a str,
    pub(crate) seq: &'a str,
}

/// Returns the number of kept log entries that belong to a session.
fn count_of_session(kept: &[Recorded<'_>], session_id: &str) -> usize
    ensures { result ≡ count_by (is_of_session session_id.now) (kept_view kept.now) }
{
    kept.iter().filter(|r| r.session_id == session_id).count()
}

/// Whether the kept log entries contain an entry with the given session id and the given recorded sequence.
fn has_entry(kept: &[Recorded<'_>], session_id: &str, seq: &str) -> bool
    ensures { result ≡ list_any (λ r. is_recorded session_id.now seq.now (recorded_view r)) kept.now }
{
    kept.iter()
        .any(|r| r.session_id == session_id && r.seq == seq)
}

/// Whether the session `session_id` has recorded the sequence `seq` in one of the log entries `kept`.
fn is_recorded(kept: &[Recorded<'_>], session_id: &str, seq: &str) -> bool
    ensures { result ≡ list_any (is_recorded session_id.now seq.now) (kept_view kept.now) }
{
    has_entry(kept, session_id, seq)
}

/// Whether a log may keep one more entry (a log keeps at most 50 entries).
fn has_space(kept: &[Recorded<'_>]) -> bool
    ensures { result ≡ nat_lt (length (kept_view kept.now)) 50 }
{
    kept.len() < 50
}

/// Whether a log may keep one more entry of a session (a log keeps at most 2 entries of a session).
fn has_space_for(kept: &[Recorded<'_>], session_id: &str) -> bool
    ensures { result ≡ nat_lt (count_by (is_of_session session_id.now) (kept_view kept.now)) 2 }
{
    count_of_session(kept, session_id) < 2
}

/// Whether a log keeps the older entry `entry` in addition to the newer entries `kept`.
fn may_keep(kept: &[Recorded<'_>], entry: &LogEntry) -> bool
    ensures { result ≡ may_keep (kept_view kept.now) (entry_view entry.now) }
{
    let session_id = entry.session_id.as_str();
    has_space(kept)
        && has_space_for(kept, session_id)
        && !is_recorded(kept, session_id, entry.recorded_seq.as_str())
}

/// Writes the older entry `entry` after a comma if the log keeps this entry.
fn put_if_kept<'a>(
    out: &mut Vec<u8>,
    kept: &mut Vec<Recorded<'a>>,
    entry: &'a LogEntry,
) -> Result<(), AllocError>
    ensures { OnOk result ((es : List EntryView)
        → out.new.items ++ older_text (thinned (kept_view kept.new.items) es)
        ≡ out.old.items ++ older_text (thinned (kept_view kept.old.items) (entry_view entry.now ∷ es))) }
{
    if !may_keep(kept.as_slice(), entry) {
        return Ok(());
    }
    kept.push(Recorded {
        session_id: entry.session_id.as_str(),
        seq: entry.recorded_seq.as_str(),
    })?;
    out.push(b',')?;
    out.extend_from_slice(entry.json.as_bytes())?;
    Ok(())
}

/// Writes the older entries that the log keeps, each after a comma.
fn put_older(
    alloc: Global,
    out: &mut Vec<u8>,
    history: &[LogEntry],
    session_id: &str,
    seq: &str,
) -> Result<(), AllocError>
    ensures { OnOk result (out.new.items ≡ out.old.items
        ++ older_text (thinned ((session_id.now, seq.now) ∷ []) (entries_view history.now))) }
{
    let mut kept = Vec::new(alloc);
    kept.push(Recorded { session_id, seq })?;
    for entry in history {
        put_if_kept(out, &mut kept, entry)?;
    }
    Ok(())
}

/// Returns the JSON text of a replication log with a new entry. The log's history begins with the new entry, and
/// continues with the kept entries of the log `log`.
pub(crate) fn log_body(
    alloc: Global,
    session_id: &str,
    log: &ReplicationLog,
    checkpoint: &Checkpoint,
) -> Result<Vec<u8>, AllocError>
    ensures { IfOk result (λ text. text.items
        ≡ log_text session_id.now (log_view log.now) (checkpoint_view checkpoint.now)) }
{
    let seq = checkpoint.seq.as_str();
    let head = log_head(alloc, &log.rev, session_id, seq)?;
    let mut writer = Writer::new(head);
    put_entry(&mut writer, session_id, checkpoint)?;
    let mut out = writer.into_inner();
    put_older(alloc, &mut out, log.history.as_slice(), session_id, seq)?;
    out.extend_from_slice(b"]}")?;
    Ok(out)
}
