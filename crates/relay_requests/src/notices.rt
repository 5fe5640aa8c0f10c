//! The notices of a run, and the report at the end of the run.
ghost use Rattle.std.specs.Prelude.{◌≡◌, ◌++◌, IfOk, OnOk, option_map, string_bytes};
ghost use Rattle.json.specs.Print.{print};
ghost use Rattle.relay_core.specs.Views.{fault_view, notice_view};
ghost use Rattle.relay_core.specs.Messages.{progress};
ghost use Rattle.relay_requests.specs.Logs.{counts_tokens};
ghost use Rattle.relay_requests.specs.Notices.{notice_kind, notice_text, pending_text, exit_status, ok_tokens, done_tokens};

use crate::faults::{fault_name, fault_text};
use crate::logs::{put_counts, put_position};
use crate::words::quoted;
use json::Writer;
use relay_core::{Counts, Fault, Notice, RefusedLeaf};
use std::alloc::{AllocError, Global};

/// Returns the name that the relay prints for the kind of a notice.
pub(crate) fn notice_kind(notice: &Notice) -> &'static str
    ensures { result.now ≡ notice_kind (notice_view notice.now) }
{
    match notice {
        Notice::Refused(_) => "refused",
        Notice::Restarted => "again",
        Notice::Progress(_, _) => "progress",
    }
}

/// Returns the part of a progress line that gives the number of remaining documents, if the number is known.
fn pending_text(alloc: Global, pending: &Option<String>) -> Result<String, AllocError>
    ensures { IfOk result (λ s. string_bytes s ≡ pending_text (option_map string_bytes pending.now)) }
{
    match pending {
        Some(pending) => {
            let pending = pending.as_str();
            format!(in alloc; ", {pending} documents to come")
        }
        None => Ok(String::new(alloc)),
    }
}

/// Returns the line of the notice about a refused leaf.
fn refused_text(alloc: Global, leaf: &RefusedLeaf) -> Result<String, AllocError>
    ensures { IfOk result (λ s. string_bytes s ≡ notice_text (notice_view (Notice.Refused leaf.now))) }
{
    let id = quoted(alloc, leaf.id.as_str())?;
    let rev = leaf.rev.as_str();
    let error = leaf.error.as_str();
    let reason = quoted(alloc, leaf.reason.as_str())?;
    format!(in alloc; "refused {id} {rev} {error} {reason}")
}

/// Returns the line of the notice that reports the counts so far.
fn progress_text(
    alloc: Global,
    counts: &Counts,
    pending: &Option<String>,
) -> Result<String, AllocError>
    ensures { IfOk result (λ s. string_bytes s
        ≡ notice_text (progress counts.now (option_map string_bytes pending.now))) }
{
    let seen = counts.missing_checked;
    let written = counts.docs_written;
    let refused = counts.doc_write_failures;
    let pending = pending_text(alloc, pending)?;
    format!(in alloc; "{seen} leaves seen, {written} written, {refused} refused{pending}")
}

/// Returns the line that the relay prints for a notice.
pub(crate) fn notice_text(alloc: Global, notice: &Notice) -> Result<String, AllocError>
    ensures { IfOk result (λ s. string_bytes s ≡ notice_text (notice_view notice.now)) }
{
    match notice {
        Notice::Refused(leaf) => refused_text(alloc, leaf),
        Notice::Restarted => String::from_str(
            alloc,
            "the replication logs have changed; starting again from their newest common checkpoint",
        ),
        Notice::Progress(counts, pending) => progress_text(alloc, counts, pending),
    }
}

/// Returns the exit status of a run, as a string.
pub(crate) fn exit_status(fault: Option<&Fault>, counts: &Counts) -> &'static str
    ensures { result.now ≡ exit_status (option_map (λ f. fault_view f.now) fault.entry) counts.now }
{
    if fault.is_some() {
        "3"
    } else if counts.doc_write_failures == 0 {
        "0"
    } else {
        "1"
    }
}

/// Writes the member `ok` of a run's report. If the run ended with a fault, `put_ok` also writes the fault's name
/// (`error`) and the fault's text (`reason`).
fn put_ok(alloc: Global, writer: &mut Writer, fault: Option<&Fault>) -> Result<(), AllocError>
    ensures before { OnOk result (writer.new.before ≡ writer.old.before) }
    ensures tokens { OnOk result (writer.new.tokens
        ≡ writer.old.tokens ++ ok_tokens (option_map (λ f. fault_view f.now) fault.entry)) }
{
    writer.key("ok")?;
    match fault {
        None => {
            writer.boolean(true)?;
            Ok(())
        }
        Some(fault) => {
            let text = fault_text(alloc, fault)?;
            writer.boolean(false)?;
            writer.key("error")?;
            writer.string(fault_name(fault))?;
            writer.key("reason")?;
            writer.string(text.as_str())?;
            Ok(())
        }
    }
}

/// Writes the members of the report at the end of a run.
fn put_done(
    alloc: Global,
    writer: &mut Writer,
    session_id: &str,
    fault: Option<&Fault>,
    counts: &Counts,
    recorded: &str,
) -> Result<(), AllocError>
    ensures before { OnOk result (writer.new.before ≡ writer.old.before) }
    ensures tokens { OnOk result (writer.new.tokens ≡ writer.old.tokens
        ++ done_tokens session_id.now (option_map (λ f. fault_view f.now) fault.entry) counts.now recorded.now) }
{
    writer.begin_object()?;
    put_ok(alloc, writer, fault)?;
    put_position(writer, session_id, recorded)?;
    put_counts(writer, counts)?;
    writer.end_object()?;
    Ok(())
}

/// Returns the JSON text of the report at the end of a run.
pub(crate) fn done_body(
    alloc: Global,
    session_id: &str,
    fault: Option<&Fault>,
    counts: &Counts,
    recorded: &str,
) -> Result<Vec<u8>, AllocError>
    ensures { IfOk result (λ text. text.items ≡ print
        (done_tokens session_id.now (option_map (λ f. fault_view f.now) fault.entry) counts.now recorded.now)) }
{
    let mut writer = Writer::new(Vec::new(alloc));
    put_done(alloc, &mut writer, session_id, fault, counts, recorded)?;
    Ok(writer.into_inner())
}
