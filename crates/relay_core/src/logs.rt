//! The steps of a run that read and write the replication logs.
ghost use Rattle.std.specs.Prelude.{ℕ, ◌≡◌, ◌∷◌, List, true, IfOk, option_map, string_bytes};
ghost use Rattle.relay_core.specs.declared.messages.Side.TheVariants.{Source, Target};
ghost use Rattle.relay_core.specs.Messages.{Text, Exchange, exchange_of, get_log, stored_response};
ghost use Rattle.relay_core.specs.Views.{entries_view, log_view, response_view};
ghost use Rattle.relay_core.specs.Justified.{has_pair, newest_common, seq_of, AreReady, IsReady, IsStored};
ghost use Rattle.relay_core.specs.Known.{pair_view, begin_of, IsReached, IsRead, Knows};

use crate::messages::{
    Checkpoint, Fault, LogEntry, Notice, Operation, ReplicationLog, Response, Side,
};
use crate::pages::behind;
use crate::phase::{Phase, Recorded, Run, Stage, Start, failed, quiet, seq_of};
use crate::settings::Settings;
use std::alloc::{AllocError, Global};

/// The maximum number of times that a run may restart before it has recorded the end of the feed.
const RESTARTS: u64 = 5;

/// Returns the fault in a response, or `otherwise` if the response has no fault.
pub(crate) fn fault_of(response: Response, otherwise: Fault) -> Fault {
    match response {
        Response::Fault(fault) => fault,
        _ => otherwise,
    }
}

/// Whether a log entry in the list has the given session id and the given recorded sequence.
fn has_pair(entries: &Vec<LogEntry>, session: &str, seq: &str) -> bool
    ensures { result ≡ has_pair (entries_view entries.now.items) session.now seq.now }
{
    for entry in entries {
        if entry.session_id.as_str() == session && entry.recorded_seq.as_str() == seq {
            return true;
        }
    }
    false
}

/// Searches the target's log, newest entry first, and returns the first pair of session id and sequence that the
/// source's log also has.
fn newest_common(
    alloc: Global,
    target: &ReplicationLog,
    source: &ReplicationLog,
) -> Result<Option<Recorded>, AllocError>
    ensures { IfOk result (λ o. option_map pair_view o ≡ newest_common (entries_view target.now.history.items) (entries_view source.now.history.items)) }
{
    for entry in &target.history {
        if has_pair(
            &source.history,
            entry.session_id.as_str(),
            entry.recorded_seq.as_str(),
        ) {
            return Ok(Some(Recorded {
                session_id: String::from_str(alloc, entry.session_id.as_str())?,
                seq: String::from_str(alloc, entry.recorded_seq.as_str())?,
            }));
        }
    }
    Ok(None)
}

/// Whether two optional pairs of a session id and a sequence are equal.
fn is_same(a: &Option<Recorded>, b: &Option<Recorded>) -> bool
    ensures { result ≡ true → option_map pair_view a.now ≡ option_map pair_view b.now }
{
    match (a, b) {
        (Some(a), Some(b)) => a.session_id.as_str() == b.session_id.as_str()
            && a.seq.as_str() == b.seq.as_str(),
        (None, None) => true,
        _ => false,
    }
}

fn checkpoint_of(alloc: Global, run: &Run) -> Result<Checkpoint, AllocError>
    ensures seq { IfOk result (λ c. string_bytes c.seq ≡ string_bytes run.now.since) }
    ensures counts { IfOk result (λ c. c.counts ≡ run.now.counts) }
{
    let (time, first) = match &run.start {
        Some(start) => (start.time.as_str(), start.seq.as_str()),
        None => ("", ""),
    };
    Ok(Checkpoint {
        start_time: String::from_str(alloc, time)?,
        end_time: String::from_str(alloc, run.date.as_str())?,
        start_last_seq: String::from_str(alloc, first)?,
        seq: String::from_str(alloc, run.since.as_str())?,
        counts: run.counts,
    })
}

/// Returns the date and the sequence at which a run started. If `start` is `None`, the run starts now, at the given
/// date and sequence.
fn start_of(
    alloc: Global,
    start: Option<Start>,
    date: &str,
    seq: &str,
) -> Result<Start, AllocError> {
    match start {
        Some(start) => Ok(start),
        None => Ok(Start {
            time: String::from_str(alloc, date)?,
            seq: String::from_str(alloc, seq)?,
        }),
    }
}

/// Begins a window (a range of the source's changes) at the sequence of the newest entry that both logs have. An entry
/// is common if both logs have its session id with its sequence. If the logs have no common entry, the window begins at
/// sequence 0. The run then stores a checkpoint at sequence 0 in both logs before it requests changes.
fn begin_window(
    alloc: Global,
    run: Run,
    common: Option<Recorded>,
    restarts: u64,
) -> Result<Run, AllocError>
    ensures begin { IfOk result (λ r. begin_of r ≡ seq_of (option_map pair_view common)) }
    ensures since { IfOk result (λ r. string_bytes r.since ≡ seq_of (option_map pair_view common)) }
{
    let since = String::from_str(alloc, seq_of(&common))?;
    let start = start_of(alloc, run.start, run.date.as_str(), since.as_str())?;
    let is_open = common.is_none();
    Ok(Run {
        begin: common,
        since,
        is_open,
        pages: 0,
        has_ended: false,
        waits: false,
        carry: run.carry,
        tries: 0,
        restarts,
        counts: run.counts,
        start: Some(start),
        date: run.date,
    })
}

/// Returns the list of notices to print: the notice `Restarted` if `is_anew` is true, and otherwise an empty list.
fn restart_notices(alloc: Global, is_anew: bool) -> Result<Vec<Notice>, AllocError> {
    let mut notices = Vec::new(alloc);
    if is_anew {
        notices.push(Notice::Restarted)?;
    }
    Ok(notices)
}

/// Asks the target to store its log. The run asks the source to store its log only after the target has stored the
/// target's log.
fn put_target(
    alloc: Global,
    run: Run,
    notices: Vec<Notice>,
    target: ReplicationLog,
    source: ReplicationLog,
) -> Result<Phase, AllocError>
    ensures { (h : List Exchange) → IsReached h run
        → AreReady h (log_view target) (log_view source) (string_bytes run.since) run.counts.doc_write_failures
        → IfOk result (λ p. Knows h p) }
{
    let checkpoint = checkpoint_of(alloc, &run)?;
    Ok(Phase {
        run,
        notices,
        told: 0,
        stage: Stage::TargetPut(target, source, checkpoint),
    })
}

/// Begins a window at the newest entry that both logs have. After too many restarts, ends the run with `LogChanged`
/// instead.
fn anew(
    alloc: Global,
    run: Run,
    common: Option<Recorded>,
    target: ReplicationLog,
    source: ReplicationLog,
) -> Result<Phase, AllocError>
    ensures { (h : List Exchange)
        → ((s : Text) (n : ℕ) → seq_of (option_map pair_view common) ≡ s → AreReady h (log_view target) (log_view source) s n)
        → IfOk result (λ p. Knows h p) }
{
    let was_open = run.is_open;
    let restarts = run.restarts.saturating_add(if was_open { 1 } else { 0 });
    if restarts > RESTARTS && was_open {
        return Ok(failed(alloc, run, Fault::LogChanged));
    }
    let notices = restart_notices(alloc, was_open)?;
    let run = begin_window(alloc, run, common, restarts)?;
    if run.is_open {
        return put_target(alloc, run, notices, target, source);
    }
    Ok(Phase {
        run,
        notices,
        told: 0,
        stage: Stage::Changes,
    })
}

/// Continues a run after the response with the target's log.
pub(crate) fn after_target_log(alloc: Global, run: Run, response: Response) -> Phase
    ensures { (h : List Exchange) → IsReached h run → Knows (exchange_of (get_log Target) (response_view response) ∷ h) result }
{
    match response {
        Response::Log(target) => quiet(alloc, run, Stage::SourceLog(target)),
        other => failed(alloc, run, fault_of(other, Fault::BadLog(Side::Target))),
    }
}

/// Continues a run after both logs were read. The run stores both logs if its window is open and the newest common
/// entry is the same as when the window began. If the window is not open, or the newest common entry has changed, the
/// run begins a new window (`anew`).
pub(crate) fn after_source_log(
    alloc: Global,
    run: Run,
    target: ReplicationLog,
    response: Response,
) -> Result<Phase, AllocError>
    ensures { (h : List Exchange) → IsRead h (begin_of run) (string_bytes run.since) run.counts.doc_write_failures (log_view target)
        → IfOk result (λ p. Knows (exchange_of (get_log Source) (response_view response) ∷ h) p) }
{
    let source = match response {
        Response::Log(source) => source,
        other => return Ok(failed(alloc, run, fault_of(other, Fault::BadLog(Side::Source)))),
    };
    let common = newest_common(alloc, &target, &source)?;
    if run.is_open && is_same(&common, &run.begin) {
        return put_target(alloc, run, Vec::new(alloc), target, source);
    }
    anew(alloc, run, common, target, source)
}

/// Requests both logs again after a conflict, or ends the run with `LogChanged` after too many restarts.
fn after_conflict(alloc: Global, mut run: Run) -> Phase
    ensures { (h : List Exchange) → IsReached h run → Knows h result }
{
    if run.restarts >= RESTARTS {
        return failed(alloc, run, Fault::LogChanged);
    }
    run.restarts = run.restarts.saturating_add(1);
    quiet(alloc, run, Stage::TargetLog)
}

/// Continues a run after the target responded to the request to store the target's log. If the target has stored its
/// log, the next request asks the source to store the source's log.
pub(crate) fn after_target_put(
    alloc: Global,
    run: Run,
    source: ReplicationLog,
    mut checkpoint: Checkpoint,
    response: Response,
) -> Result<Phase, AllocError>
    ensures { (h : List Exchange) → IsReached h run
        → IsReady h Source (log_view source) (string_bytes checkpoint.seq) checkpoint.counts.doc_write_failures
        → (response_view response ≡ stored_response → IsStored h (string_bytes checkpoint.seq))
        → IfOk result (λ p. Knows h p) }
{
    match response {
        Response::Stored => {
            checkpoint.end_time = String::from_str(alloc, run.date.as_str())?;
            Ok(quiet(alloc, run, Stage::SourcePut(source, checkpoint)))
        }
        Response::Conflict => Ok(after_conflict(alloc, run)),
        other => Ok(failed(
            alloc,
            run,
            fault_of(other, Fault::BadAnswer(Operation::WriteLog)),
        )),
    }
}

/// Begins a window at the sequence that the run has just recorded in both logs.
fn next_window(alloc: Global, settings: &Settings, mut run: Run) -> Result<Run, AllocError>
    ensures { IfOk result (λ r. (h : List Exchange) → IsReached h r) }
{
    run.begin = Some(Recorded {
        session_id: String::from_str(alloc, settings.session_id.as_str())?,
        seq: String::from_str(alloc, run.since.as_str())?,
    });
    run.is_open = false;
    run.pages = 0;
    let restarts = if run.has_ended { 0 } else { run.restarts };
    run.restarts = restarts;
    Ok(run)
}

/// Continues a run after the source's response to a request to store its log. If the source stored its log, both logs
/// have recorded the same sequence.
pub(crate) fn after_source_put(
    alloc: Global,
    settings: &Settings,
    run: Run,
    response: Response,
) -> Result<Phase, AllocError>
    ensures { (h : List Exchange) → IsReached h run → IfOk result (λ p. Knows h p) }
{
    match response {
        Response::Stored => {
            let run = next_window(alloc, settings, run)?;
            Ok(behind(settings, run, Vec::new(alloc)))
        }
        Response::Conflict => Ok(after_conflict(alloc, run)),
        other => Ok(failed(
            alloc,
            run,
            fault_of(other, Fault::BadAnswer(Operation::WriteLog)),
        )),
    }
}
