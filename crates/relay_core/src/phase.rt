//! The state of a run between two requests.
ghost use Rattle.std.specs.Prelude.{◌≡◌, [], List, Some, IfOk, option_map};
ghost use Rattle.relay_core.specs.declared.phase.Stage.{Stage};
ghost use Rattle.relay_core.specs.Messages.{Exchange};
ghost use Rattle.relay_core.specs.Views.{docs_view, request_view};
ghost use Rattle.relay_core.specs.Justified.{seq_of};
ghost use Rattle.relay_core.specs.Known.{pair_view, wait_of, part_of, asked_by, asked_of, Knows};

use crate::messages::{
    ChangesPage, Checkpoint, Counts, DocLeaves, Fault, Notice, ReplicationLog, Request, RowError,
    Side,
};
use crate::settings::Settings;
use std::alloc::{AllocError, Global};

/// A session id, with a sequence that the session has recorded.
#[derive(Drop)]
pub struct Recorded {
    pub session_id: String,
    pub seq: String,
}

/// The sequence at which a run started, and the date of the start.
#[derive(Drop)]
pub struct Start {
    pub time: String,
    pub seq: String,
}

/// The data that a run keeps from one request to the next.
#[derive(Drop)]
pub struct Run {
    /// The newest pair of a session and a sequence that both logs had when the window began.
    pub begin: Option<Recorded>,
    /// The sequence up to which each leaf is stored at the target or was refused by the target.
    pub since: String,
    /// Whether the current window (the source's changes since `begin`) is open. If the window is open, the run must
    /// still store a checkpoint for the window in both logs.
    pub is_open: bool,
    /// The number of pages with rows in the current window.
    pub pages: u64,
    /// Whether the page that was read most recently is the feed's last page.
    pub has_ended: bool,
    /// Whether the run requests the next page by longpoll.
    pub waits: bool,
    /// The maximum number of documents in the next part of a transfer.
    pub carry: usize,
    /// The number of times that the run has repeated the request for the current page.
    pub tries: u64,
    /// The number of restarts since the run last recorded the end of the feed.
    pub restarts: u64,
    pub counts: Counts,
    pub start: Option<Start>,
    /// The date of the newest response with a date.
    pub date: String,
}

/// The data about a page that the run keeps after dropping the page's rows.
#[derive(Drop)]
pub struct PageEnd {
    pub last_seq: String,
    pub is_last: bool,
    pub pending: Option<String>,
    /// Whether the page has rows.
    pub has_rows: bool,
    /// The number of leaves of the page.
    pub checked: u64,
}

/// The transfer of a page's missing leaves to the target, in parts.
#[derive(Drop)]
pub struct Transfer {
    pub end: PageEnd,
    /// The leaves of the page that the target lacked before the transfer.
    pub missing: Vec<DocLeaves>,
    /// The number of documents in the finished parts of the transfer.
    pub carried: usize,
    /// The number of documents in the current part of the transfer.
    pub size: usize,
    /// The error rows that refuse leaves, from all finished parts of the transfer. Each row in `refused` comes from a
    /// `_bulk_docs` response, or was created by the relay for a document that is too large for the target.
    pub refused: Vec<RowError>,
    /// The error rows that do not refuse a leaf, from the `_bulk_docs` responses to all finished parts of the transfer.
    pub others: Vec<RowError>,
}

/// The stage of a run, given by the response that the run waits for.
#[derive(Drop)]
pub enum Stage {
    /// The run waits for the target's log.
    TargetLog,
    /// The run has the target's log and waits for the source's log.
    SourceLog(ReplicationLog),
    /// The run waits for a page of changes.
    Changes,
    /// The run waits for the target's response to `_revs_diff`, which names those leaves of a page that the target
    /// lacks.
    Diff(ChangesPage),
    /// The run waits for the response to a transfer of documents.
    Carry(Transfer),
    /// After a transfer, the run waits for a response that names the leaves that the target still lacks.
    Again(Transfer),
    /// The run waits for the target's response to the request to store the target's log. The source's log is stored
    /// after the target's log.
    TargetPut(ReplicationLog, ReplicationLog, Checkpoint),
    /// The run waits for the source's response to a request to store its log.
    SourcePut(ReplicationLog, Checkpoint),
    /// The run is over and waits for no response.
    Done(Option<Fault>),
}

/// The state of a run between two requests, which determines the run's next request.
#[derive(Drop)]
pub struct Phase {
    pub run: Run,
    /// The notices that the caller prints before it sends the request that `stage` determines.
    pub notices: Vec<Notice>,
    /// The number of notices that the caller has printed.
    pub told: usize,
    pub stage: Stage,
}

/// Returns the sequence in `pair`, or `0` if `pair` is `None`.
pub(crate) fn seq_of(pair: &Option<Recorded>) -> &str
    ensures { result.now ≡ seq_of (option_map pair_view pair.now) }
{
    match pair {
        Some(recorded) => recorded.seq.as_str(),
        None => "0",
    }
}

impl Phase {
    /// Returns the phase of a run before its first request.
    pub fn start(alloc: Global, settings: &Settings) -> Result<Phase, AllocError>
        ensures { (h : List Exchange) → IfOk result (λ p. Knows h p) }
    {
        let since = String::from_str(alloc, "0")?;
        Ok(quiet(
            alloc,
            Run {
                begin: None,
                since,
                is_open: false,
                pages: 0,
                has_ended: false,
                waits: false,
                carry: settings.carry as usize,
                tries: 0,
                restarts: 0,
                counts: Counts {
                    missing_checked: 0,
                    missing_found: 0,
                    docs_read: 0,
                    docs_written: 0,
                    doc_write_failures: 0,
                },
                start: None,
                date: String::new(alloc),
            },
            Stage::TargetLog,
        ))
    }

    /// Returns the next request of the run. If notices (messages for the user) are still unprinted, the request asks
    /// the caller to print the next notice.
    pub fn request(&self) -> Request<'_>
        ensures { request_view result ≡ asked_of self.now }
    {
        match self.notices.get(self.told) {
            Some(notice) => Request::Tell(notice),
            None => stage_request(&self.run, &self.stage),
        }
    }
}

/// Creates a phase with the given run and stage, and without notices. A phase is the state of a run between two
/// requests.
pub(crate) fn quiet(alloc: Global, run: Run, stage: Stage) -> Phase
    ensures run { result.run ≡ run }
    ensures stage { result.stage ≡ stage }
    ensures notices { result.notices.items ≡ [] }
{
    Phase {
        run,
        notices: Vec::new(alloc),
        told: 0,
        stage,
    }
}

/// Returns the phase of a run that ends with a fault.
pub(crate) fn failed(alloc: Global, run: Run, fault: Fault) -> Phase
    ensures known { (h : List Exchange) → Knows h result }
    ensures stage { result.stage ≡ Stage.Done (Some fault) }
    ensures notices { result.notices.items ≡ [] }
{
    quiet(alloc, run, Stage::Done(Some(fault)))
}

/// Returns the timeout of the request for the next page, if this request is a longpoll request.
fn wait_of(run: &Run) -> Option<u32>
    ensures { result ≡ wait_of run.now }
{
    if !run.waits {
        return None;
    }
    Some(if run.is_open { 5000 } else { 60000 })
}

/// Returns the documents in the current part of a transfer.
pub(crate) fn part_of(transfer: &Transfer) -> &[DocLeaves]
    ensures { docs_view result.now ≡ part_of transfer.now }
{
    let missing = transfer.missing.as_slice();
    let from = transfer.carried.min(missing.len());
    let rest = &missing[from..];
    &rest[..transfer.size.min(rest.len())]
}

fn stage_request<'a>(run: &'a Run, stage: &'a Stage) -> Request<'a>
    ensures { request_view result ≡ asked_by run.now stage.now }
{
    match stage {
        Stage::TargetLog => Request::GetLog(Side::Target),
        Stage::SourceLog(_) => Request::GetLog(Side::Source),
        Stage::Changes => Request::GetChanges(run.since.as_str(), wait_of(run)),
        Stage::Diff(page) => Request::RevsDiff(page.rows.as_slice()),
        Stage::Carry(transfer) => Request::Carry(part_of(transfer)),
        Stage::Again(transfer) => Request::RevsDiff(transfer.missing.as_slice()),
        Stage::TargetPut(target, _, checkpoint) => Request::PutLog(
            Side::Target,
            target,
            checkpoint,
        ),
        Stage::SourcePut(source, checkpoint) => Request::PutLog(Side::Source, source, checkpoint),
        Stage::Done(fault) => Request::Done(fault.as_ref(), &run.counts, seq_of(&run.begin)),
    }
}
