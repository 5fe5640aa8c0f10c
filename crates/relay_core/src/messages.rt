//! The messages between the relay and the two servers, and the notices that the relay prints for its user.

/// One of a replication's two servers: the source or the target.
#[derive(Clone, Copy, Debug, PartialEq, Eq)]
pub enum Side {
    Source,
    Target,
}

/// The kind of a request.
#[derive(Clone, Copy, Debug, PartialEq, Eq)]
pub enum Operation {
    ReadLog,
    Changes,
    RevsDiff,
    Carry,
    WriteLog,
}

/// A document id, with leaf revisions of this document.
#[derive(Drop)]
pub struct DocLeaves {
    pub id: String,
    pub revs: Vec<String>,
}

/// A page of the source's changes feed.
#[derive(Drop)]
pub struct ChangesPage {
    pub rows: Vec<DocLeaves>,
    pub last_seq: String,
    /// Whether the page is the last page of the feed.
    pub is_last: bool,
    /// The response's `pending`, if it is a number: the number of changed documents that follow the page in the feed.
    pub pending: Option<String>,
}

/// A row of a `_bulk_docs` response that reports an error for a document. The field `rev` is the row's revision, if the
/// row names one.
#[derive(Drop)]
pub struct RowError {
    pub id: String,
    pub rev: Option<String>,
    pub error: String,
    pub reason: String,
}

/// An entry in the history of a replication log. The member `json` is the entry's JSON text, as the server wrote it.
#[derive(Drop)]
pub struct LogEntry {
    pub session_id: String,
    pub recorded_seq: String,
    pub json: String,
}

/// A replication log as one server stores it. If the server has no replication log, `rev` is `None`.
#[derive(Drop)]
pub struct ReplicationLog {
    pub rev: Option<String>,
    pub history: Vec<LogEntry>,
}

/// The reason why a run ends without success.
#[derive(Drop)]
pub enum Fault {
    /// A server gave no complete response.
    Unanswered(Side, Operation),
    /// A response has a status that the run cannot use. The string of `Status` has the error and the reason that the
    /// server's response gives.
    Status(Side, Operation, u16, String),
    /// A response body is not exactly one JSON value.
    NotJson(Operation),
    /// A response to `_changes` is not a page of a changes feed.
    BadFeed,
    /// A `_revs_diff` response is not an object of missing revisions, or it names a leaf that the request did not name.
    BadDiff,
    /// A response does not have the form that the given kind of request requires.
    BadAnswer(Operation),
    /// The replication log of a server has no `_rev`, or the log's history is not a list.
    BadLog(Side),
    /// A server rejected the transfer of a single document. The fault has the document's id, the server, the status,
    /// and the server's error and reason.
    Refused(String, Side, u16, String),
    /// After the last try, the target still lacks a leaf that it has not refused.
    Unaccounted(Unaccounted),
    /// The run restarted too often, because another replication changed the logs.
    LogChanged,
}

/// The first leaf of a page that the target lacks and has not refused.
#[derive(Drop)]
pub struct Unaccounted {
    pub id: String,
    pub rev: String,
    /// The error and the reason of the document's first `_bulk_docs` row whose error is neither `forbidden` nor
    /// `unauthorized`.
    pub error: Option<(String, String)>,
    /// The number of leaves of the page that the target lacks and has not refused.
    pub count: u64,
}

/// A server's response in parsed form.
#[derive(Drop)]
pub enum Response {
    /// The replication log that the run requested. If the server has no replication log, the response's log has no
    /// revision and no entries.
    Log(ReplicationLog),
    /// A page of the source's changes feed.
    Page(ChangesPage),
    /// The leaves that the target lacks, according to the target's response.
    Missing(Vec<DocLeaves>),
    /// The rows of a `_bulk_docs` response that report errors.
    RowErrors(Vec<RowError>),
    /// A server rejected a transfer of documents with the given status, which is a 4xx status other than 401, 403, 404,
    /// 408 and 429. The variant has a string with the error and the reason of the server's response.
    CarryRejected(Side, u16, String),
    /// A server stored its replication log.
    Stored,
    /// A server did not store its replication log, because the log's revision has changed.
    Conflict,
    /// The caller has printed a notice.
    Noted,
    /// A response that ends the run with a fault.
    Fault(Fault),
}

/// The counts that a run records in the logs.
#[derive(Clone, Copy, Debug, PartialEq, Eq)]
pub struct Counts {
    pub missing_checked: u64,
    pub missing_found: u64,
    pub docs_read: u64,
    pub docs_written: u64,
    pub doc_write_failures: u64,
}

/// The data that a run records in a new entry of both logs.
#[derive(Drop)]
pub struct Checkpoint {
    pub start_time: String,
    pub end_time: String,
    pub start_last_seq: String,
    pub seq: String,
    pub counts: Counts,
}

/// A leaf that the target refused, with the target's error and reason.
#[derive(Drop)]
pub struct RefusedLeaf {
    pub id: String,
    pub rev: String,
    pub error: String,
    pub reason: String,
}

/// A message that the relay prints for its user.
#[derive(Drop)]
pub enum Notice {
    /// The target refused a leaf.
    Refused(RefusedLeaf),
    /// The logs have changed, so the run restarts at the newest entry that both logs have.
    Restarted,
    /// The target has each leaf of a page, or has refused the leaf. The first field is the run's counts so far. The
    /// second field is the number of changed documents that follow the page in the source's feed, if this number is
    /// known.
    Progress(Counts, Option<String>),
}

/// The next request of a run to a server or to the caller.
#[derive(Clone, Copy)]
pub enum Request<'a> {
    /// A request for the replication log of a server.
    GetLog(Side),
    /// A request for the source's changes after a sequence. A request for changes with a timeout (in milliseconds) is a
    /// longpoll request.
    GetChanges(&'a str, Option<u32>),
    /// A `_revs_diff` request: it asks the target which of the given leaves are missing there.
    RevsDiff(&'a [DocLeaves]),
    /// A request to copy the given leaves from the source to the target.
    Carry(&'a [DocLeaves]),
    /// A request to a server to store its replication log with a new entry.
    PutLog(Side, &'a ReplicationLog, &'a Checkpoint),
    /// A request to the caller to print a notice.
    Tell(&'a Notice),
    /// The run has ended. The fields are the fault if the run failed, the counts, and the last sequence that both
    /// servers recorded.
    Done(Option<&'a Fault>, &'a Counts, &'a str),
}
