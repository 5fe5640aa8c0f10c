//! The options of a run that determine the text of the run's requests.
ghost use Rattle.std.specs.Prelude.{◌≡◌, IfOk, string_bytes};
ghost use Rattle.relay_requests.specs.Logs.{log_path as log_path_of};

use md5::{Digest, Md5};
use std::alloc::{AllocError, Global};

/// The options of a run that determine the text of the run's requests. An empty string means that the option is absent.
#[derive(Drop)]
pub struct RequestOptions {
    /// The path of the replication logs, which both servers use.
    pub log_path: String,
    pub session_id: String,
    /// The largest number of changes in a page of the feed.
    pub batch: u64,
    /// The name of a filter for the changes feed.
    pub filter: String,
    /// Query parameters that are added to the request for changes. The caller has already percent-encoded these
    /// parameters.
    pub query: String,
    /// The selection of documents, on one line, which is the body of the request for changes.
    pub choice: String,
}

/// Returns the path of the replication log, which is the same at the source and at the target. The path of a
/// replication log depends on the source, the target, the filter, the query, the selection, and the value of `--salt`.
pub fn log_path(
    alloc: Global,
    source: &str,
    target: &str,
    filter: &str,
    query: &str,
    choice: &str,
    salt: &str,
) -> Result<String, AllocError>
    ensures { IfOk result (λ path. string_bytes path
        ≡ log_path_of source.now target.now filter.now query.now choice.now salt.now) }
{
    let key = format!(in alloc; "{source}\n{target}\n{filter}\n{query}\n{choice}\n{salt}")?;
    let digest = Md5::digest(key.as_bytes());
    let text = hex::encode(alloc, digest.as_slice())?;
    format!(in alloc; "/_local/sandermauve-{text}")
}
