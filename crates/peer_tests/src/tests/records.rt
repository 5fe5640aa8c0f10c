//! Formats the results and the errors of sessions as strings.
use crate::tests::texts::{joined, place_text};
use doc_json::Doc;
use repl_log::{Entry, Log, common};
use repl_target::{Cause, Report, Settled, TargetFault};
use std::alloc::Global;
use test_support::shown;

/// Returns the numbers of written and refused documents.
pub(crate) fn settled_text(alloc: Global, settled: Settled) -> Option<String> {
    let Settled { written, failures } = settled;
    format!(in alloc; "written {written} failed {failures}").ok()
}

/// Returns a report in the form in which the program prints reports.
pub(crate) fn report_text(alloc: Global, report: Report) -> Option<String> {
    let all = bounds_text(alloc, report);
    let all = joined(all, read_text(alloc, report));
    joined(all, written_text(alloc, report))
}

/// Returns the session id, the start and the recorded sequence of a report.
fn bounds_text(alloc: Global, report: Report) -> Option<String> {
    let (session, start) = (report.session.0, report.start);
    format!(in alloc; "session {session} from {start} to {}", report.recorded).ok()
}

/// Returns a report's counts of checked leaves, missing leaves and read documents.
fn read_text(alloc: Global, report: Report) -> Option<String> {
    let (checked, found) = (report.counts.checked, report.counts.found);
    format!(in alloc;
        " checked {checked} found {found} read {}",
        report.counts.read
    )
    .ok()
}

/// Returns a report's counts of written and refused documents.
fn written_text(alloc: Global, report: Report) -> Option<String> {
    let (written, failures) = (report.counts.written, report.counts.failures);
    format!(in alloc; " written {written} failed {failures}").ok()
}

/// Returns the text of a log entry: the report and the timestamps.
pub(crate) fn entry_text(alloc: Global, entry: Entry) -> Option<String> {
    let report = Report {
        session: entry.session,
        start: entry.start,
        recorded: entry.recorded,
        counts: entry.counts,
    };
    joined(report_text(alloc, report), moments_text(alloc, entry))
}

/// Returns the text of the timestamps of a log entry.
fn moments_text(alloc: Global, entry: Entry) -> Option<String> {
    let (begun, ended) = (entry.start_time.seconds(), entry.end_time.seconds());
    format!(in alloc; ", {begun} to {ended}").ok()
}

/// Returns the session id and the recorded sequence of each entry of a log, newest session first.
pub(crate) fn log_text(alloc: Global, log: &Log) -> Option<String> {
    let mut all = Some(String::new(alloc));
    for i in 0..log.len() {
        all = joined(all, recorded_text(alloc, log.get(i)));
    }
    all
}

/// Returns the session id and the recorded sequence of a log entry, if the entry exists.
fn recorded_text(alloc: Global, entry: Option<Entry>) -> Option<String> {
    match entry {
        Some(entry) => format!(in alloc; "{} at {};", entry.session.0, entry.recorded).ok(),
        None => None,
    }
}

/// Returns the common checkpoint of the logs of a source and a target.
pub(crate) fn common_text(alloc: Global, outgoing: &Log, incoming: &Log) -> Option<String> {
    match common(outgoing, incoming) {
        Some((session, recorded)) => format!(in alloc; "{} at {recorded}", session.0).ok(),
        None => "none".to_string(alloc).ok(),
    }
}

/// Returns the text of an error of a call on a session.
pub(crate) fn fault_text(alloc: Global, fault: TargetFault) -> Option<String> {
    match fault {
        TargetFault::Uncovered { seq, id, rev } => place_text(alloc, "Uncovered", seq, &id, rev),
        TargetFault::Stopped {
            settled,
            rest,
            cause,
        } => stopped_text(alloc, settled, &rest, cause),
        plain => shown(alloc, &plain),
    }
}

/// Returns the text of a partial settling. The text has the number of settled documents, the ids of the documents that
/// were not settled, and the cause.
fn stopped_text(alloc: Global, settled: u64, rest: &[Doc], cause: Cause) -> Option<String> {
    let Some(rest) = ids_text(alloc, rest) else {
        return None;
    };
    format!(in alloc; "Stopped {settled}, rest{rest}, {cause:?}").ok()
}

/// Returns the ids of the given documents, with a space before each id.
fn ids_text(alloc: Global, docs: &[Doc]) -> Option<String> {
    let mut all = String::new(alloc);
    for doc in docs {
        let Ok(()) = all.push_str(" ") else {
            return None;
        };
        let Ok(()) = all.push_str(doc.id().text()) else {
            return None;
        };
    }
    Some(all)
}
