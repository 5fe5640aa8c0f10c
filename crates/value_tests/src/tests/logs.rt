//! Worked examples of logs: calls with expected results. The examples use each public call, without failed allocations.
use crate::tests::texts::expect_answer;
use repl_log::{Counts, Entry, Log, Logs, Moment, RepId, common, rep_id, write_log};
use rev_tree::SessionId;
use std::alloc::Global;
use std::process::Abort;
use test_support::{bare_entry, shown};

/// A call on logs. In the variants, a `usize` is the index of a log in the test's list of logs (`Bench::logs`).
#[derive(Clone, Copy)]
enum Call<'a> {
    /// Create an empty log, and append it to the list of logs.
    Make,
    /// Copy a log, and append the copy to the list of logs.
    Copy(usize),
    /// Store in a log the entry of a session that read no document. The fields of `Put` are the log's index in the
    /// test's list, the session id and the recorded sequence.
    Put(usize, u128, u64),
    /// Store in a log the entry of session 1, which read one document. The fields of `PutOne` are the log's index in
    /// the test's list, and a timestamp.
    PutOne(usize, u64),
    /// Store an entry in the log of the replication from database 1 into another database. The entry's session read no
    /// document. The fields of `PutInto` are the replication's target database, the session id and the recorded
    /// sequence.
    PutInto(u128, u128, u64),
    /// Copy the logs of all replications. Append the copied log of the replication from database 1 into the given
    /// database to the test's list of logs.
    CopyInto(u128),
    /// Read whether the replication from database 1 into another database has a log.
    HasInto(u128),
    /// Read whether a log has exactly the entries of the given sessions, newest first. A session is given by its id and
    /// its recorded sequence.
    Has(usize, &'a [(u128, u64)]),
    /// Compare the logs of a source and a target.
    Common(usize, usize),
    /// Copy the replication id of the test `log_text`, and format the copy as a string.
    Name,
    /// Format a log as a string, with the replication id of the test `log_text`.
    Write(usize),
    /// Create a timestamp, and read its seconds.
    Moment(u64),
}

/// The calls of a test, and each call's expected result.
type Rows = &'static [(Call<'static>, &'static str)];

/// The state of a test: a list of logs, and the logs of the replications from database 1.
#[derive(Drop)]
struct Bench {
    alloc: Global,
    logs: Vec<Log>,
    all: Logs,
}

impl Bench {
    /// Creates the state of a test, without any log.
    fn new(alloc: Global) -> Bench {
        Bench {
            alloc,
            logs: Vec::new(alloc),
            all: Logs::new(alloc),
        }
    }

    /// Performs a call and returns its result as a string.
    fn answer(&mut self, call: &Call) -> Option<String> {
        match *call {
            Call::Make => self.keep(Log::new(self.alloc)),
            Call::Copy(at) => self.keep_copy(at),
            Call::Put(at, session, recorded) => self.put(at, entry(session, recorded)),
            Call::PutOne(at, moment) => self.put(at, one_document(moment)),
            Call::PutInto(target, session, recorded) => {
                self.put_into(target, entry(session, recorded))
            }
            Call::CopyInto(target) => self.keep_into(target),
            reading => self.reading(&reading),
        }
    }

    /// Performs the calls in order, and asserts that each call returns its expected result.
    fn run(&mut self, rt: &impl Abort, calls: &[(Call, &str)]) {
        for (i, (call, wanted)) in calls.iter().enumerate() {
            expect_answer(rt, i, self.answer(call), wanted);
        }
    }

    /// Performs a read-only call on logs.
    fn reading(&self, call: &Call) -> Option<String> {
        match *call {
            Call::HasInto(target) => self.has_into(target),
            Call::Has(at, sessions) => self.has(at, sessions),
            Call::Common(source, target) => self.common(source, target),
            Call::Name => named(self.alloc, &replication()),
            Call::Write(at) => self.written(at),
            Call::Moment(seconds) => moment_text(self.alloc, seconds),
            _ => None,
        }
    }

    /// Stores a log.
    fn keep(&mut self, log: Log) -> Option<String> {
        match self.logs.push(log) {
            Ok(()) => "made".to_string(self.alloc).ok(),
            Err(_) => None,
        }
    }

    /// Appends a copy of a log to the list of logs.
    fn keep_copy(&mut self, at: usize) -> Option<String> {
        let Some(log) = self.logs.get(at) else {
            return None;
        };
        match log.copy(self.alloc) {
            Ok(copy) => self.keep(copy),
            Err(_) => None,
        }
    }

    /// Stores an entry in a log, if both the entry and the log exist.
    fn put(&mut self, at: usize, entry: Option<Entry>) -> Option<String> {
        match (self.logs.get_mut(at), entry) {
            (Some(log), Some(entry)) => shown(self.alloc, &log.put(entry)),
            _ => None,
        }
    }

    /// Stores a session's entry in the log of the replication from the test's database 1 to its database `target`.
    /// Returns `None` if `entry` is `None`.
    fn put_into(&mut self, target: u128, entry: Option<Entry>) -> Option<String> {
        match entry {
            Some(entry) => shown(self.alloc, &self.all.put(&from_one(target), entry)),
            None => None,
        }
    }

    /// Copies the logs of all replications, and appends the copied log of the replication from database 1 to `target`
    /// to the list of logs.
    fn keep_into(&mut self, target: u128) -> Option<String> {
        match copy_into(self.alloc, &self.all, target) {
            Some(log) => self.keep(log),
            None => None,
        }
    }

    /// Returns whether a log of the replication from database 1 to `target` exists.
    fn has_into(&self, target: u128) -> Option<String> {
        shown(self.alloc, &self.all.get(&from_one(target)).is_some())
    }

    /// Returns whether a log has exactly the entries of given sessions, newest first.
    fn has(&self, at: usize, sessions: &[(u128, u64)]) -> Option<String> {
        match self.logs.get(at) {
            Some(log) => has(self.alloc, log, sessions),
            None => None,
        }
    }

    /// Returns the result of formatting a log as a string.
    fn written(&self, at: usize) -> Option<String> {
        match self.logs.get(at) {
            Some(log) => written(self.alloc, &replication(), log),
            None => None,
        }
    }

    /// Compares two logs.
    fn common(&self, source: usize, target: usize) -> Option<String> {
        match (self.logs.get(source), self.logs.get(target)) {
            (Some(source), Some(target)) => shown(self.alloc, &common(source, target)),
            _ => None,
        }
    }
}

/// Returns the log of the replication from database 1 to `target`, from a copy of all logs.
fn copy_into(alloc: Global, all: &Logs, target: u128) -> Option<Log> {
    match all.copy(alloc) {
        Ok(all) => all.copy_of(alloc, &from_one(target)).ok(),
        Err(_) => None,
    }
}

/// Returns the id of the replication of all documents from database 1 to `target`.
fn from_one(target: u128) -> RepId {
    RepId {
        source: 1,
        target,
        chosen: None,
    }
}

/// Creates the entry of a session that read no document and recorded the sequence `recorded`.
fn entry(session: u128, recorded: u64) -> Option<Entry> {
    let Ok(at) = Moment::new(0) else {
        return None;
    };
    Some(bare_entry(SessionId(session), recorded, at))
}

/// Creates the entry of session 1, which read one document and recorded sequence 1, with the given timestamp.
fn one_document(moment: u64) -> Option<Entry> {
    let Ok(at) = Moment::new(moment) else {
        return None;
    };
    Some(Entry {
        session: SessionId(1),
        life: 0,
        start: 0,
        recorded: 1,
        start_time: at,
        end_time: at,
        counts: Counts {
            checked: 1,
            found: 1,
            read: 1,
            written: 1,
            failures: 0,
        },
    })
}

/// Returns whether a log has exactly the entries of given sessions, newest first.
fn has(alloc: Global, log: &Log, sessions: &[(u128, u64)]) -> Option<String> {
    let mut same = log.len() == sessions.len();
    for (i, &(session, recorded)) in sessions.iter().enumerate() {
        let Some(wanted) = entry(session, recorded) else {
            return None;
        };
        same = same && log.get(i) == Some(wanted);
    }
    shown(alloc, &same)
}

/// Returns the text of a copy of a replication id.
fn named(alloc: Global, id: &RepId) -> Option<String> {
    let Ok(copy) = id.copy(alloc) else {
        return None;
    };
    let Ok(name) = rep_id(alloc, &copy) else {
        return None;
    };
    String::from_utf8(name).ok()
}

/// Returns the result of formatting a log as a string.
fn written(alloc: Global, id: &RepId, log: &Log) -> Option<String> {
    match write_log(alloc, id, log) {
        Ok(text) => String::from_utf8(text).ok(),
        Err(fault) => shown(alloc, &fault),
    }
}

/// Creates a timestamp from a number of seconds. Formats the seconds of the timestamp, or the error if `Moment::new`
/// fails.
fn moment_text(alloc: Global, seconds: u64) -> Option<String> {
    match Moment::new(seconds) {
        Ok(moment) => shown(alloc, &moment.seconds()),
        Err(fault) => shown(alloc, &fault),
    }
}

/// The sessions A, B and C have the session ids 10, 11 and 12. The logs of the test are the source's log, the target's
/// log, and an empty log.
static COMMON_ROWS: Rows = &[
    (Call::Make, "made"),
    (Call::Put(0, 10, 9), "Ok(())"),
    (Call::Put(0, 11, 4), "Ok(())"),
    (Call::Make, "made"),
    (Call::Put(1, 10, 9), "Ok(())"),
    (Call::Put(1, 11, 5), "Ok(())"),
    (Call::Put(1, 12, 12), "Ok(())"),
    (Call::Make, "made"),
    (Call::Common(0, 1), "Some((SessionId(11), 4))"),
    (Call::Common(2, 1), "None"),
    (Call::Put(0, 11, 3), "Err(Older { stored: 4 })"),
    (Call::Common(0, 1), "Some((SessionId(11), 4))"),
];

#[test]
fn common_session(rt: HostRuntime) {
    Bench::new(rt.alloc()).run(&rt, COMMON_ROWS);
}

/// A new entry of a session replaces the session's old entry at the same position in the log.
static REPLACED_ROWS: Rows = &[
    (Call::Make, "made"),
    (Call::Put(0, 10, 9), "Ok(())"),
    (Call::Put(0, 11, 4), "Ok(())"),
    (Call::Has(0, &[(11, 4), (10, 9)]), "true"),
    (Call::Put(0, 10, 20), "Ok(())"),
    (Call::Copy(0), "made"),
    (Call::Has(0, &[(11, 4), (10, 20)]), "true"),
    (Call::Has(1, &[(11, 4), (10, 20)]), "true"),
];

#[test]
fn session_replaced(rt: HostRuntime) {
    Bench::new(rt.alloc()).run(&rt, REPLACED_ROWS);
}

/// Each replication has its own log, which is created when the replication's first entry is stored.
static LOGS_ROWS: Rows = &[
    (Call::HasInto(2), "false"),
    (Call::PutInto(2, 10, 9), "Ok(())"),
    (Call::PutInto(3, 10, 5), "Ok(())"),
    (Call::PutInto(2, 10, 8), "Err(Older { stored: 9 })"),
    (Call::PutInto(2, 11, 4), "Ok(())"),
    (Call::HasInto(2), "true"),
    (Call::HasInto(4), "false"),
    (Call::CopyInto(2), "made"),
    (Call::CopyInto(3), "made"),
    (Call::CopyInto(4), "made"),
    (Call::Has(0, &[(11, 4), (10, 9)]), "true"),
    (Call::Has(1, &[(10, 5)]), "true"),
    (Call::Has(2, &[]), "true"),
];

#[test]
fn logs_by_replication(rt: HostRuntime) {
    Bench::new(rt.alloc()).run(&rt, LOGS_ROWS);
}

/// Returns the replication id of the test `log_text`.
fn replication() -> RepId {
    RepId {
        source: 0x1111_1111_1111_4111_8111_1111_1111_1111,
        target: 0x2222_2222_2222_4222_8222_2222_2222_2222,
        chosen: None,
    }
}

/// The expected text of the log in the test `log_text`.
const LOG_TEXT: &str =
    "{\"_id\":\"_local/11111111111141118111111111111111-22222222222242228222222222222222\",\
    \"history\":[{\"doc_write_failures\":0,\"docs_read\":1,\"docs_written\":1,\"end_last_seq\":1,\
    \"end_time\":\"Thu, 10 Oct 2013 05:56:38 GMT\",\
    \"missing_checked\":1,\"missing_found\":1,\"recorded_seq\":1,\
    \"session_id\":\"00000000000000000000000000000001\",\"start_last_seq\":0,\
    \"start_time\":\"Thu, 10 Oct 2013 05:56:38 GMT\"}],\
    \"replication_id_version\":3,\"session_id\":\"00000000000000000000000000000001\",\"source_last_seq\":1}";

static TEXT_ROWS: Rows = &[
    (
        Call::Name,
        "11111111111141118111111111111111-22222222222242228222222222222222",
    ),
    (Call::Make, "made"),
    (Call::Write(0), "EmptyLog"),
    (Call::PutOne(0, 1_381_384_598), "Ok(())"),
    (Call::Write(0), LOG_TEXT),
];

#[test]
fn log_text(rt: HostRuntime) {
    Bench::new(rt.alloc()).run(&rt, TEXT_ROWS);
}

static MOMENT_ROWS: Rows = &[
    (Call::Moment(253_402_300_799), "253402300799"),
    (Call::Moment(253_402_300_800), "BadMoment"),
];

#[test]
fn moments(rt: HostRuntime) {
    Bench::new(rt.alloc()).run(&rt, MOMENT_ROWS);
}
