//! Tests `Log::put`, `Log::copy`, `Logs::put`, `Logs::copy`, `rep_id` and `write_log`.
use anyhow::{Result, bail};
use repl_log::{Entry, Log, LogFault, Logs, Moment, RepId, rep_id, write_log};
use rev_tree::SessionId;
use std::alloc::{AllocError, Global};
use test_support::bare_entry;

/// Creates the entry of a session that read nothing. The number `recorded` becomes the entry's session id, and also the
/// entry's recorded sequence.
fn entry(recorded: u64) -> Result<Entry, LogFault> {
    let at = Moment::new(1_381_384_598)?;
    Ok(bare_entry(SessionId(u128::from(recorded)), recorded, at))
}

/// Stores an entry in a log, and retries if an allocation fails. Returns whether a call that ran out of memory changed
/// the log.
fn put(log: &mut Log, recorded: u64) -> Result<bool, LogFault> {
    let before = log.len();
    match log.put(entry(recorded)?) {
        Err(LogFault::Memory) => {
            let changed = log.len() != before;
            log.put(entry(recorded)?)?;
            Ok(changed)
        }
        answer => answer.map(|_| false),
    }
}

fn copied(alloc: Global, log: &Log) -> Result<Log, AllocError> {
    match log.copy(alloc) {
        Err(AllocError) => log.copy(alloc),
        answer => answer,
    }
}

fn named(alloc: Global, id: &RepId) -> Result<Vec<u8>, AllocError> {
    match rep_id(alloc, id) {
        Err(AllocError) => rep_id(alloc, id),
        answer => answer,
    }
}

fn written(alloc: Global, id: &RepId, log: &Log) -> Result<Vec<u8>, LogFault> {
    match write_log(alloc, id, log) {
        Err(LogFault::Memory) => write_log(alloc, id, log),
        answer => answer,
    }
}

/// Stores an entry in the log of a replication, and retries if an allocation fails.
fn put_into(logs: &mut Logs, id: &RepId, recorded: u64) -> Result<(), LogFault> {
    match logs.put(id, entry(recorded)?) {
        Err(LogFault::Memory) => logs.put(id, entry(recorded)?),
        answer => answer,
    }
}

fn all_copied(alloc: Global, logs: &Logs) -> Result<Logs, AllocError> {
    match logs.copy(alloc) {
        Err(AllocError) => logs.copy(alloc),
        answer => answer,
    }
}

fn copy_of(alloc: Global, logs: &Logs, id: &RepId) -> Result<Log, AllocError> {
    match logs.copy_of(alloc, id) {
        Err(AllocError) => logs.copy_of(alloc, id),
        answer => answer,
    }
}

/// Returns the replication id whose source is UUID 1, and whose target is the UUID `target`.
fn from_one(target: u64) -> RepId {
    RepId {
        source: 1,
        target: u128::from(target),
        chosen: None,
    }
}

/// Whether six log entries, two for each of three replications, were stored without an error.
fn fills(logs: &mut Logs) -> bool {
    let mut fills = true;
    for number in 0..6u64 {
        fills = fills && put_into(logs, &from_one(number % 3), number).is_ok();
    }
    fills
}

/// Whether the log of a replication has two entries.
fn has_two(alloc: Global, logs: &Logs, target: u64) -> bool {
    match copy_of(alloc, logs, &from_one(target)) {
        Ok(log) => log.len() == 2,
        Err(AllocError) => false,
    }
}

/// Stores log entries of three replications in a `Logs` value, and copies this value. Returns whether the copied `Logs`
/// value has two log entries for each of the three replications.
fn by_replication(alloc: Global) -> bool {
    let mut logs = Logs::new(alloc);
    if !fills(&mut logs) {
        return false;
    }
    match all_copied(alloc, &logs) {
        Ok(copy) => {
            has_two(alloc, &copy, 0) && has_two(alloc, &copy, 1) && has_two(alloc, &copy, 2)
        }
        Err(AllocError) => false,
    }
}

/// Whether five entries could be stored, and no failed call changed the log.
fn grows(log: &mut Log) -> bool {
    let mut grows = true;
    for recorded in 1..6u64 {
        grows = grows && put(log, recorded).ok() == Some(false);
    }
    grows
}

/// Whether the text of a replication id has the expected length.
fn is_named(alloc: Global, id: &RepId) -> bool {
    match named(alloc, id) {
        Ok(name) => name.len() == 32 + 1 + 32,
        Err(AllocError) => false,
    }
}

/// Whether the text of a log begins with the replication id of the log.
fn is_written(alloc: Global, id: &RepId, log: &Log) -> bool {
    match written(alloc, id, log) {
        Ok(text) => text.starts_with(b"{\"_id\":\"_local/00000000000000000000000000000001-"),
        Err(_) => false,
    }
}

/// Stores entries in a log, and copies the log. Returns whether all entries were stored, and the texts of the
/// replication id and of the copy are as expected.
fn of_one(alloc: Global) -> bool {
    let mut log = Log::new(alloc);
    if !grows(&mut log) {
        return false;
    }
    let id = from_one(2);
    match copied(alloc, &log) {
        Ok(copy) => is_named(alloc, &id) && is_written(alloc, &id, &copy),
        Err(AllocError) => false,
    }
}

pub(crate) fn run(rt: &impl Print, alloc: Global) -> Result<()> {
    if !of_one(alloc) || !by_replication(alloc) {
        bail!("logs: another answer");
    }
    println!(rt; "logs as wanted")?;
    Ok(())
}
