//! Tests that move parcels and backups into a thread and back.
use crate::tests::backups::restore;
use crate::tests::carried::leaves;
use crate::tests::peers::load;
use crate::tests::texts::{doc, expect_answer, numbers_text, parcel_text};
use couch_base::{Database, Parcel};
use repl_target::{Backup, Peer, Rules};
use rev_tree::Origin;
use std::alloc::Global;
use std::thread;
use std::thread::Threads;

const DOCUMENT: &str = r#"{"_id":"d","_revisions":{"start":2,"ids":["b","a"]},"v":[1]}"#;

const LATER: &str = r#"{"_id":"d","_revisions":{"start":3,"ids":["c","b","a"]},"v":2}"#;

/// Returns a parcel (fetched documents) with one document. An empty database has requested the document from another
/// database.
fn parcel(alloc: Global) -> Option<Parcel> {
    let mut source = Database::new(alloc, 1);
    let Some(document) = doc(alloc, DOCUMENT) else {
        return None;
    };
    let Ok(_put) = source.put(&document, Origin::Local(0)) else {
        return None;
    };
    let Ok(window) = source.page(alloc, 0, 1, 10, None) else {
        return None;
    };
    let Ok(asked) = Database::new(alloc, 2).revs_diff(alloc, &window) else {
        return None;
    };
    source.open_revs(alloc, &asked).ok()
}

/// Moves a parcel into a thread, which formats the parcel as a string. Returns the thread's result (the parcel and the
/// parcel's string), or `None` if the thread cannot start.
fn read_parcel<R: Threads>(
    rt: &R,
    alloc: Global,
    parcel: Parcel,
) -> Option<(Parcel, Option<String>)> {
    let reading = move || -> (Parcel, Option<String>) {
        let text = parcel_text(alloc, &parcel);
        (parcel, text)
    };
    match thread::spawn(rt, reading) {
        Ok(thread) => Some(thread.join(rt)),
        Err(_) => None,
    }
}

#[test]
fn a_parcel_goes_into_a_thread_and_back(rt: HostRuntime) {
    const TEXT: &str = r#"0 to 1: d 2-b,1-a live {"v":[1]};"#;
    let parcel = parcel(rt.alloc()).expect(&rt, "a parcel");
    let (parcel, text) = read_parcel(&rt, rt.alloc(), parcel).expect(&rt, "a thread");
    expect_answer(&rt, 0, text, TEXT);
    expect_answer(&rt, 1, parcel_text(rt.alloc(), &parcel), TEXT);
}

/// Moves a peer's backup into a thread, which reads the UUID and the update sequence. Returns the thread's result (the
/// backup, and a string with the UUID and the update sequence), or `None` if the thread cannot start.
fn read_backup<R: Threads>(
    rt: &R,
    alloc: Global,
    backup: Backup,
) -> Option<(Backup, Option<String>)> {
    let reading = move || -> (Backup, Option<String>) {
        let text = numbers_text(alloc, backup.db());
        (backup, text)
    };
    match thread::spawn(rt, reading) {
        Ok(thread) => Some(thread.join(rt)),
        Err(_) => None,
    }
}

// The test restores the peer from the backup that the thread has returned.
#[test]
fn a_backup_goes_into_a_thread_and_back(rt: HostRuntime) {
    let mut peer = Peer::new(rt.alloc(), 1, Rules { deny: None });
    expect_answer(
        &rt,
        0,
        load(rt.alloc(), &mut peer, DOCUMENT),
        "Changed { seq: 1 }",
    );
    let backup = peer.backup(rt.alloc()).expect(&rt, "a copy");
    let (backup, text) = read_backup(&rt, rt.alloc(), backup).expect(&rt, "a thread");
    expect_answer(&rt, 1, text, "1 at 1");
    expect_answer(
        &rt,
        2,
        load(rt.alloc(), &mut peer, LATER),
        "Changed { seq: 2 }",
    );
    expect_answer(&rt, 3, restore(rt.alloc(), &mut peer, &backup), "restored");
    expect_answer(
        &rt,
        4,
        leaves(rt.alloc(), peer.db(), "d"),
        r#" d 2-b,1-a live {"v":[1]};"#,
    );
}
