//! Tests of backups. Each test is a table of calls with expected results. A restore of a source from a backup changes
//! the source's life (a number). The test `other_life_refused` gives sessions and peers a window or a log entry from
//! the wrong life of the source. The expected results of the calls assume that no allocation fails.
use crate::tests::peers::{Call, Lists, Rep, Rows, expect};
use rev_tree::SessionId;

/// The indices of the source, the target and a third peer among the peers of a test.
const SOURCE: usize = 0;

const TARGET: usize = 1;

const OTHER: usize = 2;

/// The indices of a test's first three backups, and of the test's first three windows.
const FIRST: usize = 0;

const SECOND: usize = 1;

const THIRD: usize = 2;

/// The sessions.
const S1: SessionId = SessionId(1);

const S2: SessionId = SessionId(2);

const S3: SessionId = SessionId(3);

const S4: SessionId = SessionId(4);

/// The replication from the source into the target.
const REP: Rep = Rep {
    source: 1,
    target: 2,
};

/// Calls that replicate a source of three documents into an empty target in a first session, and then back up the
/// source.
const COPIED: Rows = &[
    (Call::Peer(1, None), "made"),
    (Call::Peer(2, None), "made"),
    (
        Call::Load(SOURCE, r#"{"_id":"d1","_rev":"1-a"}"#),
        "Changed { seq: 1 }",
    ),
    (
        Call::Load(SOURCE, r#"{"_id":"d2","_rev":"1-a"}"#),
        "Changed { seq: 2 }",
    ),
    (
        Call::Load(SOURCE, r#"{"_id":"d3","_rev":"1-a"}"#),
        "Changed { seq: 3 }",
    ),
    (
        Call::Replicate(S1, 500),
        "session 1 from 0 to 3 checked 3 found 3 read 3 written 3 failed 0",
    ),
    (Call::Life(SOURCE), "0"),
    (Call::Backup(SOURCE), "1 at 3"),
];

/// Calls that load three more documents into the source, and replicate these documents in a second session.
const AHEAD: Rows = &[
    (
        Call::Load(SOURCE, r#"{"_id":"d4","_rev":"1-a"}"#),
        "Changed { seq: 4 }",
    ),
    (
        Call::Load(SOURCE, r#"{"_id":"d5","_rev":"1-a"}"#),
        "Changed { seq: 5 }",
    ),
    (
        Call::Load(SOURCE, r#"{"_id":"d6","_rev":"1-a"}"#),
        "Changed { seq: 6 }",
    ),
    (
        Call::Replicate(S2, 500),
        "session 2 from 3 to 6 checked 3 found 3 read 3 written 3 failed 0",
    ),
    (Call::SourceLog(SOURCE, REP), "2 at 6;1 at 3;"),
    (Call::PutEntry(SOURCE, REP, S1, 1), "Older { stored: 3 }"),
    (
        Call::Page(SOURCE, 3, 6),
        "3 to 6: 4 d4 1-a; 5 d5 1-a; 6 d6 1-a;",
    ),
];

/// Calls that restore the source from the first backup. The restored source has the documents, the local writes and the
/// log that the backup has. The new document e gets the sequence that the document d4 had before the restore.
const PUT_BACK: Rows = &[
    (Call::Restore(SOURCE, FIRST), "restored"),
    (Call::Life(SOURCE), "1"),
    (Call::Numbers(SOURCE), "1 at 3"),
    (Call::Tree(SOURCE, "d3"), "1-a of 1"),
    (Call::Tree(SOURCE, "d4"), "no document"),
    (Call::SourceLog(SOURCE, REP), "1 at 3;"),
    (
        Call::Load(SOURCE, r#"{"_id":"e","_rev":"1-a"}"#),
        "Changed { seq: 4 }",
    ),
    (
        Call::Node(SOURCE, "e", "1-a"),
        "no parent, Local(3), live {}",
    ),
];

#[test]
fn other_life_refused(rt: HostRuntime) {
    const ROWS: Rows = &[
        (
            Call::PutEntryOf(SOURCE, REP, TARGET, S2),
            "OtherLife { now: 1 }",
        ),
        // `PutEntry` creates an entry from life 0, but the source now has life 1. The new entry also records a lower
        // sequence than the stored entry of the session S1. `PutEntry` first checks the entry's life.
        (Call::PutEntry(SOURCE, REP, S1, 1), "OtherLife { now: 1 }"),
        (Call::SourceLog(SOURCE, REP), "1 at 3;"),
        (Call::Page(SOURCE, 3, 4), "3 to 4: 4 e 1-a;"),
        // The second window of the test is from life 1 of the source, but the session S2 is from life 0. The second
        // window of the test begins at sequence 3, but the stored windows of the session S2 end at 6. `Append` checks
        // the life of a window before it checks the start of the window. When the test first appends a window to the
        // session S3, this session does not exist yet.
        (Call::Append(TARGET, S2, SECOND), "OtherLife { now: 0 }"),
        (Call::Append(TARGET, S3, SECOND), "NoSuchSession"),
        (
            Call::Replicate(S3, 500),
            "session 3 from 3 to 4 checked 1 found 1 read 1 written 1 failed 0",
        ),
        (Call::Append(TARGET, S3, FIRST), "OtherLife { now: 1 }"),
        (Call::SourceLog(SOURCE, REP), "3 at 4;1 at 3;"),
        (Call::Audit(SOURCE, TARGET), "clean"),
        (Call::Tree(TARGET, "d4"), "1-a of 1"),
        // The source accepts the entry of the third session, because the entry has the source's current life.
        (Call::PutEntryOf(SOURCE, REP, TARGET, S3), "put"),
    ];
    static LISTS: Lists = &[COPIED, AHEAD, PUT_BACK, ROWS];
    expect(&rt, rt.alloc(), LISTS);
}

#[test]
fn copies_are_refused_by_name(rt: HostRuntime) {
    const ROWS: Rows = &[
        (Call::Backup(TARGET), "IsTarget"),
        // `Restore` first checks whether the peer has been a target, and then whether the backup is from another peer.
        (Call::Restore(TARGET, FIRST), "IsTarget"),
        (Call::Peer(3, None), "made"),
        (Call::Restore(OTHER, FIRST), "ForeignBackup"),
        (Call::Numbers(OTHER), "3 at 0"),
        (Call::Life(OTHER), "0"),
        (Call::Life(TARGET), "0"),
        (Call::Numbers(TARGET), "2 at 3"),
    ];
    static LISTS: Lists = &[COPIED, ROWS];
    expect(&rt, rt.alloc(), LISTS);
}

#[test]
fn a_life_is_above_both(rt: HostRuntime) {
    const ROWS: Rows = &[
        (Call::Backup(SOURCE), "1 at 4"),
        // The test restores the source from the first backup again, and then from the second backup.
        (Call::Restore(SOURCE, FIRST), "restored"),
        (Call::Life(SOURCE), "2"),
        (Call::Numbers(SOURCE), "1 at 3"),
        (Call::Tree(SOURCE, "e"), "no document"),
        (Call::Restore(SOURCE, SECOND), "restored"),
        (Call::Life(SOURCE), "3"),
        (Call::Numbers(SOURCE), "1 at 4"),
        (Call::Tree(SOURCE, "e"), "1-a of 1"),
        (Call::Backup(SOURCE), "1 at 4"),
        // A new peer, with the source's UUID and a filter, is restored from the third backup. The restored peer keeps
        // the filter with which the peer was created.
        (Call::Peer(1, Some("d")), "made"),
        (Call::Restore(OTHER, THIRD), "restored"),
        (Call::Life(OTHER), "4"),
        (Call::Numbers(OTHER), "1 at 4"),
        (Call::SourceLog(OTHER, REP), "1 at 3;"),
        (
            Call::Verdict(OTHER, r#"{"_id":"d1","_rev":"1-a"}"#),
            "Refuse",
        ),
        // Even if the two logs are from different lives of the source, a session begins at their common checkpoint.
        (Call::BeginPlan(S4, 10), "3"),
    ];
    static LISTS: Lists = &[COPIED, AHEAD, PUT_BACK, ROWS];
    expect(&rt, rt.alloc(), LISTS);
}
