//! Tests of replication plans. The tests cause errors, begin a session, store the session's entry at the source, and
//! search for uncovered leaves.
use crate::tests::peers::{Call, Lists, Rep, Rows, expect};
use rev_tree::SessionId;

/// The indices of three peers in a test: the source, the target, and a peer that refuses the document d.
const SOURCE: usize = 0;

const TARGET: usize = 1;

const REFUSING: usize = 2;

/// Indices in a test's lists of windows, requests and parcels. `FIRST` is the index of a list's first item, and
/// `SECOND` is the index of a list's second item.
const FIRST: usize = 0;

const SECOND: usize = 1;

/// The sessions.
const S1: SessionId = SessionId(1);

const S2: SessionId = SessionId(2);

/// The replication from the source into the target.
const REP: Rep = Rep {
    source: 1,
    target: 2,
};

/// Calls that create a source with d at 1-a and e at 1-b, and two peers without documents.
const THREE: Rows = &[
    (Call::Peer(1, None), "made"),
    (Call::Peer(2, None), "made"),
    (Call::Peer(3, Some("d")), "made"),
    (
        Call::Load(SOURCE, r#"{"_id":"d","_rev":"1-a"}"#),
        "Changed { seq: 1 }",
    ),
    (
        Call::Load(SOURCE, r#"{"_id":"e","_rev":"1-b"}"#),
        "Changed { seq: 2 }",
    ),
];

#[test]
fn plans_refused(rt: HostRuntime) {
    const ROWS: Rows = &[
        (Call::CheckPlan(SOURCE, TARGET, 0), "BadBatch"),
        (Call::CheckPlan(SOURCE, TARGET, 10_001), "BadBatch"),
        (Call::CheckPlan(SOURCE, TARGET, 1), "can begin"),
        (Call::CheckPlan(SOURCE, TARGET, 10_000), "can begin"),
        // `check_plan` first checks the plan's window size, and then compares the UUIDs of both peers.
        (Call::CheckPlan(SOURCE, SOURCE, 0), "BadBatch"),
        (Call::CheckPlan(SOURCE, SOURCE, 500), "SamePeer"),
    ];
    static LISTS: Lists = &[THREE, ROWS];
    expect(&rt, rt.alloc(), LISTS);
}

/// Calls that begin the first session of the target, replicate the feed up to sequence 1, and record the session on
/// both sides.
const FIRST_SESSION: Rows = &[
    (Call::BeginPlan(S1, 10), "0"),
    (
        Call::Entry(TARGET, S1),
        "session 1 from 0 to 0 checked 0 found 0 read 0 written 0 failed 0, 10 to 10",
    ),
    (Call::BeginPlan(S1, 11), "SessionExists"),
    (Call::RecordAtSource(S1), "recorded"),
    (Call::SourceLog(SOURCE, REP), "1 at 0;"),
    (Call::Page(SOURCE, 0, 1), "0 to 1: 1 d 1-a;"),
    (Call::Append(TARGET, S1, FIRST), "appended"),
    (Call::Diff(TARGET, FIRST), "0 to 1: d 1-a;"),
    (Call::Fetch(SOURCE, FIRST), "0 to 1: d 1-a live {};"),
    (Call::Settle(TARGET, S1, FIRST), "written 1 failed 0"),
    (Call::Record(TARGET, S1, 12), "1"),
    (Call::RecordAtSource(S1), "recorded"),
    (Call::SourceLog(SOURCE, REP), "1 at 1;"),
];

#[test]
fn a_plan_begins_where_the_logs_agree(rt: HostRuntime) {
    const ROWS: Rows = &[
        (Call::BeginPlan(S2, 13), "1"),
        (
            Call::Entry(TARGET, S2),
            "session 2 from 1 to 1 checked 0 found 0 read 0 written 0 failed 0, 13 to 13",
        ),
        // The goal of the session is the source's update sequence.
        (
            Call::Conclude(TARGET, S2, 14),
            "Unfinished { low_water: 1 }",
        ),
        (Call::Page(SOURCE, 1, 2), "1 to 2: 2 e 1-b;"),
        (Call::Append(TARGET, S2, SECOND), "appended"),
        (Call::Diff(TARGET, SECOND), "1 to 2: e 1-b;"),
        (Call::Fetch(SOURCE, SECOND), "1 to 2: e 1-b live {};"),
        (Call::Settle(TARGET, S2, SECOND), "written 1 failed 0"),
        (
            Call::Conclude(TARGET, S2, 14),
            "session 2 from 1 to 2 checked 1 found 1 read 1 written 1 failed 0",
        ),
        (Call::RecordAtSource(S2), "recorded"),
        (Call::SourceLog(SOURCE, REP), "2 at 2;1 at 1;"),
    ];
    static LISTS: Lists = &[THREE, FIRST_SESSION, ROWS];
    expect(&rt, rt.alloc(), LISTS);
}

#[test]
fn an_older_entry_is_passed_over(rt: HostRuntime) {
    const ROWS: Rows = &[
        (Call::PutEntry(SOURCE, REP, S1, 9), "put"),
        (Call::SourceLog(SOURCE, REP), "1 at 9;"),
        (Call::RecordAtSource(S1), "recorded"),
        (Call::SourceLog(SOURCE, REP), "1 at 9;"),
        // Source and target have recorded different sequences for the first session, and the next session begins at the
        // lesser sequence.
        (Call::BeginPlan(S2, 13), "1"),
    ];
    static LISTS: Lists = &[THREE, FIRST_SESSION, ROWS];
    expect(&rt, rt.alloc(), LISTS);
}

#[test]
fn a_walk_above_a_sequence(rt: HostRuntime) {
    const BEFORE: Rows = &[
        (Call::HoleAbove(SOURCE, TARGET, 0), "hole 1 d 1-a"),
        (Call::HoleAbove(SOURCE, TARGET, 1), "hole 2 e 1-b"),
        (Call::HoleAbove(SOURCE, TARGET, 2), "clean"),
        // The source's feed has no rows above sequence 9, so `HoleAbove` finds no uncovered leaf.
        (Call::HoleAbove(SOURCE, TARGET, 9), "clean"),
        (Call::HoleAbove(SOURCE, SOURCE, 0), "clean"),
    ];
    const AFTER: Rows = &[
        (Call::HoleAbove(SOURCE, TARGET, 0), "hole 2 e 1-b"),
        (
            Call::Load(TARGET, r#"{"_id":"e","_rev":"1-b"}"#),
            "Changed { seq: 2 }",
        ),
        (Call::HoleAbove(SOURCE, TARGET, 0), "clean"),
    ];
    static LISTS: Lists = &[THREE, BEFORE, FIRST_SESSION, AFTER];
    expect(&rt, rt.alloc(), LISTS);
}

#[test]
fn what_was_rightly_refused_is_no_hole(rt: HostRuntime) {
    use crate::tests::peers::Beginning;
    const REP_INTO_REFUSING: Rep = Rep {
        source: 1,
        target: 3,
    };
    const INTO_REFUSING: Beginning = Beginning {
        rep: REP_INTO_REFUSING,
        base: None,
        start: 0,
        goal: 1,
    };
    const ROWS: Rows = &[
        (Call::HoleAbove(SOURCE, REFUSING, 0), "hole 1 d 1-a"),
        (Call::Begin(REFUSING, S1, INTO_REFUSING, 10), "begun"),
        (Call::Page(SOURCE, 0, 1), "0 to 1: 1 d 1-a;"),
        (Call::Append(REFUSING, S1, FIRST), "appended"),
        (Call::Diff(REFUSING, FIRST), "0 to 1: d 1-a;"),
        (Call::Fetch(SOURCE, FIRST), "0 to 1: d 1-a live {};"),
        (Call::Settle(REFUSING, S1, FIRST), "written 0 failed 1"),
        (Call::Tree(REFUSING, "d"), "no document"),
        (Call::HoleAbove(SOURCE, REFUSING, 0), "hole 2 e 1-b"),
    ];
    static LISTS: Lists = &[THREE, ROWS];
    expect(&rt, rt.alloc(), LISTS);
}
