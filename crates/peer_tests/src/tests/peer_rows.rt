//! Tests of peers. The tests write documents locally, replicate documents in sessions, cause each error, read and write
//! logs, and audit peers. The expected results of the calls assume that no allocation fails.
use crate::tests::peers::{Beginning, Call, Lists, Rep, Rows, expect};
use rev_tree::SessionId;

/// The indices of the source, the target and a third peer in most tests.
const SOURCE: usize = 0;

const TARGET: usize = 1;

const OTHER: usize = 2;

/// The indices of a test's first three windows, requests and parcels.
const FIRST: usize = 0;

const SECOND: usize = 1;

const THIRD: usize = 2;

/// The sessions.
const S1: SessionId = SessionId(1);

const S2: SessionId = SessionId(2);

const S3: SessionId = SessionId(3);

/// The replication from the peer with UUID 1 to the peer with UUID 2.
const REP: Rep = Rep {
    source: 1,
    target: 2,
};

/// A replication from another peer to the peer with UUID 2.
const OTHER_REP: Rep = Rep {
    source: 3,
    target: 2,
};

/// The document d with the revision 1-a and an empty body.
const D: &str = r#"{"_id":"d","_rev":"1-a"}"#;

/// The revision that an edit of the document d creates from the parent 1-a and an empty body. The revision's signature
/// is the MD5 of three parts: the parent, `live`, and the body.
const NEXT: &str = "2-1c600d37126a8e6d3c67d6f7a6a5c299";

/// The parameters of a session of the replication `REP` from sequence 0 to the goal 1, without a base session.
const TO_ONE: Beginning = Beginning {
    rep: REP,
    base: None,
    start: 0,
    goal: 1,
};

/// The parameters of a session of the replication `REP` from sequence 0 to the goal 9, without a base session.
const TO_NINE: Beginning = Beginning {
    rep: REP,
    base: None,
    start: 0,
    goal: 9,
};

/// The parameters of a session of the replication `REP` that continues the first session, from sequence 1 to the goal
/// 2.
const FROM_ONE: Beginning = Beginning {
    rep: REP,
    base: Some(S1),
    start: 1,
    goal: 2,
};

/// Calls that create a source with the document d at 1-a, an empty target, and a third peer.
const THREE: Rows = &[
    (Call::Peer(1, None), "made"),
    (Call::Peer(2, None), "made"),
    (Call::Peer(3, None), "made"),
    (Call::Load(SOURCE, D), "Changed { seq: 1 }"),
];

/// Calls that begin the target's first session, store the source's feed in the session, and request the document d, the
/// only one in the feed.
const ASKED: Rows = &[
    (Call::Begin(TARGET, S1, TO_ONE, 10), "begun"),
    (Call::Page(SOURCE, 0, 1), "0 to 1: 1 d 1-a;"),
    (Call::Append(TARGET, S1, FIRST), "appended"),
    (Call::Diff(TARGET, FIRST), "0 to 1: d 1-a;"),
];

/// Calls that edit the document d at the source, and then fetch the revision 1-a of d. The fetch returns the new
/// revision of the document d, a child of the requested revision 1-a.
const MOVED: Rows = &[
    (Call::Edit(SOURCE, "d", "1-a", false, "{}"), NEXT),
    (Call::Numbers(SOURCE), "1 at 2"),
    (
        Call::Fetch(SOURCE, FIRST),
        "0 to 1: d 2-1c600d37126a8e6d3c67d6f7a6a5c299,1-a live {};",
    ),
];

/// Calls that begin a second session of the target, which starts at sequence 1, and store the source's feed above
/// sequence 1 in the session.
const SECOND_SESSION: Rows = &[
    (Call::Begin(TARGET, S2, FROM_ONE, 12), "begun"),
    (
        Call::Page(SOURCE, 1, 2),
        "1 to 2: 2 d 2-1c600d37126a8e6d3c67d6f7a6a5c299;",
    ),
    (Call::Append(TARGET, S2, SECOND), "appended"),
];

#[test]
fn fetch_brings_descendant(rt: HostRuntime) {
    const ROWS: Rows = &[
        (Call::Settle(TARGET, S1, FIRST), "written 1 failed 0"),
        (Call::Covered(TARGET, "d", "1-a"), "true"),
        (Call::Record(TARGET, S1, 11), "1"),
    ];
    // The second session has nothing to request, because the target has the source's leaf already.
    const THEN: Rows = &[
        (Call::Diff(TARGET, SECOND), "1 to 2:"),
        (Call::Fetch(SOURCE, SECOND), "1 to 2:"),
        (Call::Settle(TARGET, S2, SECOND), "written 0 failed 0"),
        (
            Call::Entry(TARGET, S2),
            "session 2 from 1 to 1 checked 1 found 0 read 0 written 0 failed 0, 12 to 12",
        ),
    ];
    static LISTS: Lists = &[THREE, ASKED, MOVED, ROWS, SECOND_SESSION, THEN];
    expect(&rt, rt.alloc(), LISTS);
}

#[test]
fn a_refused_descendant_covers(rt: HostRuntime) {
    const ROWS: Rows = &[
        (Call::Peer(1, None), "made"),
        (Call::Peer(2, Some("d")), "made"),
        (Call::Load(SOURCE, D), "Changed { seq: 1 }"),
    ];
    const THEN: Rows = &[
        (Call::Settle(TARGET, S1, FIRST), "written 0 failed 1"),
        (Call::Covered(TARGET, "d", "1-a"), "true"),
        (Call::Record(TARGET, S1, 11), "1"),
    ];
    // Because the target still has no tree of the document d, the second session requests d, and the target's filter
    // refuses d again.
    const LAST: Rows = &[
        (
            Call::Diff(TARGET, SECOND),
            "1 to 2: d 2-1c600d37126a8e6d3c67d6f7a6a5c299;",
        ),
        (
            Call::Fetch(SOURCE, SECOND),
            "1 to 2: d 2-1c600d37126a8e6d3c67d6f7a6a5c299,1-a live {};",
        ),
        (Call::Settle(TARGET, S2, SECOND), "written 0 failed 1"),
        (
            Call::Entry(TARGET, S2),
            "session 2 from 1 to 1 checked 1 found 1 read 1 written 0 failed 1, 12 to 12",
        ),
    ];
    static LISTS: Lists = &[ROWS, ASKED, MOVED, THEN, SECOND_SESSION, LAST];
    expect(&rt, rt.alloc(), LISTS);
}

/// The update sequence that is one less than the maximum. A database whose update sequence is `LAST_BUT_ONE` can change
/// only once more.
const LAST_BUT_ONE: u64 = 9_007_199_254_740_990;

#[test]
fn sequences_run_out(rt: HostRuntime) {
    const FETCHED: &str = "0 to 2: d 1-a live {}; e 1-a live {};";
    const ROWS: Rows = &[
        (Call::Peer(1, None), "made"),
        (Call::PeerAt(2, None, LAST_BUT_ONE + 2), "SeqTooLarge"),
        (Call::PeerAt(2, None, LAST_BUT_ONE), "made"),
        (Call::PeerAt(3, Some("e"), LAST_BUT_ONE), "made"),
        (Call::Load(SOURCE, D), "Changed { seq: 1 }"),
        (
            Call::Load(SOURCE, r#"{"_id":"e","_rev":"1-a"}"#),
            "Changed { seq: 2 }",
        ),
        (
            Call::Begin(TARGET, S1, Beginning { goal: 2, ..TO_ONE }, 10),
            "begun",
        ),
        (Call::Page(SOURCE, 0, 2), "0 to 2: 1 d 1-a; 2 e 1-a;"),
        (Call::Append(TARGET, S1, FIRST), "appended"),
        (Call::Diff(TARGET, FIRST), "0 to 2: d 1-a; e 1-a;"),
        (Call::Fetch(SOURCE, FIRST), FETCHED),
    ];
    // The parcel's first document gets the last update sequence, and the parcel's second document gets no sequence. If
    // the parcel is settled a second time, the session records another arrival of the first document.
    const STOPPED: &str = "Stopped 1, rest e, SeqFull";
    const TWICE: &str =
        "session 1 from 0 to 0 checked 0 found 0 read 2 written 2 failed 0, 10 to 11";
    const THEN: Rows = &[
        (Call::Settle(TARGET, S1, FIRST), STOPPED),
        (Call::Numbers(TARGET), "2 at 9007199254740991"),
        (Call::Record(TARGET, S1, 11), "0"),
        (Call::Settle(TARGET, S1, FIRST), STOPPED),
        (Call::Entry(TARGET, S1), TWICE),
        (Call::Covered(TARGET, "e", "1-a"), "false"),
        // A refused document uses no update sequence of the target.
        (
            Call::Begin(OTHER, S1, Beginning { goal: 2, ..TO_ONE }, 10),
            "begun",
        ),
        (Call::Append(OTHER, S1, FIRST), "appended"),
        (Call::Settle(OTHER, S1, FIRST), "written 1 failed 1"),
        (Call::Record(OTHER, S1, 11), "2"),
    ];
    static LISTS: Lists = &[ROWS, THEN];
    expect(&rt, rt.alloc(), LISTS);
}

#[test]
fn session_refusals(rt: HostRuntime) {
    const FETCHED: &str = "0 to 2: a 1-a live {}; b 1-a live {};";
    const ENTRY: &str =
        "session 1 from 0 to 0 checked 2 found 2 read 2 written 2 failed 0, 10 to 10";
    const ROWS: Rows = &[
        (Call::Peer(1, None), "made"),
        (Call::Peer(2, None), "made"),
        (
            Call::Load(SOURCE, r#"{"_id":"a","_rev":"1-a"}"#),
            "Changed { seq: 1 }",
        ),
        (
            Call::Load(SOURCE, r#"{"_id":"b","_rev":"1-a"}"#),
            "Changed { seq: 2 }",
        ),
        (
            Call::Load(SOURCE, r#"{"_id":"c","_rev":"1-a"}"#),
            "Changed { seq: 3 }",
        ),
        (Call::Load(SOURCE, D), "Changed { seq: 4 }"),
        (
            Call::Begin(TARGET, S1, Beginning { goal: 4, ..TO_ONE }, 10),
            "begun",
        ),
        (Call::Page(SOURCE, 0, 2), "0 to 2: 1 a 1-a; 2 b 1-a;"),
        (Call::Page(SOURCE, 2, 4), "2 to 4: 3 c 1-a; 4 d 1-a;"),
        (Call::Append(TARGET, S1, SECOND), "Gap { expected: 0 }"),
        (Call::Diff(TARGET, FIRST), "0 to 2: a 1-a; b 1-a;"),
        (Call::Fetch(SOURCE, FIRST), FETCHED),
        (Call::Settle(TARGET, S1, FIRST), "ForeignParcel"),
        (Call::Append(TARGET, S1, FIRST), "appended"),
        (Call::Settle(TARGET, S1, FIRST), "written 2 failed 0"),
        (Call::Entry(TARGET, S1), ENTRY),
        (Call::Settle(TARGET, S1, FIRST), "AlreadyDone"),
        (Call::Entry(TARGET, S1), ENTRY),
        (
            Call::Conclude(TARGET, S1, 11),
            "Unfinished { low_water: 2 }",
        ),
        (Call::Entry(TARGET, S1), ENTRY),
    ];
    static LISTS: Lists = &[ROWS];
    expect(&rt, rt.alloc(), LISTS);
}

#[test]
fn uncovered_window(rt: HostRuntime) {
    const ROWS: Rows = &[
        (Call::Fetch(OTHER, FIRST), "0 to 1: gone d 1-a;"),
        (Call::Settle(TARGET, S1, FIRST), "Uncovered 1 d 1-a"),
        (Call::Record(TARGET, S1, 11), "0"),
        (Call::Fetch(SOURCE, FIRST), "0 to 1: d 1-a live {};"),
        (Call::Settle(TARGET, S1, SECOND), "written 1 failed 0"),
        (Call::Record(TARGET, S1, 12), "1"),
    ];
    static LISTS: Lists = &[THREE, ASKED, ROWS];
    expect(&rt, rt.alloc(), LISTS);
}

#[test]
fn a_session_from_beginning_to_end(rt: HostRuntime) {
    const GIVEN: &str = r#"{"_id":"d","_revisions":{"start":3,"ids":["d","c","x"]}}"#;
    const KNOWN: &str = r#"{"_id":"d","_revisions":{"start":2,"ids":["c","b"]}}"#;
    const ROWS: Rows = &[
        (Call::Peer(1, None), "made"),
        (Call::Peer(2, Some("secret")), "made"),
        (
            Call::Load(SOURCE, r#"{"_id":"x1","_rev":"1-a"}"#),
            "Changed { seq: 1 }",
        ),
        (
            Call::Load(SOURCE, r#"{"_id":"secret","_rev":"1-a"}"#),
            "Changed { seq: 2 }",
        ),
        (Call::Load(SOURCE, GIVEN), "Changed { seq: 3 }"),
        (Call::Load(TARGET, KNOWN), "Changed { seq: 1 }"),
        (
            Call::Begin(TARGET, S1, Beginning { goal: 3, ..TO_ONE }, 10),
            "begun",
        ),
        (
            Call::Page(SOURCE, 0, 3),
            "0 to 3: 1 x1 1-a; 2 secret 1-a; 3 d 3-d;",
        ),
        (Call::Append(TARGET, S1, FIRST), "appended"),
        (
            Call::Diff(TARGET, FIRST),
            "0 to 3: x1 1-a; secret 1-a; d 3-d;",
        ),
        (
            Call::Fetch(SOURCE, FIRST),
            "0 to 3: x1 1-a live {}; secret 1-a live {}; d 3-d,2-c,1-x live {};",
        ),
    ];
    const THEN: Rows = &[
        // The filter refuses the document `secret`. The target refuses the document d, because 2-c has the parent 1-x
        // in the fetched ancestry, but 1-b in the target's tree.
        (Call::Settle(TARGET, S1, FIRST), "written 1 failed 2"),
        (Call::Covered(TARGET, "secret", "1-a"), "true"),
        (Call::Covered(TARGET, "d", "3-d"), "true"),
        (Call::Covered(TARGET, "secret", "1-b"), "false"),
        (Call::Tree(TARGET, "secret"), "no document"),
        (
            Call::Conclude(TARGET, S1, 20),
            "session 1 from 0 to 3 checked 3 found 3 read 3 written 1 failed 2",
        ),
        (
            Call::Entry(TARGET, S1),
            "session 1 from 0 to 3 checked 3 found 3 read 3 written 1 failed 2, 10 to 20",
        ),
        // The origin of an arrival has two parts: the session, and the sequence of the document's row in the feed. The
        // origin of a revision from a local write is the write's number, counted from 0.
        (
            Call::Node(TARGET, "x1", "1-a"),
            "no parent, Feed(SessionId(1), 1), live {}",
        ),
        (Call::Tree(TARGET, "d"), "2-c of 2"),
        (Call::Node(TARGET, "d", "2-c"), "1-b, Local(0), live {}"),
    ];
    static LISTS: Lists = &[ROWS, THEN];
    expect(&rt, rt.alloc(), LISTS);
}

#[test]
fn local_writes_are_numbered(rt: HostRuntime) {
    const SECOND_WRITE: &str =
        r#"{"_id":"d","_revisions":{"start":3,"ids":["c","1c600d37126a8e6d3c67d6f7a6a5c299","x"]}}"#;
    const ROWS: Rows = &[
        // A peer's filter does not apply to local writes.
        (Call::Peer(1, Some("d")), "made"),
        (
            Call::Edit(SOURCE, "d", "1-a", false, "{}"),
            "NoSuchDocument",
        ),
        (Call::Load(SOURCE, D), "Changed { seq: 1 }"),
        (Call::Load(SOURCE, D), "Same"),
        (Call::Edit(SOURCE, "d", "", false, "{}"), "Conflict"),
        (Call::Edit(SOURCE, "d", "1-a", false, "{}"), NEXT),
        (
            Call::Load(SOURCE, SECOND_WRITE),
            "Contradiction 2-1c600d37126a8e6d3c67d6f7a6a5c299,1-a,1-x",
        ),
        (
            Call::Node(SOURCE, "d", "1-a"),
            "no parent, Local(0), live {}",
        ),
        (Call::Node(SOURCE, "d", NEXT), "1-a, Local(1), live {}"),
        (Call::Numbers(SOURCE), "1 at 2"),
        (Call::Page(SOURCE, 0, 3), "GoalAhead { update_seq: 2 }"),
    ];
    static LISTS: Lists = &[ROWS];
    expect(&rt, rt.alloc(), LISTS);
}

#[test]
fn an_empty_prefix_refuses_every_document(rt: HostRuntime) {
    const ROWS: Rows = &[
        (Call::Peer(1, Some("")), "made"),
        (Call::Verdict(0, D), "Refuse"),
        (Call::Peer(2, Some("d")), "made"),
        (Call::Verdict(1, D), "Refuse"),
        (Call::Peer(3, Some("dd")), "made"),
        (Call::Verdict(2, D), "Accept"),
        (Call::Peer(4, None), "made"),
        (Call::Verdict(3, D), "Accept"),
    ];
    static LISTS: Lists = &[ROWS];
    expect(&rt, rt.alloc(), LISTS);
}

#[test]
fn beginnings_are_refused_by_name(rt: HostRuntime) {
    const OF_OTHER: Beginning = Beginning {
        rep: OTHER_REP,
        base: Some(S2),
        start: 9,
        goal: 4,
    };
    const ON_OTHER: Beginning = Beginning {
        rep: OTHER_REP,
        base: Some(S1),
        start: 0,
        goal: 4,
    };
    const ON_ITSELF: Beginning = Beginning {
        rep: REP,
        base: Some(S2),
        start: 0,
        goal: 4,
    };
    const ABOVE: Beginning = Beginning {
        rep: REP,
        base: None,
        start: 1,
        goal: 4,
    };
    const ROWS: Rows = &[
        (
            Call::Begin(TARGET, S1, ABOVE, 10),
            "StartAboveBase { recorded: 0 }",
        ),
        (
            Call::Begin(TARGET, S1, Beginning { goal: 4, ..TO_ONE }, 10),
            "begun",
        ),
        (Call::Begin(TARGET, S1, OF_OTHER, 10), "SessionExists"),
        (Call::Begin(TARGET, S2, ON_ITSELF, 10), "NoSuchBase"),
        (Call::Begin(TARGET, S2, ON_OTHER, 10), "NoSuchBase"),
        (
            Call::Begin(
                TARGET,
                S2,
                Beginning {
                    start: 1,
                    goal: 0,
                    ..FROM_ONE
                },
                10,
            ),
            "StartAboveBase { recorded: 0 }",
        ),
        (Call::Page(SOURCE, 0, 1), "0 to 1: 1 d 1-a;"),
        (Call::Append(TARGET, S1, FIRST), "appended"),
        (Call::Diff(TARGET, FIRST), "0 to 1: d 1-a;"),
        (Call::Fetch(SOURCE, FIRST), "0 to 1: d 1-a live {};"),
        (Call::Settle(TARGET, S1, FIRST), "written 1 failed 0"),
        (Call::Record(TARGET, S1, 10), "1"),
        (
            Call::Begin(
                TARGET,
                S2,
                Beginning {
                    start: 1,
                    goal: 0,
                    ..FROM_ONE
                },
                10,
            ),
            "GoalBelowStart",
        ),
        (
            Call::Begin(
                TARGET,
                S2,
                Beginning {
                    start: 1,
                    goal: 1,
                    ..FROM_ONE
                },
                10,
            ),
            "begun",
        ),
        (Call::Append(TARGET, S2, FIRST), "Gap { expected: 1 }"),
    ];
    static LISTS: Lists = &[THREE, ROWS];
    expect(&rt, rt.alloc(), LISTS);
}

#[test]
fn a_session_that_is_not_there_is_refused(rt: HostRuntime) {
    const ROWS: Rows = &[
        (Call::Page(SOURCE, 0, 1), "0 to 1: 1 d 1-a;"),
        (Call::Diff(TARGET, FIRST), "0 to 1: d 1-a;"),
        (Call::Fetch(SOURCE, FIRST), "0 to 1: d 1-a live {};"),
        (Call::Append(TARGET, S1, FIRST), "NoSuchSession"),
        (Call::Settle(TARGET, S1, FIRST), "NoSuchSession"),
        (Call::Record(TARGET, S1, 10), "NoSuchSession"),
        (Call::Conclude(TARGET, S1, 10), "NoSuchSession"),
        (Call::Entry(TARGET, S1), "NoSuchSession"),
        // The session's goal (the sequence at which the session ends) is below the window's end.
        (
            Call::Begin(TARGET, S1, Beginning { goal: 0, ..TO_ONE }, 10),
            "begun",
        ),
        (Call::Append(TARGET, S1, FIRST), "PastGoal"),
        (
            Call::Conclude(TARGET, S1, 10),
            "session 1 from 0 to 0 checked 0 found 0 read 0 written 0 failed 0",
        ),
    ];
    static LISTS: Lists = &[THREE, ROWS];
    expect(&rt, rt.alloc(), LISTS);
}

#[test]
fn a_foreign_document_is_refused(rt: HostRuntime) {
    const E: &str = r#"{"_id":"e","_rev":"1-a"}"#;
    const ROWS: Rows = &[
        // The session's window and the window of the peer `OTHER` have the same bounds, but the session's window has no
        // row for the document e.
        (Call::Load(OTHER, E), "Changed { seq: 1 }"),
        (Call::Page(OTHER, 0, 1), "0 to 1: 1 e 1-a;"),
        (Call::Diff(TARGET, SECOND), "0 to 1: e 1-a;"),
        (Call::Fetch(OTHER, SECOND), "0 to 1: e 1-a live {};"),
        (Call::Settle(TARGET, S1, FIRST), "ForeignParcel"),
        (
            Call::Entry(TARGET, S1),
            "session 1 from 0 to 0 checked 0 found 0 read 0 written 0 failed 0, 10 to 10",
        ),
        (Call::Numbers(TARGET), "2 at 0"),
    ];
    static LISTS: Lists = &[THREE, ASKED, ROWS];
    expect(&rt, rt.alloc(), LISTS);
}

#[test]
fn a_foreign_document_is_refused_before_a_done_window(rt: HostRuntime) {
    const E: &str = r#"{"_id":"e","_rev":"1-a"}"#;
    const ROWS: Rows = &[
        (Call::Fetch(SOURCE, FIRST), "0 to 1: d 1-a live {};"),
        (Call::Settle(TARGET, S1, FIRST), "written 1 failed 0"),
        // If the parcel has a document without a row in the window, settling returns `ForeignParcel`, even if the
        // window is done.
        (Call::Load(OTHER, E), "Changed { seq: 1 }"),
        (Call::Page(OTHER, 0, 1), "0 to 1: 1 e 1-a;"),
        (Call::Diff(TARGET, SECOND), "0 to 1: e 1-a;"),
        (Call::Fetch(OTHER, SECOND), "0 to 1: e 1-a live {};"),
        (Call::Settle(TARGET, S1, SECOND), "ForeignParcel"),
        (Call::Settle(TARGET, S1, FIRST), "AlreadyDone"),
        (Call::Numbers(TARGET), "2 at 1"),
    ];
    static LISTS: Lists = &[THREE, ASKED, ROWS];
    expect(&rt, rt.alloc(), LISTS);
}

#[test]
fn the_leaves_of_a_done_window_are_let_go(rt: HostRuntime) {
    const ROWS: Rows = &[
        (Call::Windows(TARGET, S1), "0 to 1 of 0 with 1 rows;"),
        // A window is not done while one of the window's leaves is uncovered.
        (Call::Fetch(OTHER, FIRST), "0 to 1: gone d 1-a;"),
        (Call::Settle(TARGET, S1, FIRST), "Uncovered 1 d 1-a"),
        (Call::Windows(TARGET, S1), "0 to 1 of 0 with 1 rows;"),
        (Call::Fetch(SOURCE, FIRST), "0 to 1: d 1-a live {};"),
        (Call::Settle(TARGET, S1, SECOND), "written 1 failed 0"),
        (Call::Windows(TARGET, S1), "0 to 1 of 0;"),
        (Call::Settle(TARGET, S1, SECOND), "AlreadyDone"),
        (Call::Windows(TARGET, S1), "0 to 1 of 0;"),
    ];
    static LISTS: Lists = &[THREE, ASKED, ROWS];
    expect(&rt, rt.alloc(), LISTS);
}

// The parcel of the peer `OTHER` has the leaf 1-b of d, which the window does not list. The parcel does not cover the
// window's leaf 1-a.
#[test]
fn a_parcel_of_another_leaf_leaves_its_window_uncovered(rt: HostRuntime) {
    const ROWS: Rows = &[
        (
            Call::Load(OTHER, r#"{"_id":"d","_rev":"1-b"}"#),
            "Changed { seq: 1 }",
        ),
        (Call::Page(OTHER, 0, 1), "0 to 1: 1 d 1-b;"),
        (Call::Diff(TARGET, SECOND), "0 to 1: d 1-b;"),
        (Call::Fetch(OTHER, SECOND), "0 to 1: d 1-b live {};"),
        (Call::Settle(TARGET, S1, FIRST), "Uncovered 1 d 1-a"),
        (Call::Tree(TARGET, "d"), "1-b of 1"),
        (
            Call::Entry(TARGET, S1),
            "session 1 from 0 to 0 checked 0 found 0 read 1 written 1 failed 0, 10 to 10",
        ),
        (Call::Record(TARGET, S1, 11), "0"),
    ];
    static LISTS: Lists = &[THREE, ASKED, ROWS];
    expect(&rt, rt.alloc(), LISTS);
}

// Another client loads the document d into the target after a parcel with d was fetched, and before the parcel is
// settled.
#[test]
fn a_parcel_of_what_a_third_party_wrote_counts(rt: HostRuntime) {
    const ROWS: Rows = &[
        (Call::Fetch(SOURCE, FIRST), "0 to 1: d 1-a live {};"),
        (Call::Load(TARGET, D), "Changed { seq: 1 }"),
        (Call::Settle(TARGET, S1, FIRST), "written 1 failed 0"),
        (Call::Tree(TARGET, "d"), "1-a of 1"),
        (Call::Numbers(TARGET), "2 at 1"),
        (Call::Record(TARGET, S1, 11), "1"),
    ];
    static LISTS: Lists = &[THREE, ASKED, ROWS];
    expect(&rt, rt.alloc(), LISTS);
}

/// Calls that create an empty target, and a source whose only document changed 12 times.
const TWELVE: Rows = &[
    (Call::Peer(1, None), "made"),
    (Call::Peer(2, None), "made"),
    (
        Call::Load(SOURCE, r#"{"_id":"d","_rev":"1-a"}"#),
        "Changed { seq: 1 }",
    ),
    (
        Call::Load(SOURCE, r#"{"_id":"d","_rev":"1-b"}"#),
        "Changed { seq: 2 }",
    ),
    (
        Call::Load(SOURCE, r#"{"_id":"d","_rev":"1-c"}"#),
        "Changed { seq: 3 }",
    ),
    (
        Call::Load(SOURCE, r#"{"_id":"d","_rev":"1-d"}"#),
        "Changed { seq: 4 }",
    ),
    (
        Call::Load(SOURCE, r#"{"_id":"d","_rev":"1-e"}"#),
        "Changed { seq: 5 }",
    ),
    (
        Call::Load(SOURCE, r#"{"_id":"d","_rev":"1-f"}"#),
        "Changed { seq: 6 }",
    ),
    (
        Call::Load(SOURCE, r#"{"_id":"d","_rev":"1-g"}"#),
        "Changed { seq: 7 }",
    ),
    (
        Call::Load(SOURCE, r#"{"_id":"d","_rev":"1-h"}"#),
        "Changed { seq: 8 }",
    ),
    (
        Call::Load(SOURCE, r#"{"_id":"d","_rev":"1-i"}"#),
        "Changed { seq: 9 }",
    ),
    (
        Call::Load(SOURCE, r#"{"_id":"d","_rev":"1-j"}"#),
        "Changed { seq: 10 }",
    ),
    (
        Call::Load(SOURCE, r#"{"_id":"d","_rev":"1-k"}"#),
        "Changed { seq: 11 }",
    ),
    (
        Call::Load(SOURCE, r#"{"_id":"d","_rev":"1-l"}"#),
        "Changed { seq: 12 }",
    ),
];

/// Calls that begin two sessions at the target, one that records the sequence 9 and one that records the sequence 5.
/// The source's feed has no row below sequence 12.
const RECORDED: Rows = &[
    (Call::Begin(TARGET, S1, TO_NINE, 10), "begun"),
    (Call::Page(SOURCE, 0, 9), "0 to 9:"),
    (Call::Append(TARGET, S1, FIRST), "appended"),
    (Call::Diff(TARGET, FIRST), "0 to 9:"),
    (Call::Fetch(SOURCE, FIRST), "0 to 9:"),
    (Call::Settle(TARGET, S1, FIRST), "written 0 failed 0"),
    (Call::Begin(TARGET, S2, TO_NINE, 10), "begun"),
    (Call::Page(SOURCE, 0, 5), "0 to 5:"),
    (Call::Append(TARGET, S2, SECOND), "appended"),
    (Call::Diff(TARGET, SECOND), "0 to 5:"),
    (Call::Fetch(SOURCE, SECOND), "0 to 5:"),
    (Call::Settle(TARGET, S2, SECOND), "written 0 failed 0"),
    (Call::TargetLog(TARGET, REP), "2 at 0;1 at 0;"),
    (Call::Record(TARGET, S1, 11), "9"),
    (Call::Record(TARGET, S2, 11), "5"),
    (Call::TargetLog(TARGET, REP), "2 at 5;1 at 9;"),
    (Call::TargetLog(TARGET, OTHER_REP), ""),
    (Call::Common(SOURCE, TARGET, REP), "none"),
];

#[test]
fn common_session(rt: HostRuntime) {
    const ROWS: Rows = &[
        // The source's log gets no entry of the target's third session.
        (
            Call::Begin(TARGET, S3, Beginning { goal: 12, ..TO_ONE }, 10),
            "begun",
        ),
        (
            Call::Page(SOURCE, 0, 12),
            "0 to 12: 12 d 1-l,1-k,1-j,1-i,1-h,1-g,1-f,1-e,1-d,1-c,1-b,1-a;",
        ),
        (Call::Append(TARGET, S3, THIRD), "appended"),
        (
            Call::Diff(TARGET, THIRD),
            "0 to 12: d 1-l,1-k,1-j,1-i,1-h,1-g,1-f,1-e,1-d,1-c,1-b,1-a;",
        ),
        (
            Call::Fetch(SOURCE, THIRD),
            "0 to 12: d 1-l live {}; d 1-k live {}; d 1-j live {}; d 1-i live {}; d 1-h live {}; d 1-g live {}; d 1-f live {}; d 1-e live {}; d 1-d live {}; d 1-c live {}; d 1-b live {}; d 1-a live {};",
        ),
        (Call::Settle(TARGET, S3, THIRD), "written 12 failed 0"),
        (
            Call::Conclude(TARGET, S3, 11),
            "session 3 from 0 to 12 checked 12 found 12 read 12 written 12 failed 0",
        ),
        (Call::TargetLog(TARGET, REP), "3 at 12;2 at 5;1 at 9;"),
    ];
    const THEN: Rows = &[
        (Call::PutEntry(SOURCE, REP, S1, 9), "put"),
        (Call::PutEntry(SOURCE, REP, S2, 4), "put"),
        (Call::SourceLog(SOURCE, REP), "2 at 4;1 at 9;"),
        (Call::SourceLog(SOURCE, OTHER_REP), ""),
        (Call::Common(SOURCE, TARGET, REP), "2 at 4"),
        (Call::PutEntry(SOURCE, REP, S2, 3), "Older { stored: 4 }"),
        (Call::SourceLog(SOURCE, REP), "2 at 4;1 at 9;"),
        // A new entry of a session replaces the log's entry of that session, even if both entries have the same
        // recorded sequence.
        (Call::PutEntry(SOURCE, REP, S1, 9), "put"),
        (Call::PutEntry(SOURCE, REP, S1, 10), "put"),
        (Call::SourceLog(SOURCE, REP), "2 at 4;1 at 10;"),
        (Call::PutEntryOf(SOURCE, REP, TARGET, S2), "put"),
        (Call::SourceLog(SOURCE, REP), "2 at 5;1 at 10;"),
        (Call::Common(SOURCE, TARGET, REP), "2 at 5"),
    ];
    static LISTS: Lists = &[TWELVE, RECORDED, ROWS, THEN];
    expect(&rt, rt.alloc(), LISTS);
}

#[test]
fn an_audit_is_clean(rt: HostRuntime) {
    const E: &str = r#"{"_id":"e","_rev":"1-a"}"#;
    const ROWS: Rows = &[
        (Call::Fetch(SOURCE, FIRST), "0 to 1: d 1-a live {};"),
        (Call::Settle(TARGET, S1, FIRST), "written 1 failed 0"),
        (
            Call::Conclude(TARGET, S1, 11),
            "session 1 from 0 to 1 checked 1 found 1 read 1 written 1 failed 0",
        ),
        // The first audit runs when the logs of source and target have no common session. After `PutEntryOf`, both logs
        // have an entry of the first session.
        (Call::Audit(SOURCE, TARGET), "clean"),
        (Call::PutEntryOf(SOURCE, REP, TARGET, S1), "put"),
        (Call::Common(SOURCE, TARGET, REP), "1 at 1"),
        (Call::Audit(SOURCE, TARGET), "clean"),
        // An audit does not check rows above the common checkpoint.
        (Call::Load(SOURCE, E), "Changed { seq: 2 }"),
        (Call::Audit(SOURCE, TARGET), "clean"),
    ];
    static LISTS: Lists = &[THREE, ASKED, ROWS];
    expect(&rt, rt.alloc(), LISTS);
}

#[test]
fn an_audit_finds_a_hole(rt: HostRuntime) {
    const E: &str = r#"{"_id":"e","_rev":"1-a"}"#;
    const ROWS: Rows = &[
        // The session stores a window of the peer `OTHER`, which is not the source of the session's replication.
        (Call::Load(OTHER, E), "Changed { seq: 1 }"),
        (Call::Begin(TARGET, S1, TO_ONE, 10), "begun"),
        (Call::Page(OTHER, 0, 1), "0 to 1: 1 e 1-a;"),
        (Call::Append(TARGET, S1, FIRST), "appended"),
        (Call::Diff(TARGET, FIRST), "0 to 1: e 1-a;"),
        (Call::Fetch(OTHER, FIRST), "0 to 1: e 1-a live {};"),
        (Call::Settle(TARGET, S1, FIRST), "written 1 failed 0"),
        (Call::Record(TARGET, S1, 11), "1"),
        (Call::Audit(SOURCE, TARGET), "clean"),
        (Call::PutEntryOf(SOURCE, REP, TARGET, S1), "put"),
        (Call::Audit(SOURCE, TARGET), "hole 1 d 1-a"),
    ];
    static LISTS: Lists = &[THREE, ROWS];
    expect(&rt, rt.alloc(), LISTS);
}
