//! Tests of selections of documents: pages and replications of the selected documents, and the logs of the
//! replications. Each test is a table of calls with expected results.
use crate::tests::choices::{Call, Rows, expect};
use rev_tree::SessionId;

const S1: SessionId = SessionId(1);

const S2: SessionId = SessionId(2);

const S3: SessionId = SessionId(3);

const S4: SessionId = SessionId(4);

const S5: SessionId = SessionId(5);

/// The lists of calls of a test.
type Lists = &'static [Rows];

#[test]
fn choices_made(rt: HostRuntime) {
    const ROWS: Rows = &[
        (Call::Choose(&["d4", "d2", "d2"]), "2 d2 d4"),
        (Call::Choose(&["d2", "d4"]), "2 d2 d4"),
        (Call::Choose(&["d4"]), "1 d4"),
        (
            Call::Choose(&["b", "B", "é", "a", "_design/x", "ab"]),
            "6 B _design/x a ab b é",
        ),
        (Call::Equal(0, 1), "true"),
        (Call::Equal(0, 2), "false"),
        (Call::Copy(0), "2 d2 d4"),
        (Call::Equal(4, 1), "true"),
        (Call::Has(Some(0), "d2"), "true"),
        (Call::Has(Some(0), "d4"), "true"),
        (Call::Has(Some(0), "d3"), "false"),
        (Call::Has(Some(0), "d"), "false"),
        (Call::Has(Some(3), "é"), "true"),
        (Call::Has(None, "d3"), "true"),
        (Call::Choose(&[]), "NoneChosen"),
        // A selection counts an id only once, even if the id is given twice.
        (Call::ChooseMany(999), "999"),
        (Call::ChooseMany(1_000), "1000"),
        (Call::Has(Some(6), "1000"), "true"),
        (Call::Has(Some(6), "1001"), "false"),
        (Call::ChooseMany(1_001), "TooManyChosen"),
    ];
    static LISTS: Lists = &[ROWS];
    expect(&rt, rt.alloc(), LISTS);
}

#[test]
fn replication_ids(rt: HostRuntime) {
    const ROWS: Rows = &[
        (Call::Choose(&["d"]), "1 d"),
        (Call::Choose(&["d4", "d2"]), "2 d2 d4"),
        (Call::Choose(&["\"\\"]), "1 \"\\"),
        (
            Call::Text(None),
            "00000000000000000000000000000001-00000000000000000000000000000002",
        ),
        (
            Call::Text(Some(0)),
            "00000000000000000000000000000001-00000000000000000000000000000002-5b2264225d",
        ),
        (
            Call::Text(Some(1)),
            "00000000000000000000000000000001-00000000000000000000000000000002-5b226432222c226434225d",
        ),
        (
            Call::Text(Some(2)),
            "00000000000000000000000000000001-00000000000000000000000000000002-5b225c225c5c225d",
        ),
    ];
    static LISTS: Lists = &[ROWS];
    expect(&rt, rt.alloc(), LISTS);
}

/// The calls that store four documents at the source.
const FOUR: Rows = &[
    (
        Call::Load(r#"{"_id":"d1","_rev":"1-a"}"#),
        "Changed { seq: 1 }",
    ),
    (
        Call::Load(r#"{"_id":"d2","_rev":"1-a"}"#),
        "Changed { seq: 2 }",
    ),
    (
        Call::Load(r#"{"_id":"d3","_rev":"1-a"}"#),
        "Changed { seq: 3 }",
    ),
    (
        Call::Load(r#"{"_id":"d4","_rev":"1-a"}"#),
        "Changed { seq: 4 }",
    ),
];

#[test]
fn pages_under_a_choice(rt: HostRuntime) {
    const ROWS: Rows = &[
        (Call::Choose(&["d4", "d2"]), "2 d2 d4"),
        (Call::Choose(&["d9"]), "1 d9"),
        (Call::Page(0, 4, 2, Some(0)), "0 to 2: 2 d2 1-a;"),
        (Call::Page(2, 4, 2, Some(0)), "2 to 4: 4 d4 1-a;"),
        // A page may end above the sequence of the page's last row, and a page may have no rows.
        (Call::Page(0, 4, 3, Some(0)), "0 to 3: 2 d2 1-a;"),
        (Call::Page(0, 4, 1, Some(0)), "0 to 1:"),
        (Call::Page(2, 3, 500, Some(0)), "2 to 3:"),
        (Call::Page(0, 3, 500, Some(0)), "0 to 3: 2 d2 1-a;"),
        (Call::Page(0, 4, 500, Some(1)), "0 to 4:"),
        (
            Call::Page(0, 4, 500, Some(0)),
            "0 to 4: 2 d2 1-a; 4 d4 1-a;",
        ),
        (Call::Page(0, 4, 2, None), "0 to 2: 1 d1 1-a; 2 d2 1-a;"),
        (Call::Page(0, 4, 0, Some(0)), "BadLimit"),
        (Call::Page(4, 4, 2, Some(0)), "BadRange"),
        (Call::Page(0, 5, 2, Some(0)), "GoalAhead { update_seq: 4 }"),
    ];
    static LISTS: Lists = &[FOUR, ROWS];
    expect(&rt, rt.alloc(), LISTS);
}

/// Calls that perform three replications. The first and the third replication select the same two documents, and the
/// second replication selects all documents.
const COPIED: Rows = &[
    (Call::Choose(&["d4", "d2", "d2"]), "2 d2 d4"),
    (Call::Choose(&["d2", "d4"]), "2 d2 d4"),
    (Call::Choose(&["d2"]), "1 d2"),
    (
        Call::Replicate(S1, 2, Some(0)),
        "session 1 from 0 to 4 checked 2 found 2 read 2 written 2 failed 0",
    ),
    (
        Call::Replicate(S2, 500, None),
        "session 2 from 0 to 4 checked 4 found 2 read 2 written 2 failed 0",
    ),
    (
        Call::Replicate(S3, 500, Some(1)),
        "session 3 from 4 to 4 checked 0 found 0 read 0 written 0 failed 0",
    ),
    (Call::Audit(Some(2)), "clean"),
];

#[test]
fn chosen_copied(rt: HostRuntime) {
    const ROWS: Rows = &[
        (Call::SourceLog(Some(0)), "3 at 4;1 at 4;"),
        (Call::TargetLog(Some(0)), "3 at 4;1 at 4;"),
        (Call::SourceLog(None), "2 at 4;"),
        (Call::TargetLog(None), "2 at 4;"),
        (Call::TargetLog(Some(2)), ""),
        (Call::Common(Some(1)), "3 at 4"),
        (Call::Common(Some(2)), "none"),
        (Call::Common(None), "2 at 4"),
        (Call::Audit(Some(1)), "clean"),
        (Call::Audit(None), "clean"),
    ];
    static LISTS: Lists = &[FOUR, COPIED, ROWS];
    expect(&rt, rt.alloc(), LISTS);
}

#[test]
fn a_choice_of_documents_that_are_not_there(rt: HostRuntime) {
    const ROWS: Rows = &[
        (Call::Choose(&["d9"]), "1 d9"),
        (Call::Choose(&["d1", "d9"]), "2 d1 d9"),
        (
            Call::Replicate(S1, 2, Some(0)),
            "session 1 from 0 to 4 checked 0 found 0 read 0 written 0 failed 0",
        ),
        (
            Call::Load(r#"{"_id":"d9","_rev":"1-a"}"#),
            "Changed { seq: 5 }",
        ),
        (
            Call::Replicate(S2, 2, Some(0)),
            "session 2 from 4 to 5 checked 1 found 1 read 1 written 1 failed 0",
        ),
        (
            Call::Replicate(S3, 2, Some(1)),
            "session 3 from 0 to 5 checked 2 found 1 read 1 written 1 failed 0",
        ),
        (Call::Audit(Some(0)), "clean"),
        (Call::Audit(Some(1)), "clean"),
        (Call::Audit(None), "clean"),
    ];
    static LISTS: Lists = &[FOUR, ROWS];
    expect(&rt, rt.alloc(), LISTS);
}

#[test]
fn holes_of_chosen_documents(rt: HostRuntime) {
    const ROWS: Rows = &[
        (Call::Choose(&["d2", "d4"]), "2 d2 d4"),
        (Call::Choose(&["d1", "d3"]), "2 d1 d3"),
        (Call::HoleAbove(0, Some(0)), "hole 2 d2 1-a"),
        (Call::HoleAbove(2, Some(0)), "hole 4 d4 1-a"),
        (
            Call::Replicate(S1, 500, Some(0)),
            "session 1 from 0 to 4 checked 2 found 2 read 2 written 2 failed 0",
        ),
        (Call::HoleAbove(0, Some(0)), "clean"),
        (Call::HoleAbove(0, Some(1)), "hole 1 d1 1-a"),
        (Call::HoleAbove(1, None), "hole 3 d3 1-a"),
        // A leaf that the target has stored is covered for each selection, even if a load or a replication of another
        // selection stored the leaf.
        (
            Call::LoadTarget(r#"{"_id":"d1","_rev":"1-a"}"#),
            "Changed { seq: 3 }",
        ),
        (Call::HoleAbove(0, Some(1)), "hole 3 d3 1-a"),
        (
            Call::Replicate(S2, 500, Some(1)),
            "session 2 from 0 to 4 checked 2 found 1 read 1 written 1 failed 0",
        ),
        (Call::HoleAbove(0, None), "clean"),
        (
            Call::Replicate(S3, 500, None),
            "session 3 from 0 to 4 checked 4 found 0 read 0 written 0 failed 0",
        ),
    ];
    static LISTS: Lists = &[FOUR, ROWS];
    expect(&rt, rt.alloc(), LISTS);
}

#[test]
fn rows_of_other_documents_are_stored(rt: HostRuntime) {
    const ROWS: Rows = &[
        (Call::Choose(&["d2"]), "1 d2"),
        (Call::Begin(S4, Some(0)), "0"),
        (Call::Append(S4, 0, 2, None), "appended"),
        (Call::Append(S4, 2, 4, Some(0)), "appended"),
        (Call::Begin(S5, None), "0"),
        (Call::Append(S5, 0, 4, Some(0)), "appended"),
    ];
    static LISTS: Lists = &[FOUR, ROWS];
    expect(&rt, rt.alloc(), LISTS);
}
