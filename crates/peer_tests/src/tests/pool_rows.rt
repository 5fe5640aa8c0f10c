//! Documents for tests of the pool: documents with conflicts, several revisions, deletions and an incomplete history.
use crate::tests::peers::Rep;
use crate::tests::pools::{Call, Rows};
use rev_tree::SessionId;

/// The indices of the source and the target among the peers of a test.
const A: usize = 0;

const B: usize = 1;

/// The replication from the source into the target.
const REP: Rep = Rep {
    source: 1,
    target: 2,
};

const S1: SessionId = SessionId(1);

/// Calls that create a source, and a target that refuses no document.
pub(crate) static OPEN_PEERS: Rows = &[
    (Call::Peer(1, None), "made"),
    (Call::Peer(2, None), "made"),
];

/// Calls that create a source, and a target that refuses the two documents whose ids begin with x.
pub(crate) static CHOOSY_PEERS: Rows = &[
    (Call::Peer(1, None), "made"),
    (Call::Peer(2, Some("x")), "made"),
];

/// Calls that store six documents, which have ten leaves in total. In feed order, the first window has the documents b
/// and x2, the second window has a and c, and the third window has x1 and d.
pub(crate) static DOCUMENTS: Rows = &[
    (
        Call::Load(A, r#"{"_id":"a","_rev":"1-a","v":1}"#),
        "Changed { seq: 1 }",
    ),
    (
        Call::Load(
            A,
            r#"{"_id":"b","_revisions":{"start":3,"ids":["c","b","a"]},"v":[1,{"w":null}]}"#,
        ),
        "Changed { seq: 2 }",
    ),
    (
        Call::Load(A, r#"{"_id":"c","_rev":"1-x","v":true}"#),
        "Changed { seq: 3 }",
    ),
    (
        Call::Load(A, r#"{"_id":"x1","_rev":"1-p","v":4}"#),
        "Changed { seq: 4 }",
    ),
    (
        Call::Load(
            A,
            r#"{"_id":"d","_revisions":{"start":5,"ids":["e","d"]},"v":5}"#,
        ),
        "Changed { seq: 5 }",
    ),
    (
        Call::Load(A, r#"{"_id":"x2","_rev":"1-a","v":6}"#),
        "Changed { seq: 6 }",
    ),
    (
        Call::Load(
            A,
            r#"{"_id":"a","_revisions":{"start":2,"ids":["b","a"]},"v":7}"#,
        ),
        "Changed { seq: 7 }",
    ),
    (
        Call::Load(
            A,
            r#"{"_id":"a","_revisions":{"start":2,"ids":["c","a"]},"v":8}"#,
        ),
        "Changed { seq: 8 }",
    ),
    (
        Call::Load(A, r#"{"_id":"c","_rev":"1-y","_deleted":true}"#),
        "Changed { seq: 9 }",
    ),
    (
        Call::Load(A, r#"{"_id":"x1","_rev":"1-q","v":10}"#),
        "Changed { seq: 10 }",
    ),
    (
        Call::Load(
            A,
            r#"{"_id":"d","_revisions":{"start":2,"ids":["q","p"]},"v":11}"#,
        ),
        "Changed { seq: 11 }",
    ),
];

const LEAVES_A: &str = r#" a 2-c,1-a live {"v":8}; a 2-b,1-a live {"v":7};"#;

const LEAVES_B: &str = r#" b 3-c,2-b,1-a live {"v":[1,{"w":null}]};"#;

const LEAVES_C: &str = r#" c 1-x live {"v":true}; c 1-y deleted {};"#;

const LEAVES_D: &str = r#" d 5-e,4-d live {"v":5}; d 2-q,1-p live {"v":11};"#;

const LEAVES_X1: &str = r#" x1 1-q live {"v":10}; x1 1-p live {"v":4};"#;

const LEAVES_X2: &str = r#" x2 1-a live {"v":6};"#;

/// Calls that read both peers after a run whose target refuses no document. Each document has the same leaves,
/// ancestries and contents at both peers.
pub(crate) static CARRIED: Rows = &[
    (Call::Audit(A, B), "clean"),
    (Call::Leaves(A, "a"), LEAVES_A),
    (Call::Leaves(B, "a"), LEAVES_A),
    (Call::Leaves(A, "b"), LEAVES_B),
    (Call::Leaves(B, "b"), LEAVES_B),
    (Call::Leaves(A, "c"), LEAVES_C),
    (Call::Leaves(B, "c"), LEAVES_C),
    (Call::Leaves(A, "d"), LEAVES_D),
    (Call::Leaves(B, "d"), LEAVES_D),
    (Call::Leaves(A, "x1"), LEAVES_X1),
    (Call::Leaves(B, "x1"), LEAVES_X1),
    (Call::Leaves(A, "x2"), LEAVES_X2),
    (Call::Leaves(B, "x2"), LEAVES_X2),
];

/// Calls that read both peers after the first session of a replication whose target refuses two documents. The calls
/// `SIFTED` have the same results for every order in which the session's windows become done.
pub(crate) static SIFTED: Rows = &[
    (
        Call::Entry(B, S1),
        "session 1 from 0 to 11 checked 10 found 10 read 10 written 7 failed 3, 0 to 0",
    ),
    (Call::SourceLog(A, REP), "1 at 11;"),
    (Call::TargetLog(B, REP), "1 at 11;"),
    (Call::Common(A, B, REP), "11"),
    (Call::Audit(A, B), "clean"),
    (Call::Tree(B, "a"), "2-c,2-b of 3"),
    (Call::Leaves(B, "a"), LEAVES_A),
    (Call::Leaves(B, "b"), LEAVES_B),
    (Call::Leaves(B, "c"), LEAVES_C),
    (Call::Leaves(B, "d"), LEAVES_D),
    (Call::Leaves(B, "x1"), "no document"),
    (Call::Leaves(B, "x2"), "no document"),
    (Call::Refused(B, S1, "a"), ""),
    (
        Call::Refused(B, S1, "x1"),
        r#" x1 1-q live {"v":10};Filtered x1 1-p live {"v":4};Filtered"#,
    ),
    (
        Call::Refused(B, S1, "x2"),
        r#" x2 1-a live {"v":6};Filtered"#,
    ),
    (Call::Leaves(A, "a"), LEAVES_A),
    (Call::Leaves(A, "x1"), LEAVES_X1),
];
