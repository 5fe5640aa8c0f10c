//! Tests of calls with large values, such as a tree of 1,001 leaves or a body of 100 KB. No call fails, because enough
//! memory is available.
use crate::tests::peers::{Call, Lists, Rows, expect};
use rev_tree::SessionId;

/// The peers.
const SOURCE: usize = 0;

const TARGET: usize = 1;

const S1: SessionId = SessionId(1);

/// Two peers without documents.
const TWO: Rows = &[(Call::Peer(1, None), "made"), (Call::Peer(2, None), "made")];

#[test]
fn an_ancestry_of_1_001_revisions(rt: HostRuntime) {
    const ROWS: Rows = &[
        (Call::LoadLong(SOURCE, 1_001), "Changed { seq: 1 }"),
        (
            Call::Replicate(S1, 10_000),
            "session 1 from 0 to 1 checked 1 found 1 read 1 written 1 failed 0",
        ),
        (
            Call::Sizes(TARGET),
            "1001-0 of 1 leaves and 1001 revs, walk 1001, body 2",
        ),
    ];
    static LISTS: Lists = &[TWO, ROWS];
    expect(&rt, rt.alloc(), LISTS);
}

#[test]
fn a_tree_of_1_001_leaves(rt: HostRuntime) {
    const ROWS: Rows = &[
        (Call::LoadWide(SOURCE, 1_001), "Changed { seq: 1001 }"),
        (
            Call::Replicate(S1, 10_000),
            "session 1 from 0 to 1001 checked 1001 found 1001 read 1001 written 1001 failed 0",
        ),
        // The winner is 1-999, because 999 is the greatest of the signatures 0 to 1000 in string order.
        (
            Call::Sizes(TARGET),
            "1-999 of 1001 leaves and 1001 revs, walk 1, body 2",
        ),
    ];
    static LISTS: Lists = &[TWO, ROWS];
    expect(&rt, rt.alloc(), LISTS);
}

#[test]
fn a_body_of_100_kb(rt: HostRuntime) {
    const ROWS: Rows = &[
        // Another program computed the expected signature: the MD5 of a line feed, the kind (`live`), a line feed and
        // the body.
        (
            Call::EditLarge(SOURCE, 100_000),
            "1-e92068c18fcfcf8724b9bb33e1f43cca",
        ),
        (
            Call::Replicate(S1, 1),
            "session 1 from 0 to 1 checked 1 found 1 read 1 written 1 failed 0",
        ),
        (
            Call::Sizes(TARGET),
            "1-e92068c18fcfcf8724b9bb33e1f43cca of 1 leaves and 1 revs, walk 1, body 100008",
        ),
    ];
    static LISTS: Lists = &[TWO, ROWS];
    expect(&rt, rt.alloc(), LISTS);
}

#[test]
fn a_goal_at_the_last_sequence(rt: HostRuntime) {
    const ROWS: Rows = &[
        (Call::PeerAt(1, None, 9_007_199_254_740_988), "made"),
        (Call::Peer(2, None), "made"),
        (
            Call::Load(SOURCE, r#"{"_id":"a","_rev":"1-a"}"#),
            "Changed { seq: 9007199254740989 }",
        ),
        (
            Call::Load(SOURCE, r#"{"_id":"b","_rev":"1-a"}"#),
            "Changed { seq: 9007199254740990 }",
        ),
        (
            Call::Load(SOURCE, r#"{"_id":"c","_rev":"1-a"}"#),
            "Changed { seq: 9007199254740991 }",
        ),
        (
            Call::Replicate(S1, 2),
            "session 1 from 0 to 9007199254740991 checked 3 found 3 read 3 written 3 failed 0",
        ),
        (Call::Tree(TARGET, "c"), "1-a of 1"),
        (Call::Audit(SOURCE, TARGET), "clean"),
    ];
    static LISTS: Lists = &[ROWS];
    expect(&rt, rt.alloc(), LISTS);
}
