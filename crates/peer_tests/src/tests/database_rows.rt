//! Tests of databases: pages, puts, edits, requests and fetches. Each test is a table of calls with expected results.
//! The expected results assume that no allocation fails.
use crate::tests::databases::{Bench, Call, Rows, expect};

/// The index of a test's first database, which most calls read or change.
const A: usize = 0;

/// The index of a test's second database, which requests the leaves that it lacks.
const B: usize = 1;

/// The index of a test's first window, first request and first parcel.
const FIRST: usize = 0;

/// Calls that store three documents, whose sequences are 1, 2 and 5.
static THREE: Rows = &[
    (
        Call::Put(A, r#"{"_id":"a","_rev":"1-a"}"#),
        "Changed { seq: 1 }",
    ),
    (
        Call::Put(A, r#"{"_id":"b","_rev":"1-b"}"#),
        "Changed { seq: 2 }",
    ),
    (
        Call::Put(A, r#"{"_id":"c","_rev":"1-c"}"#),
        "Changed { seq: 3 }",
    ),
    (
        Call::Put(A, r#"{"_id":"c","_rev":"1-d"}"#),
        "Changed { seq: 4 }",
    ),
    (
        Call::Put(A, r#"{"_id":"c","_rev":"1-e"}"#),
        "Changed { seq: 5 }",
    ),
    (Call::Numbers(A), "7 at 5"),
];

/// Calls that store the document d in database A. The document has the leaves 2-b and 2-a, and both leaves have the
/// parent 1-r.
static BOTH: Rows = &[
    (
        Call::Put(
            A,
            r#"{"_id":"d","_revisions":{"start":2,"ids":["a","r"]},"n":1}"#,
        ),
        "Changed { seq: 1 }",
    ),
    (
        Call::Put(A, r#"{"_id":"d","_revisions":{"start":2,"ids":["b","r"]}}"#),
        "Changed { seq: 2 }",
    ),
];

/// Calls that read the complete feed of database A, and compute the request of the empty database B for the leaves in
/// this feed.
static BOTH_ASKED: Rows = &[
    (Call::Page(A, 0, 2, 10), "0 to 2: 2 d 2-b,2-a;"),
    (Call::Diff(B, FIRST), "0 to 2: d 2-b,2-a;"),
];

#[test]
fn pages_cut(rt: HostRuntime) {
    static ROWS: Rows = &[
        (Call::Page(A, 0, 5, 2), "0 to 2: 1 a 1-a; 2 b 1-b;"),
        (Call::Page(A, 2, 5, 2), "2 to 5: 5 c 1-e,1-d,1-c;"),
        (
            Call::Page(A, 0, 5, 3),
            "0 to 5: 1 a 1-a; 2 b 1-b; 5 c 1-e,1-d,1-c;",
        ),
        (Call::Page(A, 5, 5, 2), "BadRange"),
        (Call::Page(A, 0, 6, 2), "GoalAhead { update_seq: 5 }"),
        (Call::Page(A, 6, 5, 0), "BadLimit"),
    ];
    expect(&rt, rt.alloc(), &[7], &[THREE, ROWS]);
}

#[test]
fn a_changed_document_moves_in_the_feed(rt: HostRuntime) {
    static ROWS: Rows = &[
        (
            Call::Put(A, r#"{"_id":"a","_revisions":{"start":2,"ids":["x","a"]}}"#),
            "Changed { seq: 6 }",
        ),
        (
            Call::Page(A, 1, 6, 10),
            "1 to 6: 2 b 1-b; 5 c 1-e,1-d,1-c; 6 a 2-x;",
        ),
        // No document of the database has its latest change at the sequence 3 or 4.
        (Call::Page(A, 2, 4, 1), "2 to 4:"),
    ];
    expect(&rt, rt.alloc(), &[7], &[THREE, ROWS]);
}

#[test]
fn puts_as_given(rt: HostRuntime) {
    const GROWN: &str = r#"{"_id":"d","_revisions":{"start":3,"ids":["c","b"]}}"#;
    // The document `LONGER` adds the missing ancestor 1-a to the tree. The document `ANCESTOR` adds a content to the
    // revision 2-b, which had no content. A put of either document returns `Changed`.
    const LONGER: &str = r#"{"_id":"d","_revisions":{"start":3,"ids":["c","b","a"]}}"#;
    const ANCESTOR: &str = r#"{"_id":"d","_rev":"2-b","n":1}"#;
    // Storing the document `AGAIN` changes nothing, because a revision keeps its first content.
    const AGAIN: &str = r#"{"_id":"d","_rev":"2-b","n":2}"#;
    const OTHER: &str = r#"{"_id":"d","_revisions":{"start":4,"ids":["d","c","x"]}}"#;
    static ROWS: Rows = &[
        (Call::Put(A, GROWN), "Changed { seq: 1 }"),
        (Call::Put(A, GROWN), "Same"),
        (Call::Put(A, LONGER), "Changed { seq: 2 }"),
        (Call::Put(A, ANCESTOR), "Changed { seq: 3 }"),
        (Call::Put(A, AGAIN), "Same"),
        (Call::Put(A, OTHER), "Contradiction 3-c,2-b,2-x"),
        (Call::Numbers(A), "0 at 3"),
        (Call::Tree(A, "d"), "3-c of 3"),
        (Call::Node(A, "d", "2-b"), r#"1-a, Local(0), live {"n":1}"#),
        (Call::Tree(A, "e"), "no document"),
        (Call::Document(A, "d", "2-b"), r#" d 2-b,1-a live {"n":1};"#),
        (Call::Document(A, "d", "3-c"), " d 3-c,2-b,1-a live {};"),
        // The next three calls read a revision without a content, a revision that does not exist, and a document that
        // does not exist.
        (Call::Document(A, "d", "1-a"), "no content"),
        (Call::Document(A, "d", "2-x"), "no content"),
        (Call::Document(A, "e", "2-b"), "no content"),
    ];
    expect(&rt, rt.alloc(), &[0], &[ROWS]);
}

#[test]
fn edits_of_each_kind(rt: HostRuntime) {
    // The signature of each new revision is the MD5 of three parts: the parent, `live` or `deleted`, and the body.
    const FIRST_EDIT: &str = "1-a7b2c897c2eeb544e2e818194f53a9e3";
    const SECOND_EDIT: &str = "2-cb54dc74c0a7939aa02f5c29b5058e05";
    const GONE: &str = "3-5978dd13991326701fd91ce8b9f1cd04";
    const AGAIN: &str = "4-b09ed53430120f58c04d525cbbd3e33d";
    const DEAD: &str = "1-e2ee0f94de389cef87fb74faf99cc2e1";
    const LIVE: &str = "2-e7915e5a79f14ff8d97a52f9ef488bbf";
    static ROWS: Rows = &[
        // The first edit creates the document d, and the second edit changes the document's leaf.
        (Call::Edit(A, "d", "", false, "{}", 0), FIRST_EDIT),
        (
            Call::Edit(A, "d", FIRST_EDIT, false, r#"{"n":1}"#, 1),
            SECOND_EDIT,
        ),
        // The third edit deletes the document d. The fourth edit names no parent, and creates a child of the deleted
        // winner of d.
        (Call::Edit(A, "d", SECOND_EDIT, true, "{}", 2), GONE),
        (
            Call::Tree(A, "d"),
            "3-5978dd13991326701fd91ce8b9f1cd04 of 3",
        ),
        (Call::Edit(A, "d", "", false, r#"{"n":1}"#, 3), AGAIN),
        (
            Call::Tree(A, "d"),
            "4-b09ed53430120f58c04d525cbbd3e33d of 4",
        ),
        (
            Call::Node(A, "d", AGAIN),
            r#"3-5978dd13991326701fd91ce8b9f1cd04, Local(3), live {"n":1}"#,
        ),
        (
            Call::Node(A, "d", GONE),
            "2-cb54dc74c0a7939aa02f5c29b5058e05, Local(2), deleted {}",
        ),
        (
            Call::Node(A, "d", FIRST_EDIT),
            "no parent, Local(0), live {}",
        ),
        (Call::Numbers(A), "0 at 4"),
        // The first edit of a document may be a deletion, and an edit may name a deleted leaf as its parent.
        (Call::Edit(A, "e", "", true, "{}", 4), DEAD),
        (Call::Edit(A, "e", DEAD, false, "{}", 5), LIVE),
        (
            Call::Tree(A, "e"),
            "2-e7915e5a79f14ff8d97a52f9ef488bbf of 2",
        ),
        (Call::Numbers(A), "0 at 6"),
    ];
    expect(&rt, rt.alloc(), &[0], &[ROWS]);
}

#[test]
fn edits_refused_by_name(rt: HostRuntime) {
    const TWO: &str = r#"{"_id":"d","_revisions":{"start":2,"ids":["b","a"]}}"#;
    const FULL: &str = r#"{"_id":"f","_rev":"4294967295-a"}"#;
    static ROWS: Rows = &[
        (Call::Edit(A, "d", "1-a", false, "{}", 0), "NoSuchDocument"),
        (Call::Put(A, TWO), "Changed { seq: 1 }"),
        // Three edits fail with `Conflict`. The first edit names a parent that is not a leaf, and the second edit names
        // a parent that is not in the tree. The third edit names no parent, although the document has a live leaf.
        (Call::Edit(A, "d", "1-a", false, "{}", 0), "Conflict"),
        (Call::Edit(A, "d", "2-x", false, "{}", 0), "Conflict"),
        (Call::Edit(A, "d", "", false, "{}", 0), "Conflict"),
        (Call::Put(A, FULL), "Changed { seq: 2 }"),
        (
            Call::Edit(A, "f", "4294967295-a", false, "{}", 0),
            "GenerationFull",
        ),
        (Call::Numbers(A), "0 at 2"),
    ];
    expect(&rt, rt.alloc(), &[0], &[ROWS]);
}

#[test]
fn an_edit_that_is_there(rt: HostRuntime) {
    // The document `THERE` has the revision that an edit of 1-a with an empty body creates. `THERE` does not name this
    // revision's parent 1-a.
    const THERE: &str = r#"{"_id":"d","_rev":"2-1c600d37126a8e6d3c67d6f7a6a5c299"}"#;
    static ROWS: Rows = &[
        (
            Call::Put(A, r#"{"_id":"d","_rev":"1-a"}"#),
            "Changed { seq: 1 }",
        ),
        (Call::Put(A, THERE), "Changed { seq: 2 }"),
        (
            Call::Edit(A, "d", "1-a", false, "{}", 0),
            "RevExists 2-1c600d37126a8e6d3c67d6f7a6a5c299",
        ),
        (Call::Numbers(A), "0 at 2"),
    ];
    expect(&rt, rt.alloc(), &[0], &[ROWS]);
}

#[test]
fn at_the_last_sequences(rt: HostRuntime) {
    const LAST: &str = r#"{"_id":"d","_revisions":{"start":2,"ids":["b","a"]}}"#;
    const OTHER: &str = r#"{"_id":"d","_revisions":{"start":2,"ids":["b","x"]}}"#;
    const REFUSED: &str = "GoalAhead { update_seq: 9007199254740991 }";
    static ROWS: Rows = &[
        (Call::DatabaseAt(7, 9_007_199_254_740_992), "SeqTooLarge"),
        (
            Call::DatabaseAt(7, 18_446_744_073_709_551_615),
            "SeqTooLarge",
        ),
        (Call::DatabaseAt(7, 9_007_199_254_740_990), "made"),
        (Call::DatabaseAt(8, 9_007_199_254_740_991), "made"),
        (Call::Numbers(A), "7 at 9007199254740990"),
        (Call::Numbers(B), "8 at 9007199254740991"),
        (Call::Tree(A, "d"), "no document"),
        (Call::Put(A, LAST), "Changed { seq: 9007199254740991 }"),
        // A put that changes nothing uses no update sequence. A put whose ancestry contradicts the document's tree
        // returns `Contradiction` even if the database has no sequence left.
        (Call::Put(A, LAST), "Same"),
        (Call::Put(A, OTHER), "Contradiction 2-b,1-a,1-x"),
        (Call::Put(A, r#"{"_id":"e","_rev":"1-a"}"#), "SeqFull"),
        (Call::Put(B, LAST), "SeqFull"),
        (Call::Edit(A, "d", "", false, "{}", 0), "Conflict"),
        (Call::Edit(A, "d", "2-b", false, "{}", 0), "SeqFull"),
        (Call::Edit(B, "d", "", false, "{}", 0), "SeqFull"),
        (Call::Numbers(A), "7 at 9007199254740991"),
        (
            Call::Page(A, 9_007_199_254_740_990, 9_007_199_254_740_991, 2),
            "9007199254740990 to 9007199254740991: 9007199254740991 d 2-b;",
        ),
        (Call::Page(A, 0, 9_007_199_254_740_992, 2), REFUSED),
    ];
    expect(&rt, rt.alloc(), &[], &[ROWS]);
}

#[test]
fn fetch_both_leaves(rt: HostRuntime) {
    static ROWS: Rows = &[(
        Call::Fetch(A, FIRST),
        r#"0 to 2: d 2-b,1-r live {}; d 2-a,1-r live {"n":1};"#,
    )];
    expect(&rt, rt.alloc(), &[1, 2], &[BOTH, BOTH_ASKED, ROWS]);
}

#[test]
fn a_fetched_document_has_its_ancestry_and_content(rt: HostRuntime) {
    const DELETED: &str = r#"{"_id":"d","_revisions":{"start":3,"ids":["c","b"]},"_deleted":true}"#;
    static ROWS: Rows = &[
        (Call::Put(A, DELETED), "Changed { seq: 3 }"),
        (Call::Page(A, 0, 3, 10), "0 to 3: 3 d 2-a,3-c;"),
        (Call::Diff(B, FIRST), "0 to 3: d 2-a,3-c;"),
        // A request or fetch lists the live leaf before the deleted leaf. The oldest revision in the ancestry of
        // `DELETED` is 2-b. The fetched ancestry of the leaf 3-c also has 1-r, the parent of 2-b in the tree.
        (
            Call::Fetch(A, FIRST),
            r#"0 to 3: d 2-a,1-r live {"n":1}; d 3-c,2-b,1-r deleted {};"#,
        ),
    ];
    expect(&rt, rt.alloc(), &[1, 2], &[BOTH, ROWS]);
}

#[test]
fn fetch_moved_leaf(rt: HostRuntime) {
    const NEWER: &str = r#"{"_id":"d","_revisions":{"start":3,"ids":["c","b","r"]}}"#;
    static ROWS: Rows = &[
        (Call::Put(A, NEWER), "Changed { seq: 3 }"),
        (
            Call::Fetch(A, FIRST),
            r#"0 to 2: d 3-c,2-b,1-r live {}; d 2-a,1-r live {"n":1};"#,
        ),
    ];
    expect(&rt, rt.alloc(), &[1, 2], &[BOTH, BOTH_ASKED, ROWS]);
}

#[test]
fn fetch_at_empty_database(rt: HostRuntime) {
    static ROWS: Rows = &[(Call::Fetch(B, FIRST), "0 to 2: gone d 2-b; gone d 2-a;")];
    expect(&rt, rt.alloc(), &[1, 2], &[BOTH, BOTH_ASKED, ROWS]);
}

#[test]
fn known_ancestor_not_asked(rt: HostRuntime) {
    const NEWER: &str = r#"{"_id":"d","_revisions":{"start":3,"ids":["c","b","r"]}}"#;
    static ROWS: Rows = &[
        (Call::Put(B, NEWER), "Changed { seq: 1 }"),
        (Call::Page(A, 0, 2, 10), "0 to 2: 2 d 2-b,2-a;"),
        (Call::Diff(B, FIRST), "0 to 2: d 2-a;"),
    ];
    expect(&rt, rt.alloc(), &[1, 2], &[BOTH, ROWS]);
}

#[test]
fn pages_of_few_documents_with_high_sequences(rt: HostRuntime) {
    // Calls with the largest sequences and generations do not fail.
    const MOST: u64 = 18_446_744_073_709_551_615;
    const LAST: u64 = 9_007_199_254_740_990;
    static ROWS: Rows = &[
        (Call::DatabaseAt(7, 9_007_199_254_740_988), "made"),
        (
            Call::Put(A, r#"{"_id":"d","_rev":"1-a"}"#),
            "Changed { seq: 9007199254740989 }",
        ),
        (
            Call::Put(A, r#"{"_id":"e","_rev":"1-b"}"#),
            "Changed { seq: 9007199254740990 }",
        ),
        (
            Call::Page(A, 0, LAST, MOST),
            "0 to 9007199254740990: 9007199254740989 d 1-a; 9007199254740990 e 1-b;",
        ),
        (
            Call::Page(A, 0, LAST, 1),
            "0 to 9007199254740989: 9007199254740989 d 1-a;",
        ),
        (
            Call::Page(A, 9_007_199_254_740_989, LAST, MOST),
            "9007199254740989 to 9007199254740990: 9007199254740990 e 1-b;",
        ),
    ];
    expect(&rt, rt.alloc(), &[], &[ROWS]);
}

#[test]
fn copies_of_a_database(rt: HostRuntime) {
    /// The greatest life.
    const LAST: u64 = 9_007_199_254_740_991;
    // The index of the copy that has the same life (incarnation number) as the first database.
    const SAME: usize = 1;
    // The index of the first database's copy that has another life.
    const OTHER: usize = 2;
    // The index of a copy of the database `OTHER`.
    const LATEST: usize = 3;
    const WHOLE: &str = "0 to 5: 1 a 1-a; 2 b 1-b; 5 c 1-e,1-d,1-c;";
    static ROWS: Rows = &[
        (Call::Life(A), "0"),
        (Call::Copy(A, None), "made"),
        (Call::Copy(A, Some(9)), "made"),
        (Call::Life(SAME), "0"),
        (Call::Numbers(SAME), "7 at 5"),
        (Call::Page(SAME, 0, 5, 10), WHOLE),
        (Call::Life(OTHER), "9"),
        (Call::Numbers(OTHER), "7 at 5"),
        (Call::Page(OTHER, 0, 5, 10), WHOLE),
        (Call::WindowLife(0), "0"),
        (Call::WindowLife(1), "9"),
        (Call::Document(OTHER, "c", "1-d"), " c 1-d live {};"),
        // Writing a document into one copy changes neither the other copies nor the life of the written copy.
        (
            Call::Put(OTHER, r#"{"_id":"a","_rev":"1-b"}"#),
            "Changed { seq: 6 }",
        ),
        (Call::Tree(OTHER, "a"), "1-b,1-a of 2"),
        (Call::Life(OTHER), "9"),
        (Call::Tree(A, "a"), "1-a of 1"),
        (Call::Tree(SAME, "a"), "1-a of 1"),
        // If no life is given, `Copy` gives the new copy the life (incarnation number) of the copied database.
        (Call::Copy(OTHER, None), "made"),
        (Call::Life(LATEST), "9"),
        (Call::Numbers(LATEST), "7 at 6"),
        (Call::Copy(LATEST, Some(LAST)), "made"),
        (Call::Life(4), "9007199254740991"),
    ];
    expect(&rt, rt.alloc(), &[7], &[THREE, ROWS]);
}
