//! Tests of the crate `repl_inspect`, which compares the leaves of two peers, and reads conflicts, ledgers and counts.
//! One test has a document with 1,000 leaves.
use crate::tests::surveys::{Call, Rows, expect};

#[test]
fn what_a_target_misses(rt: HostRuntime) {
    static ROWS: Rows = &[
        (
            Call::Source(r#"{"_id":"d","_revisions":{"start":3,"ids":["d","b","a"]}}"#),
            "Changed { seq: 1 }",
        ),
        (
            Call::Source(r#"{"_id":"d","_revisions":{"start":2,"ids":["c","a"]}}"#),
            "Changed { seq: 2 }",
        ),
        (
            Call::Source(r#"{"_id":"e","_rev":"1-a","_deleted":true}"#),
            "Changed { seq: 3 }",
        ),
        // The target has neither of the source's two documents.
        (Call::Compare("d"), "2 missing 3-d 2-c differing"),
        (Call::Compare("e"), "1 missing 1-a differing"),
        // The document f exists neither at the source nor at the target.
        (Call::Compare("f"), "0 missing differing"),
        // The revision 2-b has different parents at source and target, and the revision 2-c has different bodies.
        (
            Call::Target(r#"{"_id":"d","_revisions":{"start":2,"ids":["b","x"]}}"#),
            "Changed { seq: 1 }",
        ),
        (
            Call::Target(r#"{"_id":"d","_revisions":{"start":2,"ids":["c","a"]},"n":1}"#),
            "Changed { seq: 2 }",
        ),
        (
            Call::Compare("d"),
            "2 missing 3-d contradicts 2-b differing 2-c",
        ),
        // The document e has the leaf 1-a at both peers, but only the source's leaf is deleted.
        (
            Call::Target(r#"{"_id":"e","_rev":"1-a"}"#),
            "Changed { seq: 3 }",
        ),
        (Call::Compare("e"), "1 missing differing 1-a"),
        (
            Call::Total(None),
            "Total { documents: 2, leaves: 3, missing: 1, contradicting: 1, differing: 2 }",
        ),
        (
            Call::Total(Some("e")),
            "Total { documents: 1, leaves: 1, missing: 0, contradicting: 0, differing: 1 }",
        ),
        (
            Call::Total(Some("f")),
            "Total { documents: 0, leaves: 0, missing: 0, contradicting: 0, differing: 0 }",
        ),
    ];
    expect(&rt, rt.alloc(), ROWS);
}

#[test]
fn a_gap_is_neither_missing_nor_other(rt: HostRuntime) {
    static ROWS: Rows = &[
        (
            Call::Source(r#"{"_id":"d","_revisions":{"start":3,"ids":["c","b","a"]}}"#),
            "Changed { seq: 1 }",
        ),
        // The target has the source's leaf 3-c and a child of 3-c, but not the parent of 3-c.
        (
            Call::Target(r#"{"_id":"d","_revisions":{"start":4,"ids":["d","c"]}}"#),
            "Changed { seq: 1 }",
        ),
        (Call::Compare("d"), "1 missing differing"),
        (
            Call::Total(None),
            "Total { documents: 1, leaves: 1, missing: 0, contradicting: 0, differing: 0 }",
        ),
    ];
    expect(&rt, rt.alloc(), ROWS);
}

#[test]
fn what_is_refused_stands_in_the_ledger(rt: HostRuntime) {
    static ROWS: Rows = &[
        (
            Call::Source(r#"{"_id":"d","_revisions":{"start":3,"ids":["d","b","a"]}}"#),
            "Changed { seq: 1 }",
        ),
        (
            Call::Source(r#"{"_id":"x","_revisions":{"start":2,"ids":["b","a"]}}"#),
            "Changed { seq: 2 }",
        ),
        (
            Call::Source(r#"{"_id":"e","_rev":"1-a"}"#),
            "Changed { seq: 3 }",
        ),
        (
            Call::Target(r#"{"_id":"d","_revisions":{"start":2,"ids":["b","x"]}}"#),
            "Changed { seq: 1 }",
        ),
        (
            Call::Replicate,
            "session 1 from 0 to 3 checked 3 found 3 read 3 written 1 failed 2",
        ),
        (Call::Ledger, "d contradicted 2-b 1-x 1-a;x denied 2-b;"),
        (
            Call::Total(None),
            "Total { documents: 3, leaves: 3, missing: 2, contradicting: 1, differing: 0 }",
        ),
        (Call::Compare("x"), "1 missing 2-b differing"),
        (Call::Tree("e"), "1-a of 1"),
    ];
    expect(&rt, rt.alloc(), ROWS);
}

#[test]
fn what_is_in_conflict_and_how_much_there_is(rt: HostRuntime) {
    static ROWS: Rows = &[
        (
            Call::Census,
            "Census { documents: 0, deleted: 0, conflicts: 0, leaves: 0, revisions: 0 }",
        ),
        (
            Call::Source(r#"{"_id":"d","_revisions":{"start":2,"ids":["b","a"]},"n":1}"#),
            "Changed { seq: 1 }",
        ),
        (Call::Conflict("d"), ""),
        (
            Call::Source(r#"{"_id":"d","_revisions":{"start":2,"ids":["c","a"]},"n":2}"#),
            "Changed { seq: 2 }",
        ),
        (Call::Conflict("d"), " 2-c 2-b"),
        // A deleted leaf of any generation is not in conflict with other leaves.
        (
            Call::Source(
                r#"{"_id":"d","_revisions":{"start":3,"ids":["d","c","a"]},"_deleted":true}"#,
            ),
            "Changed { seq: 3 }",
        ),
        (Call::Conflict("d"), ""),
        (
            Call::Source(r#"{"_id":"d","_rev":"1-z","n":3}"#),
            "Changed { seq: 4 }",
        ),
        (Call::Conflict("d"), " 2-b 1-z"),
        (
            Call::Source(r#"{"_id":"e","_rev":"1-a","_deleted":true}"#),
            "Changed { seq: 5 }",
        ),
        (Call::Conflict("e"), ""),
        (
            Call::Census,
            "Census { documents: 2, deleted: 1, conflicts: 1, leaves: 4, revisions: 6 }",
        ),
        (
            Call::Documents("d"),
            r#" d 2-b,1-a live {"n":1}; d 1-z live {"n":3}; d 3-d,2-c,1-a deleted {};"#,
        ),
        (Call::Documents("f"), ""),
    ];
    expect(&rt, rt.alloc(), ROWS);
}

#[test]
fn a_document_of_1_000_leaves(rt: HostRuntime) {
    static ROWS: Rows = &[
        (Call::Wide(1_000), "Changed { seq: 1000 }"),
        (
            Call::Total(None),
            "Total { documents: 1, leaves: 1000, missing: 1000, contradicting: 0, differing: 0 }",
        ),
        (
            Call::Census,
            "Census { documents: 1, deleted: 0, conflicts: 1, leaves: 1000, revisions: 1000 }",
        ),
        (
            Call::Replicate,
            "session 1 from 0 to 1000 checked 1000 found 1000 read 1000 written 1000 failed 0",
        ),
        (
            Call::Total(None),
            "Total { documents: 1, leaves: 1000, missing: 0, contradicting: 0, differing: 0 }",
        ),
    ];
    expect(&rt, rt.alloc(), ROWS);
}
