//! Tests of networks of peers. The tests spread documents through a hub, break a chain of hops, refuse a document, load
//! an incomplete history, and cause each error.
use crate::tests::nets::{Call, Lists, Rows, expect, of_slice};

/// Four peers.
const FOUR: Rows = &[
    (Call::Add(1, None), "0"),
    (Call::Add(2, None), "1"),
    (Call::Add(3, None), "2"),
    (Call::Add(4, None), "3"),
];

/// The revisions that edits with the body {"v":1} create. An edit without a parent creates the revision `FIRST`, and an
/// edit of the revision 1-a creates the revision `SECOND`.
const FIRST: &str = "1-125e243b9a90308f8be767a220f77ae9";

const SECOND: &str = "2-04e04b58ba493e5eb3fd86e7cf77b40e";

#[test]
fn a_hub_spreads_what_anybody_writes(rt: HostRuntime) {
    const ROWS: Rows = &[
        (
            Call::Load(1, r#"{"_id":"d","_rev":"1-a"}"#),
            "Changed { seq: 1 }",
        ),
        (Call::Edit(2, "e", "", r#"{"v":1}"#), FIRST),
        (
            Call::Load(3, r#"{"_id":"d","_rev":"1-b","w":2}"#),
            "Changed { seq: 1 }",
        ),
        (Call::Hub(3, 3), "done"),
        (
            Call::Leaves(0, "d"),
            r#" d 1-b live {"w":2}; d 1-a live {};"#,
        ),
        (
            Call::Leaves(1, "d"),
            r#" d 1-b live {"w":2}; d 1-a live {};"#,
        ),
        (
            Call::Leaves(2, "d"),
            r#" d 1-b live {"w":2}; d 1-a live {};"#,
        ),
        (
            Call::Leaves(3, "d"),
            r#" d 1-b live {"w":2}; d 1-a live {};"#,
        ),
        (
            Call::Tree(0, "e"),
            "1-125e243b9a90308f8be767a220f77ae9 of 1",
        ),
        (
            Call::Tree(1, "e"),
            "1-125e243b9a90308f8be767a220f77ae9 of 1",
        ),
        (
            Call::Tree(3, "e"),
            "1-125e243b9a90308f8be767a220f77ae9 of 1",
        ),
        (Call::Audit(0, 3), "clean"),
        (Call::Audit(3, 0), "clean"),
        (Call::Audit(1, 2), "clean"),
        // A peer that is added after a replication gets the documents by a later hop (a replication between two peers).
        (Call::Add(5, None), "4"),
        (Call::Along(&[(2, 4)]), "done"),
        (Call::Tree(4, "d"), "1-b,1-a of 2"),
    ];
    static LISTS: Lists = &[FOUR, ROWS];
    expect(&rt, rt.alloc(), LISTS);
}

#[test]
fn a_broken_chain_brings_nothing_to_its_end(rt: HostRuntime) {
    const ROWS: Rows = &[
        (
            Call::Load(0, r#"{"_id":"d","_rev":"1-a"}"#),
            "Changed { seq: 1 }",
        ),
        // The hop from peer 1 to peer 2 copies no document, because peer 1 gets the document d only by the next hop.
        (Call::Along(&[(1, 2), (0, 1), (3, 2)]), "done"),
        (Call::Tree(1, "d"), "1-a of 1"),
        (Call::Tree(2, "d"), "no document"),
        (Call::Audit(1, 2), "clean"),
        (Call::Along(&[(2, 3), (1, 2)]), "done"),
        (Call::Tree(2, "d"), "1-a of 1"),
        (Call::Tree(3, "d"), "no document"),
    ];
    static LISTS: Lists = &[FOUR, ROWS];
    expect(&rt, rt.alloc(), LISTS);
}

#[test]
fn a_refused_document_stays_away_and_others_go_on(rt: HostRuntime) {
    const CHOOSY: Rows = &[
        (Call::Add(1, Some("x")), "0"),
        (Call::Add(2, None), "1"),
        (Call::Add(3, None), "2"),
    ];
    const ROWS: Rows = &[
        (
            Call::Load(1, r#"{"_id":"x1","_rev":"1-a"}"#),
            "Changed { seq: 1 }",
        ),
        (
            Call::Load(1, r#"{"_id":"d","_rev":"1-a"}"#),
            "Changed { seq: 2 }",
        ),
        // The replication through the hub succeeds although the hub refuses the document x1. All peers get the document
        // d.
        (Call::Hub(2, 2), "done"),
        (Call::Tree(0, "x1"), "no document"),
        (Call::Tree(2, "x1"), "no document"),
        (Call::Tree(0, "d"), "1-a of 1"),
        (Call::Tree(2, "d"), "1-a of 1"),
        // After edits of the documents d and x1, the replication through the hub copies d, and the hub refuses x1
        // again.
        (Call::Edit(2, "d", "1-a", r#"{"v":1}"#), SECOND),
        (Call::Edit(1, "x1", "1-a", r#"{"v":1}"#), SECOND),
        (Call::Hub(2, 2), "done"),
        (
            Call::Tree(0, "d"),
            "2-04e04b58ba493e5eb3fd86e7cf77b40e of 2",
        ),
        (
            Call::Tree(1, "d"),
            "2-04e04b58ba493e5eb3fd86e7cf77b40e of 2",
        ),
        (Call::Tree(2, "x1"), "no document"),
        (Call::Audit(1, 0), "clean"),
        // Peer 2 gets the document x1 by a hop from peer 1, without the hub.
        (Call::Along(&[(1, 2)]), "done"),
        (
            Call::Tree(2, "x1"),
            "2-04e04b58ba493e5eb3fd86e7cf77b40e of 2",
        ),
    ];
    static LISTS: Lists = &[CHOOSY, ROWS];
    expect(&rt, rt.alloc(), LISTS);
}

#[test]
fn a_history_that_is_cut_off_stays_so(rt: HostRuntime) {
    const ROWS: Rows = &[
        (
            Call::Load(
                0,
                r#"{"_id":"d","_revisions":{"start":3,"ids":["c","b","a"]}}"#,
            ),
            "Changed { seq: 1 }",
        ),
        (
            Call::Load(1, r#"{"_id":"d","_rev":"3-c"}"#),
            "Changed { seq: 1 }",
        ),
        (Call::Along(&[(0, 1), (1, 0)]), "done"),
        (Call::Tree(0, "d"), "3-c of 3"),
        (Call::Tree(1, "d"), "3-c of 1"),
        (Call::Audit(0, 1), "clean"),
    ];
    static LISTS: Lists = &[FOUR, ROWS];
    expect(&rt, rt.alloc(), LISTS);
}

#[test]
fn trees_that_disagree_do_so_still(rt: HostRuntime) {
    const ROWS: Rows = &[
        // The revision 2-c of the document d has different parents at the peers 0 and 1.
        (
            Call::Load(0, r#"{"_id":"d","_revisions":{"start":2,"ids":["c","x"]}}"#),
            "Changed { seq: 1 }",
        ),
        (
            Call::Load(1, r#"{"_id":"d","_revisions":{"start":2,"ids":["c","y"]}}"#),
            "Changed { seq: 1 }",
        ),
        // The revision 1-a of the document e has different contents at the peers 0 and 1.
        (
            Call::Load(0, r#"{"_id":"e","_rev":"1-a","v":1}"#),
            "Changed { seq: 2 }",
        ),
        (
            Call::Load(1, r#"{"_id":"e","_rev":"1-a","v":2}"#),
            "Changed { seq: 2 }",
        ),
        (Call::Along(&[(0, 1), (1, 0)]), "done"),
        (Call::Leaves(0, "d"), " d 2-c,1-x live {};"),
        (Call::Leaves(1, "d"), " d 2-c,1-y live {};"),
        (Call::Leaves(0, "e"), r#" e 1-a live {"v":1};"#),
        (Call::Leaves(1, "e"), r#" e 1-a live {"v":2};"#),
        (Call::Audit(0, 1), "clean"),
        (Call::Audit(1, 0), "clean"),
    ];
    static LISTS: Lists = &[FOUR, ROWS];
    expect(&rt, rt.alloc(), LISTS);
}

#[test]
fn hops_that_are_refused(rt: HostRuntime) {
    const ROWS: Rows = &[
        (Call::Along(&[]), "done"),
        (Call::Along(&[(9, 8)]), "NoPeer(9)"),
        (Call::Along(&[(0, 9)]), "NoPeer(9)"),
        (Call::Along(&[(9, 9)]), "NoPeer(9)"),
        (Call::Along(&[(1, 1)]), "hop 0: SamePeer"),
        (
            Call::Load(0, r#"{"_id":"d","_rev":"1-a"}"#),
            "Changed { seq: 1 }",
        ),
        // If a hop fails, the changes of earlier hops are kept, and no later hop is made.
        (Call::Along(&[(0, 1), (1, 1), (1, 2)]), "hop 1: SamePeer"),
        (Call::Tree(1, "d"), "1-a of 1"),
        (Call::Tree(2, "d"), "no document"),
        (
            Call::Load(0, r#"{"_id":"e","_rev":"1-a"}"#),
            "Changed { seq: 2 }",
        ),
        (
            Call::Load(0, r#"{"_id":"f","_rev":"1-a"}"#),
            "Changed { seq: 3 }",
        ),
        // If the replication of a hop stops below the goal, the call returns an error.
        (
            Call::AlongTwoRows(&[(0, 2), (2, 3)]),
            "hop 0: Unfinished { low_water: 2 }",
        ),
        (Call::Tree(2, "e"), "1-a of 1"),
        (Call::Tree(2, "f"), "no document"),
        (Call::Tree(3, "d"), "no document"),
        (Call::Hub(2, 3), "Plans"),
        (Call::Hub(3, 2), "Plans"),
        (Call::Hub(4, 4), "Plans"),
        (Call::Tree(3, "d"), "no document"),
        (Call::Hub(3, 3), "done"),
        (Call::Tree(3, "f"), "1-a of 1"),
    ];
    static LISTS: Lists = &[FOUR, ROWS];
    expect(&rt, rt.alloc(), LISTS);
}

#[test]
fn writes_and_peers_that_are_refused(rt: HostRuntime) {
    const ROWS: Rows = &[
        (Call::Add(3, None), "SameUuid(2)"),
        (Call::Load(4, r#"{"_id":"d","_rev":"1-a"}"#), "NoPeer(4)"),
        (Call::Edit(4, "d", "", "{}"), "NoPeer(4)"),
        (Call::Audit(4, 5), "NoPeer(4)"),
        (Call::Audit(0, 5), "NoPeer(5)"),
        (
            Call::Load(0, r#"{"_id":"d","_revisions":{"start":2,"ids":["c","x"]}}"#),
            "Changed { seq: 1 }",
        ),
        (
            Call::Load(0, r#"{"_id":"d","_revisions":{"start":2,"ids":["c","y"]}}"#),
            "Contradiction 2-c,1-x,1-y",
        ),
        (Call::Edit(0, "d", "1-x", "{}"), "Conflict"),
        (Call::Tree(0, "d"), "2-c of 2"),
    ];
    static LISTS: Lists = &[FOUR, ROWS];
    expect(&rt, rt.alloc(), LISTS);
}

#[test]
fn calls_on_a_slice_of_peers(rt: HostRuntime) {
    of_slice(&rt, rt.alloc());
}
