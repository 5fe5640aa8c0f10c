//! Tests queries about two peers. If an allocation fails in a query, the test repeats the query, and expects the result
//! of a query without a failed allocation.
use crate::peers::{doc_id, load};
use anyhow::{Result, bail};
use couch_base::Database;
use doc_json::DocId;
use repl_inspect::{
    Census, Comparison, Total, census_of, compare, compare_feed, conflicting, documents_of,
};
use repl_target::{Peer, Rules};
use rev_tree::Tree;
use std::alloc::{AllocError, Global};

/// Two leaves of a document at the source. The target has the second leaf. The ancestry of the first leaf has the
/// revision 2-b, which has another parent at the target.
const SOURCE: [&str; 2] = [
    r#"{"_id":"d","_revisions":{"start":3,"ids":["d","b","a"]}}"#,
    r#"{"_id":"d","_revisions":{"start":2,"ids":["c","a"]}}"#,
];

const TARGET: [&str; 2] = [
    r#"{"_id":"d","_revisions":{"start":2,"ids":["b","x"]}}"#,
    r#"{"_id":"d","_revisions":{"start":2,"ids":["c","a"]},"n":1}"#,
];

/// Compares a document, and retries if an allocation fails.
fn compared(alloc: Global, source: &Database, target: &Database, id: &DocId) -> Option<Comparison> {
    match compare(alloc, source, target, id) {
        Err(AllocError) => compare(alloc, source, target, id).ok(),
        answer => answer.ok(),
    }
}

/// Compares the feed of a source with a target, and retries if an allocation fails.
fn total(alloc: Global, source: &Peer<Rules>, target: &Peer<Rules>) -> Option<Total> {
    match compare_feed(alloc, source, target, None) {
        Err(AllocError) => compare_feed(alloc, source, target, None).ok(),
        answer => answer.ok(),
    }
}

/// Counts the content of a database, and retries if an allocation fails.
fn census(alloc: Global, database: &Database) -> Option<Census> {
    match census_of(alloc, database) {
        Err(AllocError) => census_of(alloc, database).ok(),
        answer => answer.ok(),
    }
}

/// Counts the leaves, conflicts and revisions of a tree, and retries if an allocation fails. Checks that a failed call
/// of `Census::add` changes no count.
fn counted(alloc: Global, tree: &Tree) -> Option<Census> {
    let mut census = Census::none();
    if census.add(alloc, tree).is_err() {
        if census != Census::none() {
            return None;
        }
        let Ok(()) = census.add(alloc, tree) else {
            return None;
        };
    }
    Some(census)
}

/// Returns the number of leaves in conflict, and retries if an allocation fails.
fn in_conflict(alloc: Global, tree: &Tree) -> Option<usize> {
    match conflicting(alloc, tree) {
        Err(AllocError) => Some(conflicting(alloc, tree).ok()?.len()),
        answer => Some(answer.ok()?.len()),
    }
}

/// Reads a document for each leaf, returns the number of these documents, and retries if an allocation fails.
fn documents(alloc: Global, database: &Database, id: &DocId) -> Option<usize> {
    match documents_of(alloc, database, id) {
        Err(AllocError) => Some(documents_of(alloc, database, id).ok()?.len()),
        answer => Some(answer.ok()?.len()),
    }
}

/// Returns the numbers of leaves, missing leaves and differing leaves of the document.
fn of_document(
    alloc: Global,
    source: &Database,
    target: &Database,
    id: &DocId,
) -> Option<(usize, usize, usize)> {
    let Some(comparison) = compared(alloc, source, target, id) else {
        return None;
    };
    let Some(_contradiction) = comparison.contradiction() else {
        return None;
    };
    Some((
        comparison.leaves(),
        comparison.missing().len(),
        comparison.differing().len(),
    ))
}

/// Reads a document for each leaf of the document `id`. Returns the number of leaves in conflict, and the number of
/// documents that were read.
fn of_leaves(alloc: Global, database: &Database, id: &DocId) -> Option<(usize, usize)> {
    let Some(tree) = database.tree(id) else {
        return None;
    };
    let Some(_census) = counted(alloc, tree) else {
        return None;
    };
    Some((in_conflict(alloc, tree)?, documents(alloc, database, id)?))
}

/// Performs all queries about a source and a target, and returns whether the results are as expected.
fn asked(alloc: Global, source: &Peer<Rules>, target: &Peer<Rules>) -> Option<bool> {
    let Some(id) = doc_id(alloc, "d") else {
        return None;
    };
    let Some(of_document) = of_document(alloc, source.db(), target.db(), &id) else {
        return None;
    };
    let Some(of_leaves) = of_leaves(alloc, source.db(), &id) else {
        return None;
    };
    let Some(total) = total(alloc, source, target) else {
        return None;
    };
    let Some(census) = census(alloc, source.db()) else {
        return None;
    };
    let totals = total.missing == 1 && total.contradicting == 1 && total.differing == 1;
    let counts = census.conflicts == 1 && census.leaves == 2 && census.revisions == 4;
    Some(of_document == (2, 1, 1) && of_leaves == (2, 2) && totals && counts)
}

/// Loads the documents of `TARGET` into a new target, and calls `asked` with the source and the target.
fn with_target(alloc: Global, source: &Peer<Rules>) -> Option<bool> {
    let mut target = Peer::new(alloc, 2, Rules { deny: None });
    for text in TARGET {
        let Some(_put) = load(alloc, &mut target, text) else {
            return None;
        };
    }
    asked(alloc, source, &target)
}

/// Loads the documents of `SOURCE` into a new source, and calls `with_target` with the source.
fn of_peers(alloc: Global) -> Option<bool> {
    let mut source = Peer::new(alloc, 1, Rules { deny: None });
    for text in SOURCE {
        let Some(_put) = load(alloc, &mut source, text) else {
            return None;
        };
    }
    with_target(alloc, &source)
}

pub(crate) fn run(rt: &impl Print, alloc: Global) -> Result<()> {
    let Some(wanted) = of_peers(alloc) else {
        bail!("surveys: another answer");
    };
    println!(rt; "surveys as wanted: {wanted}")?;
    Ok(())
}
