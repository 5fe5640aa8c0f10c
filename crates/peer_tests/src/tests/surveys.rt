//! Queries about two peers: a source, and a target into which the source is replicated.
use crate::tests::databases::tree;
use crate::tests::large::load_wide;
use crate::tests::peers::load;
use crate::tests::plans::plan;
use crate::tests::records::{fault_text, report_text};
use crate::tests::texts::{doc_text, expect_answer, joined, plain};
use doc_json::{Chosen, Doc, DocId};
use repl_inspect::{
    Comparison, LedgerRow, census_of, compare, compare_feed, conflicting, documents_of, ledger_row,
};
use repl_target::{Peer, Refused, Rules, replicate_alone};
use rev_core::Rev;
use rev_tree::{SessionId, Tree};
use std::alloc::Global;
use std::process::Abort;
use test_support::{rev_text, shown};

/// The only session.
const SESSION: SessionId = SessionId(1);

/// A call on the source of a replication, on the target, or on both.
#[derive(Clone, Copy)]
pub(crate) enum Call<'a> {
    /// Load a document into the source.
    Source(&'a str),
    /// Load a document into the target.
    Target(&'a str),
    /// Load a given number of leaves of the document d into the source.
    Wide(u32),
    /// Replicate the source into the target.
    Replicate,
    /// Compare a document of the source with the target's document.
    Compare(&'a str),
    /// Read the totals of the differences between source and target, for all documents in the source's feed or for one
    /// document.
    Total(Option<&'a str>),
    /// Read the leaves of a document of the source that are in conflict.
    Conflict(&'a str),
    /// Count the source's documents, leaves and revisions.
    Census,
    /// Read the ledger of the session.
    Ledger,
    /// Read the ancestry and the content of each leaf of a document of the source.
    Documents(&'a str),
    /// Read the tree of a document of the target.
    Tree(&'a str),
}

/// The calls of a test, each with the expected result.
pub(crate) type Rows = &'static [(Call<'static>, &'static str)];

/// A source, and a target with a filter that denies ids that begin with x.
#[derive(Drop)]
struct Bench {
    alloc: Global,
    source: Peer<Rules>,
    target: Peer<Rules>,
}

impl Bench {
    /// Performs a call, and returns the call's result as a string.
    fn answer(&mut self, call: &Call) -> Option<String> {
        match *call {
            Call::Source(text) => load(self.alloc, &mut self.source, text),
            Call::Target(text) => load(self.alloc, &mut self.target, text),
            Call::Wide(leaves) => load_wide(self.alloc, &mut self.source, leaves),
            Call::Replicate => self.replicate(),
            asking => self.ask(&asking),
        }
    }

    /// Performs a read-only call.
    fn ask(&self, call: &Call) -> Option<String> {
        match *call {
            Call::Compare(id) => self.compare(id),
            Call::Total(id) => self.total(id),
            Call::Conflict(id) => self.conflict(id),
            Call::Census => self.census(),
            Call::Ledger => self.ledger(),
            Call::Documents(id) => self.documents(id),
            Call::Tree(id) => tree(self.alloc, self.target.db(), id),
            _ => None,
        }
    }

    /// Replicates by one thread.
    fn replicate(&mut self) -> Option<String> {
        let Some(plan) = plan(SESSION, 500, 0) else {
            return None;
        };
        match replicate_alone(self.alloc, &mut self.source, &mut self.target, &plan) {
            Ok(report) => report_text(self.alloc, report),
            Err(fault) => fault_text(self.alloc, fault),
        }
    }

    /// Compares a document.
    fn compare(&self, id: &str) -> Option<String> {
        let Ok(id) = DocId::parse(self.alloc, id) else {
            return None;
        };
        match compare(self.alloc, self.source.db(), self.target.db(), &id) {
            Ok(found) => comparison_text(self.alloc, &found),
            Err(_) => None,
        }
    }

    /// Counts the source's documents, leaves and revisions.
    fn census(&self) -> Option<String> {
        match census_of(self.alloc, self.source.db()) {
            Ok(census) => shown(self.alloc, &census),
            Err(_) => None,
        }
    }

    /// Reads the ledger of the session.
    fn ledger(&self) -> Option<String> {
        match self.target.ledger(SESSION) {
            Some(rows) => ledger(self.alloc, rows),
            None => None,
        }
    }

    /// Reads the total of the differences between the source's complete feed and the target.
    fn total(&self, id: Option<&str>) -> Option<String> {
        match id {
            Some(id) => {
                let Some(chosen) = choice(self.alloc, id) else {
                    return None;
                };
                self.total_under(Some(&chosen))
            }
            None => self.total_under(None),
        }
    }

    /// Reads the total of the differences between selected documents of the source and the target.
    fn total_under(&self, chosen: Option<&Chosen>) -> Option<String> {
        match compare_feed(self.alloc, &self.source, &self.target, chosen) {
            Ok(total) => shown(self.alloc, &total),
            Err(_) => None,
        }
    }

    /// Reads the leaves in conflict.
    fn conflict(&self, id: &str) -> Option<String> {
        let Ok(id) = DocId::parse(self.alloc, id) else {
            return None;
        };
        match self.source.db().tree(&id) {
            Some(tree) => conflict_text(self.alloc, tree),
            None => None,
        }
    }

    /// Reads, for each leaf of a document of the source, the ancestry and the content.
    fn documents(&self, id: &str) -> Option<String> {
        let Ok(id) = DocId::parse(self.alloc, id) else {
            return None;
        };
        match documents_of(self.alloc, self.source.db(), &id) {
            Ok(docs) => docs_text(self.alloc, &docs),
            Err(_) => None,
        }
    }
}

/// Returns the leaves of a tree that are in conflict.
fn conflict_text(alloc: Global, tree: &Tree) -> Option<String> {
    match conflicting(alloc, tree) {
        Ok(found) => revs_text(alloc, &found),
        Err(_) => None,
    }
}

/// Formats each of the given documents with `doc_text`, and joins the formatted documents in order.
fn docs_text(alloc: Global, docs: &[Doc]) -> Option<String> {
    let mut all = Some(String::new(alloc));
    for doc in docs {
        all = joined(all, doc_text(alloc, doc));
    }
    all
}

/// Creates the selection of one document.
fn choice(alloc: Global, id: &str) -> Option<Chosen> {
    let mut ids = Vec::new(alloc);
    let Ok(id) = DocId::parse(alloc, id) else {
        return None;
    };
    let Ok(()) = ids.push(id) else {
        return None;
    };
    Chosen::new(ids).ok()
}

/// Returns a string of revisions, with a space before each revision.
fn revs_text(alloc: Global, revs: &[Rev]) -> Option<String> {
    let mut all = Some(String::new(alloc));
    for rev in revs {
        all = joined(all, plain(alloc, " "));
        all = joined(all, rev_text(alloc, *rev));
    }
    all
}

/// Returns the text of a comparison. The text has the number of leaves, the missing leaves, the contradicting revision,
/// and the leaves with different contents.
fn comparison_text(alloc: Global, found: &Comparison) -> Option<String> {
    let all = joined(leaves_text(alloc, found), revs_text(alloc, found.missing()));
    let all = joined(all, contradiction_text(alloc, found));
    let all = joined(all, plain(alloc, " differing"));
    joined(all, revs_text(alloc, found.differing()))
}

/// Returns the number of leaves.
fn leaves_text(alloc: Global, found: &Comparison) -> Option<String> {
    format!(in alloc; "{} missing", found.leaves()).ok()
}

/// Returns the text of the revision with different parents at source and target, or an empty string if there is no such
/// revision.
fn contradiction_text(alloc: Global, found: &Comparison) -> Option<String> {
    match found.contradiction() {
        Some(told) => joined(plain(alloc, " contradicts "), rev_text(alloc, told.child)),
        None => plain(alloc, ""),
    }
}

/// Returns the text of a ledger row.
fn row_text(alloc: Global, row: LedgerRow) -> Option<String> {
    match row {
        LedgerRow::Denied { rev } => { joined(plain(alloc, " denied"), revs_text(alloc, &[rev])) }
        LedgerRow::Contradicted { rev, known, given } => {
            let revs = revs_text(alloc, &[rev, known, given]);
            joined(plain(alloc, " contradicted"), revs)
        }
    }
}

/// Returns the text of a ledger. For each row, the text has the document's id and the row's text.
fn ledger(alloc: Global, rows: &[Refused]) -> Option<String> {
    let mut all = Some(String::new(alloc));
    for row in rows {
        all = joined(all, plain(alloc, row.doc().id().text()));
        all = joined(all, row_text(alloc, ledger_row(row)));
        all = joined(all, plain(alloc, ";"));
    }
    all
}

/// Creates a source and a target that have no documents. The target refuses documents whose ids begin with x.
fn two_peers(rt: &impl Abort, alloc: Global) -> Bench {
    let deny = "x".to_string(alloc).expect(rt, "memory");
    Bench {
        alloc,
        source: Peer::new(alloc, 1, Rules { deny: None }),
        target: Peer::new(alloc, 2, Rules { deny: Some(deny) }),
    }
}

/// Performs the calls, and asserts that each call returns the expected result.
pub(crate) fn expect(rt: &impl Abort, alloc: Global, rows: Rows) {
    let mut bench = two_peers(rt, alloc);
    for (i, (call, wanted)) in rows.iter().enumerate() {
        expect_answer(rt, i, bench.answer(call), wanted);
    }
}
