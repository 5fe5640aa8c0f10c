//! Performs calls on databases in a test fixture. The fixture holds the databases, and the pages, requests and parcels
//! that calls returned.
use crate::tests::texts::{
    asked_text, base_fault_text, body, doc, doc_text, expect_answer, node_text, numbers_text,
    parcel_text, tree_text, window_text,
};
use couch_base::{Asked, BaseFault, Database, Parcel, Put, Window};
use doc_json::{Doc, DocId};
use rev_core::Rev;
use rev_tree::Origin;
use std::alloc::Global;
use std::process::Abort;
use test_support::{rev, rev_text, shown};

/// A call on a database. A call names each database, window, request or parcel by an index.
#[derive(Clone, Copy)]
pub(crate) enum Call<'a> {
    /// Create a database with a UUID and an update sequence, and append the database to the test's list of databases.
    DatabaseAt(u128, u64),
    /// Put a document.
    Put(usize, &'a str),
    /// Edit a document, given the document's id, the parent revision (an empty string for no parent), the deleted flag,
    /// and the body. The new revision's origin is a local write (`Origin::Local`), whose number is the last parameter.
    Edit(usize, &'a str, &'a str, bool, &'a str, u64),
    /// Copy a database, and append the copy to the test's list of databases. The copy has the given life (incarnation
    /// number), or the life of the copied database if no life is given.
    Copy(usize, Option<u64>),
    /// Read the UUID and the update sequence of a database.
    Numbers(usize),
    /// Read the life of a database, a number that changes when the database is restored.
    Life(usize),
    /// Read the life (incarnation number) that the source database had when the window was read.
    WindowLife(usize),
    /// Read the tree of a document.
    Tree(usize, &'a str),
    /// Read a revision of a document.
    Node(usize, &'a str, &'a str),
    /// Read the document at a revision.
    Document(usize, &'a str, &'a str),
    /// Read a page, given the sequence before the page, the goal and the maximum number of rows. The call appends the
    /// page to the test's list of windows.
    Page(usize, u64, u64, u64),
    /// Compute which leaves in a window a database lacks, and append the request for these leaves to the test's list of
    /// requests.
    Diff(usize, usize),
    /// Fetch requested documents from a database, and append the parcel (the fetched documents) to the test's list of
    /// parcels.
    Fetch(usize, usize),
}

/// The calls of a test, each with the expected result.
pub(crate) type Rows = &'static [(Call<'static>, &'static str)];

/// The windows, requests and parcels that the calls of a test returned.
#[derive(Drop)]
pub(crate) struct Held {
    pub(crate) windows: Vec<Window>,
    pub(crate) asked: Vec<Asked>,
    pub(crate) parcels: Vec<Parcel>,
}

impl Held {
    /// Creates an empty value.
    pub(crate) fn new(alloc: Global) -> Held {
        Held {
            windows: Vec::new(alloc),
            asked: Vec::new(alloc),
            parcels: Vec::new(alloc),
        }
    }
}

/// The databases of a test, and the windows, requests and parcels that calls returned.
#[derive(Drop)]
pub(crate) struct Bench {
    alloc: Global,
    databases: Vec<Database>,
    held: Held,
}

impl Bench {
    /// Creates databases without documents, with the given UUIDs.
    pub(crate) fn new(rt: &impl Abort, alloc: Global, uuids: &[u128]) -> Bench {
        let mut databases = Vec::new(alloc);
        for uuid in uuids {
            let Ok(()) = databases.push(Database::new(alloc, *uuid)) else {
                rt.panic(format_args!("no memory"))
            };
        }
        Bench {
            alloc,
            databases,
            held: Held::new(alloc),
        }
    }

    /// Performs the calls in order, and asserts that each call returns the expected result.
    pub(crate) fn run(&mut self, rt: &impl Abort, calls: &[(Call, &str)]) {
        for (i, (call, wanted)) in calls.iter().enumerate() {
            expect_answer(rt, i, self.answer(call), wanted);
        }
    }

    /// Performs a call, and returns the call's result as a string.
    fn answer(&mut self, call: &Call) -> Option<String> {
        match *call {
            Call::DatabaseAt(uuid, seq) => make_at(self.alloc, &mut self.databases, uuid, seq),
            Call::Copy(at, life) => copy(self.alloc, &mut self.databases, at, life),
            Call::WindowLife(window) => window_life(self.alloc, &self.held.windows, window),
            other => self.answer_of(place_of(&other), &other),
        }
    }

    /// Performs a call on the database at an index.
    fn answer_of(&mut self, place: Option<usize>, call: &Call) -> Option<String> {
        let Some(at) = place else {
            return None;
        };
        match self.databases.get_mut(at) {
            Some(db) => of_one(self.alloc, db, &mut self.held, call),
            None => None,
        }
    }
}

/// Returns, as a string, the life of the window at index `at`. A window has the life of the database that produced the
/// window.
fn window_life(alloc: Global, windows: &[Window], at: usize) -> Option<String> {
    match windows.get(at) {
        Some(window) => shown(alloc, &window.life()),
        None => None,
    }
}

/// Returns the index of the database that a call uses.
fn place_of(call: &Call) -> Option<usize> {
    match *call {
        Call::Put(at, _)
        | Call::Edit(at, _, _, _, _, _)
        | Call::Numbers(at)
        | Call::Life(at)
        | Call::Tree(at, _)
        | Call::Node(at, _, _)
        | Call::Document(at, _, _)
        | Call::Page(at, _, _, _)
        | Call::Diff(at, _)
        | Call::Fetch(at, _) => Some(at),
        _ => None,
    }
}

/// Performs a call on one database.
fn of_one(alloc: Global, db: &mut Database, held: &mut Held, call: &Call) -> Option<String> {
    match *call {
        Call::Put(_, text) => put(alloc, db, text),
        Call::Edit(_, id, parent, deleted, text, number) => {
            edit(alloc, db, id, parent, deleted, text, number)
        }
        Call::Page(_, since, goal, limit) => {
            page(alloc, db, &mut held.windows, since, goal, limit)
        }
        Call::Diff(_, window) => diff(alloc, db, held, window),
        Call::Fetch(_, asked) => fetch(alloc, db, held, asked),
        reading => read(alloc, db, &reading),
    }
}

/// Performs a read-only call on one database.
fn read(alloc: Global, db: &Database, call: &Call) -> Option<String> {
    match *call {
        Call::Numbers(_) => numbers_text(alloc, db),
        Call::Life(_) => shown(alloc, &db.life()),
        Call::Tree(_, id) => tree(alloc, db, id),
        Call::Node(_, id, rev) => node(alloc, db, id, rev),
        Call::Document(_, id, text) => document(alloc, db, id, text),
        _ => None,
    }
}

/// Creates a database with a given update sequence, and appends the database to the list `databases`.
fn make_at(alloc: Global, databases: &mut Vec<Database>, uuid: u128, seq: u64) -> Option<String> {
    match Database::new_at(alloc, uuid, seq) {
        Ok(db) => made_text(alloc, databases.push(db).ok()),
        Err(fault) => base_fault_text(alloc, fault),
    }
}

/// The greatest life (incarnation number) of a database: 2^53 - 1.
const LAST_LIFE: u64 = 9_007_199_254_740_991;

/// Copies a database, and appends the copy to the list `databases`. The copy has the given life (incarnation number),
/// or the life of the copied database if no life is given.
fn copy(
    alloc: Global,
    databases: &mut Vec<Database>,
    at: usize,
    life: Option<u64>,
) -> Option<String> {
    let Some(db) = databases.get(at) else {
        return None;
    };
    let Some(copy) = copied(alloc, db, life) else {
        return None;
    };
    made_text(alloc, databases.push(copy).ok())
}

/// Copies a database. The copy has the given life (incarnation number), or the life of the copied database if no life
/// is given.
fn copied(alloc: Global, db: &Database, life: Option<u64>) -> Option<Database> {
    match life {
        Some(life) if life <= LAST_LIFE => db.copy_in(alloc, life).ok(),
        Some(_) => None,
        None => db.copy(alloc).ok(),
    }
}

/// Reads a page of the feed, and appends the page to the list `windows`.
fn page(
    alloc: Global,
    db: &Database,
    windows: &mut Vec<Window>,
    since: u64,
    goal: u64,
    limit: u64,
) -> Option<String> {
    match db.page(alloc, since, goal, limit, None) {
        Ok(window) => keep_window(alloc, windows, window),
        Err(fault) => base_fault_text(alloc, fault),
    }
}

/// Computes which leaves in a window a database lacks, and stores the request for these leaves.
fn diff(alloc: Global, db: &Database, held: &mut Held, window: usize) -> Option<String> {
    let Some(window) = held.windows.get(window) else {
        return None;
    };
    keep_asked(alloc, &mut held.asked, missed(alloc, db, window))
}

/// Returns a database's request for those leaves of a window that the database lacks.
fn missed(alloc: Global, db: &Database, window: &Window) -> Option<Asked> {
    db.revs_diff(alloc, window).ok()
}

/// Fetches requested documents from a database, and stores the parcel (the fetched documents).
fn fetch(alloc: Global, db: &Database, held: &mut Held, asked: usize) -> Option<String> {
    let Some(asked) = held.asked.get(asked) else {
        return None;
    };
    keep_parcel(alloc, &mut held.parcels, fetched(alloc, db, asked))
}

/// Fetches requested documents from a database, or returns `None` if an allocation fails.
fn fetched(alloc: Global, db: &Database, asked: &Asked) -> Option<Parcel> {
    db.open_revs(alloc, asked).ok()
}

/// Returns the string `made` if a value was created, and otherwise `None`.
pub(crate) fn made_text(alloc: Global, kept: Option<()>) -> Option<String> {
    match kept {
        Some(()) => "made".to_string(alloc).ok(),
        None => None,
    }
}

/// Appends a window to the list `windows`, and returns the window's text, or `None` if an allocation fails.
pub(crate) fn keep_window(
    alloc: Global,
    windows: &mut Vec<Window>,
    window: Window,
) -> Option<String> {
    let text = window_text(alloc, &window);
    let Ok(()) = windows.push(window) else {
        return None;
    };
    text
}

/// Appends a request to the list `lists`, and returns the request's text. Returns `None` if `asked` is `None` or an
/// allocation fails.
pub(crate) fn keep_asked(
    alloc: Global,
    lists: &mut Vec<Asked>,
    asked: Option<Asked>,
) -> Option<String> {
    let Some(asked) = asked else {
        return None;
    };
    let text = asked_text(alloc, &asked);
    let Ok(()) = lists.push(asked) else {
        return None;
    };
    text
}

/// Appends a parcel to the list `parcels`, and returns the parcel's text. Returns `None` if `parcel` is `None` or an
/// allocation fails.
pub(crate) fn keep_parcel(
    alloc: Global,
    parcels: &mut Vec<Parcel>,
    parcel: Option<Parcel>,
) -> Option<String> {
    let Some(parcel) = parcel else {
        return None;
    };
    let text = parcel_text(alloc, &parcel);
    let Ok(()) = parcels.push(parcel) else {
        return None;
    };
    text
}

/// Performs lists of calls on new databases with the given UUIDs, and asserts that each call returns the expected
/// result.
pub(crate) fn expect(rt: &impl Abort, alloc: Global, uuids: &[u128], lists: &[Rows]) {
    let mut bench = Bench::new(rt, alloc, uuids);
    for calls in lists {
        bench.run(rt, calls);
    }
}

/// Returns the result of a put as a string.
pub(crate) fn put_text(alloc: Global, answer: Result<Put, BaseFault>) -> Option<String> {
    match answer {
        Ok(put) => shown(alloc, &put),
        Err(fault) => base_fault_text(alloc, fault),
    }
}

/// Returns the result of an edit as a string.
pub(crate) fn edit_text(alloc: Global, answer: Result<Rev, BaseFault>) -> Option<String> {
    match answer {
        Ok(rev) => rev_text(alloc, rev),
        Err(fault) => base_fault_text(alloc, fault),
    }
}

/// Parses a parent. An empty string (no parent) gives `Some(None)`. A string that is not a revision gives `None`.
pub(crate) fn parent_of(text: &str) -> Option<Option<Rev>> {
    if text.is_empty() {
        return Some(None);
    }
    rev(text).map(Some)
}

/// Puts a document.
fn put(alloc: Global, db: &mut Database, text: &str) -> Option<String> {
    let Some(doc) = doc(alloc, text) else {
        return None;
    };
    put_text(alloc, db.put(&doc, Origin::Local(0)))
}

/// Edits a document.
fn edit(
    alloc: Global,
    db: &mut Database,
    id: &str,
    parent: &str,
    deleted: bool,
    text: &str,
    number: u64,
) -> Option<String> {
    let Ok(id) = DocId::parse(alloc, id) else {
        return None;
    };
    let Some(parent) = parent_of(parent) else {
        return None;
    };
    let Some(body) = body(alloc, text) else {
        return None;
    };
    let answer = db.edit(&id, parent, deleted, &body, Origin::Local(number));
    edit_text(alloc, answer)
}

/// Returns, as a string, the revision tree of a document in the database.
pub(crate) fn tree(alloc: Global, db: &Database, id: &str) -> Option<String> {
    let Ok(id) = DocId::parse(alloc, id) else {
        return None;
    };
    match db.tree(&id) {
        Some(tree) => tree_text(alloc, tree),
        None => "no document".to_string(alloc).ok(),
    }
}

/// Returns, as a string, the node of a revision in a document's revision tree.
pub(crate) fn node(alloc: Global, db: &Database, id: &str, text: &str) -> Option<String> {
    let Ok(id) = DocId::parse(alloc, id) else {
        return None;
    };
    match (db.tree(&id), rev(text)) {
        (Some(tree), Some(rev)) => node_text(alloc, tree, rev),
        _ => None,
    }
}

/// Returns, as a string, the document that the database has at a given revision.
fn document(alloc: Global, db: &Database, id: &str, text: &str) -> Option<String> {
    let Ok(id) = DocId::parse(alloc, id) else {
        return None;
    };
    let Some(rev) = rev(text) else {
        return None;
    };
    match db.document(alloc, &id, rev) {
        Ok(found) => content_text(alloc, found),
        Err(_) => None,
    }
}

/// Returns the text of a document, or the string `no content` if `found` is `None`.
fn content_text(alloc: Global, found: Option<Doc>) -> Option<String> {
    match found {
        Some(doc) => doc_text(alloc, &doc),
        None => "no content".to_string(alloc).ok(),
    }
}
