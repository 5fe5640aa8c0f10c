//! Tests `Database::put`, `edit`, `page`, `revs_diff`, `open_revs`, `count_asked` and `copy_in`, `Parcel::prepare`, and
//! copies of windows, requests and parcels. The tests check that a call whose allocation fails leaves the database
//! unchanged.
use anyhow::{Result, bail};
use couch_base::{Asked, BaseFault, Database, Parcel, Put, Row, Window};
use doc_json::{Body, Doc, DocFault, DocId, read_body, read_doc};
use rev_core::Rev;
use rev_tree::{Origin, SessionId};
use serde_json::Value;
use std::alloc::{AllocError, Global};

fn value(alloc: Global, text: &str) -> Result<Value> {
    match Value::from_str(alloc, text) {
        Ok(value) => Ok(value),
        Err(_) => Ok(Value::from_str(alloc, text)?),
    }
}

fn doc(alloc: Global, text: &str) -> Result<Doc> {
    let value = value(alloc, text)?;
    match read_doc(alloc, &value) {
        Err(DocFault::Memory) => Ok(read_doc(alloc, &value)?),
        answer => Ok(answer?),
    }
}

fn body(alloc: Global, text: &str) -> Result<Body> {
    let value = value(alloc, text)?;
    match read_body(alloc, &value) {
        Err(DocFault::Memory) => Ok(read_body(alloc, &value)?),
        answer => Ok(answer?),
    }
}

fn doc_id(alloc: Global, text: &str) -> Result<DocId> {
    match DocId::parse(alloc, text) {
        Err(DocFault::Memory) => Ok(DocId::parse(alloc, text)?),
        answer => Ok(answer?),
    }
}

/// Returns a database's update sequence, and a document's number of revisions, number of leaves, and winner.
fn reading(db: &Database, id: &DocId) -> (u64, usize, usize, Option<Rev>) {
    match db.tree(id) {
        Some(tree) => (
            db.update_seq(),
            tree.rev_count(),
            tree.leaf_count(),
            tree.winner(),
        ),
        None => (db.update_seq(), 0, 0, None),
    }
}

/// Combines the sequences of the feed's rows into one number: the sequences are the digits of the number in base 1000.
/// The number is taken modulo 2^64.
fn feed(alloc: Global, db: &Database) -> Result<u64> {
    if db.update_seq() == 0 {
        return Ok(0);
    }
    let window = page(alloc, db, 0, 100)?;
    let mut sum = 0u64;
    for row in window.rows() {
        sum = sum.wrapping_mul(1000).wrapping_add(row.seq());
    }
    Ok(sum)
}

fn put_doc(alloc: Global, db: &mut Database, doc: &Doc, origin: Origin) -> Result<Put> {
    let before = reading(db, doc.id());
    let rows = feed(alloc, db)?;
    match db.put(doc, origin) {
        Err(BaseFault::Memory) => {
            if reading(db, doc.id()) != before || feed(alloc, db)? != rows {
                bail!("a refused put changed the database");
            }
            Ok(db.put(doc, origin)?)
        }
        answer => Ok(answer?),
    }
}

fn put(alloc: Global, db: &mut Database, text: &str) -> Result<Put> {
    put_doc(alloc, db, &doc(alloc, text)?, Origin::Local(0))
}

fn edit(
    alloc: Global,
    db: &mut Database,
    id: &DocId,
    parent: Option<Rev>,
    body: &Body,
) -> Result<Rev> {
    let before = reading(db, id);
    let rows = feed(alloc, db)?;
    match db.edit(id, parent, false, body, Origin::Local(0)) {
        Err(BaseFault::Memory) => {
            if reading(db, id) != before || feed(alloc, db)? != rows {
                bail!("a refused edit changed the database");
            }
            Ok(db.edit(id, parent, false, body, Origin::Local(0))?)
        }
        answer => Ok(answer?),
    }
}

fn page(alloc: Global, db: &Database, since: u64, limit: u64) -> Result<Window> {
    match db.page(alloc, since, db.update_seq(), limit, None) {
        Err(BaseFault::Memory) => Ok(db.page(alloc, since, db.update_seq(), limit, None)?),
        answer => Ok(answer?),
    }
}

fn window_copied(alloc: Global, window: &Window) -> Result<Window> {
    match window.copy(alloc) {
        Err(AllocError) => Ok(window.copy(alloc)?),
        answer => Ok(answer?),
    }
}

fn asked(alloc: Global, db: &Database, window: &Window) -> Result<Asked> {
    let asked = match db.revs_diff(alloc, window) {
        Err(AllocError) => db.revs_diff(alloc, window)?,
        answer => answer?,
    };
    match asked.copy(alloc) {
        Err(AllocError) => Ok(asked.copy(alloc)?),
        answer => Ok(answer?),
    }
}

fn opened(alloc: Global, db: &Database, asked: &Asked) -> Result<Parcel> {
    let parcel = match db.open_revs(alloc, asked) {
        Err(AllocError) => db.open_revs(alloc, asked)?,
        answer => answer?,
    };
    match parcel.copy(alloc) {
        Err(AllocError) => Ok(parcel.copy(alloc)?),
        answer => Ok(answer?),
    }
}

/// Puts three documents, the first document twice.
fn put_all(alloc: Global, db: &mut Database) -> Result<()> {
    for text in [
        r#"{"_id":"a","_revisions":{"start":2,"ids":["b","a"]},"n":1}"#,
        r#"{"_id":"b","_rev":"1-a"}"#,
        r#"{"_id":"c","_rev":"1-a","_deleted":true}"#,
        r#"{"_id":"a","_revisions":{"start":2,"ids":["c","a"]}}"#,
    ] {
        let Put::Changed { .. } = put(alloc, db, text)? else {
            bail!("a put changed nothing");
        };
    }
    Ok(())
}

/// Edits a document, and also edits the new revision if `twice` is true.
fn edit_id(alloc: Global, db: &mut Database, id: &str, body: &Body, twice: bool) -> Result<()> {
    let id = doc_id(alloc, id)?;
    let rev = edit(alloc, db, &id, None, body)?;
    if twice {
        edit(alloc, db, &id, Some(rev), body)?;
    }
    Ok(())
}

/// Puts the documents of `put_all`, and edits the documents c and d.
fn grow(alloc: Global, db: &mut Database) -> Result<()> {
    put_all(alloc, db)?;
    let body = body(alloc, r#"{"n":2}"#)?;
    edit_id(alloc, db, "c", &body, true)?;
    edit_id(alloc, db, "d", &body, false)
}

/// Returns the number of fetched documents and the number of gone revisions (requested revisions that the database
/// lacks).
fn fetched(alloc: Global, db: &Database, asked: &Asked) -> Result<(usize, usize)> {
    let parcel = opened(alloc, db, asked)?;
    Ok((parcel.docs().len(), parcel.gone().len()))
}

/// Returns the number of documents that a database has for a request.
fn asked_count(alloc: Global, db: &Database, asked: &Asked) -> Result<u128> {
    match db.count_asked(alloc, asked) {
        Err(AllocError) => Ok(db.count_asked(alloc, asked)?),
        answer => Ok(answer?),
    }
}

/// Prepares a parcel's documents.
fn prepare(alloc: Global, parcel: &mut Parcel) -> Result<()> {
    match parcel.prepare(alloc) {
        Err(AllocError) => Ok(parcel.prepare(alloc)?),
        answer => Ok(answer?),
    }
}

/// Puts those fetched documents that have the row's id.
fn put_row(alloc: Global, db: &mut Database, docs: &[Doc], row: &Row) -> Result<()> {
    let origin = Origin::Feed(SessionId(1), row.seq());
    for doc in docs {
        if doc.id() == row.id() {
            let _answer = put_doc(alloc, db, doc, origin)?;
        }
    }
    Ok(())
}

/// Puts the prepared documents of a window into an empty database. Returns the database's update sequence.
fn arrived(alloc: Global, window: &Window, parcel: Parcel) -> Result<u64> {
    let mut db = Database::new(alloc, 9);
    let mut parcel = parcel;
    prepare(alloc, &mut parcel)?;
    let (_, docs, _, _) = parcel.into_parts();
    for row in window.rows() {
        put_row(alloc, &mut db, &docs, row)?;
    }
    Ok(db.update_seq())
}

/// The numbers that the test observes in a replication into an empty database, such as the numbers of requested and
/// fetched documents.
#[derive(Clone, Copy)]
struct Counts {
    rows: usize,
    asked: usize,
    counted: u128,
    fetched: usize,
    gone: usize,
    arrived: u64,
}

/// Requests all leaves of a window, because the database `empty` has none of them. Fetches the requested leaves from
/// the databases `db` and `empty`, and puts the documents that `db` returned into a new database.
fn counted(alloc: Global, db: &Database, empty: &Database, window: &Window) -> Result<Counts> {
    let asked = asked(alloc, empty, window)?;
    let (count, _) = fetched(alloc, db, &asked)?;
    let (_, gone) = fetched(alloc, empty, &asked)?;
    Ok(Counts {
        rows: window.rows().len(),
        asked: asked.docs().len(),
        counted: asked_count(alloc, db, &asked)?,
        fetched: count,
        gone,
        arrived: arrived(alloc, window, opened(alloc, db, &asked)?)?,
    })
}

/// Replicates the complete feed of a database into an empty database, with calls on databases instead of peers.
fn exchanged(alloc: Global, db: &Database, empty: &Database) -> Result<Counts> {
    let page = page(alloc, db, 0, 10)?;
    let window = window_copied(alloc, &page)?;
    counted(alloc, db, empty, &window)
}

/// Copies a database, and gives the copy the life 1 (a database's life is a number that a restore of a backup changes).
fn db_copied(alloc: Global, db: &Database) -> Result<Database> {
    match db.copy_in(alloc, 1) {
        Err(AllocError) => Ok(db.copy_in(alloc, 1)?),
        answer => Ok(answer?),
    }
}

/// Replicates a copy of a database into another database.
fn copy_exchanged(alloc: Global, db: &Database, empty: &Database) -> Result<(u64, Counts)> {
    let copy = db_copied(alloc, db)?;
    let counts = exchanged(alloc, &copy, empty)?;
    Ok((copy.update_seq(), counts))
}

/// Puts and edits documents in a database, and replicates a copy of this database into another database.
fn session(alloc: Global, db: &mut Database, empty: &Database) -> Result<(u64, Counts)> {
    grow(alloc, db)?;
    copy_exchanged(alloc, db, empty)
}

/// Calls `session` with two new databases. The function has few variables, because each variable of a function that
/// owns a database lengthens the function's proof.
fn between(alloc: Global) -> Result<(u64, Counts)> {
    let mut db = Database::new(alloc, 7);
    let empty = Database::new(alloc, 8);
    session(alloc, &mut db, &empty)
}

pub(crate) fn run(rt: &impl Print, alloc: Global) -> Result<()> {
    let (sequence, counts) = between(alloc)?;
    println!(rt;
        "databases as wanted: sequence {sequence}, rows {}, asked {}, counted {}, fetched {}, gone {}, arrived {}",
        counts.rows, counts.asked, counts.counted, counts.fetched, counts.gone, counts.arrived
    )?;
    Ok(())
}
