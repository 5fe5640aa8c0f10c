//! Compares the results of random puts and pages with a reference that scans all documents for each row.
use crate::tests::checks::holds;
use crate::tests::merges::{ancestry, are, below, places};
use crate::tests::plain_sides::{IDS, PlainSide, next_above};
use crate::tests::reference::{Answer, Reference};
use couch_base::{BaseFault, Database, Put, Row, Window};
use doc_json::{Body, Doc, DocId, read_body};
use rand_chacha::ChaCha8Rng;
use rand_core::SeedableRng;
use rev_tree::Origin;
use serde_json::Value;
use std::alloc::Global;
use std::process::Abort;

/// Returns the document id for a number.
pub(crate) fn id(rt: &impl Abort, alloc: Global, number: usize) -> DocId {
    let number = number % IDS;
    let text = format!(in alloc; "d{number}").expect(rt, "memory");
    DocId::parse(alloc, text.as_str()).expect(rt, "an id")
}

/// Returns the number of a document. The document's id must consist of the letter d and a digit.
pub(crate) fn number_of(rt: &impl Abort, text: &str) -> usize {
    match text.as_bytes() {
        [b'd', digit] if *digit >= b'0' => (*digit - b'0') as usize % IDS,
        _ => rt.panic(format_args!("another id")),
    }
}

/// Returns the body `{}`.
pub(crate) fn body(rt: &impl Abort, alloc: Global) -> Body {
    let value = Value::from_slice(alloc, b"{}").expect(rt, "a value");
    read_body(alloc, &value).expect(rt, "a body")
}

/// Creates the document with a given number, the ancestry of the revisions at the given indices, and the body `{}`.
pub(crate) fn document(
    rt: &impl Abort,
    alloc: Global,
    number: usize,
    walk: &[usize],
    deleted: bool,
) -> Doc {
    let ancestry = ancestry(rt, alloc, walk);
    Doc::new(id(rt, alloc, number), ancestry, deleted, body(rt, alloc))
}

/// Creates a random document, and merges the document into the reference model. Returns the document, and the expected
/// result of putting the document into a database.
pub(crate) fn document_by_chance(
    rt: &impl Abort,
    alloc: Global,
    rng: &mut ChaCha8Rng,
    plain: &mut PlainSide,
    documents: usize,
) -> (Doc, Answer) {
    let number = below(rng, 5) % documents.max(1);
    let walk = places(rng, alloc).expect(rt, "memory");
    let deleted = below(rng, 3) == 0;
    let answer = plain.merge(number, &walk, deleted);
    (document(rt, alloc, number, &walk, deleted), answer)
}

/// Whether the result of a put is the expected result. If the put changed the database, the put must return the
/// sequence `update_seq`.
pub(crate) fn is_answer(answer: Result<Put, BaseFault>, wanted: Answer, update_seq: u64) -> bool {
    match answer {
        Ok(Put::Changed { seq }) => wanted == Answer::Changed && seq == update_seq,
        Ok(Put::Same) => wanted == Answer::Same,
        Err(BaseFault::Contradiction { .. }) => {
            wanted != Answer::Changed && wanted != Answer::Same
        }
        Err(_) => false,
    }
}

/// Puts a random document into the database and into the reference model.
pub(crate) fn put(
    rt: &impl Abort,
    alloc: Global,
    rng: &mut ChaCha8Rng,
    db: &mut Database,
    plain: &mut PlainSide,
) {
    let (doc, wanted) = document_by_chance(rt, alloc, rng, plain, IDS);
    let answer = db.put(&doc, Origin::Local(0));
    holds(rt, is_answer(answer, wanted, plain.update_seq), "a put");
}

/// Asserts that a row of a page has the id of the document with a given number, and the leaves of a given tree.
fn row_has(rt: &impl Abort, alloc: Global, row: &Row, number: usize, tree: &Reference) {
    let leaves = tree.leaves(alloc).expect(rt, "memory");
    let same = number_of(rt, row.id().text()) == number;
    holds(rt, same && are(rt, row.leaves(), &leaves), "a row");
}

/// Asserts that a row equals the reference model's first row above the sequence `after` and at or below `goal`. Returns
/// the row's sequence.
fn row_is(
    rt: &impl Abort,
    alloc: Global,
    row: &Row,
    plain: &PlainSide,
    after: u64,
    goal: u64,
) -> u64 {
    let Some((number, seq)) = next_above(&plain.documents, after, goal) else {
        rt.panic(format_args!("a row too many"))
    };
    holds(rt, row.seq() == seq, "the sequence of a row");
    row_has(rt, alloc, row, number, &plain.tree(number));
    seq
}

/// Asserts that a window begins at `since`, has the expected end, and has the reference model's first rows above
/// `since`.
fn window_is(
    rt: &impl Abort,
    alloc: Global,
    window: &Window,
    plain: &PlainSide,
    since: u64,
    goal: u64,
    limit: u64,
) {
    let mut at = since;
    let mut rows = 0u64;
    for row in window.rows() {
        at = row_is(rt, alloc, row, plain, at, goal);
        rows = rows.saturating_add(1);
    }
    let is_last = next_above(&plain.documents, at, goal).is_none();
    holds(
        rt,
        rows <= limit && (rows == limit || is_last),
        "the number of rows",
    );
    let hi = if rows == limit { at } else { goal };
    holds(rt, window.lo() == since && window.hi() == hi, "the bounds");
}

/// Reads a random page.
fn page(rt: &impl Abort, alloc: Global, rng: &mut ChaCha8Rng, db: &Database, plain: &PlainSide) {
    let since = below(rng, 30) as u64;
    let goal = below(rng, 40) as u64;
    let limit = below(rng, 4) as u64;
    match db.page(alloc, since, goal, limit, None) {
        Ok(window) => window_is(rt, alloc, &window, plain, since, goal, limit),
        Err(fault) => page_refused(rt, fault, plain, since, goal, limit),
    }
}

/// Asserts that reading a page failed with the expected error.
fn page_refused(
    rt: &impl Abort,
    fault: BaseFault,
    plain: &PlainSide,
    since: u64,
    goal: u64,
    limit: u64,
) {
    let seq = plain.update_seq;
    let rightly = match fault {
        BaseFault::BadLimit => limit == 0,
        BaseFault::BadRange => limit != 0 && goal <= since,
        BaseFault::GoalAhead { update_seq } => {
            limit != 0 && since < goal && seq < goal && update_seq == seq
        }
        _ => false,
    };
    holds(rt, rightly, "a page is refused");
}

/// Performs forty puts, and reads a page after each put.
fn grow(rt: &impl Abort, alloc: Global, rng: &mut ChaCha8Rng, db: &mut Database) {
    let mut plain = PlainSide::new();
    for _ in 0..40 {
        put(rt, alloc, rng, db, &mut plain);
        holds(rt, db.update_seq() == plain.update_seq, "a sequence");
        page(rt, alloc, rng, db, &plain);
    }
}

#[test]
fn a_hundred_databases_agree(rt: HostRuntime) {
    for seed in 0..100u64 {
        let mut rng = ChaCha8Rng::seed_from_u64(seed);
        let mut db = Database::new(rt.alloc(), 1);
        grow(&rt, rt.alloc(), &mut rng, &mut db);
    }
}
