//! Compares the requests and the fetched documents of databases with the results of a plain reference model. A database
//! requests leaves of another database's feed, and fetches documents for the requests.
use crate::tests::checks::holds;
use crate::tests::feeds::{number_of, put};
use crate::tests::merges::{are, rev};
use crate::tests::plain_sides::{IDS, PlainSide, next_above};
use crate::tests::reference::{PLACES, Reference, bit};
use couch_base::{Asked, Database, Parcel, Wanted};
use doc_json::Doc;
use rand_chacha::ChaCha8Rng;
use rand_core::SeedableRng;
use rev_core::Rev;
use std::alloc::Global;
use std::process::Abort;

/// A database, and a simple model (`PlainSide`) with which the tests compare the database.
#[derive(Drop)]
pub(crate) struct Side {
    pub(crate) db: Database,
    pub(crate) plain: PlainSide,
}

impl Side {
    /// Creates an empty database.
    pub(crate) fn new(alloc: Global, uuid: u128) -> Side {
        Side {
            db: Database::new(alloc, uuid),
            plain: PlainSide::new(),
        }
    }

    /// Puts random documents.
    pub(crate) fn grow(
        &mut self,
        rt: &impl Abort,
        alloc: Global,
        rng: &mut ChaCha8Rng,
        puts: usize,
    ) {
        for _ in 0..puts {
            put(rt, alloc, rng, &mut self.db, &mut self.plain);
        }
    }
}

/// Returns the index of a revision in the reference model, or `PLACES` if the reference model cannot represent the
/// revision.
pub(crate) fn place_of(rt: &impl Abort, wanted: Rev) -> usize {
    for place in 0..PLACES {
        if rev(rt, place) == wanted {
            return place;
        }
    }
    PLACES
}

/// Returns the mask that has a bit for each of the given revisions. The module `reference` assigns a bit to each
/// revision.
fn mask_of(rt: &impl Abort, revs: &[Rev]) -> u32 {
    let mut mask = 0;
    for one in revs {
        mask |= bit(place_of(rt, *one));
    }
    mask
}

/// Asserts that a request for a document lists exactly the expected leaves, winner first. The expected leaves are in
/// the source's tree `tree`, but not in the target's tree `held`.
fn asks_of(
    rt: &impl Abort,
    alloc: Global,
    wanted: &Wanted,
    number: usize,
    tree: &Reference,
    held: &Reference,
) {
    let same = number_of(rt, wanted.id().text()) == number;
    let leaves = tree.leaves(alloc).expect(rt, "memory");
    let missing = held.missing(rt, alloc, &leaves);
    holds(
        rt,
        same && are(rt, wanted.revs(), &missing),
        "what is asked",
    );
}

/// Asserts that a request lists exactly those leaves that the target lacks, in the order of the source's feed.
fn asks(rt: &impl Abort, alloc: Global, source: &PlainSide, target: &PlainSide, asked: &Asked) {
    let mut seq = 0u64;
    let mut at = 0usize;
    for _ in 0..IDS {
        let Some((number, next)) = next_above(&source.documents, seq, source.update_seq) else {
            break;
        };
        seq = next;
        let (tree, held) = (source.tree(number), target.tree(number));
        if tree.leaf_mask() & !held.revisions() != 0 {
            let wanted = asked.docs().get(at).expect(rt, "a document that is asked");
            asks_of(rt, alloc, wanted, number, &tree, &held);
            at = at.saturating_add(1);
        }
    }
    holds(rt, asked.docs().len() == at, "the documents that are asked");
}

/// Asserts that a fetched document is a leaf of a tree.
fn is_leaf(
    rt: &impl Abort,
    alloc: Global,
    doc: &Doc,
    number: usize,
    tree: &Reference,
    leaf: usize,
) {
    let same = number_of(rt, doc.id().text()) == number;
    let walk = tree.ancestry(alloc, leaf).expect(rt, "memory");
    holds(rt, same && are(rt, doc.ancestry().revs(), &walk), "a leaf");
    holds(
        rt,
        tree.content(leaf) == Some((doc.deleted(), 0)),
        "the content of a leaf",
    );
}

/// Asserts that the parcel's documents from index `from` on are the leaves of `tree` whose ancestries have one of the
/// given revisions. Returns the index of the first document that was not compared.
fn brings_leaves(
    rt: &impl Abort,
    alloc: Global,
    parcel: &Parcel,
    from: usize,
    number: usize,
    tree: &Reference,
    revs: u32,
) -> usize {
    let mut at = from;
    for leaf in &tree.leaves_above(rt, alloc, revs) {
        let doc = parcel.docs().get(at).expect(rt, "a document too few");
        is_leaf(rt, alloc, doc, number, tree, *leaf);
        at = at.saturating_add(1);
    }
    at
}

/// Asserts that the parcel's gone revisions from index `from` on are those requested revisions that `tree` lacks.
/// Returns the index of the first gone revision that was not compared. A gone revision is a requested revision that the
/// source does not have.
fn loses(
    rt: &impl Abort,
    parcel: &Parcel,
    from: usize,
    number: usize,
    tree: &Reference,
    revs: &[Rev],
) -> usize {
    let mut at = from;
    for one in revs {
        if !tree.has(place_of(rt, *one)) {
            let (id, lost) = parcel.gone().get(at).expect(rt, "a gone revision too few");
            holds(
                rt,
                number_of(rt, id.text()) == number && *lost == *one,
                "a gone one",
            );
            at = at.saturating_add(1);
        }
    }
    at
}

/// Asserts that a parcel has exactly the documents that the reference model `plain` has for the request `asked`. The
/// parcel's gone revisions must be exactly the requested revisions that the reference model lacks. Returns the parcel's
/// number of documents.
fn brings(
    rt: &impl Abort,
    alloc: Global,
    plain: &PlainSide,
    asked: &Asked,
    parcel: &Parcel,
) -> usize {
    let mut docs = 0usize;
    let mut gone = 0usize;
    for wanted in asked.docs() {
        let number = number_of(rt, wanted.id().text());
        let tree = plain.tree(number);
        let revs = mask_of(rt, wanted.revs());
        docs = brings_leaves(rt, alloc, parcel, docs, number, &tree, revs);
        gone = loses(rt, parcel, gone, number, &tree, wanted.revs());
    }
    holds(
        rt,
        parcel.docs().len() == docs && parcel.gone().len() == gone,
        "a parcel",
    );
    docs
}

/// Asserts that a side's database and the side's reference model return the same documents for a request. Returns the
/// number of documents that the database returned.
fn answers(rt: &impl Abort, alloc: Global, side: &Side, asked: &Asked) -> usize {
    let parcel = side.db.open_revs(alloc, asked).expect(rt, "memory");
    brings(rt, alloc, &side.plain, asked, &parcel)
}

/// Returns the target's request for the source's complete feed.
fn asked(rt: &impl Abort, alloc: Global, source: &Side, target: &Side) -> Asked {
    let goal = source.plain.update_seq;
    let window = source
        .db
        .page(alloc, 0, goal, 100, None)
        .expect(rt, "a page");
    target.db.revs_diff(alloc, &window).expect(rt, "memory")
}

/// Puts random documents on both sides, and compares requests and parcels with the reference model. Returns the number
/// of documents that the source returned.
fn exchange(
    rt: &impl Abort,
    alloc: Global,
    rng: &mut ChaCha8Rng,
    source: &mut Side,
    target: &mut Side,
) -> usize {
    source.grow(rt, alloc, rng, 20);
    target.grow(rt, alloc, rng, 10);
    let asked = asked(rt, alloc, source, target);
    asks(rt, alloc, &source.plain, &target.plain, &asked);
    // The test changes the source before the fetch. The test also fetches from the target, which may lack the requested
    // revisions.
    source.grow(rt, alloc, rng, 10);
    let docs = answers(rt, alloc, source, &asked);
    let _others = answers(rt, alloc, target, &asked);
    docs
}

/// Creates a target, and compares the target's requests and the fetched documents with the reference models
/// (`exchange`). This code is a separate function, because each live variable makes the proof of the caller larger.
fn with_target(rt: &impl Abort, alloc: Global, seed: u64, source: &mut Side) -> usize {
    let mut rng = ChaCha8Rng::seed_from_u64(seed);
    let mut target = Side::new(alloc, 2);
    exchange(rt, alloc, &mut rng, source, &mut target)
}

#[test]
fn a_hundred_exchanges_agree(rt: HostRuntime) {
    let mut docs = 0usize;
    for seed in 0..100u64 {
        let mut source = Side::new(rt.alloc(), 1);
        docs = docs.saturating_add(with_target(&rt, rt.alloc(), seed, &mut source));
    }
    assert!(rt; 300 < docs, "{docs} documents");
}
