//! A plain model of a peer: the documents of the database, and the revisions that sessions refused. The model
//! represents trees as bit masks.
use crate::tests::reference::{Answer, PLACES, Reference, mask_of};
use std::alloc::Global;
use std::process::Abort;

/// The number of possible documents, with ids d0 to d4.
pub(crate) const IDS: usize = 5;

/// The sequence of the latest change and the revision tree of each existing document.
pub(crate) type Documents = [Option<(u64, Reference)>; IDS];

/// A mask with a bit for each selected document. If all documents are selected, all 32 bits of the mask are set.
pub(crate) type Picked = u32;

/// All documents.
pub(crate) const ALL: Picked = 0xffff_ffff;

/// Whether a document is selected.
pub(crate) fn is_picked(picked: Picked, number: usize) -> bool {
    picked & (1 << (number % IDS)) != 0
}

/// Returns the number and the sequence of the first document in the feed above `seq` and at or below `goal`.
pub(crate) fn next_above(documents: &Documents, seq: u64, goal: u64) -> Option<(usize, u64)> {
    let mut best: Option<(usize, u64)> = None;
    for number in 0..IDS {
        if let Some((at, _)) = documents[number] {
            let nearer = match best {
                Some((_, least)) => at < least,
                None => true,
            };
            if seq < at && at <= goal && nearer {
                best = Some((number, at));
            }
        }
    }
    best
}

/// A set of revisions for each document, as bit masks.
pub(crate) type Masks = [u32; IDS];

/// A ledger row: the number of a document, the document's newest revision, and the three revisions of a contradiction.
/// The revisions of a contradiction are the child, the child's parent in the tree, and the child's parent in the
/// document. If the filter refused the document, the row has `PLACES` instead of each revision of a contradiction.
pub(crate) type Row = [usize; 5];

/// A simple model of a peer. The model has each document's tree and latest sequence, and the revisions of refused
/// documents.
#[derive(Clone, Copy)]
pub(crate) struct PlainSide {
    pub(crate) documents: Documents,
    pub(crate) update_seq: u64,
    refused: Masks,
}

impl PlainSide {
    /// Creates a side (the plain model of a peer) without documents.
    pub(crate) fn new() -> PlainSide {
        PlainSide {
            documents: [None; IDS],
            update_seq: 0,
            refused: [0; IDS],
        }
    }

    /// Returns the tree of a document.
    pub(crate) fn tree(&self, number: usize) -> Reference {
        match self.documents[number % IDS] {
            Some((_, tree)) => tree,
            None => Reference::new(),
        }
    }

    /// Merges an ancestry, newest first, into a document, and returns the result.
    pub(crate) fn merge(&mut self, number: usize, walk: &[usize], deleted: bool) -> Answer {
        let mut tree = self.tree(number);
        let answer = tree.merge(walk, (deleted, 0), 0);
        if answer == Answer::Changed {
            self.update_seq = self.update_seq.saturating_add(1);
            self.documents[number % IDS] = Some((self.update_seq, tree));
        }
        answer
    }

    /// Merges a fetched document into a side (the plain model of a peer). If the side refuses the document, the call
    /// returns the document's ledger row.
    pub(crate) fn take(
        &mut self,
        number: usize,
        walk: &[usize],
        deleted: bool,
        denied: bool,
    ) -> Option<Row> {
        let head = walk.first().copied().unwrap_or(PLACES);
        let mut row = [number, head, PLACES, PLACES, PLACES];
        if !denied {
            match self.merge(number, walk, deleted) {
                Answer::Contradiction {
                    child,
                    known,
                    given,
                } => row = [number, head, child, known, given],
                _ => return None,
            }
        }
        self.refused[number % IDS] |= mask_of(walk);
        Some(row)
    }

    /// Returns the covered revisions of a document: the revisions in the document's tree and the refused revisions.
    pub(crate) fn covered(&self, number: usize) -> u32 {
        self.tree(number).revisions() | self.refused[number % IDS]
    }
}

/// The counts and the ledger rows of a replication.
#[derive(Drop)]
pub(crate) struct Carried {
    pub(crate) checked: u64,
    pub(crate) found: u64,
    pub(crate) written: u64,
    pub(crate) ledger: Vec<Row>,
}

impl Carried {
    /// Creates an empty value.
    fn new(alloc: Global) -> Carried {
        Carried {
            checked: 0,
            found: 0,
            written: 0,
            ledger: Vec::new(alloc),
        }
    }

    /// Counts a fetched document. A document with a ledger row counts as refused, and a document without a ledger row
    /// counts as written.
    fn count(&mut self, rt: &impl Abort, row: Option<Row>) {
        self.found = self.found.saturating_add(1);
        match row {
            Some(row) => self.ledger.push(row).expect(rt, "memory"),
            None => self.written = self.written.saturating_add(1),
        }
    }
}

/// Replicates the selected documents whose latest change at the source is above the sequence `since`. The target
/// refuses the document `deny`.
pub(crate) fn carry(
    rt: &impl Abort,
    alloc: Global,
    source: &PlainSide,
    target: &mut PlainSide,
    since: u64,
    picked: Picked,
    deny: Option<usize>,
) -> Carried {
    let mut carried = Carried::new(alloc);
    let mut seq = since;
    for _ in 0..IDS {
        let Some((number, next)) = next_above(&source.documents, seq, source.update_seq) else {
            break;
        };
        seq = next;
        if is_picked(picked, number) {
            let denied = deny == Some(number);
            carry_document(rt, alloc, source, target, number, denied, &mut carried);
        }
    }
    carried
}

/// Replicates those leaves of a source's document that the target lacks.
fn carry_document(
    rt: &impl Abort,
    alloc: Global,
    source: &PlainSide,
    target: &mut PlainSide,
    number: usize,
    denied: bool,
    carried: &mut Carried,
) {
    let held = target.tree(number);
    let tree = source.tree(number);
    let leaves = tree.leaves(alloc).expect(rt, "memory");
    for leaf in &leaves {
        carried.checked = carried.checked.saturating_add(1);
        if !held.has(*leaf) {
            let row = take_leaf(rt, alloc, target, number, &tree, *leaf, denied);
            carried.count(rt, row);
        }
    }
}

/// Merges a leaf of a source's tree, with the leaf's ancestry, into the target. If the target refuses the leaf, the
/// call returns the leaf's ledger row.
pub(crate) fn take_leaf(
    rt: &impl Abort,
    alloc: Global,
    target: &mut PlainSide,
    number: usize,
    tree: &Reference,
    leaf: usize,
    denied: bool,
) -> Option<Row> {
    let walk = tree.ancestry(alloc, leaf).expect(rt, "memory");
    let deleted = match tree.content(leaf) {
        Some((deleted, _)) => deleted,
        None => rt.panic(format_args!("a leaf without content")),
    };
    target.take(number, &walk, deleted, denied)
}
