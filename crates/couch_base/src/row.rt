//! Rows of the changes feed.
ghost use Rattle.std.specs.Prelude.{◌≡◌, IfOk};

use doc_json::DocId;
use rev_core::Rev;
use rev_tree::Revs;
use std::alloc::{AllocError, Global};
use std::marker::Model;

/// A document in the changes feed: the sequence of its latest change, its id, and all its leaves, winner first.
pub struct Row {
    seq: u64,
    id: DocId,
    leaves: Revs,
}

// `Row` implements `Drop` by hand. With `#[derive(Drop)]`, each crate that owns a `Row` would have to prove the derived
// code again (docs/DECISIONS.md, "Letting values go").
impl Drop for Row {
    fn drop(self) {
        let Row {
            seq: _,
            id: _,
            leaves: _,
        } = self;
    }
}

impl Model for Row {
    ghost use Rattle.couch_base.specs.Feed.{RowValue};

    ghost Value = { RowValue };

    ghost view = { λ r. record { seq = r.seq; id = r.id; leaves = r.leaves } };
}

impl Row {
    ghost use Rattle.couch_base.specs.Feed.{RowValue};

    /// Creates a row from its parts.
    pub(crate) fn new(seq: u64, id: DocId, leaves: Revs) -> Row
        ensures { result ≡ record { seq = seq; id = id; leaves = leaves } }
    {
        Row { seq, id, leaves }
    }

    /// Returns the sequence of the document's latest change.
    pub fn seq(&self) -> u64
        ensures { result ≡ self.now.seq }
    {
        self.seq
    }

    /// Returns the document's id.
    pub fn id(&self) -> &DocId
        ensures { result.now ≡ self.now.id }
    {
        &self.id
    }

    /// Returns all leaves of the document, winner first.
    pub fn leaves(&self) -> &[Rev]
        ensures { result.now ≡ self.now.leaves }
    {
        self.leaves.as_slice()
    }

    /// Copies the row.
    pub fn copy(&self, alloc: Global) -> Result<Row, AllocError>
        ensures copied { IfOk result (λ r. r ≡ self.now) }
    {
        let id = self.id.copy(alloc)?;
        let leaves = self.leaves.copy(alloc)?;
        Ok(Row {
            seq: self.seq,
            id,
            leaves,
        })
    }
}
