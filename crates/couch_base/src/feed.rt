//! Iterates over the changes feed without copying the documents of the feed.
ghost use Rattle.std.specs.Prelude.{◌≡◌, ◌∷◌, [], None, IfOk, IfSome};

use crate::table::Table;
use doc_json::DocId;
use rev_tree::{Revs, Tree};
use std::alloc::{AllocError, Global};
use std::marker::Model;

/// A changed document in the changes feed, as a reference into the database. Contracts treat a `Change` as the
/// document's row in the changes feed.
#[derive(Drop)]
pub struct Change<'a> {
    seq: u64,
    id: &'a DocId,
    tree: &'a Tree,
}

impl<'a> Model for Change<'a> {
    ghost use Rattle.rev_tree.specs.Tree.{leaves};
    ghost use Rattle.couch_base.specs.Feed.{RowValue};

    ghost Value = { RowValue };

    ghost view = { λ c. record { seq = c.seq; id = c.id.now; leaves = leaves c.tree.now } };
}

impl<'a> Change<'a> {
    /// Returns the sequence of the document's latest change.
    pub fn seq(&self) -> u64
        ensures { result ≡ self.now.seq }
    {
        self.seq
    }

    /// Returns the document's id.
    pub fn id(&self) -> &'a DocId
        ensures { result.now ≡ self.now.id }
    {
        self.id
    }

    /// Returns all leaves of the document, winner first. The call does not allocate if the document has a single leaf.
    pub fn leaves(&self, alloc: Global) -> Result<Revs, AllocError>
        ensures { IfOk result (λ revs. revs ≡ self.now.leaves) }
    {
        self.tree.leaves(alloc)
    }
}

/// An iterator over a part of the changes feed, by rising sequence. The iterator copies no documents.
#[derive(Drop)]
pub struct Feed<'a> {
    table: &'a Table,
    rest: &'a [(u64, usize)],
    goal: u64,
}

impl<'a> Model for Feed<'a> {
    ghost use Rattle.std.specs.Prelude.{List, map};
    ghost use Rattle.couch_base.specs.Feed.{RowValue};
    ghost use Rattle.couch_base.specs.Stored.{row_by, live_upto, InOrder};

    ghost Value = { List RowValue };

    ghost view = { λ f. map (row_by f.table.now.entries) (live_upto f.table.now.entries f.goal f.rest.now) };

    ghost invariant = { λ f. InOrder f.rest.now };
}

impl<'a> Feed<'a> {
    ghost use Rattle.couch_base.specs.Stored.{rows_within};

    /// Creates an iterator over the rows above `since` and up to `goal`.
    pub(crate) fn within(table: &'a Table, since: u64, goal: u64) -> Feed<'a>
        ensures { result ≡ rows_within table.now since goal }
    {
        Feed {
            table,
            rest: table.rows_above(since),
            goal,
        }
    }

    /// Returns the next changed document, or `None` at the end of the iteration.
    pub fn next(&mut self) -> Option<Change<'a>>
        ensures first { IfSome result (λ c. self.old ≡ c ∷ self.new) }
        ensures none { result ≡ None → self.old ≡ [] }
    {
        for i in 0..self.rest.len() {
            let (seq, place) = self.rest[i];
            if seq > self.goal {
                return None;
            }
            if let Some((id, kept)) = self.table.live_at(seq, place) {
                self.rest = &self.rest[i + 1..];
                return Some(Change {
                    seq,
                    id,
                    tree: &kept.tree,
                });
            }
        }
        None
    }
}
