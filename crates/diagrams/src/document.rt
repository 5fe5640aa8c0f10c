//! A document that was read from the output of `show` or `conflicts`.
ghost use Rattle.std.specs.Prelude.{◌≡◌, ◌==◌, [], OnOk, IsPermutation, IsSorted, length, nat_le, string_bytes, vec_len};
ghost use Rattle.diagrams.specs.Drawing.{Holds, states, with_leaf};
ghost use Rattle.diagrams.specs.Shapes.{AddsLeaf, apart_of, leaf_cmp};

use crate::ancestries::{Ancestries, Point};
use rev_core::Rev;
use std::alloc::{AllocError, Global};
use std::cmp::Ordering;

/// A leaf of a document.
#[derive(Debug, Drop)]
pub struct Leaf {
    /// The sort key of the leaf. The sort key of the winner is 0. If a losing leaf shares n ancestors with the winner,
    /// its sort key is `usize::MAX` - n.
    pub apart: usize,
    /// The leaf's parent, if the parent is known. In the leaf's ancestry, each revision's generation is one above the
    /// generation of its parent.
    pub parent: Option<Point>,
    /// The generation of the leaf's oldest known ancestor, or of the leaf if no ancestor is known.
    pub oldest: u32,
    /// The revision.
    pub rev: Rev,
    /// Whether the leaf is the winner.
    pub wins: bool,
    /// Whether the leaf is live.
    pub live: bool,
}

impl Leaf {
    /// The generation.
    pub fn generation(&self) -> u32
        ensures { result ≡ self.now.rev.generation }
    {
        self.rev.generation()
    }
}

/// Compares two leaves of a document in the order in which a picture shows the leaves. Leaves that share more revisions
/// with the winner come first. Leaves that share the same number of revisions with the winner are ordered by their
/// ancestors, beginning with the oldest ancestor. In a picture of a document, all leaves that share a revision are
/// adjacent.
fn order_of(ancestries: &Ancestries, one: &Leaf, other: &Leaf) -> Ordering
    ensures { result ≡ leaf_cmp ancestries.now one.now other.now }
{
    if one.apart != other.apart {
        return one.apart.cmp(&other.apart);
    }
    match ancestries.order(one.parent, other.parent) {
        Ordering::Equal => one.rev.cmp(&other.rev),
        order => order,
    }
}

/// A document, with the leaves that were read so far.
#[derive(Drop)]
pub struct Document {
    /// The id in JSON.
    pub id: String,
    /// The number of leaves.
    pub count: u64,
    /// The leaves of the document that have been read so far. Before `sort`, the leaves are in the order of reading,
    /// winner first. After `sort`, the leaves are in the order in which a picture shows them (`order_of`).
    pub leaves: Vec<Leaf>,
    /// The known ancestries of the leaves.
    pub ancestries: Ancestries,
}

impl Document {
    /// Creates a document without leaves.
    pub fn new(alloc: Global, id: String, count: u64) -> Document
        ensures holds { Holds result (string_bytes id) [] }
        ensures id { result.id ≡ id }
        ensures count { result.count ≡ count }
    {
        Document {
            id,
            count,
            leaves: Vec::new(alloc),
            ancestries: Ancestries::new(alloc),
        }
    }

    /// Whether all leaves of the document were read.
    pub fn is_whole(&self) -> bool
        ensures { result ≡ nat_le self.now.count (vec_len self.now.leaves) }
    {
        self.leaves.len() as u64 >= self.count
    }

    /// Adds a leaf with its ancestry, which is given with the oldest revision first. The first leaf that is added is
    /// the winner.
    pub fn add(&mut self, alloc: Global, leaf: Leaf, before: &[Rev]) -> Result<(), AllocError>
        ensures holds { OnOk result (Holds self.new (string_bytes self.old.id) (with_leaf (states self.old) leaf.rev leaf.live)) }
        ensures count { OnOk result (self.new.count ≡ self.old.count) }
        ensures adds { OnOk result (AddsLeaf self.old self.new leaf before.now) }
    {
        let parent = self.ancestries.add(alloc, before)?;
        let leaf = self.placed(leaf, parent);
        self.leaves.push(leaf)?;
        Ok(())
    }

    /// Computes the fields of a leaf that decide the leaf's position in the drawing.
    fn placed(&self, leaf: Leaf, parent: Option<Point>) -> Leaf
        ensures rev { result.rev ≡ leaf.rev }
        ensures live { result.live ≡ leaf.live }
        ensures wins { result.wins ≡ (length self.now.leaves.items == 0) }
        ensures apart { result.apart ≡ apart_of self.now.ancestries self.now.leaves.items parent }
        ensures parent { result.parent ≡ parent }
        ensures oldest { result.oldest ≡ leaf.oldest }
    {
        let leaves = self.leaves.as_slice();
        if leaves.is_empty() {
            return Leaf {
                wins: true,
                apart: 0,
                parent,
                ..leaf
            };
        }
        let together = self.ancestries.shared(leaves[0].parent, parent);
        Leaf {
            wins: false,
            apart: usize::MAX - together,
            parent,
            ..leaf
        }
    }

    /// Sorts the leaves for drawing.
    pub fn sort(&mut self) -> Result<(), AllocError>
        ensures leaves { IsPermutation self.old.leaves.items self.new.leaves.items }
        ensures id { self.new.id ≡ self.old.id }
        ensures count { self.new.count ≡ self.old.count }
        ensures ancestries { self.new.ancestries ≡ self.old.ancestries }
        ensures sorted { OnOk result (IsSorted (leaf_cmp self.new.ancestries) self.new.leaves.items) }
    {
        let ancestries = &self.ancestries;
        self.leaves
            .sort_by(|one, other| order_of(ancestries, one, other))
    }
}
