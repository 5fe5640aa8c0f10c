//! Leaves of a tree, with the keys by which the leaves are sorted.
ghost use Rattle.std.specs.Prelude.{◌≡◌};
ghost use Rattle.std.specs.Ordering.{bool_cmp, ordering_then};
ghost use Rattle.rev_core.specs.Rev.{IsRev, rev_cmp};
ghost use Rattle.rev_tree.specs.Words.{front_of};

use crate::words::front_of;
use rev_core::SmallRev;
use std::cmp::Ordering;

/// A leaf with its sort key: the deleted flag, the generation, and the first eight bytes of the signature. Sorting
/// rarely reads the leaves' revisions, because two leaves usually have different sort keys.
#[derive(Clone, Copy)]
pub(crate) struct Leaf<'a> {
    pub(crate) deleted: bool,
    generation: u32,
    front: u64,
    pub(crate) rev: &'a SmallRev,
    ghost is_rev: { IsRev rev.now },
    ghost is_generation: { generation ≡ rev.now.generation },
    ghost is_front: { front ≡ front_of 8 rev.now.sig },
}

impl<'a> Leaf<'a> {
    /// Creates a leaf with its sort key.
    pub(crate) fn new(deleted: bool, rev: &'a SmallRev) -> Leaf<'a>
        ensures deleted { result.deleted ≡ deleted }
        ensures rev { result.rev.now ≡ rev.now }
    {
        let generation = rev.generation();
        let front = front_of(rev.sig_bytes());
        Leaf {
            deleted,
            generation,
            front,
            rev,
        }
    }

    /// Compares two leaves by the order that decides the winner. Live leaves come before deleted leaves. Among live
    /// leaves, and among deleted leaves, greater generations come first, and then greater signatures.
    pub(crate) fn order(&self, other: &Leaf<'_>) -> Ordering
        ensures { result ≡ ordering_then (bool_cmp self.now.deleted other.now.deleted)
            (rev_cmp other.now.rev.now self.now.rev.now) }
    {
        if self.deleted != other.deleted {
            return self.deleted.cmp(&other.deleted);
        }
        if self.generation != other.generation {
            return other.generation.cmp(&self.generation);
        }
        if self.front != other.front {
            return other.front.cmp(&self.front);
        }
        other.rev.order(self.rev)
    }
}
