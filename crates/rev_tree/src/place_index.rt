//! A lookup table that maps revisions to the positions of their nodes.
ghost use Rattle.std.specs.Prelude.{◌≡◌, ◌+◌, ◌^◌, ◌<◌, ◌≤◌, ◌∷◌, ◌++◌, [], length, nat_eq, None, IfOk, IfSome, OnOk};
ghost use Rattle.std.specs.Map.{lookup};
ghost use Rattle.rev_tree.specs.Index.{noted};
ghost use Rattle.rev_tree.specs.Tournament.{IsBestLeaf, IsPlayed};

use crate::node::Node;
use crate::tournament::Tournament;
use indexmap::IndexMap;
use std::alloc::{AllocError, Global};
use std::marker::Model;

/// The keys of the table are hashes of revisions, because hashes need less memory than revisions. If several revisions
/// share a hash, the table has the position of only one of these revisions. A lookup of another revision with the
/// shared hash scans the nodes. In practice, two revisions share a hash only if someone constructs them to do so.
///
/// The table of hashes takes no memory for a tree with at most `MOST_WALKED` nodes. The table also takes no memory if
/// each node is one generation below the previous node of the tree.
///
/// A `Places` also owns a `Tournament`, the comparison tree that finds the winner among the leaves. If the table of
/// hashes is not allocated, the comparison tree is not allocated either.
#[derive(Drop)]
pub(crate) struct Places {
    index: Option<Box<Index>>,
}

/// The positions of nodes by hash, and the comparison tree of the leaves.
#[derive(Drop)]
struct Index {
    positions: IndexMap<u64, usize>,
    tournament: Tournament,
}

impl Model for Places {
    ghost use Rattle.std.specs.Prelude.{[]};
    ghost use Rattle.std.specs.Option.{option_map_or};
    ghost use Rattle.indexmap.specs.IndexMap.{spare};
    ghost use Rattle.rev_tree.specs.Room.{PlacesValue};

    ghost Value = { PlacesValue };

    ghost view = { λ p. record {
      entries = option_map_or (λ b. b.value.positions.entries) p.index [];
      spare = option_map_or (λ b. spare b.value.positions) p.index 0;
      winners = option_map_or (λ b. b.value.tournament.winners.items) p.index [];
      entered = option_map_or (λ b. b.value.tournament.entered) p.index 0;
    } };
}

impl Places {
    /// Creates an empty index.
    pub(crate) fn new() -> Places
        ensures entries { result.entries ≡ [] }
        ensures winners { result.winners ≡ [] }
        ensures entered { result.entered ≡ 0 }
    {
        Places { index: None }
    }

    /// Returns the number of entries in the index.
    pub(crate) fn len(&self) -> usize
        ensures { result ≡ length self.now.entries }
    {
        match &self.index {
            Some(index) => index.positions.len(),
            None => 0,
        }
    }

    /// Whether the index is empty.
    pub(crate) fn is_empty(&self) -> bool
        ensures { result ≡ nat_eq (length self.now.entries) 0 }
    {
        self.len() == 0
    }

    /// Returns the position that the table has for a hash, or `None` if the table has no entry for the hash.
    pub(crate) fn get(&self, mark: u64) -> Option<usize>
        ensures { result ≡ lookup (nat_eq mark) self.now.entries }
    {
        match &self.index {
            Some(index) => index.positions.get(&mark).copied(),
            None => None,
        }
    }

    /// Adds a hash with the position of a node, unless the table already has an entry for the hash. The caller has
    /// reserved the space for the entry.
    pub(crate) fn note(&mut self, mark: u64, place: usize)
        requires { 0 < self.old.spare }
        ensures entries { self.new.entries ≡ noted self.old.entries mark place }
        ensures room { length self.old.entries + self.old.spare ≤ length self.new.entries + self.new.spare }
        ensures winners { self.new.winners ≡ self.old.winners }
        ensures entered { self.new.entered ≡ self.old.entered }
    {
        if self.get(mark).is_none() {
            self.insert(mark, place);
        }
    }

    /// Adds a new hash with the position of a node. The caller has reserved the space for the hash.
    fn insert(&mut self, mark: u64, place: usize)
        requires room { 0 < self.old.spare }
        requires new { lookup (nat_eq mark) self.old.entries ≡ None }
        ensures entries { self.new.entries ≡ self.old.entries ++ (mark, place) ∷ [] }
        ensures spare { self.old.spare ≤ self.new.spare + 1 }
        ensures winners { self.new.winners ≡ self.old.winners }
        ensures entered { self.new.entered ≡ self.old.entered }
    {
        let Some(mut index) = self.index.take() else {
            unreachable!()
        };
        let Ok(_) = index.positions.insert(mark, place) else {
            unreachable!()
        };
        self.index = Some(index);
    }

    /// Reserves space for `additional` entries.
    #[inline(never)]
    pub(crate) fn reserve(&mut self, alloc: Global, additional: usize) -> Result<(), AllocError>
        ensures entries { self.new.entries ≡ self.old.entries }
        ensures room { OnOk result (additional ≤ self.new.spare) }
        ensures winners { self.new.winners ≡ self.old.winners }
        ensures entered { self.new.entered ≡ self.old.entered }
    {
        let mut index = match self.index.take() {
            Some(index) => index,
            None => Index::new(alloc)?,
        };
        let reserved = index.positions.reserve(additional);
        self.index = Some(index);
        reserved?;
        Ok(())
    }

    /// Finds the winner with the comparison tree of the leaves, and returns the index of the winner's node.
    ///
    /// Returns `None` if the table of hashes takes no memory, or if the comparison tree of the leaves finds no winner.
    pub(crate) fn first_leaf(&mut self, nodes: &[Node]) -> Option<usize>
        requires few { length nodes.now < 2 ^ 32 }
        requires played { IsPlayed nodes.now self.old.winners self.old.entered 0 }
        ensures entries { self.new.entries ≡ self.old.entries }
        ensures played { IsPlayed nodes.now self.new.winners self.new.entered 0 }
        ensures first { IfSome result (λ place. IsBestLeaf nodes.now place) }
    {
        let Some(mut index) = self.index.take() else {
            return None;
        };
        let first = index.tournament.first(nodes);
        self.index = Some(index);
        first
    }
}

impl Index {
    /// Creates an index without entries.
    fn new(alloc: Global) -> Result<Box<Index>, AllocError>
        ensures { IfOk result (λ b. (b.value.positions.entries ≡ []) × (b.value.tournament.winners.items ≡ []) × (b.value.tournament.entered ≡ 0)) }
    {
        let positions = IndexMap::new(alloc);
        let tournament = Tournament::new(alloc);
        let index = Box::new(
            alloc,
            Index {
                positions,
                tournament,
            },
        )?;
        Ok(index)
    }
}
