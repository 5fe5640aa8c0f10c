//! Finding the winner's node.
ghost use Rattle.std.specs.Prelude.{◌≡◌, ◌<◌, Some, IfSome, slice_get, length};
ghost use Rattle.std.specs.Option.{option_copied};
ghost use Rattle.rev_core.specs.Rev.{RevId};
ghost use Rattle.rev_tree.specs.InOrder.{first_of};
ghost use Rattle.rev_tree.specs.Tree.{TreeValue, leaves};
ghost use Rattle.rev_tree.specs.Nodes.{deletes, goes_before, revs_in, tree_of};
ghost use Rattle.rev_tree.specs.Steps.{AddsHead};

use crate::node::Node;
use crate::nodes::Nodes;
use std::cmp::Ordering;

impl Nodes {
    /// Finds the winner after an ancestry was inserted, and returns the index of the winner's node. The argument
    /// `before` is the index of the previous winner's node. The argument `head` is the index of the node for the
    /// ancestry's newest revision.
    ///
    /// If the ancestry's head is a leaf and wins against the previous winner, the head is the new winner. If the head
    /// does not win and the previous winner is still a leaf, the previous winner stays the winner. If neither the head
    /// nor the previous winner is known to be the winner, the call searches all leaves.
    pub(crate) fn winner_after(&mut self, before: usize, head: usize) -> usize
        requires before { before < length self.old.items }
        requires head { head < length self.old.items }
        ensures items { self.new.items ≡ self.old.items }
        ensures winner { (t : TreeValue) (w h : RevId)
            → first_of (leaves t) ≡ Some w
            → slice_get (revs_in self.old.items) before ≡ Some w
            → slice_get (revs_in self.old.items) head ≡ Some h
            → AddsHead t (tree_of self.old.items) h
            → slice_get (revs_in self.old.items) result ≡ first_of (leaves (tree_of self.old.items)) }
    {
        match self.head_or_previous(before, head) {
            Some(winner) => winner,
            None => self.next_winner(),
        }
    }

    /// Looks for the winner among only two candidates: the ancestry's head and the previous winner. Returns the index
    /// of the winner's node, or `None` if neither candidate is known to be the winner.
    fn head_or_previous(&self, before: usize, head: usize) -> Option<usize>
        requires before { before < length self.now.items }
        requires head { head < length self.now.items }
        ensures { IfSome result (λ i. (t : TreeValue) (w h : RevId)
            → first_of (leaves t) ≡ Some w
            → slice_get (revs_in self.now.items) before ≡ Some w
            → slice_get (revs_in self.now.items) head ≡ Some h
            → AddsHead t (tree_of self.now.items) h
            → slice_get (revs_in self.now.items) i ≡ first_of (leaves (tree_of self.now.items))) }
    {
        let old = self.node_at(before);
        let new = self.node_at(head);
        if !new.has_child() {
            if goes_before(new, Some(old)) {
                return Some(head);
            }
        }
        if !old.has_child() {
            return Some(before);
        }
        None
    }

    /// Returns the index of the winner's node. The call scans all nodes if the comparison tree of the leaves finds no
    /// winner.
    fn next_winner(&mut self) -> usize
        ensures items { self.new.items ≡ self.old.items }
        ensures first { (r : RevId)
            → first_of (leaves (tree_of self.old.items)) ≡ Some r
            → slice_get (revs_in self.old.items) result ≡ Some r }
    {
        match self.tournament_winner() {
            Some(first) => first,
            None => self.first_leaf(),
        }
    }

    /// Finds the winner by scanning all nodes, and returns the index of the winner's node.
    #[inline(never)]
    fn first_leaf(&self) -> usize
        ensures { (r : RevId)
            → first_of (leaves (tree_of self.now.items)) ≡ Some r
            → slice_get (revs_in self.now.items) result ≡ Some r }
    {
        let nodes = self.all();
        let mut best: Option<&Node> = None;
        let mut place = 0;
        for i in 0..nodes.len() {
            let node = &nodes[i];
            if !node.has_child() {
                if goes_before(node, best) {
                    best = Some(node);
                    place = i;
                }
            }
        }
        place
    }
}

/// Whether a leaf wins against the best leaf found so far. Returns true if no best leaf was found yet. A live leaf wins
/// against a deleted leaf. If both leaves are live, or both are deleted, the greater generation wins. If the
/// generations are equal, the greater signature wins.
pub(crate) fn goes_before(leaf: &Node, best: Option<&Node>) -> bool
    ensures { result ≡ goes_before leaf.now (option_copied best.entry) }
{
    match best {
        Some(best) => {
            let order = is_deleted(leaf)
                .cmp(&is_deleted(best))
                .then(best.rev().order(leaf.rev()));
            order == Ordering::Less
        }
        None => true,
    }
}

/// Whether a node has a content that deletes the document.
pub(crate) fn is_deleted(node: &Node) -> bool
    ensures { result ≡ deletes node.now }
{
    match node.content() {
        Some(content) => content.deleted(),
        None => false,
    }
}
