//! Compares an ancestry with the nodes of a tree, and inserts the ancestry.
ghost use Rattle.std.specs.Prelude.{◌≡◌, ℕ, ◌+◌, ◌<◌, ◌≤◌, [], Some, None, IfSome, IfOk, IfErr, OnErr, OnOk, length, slice_get};
ghost use Rattle.std.specs.FinMap.{get};
ghost use Rattle.std.specs.List.{list_all};
ghost use Rattle.rev_core.specs.Rev.{RevId};
ghost use Rattle.rev_core.specs.SmallRev.{blocks_of};
ghost use Rattle.rev_core.specs.Ancestry.{IsAncestry, edges_of};
ghost use Rattle.rev_tree.specs.Tree.{merged, has_edge, first_contradiction, leaves};
ghost use Rattle.rev_tree.specs.InOrder.{first_of};
ghost use Rattle.rev_tree.specs.Nodes.{HasGained, HasRoom, IsLed, IsLinked, count_blocks, count_new, no_origin, place_of, rev_at, revs_in, tree_of, unless_among};

use crate::content::Content;
use crate::fault::Contradiction;
use crate::node::Node;
use crate::nodes::Nodes;
use rev_core::{Rev, Sig};
use std::alloc::AllocError;

impl Nodes {
    /// Whether the tree has all edges (from child to parent) of an ancestry. Returns an error if a child's parent in
    /// the tree differs from the child's parent in the ancestry. The error names the first revision in the ancestry
    /// whose parents in ancestry and tree differ.
    ///
    /// If the tree has the complete ancestry, the call needs only one lookup, because each node stores the index of its
    /// parent. If the tree has no parent for a child, the call looks up the parent that the ancestry gives. The lookup
    /// of a parent first tries the parent of the tree's last node.
    pub(crate) fn knows_edges(&self, revs: &[Rev]) -> Result<bool, Contradiction>
        requires some { 0 < length revs.now }
        ensures edges { IfOk result (λ b. b ≡ list_all (has_edge (tree_of self.now.items)) (edges_of revs.now)) }
        ensures none { OnOk result
            (first_contradiction (tree_of self.now.items).parents (edges_of revs.now) ≡ None) }
        ensures contradiction { IfErr result
            (λ c. first_contradiction (tree_of self.now.items).parents (edges_of revs.now) ≡ Some c) }
    {
        let mut all = true;
        let mut place = self.place_in(&revs[0]);
        for i in 1..revs.len() {
            let given = revs[i];
            match self.parent_at(place) {
                Some(parent) => {
                    let node = self.node_at(parent);
                    if !node.is_of(&given) {
                        let child = revs[i - 1];
                        return Err(contradiction(child, node, given));
                    }
                    place = Some(parent);
                }
                None => {
                    all = false;
                    let near = self.parent_at(self.all().len().checked_sub(1));
                    place = self.place_near(near, &given);
                }
            }
        }
        Ok(all)
    }

    /// Returns a likely index of the parent of the node at index `child`, or `None` if there is no guess. If the node's
    /// parent is known, the returned index is the parent's index. If the node's parent is unknown, the returned index
    /// is that of the parent of the previous node (index `child - 1`). Consecutive nodes are often leaves with the same
    /// parent.
    fn near(&self, child: usize) -> Option<usize>
        requires { child < length self.now.items }
        ensures { IfSome result (λ i. i < length self.now.items) }
    {
        match self.parent_at(Some(child)) {
            Some(parent) => Some(parent),
            None => self.parent_at(child.checked_sub(1)),
        }
    }

    /// Returns the index of a node's parent, or `None` if no parent is known. The argument `place` is the index of the
    /// node, or `None` if no node is given.
    fn parent_at(&self, place: Option<usize>) -> Option<usize>
        requires within { IfSome place (λ i. i < length self.now.items) }
        ensures within { IfSome result (λ i. i < length self.now.items) }
        ensures parent { (r : RevId)
            → place ≡ place_of self.now.items r
            → rev_at (revs_in self.now.items) result ≡ get (tree_of self.now.items).parents r }
    {
        let nodes = self.all();
        let place = place?;
        nodes[place].parent()
    }

    /// Inserts an ancestry with its content, and returns the index of the winner's node. The argument `best` is the
    /// index of the winner's node before the call.
    pub(crate) fn insert(
        &mut self,
        best: usize,
        revs: &[Rev],
        content: Content,
    ) -> Result<usize, AllocError>
        requires led { IsLed self.old.items best }
        requires ancestry { IsAncestry revs.now }
        requires none { first_contradiction (tree_of self.old.items).parents (edges_of revs.now) ≡ None }
        ensures tree { OnOk result (tree_of self.new.items ≡ merged (tree_of self.old.items) revs.now content no_origin) }
        ensures best { IfOk result (λ b. slice_get (revs_in self.new.items) b ≡ first_of (leaves (tree_of self.new.items))) }
        ensures kept { (i : ℕ) (r : RevId)
            → slice_get (revs_in self.old.items) i ≡ Some r
            → slice_get (revs_in self.new.items) i ≡ Some r }
        ensures len { length self.new.items ≤ length self.old.items + length revs.now }
        ensures err { OnErr result (self.new.items ≡ self.old.items) }
    {
        let mut blocks = self.make_room(revs)?;
        let best = self.put(best, revs, content, &mut blocks);
        self.give_back();
        Ok(best)
    }

    /// Inserts the revisions of an ancestry, its edges and the content of its head, and returns the index of the
    /// winner's node. The argument `best` is the index of the winner's node before the call. The caller has reserved
    /// space for the missing revisions, and gives the heap blocks that the revisions may need.
    pub(crate) fn put(
        &mut self,
        best: usize,
        revs: &[Rev],
        content: Content,
        blocks: &mut Vec<Box<Sig>>,
    ) -> usize
        requires led { IsLed self.old.items best }
        requires ancestry { IsAncestry revs.now }
        requires none { first_contradiction (tree_of self.old.items).parents (edges_of revs.now) ≡ None }
        requires room { HasRoom self.old (count_new (revs_in self.old.items) revs.now) }
        requires blocks { count_blocks revs.now ≤ length blocks.old.items }
        ensures tree { tree_of self.new.items ≡ merged (tree_of self.old.items) revs.now content no_origin }
        ensures best { slice_get (revs_in self.new.items) result ≡ first_of (leaves (tree_of self.new.items)) }
        ensures kept { (i : ℕ) (r : RevId)
            → slice_get (revs_in self.old.items) i ≡ Some r
            → slice_get (revs_in self.new.items) i ≡ Some r }
        ensures len { length self.new.items ≤ length self.old.items + length revs.now }
    {
        if self.all().is_empty() {
            self.put_first(revs, content, blocks);
            0
        } else {
            let head = self.put_among(revs, content, blocks);
            self.winner_after(best, head)
        }
    }

    /// Inserts an ancestry into an empty tree. The revisions of an ancestry are distinct, so the call does not look for
    /// existing nodes.
    fn put_first(&mut self, revs: &[Rev], content: Content, blocks: &mut Vec<Box<Sig>>)
        requires none { self.old.items ≡ [] }
        requires ancestry { IsAncestry revs.now }
        requires room { HasRoom self.old (count_new (revs_in self.old.items) revs.now) }
        requires blocks { count_blocks revs.now ≤ length blocks.old.items }
        ensures tree { tree_of self.new.items ≡ merged (tree_of self.old.items) revs.now content no_origin }
        ensures revs { revs_in self.new.items ≡ revs.now }
    {
        let mut child = self.push(&revs[0], blocks);
        self.give(child, content);
        for i in 1..revs.len() {
            let parent = self.push(&revs[i], blocks);
            self.link(child, parent);
            child = parent;
        }
    }

    /// Inserts an ancestry and returns the index of the head's node. Some revisions of the ancestry may already have
    /// nodes.
    fn put_among(&mut self, revs: &[Rev], content: Content, blocks: &mut Vec<Box<Sig>>) -> usize
        requires some { 0 < length revs.now }
        requires room { HasRoom self.old (count_new (revs_in self.old.items) revs.now) }
        requires blocks { count_blocks revs.now ≤ length blocks.old.items }
        ensures tree { tree_of self.new.items ≡ merged (tree_of self.old.items) revs.now content no_origin }
        ensures head { slice_get (revs_in self.new.items) result ≡ slice_get revs.now 0 }
        ensures kept { (i : ℕ) (r : RevId)
            → slice_get (revs_in self.old.items) i ≡ Some r
            → slice_get (revs_in self.new.items) i ≡ Some r }
        ensures len { length self.new.items ≤ length self.old.items + length revs.now }
    {
        let head = self.add(None, &revs[0], blocks);
        let mut child = head;
        self.give(child, content);
        for i in 1..revs.len() {
            let near = self.near(child);
            let parent = self.add(near, &revs[i], blocks);
            self.link(child, parent);
            child = parent;
        }
        head
    }

    /// Returns the index of a revision's node, after appending a node if the revision has no
    /// node. The call first checks whether the node at index `near` holds the revision. The caller has reserved the
    /// space for the node, and gives the heap block that the revision may need.
    fn add(&mut self, near: Option<usize>, rev: &Rev, blocks: &mut Vec<Box<Sig>>) -> usize
        requires near { IfSome near (λ i. i < length self.old.items) }
        requires room { HasRoom self.old (unless_among (revs_in self.old.items) rev.now) }
        requires blocks { blocks_of rev.now ≤ length blocks.old.items }
        ensures gained { HasGained self.old self.new rev.now result }
        ensures blocks { length blocks.old.items ≤ length blocks.new.items + blocks_of rev.now }
    {
        match self.place_near(near, rev) {
            Some(place) => place,
            None => self.push(rev, blocks),
        }
    }

    /// Returns the index of a revision's node. The call first checks whether the node at index `near` holds the
    /// revision.
    fn place_near(&self, near: Option<usize>, rev: &Rev) -> Option<usize>
        requires near { IfSome near (λ i. i < length self.now.items) }
        ensures place { result ≡ place_of self.now.items rev.now }
        ensures linked { IsLinked self.now.items }
    {
        if let Some(place) = near {
            if self.node_at(place).is_of(rev) {
                return Some(place);
            }
        }
        self.place_in(rev)
    }
}

/// Creates the error for a revision whose parent in the tree is the revision of a given node.
#[inline(never)]
fn contradiction(child: Rev, node: &Node, given: Rev) -> Contradiction
    ensures { result ≡ record { child = child; known = node.now.rev; given = given } }
{
    Contradiction {
        child,
        known: node.to_rev(),
        given,
    }
}
