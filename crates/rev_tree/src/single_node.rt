//! The node of a tree with one revision.
ghost use Rattle.std.specs.Prelude.{◌≡◌, ◌<◌, ◌∷◌, [], None, Some, IfOk, false, length, slice_get};
ghost use Rattle.std.specs.List.{list_all};
ghost use Rattle.rev_core.specs.Ancestry.{edges_of};
ghost use Rattle.rev_tree.specs.Tree.{first_contradiction, has_edge};
ghost use Rattle.rev_tree.specs.Nodes.{IsLinked, place_of, tree_of};
ghost use Rattle.rev_tree.specs.Walks.{ancestors_at};

use crate::content::Content;
use crate::node::Node;
use crate::nodes::{Nodes, push_block};
use rev_core::{Rev, SmallRev};
use std::alloc::{AllocError, Global};
use std::marker::Model;
use std::slice::from_ref;

/// The heap block of a tree with one revision. The only node of such a tree has no parent and no child.
#[derive(Drop)]
pub(crate) struct Single {
    node: Node,
}

impl Model for Single {
    ghost use Rattle.rev_tree.specs.Node.{IsSingle, NodeValue};

    ghost Value = { NodeValue };

    ghost view = { λ s. s.node };

    ghost invariant = { λ s. IsSingle s.node };
}

impl Single {
    /// Creates the node of a revision with its content.
    pub(crate) fn new(alloc: Global, rev: &Rev, content: Content) -> Result<Single, AllocError>
        ensures { IfOk result
            (λ s. s ≡ record { rev = rev.now; parent = None; content = Some content; has_child = false }) }
    {
        let mut node = Node::new(small_rev(alloc, rev)?);
        node.give(content);
        Ok(Single { node })
    }

    /// Returns the nodes of the tree.
    pub(crate) fn nodes(&self) -> &[Node]
        ensures items { result.now ≡ self.now ∷ [] }
        ensures linked { IsLinked (self.now ∷ []) }
    {
        from_ref(&self.node)
    }

    /// Returns the position of the node of a revision.
    pub(crate) fn place_in(&self, rev: &Rev) -> Option<usize>
        ensures place { result ≡ place_of (self.now ∷ []) rev.now }
        ensures linked { IsLinked (self.now ∷ []) }
    {
        if self.node.is_of(rev) { Some(0) } else { None }
    }

    /// Returns the revision and its ancestors, which are unknown.
    pub(crate) fn walk(&self, alloc: Global) -> Result<Vec<Rev>, AllocError>
        ensures { IfOk result (λ v. v.items ≡ ancestors_at (self.now ∷ []) 0) }
    {
        let mut revs = Vec::with_capacity(alloc, 1)?;
        revs.push_reserved(self.node.to_rev());
        Ok(revs)
    }

    /// Returns the known ancestor that is `steps` generations before the revision.
    pub(crate) fn ancestor_at(&self, steps: usize) -> Option<Rev>
        ensures { result ≡ slice_get (ancestors_at (self.now ∷ []) 0) steps }
    {
        if steps == 0 {
            Some(self.node.to_rev())
        } else {
            None
        }
    }

    /// Whether the tree has all edges of an ancestry. A tree with one revision has no edge.
    pub(crate) fn knows_edges(&self, revs: &[Rev]) -> bool
        requires some { 0 < length revs.now }
        ensures edges { result ≡ list_all (has_edge (tree_of (self.now ∷ []))) (edges_of revs.now) }
        ensures none { first_contradiction (tree_of (self.now ∷ [])).parents (edges_of revs.now) ≡ None }
    {
        let _node = &self.node;
        revs.len() == 1
    }

    /// Copies the node to a list with space for those revisions of `revs` that have no node.
    pub(crate) fn to_nodes(&self, alloc: Global, revs: &[Rev]) -> Result<Nodes, AllocError>
        ensures { IfOk result (λ n. n.items ≡ self.now ∷ []) }
    {
        let node = self.node.copy(alloc)?;
        Nodes::of_one(alloc, node, revs)
    }
}

/// Converts a revision. The call allocates only if the revision's signature has more than 32 bytes.
fn small_rev(alloc: Global, rev: &Rev) -> Result<SmallRev, AllocError>
    ensures { IfOk result (λ r. r ≡ rev.now) }
{
    if !SmallRev::is_long(rev) {
        return Ok(SmallRev::inline(rev));
    }
    let mut blocks = Vec::new(alloc);
    push_block(&mut blocks, rev)?;
    Ok(SmallRev::long(rev, &mut blocks))
}
