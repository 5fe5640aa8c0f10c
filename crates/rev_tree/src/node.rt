//! A node of a tree, which holds a revision and the tree's data about the revision.
ghost use Rattle.std.specs.Prelude.{◌≡◌, ◌+◌, ◌<◌, ◌^◌, Some, IfOk, true};
ghost use Rattle.std.specs.Option.{option_copied};
ghost use Rattle.std.specs.Ordering.{eq_by_cmp};
ghost use Rattle.rev_core.specs.Rev.{IsRev, rev_cmp};
ghost use Rattle.rev_tree.specs.Node.{counted_of, has_child_of, content_of, new_node};

use crate::content::Content;
use crate::words::is_same;
use rev_core::{Rev, SmallRev};
use std::alloc::{AllocError, Global};
use std::marker::Model;

/// A node: a revision, whether the revision has a child, the index of its parent, and its content. The origins of a
/// tree's revisions are stored by the tree (`Stored`).
///
/// A tree may have millions of nodes, so a node is small.
#[derive(Drop)]
pub(crate) struct Node {
    rev: SmallRev,
    known: Known,
}

/// Whether a node has a child, the index of its parent, and its content if the content is known.
///
/// One enum holds the three, because the Boolean and the index fit into the padding after the enum's tag. The index of
/// the parent is counted from 1, and is 0 if no parent is known.
#[derive(Drop)]
pub(crate) enum Known {
    Bare(bool, u32),
    Full(bool, u32, Content),
}

impl Known {
    /// Whether the node has a child.
    fn has_child(&self) -> bool
        ensures { result ≡ has_child_of self.now }
    {
        match self {
            Known::Bare(has_child, _) => *has_child,
            Known::Full(has_child, _, _) => *has_child,
        }
    }

    /// Returns the index of the parent, counted from 1, or 0 if no parent is known.
    fn parent(&self) -> u32
        ensures { result ≡ counted_of self.now }
    {
        match self {
            Known::Bare(_, parent) => *parent,
            Known::Full(_, parent, _) => *parent,
        }
    }

    /// Returns the content of the revision, if the content is known.
    fn content(&self) -> Option<&Content>
        ensures { option_copied result ≡ content_of self.now }
    {
        match self {
            Known::Bare(_, _) => None,
            Known::Full(_, _, content) => Some(content),
        }
    }

    /// Notes that the node has a child.
    fn mark(&mut self)
        ensures has_child { has_child_of self.new ≡ true }
        ensures parent { counted_of self.new ≡ counted_of self.old }
        ensures content { content_of self.new ≡ content_of self.old }
    {
        match self {
            Known::Bare(has_child, _) => *has_child = true,
            Known::Full(has_child, _, _) => *has_child = true,
        }
    }

    /// Sets the index of the parent, counted from 1.
    fn name_parent(&mut self, parent: u32)
        ensures has_child { has_child_of self.new ≡ has_child_of self.old }
        ensures parent { counted_of self.new ≡ parent }
        ensures content { content_of self.new ≡ content_of self.old }
    {
        match self {
            Known::Bare(_, old) => *old = parent,
            Known::Full(_, old, _) => *old = parent,
        }
    }

    /// Copies the value.
    fn copy(&self) -> Result<Known, AllocError>
        ensures { IfOk result (λ k. k ≡ self.now) }
    {
        match self {
            Known::Bare(has_child, parent) => Ok(Known::Bare(*has_child, *parent)),
            Known::Full(has_child, parent, content) => {
                let content = content.copy()?;
                Ok(Known::Full(*has_child, *parent, content))
            }
        }
    }
}

impl Model for Node {
    ghost use Rattle.rev_tree.specs.Node.{NodeValue, parent_of, counted_of, has_child_of, content_of};

    ghost Value = { NodeValue };

    ghost view = { λ n. record {
      rev = n.rev;
      parent = parent_of (counted_of n.known);
      content = content_of n.known;
      has_child = has_child_of n.known;
    } };
}

impl Node {
    /// Creates a node without parent, content or child.
    pub(crate) fn new(rev: SmallRev) -> Node
        ensures { result ≡ new_node rev }
    {
        Node {
            rev,
            known: Known::Bare(false, 0),
        }
    }

    /// Returns the revision.
    pub(crate) fn rev(&self) -> &SmallRev
        ensures { result.now ≡ self.now.rev }
    {
        &self.rev
    }

    /// Returns the revision as a `Rev`.
    #[inline(always)]
    pub(crate) fn to_rev(&self) -> Rev
        ensures { result ≡ self.now.rev }
    {
        self.rev.to_rev()
    }

    /// Returns the generation of the revision.
    pub(crate) fn generation(&self) -> u32
        ensures part { result ≡ self.now.rev.generation }
        ensures is_rev { IsRev self.now.rev }
    {
        self.rev.generation()
    }

    /// Whether the node holds the given revision.
    #[inline(always)]
    pub(crate) fn is_of(&self, rev: &Rev) -> bool
        ensures { result ≡ eq_by_cmp rev_cmp rev.now self.now.rev }
    {
        if rev.generation() != self.rev.generation() {
            return false;
        }
        is_same(rev.sig_bytes(), self.rev.sig_bytes())
    }

    /// Returns the index of the node's parent, if the parent is known.
    pub(crate) fn parent(&self) -> Option<usize>
        ensures { result ≡ self.now.parent }
    {
        match self.known.parent() {
            0 => None,
            counted => Some(counted as usize - 1),
        }
    }

    /// Returns the content of the revision, if the content is known.
    pub(crate) fn content(&self) -> Option<&Content>
        ensures { option_copied result ≡ self.now.content }
    {
        self.known.content()
    }

    /// Whether the node is the parent of another node.
    pub(crate) fn has_child(&self) -> bool
        ensures { result ≡ self.now.has_child }
    {
        self.known.has_child()
    }

    /// Sets the content.
    pub(crate) fn give(&mut self, content: Content)
        ensures { self.new ≡ record {
          rev = self.old.rev;
          parent = self.old.parent;
          content = Some content;
          has_child = self.old.has_child;
        } }
    {
        self.known = Known::Full(self.known.has_child(), self.known.parent(), content);
    }

    /// Sets the index of the parent.
    pub(crate) fn name_parent(&mut self, place: usize)
        requires { place + 1 < 2 ^ 32 }
        ensures { self.new ≡ record {
          rev = self.old.rev;
          parent = Some place;
          content = self.old.content;
          has_child = self.old.has_child;
        } }
    {
        self.known.name_parent(place as u32 + 1);
    }

    /// Marks the node as the parent of another node.
    pub(crate) fn mark(&mut self)
        ensures { self.new ≡ record {
          rev = self.old.rev;
          parent = self.old.parent;
          content = self.old.content;
          has_child = true;
        } }
    {
        self.known.mark();
    }

    /// Copies the node.
    pub(crate) fn copy(&self, alloc: Global) -> Result<Node, AllocError>
        ensures { IfOk result (λ n. n ≡ self.now) }
    {
        let known = self.known.copy()?;
        let rev = self.rev.copy(alloc)?;
        Ok(Node { rev, known })
    }
}
