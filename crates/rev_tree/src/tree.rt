//! Revision trees.
ghost use Rattle.std.specs.Prelude.{◌≡◌, ◌∷◌, [], List, Some, Ok, OnOk, OnErr, IfOk, IfSome, MatchOption, length, map, slice_get, true, false};
ghost use Rattle.std.specs.Option.{option_copied};
ghost use Rattle.rev_core.specs.Rev.{RevId};
ghost use Rattle.rev_tree.specs.Content.{ContentValue};
ghost use Rattle.rev_tree.specs.declared.origin.Origin.{Origin};

use crate::content::Content;
use crate::fault::{Contradiction, Merged, TreeFault};
use crate::leaf::Leaf;
use crate::origin::Origin;
use crate::revs::Revs;
use crate::stored::Stored;
use crate::winner::is_deleted;
use rev_core::{Ancestry, Rev, SmallRev};
use std::alloc::{AllocError, Global};
use std::marker::Model;

/// What a tree stores about a revision: the revision with its known ancestors, and its content if the content is known.
#[derive(Drop)]
pub struct RevInfo<'a> {
    pub ancestry: Ancestry,
    pub content: Option<&'a Content>,
}

/// The revisions of a document with their parents, contents and origins.
///
/// Each revision is stored as a node, which has the index of the parent's node. The tree stores the nodes, the origins
/// of their revisions, and the index of the winner's node.
pub struct Tree {
    stored: Stored,
}

// `Drop` is implemented by hand, because derived code would be proved again in each crate that owns a value of this
// type (docs/DECISIONS.md, "Letting values go").
impl Drop for Tree {
    fn drop(self) {
        let Tree { stored: _ } = self;
    }
}

impl Model for Tree {
    ghost use Rattle.rev_tree.specs.Tree.{TreeValue, coded_tree};

    ghost Value = { TreeValue };

    ghost coded = { coded_tree };

    ghost use Rattle.rev_tree.specs.Origins.{IsStored, shown};

    ghost view = { λ t. shown t.stored.items t.stored.origins };

    ghost invariant = { λ t. IsStored t.stored.items t.stored.origins t.stored.best };
}

impl Tree {
    ghost use Rattle.std.specs.FinMap.{get, len};
    ghost use Rattle.rev_tree.specs.Tree.{IsTree, no_revisions, has, is_leaf, merged, merge_answer, ancestors, ancestry_answer, leaves, is_deleted, missing, leaves_above, GivesUnlessMemory, MergeGives, IsStanding};
    ghost use Rattle.rev_tree.specs.InOrder.{first_of, only_of};

    /// Creates an empty tree.
    pub fn new(alloc: Global) -> Tree
        ensures { result ≡ no_revisions }
    {
        Tree {
            stored: Stored::new(alloc),
        }
    }

    /// Whether the tree has the revision.
    pub fn has(&self, rev: Rev) -> bool
        ensures found { result ≡ has self.now rev }
        ensures tree { IsTree self.now }
    {
        self.stored.node_in(&rev).is_some()
    }

    /// Returns the parent of a revision, if the tree knows the parent.
    pub fn parent_of(&self, rev: Rev) -> Option<Rev>
        ensures { result ≡ get self.now.parents rev }
    {
        let node = self.stored.node_in(&rev)?;
        let parent = node.parent()?;
        Some(self.stored.node_at(parent).to_rev())
    }

    /// Returns the content of a revision, if the tree knows the content.
    pub fn content(&self, rev: Rev) -> Option<&Content>
        ensures { option_copied result ≡ get self.now.contents rev }
    {
        let node = self.stored.node_in(&rev)?;
        node.content()
    }

    /// Returns the origin of a revision.
    pub fn origin(&self, rev: Rev) -> Option<Origin>
        ensures { result ≡ get self.now.origins rev }
    {
        let place = self.stored.place_in(&rev)?;
        Some(self.stored.origin_at(place))
    }

    /// Whether a revision is a leaf.
    pub fn is_leaf(&self, rev: Rev) -> bool
        ensures { result ≡ is_leaf self.now rev }
    {
        let Some(node) = self.stored.node_in(&rev) else {
            return false;
        };
        !node.has_child()
    }

    /// Whether a revision has a content that deletes the document.
    pub fn is_deleted(&self, rev: Rev) -> bool
        ensures { result ≡ is_deleted self.now rev }
    {
        match self.content(rev) {
            Some(content) => content.deleted(),
            None => false,
        }
    }

    /// Returns a revision and its known ancestors, or `NoSuchRevision` if the revision is not in the tree.
    pub fn ancestry(&self, alloc: Global, rev: Rev) -> Result<Ancestry, TreeFault>
        ensures { GivesUnlessMemory result (ancestry_answer self.now rev) }
    {
        if !self.has(rev) {
            return Err(TreeFault::NoSuchRevision);
        }
        Ok(self.known_ancestry(alloc, rev)?)
    }

    /// Returns a revision of the tree and its known ancestors.
    pub fn known_ancestry(&self, alloc: Global, rev: Rev) -> Result<Ancestry, AllocError>
        requires { has self.now rev ≡ true }
        ensures { IfOk result (λ a. a ≡ ancestors self.now rev) }
    {
        let Some(place) = self.stored.place_in(&rev) else {
            unreachable!()
        };
        let revs = self.stored.walk(alloc, place)?;
        Ok(Ancestry::from_revs(revs))
    }

    /// Returns a revision's known ancestor at a given distance. The distance is 0 for the revision itself and 1 for its
    /// parent. Returns `None` if the number of known ancestors is less than the distance.
    pub fn ancestor(&self, rev: Rev, place: usize) -> Option<Rev>
        requires { has self.now rev ≡ true }
        ensures { result ≡ slice_get (ancestors self.now rev) place }
    {
        let Some(start) = self.stored.place_in(&rev) else {
            unreachable!()
        };
        self.stored.ancestor_at(start, place)
    }

    /// Returns the ancestors and the content of a revision, with one lookup, or `None` if the revision is not in the
    /// tree.
    pub fn rev_info(&self, alloc: Global, rev: Rev) -> Result<Option<RevInfo<'_>>, AllocError>
        ensures { IfOk result
            (λ o. MatchOption o (has self.now rev ≡ false) (λ s. IsStanding self.now rev s.ancestry (option_copied s.content))) }
    {
        let Some(place) = self.stored.place_in(&rev) else {
            return Ok(None);
        };
        let revs = self.stored.walk(alloc, place)?;
        Ok(Some(RevInfo {
            ancestry: Ancestry::from_revs(revs),
            content: self.stored.node_at(place).content(),
        }))
    }

    /// Returns the winning leaf, or `None` if the tree is empty.
    pub fn winner(&self) -> Option<Rev>
        ensures { result ≡ first_of (leaves self.now) }
    {
        self.stored.winner()
    }

    /// Returns the leaves, winner first. The call does not allocate if the tree has only one leaf.
    #[inline(always)]
    pub fn leaves(&self, alloc: Global) -> Result<Revs, AllocError>
        ensures { IfOk result (λ out. out ≡ leaves self.now) }
    {
        match self.only_leaf() {
            Some(leaf) => Ok(Revs::one(leaf.to_rev())),
            None => Ok(Revs::from(self.sorted_leaves(alloc)?)),
        }
    }

    /// Returns the only leaf, if the tree has exactly one leaf.
    fn only_leaf(&self) -> Option<&SmallRev>
        ensures { option_copied result ≡ only_of (leaves self.now) }
    {
        let mut found = None;
        for node in self.stored.all() {
            if !node.has_child() {
                if found.is_some() {
                    return None;
                }
                found = Some(node.rev());
            }
        }
        found
    }

    /// Collects and sorts the leaves, winner first.
    #[inline(never)]
    fn sorted_leaves(&self, alloc: Global) -> Result<Vec<Rev>, AllocError>
        ensures { IfOk result (λ v. v.items ≡ leaves self.now) }
    {
        let mut found = Vec::with_capacity(alloc, self.leaf_count())?;
        for node in self.stored.all() {
            if !node.has_child() {
                found.push(Leaf::new(is_deleted(node), node.rev()))?;
            }
        }
        found.sort_unstable_by(|a, b| a.order(b));
        revs_of(alloc, &found)
    }

    /// Returns the number of leaves.
    pub fn leaf_count(&self) -> usize
        ensures { result ≡ length (leaves self.now) }
    {
        let mut count = 0;
        for node in self.stored.all() {
            if !node.has_child() {
                count += 1;
            }
        }
        count
    }

    /// Returns the number of revisions.
    pub fn rev_count(&self) -> usize
        ensures { result ≡ len self.now.origins }
    {
        self.stored.all().len()
    }

    /// Returns the leaves that are equal to, or descend from, one of the given revisions, winner first.
    ///
    /// The call does not allocate if the tree's only leaf is one of the given revisions.
    pub fn leaves_above(&self, alloc: Global, revs: &[Rev]) -> Result<Revs, AllocError>
        ensures { IfOk result (λ out. out ≡ leaves_above self.now revs.now) }
    {
        if let Some(leaf) = self.only_leaf() {
            let rev = leaf.to_rev();
            if revs.contains(&rev) {
                return Ok(Revs::one(rev));
            }
        }
        let leaves = self.leaves(alloc)?;
        Ok(Revs::from(self.stored.those_above(alloc, &leaves, revs)?))
    }

    /// Returns the given revisions that are not in the tree, in the given order. The call does not allocate if only one
    /// revision is given.
    pub fn missing(&self, alloc: Global, revs: &[Rev]) -> Result<Revs, AllocError>
        ensures { IfOk result (λ out. out ≡ missing self.now revs.now) }
    {
        if revs.len() != 1 {
            return Ok(Revs::from(self.missing_listed(alloc, revs)?));
        }
        if self.has(revs[0]) {
            Ok(Revs::none(alloc))
        } else {
            Ok(Revs::one(revs[0]))
        }
    }

    /// Collects the given revisions that are not in the tree, in the given order.
    fn missing_listed(&self, alloc: Global, revs: &[Rev]) -> Result<Vec<Rev>, AllocError>
        ensures { IfOk result (λ v. v.items ≡ missing self.now revs.now) }
    {
        let mut missing = Vec::new(alloc);
        for rev in revs {
            if !self.has(*rev) {
                missing.push(*rev)?;
            }
        }
        Ok(missing)
    }

    /// Copies the tree.
    pub fn copy(&self, alloc: Global) -> Result<Tree, AllocError>
        ensures copied { IfOk result (λ t. t ≡ self.now) }
        ensures tree { IsTree self.now }
    {
        let stored = self.stored.copy(alloc)?;
        Ok(Tree { stored })
    }

    /// Returns a tree with the ancestry and the content of this tree's only leaf. The returned tree shares the nodes of
    /// this tree, and each of its revisions has the given origin. The result is `None` if this tree has several leaves,
    /// or if a revision other than the leaf has a content.
    pub fn share_leaf(&self, origin: Origin) -> Result<Option<Tree>, AllocError>
        ensures shared { IfOk result (λ o. IfSome o (λ t. (leaf : RevId) (content : ContentValue)
            → is_leaf self.now leaf ≡ true
            → get self.now.contents leaf ≡ Some content
            → t ≡ merged no_revisions (ancestors self.now leaf) content origin)) }
        ensures tree { IfOk result (λ o. IfSome o (λ t. IsTree t)) }
    {
        if self.only_leaf().is_none() {
            return Ok(None);
        }
        if !self.stored.only_leaves_have_contents() {
            return Ok(None);
        }
        let stored = self.stored.share_as(origin)?;
        Ok(Some(Tree { stored }))
    }

    /// Replaces the origin of each revision.
    pub fn set_origin(&mut self, origin: Origin)
        ensures origin { (revs : List RevId) (content : ContentValue) (old : Origin)
            → self.old ≡ merged no_revisions revs content old
            → self.new ≡ merged no_revisions revs content origin }
        ensures tree { IsTree self.new }
    {
        self.stored.set_origin(origin);
    }

    /// Returns the result that merging the ancestry would have, without merging and without allocating. The result is
    /// `Same` if the tree has all revisions and edges of the ancestry and a content of its head, and otherwise
    /// `Changed`.
    ///
    /// # Errors
    ///
    /// Returns the newest child of the ancestry whose parent in the tree differs from its parent in the ancestry.
    pub fn merge_answer(&self, ancestry: &Ancestry) -> Result<Merged, Contradiction>
        ensures answer { result ≡ merge_answer self.now ancestry.now }
        ensures tree { IsTree self.now }
    {
        match self.stored.knows_edges(ancestry.revs()) {
            Ok(all) => {
                if all && self.content(ancestry.head()).is_some() {
                    Ok(Merged::Same)
                } else {
                    Ok(Merged::Changed)
                }
            }
            Err(contradiction) => Err(contradiction),
        }
    }

    /// Merges an ancestry, with the content of its newest revision, into the tree as a union. New revisions get the
    /// given origin, and the data that the tree already has does not change.
    ///
    /// If no error occurs, the call returns what `merge_answer` returns.
    ///
    /// # Errors
    ///
    /// - `Contradiction`: a revision has different parents in the tree and in the ancestry, as for `merge_answer`.
    /// - `Memory`: an allocation failed. The call returns `Memory` only if the merge would change the tree.
    ///
    /// After an error the tree is unchanged.
    pub fn merge(
        &mut self,
        ancestry: &Ancestry,
        content: Content,
        origin: Origin,
    ) -> Result<Merged, TreeFault>
        ensures answer { MergeGives result (merge_answer self.old ancestry.now) }
        ensures ok { OnOk result (self.new ≡ merged self.old ancestry.now content origin) }
        ensures same { IfOk result
            (λ m. (m ≡ Merged.Same → self.new ≡ self.old) × (self.new ≡ self.old → m ≡ Merged.Same)) }
        ensures err { OnErr result (self.new ≡ self.old) }
        ensures tree { IsTree self.new }
    {
        match self.merge_answer(ancestry) {
            Ok(Merged::Changed) => {}
            Ok(Merged::Same) => return Ok(Merged::Same),
            Err(contradiction) => {
                let Contradiction {
                    child,
                    known,
                    given,
                } = contradiction;
                return Err(TreeFault::Contradiction {
                    child,
                    known,
                    given,
                });
            }
        }
        self.merge_change(ancestry, content, origin)?;
        Ok(Merged::Changed)
    }

    /// Merges an ancestry for which `merge_answer` has returned `Changed`, without checking the ancestry again.
    pub fn merge_change(
        &mut self,
        ancestry: &Ancestry,
        content: Content,
        origin: Origin,
    ) -> Result<(), AllocError>
        requires { merge_answer self.old ancestry.now ≡ Ok Merged.Changed }
        ensures ok { OnOk result (self.new ≡ merged self.old ancestry.now content origin) }
        ensures err { OnErr result (self.new ≡ self.old) }
        ensures tree { IsTree self.new }
    {
        let revs = ancestry.revs();
        self.stored.insert(revs, content, origin)?;
        // The call has no effect, but makes the invariant of the nodes available to the proof.
        let _nodes = self.stored.all();
        Ok(())
    }
}

/// Collects the revisions of leaves.
fn revs_of(alloc: Global, leaves: &[Leaf<'_>]) -> Result<Vec<Rev>, AllocError>
    ensures { IfOk result (λ v. v.items ≡ map (λ l. l.rev.now) leaves.now) }
{
    let mut revs = Vec::with_capacity(alloc, leaves.len())?;
    for leaf in leaves {
        revs.reserve(1)?;
        revs.push_reserved(leaf.rev.to_rev());
    }
    Ok(revs)
}
