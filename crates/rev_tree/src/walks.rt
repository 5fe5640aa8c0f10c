//! Functions that go from a node to the node's ancestors, by the indexes of the nodes.
ghost use Rattle.std.specs.Prelude.{◌≡◌, ◌<◌, List, IfOk, true, filter, length, slice_get};
ghost use Rattle.rev_core.specs.Rev.{RevId};
ghost use Rattle.rev_core.specs.Ancestry.{is_among};
ghost use Rattle.rev_tree.specs.Tree.{IsTree, has};
ghost use Rattle.rev_tree.specs.Nodes.{tree_of};
ghost use Rattle.rev_tree.specs.Walks.{ancestors_at, is_above_at, is_above_one, IsTold};

use crate::nodes::Nodes;
use rev_core::Rev;
use std::alloc::{AllocError, Global};

impl Nodes {
    /// Returns the revision of the node at index `start`, and the known ancestors of that revision.
    pub(crate) fn walk(&self, alloc: Global, start: usize) -> Result<Vec<Rev>, AllocError>
        requires within { start < length self.now.items }
        requires tree { IsTree (tree_of self.now.items) }
        ensures { IfOk result (λ v. v.items ≡ ancestors_at self.now.items start) }
    {
        // The resulting list has a revision and its ancestors. The length of the list is at most the tree's number of
        // nodes, and at most the generation of the first revision.
        let most = self
            .all()
            .len()
            .min(self.node_at(start).generation() as usize);
        let mut revs = Vec::with_capacity(alloc, most)?;
        let mut at = start;
        'walk: loop {
            let node = self.node_at(at);
            revs.reserve(1)?;
            revs.push_reserved(node.to_rev());
            match node.parent() {
                Some(parent) => at = parent,
                None => break 'walk,
            }
        }
        revs.shrink_to_fit();
        Ok(revs)
    }

    /// Returns the known ancestor that is `steps` generations before the revision of the node at index `start`.
    pub(crate) fn ancestor_at(&self, start: usize, steps: usize) -> Option<Rev>
        requires within { start < length self.now.items }
        requires tree { IsTree (tree_of self.now.items) }
        ensures { result ≡ slice_get (ancestors_at self.now.items start) steps }
    {
        let mut at = start;
        for i in 0..steps {
            at = self.node_at(at).parent()?;
        }
        Some(self.node_at(at).to_rev())
    }

    /// Returns the given leaves that are equal to, or descend from, one of the revisions `revs`. The result keeps the
    /// order of the given leaves.
    ///
    /// The call stores a result for each visited node, and reuses the result for other leaves that descend from the
    /// node.
    pub(crate) fn those_above(
        &self,
        alloc: Global,
        leaves: &[Rev],
        revs: &[Rev],
    ) -> Result<Vec<Rev>, AllocError>
        requires tree { IsTree (tree_of self.now.items) }
        requires known { (r : RevId)
            → is_among r leaves.now ≡ true
            → has (tree_of self.now.items) r ≡ true }
        ensures { IfOk result (λ v. v.items ≡ filter (is_above_one (tree_of self.now.items) revs.now) leaves.now) }
    {
        let mut told = self.asked(alloc, revs)?;
        let mut above = Vec::with_capacity(alloc, leaves.len())?;
        for leaf in leaves {
            let Some(place) = self.place_in(leaf) else {
                unreachable!()
            };
            if self.is_above(&mut told, place) {
                above.push(*leaf)?;
            }
        }
        Ok(above)
    }

    /// Creates a table with one element for each node. The element is `Some(true)` if the node's revision is one of
    /// `revs`, and otherwise `None`.
    fn asked(&self, alloc: Global, revs: &[Rev]) -> Result<Vec<Option<bool>>, AllocError>
        ensures { IfOk result (λ v. IsTold self.now.items revs.now v.items) }
    {
        let mut told = vec![in alloc; None; self.all().len()]?;
        for rev in revs {
            if let Some(place) = self.place_in(rev) {
                told[place] = Some(true);
            }
        }
        Ok(told)
    }

    /// Whether one of the given revisions is the revision of the node at index `start` or an ancestor of that revision.
    /// For each visited node, the call stores the result in the table `told`.
    fn is_above(&self, told: &mut Vec<Option<bool>>, start: usize) -> bool
        requires within { start < length self.now.items }
        requires len { length told.old.items ≡ length self.now.items }
        requires tree { IsTree (tree_of self.now.items) }
        ensures above { (revs : List RevId)
            → IsTold self.now.items revs told.old.items
            → result ≡ is_above_at self.now.items revs start }
        ensures told { (revs : List RevId)
            → IsTold self.now.items revs told.old.items
            → IsTold self.now.items revs told.new.items }
        ensures len { length told.new.items ≡ length self.now.items }
    {
        let answer = self.first_told(told, start);
        self.tell(told, start, answer);
        answer
    }

    /// Follows the path from a node to its oldest ancestor, and returns the first stored result. Returns false if no
    /// node on the path has a stored result.
    fn first_told(&self, told: &[Option<bool>], start: usize) -> bool
        requires within { start < length self.now.items }
        requires len { length told.now ≡ length self.now.items }
        requires tree { IsTree (tree_of self.now.items) }
        ensures { (revs : List RevId)
            → IsTold self.now.items revs told.now
            → result ≡ is_above_at self.now.items revs start }
    {
        let mut at = start;
        'walk: loop {
            if let Some(answer) = told[at] {
                return answer;
            }
            match self.node_at(at).parent() {
                Some(parent) => at = parent,
                None => break 'walk,
            }
        }
        false
    }

    /// Follows the path from the node at index `start` to its oldest ancestor, and stores the result `answer` for each
    /// node. Stops at the first node that already has a result.
    fn tell(&self, told: &mut Vec<Option<bool>>, start: usize, answer: bool)
        requires within { start < length self.now.items }
        requires len { length told.old.items ≡ length self.now.items }
        requires tree { IsTree (tree_of self.now.items) }
        ensures told { (revs : List RevId)
            → IsTold self.now.items revs told.old.items
            → answer ≡ is_above_at self.now.items revs start
            → IsTold self.now.items revs told.new.items }
        ensures len { length told.new.items ≡ length self.now.items }
    {
        let mut at = start;
        'walk: loop {
            if told[at].is_some() {
                break 'walk;
            }
            told[at] = Some(answer);
            match self.node_at(at).parent() {
                Some(parent) => at = parent,
                None => break 'walk,
            }
        }
    }
}
