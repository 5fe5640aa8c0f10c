//! Models a revision tree by three lists: the merged ancestries, the contents and the origins.
//!
//! `PlainTree` is slower and simpler than `Tree`. A lookup scans one of the three lists without an index, and uses the
//! first matching entry.

use rev_core::{Ancestry, Rev};
use rev_tree::{Merged, Origin};
use std::alloc::{AllocError, Global};
use std::cmp::Ordering;

/// The result of a merge. A merge fails with `(child, known, given)` if the revision `child` has the parent `known` in
/// the tree and another parent `given` in the ancestry.
pub(crate) type PlainAnswer = Result<Merged, (Rev, Rev, Rev)>;

/// A plain revision tree: the merged ancestries, and the contents and origins of revisions.
#[derive(Drop)]
pub(crate) struct PlainTree {
    ancestries: Vec<Ancestry>,
    contents: Vec<(Rev, bool, u8)>,
    origins: Vec<(Rev, Origin)>,
}

impl PlainTree {
    /// Creates an empty tree.
    pub(crate) fn new(alloc: Global) -> PlainTree {
        PlainTree {
            ancestries: Vec::new(alloc),
            contents: Vec::new(alloc),
            origins: Vec::new(alloc),
        }
    }

    /// Returns the number of revisions.
    pub(crate) fn rev_count(&self) -> usize {
        self.origins.as_slice().len()
    }

    /// Returns the origin of a revision: the argument `origin` of the merge that added the revision.
    pub(crate) fn origin(&self, rev: Rev) -> Option<Origin> {
        for entry in &self.origins {
            if entry.0 == rev {
                return Some(entry.1);
            }
        }
        None
    }

    /// Returns the content of a revision: the deleted flag, and a body of one byte.
    pub(crate) fn content(&self, rev: Rev) -> Option<(bool, u8)> {
        for entry in &self.contents {
            if entry.0 == rev {
                return Some((entry.1, entry.2));
            }
        }
        None
    }

    /// Returns the parent of a revision.
    pub(crate) fn parent_of(&self, rev: Rev) -> Option<Rev> {
        for ancestry in &self.ancestries {
            if let Some(parent) = ancestry.parent_of(rev) {
                return Some(parent);
            }
        }
        None
    }

    /// Whether a revision is in the tree and has no child.
    pub(crate) fn is_leaf(&self, rev: Rev) -> bool {
        for ancestry in &self.ancestries {
            if ancestry.contains(rev) && ancestry.head() != rev {
                return false;
            }
        }
        self.origin(rev).is_some()
    }

    /// Compares two leaves.
    fn compare(&self, a: Rev, b: Rev) -> Ordering {
        let deleted = |rev| self.content(rev).is_some_and(|content| content.0);
        deleted(a).cmp(&deleted(b)).then(b.cmp(&a))
    }

    /// Returns the leaves, winner first. The call inserts each leaf before the first listed leaf that loses against the
    /// inserted leaf.
    pub(crate) fn leaves(&self, alloc: Global) -> Result<Vec<Rev>, AllocError> {
        let mut leaves: Vec<Rev> = Vec::new(alloc);
        for entry in &self.origins {
            if self.is_leaf(entry.0) {
                let later = leaves
                    .iter()
                    .position(|leaf| self.compare(entry.0, *leaf) == Ordering::Less);
                let all = leaves.as_slice().len();
                leaves.insert(later.unwrap_or(all).min(all), entry.0)?;
            }
        }
        Ok(leaves)
    }

    /// Returns a revision and its ancestors. A revision of generation n has at most n - 1 ancestors.
    pub(crate) fn ancestry(&self, alloc: Global, rev: Rev) -> Result<Vec<Rev>, AllocError> {
        let mut walk = Vec::new(alloc);
        let mut at = Some(rev);
        for _ in 0..rev.generation() {
            if let Some(known) = at {
                walk.push(known)?;
                at = self.parent_of(known);
            }
        }
        Ok(walk)
    }

    /// Returns each given leaf whose ancestry has one of the given revisions.
    pub(crate) fn above(
        &self,
        alloc: Global,
        leaves: &[Rev],
        revs: &[Rev],
    ) -> Result<Vec<Rev>, AllocError> {
        let mut above = Vec::new(alloc);
        for leaf in leaves {
            let walk = self.ancestry(alloc, *leaf)?;
            if revs.iter().any(|rev| walk.contains(rev)) {
                above.push(*leaf)?;
            }
        }
        Ok(above)
    }

    /// Returns those of the given revisions that are not in the tree.
    pub(crate) fn missing(&self, alloc: Global, revs: &[Rev]) -> Result<Vec<Rev>, AllocError> {
        let mut missing = Vec::new(alloc);
        for rev in revs {
            if self.origin(*rev).is_none() {
                missing.push(*rev)?;
            }
        }
        Ok(missing)
    }

    /// Finds the newest revision `child` whose parent `known` in the tree differs from its parent `given` in the
    /// ancestry. Returns `(child, known, given)`, or `None` if there is no such revision.
    fn contradiction(&self, revs: &[Rev]) -> Option<(Rev, Rev, Rev)> {
        for pair in revs.windows(2) {
            if let [child, given] = pair {
                if let Some(known) = self.parent_of(*child) {
                    if known != *given {
                        return Some((*child, known, *given));
                    }
                }
            }
        }
        None
    }

    /// Whether the tree has all revisions and parent links of an ancestry, and a content for the ancestry's newest
    /// revision. The ancestry must not contradict the tree.
    fn is_same(&self, ancestry: &Ancestry) -> bool {
        let revs = ancestry.revs();
        revs.iter().all(|rev| self.origin(*rev).is_some())
            && revs.iter().all(|rev| ancestry.parent_of(*rev).is_none()
                || self.parent_of(*rev).is_some())
            && self.content(ancestry.head()).is_some()
    }

    /// Merges an ancestry into the tree, given the content of the ancestry's head and the origin of new revisions.
    pub(crate) fn merge(
        &mut self,
        alloc: Global,
        ancestry: &Ancestry,
        content: (bool, u8),
        origin: Origin,
    ) -> Result<PlainAnswer, AllocError> {
        if let Some(told) = self.contradiction(ancestry.revs()) {
            return Ok(Err(told));
        }
        if self.is_same(ancestry) {
            return Ok(Ok(Merged::Same));
        }
        for rev in ancestry.revs() {
            if self.origin(*rev).is_none() {
                self.origins.push((*rev, origin))?;
            }
        }
        if self.content(ancestry.head()).is_none() {
            self.contents.push((ancestry.head(), content.0, content.1))?;
        }
        self.ancestries.push(ancestry.copy(alloc)?)?;
        Ok(Ok(Merged::Changed))
    }
}
