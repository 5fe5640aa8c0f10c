//! Represents a revision tree by a mask of eighteen bits: one bit for each revision of generation 1 to 6 with signature
//! a, b or c.
//!
//! The revision at index `p` has generation `p / 3 + 1` and signature `p % 3`, so indices and revisions have the same
//! order. This model of revision trees follows docs/PROFILE.md, "Merging" and "Leaves and the winner". Each set of
//! revisions is a bit mask.

use std::alloc::{AllocError, Global};
use std::process::Abort;

/// The number of possible revisions.
pub(crate) const PLACES: usize = 18;

/// Returns the bit of the revision at an index.
pub(crate) fn bit(place: usize) -> u32 {
    1 << (place % PLACES)
}

/// Returns a mask with the bits of the given indices.
pub(crate) fn mask_of(places: &[usize]) -> u32 {
    let mut mask = 0;
    for place in places {
        mask |= bit(*place);
    }
    mask
}

/// Returns the index of the lowest bit that is set in a mask.
fn lowest(mask: u32) -> usize {
    for place in 0..PLACES {
        if mask & bit(place) != 0 {
            return place;
        }
    }
    0
}

/// The result of a merge.
#[derive(Clone, Copy, Debug, PartialEq, Eq)]
pub(crate) enum Answer {
    Changed,
    Same,
    Contradiction {
        child: usize,
        known: usize,
        given: usize,
    },
}

/// The set of revisions of the tree, with the parent, the content and the origin of each revision.
#[derive(Clone, Copy)]
pub(crate) struct Reference {
    revisions: u32,
    parents: [u32; PLACES],
    contents: [Option<(bool, u8)>; PLACES],
    origins: [Option<u64>; PLACES],
}

impl Reference {
    /// Creates an empty tree.
    pub(crate) fn new() -> Reference {
        Reference {
            revisions: 0,
            parents: [0; PLACES],
            contents: [None; PLACES],
            origins: [None; PLACES],
        }
    }

    /// Whether a revision is in the tree.
    pub(crate) fn has(&self, place: usize) -> bool {
        self.revisions & bit(place) != 0
    }

    /// Returns the number of revisions.
    pub(crate) fn count(&self) -> usize {
        let mut count = 0usize;
        for place in 0..PLACES {
            if self.has(place) {
                count = count.saturating_add(1);
            }
        }
        count
    }

    /// Returns the content of a revision.
    pub(crate) fn content(&self, place: usize) -> Option<(bool, u8)> {
        self.contents[place % PLACES]
    }

    /// Returns the origin of a revision: the argument `origin` of the merge that added the revision.
    pub(crate) fn origin(&self, place: usize) -> Option<u64> {
        self.origins[place % PLACES]
    }

    /// Finds the newest revision `child` whose parent `known` in the tree differs from its parent `given` in the
    /// ancestry. Returns a `Contradiction`, or `None` if there is no such revision.
    pub(crate) fn contradiction(&self, revs: &[usize]) -> Option<Answer> {
        for pair in revs.windows(2) {
            if let [child, given] = pair {
                let others = self.parents[*child % PLACES] & !bit(*given);
                if others != 0 {
                    return Some(Answer::Contradiction {
                        child: *child,
                        known: lowest(others),
                        given: *given,
                    });
                }
            }
        }
        None
    }

    /// Merges an ancestry, newest first, and a content of the ancestry's head into the tree.
    pub(crate) fn merge(&mut self, revs: &[usize], content: (bool, u8), origin: u64) -> Answer {
        if let Some(answer) = self.contradiction(revs) {
            return answer;
        }
        let before = *self;
        for place in revs {
            self.revisions |= bit(*place);
            let at = *place % PLACES;
            self.origins[at] = self.origins[at].or(Some(origin));
        }
        for pair in revs.windows(2) {
            if let [child, given] = pair {
                self.parents[*child % PLACES] |= bit(*given);
            }
        }
        if let Some(head) = revs.first() {
            let at = *head % PLACES;
            self.contents[at] = self.contents[at].or(Some(content));
        }
        if self.is_as(&before) {
            Answer::Same
        } else {
            Answer::Changed
        }
    }

    /// Whether two trees, both given as values of the type `Reference`, have the same revisions, parents and contents.
    fn is_as(&self, other: &Reference) -> bool {
        self.revisions == other.revisions
            && self.parents == other.parents
            && self.contents == other.contents
    }

    /// Returns a mask with a bit for each revision of the tree.
    pub(crate) fn revisions(&self) -> u32 {
        self.revisions
    }

    /// Returns a mask with a bit for each revision of the tree that is not a parent.
    pub(crate) fn leaf_mask(&self) -> u32 {
        let mut parents = 0;
        for mask in self.parents {
            parents |= mask;
        }
        self.revisions & !parents
    }

    /// Whether a revision is in the tree and has no child.
    pub(crate) fn is_leaf(&self, place: usize) -> bool {
        self.leaf_mask() & bit(place) != 0
    }

    /// Returns the live leaves by decreasing index, followed by the deleted leaves by decreasing index.
    pub(crate) fn leaves(&self, alloc: Global) -> Result<Vec<usize>, AllocError> {
        let mut leaves = Vec::new(alloc);
        for deleted in [false, true] {
            for back in 0..PLACES {
                let place = PLACES - 1 - back;
                if self.is_leaf(place)
                    && self.content(place).map(|content| content.0) == Some(deleted)
                {
                    leaves.push(place)?;
                }
            }
        }
        Ok(leaves)
    }

    /// Returns a revision and its known ancestors, newest first.
    pub(crate) fn ancestry(&self, alloc: Global, place: usize) -> Result<Vec<usize>, AllocError> {
        let mut walk = Vec::new(alloc);
        let mut at = place;
        for _ in 0..PLACES {
            walk.push(at)?;
            let parents = self.parents[at % PLACES];
            if parents == 0 {
                break;
            }
            at = lowest(parents);
        }
        Ok(walk)
    }

    /// Returns a mask with a bit for each revision of an ancestry.
    pub(crate) fn walk_mask(&self, rt: &impl Abort, alloc: Global, place: usize) -> u32 {
        mask_of(&self.ancestry(alloc, place).expect(rt, "memory"))
    }

    /// Returns the leaves whose ancestries have one of the given revisions, winner first.
    pub(crate) fn leaves_above(&self, rt: &impl Abort, alloc: Global, revs: u32) -> Vec<usize> {
        let mut above = Vec::new(alloc);
        for leaf in &self.leaves(alloc).expect(rt, "memory") {
            if self.walk_mask(rt, alloc, *leaf) & revs != 0 {
                above.push(*leaf).expect(rt, "memory");
            }
        }
        above
    }

    /// Returns those of the given revisions that are not in the tree.
    pub(crate) fn missing(&self, rt: &impl Abort, alloc: Global, revs: &[usize]) -> Vec<usize> {
        let mut missing = Vec::new(alloc);
        for place in revs {
            if !self.has(*place) {
                missing.push(*place).expect(rt, "memory");
            }
        }
        missing
    }
}
