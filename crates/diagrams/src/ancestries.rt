//! Stores the ancestries of a document's leaves. A common part of two ancestries is stored once.
ghost use Rattle.std.specs.Prelude.{◌≡◌, ◌<◌, ◌≤◌, [], None, Option, Some, true, IfOk, IfSome, get_or, if◌then◌else◌, length, nat_lt, option_copied, slice_get, take};
ghost use Rattle.diagrams.specs.Branches.{AreLinked, count_of};

use indexmap::IndexMap;
use rev_core::Rev;
use std::alloc::{AllocError, Global};
use std::cmp::Ordering;

/// A revision of a stored ancestry.
#[derive(Clone, Copy, Debug, PartialEq, Eq, Hash)]
pub struct Point {
    /// The index of the revision's branch.
    branch: usize,
    /// The number of revisions of the ancestry, from the oldest revision to this revision.
    count: usize,
}

/// The start of a branch. No two branches have the same start.
#[derive(PartialEq, Eq, Hash, Drop)]
pub struct Start {
    /// The parent of the branch's first revision, if the parent is known.
    from: Option<Point>,
    /// The branch's first revision.
    rev: Rev,
}

/// A set of ancestries. A branch consists of consecutive revisions of an ancestry. An ancestry begins with the
/// ancestry of its branch's parent, and ends in the branch.
#[derive(Drop)]
pub struct Ancestries {
    /// The revisions of each branch after the first revision, oldest first.
    branches: IndexMap<Start, Vec<Rev>>,
    ghost linked: { AreLinked branches.entries },
}

/// Returns the number of revisions of the ancestry that ends with the revision `at`, or 0 if `at` is `None`.
fn count_of(at: Option<Point>) -> usize
    ensures { result ≡ count_of at }
{
    match at {
        Some(point) => point.count,
        None => 0,
    }
}

impl Ancestries {
    ghost use Rattle.std.specs.Ordering.{eq_by_cmp};
    ghost use Rattle.std.specs.Cmp.Lexicographic.{slice_cmp};
    ghost use Rattle.rev_core.specs.Rev.{RevId, rev_cmp};
    ghost use Rattle.diagrams.specs.Branches.{Extends, Follows, IsWithin, end_at, from_of, path_of};
    ghost use Rattle.diagrams.specs.Ancestries.{IsStored, Keeps, ancestor_in, ancestry_of, newest_generation, shared_count};

    /// Creates an empty set of ancestries.
    pub fn new(alloc: Global) -> Ancestries
        ensures { (at : Option Point) → ancestry_of result at ≡ [] }
    {
        Ancestries {
            branches: IndexMap::new(alloc),
        }
    }

    /// Adds an ancestry, which is given with the oldest revision first. Returns the newest revision of the ancestry, or
    /// `None` if the ancestry is empty.
    pub fn add(&mut self, alloc: Global, revs: &[Rev]) -> Result<Option<Point>, AllocError>
        ensures path { IfOk result (λ at. ancestry_of self.new at ≡ revs.now) }
        ensures stored { IfOk result (λ at. IsStored self.new at) }
        ensures keeps { Keeps self.old self.new }
    {
        let mut at = None;
        for i in 0..revs.len() {
            let branch = self.branch_after(alloc, at, &revs[i..])?;
            at = Some(Point {
                branch,
                count: i + 1,
            });
        }
        Ok(at)
    }

    /// Finds the branch that has the first of the revisions `revs` directly after the revision `at`. If there is no
    /// such branch, the call adds a branch with all revisions of `revs`.
    fn branch_after(
        &mut self,
        alloc: Global,
        at: Option<Point>,
        revs: &[Rev],
    ) -> Result<usize, AllocError>
        requires some { 0 < length revs.now }
        requires within { IfSome at (λ p. IsWithin self.old.branches.entries (length self.old.branches.entries) p) }
        ensures follows { IfOk result (λ i. (r : RevId) → slice_get revs.now 0 ≡ Some r → Follows self.new.branches.entries at r i) }
        ensures extends { Extends self.old.branches.entries self.new.branches.entries }
    {
        if let Some(branch) = self.same_branch(at, &revs[0]) {
            return Ok(branch);
        }
        let start = Start {
            from: at,
            rev: revs[0],
        };
        if let Some(branch) = self.branches.get_index_of(&start) {
            return Ok(branch);
        }
        let rest = Vec::from_slice(alloc, &revs[1..])?;
        let branch = self.branches.len();
        self.branches.insert(start, rest)?;
        Ok(branch)
    }

    /// Returns the branch of the revision `at` if this branch has the revision `rev` directly after the revision `at`.
    fn same_branch(&self, at: Option<Point>, rev: &Rev) -> Option<usize>
        ensures { IfSome result (λ i. Follows self.now.branches.entries at rev.now i) }
    {
        let Some(point) = at else {
            return None;
        };
        if self.has_at(point.branch, point.count, rev) {
            return Some(point.branch);
        }
        None
    }

    /// Whether a branch has the revision `rev` at an index of its ancestry.
    fn has_at(&self, branch: usize, index: usize, rev: &Rev) -> bool
        ensures { result ≡ true → slice_get (end_at self.now.branches.entries branch) index ≡ Some rev.now }
    {
        match self.rev_in(branch, index) {
            Some(there) => *there == *rev,
            None => false,
        }
    }

    /// Returns the parent of a branch's first revision.
    fn from(&self, branch: usize) -> Option<Point>
        ensures { result ≡ from_of self.now.branches.entries branch }
    {
        match self.branches.get_index(branch) {
            Some((start, _)) => start.from,
            None => None,
        }
    }

    /// Returns the revision with an index in the ancestry of a branch's newest revision, if the branch stores this
    /// revision. The oldest revision of an ancestry has the index 0.
    fn rev_in(&self, branch: usize, index: usize) -> Option<&Rev>
        ensures { option_copied result ≡
            (if nat_lt index (count_of (from_of self.now.branches.entries branch)) then None
            else slice_get (end_at self.now.branches.entries branch) index) }
    {
        let Some((start, rest)) = self.branches.get_index(branch) else {
            return None;
        };
        let before = count_of(start.from);
        if index < before {
            return None;
        }
        if index == before {
            return Some(&start.rev);
        }
        rest.as_slice().get(index - before - 1)
    }

    /// Returns the branch that stores the revision with an index in the ancestry of a branch's newest revision.
    fn owner(&self, branch: usize, index: usize) -> usize
        ensures stores { count_of (from_of self.now.branches.entries result) ≤ index }
        ensures same { slice_get (end_at self.now.branches.entries result) index
            ≡ slice_get (end_at self.now.branches.entries branch) index }
    {
        let mut owner = branch;
        while let Some(parent) = self.from(owner) {
            if parent.count <= index {
                return owner;
            }
            owner = parent.branch;
        }
        owner
    }

    /// Returns the revision with an index in an ancestry. The newest revision of the ancestry is `last`, and the oldest
    /// revision has the index 0.
    fn rev(&self, last: Option<Point>, index: usize) -> Option<&Rev>
        ensures { option_copied result ≡ slice_get (ancestry_of self.now last) index }
    {
        let Some(point) = last else {
            return None;
        };
        if index >= point.count {
            return None;
        }
        self.rev_in(self.owner(point.branch, index), index)
    }

    /// Returns the revision with the given generation from an ancestry. The newest revision of the ancestry is `last`.
    /// Each generation of the ancestry must be one above the previous revision's generation. In any other ancestry, the
    /// call counts generations from the oldest revision.
    pub fn ancestor(&self, last: Option<Point>, generation: u32) -> Option<&Rev>
        ensures { option_copied result ≡ ancestor_in (ancestry_of self.now last) generation }
    {
        let Some(first) = self.rev(last, 0) else {
            return None;
        };
        let oldest = first.generation();
        if generation < oldest {
            return None;
        }
        self.rev(last, (generation - oldest) as usize)
    }

    /// Returns the number of revisions of the ancestry with the newest revision `last`.
    fn count(&self, last: Point) -> usize
        ensures { result ≡ length (ancestry_of self.now (Some last)) }
    {
        match self.branches.get_index(last.branch) {
            Some((start, rest)) => {
                let before = count_of(start.from);
                let count = before.saturating_add(1).saturating_add(rest.len());
                count.min(last.count)
            }
            None => 0,
        }
    }

    /// Returns a number of revisions that two ancestries share, beginning with the oldest revision: the number of common
    /// revisions up to the newest branch that has revisions of both ancestries. In practice the ancestries share no
    /// further revision, because `add` looks for a stored revision before it adds a branch.
    fn joined(&self, one: Point, other: Point) -> usize
        ensures same { take result (ancestry_of self.now (Some one)) ≡ take result (ancestry_of self.now (Some other)) }
        ensures one { result ≤ length (ancestry_of self.now (Some one)) }
        ensures other { result ≤ length (ancestry_of self.now (Some other)) }
    {
        let mut count = self.count(one).min(self.count(other));
        let mut one = one.branch;
        let mut other = other.branch;
        while one != other {
            let Some(parent) = self.from(one.max(other)) else {
                return 0;
            };
            count = count.min(parent.count);
            if one > other {
                one = parent.branch;
            } else {
                other = parent.branch;
            }
        }
        count
    }

    /// Returns the number of revisions that two ancestries share, beginning with the oldest revision.
    pub fn shared(&self, one: Option<Point>, other: Option<Point>) -> usize
        ensures { result ≡ shared_count (ancestry_of self.now one) (ancestry_of self.now other) }
    {
        match (one, other) {
            (Some(one), Some(other)) => self.shared_by(one, other),
            _ => 0,
        }
    }

    /// Returns the number of revisions that two ancestries share, beginning with the oldest revision.
    fn shared_by(&self, one: Point, other: Point) -> usize
        ensures { result ≡ shared_count (ancestry_of self.now (Some one)) (ancestry_of self.now (Some other)) }
    {
        let end = self.count(one).min(self.count(other));
        for index in self.joined(one, other)..end {
            if !self.is_shared(one, other, index) {
                return index;
            }
        }
        end
    }

    /// Whether two ancestries have the same revision at an index.
    fn is_shared(&self, one: Point, other: Point, index: usize) -> bool
        requires one { index < length (ancestry_of self.now (Some one)) }
        requires other { index < length (ancestry_of self.now (Some other)) }
        ensures { (r : RevId) → result ≡ eq_by_cmp rev_cmp
            (get_or (ancestry_of self.now (Some one)) index r) (get_or (ancestry_of self.now (Some other)) index r) }
    {
        match (self.rev(Some(one), index), self.rev(Some(other), index)) {
            (Some(one), Some(other)) => *one == *other,
            _ => false,
        }
    }

    /// Returns the generation of the last revision that two ancestries share, or 0 if they share no revision.
    pub fn last_shared(&self, one: Option<Point>, other: Option<Point>) -> u32
        ensures { let path = ancestry_of self.now one in
            result ≡ newest_generation (take (shared_count path (ancestry_of self.now other)) path) }
    {
        let count = self.shared(one, other);
        if count == 0 {
            return 0;
        }
        match self.rev(one, count - 1) {
            Some(rev) => rev.generation(),
            None => 0,
        }
    }

    /// Compares two ancestries revision by revision, beginning with the oldest revisions.
    pub fn order(&self, one: Option<Point>, other: Option<Point>) -> Ordering
        ensures { result ≡ slice_cmp rev_cmp (ancestry_of self.now one) (ancestry_of self.now other) }
    {
        if one == other {
            return Ordering::Equal;
        }
        let count = self.shared(one, other);
        self.rev(one, count).cmp(&self.rev(other, count))
    }
}
