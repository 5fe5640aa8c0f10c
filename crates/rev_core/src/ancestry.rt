//! Ancestries.
ghost use Rattle.std.specs.Prelude.{◌≡◌, Some, IfOk};

use crate::fault::RevFault;
use crate::rev::Rev;
use crate::sig::Sig;
use std::alloc::{AllocError, Global};
use std::marker::Model;

/// A revision and its known ancestors, newest first. The generations fall by one from each revision to the next.
///
/// The oldest revision of an ancestry may have a generation above 1, because older ancestors may be unknown.
#[derive(Debug, Drop)]
pub struct Ancestry {
    revs: Vec<Rev>,
}

impl Model for Ancestry {
    ghost use Rattle.std.specs.Prelude.{List};
    ghost use Rattle.rev_core.specs.Rev.{RevId};

    ghost Value = { List RevId };

    ghost use Rattle.rev_core.specs.Ancestry.{IsAncestry};

    ghost view = { λ a. a.revs.items };

    ghost invariant = { λ a. IsAncestry a.revs.items };
}

impl Ancestry {
    ghost use Rattle.std.specs.FinMap.{find};
    ghost use Rattle.rev_core.specs.Rev.{rev_cmp};
    ghost use Rattle.rev_core.specs.Ancestry.{IsAncestry, ancestry_read, head_of, edges_of, is_among};
    ghost use Rattle.rev_core.specs.Answers.{GivesUnlessMemory};

    /// Creates an ancestry from the newest generation `start` and the signatures, newest first.
    ///
    /// # Errors
    ///
    /// - `NoIds`: the list `ids` is empty.
    /// - `StartTooSmall`: the list `ids` has more than `start` signatures.
    /// - `Memory`: an allocation failed.
    pub fn from_parts(alloc: Global, start: u32, ids: &[Sig]) -> Result<Ancestry, RevFault>
        ensures { GivesUnlessMemory result (ancestry_read start ids.now) }
    {
        if ids.is_empty() {
            return Err(RevFault::NoIds);
        }
        if ids.len() > start as usize {
            return Err(RevFault::StartTooSmall);
        }
        let mut revs = Vec::with_capacity(alloc, ids.len())?;
        let mut generation = start;
        for id in ids {
            revs.push(Rev::new(generation, *id))?;
            generation -= 1;
        }
        Ok(Ancestry { revs })
    }

    /// Wraps a list of revisions that the caller knows to be an ancestry.
    pub fn from_revs(revs: Vec<Rev>) -> Ancestry
        requires { IsAncestry revs.items }
        ensures { result ≡ revs.items }
    {
        Ancestry { revs }
    }

    /// Returns the revisions of the ancestry, newest first.
    pub fn revs(&self) -> &[Rev]
        ensures all { result.now ≡ self.now }
        ensures ancestry { IsAncestry self.now }
    {
        &self.revs
    }

    /// Returns the newest revision.
    pub fn head(&self) -> Rev
        ensures { head_of self.now ≡ Some result }
    {
        self.revs[0]
    }

    /// Whether the ancestry contains a given revision.
    pub fn contains(&self, rev: Rev) -> bool
        ensures { result ≡ is_among rev self.now }
    {
        self.revs.contains(&rev)
    }

    /// Returns the parent of a revision, or `None` if the revision is the oldest or is not in the ancestry.
    pub fn parent_of(&self, rev: Rev) -> Option<Rev>
        ensures { result ≡ find rev_cmp rev (edges_of self.now) }
    {
        for i in 1..self.revs.len() {
            if self.revs[i - 1] == rev {
                return Some(self.revs[i]);
            }
        }
        None
    }

    /// Copies the ancestry.
    pub fn copy(&self, alloc: Global) -> Result<Ancestry, AllocError>
        ensures copied { IfOk result (λ a. a ≡ self.now) }
        ensures ancestry { IsAncestry self.now }
    {
        let revs = Vec::from_slice(alloc, &self.revs)?;
        Ok(Ancestry { revs })
    }
}
