//! Lists of revisions.
ghost use Rattle.std.specs.Prelude.{◌≡◌, ◌∷◌, [], IfOk};

use rev_core::Rev;
use std::alloc::{AllocError, Global};
use std::convert::From;
use std::marker::Model;
use std::ops::DerefSlice;
use std::slice;

/// A list of revisions. A list of one revision stores the revision inline, without allocating.
///
/// Most lists have one revision, because most documents have one leaf and most requests name one revision.
#[derive(Debug)]
pub struct Revs {
    kept: Kept,
}

// `Drop` is implemented by hand, because derived code would be proved again in each crate that owns a value of this
// type (docs/DECISIONS.md, "Letting values go").
impl Drop for Revs {
    fn drop(self) {
        let Revs { kept: _ } = self;
    }
}

/// The two forms in which a list of revisions is stored.
#[derive(Debug, Drop)]
enum Kept {
    One(Rev),
    Many(Vec<Rev>),
}

impl Model for Revs {
    ghost use Rattle.std.specs.Prelude.{List};
    ghost use Rattle.rev_core.specs.Rev.{RevId};
    ghost use Rattle.rev_tree.specs.Kept.{kept_revs};

    ghost Value = { List RevId };

    ghost view = { λ r. kept_revs r.kept };
}

impl Revs {
    /// Creates an empty list.
    pub fn none(alloc: Global) -> Revs
        ensures { result ≡ [] }
    {
        Revs::from(Vec::new(alloc))
    }

    /// Creates a list of one revision.
    pub fn one(rev: Rev) -> Revs
        ensures { result ≡ rev ∷ [] }
    {
        Revs {
            kept: Kept::One(rev),
        }
    }

    /// Copies a slice of revisions.
    pub fn from_slice(alloc: Global, revs: &[Rev]) -> Result<Revs, AllocError>
        ensures { IfOk result (λ r. r ≡ revs.now) }
    {
        if revs.len() == 1 {
            return Ok(Revs::one(revs[0]));
        }
        Ok(Revs::from(Vec::from_slice(alloc, revs)?))
    }

    /// Returns the revisions.
    pub fn as_slice(&self) -> &[Rev]
        ensures { result.now ≡ self.now }
    {
        match &self.kept {
            Kept::One(rev) => slice::from_ref(rev),
            Kept::Many(revs) => revs,
        }
    }

    /// Copies the list.
    pub fn copy(&self, alloc: Global) -> Result<Revs, AllocError>
        ensures { IfOk result (λ r. r ≡ self.now) }
    {
        Revs::from_slice(alloc, self.as_slice())
    }
}

impl From<Vec<Rev>> for Revs {
    ghost from_gives = { λ listed revs. revs ≡ listed.items };

    fn from(listed: Vec<Rev>) -> Revs {
        Revs {
            kept: Kept::Many(listed),
        }
    }
}

impl DerefSlice for Revs {
    type Elem = Rev;

    ghost deref_gives = { λ revs slice. slice ≡ revs };

    fn deref(&self) -> &[Rev] {
        self.as_slice()
    }
}
