//! Requests for revisions of the documents in a window of the feed.
ghost use Rattle.std.specs.Prelude.{◌≡◌, IfOk};

use crate::copies::copied;
use doc_json::DocId;
use rev_core::Rev;
use rev_tree::Revs;
use std::alloc::{AllocError, Global};
use std::marker::Model;

/// The id of a document, and the revisions that are requested of this document. In a request (`Asked`), each document's
/// list of revisions is not empty and has no duplicates.
pub struct Wanted {
    id: DocId,
    revs: Revs,
}

// `Wanted` implements `Drop` by hand. With `#[derive(Drop)]`, each crate that owns a `Wanted` would have to prove the
// derived code again (docs/DECISIONS.md, "Letting values go").
impl Drop for Wanted {
    fn drop(self) {
        let Wanted { id: _, revs: _ } = self;
    }
}

impl Model for Wanted {
    ghost use Rattle.couch_base.specs.Messages.{WantedValue};

    ghost Value = { WantedValue };

    ghost view = { λ w. record { id = w.id; revs = w.revs } };
}

impl Wanted {
    ghost use Rattle.couch_base.specs.Messages.{WantedValue};

    /// Creates a request from its parts.
    pub(crate) fn new(id: DocId, revs: Revs) -> Wanted
        ensures { result ≡ record { id = id; revs = revs } }
    {
        Wanted { id, revs }
    }

    /// Returns the document's id.
    pub fn id(&self) -> &DocId
        ensures { result.now ≡ self.now.id }
    {
        &self.id
    }

    /// Returns the requested revisions.
    pub fn revs(&self) -> &[Rev]
        ensures { result.now ≡ self.now.revs }
    {
        self.revs.as_slice()
    }

    /// Copies the request.
    pub fn copy(&self, alloc: Global) -> Result<Wanted, AllocError>
        ensures copied { IfOk result (λ w. w ≡ self.now) }
    {
        let id = self.id.copy(alloc)?;
        let revs = self.revs.copy(alloc)?;
        Ok(Wanted { id, revs })
    }
}

/// A request for the window `(lo, hi]` of a feed. The request lists each requested document once, with the revisions
/// that are requested of this document.
pub struct Asked {
    lo: u64,
    hi: u64,
    docs: Vec<Wanted>,
}

// `Asked` implements `Drop` by hand. With `#[derive(Drop)]`, each crate that owns an `Asked` would have to prove the
// derived code again (docs/DECISIONS.md, "Letting values go").
impl Drop for Asked {
    fn drop(self) {
        let Asked {
            lo: _,
            hi: _,
            docs: _,
        } = self;
    }
}

impl Model for Asked {
    ghost use Rattle.couch_base.specs.Messages.{AskedValue};

    ghost Value = { AskedValue };

    ghost use Rattle.couch_base.specs.Messages.{IsAsked};

    ghost view = { λ a. record { lo = a.lo; hi = a.hi; docs = a.docs.items } };

    ghost invariant = { λ a. IsAsked (record { lo = a.lo; hi = a.hi; docs = a.docs.items }) };
}

impl Asked {
    ghost use Rattle.couch_base.specs.Messages.{AskedValue, IsAsked};

    /// Creates a request from parts that satisfy the invariant of requests.
    pub(crate) fn new(lo: u64, hi: u64, docs: Vec<Wanted>) -> Asked
        requires { IsAsked (record { lo = lo; hi = hi; docs = docs.items }) }
        ensures { result ≡ record { lo = lo; hi = hi; docs = docs.items } }
    {
        Asked { lo, hi, docs }
    }

    /// Returns the exclusive lower bound of the window's sequences.
    pub fn lo(&self) -> u64
        ensures value { result ≡ self.now.lo }
        ensures asked { IsAsked self.now }
    {
        self.lo
    }

    /// Returns the inclusive upper bound of the window's sequences.
    pub fn hi(&self) -> u64
        ensures value { result ≡ self.now.hi }
        ensures asked { IsAsked self.now }
    {
        self.hi
    }

    /// Returns the requested documents, in the order of the window's rows.
    pub fn docs(&self) -> &[Wanted]
        ensures value { result.now ≡ self.now.docs }
        ensures asked { IsAsked self.now }
    {
        &self.docs
    }

    /// Copies the request.
    pub fn copy(&self, alloc: Global) -> Result<Asked, AllocError>
        ensures copied { IfOk result (λ a. a ≡ self.now) }
        ensures asked { IsAsked self.now }
    {
        let docs = copied(alloc, &self.docs, |wanted| wanted.copy(alloc))?;
        Ok(Asked {
            lo: self.lo,
            hi: self.hi,
            docs,
        })
    }
}
