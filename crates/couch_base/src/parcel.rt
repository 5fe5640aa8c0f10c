//! Fetched documents.
ghost use Rattle.std.specs.Prelude.{◌≡◌, ◌≤◌, List, IfOk, IfSome, OnOk, length};
ghost use Rattle.doc_json.specs.Document.{Document};
ghost use Rattle.couch_base.specs.Readied.{AreMade, IsMadeOf};

use crate::asked::Asked;
use crate::copies::copied;
use crate::prepared_tree::PreparedTree;
use doc_json::{Doc, DocId};
use rev_core::Rev;
use std::alloc::{AllocError, Global};
use std::marker::Model;

/// A parcel: a request for the window `(lo, hi]`, the documents fetched for this request, and the requested revisions
/// that are gone.
///
/// Each requested revision of a document is gone, or in the ancestry of a fetched document with the same id. The
/// ancestry of each fetched document contains a requested revision. No two documents have both the same id and the same
/// newest revision.
pub struct Parcel {
    asked: Asked,
    docs: Vec<Doc>,
    gone: Vec<(DocId, Rev)>,
    // Prepared trees are stored in a separate list to keep documents small, because few callers prepare a parcel.
    made: Vec<Option<PreparedTree>>,
}

// `Parcel` implements `Drop` by hand. With `#[derive(Drop)]`, each crate that owns a `Parcel` would have to prove the
// derived code again (docs/DECISIONS.md, "Letting values go").
impl Drop for Parcel {
    fn drop(self) {
        let Parcel {
            asked: _,
            docs: _,
            gone: _,
            made: _,
        } = self;
    }
}

impl Model for Parcel {
    ghost use Rattle.couch_base.specs.Messages.{ParcelValue};

    ghost Value = { ParcelValue };

    ghost use Rattle.couch_base.specs.Messages.{IsParcel};
    ghost use Rattle.couch_base.specs.Readied.{AreMade};

    ghost view = { λ p. record { asked = p.asked; docs = p.docs.items; gone = p.gone.items } };

    ghost invariant = { λ p. IsParcel (record { asked = p.asked; docs = p.docs.items; gone = p.gone.items })
        × AreMade p.docs.items p.made.items };
}

impl Parcel {
    ghost use Rattle.couch_base.specs.Messages.{ParcelValue, IsParcel};

    /// Creates a parcel from parts that satisfy the invariant of parcels.
    pub(crate) fn new(
        alloc: Global,
        asked: Asked,
        docs: Vec<Doc>,
        gone: Vec<(DocId, Rev)>,
    ) -> Parcel
        requires { IsParcel (record { asked = asked; docs = docs.items; gone = gone.items }) }
        ensures { result ≡ record { asked = asked; docs = docs.items; gone = gone.items } }
    {
        Parcel {
            asked,
            docs,
            gone,
            made: Vec::new(alloc),
        }
    }

    /// Creates a parcel from parts that satisfy the invariant of parcels. The item `made[i]` is the prepared tree of
    /// `docs[i]`, if there is one.
    pub(crate) fn with_prepared(
        asked: Asked,
        docs: Vec<Doc>,
        gone: Vec<(DocId, Rev)>,
        made: Vec<Option<PreparedTree>>,
    ) -> Parcel
        requires parcel { IsParcel (record { asked = asked; docs = docs.items; gone = gone.items }) }
        requires made { AreMade docs.items made.items }
        ensures { result ≡ record { asked = asked; docs = docs.items; gone = gone.items } }
    {
        Parcel {
            asked,
            docs,
            gone,
            made,
        }
    }

    /// Returns the exclusive lower bound of the window's sequences.
    pub fn lo(&self) -> u64
        ensures value { result ≡ self.now.asked.lo }
        ensures parcel { IsParcel self.now }
    {
        self.asked.lo()
    }

    /// Returns the inclusive upper bound of the window's sequences.
    pub fn hi(&self) -> u64
        ensures value { result ≡ self.now.asked.hi }
        ensures parcel { IsParcel self.now }
    {
        self.asked.hi()
    }

    /// Returns the request.
    pub fn asked(&self) -> &Asked
        ensures value { result.now ≡ self.now.asked }
        ensures parcel { IsParcel self.now }
    {
        &self.asked
    }

    /// Returns the documents in the order of the request. Fetched documents with the same id are in the tree's order of
    /// leaves: the winner is first.
    pub fn docs(&self) -> &[Doc]
        ensures value { result.now ≡ self.now.docs }
        ensures parcel { IsParcel self.now }
    {
        &self.docs
    }

    /// Returns the gone revisions: those requested revisions that their document's tree does not have.
    pub fn gone(&self) -> &[(DocId, Rev)]
        ensures value { result.now ≡ self.now.gone }
        ensures parcel { IsParcel self.now }
    {
        &self.gone
    }

    /// Splits the parcel into its parts: the request, the documents, the gone revisions and the prepared trees. The
    /// prepared trees are in the order of the documents, and may be fewer than the documents.
    pub fn into_parts(
        self,
    ) -> (
        Asked,
        Vec<Doc>,
        Vec<(DocId, Rev)>,
        Vec<Option<PreparedTree>>,
    )
        ensures parts { self ≡ record { asked = result.0; docs = result.1.items; gone = result.2.items } }
        ensures parcel { IsParcel self }
        ensures made { AreMade result.1.items result.3.items }
    {
        let Parcel {
            asked,
            docs,
            gone,
            made,
        } = self;
        (asked, docs, gone, made)
    }

    /// Builds a tree for each document that has no prepared tree: the tree that the document would have if it were new at
    /// the target. For contracts, prepared trees are not part of a parcel, so `prepare` does not change the parcel
    /// (clause `same`). `Database::put_prepared` can store the prepared trees.
    pub fn prepare(&mut self, alloc: Global) -> Result<(), AllocError>
        ensures same { self.new ≡ self.old }
    {
        make_missing(alloc, &self.docs, &mut self.made)
    }

    /// Copies the parcel.
    pub fn copy(&self, alloc: Global) -> Result<Parcel, AllocError>
        ensures copied { IfOk result (λ p. p ≡ self.now) }
        ensures parcel { IsParcel self.now }
    {
        let asked = self.asked.copy(alloc)?;
        let docs = copied(alloc, &self.docs, |doc| doc.copy(alloc))?;
        let gone = copied(alloc, &self.gone, |(id, rev)| Ok((id.copy(alloc)?, *rev)))?;
        Ok(Parcel::new(alloc, asked, docs, gone))
    }
}

/// Builds the trees that documents would have if they were new at the target. The item `made[i]` is the tree of
/// `docs[i]`, if there is one, and the call builds the others. The call builds no tree for a document whose predecessor
/// in the list has the same id. Such a document is not new at the target once the predecessor is stored.
fn make_missing(
    alloc: Global,
    docs: &[Doc],
    made: &mut Vec<Option<PreparedTree>>,
) -> Result<(), AllocError>
    requires { AreMade docs.now made.old.items }
    ensures { AreMade docs.now made.new.items }
{
    pad(docs.len(), made)?;
    for i in 0..docs.len() {
        if i == 0 || docs[i - 1].id() != docs[i].id() {
            make_if_none(alloc, &docs[i], &mut made[i])?;
        }
    }
    Ok(())
}

/// Appends `None` to a list until the list has at least `count` items.
fn pad(count: usize, made: &mut Vec<Option<PreparedTree>>) -> Result<(), AllocError>
    ensures count { OnOk result (count ≤ length made.new.items) }
    ensures made { (docs : List Document) → AreMade docs made.old.items → AreMade docs made.new.items }
{
    for i in made.len()..count {
        made.push(None)?;
    }
    Ok(())
}

/// Builds the tree that a document would have if it were new at the target, unless the tree is there already.
fn make_if_none(alloc: Global, doc: &Doc, made: &mut Option<PreparedTree>) -> Result<(), AllocError>
    requires { IfSome made.old (IsMadeOf doc.now) }
    ensures { IfSome made.new (IsMadeOf doc.now) }
{
    if made.is_none() {
        *made = Some(PreparedTree::of(alloc, doc)?);
    }
    Ok(())
}
