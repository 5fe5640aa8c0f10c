//! Documents.
ghost use Rattle.doc_json.specs.Document.{Document, IsDocument};

use crate::body::Body;
use crate::doc_id::DocId;
use rev_core::Ancestry;
use std::alloc::{AllocError, Global};
use std::marker::Model;

/// A document: its id, its ancestry, whether it is deleted, and its body.
#[derive(Debug, Drop)]
pub struct Doc {
    id: DocId,
    ancestry: Ancestry,
    deleted: bool,
    body: Body,
}

impl Model for Doc {
    ghost Value = { Document };

    ghost view = { λ d. record {
      id = d.id;
      ancestry = d.ancestry;
      deleted = d.deleted;
      body = d.body;
    } };

    ghost invariant = { λ d. IsDocument (record {
      id = d.id;
      ancestry = d.ancestry;
      deleted = d.deleted;
      body = d.body;
    }) };
}

impl Doc {
    ghost use Rattle.std.specs.Prelude.{◌≡◌, IfOk};

    /// Creates a document from its parts.
    pub fn new(id: DocId, ancestry: Ancestry, deleted: bool, body: Body) -> Doc
        ensures parts { result
            ≡ record { id = id; ancestry = ancestry; deleted = deleted; body = body } }
        ensures document { IsDocument result }
    {
        let _id = id.text();
        let _ancestry = ancestry.revs();
        let _body = body.text();
        Doc {
            id,
            ancestry,
            deleted,
            body,
        }
    }

    /// Returns the id.
    pub fn id(&self) -> &DocId
        ensures part { result.now ≡ self.now.id }
        ensures document { IsDocument self.now }
    {
        &self.id
    }

    /// Returns the ancestry of the document's revision, newest revision first.
    pub fn ancestry(&self) -> &Ancestry
        ensures part { result.now ≡ self.now.ancestry }
        ensures document { IsDocument self.now }
    {
        &self.ancestry
    }

    /// Whether the revision deletes the document.
    pub fn deleted(&self) -> bool
        ensures part { result ≡ self.now.deleted }
        ensures document { IsDocument self.now }
    {
        self.deleted
    }

    /// Returns the body.
    pub fn body(&self) -> &Body
        ensures part { result.now ≡ self.now.body }
        ensures document { IsDocument self.now }
    {
        &self.body
    }

    /// Splits the document into id, ancestry, deleted flag and body.
    pub fn into_parts(self) -> (DocId, Ancestry, bool, Body)
        ensures parts { self ≡ record {
          id = result.0;
          ancestry = result.1;
          deleted = result.2;
          body = result.3;
        } }
        ensures document { IsDocument self }
    {
        (self.id, self.ancestry, self.deleted, self.body)
    }

    /// Copies the document.
    pub fn copy(&self, alloc: Global) -> Result<Doc, AllocError>
        ensures copied { IfOk result (λ d. d ≡ self.now) }
    {
        let id = self.id.copy(alloc)?;
        let ancestry = self.ancestry.copy(alloc)?;
        let body = self.body.copy()?;
        Ok(Doc::new(id, ancestry, self.deleted, body))
    }
}
