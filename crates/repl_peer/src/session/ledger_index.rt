//! A lookup table of the revisions in ledgers.
ghost use Rattle.std.specs.Prelude.{◌≡◌, ◌≤◌, ◌||◌, ◌&&◌, false, length, OnOk, OnErr};
ghost use Rattle.std.specs.Str.{bytes_eq};
ghost use Rattle.rev_core.specs.Rev.{RevId};
ghost use Rattle.rev_core.specs.Ancestry.{is_among};
ghost use Rattle.couch_base.specs.Database.{Id};

use doc_json::{Doc, DocId};
use indexmap::{IndexMap, IndexSet};
use rev_core::Rev;
use std::alloc::{AllocError, Global};
use std::sync::Arc;

/// The revisions in the ancestries of refused documents, by document id.
///
/// Most document ids occur in the ledgers at most once. For each document id, the index shares the first ledger
/// document with the ledger, and does not copy the document. If several ledger documents have the same id, the index
/// stores the revisions of the second and all later documents in one set. A lookup scans the revisions of only one
/// ledger document, the first document with the given id.
#[derive(Drop)]
pub(crate) struct LedgerIndex {
    /// For each document id, the first ledger document with this id.
    first: IndexMap<DocId, Arc<Doc>>,
    /// For each document id with several ledger documents, the revisions of the second and all later documents.
    later: IndexMap<DocId, IndexSet<Rev>>,
}

impl LedgerIndex {
    ghost use Rattle.std.specs.Arc.{arc_value};
    ghost use Rattle.repl_peer.specs.session.LedgerIndex.{is_in_first, is_in_later, is_ledgered};

    /// Creates an empty index.
    pub(crate) fn new(alloc: Global) -> LedgerIndex
        ensures { (id : Id) (r : RevId) → is_ledgered result id r ≡ false }
    {
        LedgerIndex {
            first: IndexMap::new(alloc),
            later: IndexMap::new(alloc),
        }
    }

    /// Whether a revision is in the ancestry of a refused document with the given id.
    pub(crate) fn has(&self, id: &DocId, rev: Rev) -> bool
        ensures { result ≡ is_ledgered self.now id.now rev }
    {
        self.is_in_first(id, rev) || self.is_in_later(id, rev)
    }

    /// Whether a revision is in the ancestry of the first ledger document with the given id.
    fn is_in_first(&self, id: &DocId, rev: Rev) -> bool
        ensures { result ≡ is_in_first self.now id.now rev }
    {
        match self.first.get(id) {
            Some(doc) => doc.ancestry().contains(rev),
            None => false,
        }
    }

    /// Whether a revision is in the ancestry of the second or a later ledger document with the id `id`.
    fn is_in_later(&self, id: &DocId, rev: Rev) -> bool
        ensures { result ≡ is_in_later self.now id.now rev }
    {
        match self.later.get(id) {
            Some(revs) => revs.contains(&rev),
            None => false,
        }
    }

    /// Adds the revisions of a refused document to the lookup table. An error changes nothing.
    pub(crate) fn add(&mut self, doc: &Arc<Doc>) -> Result<(), AllocError>
        ensures ok { OnOk result
            ((id : Id) (r : RevId)
            → is_ledgered self.new id r
            ≡ (is_ledgered self.old id r
            || (bytes_eq (arc_value doc.now).id id && is_among r (arc_value doc.now).ancestry))) }
        ensures err { OnErr result ((id : Id) (r : RevId) → is_ledgered self.new id r ≡ is_ledgered self.old id r) }
    {
        if self.first.contains_key(doc.id()) {
            return self.add_later(doc);
        }
        let alloc = *self.first.allocator();
        let id = doc.id().copy(alloc)?;
        let shared = Arc::try_clone(doc)?;
        self.first.insert(id, shared)?;
        Ok(())
    }

    /// Adds a document's revisions to the set in `later` for the document's id. If an allocation fails, the sets of the
    /// index do not change.
    fn add_later(&mut self, doc: &Doc) -> Result<(), AllocError>
        ensures first { self.new.first ≡ self.old.first }
        ensures ok { OnOk result
            ((id : Id) (r : RevId)
            → is_in_later self.new id r
            ≡ (is_in_later self.old id r || (bytes_eq doc.now.id id && is_among r doc.now.ancestry))) }
        ensures err { OnErr result ((id : Id) (r : RevId) → is_in_later self.new id r ≡ is_in_later self.old id r) }
    {
        let alloc = *self.later.allocator();
        match self.later.get_mut(doc.id()) {
            Some(known) => add_revs(known, doc.ancestry().revs()),
            None => {
                let id = doc.id().copy(alloc)?;
                let mut revs = IndexSet::new(alloc);
                add_revs(&mut revs, doc.ancestry().revs())?;
                self.later.insert(id, revs)?;
                Ok(())
            }
        }
    }
}

/// Adds revisions to a set of revisions. The call reserves space first, so that an error changes nothing.
fn add_revs(known: &mut IndexSet<Rev>, revs: &[Rev]) -> Result<(), AllocError>
    ensures ok { OnOk result
        ((r : RevId) → is_among r known.new.keys ≡ (is_among r known.old.keys || is_among r revs.now)) }
    ensures err { OnErr result (known.new.keys ≡ known.old.keys) }
{
    known.reserve(revs.len())?;
    for rev in revs {
        known.insert(*rev)?;
    }
    Ok(())
}
