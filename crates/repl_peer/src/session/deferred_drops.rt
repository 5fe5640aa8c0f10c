//! Keeps parts of a parcel until the peer has settled the parcel, and drops the parts only then.
use couch_base::{Asked, PreparedTree};
use doc_json::{Doc, DocId};
use rev_core::Rev;
use std::alloc::Global;

/// The parts of a settled parcel whose drop is deferred: the request, the documents, the gone revisions, and the unused
/// prebuilt trees. The parts are dropped together with the `DeferredDrops` value, after the peer has settled the
/// parcel.
#[derive(Drop)]
pub struct DeferredDrops {
    asked: Option<Asked>,
    docs: Vec<Doc>,
    gone: Vec<(DocId, Rev)>,
    made: Vec<Option<PreparedTree>>,
}

impl DeferredDrops {
    /// Creates an empty value.
    pub fn new(alloc: Global) -> DeferredDrops {
        DeferredDrops {
            asked: None,
            docs: Vec::new(alloc),
            gone: Vec::new(alloc),
            made: Vec::new(alloc),
        }
    }

    /// Stores the parts of a parcel, and drops the parts that were stored before.
    pub(crate) fn keep(
        &mut self,
        asked: Asked,
        docs: Vec<Doc>,
        gone: Vec<(DocId, Rev)>,
        made: Vec<Option<PreparedTree>>,
    ) {
        self.asked = Some(asked);
        self.docs = docs;
        self.gone = gone;
        self.made = made;
    }
}
