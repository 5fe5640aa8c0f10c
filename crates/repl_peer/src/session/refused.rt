//! Refused documents.
ghost use Rattle.std.specs.Prelude.{◌≡◌, IfOk};

use crate::fault::Reason;
use doc_json::Doc;
use std::alloc::{AllocError, Global};
use std::marker::Model;
use std::sync::Arc;

/// A document in a ledger, and the reason why the document was refused.
///
/// The ledger and the index of the ledgers (`LedgerIndex`) share the document through an `Arc` instead of copying the
/// document.
#[derive(Drop)]
pub struct Refused {
    doc: Arc<Doc>,
    reason: StoredReason,
}

/// The reason why a document was refused, as `Refused` stores this reason. A contradiction is stored in a heap block
/// (`Box`). Without the `Box`, every `Refused` would need space for the three revisions of a contradiction (216 bytes).
#[derive(Drop)]
enum StoredReason {
    Filtered,
    Contradicting(Box<Reason>),
}

impl Model for Refused {
    ghost use Rattle.std.specs.Arc.{arc_value};
    ghost use Rattle.repl_peer.specs.peer.Peer.{RefusedValue};
    ghost use Rattle.repl_peer.specs.session.Ledger.{reason_of};

    ghost Value = { RefusedValue };

    ghost view = { λ x. record { doc = arc_value x.doc; reason = reason_of x.reason } };
}

impl Refused {
    ghost use Rattle.std.specs.Arc.{arc_value};

    /// Creates a ledger row. The row shares the document instead of copying it.
    pub(crate) fn new(alloc: Global, doc: Arc<Doc>, reason: Reason) -> Result<Refused, AllocError>
        ensures { IfOk result (λ row. row ≡ record { doc = arc_value doc; reason = reason }) }
    {
        let reason = match reason {
            Reason::Filtered => StoredReason::Filtered,
            other => StoredReason::Contradicting(Box::new(alloc, other)?),
        };
        Ok(Refused { doc, reason })
    }

    /// Returns the document.
    pub fn doc(&self) -> &Doc
        ensures { result.now ≡ self.now.doc }
    {
        &self.doc
    }

    /// Returns why the document was refused.
    pub fn reason(&self) -> Reason
        ensures { result ≡ self.now.reason }
    {
        match &self.reason {
            StoredReason::Filtered => Reason::Filtered,
            StoredReason::Contradicting(reason) => **reason,
        }
    }
}
