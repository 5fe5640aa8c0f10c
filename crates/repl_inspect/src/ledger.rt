//! Describes the rows of a session's ledger.
ghost use Rattle.repl_inspect.specs.Ledgers.{Says};

use repl_target::{Reason, Refused};
use rev_core::Rev;

/// Why a document was refused, and the revision that was the cause.
#[derive(Clone, Copy, Debug)]
pub enum LedgerRow {
    /// The write filter refuses the document. The document's newest revision is `rev`.
    Denied { rev: Rev },
    /// The ancestry of the document contradicts the tree, because a revision has different parents in the ancestry and
    /// in the tree. The newest revision with different parents is `rev`. The parent of `rev` is `known` in the tree,
    /// but `given` in the ancestry.
    Contradicted { rev: Rev, known: Rev, given: Rev },
}

/// Returns why the document of a ledger row was refused, and the revision that was the cause.
pub fn ledger_row(refused: &Refused) -> LedgerRow
    ensures { Says refused.now result }
{
    match refused.reason() {
        Reason::Filtered => LedgerRow::Denied {
            rev: refused.doc().ancestry().head(),
        },
        Reason::Contradicting {
            child,
            known,
            given,
        } => LedgerRow::Contradicted {
            rev: child,
            known,
            given,
        },
    }
}
