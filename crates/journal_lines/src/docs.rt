//! A table of revisions by document.
ghost use Rattle.std.specs.Prelude.{◌≡◌, OnOk};
ghost use Rattle.journal_lines.specs.Docs.{add_pair, docs_view, keys_or_none};

use indexmap::{IndexMap, IndexSet};
use std::alloc::{AllocError, Global};

/// The revisions of documents, in the order in which documents and revisions first occur.
pub type Docs = IndexMap<String, IndexSet<String>>;

fn or_empty(alloc: Global, revs: Option<IndexSet<String>>) -> IndexSet<String>
    ensures { result.keys ≡ keys_or_none revs }
{
    match revs {
        Some(revs) => revs,
        None => IndexSet::new(alloc),
    }
}

/// Adds a revision to the revisions of a document, unless the table already has the revision for this document.
pub fn add_pair(alloc: Global, docs: &mut Docs, id: &str, rev: &str) -> Result<(), AllocError>
    ensures { OnOk result (docs_view docs.new ≡ add_pair (docs_view docs.old) id.now rev.now) }
{
    let key = String::from_str(alloc, id)?;
    let old = docs.insert(key, IndexSet::new(alloc))?;
    let mut revs = or_empty(alloc, old);
    revs.insert(String::from_str(alloc, rev)?)?;
    docs.insert(String::from_str(alloc, id)?, revs)?;
    Ok(())
}
