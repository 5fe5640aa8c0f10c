//! Looks up the documents and leaves of a list.
ghost use Rattle.std.specs.Prelude.{◌≡◌, is_some, option_map};
ghost use Rattle.journal_lines.specs.Docs.{docs_view};
ghost use Rattle.journal_lines.specs.Lists.{texts_of};
ghost use Rattle.journal_tasks.specs.Documents.{has_rev, revs_at};

use indexmap::IndexSet;
use journal_lines::Docs;

/// Returns the revisions of a document, if the list has the document.
fn revs_at<'a>(docs: &'a Docs, id: &str) -> Option<&'a IndexSet<String>>
    ensures { option_map (λ revs. texts_of revs.now.keys) result ≡ revs_at (docs_view docs.now) id.now }
{
    docs.get(id)
}

/// Whether a list has the given document.
pub(crate) fn has_doc(docs: &Docs, id: &str) -> bool
    ensures { result ≡ is_some (revs_at (docs_view docs.now) id.now) }
{
    revs_at(docs, id).is_some()
}

/// Whether a list has the given leaf of a document.
pub(crate) fn has_leaf(docs: &Docs, id: &str, rev: &str) -> bool
    ensures { result ≡ has_rev (docs_view docs.now) id.now rev.now }
{
    match revs_at(docs, id) {
        Some(revs) => revs.contains(rev),
        None => false,
    }
}
