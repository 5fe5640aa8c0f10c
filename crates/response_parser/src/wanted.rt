//! The rules for each kind of request (`Wanted`).
ghost use Rattle.std.specs.Prelude.{◌≡◌};
ghost use Rattle.response_parser.specs.Wanted.{wants_documents, wants_leaves, wants_changes, is_strict, first_place};

use crate::place::{Place, Wanted};

/// Whether the caller of the parser requested documents.
pub(crate) fn wants_documents(wanted: Wanted) -> bool
    ensures { result ≡ wants_documents wanted }
{
    !matches!(wanted, Wanted::Leaves | Wanted::Changes)
}

/// Whether the caller of the parser requested the document ids and revisions that CouchDB responses list (`Leaves`).
pub(crate) fn wants_leaves(wanted: Wanted) -> bool
    ensures { result ≡ wants_leaves wanted }
{
    matches!(wanted, Wanted::Leaves)
}

/// Whether the caller of the parser requested the document ids and revisions in the `change` lines of a script's output
/// (`Changes`).
pub(crate) fn wants_changes(wanted: Wanted) -> bool
    ensures { result ≡ wants_changes wanted }
{
    matches!(wanted, Wanted::Changes)
}

/// Whether the parser rejects an object without a document.
pub(crate) fn is_strict(wanted: Wanted) -> bool
    ensures { result ≡ is_strict wanted }
{
    matches!(wanted, Wanted::Bodies | Wanted::Unfolded | Wanted::Changes)
}

/// Returns the place (what the next byte belongs to) at which the parser begins.
pub(crate) fn first_place(wanted: Wanted) -> Place
    ensures { result ≡ first_place wanted }
{
    if is_strict(wanted) {
        Place::Begin
    } else {
        Place::Start
    }
}
