//! A list of writes, as a value that exists for contracts only.
ghost use Rattle.std.specs.Prelude.{◌≡◌, List};
ghost use Rattle.std.specs.Borrow.{ftrue};
ghost use Rattle.std.specs.Coded.{coded_list};
ghost use Rattle.repl_peer.specs.peer.Peer.{WrittenValue};
ghost use Rattle.repl_peer.specs.peer.PeerCode.{coded_written};

use doc_json::DocId;
use rev_core::Rev;
use std::marker::Model;

/// A list of local writes or of arrivals (stored documents), in order. Only contracts can read the list, because a
/// `GhostWrites` has size zero at run time.
#[derive(Drop)]
pub(crate) struct GhostWrites {
    pub(crate) ghost list: { List WrittenValue } by { coded_list coded_written },
}

impl Model for GhostWrites {
    ghost also_owns = { λ _. ftrue };
}

// If a type's `Model` defines `also_owns`, the compiler does not implement `Send` and `Sync` for the type
// automatically. `GhostWrites` owns nothing.
unsafe impl Send for GhostWrites {}

unsafe impl Sync for GhostWrites {}

/// The writes from which `GhostWrites::of` creates the ghost value of a list of writes.
///
/// The variants refer only to `GhostWrites` and to built-in types. If a variant referred to another crate's type with a
/// `Model` (for example `DocId`), the compiler could not prove a function that uses `Noted` but not this type.
#[derive(Clone, Copy, Drop)]
enum Noted<'a> {
    /// No writes.
    Nothing,
    /// The writes of an existing list.
    Again(&'a GhostWrites),
    /// The writes of an existing list, and one more write: the text of a document's id, and the revisions.
    More(&'a GhostWrites, &'a str, &'a [Rev]),
}

impl GhostWrites {
    ghost use Rattle.std.specs.Prelude.{[], ◌∷◌, ◌++◌};
    ghost use Rattle.repl_peer.specs.peer.Noted.{noted_writes};

    /// Creates the ghost value of an empty list.
    pub(crate) fn new() -> GhostWrites
        ensures { result.list ≡ [] }
    {
        GhostWrites::of(&Noted::Nothing)
    }

    /// Copies the ghost value.
    pub(crate) fn copy(&self) -> GhostWrites
        ensures { result.list ≡ self.now.list }
    {
        GhostWrites::of(&Noted::Again(self))
    }

    /// Returns the ghost value of the list with one more write, of the document with the given id. The write has the
    /// given revisions, newest first.
    pub(crate) fn and(&self, id: &DocId, revs: &[Rev]) -> GhostWrites
        ensures { result.list ≡ self.now.list ++ record { id = id.now; ancestry = revs.now } ∷ [] }
    {
        GhostWrites::of(&Noted::More(self, id.text(), revs))
    }

    /// Creates the ghost value of the given writes.
    #[inline(always)]
    fn of(_noted: &Noted<'_>) -> GhostWrites
        ensures { result.list ≡ noted_writes _noted.now }
    {
        GhostWrites {}
    }
}
