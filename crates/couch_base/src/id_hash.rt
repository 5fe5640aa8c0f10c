//! The hash function of a database's table of documents.
//!
//! The document ids come from untrusted sources. If the hash function had a fixed initial state, anyone could choose
//! document ids whose hashes collide, which makes lookups slow. Each hasher therefore reads the database's UUID before
//! a document id, so that the hash of a document id depends on the UUID. The UUID protects against hash collisions only
//! if the author of the ids does not know the UUID. A UUID that the program generates depends only on the program's
//! seed, which is 0 by default.
ghost use Rattle.std.specs.Prelude.{◌≡◌};
ghost use Rattle.std.specs.Hash.{le_bytes};
ghost use Rattle.std.specs.Hash.FoldHasher.{initial, write};

use std::hash::{BuildHasher, FoldHasher, Hasher};

/// Builds hashers whose initial state is the UUID of a database.
#[derive(Clone, Copy)]
pub(crate) struct IdHash {
    begun: FoldHasher,
}

impl IdHash {
    /// Creates the hash builder of a database. Each hasher reads the database's UUID first.
    pub(crate) fn new(uuid: u128) -> IdHash
        ensures { result.begun ≡ write initial (le_bytes 16 uuid) }
    {
        let mut begun = FoldHasher::default();
        begun.write_u128(uuid);
        IdHash { begun }
    }
}

impl BuildHasher for IdHash {
    type Hasher = FoldHasher;

    ghost build_hasher = { λ s. s.begun };

    fn build_hasher(&self) -> FoldHasher {
        self.begun
    }
}
