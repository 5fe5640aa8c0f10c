//! Errors of this crate.

use thiserror::Error;

/// The reason why `World::new` fails.
#[derive(Clone, Copy, Debug, PartialEq, Eq, Error)]
pub enum WorldFault {
    /// The source and the target have the same UUID.
    #[error("a database is not replicated into itself")]
    SamePeer,
}
