//! Errors of this crate.

ghost use Rattle.std.specs.Prelude.{◌≡◌};
ghost use Rattle.rev_core.specs.declared.fault.RevFault.TheVariants.{Memory};

use std::alloc::{AllocError, AllocFailed};
use thiserror::Error;

/// The reason why a call of this crate failed: the call rejected its arguments, or an allocation failed.
#[derive(Clone, Copy, Debug, PartialEq, Eq, Error)]
pub enum RevFault {
    /// The string has no `-`, or the part before the first `-` is not a generation.
    #[error("not a generation from 1 to 4294967295 before a dash")]
    BadGeneration,
    /// The signature does not have 1 to 64 bytes, or has a byte other than an ASCII letter, a digit, `-`, `_` or `.`.
    #[error("not a signature of 1 to 64 letters, digits, '-', '_' or '.'")]
    BadSig,
    /// The list of signatures is empty, but an ancestry has at least one revision.
    #[error("an ancestry without revisions")]
    NoIds,
    /// The number of signatures exceeds the newest generation, which would give the oldest revision a generation below
    /// 1.
    #[error("more revisions than generations")]
    StartTooSmall,
    /// The parent of a new revision has the greatest possible generation, 4,294,967,295.
    #[error("no generation after 4294967295")]
    GenerationFull,
    /// An allocation failed.
    #[error("out of memory")]
    Memory,
}

impl From<AllocError> for RevFault {
    ghost from_gives = { λ _ fault. fault ≡ Memory };

    fn from(_refused: AllocError) -> RevFault {
        RevFault::Memory
    }
}

impl<T: Drop> From<AllocFailed<T>> for RevFault {
    ghost from_gives = { λ _ fault. fault ≡ Memory };

    fn from(_refused: AllocFailed<T>) -> RevFault {
        RevFault::Memory
    }
}
