//! Errors of this crate.

ghost use Rattle.std.specs.Prelude.{◌≡◌};
ghost use Rattle.repl_log.specs.declared.fault.LogFault.TheVariants.{Memory};

use std::alloc::{AllocError, AllocFailed};
use thiserror::Error;

/// The reason why a call failed: an invalid timestamp, entry or log, or a failed allocation.
#[derive(Clone, Copy, Debug, PartialEq, Eq, Error)]
pub enum LogFault {
    /// The timestamp is after the year 9999.
    #[error("a moment after the year 9999")]
    BadMoment,
    /// The log already has an entry of the session, with a greater recorded sequence (`stored`) than the new entry.
    #[error("older than the stored entry, which recorded {stored}")]
    Older { stored: u64 },
    /// A log without entries has no text.
    #[error("a log without entries")]
    EmptyLog,
    /// An allocation failed.
    #[error("out of memory")]
    Memory,
}

impl From<AllocError> for LogFault {
    ghost from_gives = { λ _ fault. fault ≡ Memory };

    fn from(_refused: AllocError) -> LogFault {
        LogFault::Memory
    }
}

impl<T: Drop> From<AllocFailed<T>> for LogFault {
    ghost from_gives = { λ _ fault. fault ≡ Memory };

    fn from(_refused: AllocFailed<T>) -> LogFault {
        LogFault::Memory
    }
}
