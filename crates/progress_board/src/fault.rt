//! Errors of this crate.
ghost use Rattle.std.specs.Prelude.{◌≡◌};
ghost use Rattle.progress_board.specs.declared.fault.BoardFault.TheVariants.{Memory};

use std::alloc::AllocError;
use thiserror::Error;

/// Why a call failed.
#[derive(Clone, Copy, Debug, PartialEq, Eq, Error)]
pub enum BoardFault {
    /// The number of workers or the number of viewers is not from 1 to 64.
    #[error("workers and viewers must each be 1 to 64")]
    BadSeats,
    /// The seat is a viewer's seat, not a worker's.
    #[error("a viewer adds nothing")]
    NotWorker,
    /// The worker's read counter would exceed 2^53 - 1.
    #[error("the worker's count is full")]
    BoardFull,
    /// The worker's settled counter would exceed the worker's read counter.
    #[error("more would be settled than was read")]
    AheadOfRead,
    /// An allocation failed.
    #[error("out of memory")]
    Memory,
}

impl From<AllocError> for BoardFault {
    ghost from_gives = { λ _ e. e ≡ Memory };

    fn from(_refused: AllocError) -> BoardFault {
        BoardFault::Memory
    }
}
