//! Creates a board for a run and for the viewers of the run.
ghost use Rattle.std.specs.Prelude.{◌≡◌, true, IfOk, IfErr, vec_len};
ghost use Rattle.std.specs.List.{All};
ghost use Rattle.progress_board.specs.Seats.{CameWith, are_seats, new_fault};
ghost use Rattle.pool_workers.specs.Boards.{HasNothing, WorksAt};

use progress_board::{Board, BoardFault, BoardSeat};
use std::alloc::Global;

/// A new progress board with its seats (access tokens). The caller gives the workers' seats to `run_on`. A viewer may
/// call `read` with its seat during the run.
#[derive(Drop)]
pub struct Seats {
    /// The progress board.
    pub board: Board,
    /// A seat (an access token for the progress board) for each worker, in the order of the workers' numbers.
    pub workers: Vec<BoardSeat>,
    /// A seat (an access token for the progress board) for each viewer, who only reads the board.
    pub viewers: Vec<BoardSeat>,
}

/// Creates a board with separate lists of the workers' and the viewers' seats.
///
/// # Errors
///
/// - `BadSeats`: the number of workers or of viewers is not 1 to 64.
/// - `Memory`: an allocation failed.
pub fn board_with_seats(alloc: Global, workers: usize, viewers: usize) -> Result<Seats, BoardFault>
    ensures ok { IfOk result (λ s. (are_seats workers viewers ≡ true) × (s.board.workers ≡ workers)
        × (vec_len s.workers ≡ workers) × All (WorksAt s.board) s.workers.items × All HasNothing s.workers.items
        × (vec_len s.viewers ≡ viewers) × All (CameWith s.board) s.viewers.items × All HasNothing s.viewers.items) }
    ensures err { IfErr result (λ e. e ≡ new_fault workers viewers) }
{
    let (board, mut seats) = Board::new(alloc, workers, viewers)?;
    let mut apart = Vec::with_capacity(alloc, viewers)?;
    for _i in 0..viewers {
        let Some(seat) = seats.pop() else {
            unreachable!()
        };
        apart.push_reserved(seat);
    }
    Ok(Seats {
        board,
        workers: seats,
        viewers: apart,
    })
}
