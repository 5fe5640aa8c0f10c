//! Replications with a pool of threads that show their progress on a board.
ghost use Rattle.std.specs.Prelude.{◌≡◌, ◌≤◌, true, IfErr, IfOk, vec_len};
ghost use Rattle.std.specs.List.{All};
ghost use Rattle.progress_board.specs.Seats.{CameWith, are_seats};
ghost use Rattle.pool_workers.specs.Boards.{WorksAt};
ghost use Rattle.pool_workers.specs.declared.fault.PoolFault.TheVariants.{Memory};
ghost use Rattle.script_databases.specs.Replications.{unwatched};

use progress_board::{Board, BoardFault, BoardSeat};
use repl_pool::{PoolFault, Seats, board_with_seats};
use repl_target::Report;
use std::alloc::Global;

/// The result of a replication that reached its goal, with the progress board's totals after the replication.
#[derive(Clone, Copy, Debug, PartialEq, Eq)]
pub struct Watched {
    /// The number of documents that all workers settled.
    pub settled: u64,
    /// The number of documents that all workers read, which is at least `settled`.
    pub read: u64,
    /// The report of the session.
    pub report: Report,
}

/// Creates a progress board for a replication, with a seat for each worker and a seat for the viewer.
pub fn board_for(
    alloc: Global,
    workers: u64,
) -> Result<(Board, Vec<BoardSeat>, BoardSeat), PoolFault>
    requires { are_seats workers 1 ≡ true }
    ensures ok { IfOk result
        (λ made. (vec_len made.1 ≡ workers) × All (WorksAt made.0) made.1.items × CameWith made.0 made.2) }
    ensures err { IfErr result (λ why. why ≡ Memory) }
{
    let Seats {
        board,
        workers: seats,
        mut viewers,
    } = match board_with_seats(alloc, workers as usize, 1) {
        Ok(made) => made,
        Err(BoardFault::Memory) => return Err(PoolFault::Memory),
        Err(_) => unreachable!(),
    };
    let Some(viewer) = viewers.pop() else {
        unreachable!()
    };
    Ok((board, seats, viewer))
}

/// Adds the counters of the progress board to the result of a replication.
pub fn with_reading(
    board: &Board,
    viewer: &mut BoardSeat,
    outcome: Result<Report, PoolFault>,
) -> Result<Watched, PoolFault>
    requires came { CameWith board.now viewer.old }
    ensures shown { IfOk result (λ watched. watched.settled ≤ watched.read) }
    ensures outcome { unwatched result ≡ outcome }
{
    let report = outcome?;
    let (settled, read) = board.read(viewer);
    Ok(Watched {
        settled,
        read,
        report,
    })
}
