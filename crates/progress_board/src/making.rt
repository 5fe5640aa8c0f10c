//! Creates a progress board, and the seats (access tokens) of its workers and viewers.
ghost use Rattle.std.specs.Prelude.{◌≡◌, ◌+◌, ◌<◌, ◌≤◌, true, [], IfOk, IfErr, length, vec_len, vec_capacity};
ghost use Rattle.progress_board.specs.Rule.{dealer, AllZero};
ghost use Rattle.progress_board.specs.Seats.{SeatsAre, are_seats, new_fault, AreNew};

use crate::board::{Board, board_of};
use crate::fault::BoardFault;
use crate::rule::{BoardRule, SeatView};
use crate::seat::{BoardSeat, seat_of};
use crate::steps::{BoardTable, Place, admit, hire};
use atomic_table::Table;
use std::alloc::{AllocError, Global};

/// The maximum number of workers of a board, and the maximum number of viewers.
pub const MOST_WORKERS: u64 = 64;

impl Board {
    /// Creates a board with all counters at 0, and its seats (access tokens): first a seat for each worker, then a seat
    /// for each viewer.
    ///
    /// Returns `BadSeats` if the number of workers or the number of viewers is not from 1 to 64.
    pub fn new(
        alloc: Global,
        workers: usize,
        viewers: usize,
    ) -> Result<(Board, Vec<BoardSeat>), BoardFault>
        ensures ok { IfOk result
            (λ r. (are_seats workers viewers ≡ true) × (r.0.workers ≡ workers)
            × (vec_len r.1 ≡ workers + viewers) × AreNew r.0 r.1.items) }
        ensures err { IfErr result (λ e. e ≡ new_fault workers viewers) }
    {
        let most = MOST_WORKERS as usize;
        if workers == 0 || workers > most || viewers == 0 || viewers > most {
            return Err(BoardFault::BadSeats);
        }
        let mut seats = Vec::with_capacity(alloc, workers + viewers)?;
        let (table, mut dealer) = lay(alloc, workers)?;
        add_workers(&table, &mut dealer, workers, &mut seats);
        add_viewers(&table, &mut dealer, workers, viewers, &mut seats);
        Ok((board_of(table, workers), seats))
    }
}

/// Creates a table of counters with the value 0, and the table's dealer. The dealer creates the seats, which are access
/// tokens for the counters.
fn lay(alloc: Global, workers: usize) -> Result<(BoardTable, Place), AllocError>
    requires { (0 < workers) × (workers ≤ 64) }
    ensures { IfOk result
        (λ t. (t.0.shared.key ≡ workers) × (t.0.shared.table_id.words ≡ workers + workers)
        × (t.1.table_id ≡ t.0.shared.table_id) × (t.1.me ≡ (dealer workers 0, []))) }
{
    let words = Vec::from_elem(alloc, 0u64, 2 * workers)?;
    lay_words(alloc, words.as_slice(), workers)
}

/// Creates a table of counters with the given values, and the table's dealer. The dealer creates the seats, which are
/// access tokens for the counters.
fn lay_words(
    alloc: Global,
    words: &[u64],
    workers: usize,
) -> Result<(BoardTable, Place), AllocError>
    requires words { (length words.now ≡ workers + workers) × AllZero words.now }
    ensures { IfOk result
        (λ t. (t.0.shared.key ≡ workers) × (t.0.shared.table_id.words ≡ workers + workers)
        × (t.1.table_id ≡ t.0.shared.table_id) × (t.1.me ≡ (dealer workers 0, []))) }
{
    Table::<(), SeatView, u64, BoardRule, Global>::of_words(alloc, words, &(workers as u64))
}

/// Appends the seats (access tokens) of the board's workers to a list.
fn add_workers(table: &BoardTable, dealing: &mut Place, workers: usize, seats: &mut Vec<BoardSeat>)
    requires board { (table.now.shared.key ≡ workers) × (table.now.shared.table_id.words ≡ workers + workers) }
    requires desk { (dealing.old.table_id ≡ table.now.shared.table_id) × (dealing.old.me ≡ (dealer workers 0, [])) }
    requires room { (seats.old.items ≡ []) × (workers ≤ vec_capacity seats.old) }
    ensures desk { (dealing.new.table_id ≡ table.now.shared.table_id)
        × (dealing.new.me ≡ (dealer workers workers, [])) }
    ensures seats { SeatsAre table.now.shared.table_id workers workers seats.new.items × (vec_len seats.new ≡ workers) }
    ensures capacity { vec_capacity seats.new ≡ vec_capacity seats.old }
{
    for i in 0..workers {
        let place = hire(table, dealing, workers);
        seats.push_reserved(seat_of(place, true, i, workers));
    }
}

/// Appends the seats (access tokens) of the board's viewers to a list.
fn add_viewers(
    table: &BoardTable,
    dealing: &mut Place,
    workers: usize,
    viewers: usize,
    seats: &mut Vec<BoardSeat>,
)
    requires board { (table.now.shared.key ≡ workers) × (table.now.shared.table_id.words ≡ workers + workers)
        × (0 < workers) }
    requires desk { (dealing.old.table_id ≡ table.now.shared.table_id)
        × (dealing.old.me ≡ (dealer workers workers, [])) }
    requires room { (vec_len seats.old ≡ workers) × (workers + viewers ≤ vec_capacity seats.old) }
    requires seats { SeatsAre table.now.shared.table_id workers workers seats.old.items }
    ensures seats { SeatsAre table.now.shared.table_id workers workers seats.new.items
        × (vec_len seats.new ≡ workers + viewers) }
{
    for _i in 0..viewers {
        let place = admit(table, dealing, workers);
        seats.push_reserved(seat_of(place, false, 0, workers));
    }
}
