//! Shows a writer's progress on the progress board, if the writer has a seat (an access token to the progress board).
//! Takes no lock.
ghost use Rattle.std.specs.Prelude.{◌≡◌, ◌+◌, ◌≤◌, ◌++◌, length, IfErr, OnOk, OnErr, vec_len, vec_capacity, option_copied, option_to_list};
ghost use Rattle.pool_workers.specs.Boards.{MayFill, IsSeated, IsFullFor, HasRead, HasRoom, HasSettled};

use crate::fault::Halt;
use progress_board::{Board, BoardSeat};

/// Adds a number of documents to a worker's read counter on the progress board. Returns `BoardFull` if the addition
/// would raise the worker's read counter above 9,007,199,254,740,991.
pub fn show_read(
    board: Option<&Board>,
    seat: &mut Option<BoardSeat>,
    documents: u64,
) -> Result<(), Halt>
    requires { IsSeated (option_copied board) seat.old }
    ensures ok { OnOk result (HasRead (option_copied board.entry) documents seat.old seat.new) }
    ensures full { IfErr result (λ halt. halt ≡ Halt.BoardFull) }
    ensures may_fill { OnErr result (MayFill (option_copied board.entry)) }
    ensures due { OnErr result (IsFullFor documents seat.old) }
    ensures kept { OnErr result (seat.new ≡ seat.old) }
{
    let Some(board) = board else {
        return Ok(());
    };
    let Some(seat) = seat else {
        return Ok(());
    };
    match board.add_read(seat, documents) {
        Ok(()) => Ok(()),
        Err(_) => Err(Halt::BoardFull),
    }
}

/// Adds a number of documents to a worker's settled counter on the progress board. After the call, the settled counter
/// must not exceed the worker's read counter.
pub fn show_settled(board: Option<&Board>, seat: &mut Option<BoardSeat>, documents: u64)
    requires seat { IsSeated (option_copied board) seat.old }
    requires room { HasRoom (option_copied board) documents seat.old }
    ensures { HasSettled (option_copied board.entry) 0 documents seat.old seat.new }
{
    let Some(board) = board else {
        return;
    };
    let Some(seat) = seat else {
        return;
    };
    let _ = board.add_settled(seat, documents);
}

/// Appends the seat to the list `seats`, unless `seat` is `None`. A seat is an access token to the progress board.
pub fn give_back(seats: &mut Vec<BoardSeat>, seat: Option<BoardSeat>)
    requires { vec_len seats.old + length (option_to_list seat) ≤ vec_capacity seats.old }
    ensures items { seats.new.items ≡ seats.old.items ++ option_to_list seat }
    ensures capacity { vec_capacity seats.new ≡ vec_capacity seats.old }
{
    if let Some(seat) = seat {
        seats.push_reserved(seat);
    }
}
