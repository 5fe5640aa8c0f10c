//! Tests a worked example of the progress board, the board's errors, and each public call, without failing allocations.
use progress_board::{Board, BoardFault};
use std::alloc::Global;
use std::process::Abort;

/// The result of adding to a worker's counter.
type Added = Result<(), BoardFault>;

/// Creates a board of two workers and a viewer, adds to the board's counters, reads the board, and returns the results.
fn two_workers(alloc: Global) -> Option<([Added; 4], [(u64, u64); 2])> {
    let Ok((board, mut seats)) = Board::new(alloc, 2, 1) else {
        return None;
    };
    let Some(mut viewer) = seats.pop() else {
        return None;
    };
    let Some(_second) = seats.pop() else {
        return None;
    };
    let Some(mut first) = seats.pop() else {
        return None;
    };
    let read = board.add_read(&mut first, 3);
    let settled = board.add_settled(&mut first, 2);
    let seen = [board.read(&mut first), board.read(&mut viewer)];
    let ahead = board.add_settled(&mut first, 2);
    let viewed = board.add_read(&mut viewer, 1);
    Some(([read, settled, ahead, viewed], seen))
}

#[test]
fn board_read(rt: HostRuntime) {
    let (added, seen) = two_workers(rt.alloc()).expect(&rt, "a board with seats");
    let wanted = [
        Ok(()),
        Ok(()),
        Err(BoardFault::AheadOfRead),
        Err(BoardFault::NotWorker),
    ];
    assert!(rt; added == wanted && seen == [(2, 3), (2, 3)]);
}

/// Creates a board of one worker and a viewer. Adds the maximum and then 1 to the worker's read counter, adds 0 through
/// the viewer's seat, and reads the board. Returns the results of these calls.
fn all_read(alloc: Global) -> Option<([Added; 3], (u64, u64))> {
    let Ok((board, mut seats)) = Board::new(alloc, 1, 1) else {
        return None;
    };
    let Some(mut viewer) = seats.pop() else {
        return None;
    };
    let Some(mut worker) = seats.pop() else {
        return None;
    };
    let most = board.add_read(&mut worker, 9_007_199_254_740_991);
    let more = board.add_read(&mut worker, 1);
    let viewed = board.add_settled(&mut viewer, 0);
    Some(([most, more, viewed], board.read(&mut viewer)))
}

#[test]
fn full_board(rt: HostRuntime) {
    let (added, seen) = all_read(rt.alloc()).expect(&rt, "a board with seats");
    let wanted = [
        Ok(()),
        Err(BoardFault::BoardFull),
        Err(BoardFault::NotWorker),
    ];
    assert!(rt; added == wanted && seen == (0, 9_007_199_254_740_991));
}

/// Test rows with the numbers of a board's workers and viewers, and the expected number of seats.
static SEATS: &[(usize, usize, Result<usize, BoardFault>)] = &[
    (1, 1, Ok(2)),
    (64, 64, Ok(128)),
    (0, 1, Err(BoardFault::BadSeats)),
    (1, 0, Err(BoardFault::BadSeats)),
    (65, 1, Err(BoardFault::BadSeats)),
    (1, 65, Err(BoardFault::BadSeats)),
];

/// Returns the number of seats of a new board.
fn seats_made(alloc: Global, workers: usize, viewers: usize) -> Result<usize, BoardFault> {
    let (_board, seats) = Board::new(alloc, workers, viewers)?;
    Ok(seats.len())
}

#[test]
fn seats_of_a_board(rt: HostRuntime) {
    for (workers, viewers, wanted) in SEATS {
        assert_eq!(rt; seats_made(rt.alloc(), *workers, *viewers), *wanted);
    }
}
