//! Tests of pool runs that show the progress of the run on a progress board. Viewers read the progress board during a
//! run.
ghost use Rattle.std.specs.Prelude.{◌≡◌, ◌≤◌, IfSome, IfOk, vec_len};
ghost use Rattle.std.specs.List.{All};
ghost use Rattle.progress_board.specs.Seats.{AreNew, CameWith};
ghost use Rattle.pool_workers.specs.Boards.{WorksAt};

use crate::tests::pools::{Bench, Call, How, Rows};
use crate::tests::texts::expect_answer;
use progress_board::{Board, BoardSeat};
use repl_pool::{Gate, Open, Place, Turn};
use rev_tree::SessionId;
use std::alloc::Global;
use std::process::Abort;
use std::sync::Wait;
use std::sync::atomic::{AtomicBool, Ordering};
use std::thread;
use std::thread::{Threads, yield_now};

/// The indices of the source and the target among the peers of a test.
const A: usize = 0;

const B: usize = 1;

/// The plan of a run whose windows have two rows.
const TWO_ROWS: How = How {
    session: SessionId(1),
    workers: None,
    batch: 2,
    stop_after: None,
};

/// The maximum number of times a thread polls a flag that another thread sets.
const TURNS: u32 = 1_000_000;

/// Calls that create an empty target, and a source with two documents of one revision each.
static TWO: Rows = &[
    (Call::Peer(1, None), "made"),
    (Call::Peer(2, None), "made"),
    (Call::Fill(A, 2), "Changed { seq: 2 }"),
];

/// Calls that create an empty target, and a source with forty documents of one revision each.
static FORTY: Rows = &[
    (Call::Peer(1, None), "made"),
    (Call::Peer(2, None), "made"),
    (Call::Fill(A, 40), "Changed { seq: 40 }"),
];

const WELL_TWO: &str =
    "session 1 from 0 to 2 checked 2 found 2 read 2 written 2 failed 0, fetched 2";

const WELL_FORTY: &str =
    "session 1 from 0 to 40 checked 40 found 40 read 40 written 40 failed 0, fetched 40";

/// The seats (access tokens) with which four viewers read a progress board.
type Viewers = (BoardSeat, BoardSeat, BoardSeat, BoardSeat);

/// Polls a flag at most `TURNS` times until the flag is true, and returns whether the flag became true.
fn wait_for(told: &AtomicBool) -> bool {
    for _ in 0..TURNS {
        if told.load(Ordering::SeqCst) {
            return true;
        }
        yield_now();
    }
    false
}

/// A gate (a callback) that blocks a writer after the first window was settled. The writer stays blocked until a viewer
/// has read the board.
#[derive(Drop)]
struct HoldsSettled {
    held: AtomicBool,
    seen: AtomicBool,
    ran_out: AtomicBool,
}

impl HoldsSettled {
    /// Creates the callback `HoldsSettled`, which has not blocked a writer yet.
    fn new() -> HoldsSettled {
        HoldsSettled {
            held: AtomicBool::new(false),
            seen: AtomicBool::new(false),
            ran_out: AtomicBool::new(false),
        }
    }
}

impl Gate for HoldsSettled {
    ghost may_stop = { λ _ _. ⊥ };

    fn at<R: Wait>(&self, _rt: &R, place: Place) -> Turn {
        if let Place::Settled(0) = place {
            self.held.store(true, Ordering::SeqCst);
            if !wait_for(&self.seen) {
                self.ran_out.store(true, Ordering::SeqCst);
            }
        }
        Turn::Go
    }
}

/// Reads the board while the callback `gate` blocks the writer, and then releases the writer.
fn read_while_held(board: &Board, gate: &HoldsSettled, viewer: BoardSeat) -> (u64, u64)
    requires { CameWith board.now viewer }
{
    let mut viewer = viewer;
    let _held = wait_for(&gate.held);
    let seen = board.read(&mut viewer);
    gate.seen.store(true, Ordering::SeqCst);
    seen
}

/// Performs a run on a board. A viewer reads the board while the callback `gate` blocks the writer. Returns how the run
/// ended, and the totals that the viewer read from the board.
fn run_held<R: Abort + Threads + Wait + Sync>(
    rt: &R,
    bench: &mut Bench,
    gate: &HoldsSettled,
    board: &Board,
    seats: Vec<BoardSeat>,
    viewer: BoardSeat,
) -> (Option<String>, Option<(u64, u64)>)
    requires seats { All (WorksAt board.now) seats.items }
    requires viewer { CameWith board.now viewer }
{
    thread::scope(
        thread::scope_env(),
        rt,
        |scope| -> (Option<String>, Option<(u64, u64)>)
            requires seats { All (WorksAt board.now) seats.items }
            requires viewer { CameWith board.now viewer }
        {
            let reader = scope.spawn(
                move || -> (u64, u64)
                    requires { CameWith board.now viewer }
                { read_while_held(board, gate, viewer) },
            );
            let answer = bench.replicate_on(rt, gate, board, seats, TWO_ROWS);
            match reader {
                Ok(reader) => (answer, Some(reader.join(rt))),
                Err(_) => (answer, None),
            }
        },
    )
}

/// Creates a board for a number of workers, the workers' seats, and the seat of one viewer.
fn board_for(alloc: Global, workers: usize) -> Option<(Board, Vec<BoardSeat>, BoardSeat)>
    ensures { IfSome result (λ r. All (WorksAt r.0) r.1.items × CameWith r.0 r.2) }
{
    let Ok((board, mut seats)) = Board::new(alloc, workers, 1) else {
        return None;
    };
    match seats.pop() {
        Some(viewer) => Some((board, seats, viewer)),
        None => None,
    }
}

/// The number of times a viewer reads the board during a run.
const READS: u32 = 2_000;

/// Takes the last seat of a new board.
fn take_seat(board: &Board, seats: &mut Vec<BoardSeat>) -> Option<BoardSeat>
    requires { AreNew board.now seats.old.items }
    ensures rest { AreNew board.now seats.new.items }
    ensures seat { IfSome result (CameWith board.now) }
{
    seats.pop()
}

/// Creates a board for a number of workers and four viewers, with the seats of the workers and of the viewers.
fn board_for_four(alloc: Global, workers: usize) -> Option<(Board, Vec<BoardSeat>, Viewers)>
    ensures { IfSome result (λ r. All (WorksAt r.0) r.1.items
        × CameWith r.0 r.2.0 × CameWith r.0 r.2.1 × CameWith r.0 r.2.2 × CameWith r.0 r.2.3) }
{
    let Ok((board, mut seats)) = Board::new(alloc, workers, 4) else {
        return None;
    };
    let Some(d) = take_seat(&board, &mut seats) else {
        return None;
    };
    let Some(c) = take_seat(&board, &mut seats) else {
        return None;
    };
    let Some(b) = take_seat(&board, &mut seats) else {
        return None;
    };
    let Some(a) = take_seat(&board, &mut seats) else {
        return None;
    };
    if seats.len() > workers {
        return None;
    }
    Some((board, seats, (a, b, c, d)))
}

/// Reads the board repeatedly, and checks the totals. Returns true if no total ever decreased, and if the total of
/// settled documents never exceeded the total of read documents.
fn sees_no_fall(board: &Board, viewer: BoardSeat) -> bool
    requires { CameWith board.now viewer }
{
    let mut viewer = viewer;
    let mut last = (0, 0);
    for _ in 0..READS {
        let now = board.read(&mut viewer);
        if now.0 < last.0 || now.1 < last.1 || now.1 < now.0 {
            return false;
        }
        last = now;
        yield_now();
    }
    true
}

/// Performs a run on a board while four viewers read the board in loops. Returns how the run ended, and the number of
/// viewers for which `sees_no_fall` returned true.
fn run_watched<R: Abort + Threads + Wait + Sync>(
    rt: &R,
    bench: &mut Bench,
    board: &Board,
    seats: Vec<BoardSeat>,
    viewers: Viewers,
) -> (Option<String>, u32)
    requires seats { All (WorksAt board.now) seats.items }
    requires viewers { CameWith board.now viewers.0 × CameWith board.now viewers.1 × CameWith board.now viewers.2
        × CameWith board.now viewers.3 }
{
    let (a, b, c, d) = viewers;
    thread::scope(
        thread::scope_env(),
        rt,
        |scope| -> (Option<String>, u32)
            requires seats { All (WorksAt board.now) seats.items }
            requires viewers { CameWith board.now a × CameWith board.now b × CameWith board.now c
                × CameWith board.now d }
        {
            let first = scope.spawn(
                move || -> bool
                    requires { CameWith board.now a }
                { sees_no_fall(board, a) },
            );
            let second = scope.spawn(
                move || -> bool
                    requires { CameWith board.now b }
                { sees_no_fall(board, b) },
            );
            let third = scope.spawn(
                move || -> bool
                    requires { CameWith board.now c }
                { sees_no_fall(board, c) },
            );
            let fourth = scope.spawn(
                move || -> bool
                    requires { CameWith board.now d }
                { sees_no_fall(board, d) },
            );
            let answer = bench.replicate_on(rt, &Open, board, seats, TWO_ROWS);
            let mut well = 0;
            if let Ok(viewer) = first {
                well += u32::from(viewer.join(rt));
            }
            if let Ok(viewer) = second {
                well += u32::from(viewer.join(rt));
            }
            if let Ok(viewer) = third {
                well += u32::from(viewer.join(rt));
            }
            if let Ok(viewer) = fourth {
                well += u32::from(viewer.join(rt));
            }
            (answer, well)
        },
    )
}

#[test]
fn progress_shown(rt: HostRuntime) {
    let Some((board, seats, viewer)) = board_for(rt.alloc(), 1) else {
        rt.panic(format_args!("no board"))
    };
    let mut viewer = viewer;
    let mut bench = Bench::new(rt.alloc(), 1);
    bench.run(&rt, TWO);
    let answer = bench.replicate_on(&rt, &Open, &board, seats, TWO_ROWS);
    expect_answer(&rt, 3, answer, WELL_TWO);
    assert_eq!(rt; board.read(&mut viewer), (2, 2));
}

// A viewer reads the board while the writer is blocked. The test fails if the pool updates the board only at the end of
// a run.
#[test]
fn progress_seen_beside_a_held_writer(rt: HostRuntime) {
    let Some((board, seats, viewer)) = board_for(rt.alloc(), 2) else {
        rt.panic(format_args!("no board"))
    };
    let gate = HoldsSettled::new();
    let mut bench = Bench::new(rt.alloc(), 2);
    bench.run(&rt, FORTY);
    let (answer, seen) = run_held(&rt, &mut bench, &gate, &board, seats, viewer);
    expect_answer(&rt, 3, answer, WELL_FORTY);
    assert!(rt; !gate.ran_out.load(Ordering::SeqCst), "out of turns");
    let (settled, read) = seen.expect(&rt, "a reader");
    assert!(rt; settled >= 2 && read >= settled, "{settled} of {read}");
}

#[test]
fn progress_never_falls(rt: HostRuntime) {
    let Some((board, seats, viewers)) = board_for_four(rt.alloc(), 8) else {
        rt.panic(format_args!("no board"))
    };
    let mut bench = Bench::new(rt.alloc(), 8);
    bench.run(&rt, FORTY);
    let (answer, well) = run_watched(&rt, &mut bench, &board, seats, viewers);
    expect_answer(&rt, 3, answer, WELL_FORTY);
    assert_eq!(rt; well, 4);
}
