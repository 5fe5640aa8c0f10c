//! An example of a replication by several threads with a progress display. The example has two peers: a shop's
//! database, which stores a thousand orders as documents, and a copy of this database. Four fetchers and four writers
//! replicate the order documents, while a viewer thread reads the progress. The example prints the progress to standard
//! error.
ghost use Rattle.std.specs.Prelude.{◌≡◌, vec_len};
ghost use Rattle.std.specs.List.{All};
ghost use Rattle.progress_board.specs.Seats.{CameWith};
ghost use Rattle.pool_workers.specs.Boards.{WorksAt};

use anyhow::{Result, bail};
use doc_json::{DocId, read_body};
use repl_log::Moment;
use repl_pool::{Board, BoardSeat, Open, Progress, Ran, Seats, board_with_seats, run_on};
use repl_target::{Peer, Plan, Rules};
use rev_tree::SessionId;
use serde_json::Value;
use std::alloc::Global;
use std::io::{Eprint, Print};
use std::sync::Wait;
use std::sync::atomic::{AtomicBool, Ordering};
use std::thread;
use std::thread::{Threads, yield_now};

/// The number of orders.
const ORDERS: u64 = 1_000;

/// The number of fetchers, and the number of writers.
const WORKERS: usize = 4;

/// The maximum number of times that the viewer reads the progress board.
const LOOKS: u64 = 10_000_000;

/// Replicates the peer `shop` (a shop's database with orders) into the peer `copy`, while a viewer reads the progress.
pub fn run<R: Threads + Wait + Print + Eprint + Sync>(rt: &R, alloc: Global) -> Result<()> {
    let mut shop = Peer::new(alloc, 1, Rules { deny: None });
    let copy = Peer::new(alloc, 2, Rules { deny: None });
    write_orders(alloc, &mut shop)?;
    let Seats {
        board,
        workers,
        mut viewers,
    } = board_with_seats(alloc, WORKERS, 1)?;
    let Some(viewer) = viewers.pop() else {
        bail!("a board without viewers");
    };
    let plan = Plan {
        session: SessionId(1),
        workers: WORKERS as u64,
        batch: 10,
        stop_after: None,
        at: Moment::new(1_700_000_000)?,
        chosen: None,
    };
    let progress = Progress {
        board: &board,
        seats: workers,
    };
    let (ran, seen) = run_watched(rt, alloc, shop, copy, &plan, progress, viewer);
    let report = ran.outcome?;
    let (written, recorded) = (report.counts.written, report.recorded);
    println!(rt; "{written} documents written, up to sequence {recorded}")?;
    if let Some((settled, read)) = seen {
        println!(rt; "the viewer saw {settled} of {read} at the end")?;
    }
    Ok(())
}

/// Writes one document for each purchase order of the shop.
fn write_orders(alloc: Global, shop: &mut Peer<Rules>) -> Result<()> {
    let value = Value::from_slice(alloc, br#"{"bread":1}"#)?;
    let body = read_body(alloc, &value)?;
    for number in 0..ORDERS {
        let id = DocId::parse(alloc, format!(in alloc; "order-{number}")?.as_str())?;
        shop.edit(&id, None, false, &body)?;
    }
    Ok(())
}

/// Runs the pool while a viewer reads the progress board. Returns the result of the run, and the totals that the viewer
/// read last from the progress board.
fn run_watched<R: Threads + Wait + Eprint + Sync>(
    rt: &R,
    alloc: Global,
    shop: Peer<Rules>,
    copy: Peer<Rules>,
    plan: &Plan,
    progress: Progress<'_>,
    viewer: BoardSeat,
) -> (Ran<Rules>, Option<(u64, u64)>)
    requires workers { (vec_len progress.seats ≡ plan.now.workers)
        × All (WorksAt progress.board.now) progress.seats.items }
    requires viewer { CameWith progress.board.now viewer }
{
    let board = progress.board;
    let ended = AtomicBool::new(false);
    thread::scope(
        thread::scope_env(),
        rt,
        |scope| -> (Ran<Rules>, Option<(u64, u64)>)
            requires workers { (vec_len progress.seats ≡ plan.now.workers)
                × All (WorksAt progress.board.now) progress.seats.items }
            requires viewer { CameWith board.now viewer }
        {
            let watcher = scope.spawn(
                || -> (u64, u64)
                    requires { CameWith board.now viewer }
                { watch(rt, board, &ended, viewer) },
            );
            let ran = run_on(rt, alloc, shop, copy, plan, &Open, progress);
            ended.store(true, Ordering::SeqCst);
            match watcher {
                Ok(watcher) => (ran, Some(watcher.join(rt))),
                Err(_) => (ran, None),
            }
        },
    )
}

/// Reads the progress board, and prints the totals whenever the totals have changed. The function returns after a read
/// that began after the end of the run, or after `LOOKS` reads.
fn watch<R: Eprint>(rt: &R, board: &Board, ended: &AtomicBool, viewer: BoardSeat) -> (u64, u64)
    requires { CameWith board.now viewer }
{
    let mut viewer = viewer;
    let mut told = (0, 0);
    for _ in 0..LOOKS {
        let last = ended.load(Ordering::SeqCst);
        let seen = board.read(&mut viewer);
        if seen != told {
            let (settled, read) = seen;
            let _ = eprintln!(rt; "{settled} of {read}");
            told = seen;
        }
        if last {
            break;
        }
        yield_now();
    }
    told
}
