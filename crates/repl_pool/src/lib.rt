//! A pool of fetchers and writers that replicates one peer into another.
//!
//! The rules are in docs/PROFILE.md, "The pool".
#![tactic(auto)]

mod begin;
mod both_ways;
mod end;
mod running;
mod seats;

pub use begin::check_run;
pub use both_ways::{SyncFault, SyncRan, sync};
pub use pool_workers::{Gate, Open, Place, PoolFault, Turn};
pub use progress_board::{Board, BoardFault, BoardSeat, MOST_WORKERS};
pub use running::{Progress, Ran, run, run_on};
pub use seats::{Seats, board_with_seats};
