//! A board of counters that threads share without a lock. The board shows how many documents each worker has read and
//! settled, and viewers read the totals.
//!
//! A worker changes only its own two counters. The totals that are read through one seat never decrease, and include
//! only documents that workers added. The settled total never exceeds the read total. The specification of the board is
//! in docs/PROFILE.md, "The progress board".
#![tactic(auto)]

mod board;
mod fault;
mod making;
mod rule;
mod seat;
mod steps;

pub use board::Board;
pub use fault::BoardFault;
pub use making::MOST_WORKERS;
pub use seat::BoardSeat;
