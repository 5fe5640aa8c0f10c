//! The state of a seat (an access token for a progress board), and the rule that the board's counters always satisfy.
//!
//! No value of the types in this file exists at run time. The types of this file represent what proofs know about the
//! counters of a board.

use atomic_table::{Play, Split, TableRule};
use std::collections::LinkedList;

/// The state of a seat (an access token for a progress board): the seat's kind and number, and a lower bound of each
/// counter.
pub struct SeatView {
    pub deals: bool,
    pub works: bool,
    pub number: u64,
    pub reads: LinkedList<u64>,
    pub settles: LinkedList<u64>,
}

/// The rule that the counters of a board always satisfy. On a board of k workers, counter i is the number of documents
/// that worker i has read. Counter k + i is the number of documents that worker i has settled.
pub struct BoardRule;

impl TableRule<(), SeatView, u64> for BoardRule {
    ghost use Rattle.progress_board.specs.Rule.{Kept, dealer};

    ghost holds = { λ k s. Kept k s.words s.views };

    ghost first = { λ k. dealer k 0 };
}

/// The step in which a worker adds a number to its read counter on the board.
pub struct AddsRead;

impl Play<(), SeatView> for AddsRead {
    ghost use Rattle.std.specs.Prelude.{◌≡◌};
    ghost use Rattle.progress_board.specs.Rule.{added_read};

    ghost then = { λ st v n w. (w.0 ≡ added_read v.0 st.first) × (w.1 ≡ v.1) };
}

/// The step in which a worker adds a number to its settled counter on the board.
pub struct AddsSettled;

impl Play<(), SeatView> for AddsSettled {
    ghost use Rattle.std.specs.Prelude.{◌≡◌};
    ghost use Rattle.progress_board.specs.Rule.{added_settled};

    ghost then = { λ st v n w. (w.0 ≡ added_settled v.0 st.first) × (w.1 ≡ v.1) };
}

/// The step that loads a worker's read counter through a seat (an access token for a progress board).
pub struct LooksAtRead;

impl Play<(), SeatView> for LooksAtRead {
    ghost use Rattle.std.specs.Prelude.{◌≡◌};
    ghost use Rattle.progress_board.specs.Rule.{SeesRead};

    ghost then = { λ st v n w. SeesRead v.0 st.word n w.0 × (w.1 ≡ v.1) };
}

/// The step that loads a worker's settled counter through a seat (an access token for a progress board).
pub struct LooksAtSettled;

impl Play<(), SeatView> for LooksAtSettled {
    ghost use Rattle.std.specs.Prelude.{◌≡◌, ◌-◌, length};
    ghost use Rattle.progress_board.specs.Rule.{SeesSettled};

    ghost then = { λ st v n w. SeesSettled v.0 (st.word - length v.0.reads) n w.0 × (w.1 ≡ v.1) };
}

/// The step that creates a worker's seat (access token) on a board. The seat has the worker's number.
pub struct ToWorker;

impl Split<SeatView> for ToWorker {
    ghost use Rattle.progress_board.specs.Rule.{dealt, hired};

    ghost left = { dealt };

    ghost right = { hired };
}

/// The step that creates a viewer's seat (access token) on a board.
pub struct ToViewer;

impl Split<SeatView> for ToViewer {
    ghost use Rattle.progress_board.specs.Rule.{viewer};

    ghost left = { λ v. v };

    ghost right = { viewer };
}
