//! A board with two counters for each worker, one for documents read and one for documents settled.
ghost use Rattle.std.specs.Prelude.{◌≡◌, ◌+◌, ◌<◌, ◌≤◌, None, Some, true, IfErr, OnOk, OnErr, sum};
ghost use Rattle.progress_board.specs.Rule.{SeesRead, SeesSettled};

use crate::fault::BoardFault;
use crate::seat::BoardSeat;
use crate::steps::{BoardTable, add_to_read, add_to_settled, look_at_read, look_at_settled};

/// A board of counters that threads share. For each worker, the board counts the documents that the worker has read and
/// the documents that the worker has settled.
#[derive(Drop)]
pub struct Board {
    table: BoardTable,
    workers: usize,
    ghost key_is: { table.shared.key ≡ workers },
    ghost sized: { table.shared.table_id.words ≡ workers + workers },
    ghost some: { 0 < workers },
    ghost few: { workers ≤ 64 },
}

/// The greatest count, 2^53 - 1.
const MOST: u64 = 9_007_199_254_740_991;

/// Creates a board from a table of counters.
pub(crate) fn board_of(table: BoardTable, workers: usize) -> Board
    requires { (table.shared.key ≡ workers) × (table.shared.table_id.words ≡ workers + workers) × (0 < workers)
        × (workers ≤ 64) }
    ensures { (result.table.shared.table_id ≡ table.shared.table_id) × (result.workers ≡ workers) }
{
    Board { table, workers }
}

impl Board {
    ghost use Rattle.progress_board.specs.Seats.{CameWith, IsLater, SameSeat, read_refusal, settled_refusal, seen_read, seen_settled, SeesItself};

    /// Loads all counters, and returns two totals: the sum of the settled counters, and the sum of the read counters.
    ///
    /// The settled total is at most the read total. In repeated calls of `read` with the same seat, neither the settled
    /// total nor the read total decreases. If the seat is a worker's, the totals include all additions that this worker
    /// has made. The call does not block and does not allocate. The seat must have been created together with this
    /// board.
    pub fn read(&self, seat: &mut BoardSeat) -> (u64, u64)
        requires came { CameWith self.now seat.old }
        ensures came { CameWith self.now seat.new }
        ensures seen { (seen_settled seat.new ≡ result.0) × (seen_read seat.new ≡ result.1) }
        ensures in_order { result.0 ≤ result.1 }
        ensures later { (seen_settled seat.old ≤ result.0) × (seen_read seat.old ≤ result.1) }
        ensures own { SeesItself seat.new result.0 result.1 }
        ensures same { SameSeat seat.old seat.new }
    {
        let settled = self.sum_settled(seat);
        let read = self.sum_read(seat);
        (settled, read)
    }

    /// Adds to the number of documents that the seat's worker has read.
    ///
    /// # Errors
    ///
    /// Checked in this order; an error changes nothing:
    ///
    /// - `NotWorker`: the seat is a viewer's.
    /// - `BoardFull`: the worker's counter would exceed 2^53 - 1.
    ///
    /// The call does not block and does not allocate. The seat must have been created together with this board.
    pub fn add_read(&self, seat: &mut BoardSeat, n: u64) -> Result<(), BoardFault>
        requires came { CameWith self.now seat.old }
        ensures came { CameWith self.now seat.new }
        ensures ok { OnOk result (read_refusal seat.old n ≡ None) }
        ensures own { OnOk result ((seat.new.read ≡ seat.old.read + n) × (seat.new.settled ≡ seat.old.settled)) }
        ensures seen { OnOk result
            ((seen_read seat.new ≡ seen_read seat.old + n) × (seen_settled seat.new ≡ seen_settled seat.old)) }
        ensures seat { (seat.new.works ≡ seat.old.works) × (seat.new.number ≡ seat.old.number) }
        ensures err { IfErr result (λ e. read_refusal seat.old n ≡ Some e) }
        ensures kept { OnErr result (seat.new ≡ seat.old) }
    {
        if !seat.works {
            return Err(BoardFault::NotWorker);
        }
        if n > MOST - seat.read {
            return Err(BoardFault::BoardFull);
        }
        let number = seat.number;
        let BoardSeat { place, read, .. } = seat;
        add_to_read(&self.table, place, self.workers, number, n);
        *read += n;
        Ok(())
    }

    /// Adds to the number of documents that the seat's worker has settled.
    ///
    /// # Errors
    ///
    /// Checked in this order; an error changes nothing:
    ///
    /// - `NotWorker`: the seat is a viewer's.
    /// - `AheadOfRead`: the worker would have settled more than it has read.
    ///
    /// The call does not block and does not allocate. The seat must have been created together with this board.
    pub fn add_settled(&self, seat: &mut BoardSeat, n: u64) -> Result<(), BoardFault>
        requires came { CameWith self.now seat.old }
        ensures came { CameWith self.now seat.new }
        ensures ok { OnOk result (settled_refusal seat.old n ≡ None) }
        ensures own { OnOk result ((seat.new.settled ≡ seat.old.settled + n) × (seat.new.read ≡ seat.old.read)) }
        ensures seen { OnOk result
            ((seen_settled seat.new ≡ seen_settled seat.old + n) × (seen_read seat.new ≡ seen_read seat.old)) }
        ensures seat { (seat.new.works ≡ seat.old.works) × (seat.new.number ≡ seat.old.number) }
        ensures err { IfErr result (λ e. settled_refusal seat.old n ≡ Some e) }
        ensures kept { OnErr result (seat.new ≡ seat.old) }
    {
        if !seat.works {
            return Err(BoardFault::NotWorker);
        }
        if n > seat.read - seat.settled {
            return Err(BoardFault::AheadOfRead);
        }
        let number = seat.number;
        let BoardSeat { place, settled, .. } = seat;
        add_to_settled(&self.table, place, self.workers, number, n);
        *settled += n;
        Ok(())
    }

    /// Loads the settled counters of all workers, and returns their sum.
    fn sum_settled(&self, seat: &mut BoardSeat) -> u64
        requires came { CameWith self.now seat.old }
        ensures came { CameWith self.now seat.new }
        ensures sum { result ≡ sum seat.new.place.me.0.settles }
        ensures up { IsLater seat.old.place.me.0 seat.new.place.me.0 }
        ensures same { SameSeat seat.old seat.new }
    {
        let mut sum = 0;
        for i in 0..self.workers {
            sum += self.look_settled(seat, i);
        }
        sum
    }

    /// Loads the read counters of all workers, and returns their sum.
    fn sum_read(&self, seat: &mut BoardSeat) -> u64
        requires came { CameWith self.now seat.old }
        ensures came { CameWith self.now seat.new }
        ensures sum { result ≡ sum seat.new.place.me.0.reads }
        ensures settles { seat.new.place.me.0.settles ≡ seat.old.place.me.0.settles }
        ensures up { IsLater seat.old.place.me.0 seat.new.place.me.0 }
        ensures same { SameSeat seat.old seat.new }
    {
        let mut sum = 0;
        for i in 0..self.workers {
            sum += self.look_read(seat, i);
        }
        sum
    }

    /// Loads the settled counter of worker `i`.
    fn look_settled(&self, seat: &mut BoardSeat, i: usize) -> u64
        requires came { CameWith self.now seat.old }
        requires i { i < self.now.workers }
        ensures came { CameWith self.now seat.new }
        ensures sees { SeesSettled seat.old.place.me.0 i result seat.new.place.me.0 }
        ensures same { SameSeat seat.old seat.new }
    {
        look_at_settled(&self.table, &mut seat.place, self.workers, i)
    }

    /// Loads the read counter of worker `i`.
    fn look_read(&self, seat: &mut BoardSeat, i: usize) -> u64
        requires came { CameWith self.now seat.old }
        requires i { i < self.now.workers }
        ensures came { CameWith self.now seat.new }
        ensures sees { SeesRead seat.old.place.me.0 i result seat.new.place.me.0 }
        ensures same { SameSeat seat.old seat.new }
    {
        look_at_read(&self.table, &mut seat.place, self.workers, i)
    }
}
