//! The steps on a progress board: functions that load a counter, add to a counter, or create a seat (access to the
//! counters). Each load and each addition is one atomic operation, and no step takes a lock.
ghost use Rattle.std.specs.Prelude.{◌≡◌, ◌+◌, ◌<◌, ◌≤◌, true, [], length, slice_index};
ghost use Rattle.progress_board.specs.Rule.{most, added_read, added_settled, dealt, hired, viewer, SeesRead, SeesSettled};

use crate::rule::{
    AddsRead, AddsSettled, BoardRule, LooksAtRead, LooksAtSettled, SeatView, ToViewer, ToWorker,
};
use atomic_table::{Seat, Table};
use std::alloc::Global;

/// The table of a board's counters, two for each worker. The counters always satisfy the rule `BoardRule`.
pub(crate) type BoardTable = Table<(), SeatView, u64, BoardRule, Global>;

/// The part of a seat that gives access to a board's counters, and that has the known facts about the counters.
pub(crate) type Place = Seat<(), SeatView>;

/// Loads the read counter of worker `i`.
pub(crate) fn look_at_read(table: &BoardTable, place: &mut Place, workers: usize, i: usize) -> u64
    requires board { (table.now.shared.key ≡ workers) × (table.now.shared.table_id.words ≡ workers + workers) }
    requires place { (place.old.table_id ≡ table.now.shared.table_id) × (place.old.me.1 ≡ []) }
    requires i { i < workers }
    ensures place { (place.new.table_id ≡ place.old.table_id) × (place.new.me.1 ≡ []) }
    ensures sees { SeesRead place.old.me.0 i result place.new.me.0 }
{
    table.shared.load::<LooksAtRead>(place, i)
}

/// Adds to the read counter of the seat's worker.
pub(crate) fn add_to_read(
    table: &BoardTable,
    place: &mut Place,
    workers: usize,
    number: usize,
    n: u64,
)
    requires board { (table.now.shared.key ≡ workers) × (table.now.shared.table_id.words ≡ workers + workers) }
    requires place { (place.old.table_id ≡ table.now.shared.table_id) × (place.old.me.1 ≡ []) }
    requires own { (place.old.me.0.works ≡ true) × (place.old.me.0.number ≡ number) × (number < workers) }
    requires fits { slice_index place.old.me.0.reads number + n ≤ most }
    ensures place { (place.new.table_id ≡ place.old.table_id) × (place.new.me.1 ≡ []) }
    ensures added { place.new.me.0 ≡ added_read place.old.me.0 n }
{
    table.shared.fetch_add::<AddsRead>(place, number, n);
}

/// Loads the settled counter of worker `i`.
pub(crate) fn look_at_settled(
    table: &BoardTable,
    place: &mut Place,
    workers: usize,
    i: usize,
) -> u64
    requires board { (table.now.shared.key ≡ workers) × (table.now.shared.table_id.words ≡ workers + workers)
        × (workers ≤ 64) }
    requires place { (place.old.table_id ≡ table.now.shared.table_id) × (place.old.me.1 ≡ [])
        × (length place.old.me.0.reads ≡ workers) }
    requires i { i < workers }
    ensures place { (place.new.table_id ≡ place.old.table_id) × (place.new.me.1 ≡ []) }
    ensures sees { SeesSettled place.old.me.0 i result place.new.me.0 }
{
    table.shared.load::<LooksAtSettled>(place, workers + i)
}

/// Adds `n` to the counter of settled documents of the worker to whom the seat belongs.
pub(crate) fn add_to_settled(
    table: &BoardTable,
    place: &mut Place,
    workers: usize,
    number: usize,
    n: u64,
)
    requires board { (table.now.shared.key ≡ workers) × (table.now.shared.table_id.words ≡ workers + workers)
        × (workers ≤ 64) }
    requires place { (place.old.table_id ≡ table.now.shared.table_id) × (place.old.me.1 ≡ []) }
    requires own { (place.old.me.0.works ≡ true) × (place.old.me.0.number ≡ number) × (number < workers) }
    requires fits { slice_index place.old.me.0.settles number + n ≤ slice_index place.old.me.0.reads number }
    ensures place { (place.new.table_id ≡ place.old.table_id) × (place.new.me.1 ≡ []) }
    ensures added { place.new.me.0 ≡ added_settled place.old.me.0 n }
{
    table
        .shared
        .fetch_add::<AddsSettled>(place, workers + number, n);
}

/// Creates a worker's seat (an access token for a progress board) from the board's dealer (the creator of seats).
pub(crate) fn hire(table: &BoardTable, dealer: &mut Place, workers: usize) -> Place
    requires board { (table.now.shared.key ≡ workers) × (table.now.shared.table_id.words ≡ workers + workers) }
    requires dealer { (dealer.old.table_id ≡ table.now.shared.table_id) × (dealer.old.me.1 ≡ [])
        × (dealer.old.me.0.deals ≡ true) × (dealer.old.me.0.number < workers) }
    ensures dealer { (dealer.new.table_id ≡ dealer.old.table_id) × (dealer.new.me ≡ (dealt dealer.old.me.0, [])) }
    ensures worker { (result.table_id ≡ dealer.old.table_id) × (result.me ≡ (hired dealer.old.me.0, [])) }
{
    table.shared.split_seat::<ToWorker>(dealer)
}

/// Creates a viewer's seat (an access token for a progress board) from the board's dealer (the creator of seats).
pub(crate) fn admit(table: &BoardTable, dealer: &mut Place, workers: usize) -> Place
    requires board { (table.now.shared.key ≡ workers) × (table.now.shared.table_id.words ≡ workers + workers)
        × (0 < workers) }
    requires dealer { (dealer.old.table_id ≡ table.now.shared.table_id) × (dealer.old.me.1 ≡ []) }
    ensures dealer { (dealer.new.table_id ≡ dealer.old.table_id) × (dealer.new.me ≡ (dealer.old.me.0, [])) }
    ensures viewer { (result.table_id ≡ dealer.old.table_id) × (result.me ≡ (viewer dealer.old.me.0, [])) }
{
    table.shared.split_seat::<ToViewer>(dealer)
}
