//! Seats (access tokens) of a progress board.
ghost use Rattle.std.specs.Prelude.{◌≡◌, ◌<◌, ◌≤◌, ℕ, true, [], length, slice_index};
ghost use Rattle.progress_board.specs.Rule.{most, IsFresh};

use crate::steps::Place;

/// A seat (an access token for a progress board). A seat belongs to a viewer, or to a worker with a number and two
/// counters.
///
/// A seat knows a lower bound of each counter of the board. The bound is the greatest value that the counter, as far as
/// the seat knows, has reached. Only the holder of a worker's seat can change that worker's counters.
#[derive(Drop)]
pub struct BoardSeat {
    pub(crate) place: Place,
    pub(crate) works: bool,
    pub(crate) number: usize,
    pub(crate) read: u64,
    pub(crate) settled: u64,
    ghost empty: { place.me.1 ≡ [] },
    ghost role: { place.me.0.works ≡ works },
    ghost named: { place.me.0.number ≡ number },
    ghost read_is: { works ≡ true → slice_index place.me.0.reads number ≡ read },
    ghost settled_is: { works ≡ true → slice_index place.me.0.settles number ≡ settled },
    ghost limit: { read ≤ most },
    ghost in_order: { settled ≤ read },
    ghost ordered: { (j : ℕ) → slice_index place.me.0.settles j ≤ slice_index place.me.0.reads j },
    ghost sizes: { length place.me.0.settles ≡ length place.me.0.reads },
    ghost held: { works ≡ true → number < length place.me.0.reads },
}

/// Creates a seat (an access token for a progress board) that has not yet loaded a counter of the board.
pub(crate) fn seat_of(place: Place, works: bool, number: usize, workers: usize) -> BoardSeat
    requires empty { place.me.1 ≡ [] }
    requires fresh { IsFresh workers works number place.me.0 }
    requires held { works ≡ true → number < workers }
    ensures place { (result.place.table_id ≡ place.table_id) × (result.place.me ≡ place.me) }
    ensures own { (result.works ≡ works) × (result.number ≡ number) × (result.read ≡ 0) × (result.settled ≡ 0) }
{
    BoardSeat {
        place,
        works,
        number,
        read: 0,
        settled: 0,
    }
}
