//! Collects the results of the workers after they have ended.
ghost use Rattle.std.specs.Prelude.{◌≡◌, ℕ, ◌+◌, ◌<◌, ◌≤◌, ◌++◌, [], List, length, Option, None, IfSome, vec_len, vec_capacity, option_copied, option_to_list};
ghost use Rattle.std.specs.List.{All};
ghost use Rattle.crossbeam_channel.specs.Claims.{view, IsSeatAt};
ghost use Rattle.crossbeam_channel.specs.Ends.{sends_on};
ghost use Rattle.progress_board.specs.declared.seat.BoardSeat.{BoardSeat};
ghost use Rattle.pool_workers.specs.Workers.{FetcherKnows, WriterKnows};
ghost use Rattle.pool_workers.specs.Boards.{held};
ghost use Rattle.pool_workers.specs.Gathered.{FetchedKnows, WrittenKnows, IsOneOf};
ghost use Rattle.pool_workers.specs.Idle.{IsIdle, Shows, fetchers_in, writers_in, seat_of};
ghost use Rattle.pool_workers.specs.Scopes.{HasRest, IsReady, IsStarting};
ghost use Rattle.pool_workers.specs.Sums.{total};

use crate::brands::{SourceBrand, TargetBrand};
use crate::channels::Channels;
use crate::context::Context;
use crate::fault::Halt;
use crate::fetcher::Fetcher;
use crate::gate::Gate;
use crate::parcels::{ParcelCut, ParcelPass};
use crate::show::give_back;
use crate::threads::Owned;
use crate::windows::{WindowCut, WindowPass};
use crate::worker::{Roles, Worker, WorkerHandle};
use crate::writer::Writer;
use progress_board::BoardSeat;
use repl_target::WriteFilter;
use std::sync::Wait;
use std::sync::ledger::{Ledger, Share};
use std::thread::Threads;

/// The results of the fetchers: each fetcher's number of documents, and the reason if a fetcher stopped. If `stopped`
/// is `None`, `sent` is the total number of sent parcels.
#[derive(Drop)]
pub struct FetchedAll {
    pub counts: Vec<u64>,
    pub sent: u64,
    pub stopped: Option<Halt>,
}

/// The results of the writers. If a writer stopped, the field `stopped` is the reason. If no writer stopped, `got` is
/// the total number of settled parcels.
#[derive(Drop)]
pub struct WrittenAll {
    pub got: u64,
    pub stopped: Option<Halt>,
}

/// What the caller's thread owns while workers run. The fields `windows`, `parcels` and `all` are the rights that no
/// running worker has. The list `seats` has the seats of the progress board that no running worker has. The fields
/// `fetched` and `written` have the results of the workers that have ended.
#[derive(Drop)]
pub struct Rest<S: SourceBrand, L: Ledger> {
    pub windows: WindowPass<S>,
    pub parcels: ParcelPass<S>,
    pub all: Share<L>,
    pub fetched: FetchedAll,
    pub written: WrittenAll,
    pub seats: Vec<BoardSeat>,
}

/// Adds the counts of two groups of workers. If a worker stopped or the sum overflows, returns `total` and the reason.
fn count_up(
    total: u64,
    more: u64,
    stopped: Option<Halt>,
    also_stopped: Option<Halt>,
) -> (u64, Option<Halt>)
    ensures sum { result.1 ≡ None → (result.0 ≡ total + more) × (stopped ≡ None) × (also_stopped ≡ None) }
    ensures told { IfSome result.1 (IsOneOf stopped also_stopped) }
{
    match (stopped, also_stopped) {
        (Some(halt), _) => (total, Some(halt)),
        (None, Some(halt)) => (total, Some(halt)),
        (None, None) => match total.checked_add(more) {
            Some(sum) => (sum, None),
            None => (total, Some(Halt::CountFull)),
        },
    }
}

impl FetchedAll {
    /// Adds one fetcher.
    pub fn take_in<S: SourceBrand>(
        &mut self,
        channels: &Channels<S>,
        windows: &mut WindowPass<S>,
        parcels: &mut ParcelPass<S>,
        one: Fetcher<S>,
    )
        requires room { vec_len self.old.counts < vec_capacity self.old.counts }
        requires windows { IsSeatAt (sends_on channels.now.to_fetchers) windows.old × (0 < (view windows.old).parts) }
        requires parcels { IsSeatAt (sends_on channels.now.to_writers) parcels.old × (0 < (view parcels.old).parts) }
        requires one_seats { IsSeatAt (sends_on channels.now.to_fetchers) one.windows
            × IsSeatAt (sends_on channels.now.to_writers) one.parcels }
        requires one_knows { FetcherKnows [] one }
        requires knows { FetchedKnows (view windows.old) (view parcels.old) self.old }
        ensures seats { IsSeatAt (sends_on channels.now.to_fetchers) windows.new
            × IsSeatAt (sends_on channels.now.to_writers) parcels.new }
        ensures windows { ((view windows.new).parts ≡ (view windows.old).parts + 1)
            × ((view windows.new).reads ≡ (view windows.old).reads)
            × ((view windows.new).count ≡ (view windows.old).count) }
        ensures parcels { ((view parcels.new).parts ≡ (view parcels.old).parts + 1)
            × ((view parcels.new).got ≡ (view parcels.old).got) }
        ensures knows { FetchedKnows (view windows.new) (view parcels.new) self.new }
        ensures told { IfSome self.new.stopped (IsOneOf self.old.stopped one.stopped) }
        ensures len { vec_len self.new.counts ≡ vec_len self.old.counts + 1 }
        ensures capacity { vec_capacity self.new.counts ≡ vec_capacity self.old.counts }
    {
        let Fetcher {
            windows: its_windows,
            parcels: its_parcels,
            sent,
            fetched,
            stopped,
        } = one;
        channels
            .to_fetchers
            .absorb::<WindowCut>(windows, its_windows);
        channels
            .to_writers
            .absorb::<ParcelCut>(parcels, its_parcels);
        self.counts.push_reserved(fetched);
        let (sum, halt) = count_up(self.sent, sent, self.stopped.take(), stopped);
        self.sent = sum;
        self.stopped = halt;
    }
}

impl WrittenAll {
    /// Adds one writer.
    pub fn take_in<S: SourceBrand, L: Ledger>(
        &mut self,
        channels: &Channels<S>,
        parcels: &mut ParcelPass<S>,
        all: &mut Share<L>,
        seats: &mut Vec<BoardSeat>,
        one: Writer<S, L>,
    )
        requires parcels { IsSeatAt (sends_on channels.now.to_writers) parcels.old × (0 < (view parcels.old).parts) }
        requires one_seat { IsSeatAt (sends_on channels.now.to_writers) one.parcels }
        requires one_knows { WriterKnows [] one }
        requires knows { WrittenKnows (view parcels.old) all.old.amount self.old }
        requires room { vec_len seats.old + length (option_to_list one.seat) ≤ vec_capacity seats.old }
        ensures seat { IsSeatAt (sends_on channels.now.to_writers) parcels.new }
        ensures parcels { ((view parcels.new).parts ≡ (view parcels.old).parts + 1)
            × ((view parcels.new).sent ≡ (view parcels.old).sent) }
        ensures all { (all.new.parts ≡ all.old.parts + 1) × (all.new.amount ≡ all.old.amount + one.share.amount) }
        ensures knows { WrittenKnows (view parcels.new) all.new.amount self.new }
        ensures told { IfSome self.new.stopped (IsOneOf self.old.stopped one.stopped) }
        ensures free { self.new.stopped ≡ None → (self.old.stopped ≡ None) × (one.stopped ≡ None) }
        ensures seats { seats.new.items ≡ seats.old.items ++ option_to_list one.seat }
        ensures capacity { vec_capacity seats.new ≡ vec_capacity seats.old }
    {
        let Writer {
            parcels: its_parcels,
            share,
            got,
            seat,
            stopped,
        } = one;
        channels
            .to_writers
            .absorb::<ParcelCut>(parcels, its_parcels);
        all.merge(share);
        give_back(seats, seat);
        let (sum, halt) = count_up(self.got, got, self.stopped.take(), stopped);
        self.got = sum;
        self.stopped = halt;
    }
}

impl<F: WriteFilter, S: SourceBrand, T: TargetBrand<F>, L: Ledger, G: Gate, R: Wait> Context<
    '_,
    F,
    S,
    T,
    L,
    G,
    R,
> {
    /// Returns what the caller's thread owns before any worker has started. The result has all rights and seats, but no
    /// results of workers.
    pub fn before_workers(&self, roles: Roles, owned: Owned<S, L>) -> Rest<S, L>
        requires workers { roles.workers ≤ 64 }
        requires owned { IsReady self.now.channels.now (option_copied self.now.board) roles.workers owned }
        ensures starting { IsStarting self.now.channels.now (option_copied self.now.board)
            (G.may_stop self.now.gate.now) roles result.seats.items 0 0 0 [] result }
        ensures seats { result.seats ≡ owned.seats }
    {
        let Owned {
            counts,
            windows,
            parcels,
            all,
            seats,
        } = owned;
        Rest {
            windows,
            parcels,
            all,
            fetched: FetchedAll {
                counts,
                sent: 0,
                stopped: None,
            },
            written: WrittenAll {
                got: 0,
                stopped: None,
            },
            seats,
        }
    }

    /// Adds the results of a worker that has ended, and takes back the worker's rights and seat.
    pub fn take_in(&self, rest: &mut Rest<S, L>, worker: Worker<S, L>)
        requires idle { IsIdle self.now.channels.now (option_copied self.now.board) (G.may_stop self.now.gate.now)
            worker }
        requires rest { (workers : ℕ) × (given : List BoardSeat) × (held : List BoardSeat) × (fetchers : ℕ)
            × (writers : ℕ) × (seat : Option BoardSeat) × Shows (option_copied self.now.board) seat worker
            × HasRest self.now.channels.now (option_copied self.now.board) (G.may_stop self.now.gate.now) workers given
            (fetchers + fetchers_in worker) (writers + writers_in worker) (option_to_list seat ++ held) rest.old }
        ensures { (workers : ℕ) (given : List BoardSeat) (held : List BoardSeat) (fetchers : ℕ) (writers : ℕ)
            (seat : Option BoardSeat) → Shows (option_copied self.now.board) seat worker
            → HasRest self.now.channels.now (option_copied self.now.board) (G.may_stop self.now.gate.now) workers given
            (fetchers + fetchers_in worker) (writers + writers_in worker) (option_to_list seat ++ held) rest.old
            → HasRest self.now.channels.now (option_copied self.now.board) (G.may_stop self.now.gate.now) workers given
            fetchers writers held rest.new }
    {
        match worker {
            Worker::Fetches(fetcher) => {
                rest.fetched.take_in(self.channels, &mut rest.windows, &mut rest.parcels, fetcher);
            }
            Worker::Writes(writer) => {
                rest.written.take_in(
                    self.channels,
                    &mut rest.parcels,
                    &mut rest.all,
                    &mut rest.seats,
                    writer,
                );
            }
            Worker::Both(fetcher, writer) => {
                rest.fetched.take_in(self.channels, &mut rest.windows, &mut rest.parcels, fetcher);
                rest.written.take_in(
                    self.channels,
                    &mut rest.parcels,
                    &mut rest.all,
                    &mut rest.seats,
                    writer,
                );
            }
        }
    }
}

impl<
    F: WriteFilter,
    S: SourceBrand,
    T: TargetBrand<F>,
    L: Ledger,
    G: Gate,
    R: Threads + Wait,
> Context<'_, F, S, T, L, G, R> {
    /// Joins the workers' threads, and collects the results of all workers. The call joins the threads in reverse
    /// order, and thereby returns the seats in their original order.
    pub fn join_all(&self, handles: Vec<WorkerHandle<'_, S, L, G>>, rest: &mut Rest<S, L>)
        requires promised { All
            (λ h. (h.promise.channels.now ≡ self.now.channels.now) × (h.promise.gate.now ≡ self.now.gate.now)
            × (option_copied h.promise.board ≡ option_copied self.now.board)) handles.items }
        requires rest { (workers : ℕ) × (given : List BoardSeat)
            × HasRest self.now.channels.now (option_copied self.now.board) (G.may_stop self.now.gate.now) workers given
            (total (λ h. fetchers_in h.promise.worker.value) handles.items)
            (total (λ h. writers_in h.promise.worker.value) handles.items)
            (held (λ h. seat_of h.promise.worker.value) handles.items) rest.old }
        ensures { (workers : ℕ) (given : List BoardSeat)
            → HasRest self.now.channels.now (option_copied self.now.board) (G.may_stop self.now.gate.now) workers given
            (total (λ h. fetchers_in h.promise.worker.value) handles.entry.items)
            (total (λ h. writers_in h.promise.worker.value) handles.entry.items)
            (held (λ h. seat_of h.promise.worker.value) handles.entry.items) rest.old
            → HasRest self.now.channels.now (option_copied self.now.board) (G.may_stop self.now.gate.now) workers given
            0 0 [] rest.new }
    {
        let mut left = handles;
        while let Some(handle) = left.pop() {
            let worker = handle.join(self.rt);
            self.take_in(rest, worker);
        }
    }
}
