//! The workers of a run. A worker is a fetcher, a writer, or both on one thread.
ghost use Rattle.std.specs.Prelude.{◌≡◌, ◌+◌, ◌<◌, ◌≤◌, Option, option_copied};
ghost use Rattle.progress_board.specs.declared.seat.BoardSeat.{BoardSeat};
ghost use Rattle.pool_workers.specs.Idle.{IsIdle, Shows, Keeps, fetchers_in, writers_in, seat_of};
ghost use Rattle.pool_workers.specs.Scopes.{MayStart, HasStarted};

use crate::brands::{SourceBrand, TargetBrand};
use crate::channels::Channels;
use crate::context::Context;
use crate::fetcher::Fetcher;
use crate::gate::Gate;
use crate::gather::Rest;
use crate::writer::Writer;
use progress_board::Board;
use repl_target::WriteFilter;
use std::snapshot::Snapshot;
use std::sync::Wait;
use std::sync::ledger::Ledger;
use std::thread::{Promise, PromisedHandle};

/// A worker of a run, with its roles and the state of each role.
#[derive(Drop)]
pub enum Worker<S: SourceBrand, L: Ledger> {
    /// A worker that only fetches.
    Fetches(Fetcher<S>),
    /// A worker that only writes.
    Writes(Writer<S, L>),
    /// A worker that alternates between fetching and writing.
    Both(Fetcher<S>, Writer<S, L>),
}

/// The roles of the workers of a run. A run has `workers` fetchers and `workers` writers.
///
/// The workers are numbered from 0, in the order in which they start. A worker whose number is less than `alone` only
/// writes. A worker whose number is `workers` or more only fetches. Every other worker has both roles.
#[derive(Clone, Copy)]
pub struct Roles {
    pub workers: usize,
    pub alone: usize,
}

impl Roles {
    /// Returns the roles of a run with the given number of fetchers. If the gate (a callback) may block a worker, each
    /// worker either fetches or writes. A blocked fetcher then does not keep a writer from writing. If the gate never
    /// blocks, each worker both fetches and writes.
    pub fn of(workers: usize, may_block: bool) -> Roles
        ensures workers { result.workers ≡ workers }
        ensures alone { result.alone ≤ workers }
    {
        if may_block {
            return Roles {
                workers,
                alone: workers,
            };
        }
        Roles { workers, alone: 0 }
    }
}

/// What a thread promises about the worker that the thread returns when it ends (`kept_by`). The field `worker` is the
/// worker as it started.
#[derive(Drop)]
pub struct WorkerPromise<'a, S: SourceBrand, L: Ledger, G: Gate> {
    pub channels: &'a Channels<S>,
    pub gate: &'a G,
    pub board: Option<&'a Board>,
    pub worker: Snapshot<Worker<S, L>>,
}

impl<'a, S: SourceBrand, L: Ledger, G: Gate> Promise<Worker<S, L>> for WorkerPromise<'a, S, L, G> {
    ghost kept_by = { λ p r. Keeps p.channels.now (option_copied p.board) (G.may_stop p.gate.now) p.worker.value r };
}

/// The handle of a started worker's thread.
pub type WorkerHandle<'e, S, L, G> = PromisedHandle<Worker<S, L>, WorkerPromise<'e, S, L, G>>;

impl<F: WriteFilter, S: SourceBrand, T: TargetBrand<F>, L: Ledger, G: Gate, R: Wait> Context<
    '_,
    F,
    S,
    T,
    L,
    G,
    R,
> {
    /// Creates the worker with the given number (`Roles`). The worker takes its rights to use the channels from `rest`.
    /// If the worker writes and the run has a progress board, the worker also takes the last seat in `rest`.
    pub fn new_worker(&self, roles: Roles, number: usize, rest: &mut Rest<S, L>) -> Worker<S, L>
        requires roles { (roles.alone ≤ roles.workers) × (roles.workers ≤ 64) }
        requires number { number < roles.alone + roles.workers }
        requires starting { MayStart self.now.channels.now (option_copied self.now.board)
            (G.may_stop self.now.gate.now) roles number rest.old }
        ensures idle { IsIdle self.now.channels.now (option_copied self.now.board) (G.may_stop self.now.gate.now)
            result }
        ensures shows { Shows (option_copied self.now.board) (seat_of result) result }
        ensures started { HasStarted self.now.channels.now (option_copied self.now.board)
            (G.may_stop self.now.gate.now) roles number rest.old rest.new result }
    {
        if number < roles.alone {
            let writer = self.writer_here(&mut rest.parcels, &mut rest.all, &mut rest.seats);
            return Worker::Writes(writer);
        }
        let fetcher = self.fetcher_here(&mut rest.windows, &mut rest.parcels);
        if number < roles.workers {
            let writer = self.writer_here(&mut rest.parcels, &mut rest.all, &mut rest.seats);
            return Worker::Both(fetcher, writer);
        }
        Worker::Fetches(fetcher)
    }

    /// Runs one turn of a worker. A worker that only fetches takes a window. A worker that only writes takes a parcel.
    /// A worker with both roles takes a window, and then a parcel if it sent a parcel in this turn.
    ///
    /// Returns false if the worker has taken its end message. A worker that only fetches takes its end message, and
    /// then sends one end message to the writers. A worker with both roles sends no end message, because another worker
    /// could take this message instead of a parcel.
    pub fn take_turn(&self, worker: &mut Worker<S, L>) -> bool
        requires source { S.source ≡ self.now.source.now.1.db }
        requires idle { IsIdle self.now.channels.now (option_copied self.now.board) (G.may_stop self.now.gate.now)
            worker.old }
        ensures idle { IsIdle self.now.channels.now (option_copied self.now.board) (G.may_stop self.now.gate.now)
            worker.new }
        ensures fetchers { fetchers_in worker.new ≡ fetchers_in worker.old }
        ensures writers { writers_in worker.new ≡ writers_in worker.old }
        ensures shows { (given : Option BoardSeat) → Shows (option_copied self.now.board) given worker.old
            → Shows (option_copied self.now.board) given worker.new }
    {
        match worker {
            Worker::Fetches(fetcher) => {
                if self.take_window(fetcher) {
                    return true;
                }
                fetcher.tell_end(self.rt, &self.channels.to_writers);
                false
            }
            Worker::Writes(writer) => self.take_parcel(writer),
            Worker::Both(fetcher, writer) => {
                let sent = fetcher.sent;
                let more = self.take_window(fetcher);
                if fetcher.sent > sent {
                    self.take_parcel(writer);
                }
                more
            }
        }
    }

    /// Runs the turns of a worker until the worker receives its end message.
    pub fn run_worker(&self, worker: Worker<S, L>) -> Worker<S, L>
        requires source { S.source ≡ self.now.source.now.1.db }
        requires idle { IsIdle self.now.channels.now (option_copied self.now.board) (G.may_stop self.now.gate.now)
            worker }
        requires shows { Shows (option_copied self.now.board) (seat_of worker) worker }
        ensures { Keeps self.now.channels.now (option_copied self.now.board) (G.may_stop self.now.gate.now) worker
            result }
    {
        let mut worker = worker;
        for _ in self.rt.forever() {
            if !self.take_turn(&mut worker) {
                return worker;
            }
        }
        unreachable!()
    }
}
