//! Starting the workers.
ghost use Rattle.std.specs.Prelude.{◌≡◌, ◌+◌, ◌<◌, ◌≤◌, [], None, IfSome, vec_len, option_copied};
ghost use Rattle.std.specs.List.{All};
ghost use Rattle.crossbeam_channel.specs.Claims.{view, IsSeatAt};
ghost use Rattle.crossbeam_channel.specs.Ends.{sends_on};
ghost use Rattle.pool_workers.specs.Boards.{held};
ghost use Rattle.pool_workers.specs.Idle.{IsIdle, Shows, Keeps, fetchers_in, writers_in, seat_of};
ghost use Rattle.pool_workers.specs.Scopes.{HasRest, IsStarting, MayStart, HasStarted, HasReturned};
ghost use Rattle.pool_workers.specs.Sums.{total};
ghost use Rattle.pool_workers.specs.Windows.{window_view};

use crate::brands::{SourceBrand, TargetBrand};
use crate::context::Context;
use crate::ends::{end_parcels, end_windows};
use crate::gate::Gate;
use crate::gather::Rest;
use crate::parcels::ParcelPass;
use crate::windows::WindowPass;
use crate::worker::{Roles, Worker, WorkerHandle, WorkerPromise};
use repl_target::WriteFilter;
use std::snapshot::Snapshot;
use std::sync::Wait;
use std::sync::ledger::Ledger;
use std::thread::Scope;

impl<
    'e,
    F: WriteFilter + Send + Sync,
    S: SourceBrand + Send + Sync,
    T: TargetBrand<F> + Send + Sync,
    L: Ledger + Send + Sync,
    G: Gate + Sync,
    R: Wait + Sync,
> Context<'e, F, S, T, L, G, R> {
    /// Sends the end messages for the first `running` workers (`Roles`). A worker without an end message would run
    /// forever, so the numbers of end messages must be exact.
    ///
    /// - Each fetcher takes one end message from the channel of windows.
    /// - Each writer without a fetcher takes one end message from the channel of parcels.
    /// - Each fetcher without a writer sends one end message to the writers when it ends (`take_turn`). The call sends
    ///   only those end messages to the writers that no fetcher sends.
    /// - A worker with both roles ends when its fetcher ends, so its writer takes no end message.
    ///
    /// Each channel has capacity for two messages per fetcher. If no window has been read, both channels therefore have
    /// capacity for all end messages.
    pub fn end_workers(
        &self,
        roles: Roles,
        running: usize,
        windows: &mut WindowPass<S>,
        parcels: &mut ParcelPass<S>,
    )
        requires roles { (roles.alone ≤ roles.workers) × (roles.workers ≤ 64) }
        requires running { running ≤ roles.alone + roles.workers }
        requires windows { IsSeatAt (sends_on self.now.channels.now.to_fetchers) windows.old
            × (0 < (view windows.old).parts) }
        requires parcels { IsSeatAt (sends_on self.now.channels.now.to_writers) parcels.old
            × (0 < (view parcels.old).parts) }
        ensures windows { IsSeatAt (sends_on self.now.channels.now.to_fetchers) windows.new
            × (view windows.new ≡ view windows.old) }
        ensures parcels { IsSeatAt (sends_on self.now.channels.now.to_writers) parcels.new
            × (view parcels.new ≡ view parcels.old) }
    {
        // A worker whose number is at least `alone` is a fetcher.
        let fetchers = running.saturating_sub(roles.alone);
        // A worker whose number is below `alone` only writes.
        let lone_writers = running.min(roles.alone);
        // A worker whose number is at least `workers` only fetches.
        let lone_fetchers = running.saturating_sub(roles.workers);
        end_windows(self.rt, self.channels, windows, fetchers);
        end_parcels(
            self.rt,
            self.channels,
            parcels,
            lone_writers - lone_fetchers,
        );
    }

    /// Creates the worker with the given number, and starts the worker on a thread of its own.
    ///
    /// Returns `None` if the thread cannot be created. Before the call returns `None`, it sends the end messages for
    /// the running workers and the new worker. The call then runs the new worker on this thread until the worker takes
    /// its end message. Finally, the call takes back the new worker's rights and seat (`take_in`).
    fn start_worker<'s, E>(
        &'e self,
        scope: &Scope<'s, E>,
        roles: Roles,
        number: usize,
        rest: &mut Rest<S, L>,
    ) -> Option<WorkerHandle<'e, S, L, G>>
    where
        'e: 's,
        requires source { S.source ≡ self.now.source.now.1.db }
        requires roles { (roles.alone ≤ roles.workers) × (roles.workers ≤ 64) }
        requires number { number < roles.alone + roles.workers }
        requires starting { MayStart self.now.channels.now (option_copied self.now.board)
            (G.may_stop self.now.gate.now) roles number rest.old }
        ensures promised { IfSome result
            (λ h. (h.promise.channels.now ≡ self.now.channels.now) × (h.promise.gate.now ≡ self.now.gate.now)
            × (option_copied h.promise.board ≡ option_copied self.now.board)) }
        ensures started { IfSome result
            (λ h. HasStarted self.now.channels.now (option_copied self.now.board) (G.may_stop self.now.gate.now) roles
            number rest.old rest.new h.promise.worker.value) }
        ensures returned { result ≡ None → HasReturned self.now.channels.now (option_copied self.now.board)
            (G.may_stop self.now.gate.now) roles number rest.old rest.new }
    {
        let context = self;
        let worker = self.new_worker(roles, number, rest);
        let promise = WorkerPromise {
            channels: self.channels,
            gate: self.gate,
            board: self.board,
            worker: Snapshot::of(&worker),
        };
        let work = move || -> Worker<S, L>
            requires source { S.source ≡ context.now.source.now.1.db }
            requires idle { IsIdle context.now.channels.now (option_copied context.now.board)
                (G.may_stop context.now.gate.now) worker }
            requires shows { Shows (option_copied context.now.board) (seat_of worker) worker }
            ensures { Keeps context.entry.now.channels.now (option_copied context.entry.now.board)
                (G.may_stop context.entry.now.gate.now) worker result }
        { context.run_worker(worker) };
        match scope.spawn_with(promise, work) {
            Ok(handle) => Some(handle),
            Err(refused) => {
                // `number` workers already run on their own threads. The new worker runs on this thread. Therefore,
                // `number + 1` workers must end.
                self.end_workers(roles, number + 1, &mut rest.windows, &mut rest.parcels);
                let worker = (refused.value)();
                self.take_in(rest, worker);
                None
            }
        }
    }

    /// Starts all workers of a run, in the order of their numbers. If an allocation fails, the call starts no worker,
    /// and therefore sends no end message. If a thread cannot be created, the call starts no further worker. The failed
    /// call of `start_worker` has then sent the end messages for the started workers.
    pub fn start_all<'s, E>(
        &'e self,
        scope: &Scope<'s, E>,
        roles: Roles,
        rest: &mut Rest<S, L>,
    ) -> Vec<WorkerHandle<'e, S, L, G>>
    where
        'e: 's,
        requires source { S.source ≡ self.now.source.now.1.db }
        requires roles { (roles.alone ≤ roles.workers) × (roles.workers ≤ 64) }
        requires starting { IsStarting self.now.channels.now (option_copied self.now.board)
            (G.may_stop self.now.gate.now) roles rest.old.seats.items 0 0 0 [] rest.old }
        ensures most { vec_len result ≤ roles.alone + roles.workers }
        ensures promised { All
            (λ h. (h.promise.channels.now ≡ self.now.channels.now) × (h.promise.gate.now ≡ self.now.gate.now)
            × (option_copied h.promise.board ≡ option_copied self.now.board)) result.items }
        ensures rest { HasRest self.now.channels.now (option_copied self.now.board) (G.may_stop self.now.gate.now)
            roles.workers rest.old.seats.items (total (λ h. fetchers_in h.promise.worker.value) result.items)
            (total (λ h. writers_in h.promise.worker.value) result.items)
            (held (λ h. seat_of h.promise.worker.value) result.items) rest.new }
        ensures unread { vec_len result ≡ roles.alone + roles.workers
            → view rest.new.windows ≡ window_view (view rest.new.windows).parts 1 0 [] }
    {
        let count = roles.alone + roles.workers;
        let mut started = match Vec::with_capacity(self.alloc, count) {
            Ok(started) => started,
            Err(_) => return Vec::new(self.alloc),
        };
        for number in 0..count {
            match self.start_worker(scope, roles, number, rest) {
                Some(handle) => started.push_reserved(handle),
                None => break,
            }
        }
        started
    }
}
