//! The threads of a run.
ghost use Rattle.std.specs.Prelude.{◌≡◌, ◌≤◌, [], true, option_copied};
ghost use Rattle.repl_target.specs.replication.Replication.{is_batch};
ghost use Rattle.pool_workers.specs.Scopes.{IsReady, IsStarting, HaveEnded};

use crate::brands::{SourceBrand, TargetBrand};
use crate::context::Context;
use crate::fault::Halt;
use crate::gate::Gate;
use crate::gather::{FetchedAll, Rest, WrittenAll};
use crate::messages::keep_heaps;
use crate::parcels::ParcelPass;
use crate::windows::WindowPass;
use crate::worker::Roles;
use progress_board::BoardSeat;
use repl_target::WriteFilter;
use std::sync::Wait;
use std::sync::ledger::{Ledger, Share};
use std::thread;
use std::thread::{Scope, Threads};

/// What the caller's thread owns before the workers start. The fields `windows` and `parcels` are the complete rights
/// to use the channels. The field `all` is the complete ghost right to count the settled documents. The list `seats`
/// has a seat of the progress board for each writer, if the run has a progress board. The list `counts` is empty, and
/// has capacity for the count of each fetcher.
#[derive(Drop)]
pub struct Owned<S: SourceBrand, L: Ledger> {
    pub counts: Vec<u64>,
    pub windows: WindowPass<S>,
    pub parcels: ParcelPass<S>,
    pub all: Share<L>,
    pub seats: Vec<BoardSeat>,
}

/// What the caller's thread owns after all workers have ended. The fields `windows`, `parcels` and `all` are the
/// complete rights to use the channels and to count settled documents. The fields `fetched` and `written` have the
/// workers' results. If reading the windows ended early, the field `read` is the reason.
#[derive(Drop)]
pub struct Ended<S: SourceBrand, L: Ledger> {
    pub windows: WindowPass<S>,
    pub parcels: ParcelPass<S>,
    pub all: Share<L>,
    pub read: Option<Halt>,
    pub fetched: FetchedAll,
    pub written: WrittenAll,
}

impl<
    'e,
    F: WriteFilter + Send + Sync,
    S: SourceBrand + Send + Sync,
    T: TargetBrand<F> + Send + Sync,
    L: Ledger + Send + Sync,
    G: Gate + Sync,
    R: Threads + Wait + Sync,
> Context<'e, F, S, T, L, G, R> {
    /// Starts all workers, reads the windows on the caller's thread, and joins the workers. Returns the results of the
    /// workers, and the seats of the progress board. If not all workers were started, the call reads no window, and
    /// returns `None` instead of the results.
    fn in_scope<'s, E>(
        &'e self,
        scope: &Scope<'s, E>,
        roles: Roles,
        start: u64,
        owned: Owned<S, L>,
    ) -> (Option<Ended<S, L>>, Vec<BoardSeat>)
    where
        'e: 's,
        requires source { S.source ≡ self.now.source.now.1.db }
        requires plan { S.plan ≡ self.now.plan.now }
        requires batch { is_batch self.now.plan.now.batch ≡ true }
        requires roles { (roles.alone ≤ roles.workers) × (roles.workers ≤ 64) }
        requires owned { IsReady self.now.channels.now (option_copied self.now.board) roles.workers owned }
        ensures { HaveEnded self.now.channels.now (option_copied self.now.board) (G.may_stop self.now.gate.now)
            roles.workers owned.seats.items result.0 result.1.items }
    {
        let mut rest = self.before_workers(roles, owned);
        let started = self.start_all(scope, roles, &mut rest);
        let count = roles.alone + roles.workers;
        if started.len() < count {
            self.join_all(started, &mut rest);
            let Rest {
                windows: _,
                parcels: _,
                all: _,
                fetched: _,
                written: _,
                seats,
            } = rest;
            return (None, seats);
        }
        let read = self.read_windows(start, &mut rest.windows);
        self.end_workers(roles, count, &mut rest.windows, &mut rest.parcels);
        self.join_all(started, &mut rest);
        let Rest {
            windows,
            parcels,
            all,
            fetched,
            written,
            seats,
        } = rest;
        let ended = Ended {
            windows,
            parcels,
            all,
            read,
            fetched,
            written,
        };
        (Some(ended), seats)
    }

    /// Runs the workers on threads of one scope (`in_scope`). If the gate (a callback) never blocks a worker, each
    /// worker fetches and writes, so a run needs half as many threads. If the gate never blocks and the run has one
    /// worker, this worker runs on the caller's thread (`in_turn`).
    pub fn with_workers(
        &'e self,
        workers: usize,
        start: u64,
        owned: Owned<S, L>,
    ) -> (Option<Ended<S, L>>, Vec<BoardSeat>)
        requires source { S.source ≡ self.now.source.now.1.db }
        requires plan { S.plan ≡ self.now.plan.now }
        requires batch { is_batch self.now.plan.now.batch ≡ true }
        requires workers { workers ≤ 64 }
        requires owned { IsReady self.now.channels.now (option_copied self.now.board) workers owned }
        ensures { HaveEnded self.now.channels.now (option_copied self.now.board) (G.may_stop self.now.gate.now) workers
            owned.seats.items result.0 result.1.items }
    {
        let may_block = self.gate.may_block();
        if workers == 1 && !may_block {
            let (ended, seats) = self.in_turn(start, owned);
            return (Some(ended), seats);
        }
        keep_heaps(self.alloc);
        let context = self;
        let roles = Roles::of(workers, may_block);
        thread::scope(
            thread::scope_env(),
            self.rt,
            |scope| -> (Option<Ended<S, L>>, Vec<BoardSeat>)
                requires source { S.source ≡ context.now.source.now.1.db }
                requires plan { S.plan ≡ context.now.plan.now }
                requires batch { is_batch context.now.plan.now.batch ≡ true }
                requires roles { (roles.alone ≤ roles.workers) × (roles.workers ≤ 64) }
                requires owned { IsReady context.now.channels.now (option_copied context.now.board) roles.workers owned }
                ensures { HaveEnded context.entry.now.channels.now (option_copied context.entry.now.board)
                    (G.may_stop context.entry.now.gate.now) roles.workers owned.seats.items result.0 result.1.items }
            { context.in_scope(scope, roles, start, owned) },
        )
    }
}
