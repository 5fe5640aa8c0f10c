//! Runs the only worker of a run on the thread that reads the windows. A second thread would not settle documents
//! earlier, but would move data between the caches of processors.
ghost use Rattle.std.specs.Prelude.{◌≡◌, ℕ, ◌<◌, [], true, Option, Some, IfSome, option_copied};
ghost use Rattle.crossbeam_channel.specs.Claims.{view, IsSeatAt};
ghost use Rattle.crossbeam_channel.specs.Ends.{sends_on};
ghost use Rattle.repl_target.specs.replication.Replication.{is_batch};
ghost use Rattle.pool_workers.specs.Faults.{Allows, SaysNoFull};
ghost use Rattle.pool_workers.specs.Idle.{IsIdle, Shows, Keeps, seat_of};
ghost use Rattle.pool_workers.specs.Scopes.{IsReady, HaveEnded};
ghost use Rattle.pool_workers.specs.Windows.{window_view};

use crate::brands::{SourceBrand, TargetBrand};
use crate::context::Context;
use crate::fault::Halt;
use crate::gate::Gate;
use crate::gather::Rest;
use crate::threads::{Ended, Owned};
use crate::windows::WindowPass;
use crate::worker::{Roles, Worker};
use progress_board::BoardSeat;
use repl_target::{WriteFilter, has_left};
use std::sync::Wait;
use std::sync::ledger::Ledger;

impl<F: WriteFilter, S: SourceBrand, T: TargetBrand<F>, L: Ledger, G: Gate, R: Wait> Context<
    '_,
    F,
    S,
    T,
    L,
    G,
    R,
> {
    /// Reads the source's windows above the sequence `start`. For each window, the call stores the window at the
    /// target, sends the window, and runs one turn of the worker. The call stops at the run's goal (a sequence), or at
    /// the plan's maximum number of windows.
    fn read_in_turn(
        &self,
        start: u64,
        windows: &mut WindowPass<S>,
        worker: &mut Worker<S, L>,
    ) -> Option<Halt>
        requires source { S.source ≡ self.now.source.now.1.db }
        requires plan { S.plan ≡ self.now.plan.now }
        requires batch { is_batch self.now.plan.now.batch ≡ true }
        requires seat { IsSeatAt (sends_on self.now.channels.now.to_fetchers) windows.old }
        requires windows { (view windows.old ≡ window_view (view windows.old).parts 1 0 [])
            × (0 < (view windows.old).parts) }
        requires idle { IsIdle self.now.channels.now (option_copied self.now.board) (G.may_stop self.now.gate.now)
            worker.old }
        requires shows { Shows (option_copied self.now.board) (seat_of worker.old) worker.old }
        ensures seat { IsSeatAt (sends_on self.now.channels.now.to_fetchers) windows.new }
        ensures windows { (n : ℕ) × (view windows.new ≡ window_view (view windows.old).parts 1 n []) }
        ensures free { IfSome result (Allows (λ _. ⊥)) }
        ensures uncounted { IfSome result SaysNoFull }
        ensures keeps { Keeps self.now.channels.now (option_copied self.now.board) (G.may_stop self.now.gate.now)
            worker.old worker.new }
    {
        let goal = self.source.db().update_seq();
        let mut since = start;
        let mut number = 0;
        while since < goal && has_left(self.plan.stop_after, number) {
            match self.read_some(windows, since, number, 1) {
                Ok((hi, next)) => {
                    since = hi;
                    number = next;
                }
                Err(halt) => return Some(halt),
            }
            self.take_turn(worker);
        }
        None
    }

    /// Runs the only worker of a run on this thread. Returns the worker's results and the seats of the progress board.
    pub fn in_turn(&self, start: u64, owned: Owned<S, L>) -> (Ended<S, L>, Vec<BoardSeat>)
        requires source { S.source ≡ self.now.source.now.1.db }
        requires plan { S.plan ≡ self.now.plan.now }
        requires batch { is_batch self.now.plan.now.batch ≡ true }
        requires owned { IsReady self.now.channels.now (option_copied self.now.board) 1 owned }
        ensures { HaveEnded self.now.channels.now (option_copied self.now.board) (G.may_stop self.now.gate.now) 1
            owned.seats.items (Some result.0) result.1.items }
    {
        let roles = Roles {
            workers: 1,
            alone: 0,
        };
        let mut rest = self.before_workers(roles, owned);
        let mut worker = self.new_worker(roles, 0, &mut rest);
        let read = self.read_in_turn(start, &mut rest.windows, &mut worker);
        self.take_in(&mut rest, worker);
        let Rest {
            windows,
            parcels,
            all,
            fetched,
            written,
            seats,
        } = rest;
        let ended = Ended {
            windows,
            parcels,
            all,
            read,
            fetched,
            written,
        };
        (ended, seats)
    }
}
