//! Checks whether a run can begin.
ghost use Rattle.std.specs.Prelude.{◌≡◌};
ghost use Rattle.repl_pool.specs.Early.{early_answer};

use pool_workers::PoolFault;
use progress_board::MOST_WORKERS;
use repl_target::{Peer, Plan, TargetFault, WriteFilter, check_plan};

/// Checks whether a run can begin.
///
/// # Errors
///
/// The call checks for the errors in this order:
///
/// - `NoWorkers`: the plan has no workers.
/// - `TooManyWorkers`: the plan has more than 64 workers.
/// - `BadBatch`: the batch is not 1 to 10,000.
/// - `SamePeer`: the two databases have the same UUID.
pub fn check_run<F: WriteFilter>(
    source: &Peer<F>,
    target: &Peer<F>,
    plan: &Plan,
) -> Result<(), PoolFault>
    ensures { result ≡ early_answer source.now.1 target.now.1 plan.now }
{
    if plan.workers == 0 {
        return Err(PoolFault::NoWorkers);
    }
    if plan.workers > MOST_WORKERS {
        return Err(PoolFault::TooManyWorkers);
    }
    match check_plan(source.db().uuid(), target.db().uuid(), plan) {
        Ok(()) => Ok(()),
        Err(TargetFault::BadBatch) => Err(PoolFault::BadBatch),
        Err(_) => Err(PoolFault::SamePeer),
    }
}
