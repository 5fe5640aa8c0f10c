//! One step of a run: computes the next phase from the current phase and from the response to the current phase's
//! request.
ghost use Rattle.std.specs.Prelude.{◌≡◌, ◌∷◌, List, IfOk, is_some, slice_get};
ghost use Rattle.relay_core.specs.Messages.{Exchange, exchange_of};
ghost use Rattle.relay_core.specs.Views.{response_view};
ghost use Rattle.relay_core.specs.Known.{asked_by, asked_of, KnowsAt, Knows};

use crate::logs::{after_source_log, after_source_put, after_target_log, after_target_put};
use crate::messages::{Notice, Response};
use crate::pages::{after_again, after_carry, after_changes, after_diff};
use crate::phase::{Phase, Run, Stage, quiet};
use crate::settings::Settings;
use std::alloc::{AllocError, Global};

/// Continues a run after the response to the request of the given stage.
fn stage_step(
    alloc: Global,
    settings: &Settings,
    run: Run,
    stage: Stage,
    response: Response,
) -> Result<Phase, AllocError>
    ensures { (h : List Exchange) → KnowsAt h run stage → IfOk result (λ p. Knows (exchange_of (asked_by run stage) (response_view response) ∷ h) p) }
{
    match stage {
        Stage::TargetLog => Ok(after_target_log(alloc, run, response)),
        Stage::SourceLog(target) => after_source_log(alloc, run, target, response),
        Stage::Changes => after_changes(alloc, settings, run, response),
        Stage::Diff(page) => after_diff(alloc, settings, run, page, response),
        Stage::Carry(transfer) => after_carry(alloc, settings, run, transfer, response),
        Stage::Again(transfer) => after_again(alloc, settings, run, transfer, response),
        Stage::TargetPut(_target, source, checkpoint) => after_target_put(
            alloc, run, source, checkpoint, response,
        ),
        Stage::SourcePut(_source, _checkpoint) => after_source_put(alloc, settings, run, response),
        Stage::Done(fault) => Ok(quiet(alloc, run, Stage::Done(fault))),
    }
}

/// Stores the date of a response in the run, unless the date is empty.
fn dated(alloc: Global, mut run: Run, date: &str) -> Result<Run, AllocError>
    ensures { IfOk result (λ r. r ≡ record run { date = r.date }) }
{
    if date.is_empty() {
        return Ok(run);
    }
    run.date = String::from_str(alloc, date)?;
    Ok(run)
}

/// Whether the phase has a notice that the caller has not printed yet.
fn is_telling(notices: &Vec<Notice>, told: usize) -> bool
    ensures { result ≡ is_some (slice_get notices.now.items told) }
{
    notices.get(told).is_some()
}

/// Continues a run from its state `phase`. `response` is the response to the request that `Phase::request` returns. The
/// argument `date` is the response's date, or empty if the response has no date.
///
/// The contract says: if `phase` is consistent with all earlier exchanges (requests and responses), the returned phase
/// is consistent with these and the new exchange.
pub fn step(
    alloc: Global,
    settings: &Settings,
    phase: Phase,
    response: Response,
    date: &str,
) -> Result<Phase, AllocError>
    ensures { (h : List Exchange) → Knows h phase → IfOk result (λ p. Knows (exchange_of (asked_of phase) (response_view response) ∷ h) p) }
{
    let Phase {
        run,
        notices,
        told,
        stage,
    } = phase;
    let run = dated(alloc, run, date)?;
    if is_telling(&notices, told) {
        return Ok(Phase {
            run,
            notices,
            told: told.saturating_add(1),
            stage,
        });
    }
    stage_step(alloc, settings, run, stage, response)
}
