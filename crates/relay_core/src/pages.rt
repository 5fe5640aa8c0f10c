//! The steps of a run that handle a page of changes.
ghost use Rattle.std.specs.Prelude.{◌≡◌, ◌+◌, ◌-◌, ◌^◌, [], ◌∷◌, List, IfOk, min, length, string_bytes};
ghost use Rattle.relay_core.specs.Messages.{Exchange, exchange_of, get_changes, revs_diff, carry_docs, rejected_response};
ghost use Rattle.relay_core.specs.Views.{docs_view, response_view};
ghost use Rattle.relay_core.specs.Justified.{is_too_large};
ghost use Rattle.relay_core.specs.Known.{begin_of, wait_of, part_of, IsReachedFrom, IsReached, IsOpenIn, IsOpenAt, Knows};

use crate::leaf_set::are_distinct;
use crate::leaves::{have_leaves, leaf_count, missing_of, name_all};
use crate::logs::fault_of;
use crate::messages::{
    ChangesPage, Counts, DocLeaves, Fault, Notice, Operation, RefusedLeaf, Response, Side,
};
use crate::phase::{PageEnd, Phase, Run, Stage, Transfer, failed, quiet, seq_of};
use crate::refusals::{cover, push_too_large, refused_leaves, sort_rows, unaccounted};
use crate::settings::Settings;
use std::alloc::{AllocError, Global};

/// The maximum number of times that a run tries to transfer the leaves of the same page.
const TRIES: u64 = 5;

/// Continues a run after its checkpoint was stored, or if no checkpoint is due. The call requests the next page, or
/// ends the run if the feed has ended and the run is not continuous.
pub(crate) fn behind(settings: &Settings, mut run: Run, notices: Vec<Notice>) -> Phase
    ensures { (h : List Exchange) → IsReached h run → Knows h result }
{
    run.waits = settings.continuous && (run.waits || run.has_ended);
    if run.has_ended && !settings.continuous {
        return Phase {
            run,
            notices,
            told: 0,
            stage: Stage::Done(None),
        };
    }
    Phase {
        run,
        notices,
        told: 0,
        stage: Stage::Changes,
    }
}

/// Continues a run after every leaf of a page is stored at the target or was refused by the target.
fn onward(settings: &Settings, run: Run, notices: Vec<Notice>) -> Phase
    ensures { (h : List Exchange) → IsReached h run → Knows h result }
{
    if run.is_open && (run.has_ended || run.pages >= settings.every) {
        return Phase {
            run,
            notices,
            told: 0,
            stage: Stage::TargetLog,
        };
    }
    behind(settings, run, notices)
}

/// Adds the numbers of a page's checked leaves, missing leaves and write failures to the counts of a run.
fn counted(counts: Counts, checked: u64, found: u64, failures: u64) -> Counts
    ensures { result.doc_write_failures ≡ min (counts.doc_write_failures + failures) (2 ^ 64 - 1) }
{
    Counts {
        missing_checked: counts.missing_checked.saturating_add(checked),
        missing_found: counts.missing_found.saturating_add(found),
        docs_read: counts.docs_read.saturating_add(found),
        docs_written: counts
            .docs_written
            .saturating_add(found.saturating_sub(failures)),
        doc_write_failures: counts.doc_write_failures.saturating_add(failures),
    }
}

/// Returns the notices of a page: one for each refused leaf, and a progress notice if `progress` is true.
fn notices_of(
    alloc: Global,
    refused: Vec<RefusedLeaf>,
    progress: bool,
    counts: Counts,
    pending: Option<String>,
) -> Result<Vec<Notice>, AllocError> {
    let mut notices = Vec::new(alloc);
    for leaf in refused {
        notices.push(Notice::Refused(leaf))?;
    }
    if progress {
        notices.push(Notice::Progress(counts, pending))?;
    }
    Ok(notices)
}

/// Counts a page, and continues the run. Each leaf of the page is stored at the target or was refused by the target.
fn accounted(
    alloc: Global,
    settings: &Settings,
    mut run: Run,
    end: PageEnd,
    found: u64,
    refused: Vec<RefusedLeaf>,
) -> Result<Phase, AllocError>
    ensures { (h : List Exchange)
        → IsReachedFrom h (begin_of run) (string_bytes end.last_seq) (min (run.counts.doc_write_failures + length refused.items) (2 ^ 64 - 1))
        → IfOk result (λ p. Knows h p) }
{
    let counts = counted(run.counts, end.checked, found, refused.len() as u64);
    let is_chosen = settings.filtered && end.last_seq.as_str() != seq_of(&run.begin);
    let notices = notices_of(
        alloc,
        refused,
        settings.progress && end.has_rows,
        counts,
        end.pending,
    )?;
    run.since = end.last_seq;
    run.has_ended = end.is_last;
    run.counts = counts;
    run.tries = 0;
    run.pages = run.pages.saturating_add(if end.has_rows { 1 } else { 0 });
    run.is_open = run.is_open || end.has_rows || is_chosen;
    Ok(onward(settings, run, notices))
}

/// Requests the transfer of the next documents. After the last transfer, the run asks the target again which leaves are
/// missing there.
fn ask_carry(alloc: Global, run: Run, mut transfer: Transfer) -> Phase
    ensures { (h : List Exchange) → IsOpenAt h run transfer → Knows h result }
{
    let count = transfer.missing.len();
    if transfer.carried >= count {
        return quiet(alloc, run, Stage::Again(transfer));
    }
    transfer.size = run.carry.max(1).min(count - transfer.carried);
    quiet(alloc, run, Stage::Carry(transfer))
}

/// Continues a run after one part of a page's documents was transferred to the target. `run.carry` is the maximum size
/// of a part. If twice the size of the transferred part is greater, the call raises `run.carry` to this value. The call
/// caps `run.carry` at `settings.carry`.
fn advance(alloc: Global, settings: &Settings, mut run: Run, mut transfer: Transfer) -> Phase
    ensures { (h : List Exchange) → IsOpenAt h run transfer → Knows h result }
{
    transfer.carried = transfer.carried.saturating_add(transfer.size);
    run.carry = run
        .carry
        .max(transfer.size.saturating_mul(2))
        .min(settings.carry as usize);
    ask_carry(alloc, run, transfer)
}

/// Continues a run after the response to a request for a page of changes.
pub(crate) fn after_changes(
    alloc: Global,
    settings: &Settings,
    run: Run,
    response: Response,
) -> Result<Phase, AllocError>
    ensures { (h : List Exchange) → IsReached h run
        → IfOk result (λ p. Knows (exchange_of (get_changes (string_bytes run.since) (wait_of run)) (response_view response) ∷ h) p) }
{
    let page = match response {
        Response::Page(page) => page,
        other => return Ok(failed(alloc, run, fault_of(other, Fault::BadFeed))),
    };
    if !are_distinct(alloc, page.rows.as_slice())? || !have_leaves(page.rows.as_slice()) {
        return Ok(failed(alloc, run, Fault::BadFeed));
    }
    if !page.rows.is_empty() {
        return Ok(quiet(alloc, run, Stage::Diff(page)));
    }
    let end = PageEnd {
        last_seq: page.last_seq,
        is_last: true,
        pending: page.pending,
        has_rows: false,
        checked: 0,
    };
    accounted(alloc, settings, run, end, 0, Vec::new(alloc))
}

/// Returns the data about a page that a run keeps after the page's rows are dropped.
fn end_of(page: ChangesPage) -> PageEnd
    ensures { result.last_seq ≡ page.last_seq }
{
    PageEnd {
        checked: leaf_count(page.rows.as_slice()),
        last_seq: page.last_seq,
        is_last: page.is_last,
        pending: page.pending,
        has_rows: true,
    }
}

/// Continues a run after the target's response to `_revs_diff` for a page.
pub(crate) fn after_diff(
    alloc: Global,
    settings: &Settings,
    run: Run,
    page: ChangesPage,
    response: Response,
) -> Result<Phase, AllocError>
    ensures { (h : List Exchange) → IsOpenIn h run (string_bytes page.last_seq) (docs_view page.rows.items) []
        → IfOk result (λ p. Knows (exchange_of (revs_diff (docs_view page.rows.items)) (response_view response) ∷ h) p) }
{
    let named = match response {
        Response::Missing(named) => named,
        other => return Ok(failed(alloc, run, fault_of(other, Fault::BadDiff))),
    };
    if !name_all(alloc, page.rows.as_slice(), named.as_slice())? {
        return Ok(failed(alloc, run, Fault::BadDiff));
    }
    let missing = missing_of(alloc, page.rows.as_slice(), named.as_slice())?;
    let end = end_of(page);
    if missing.is_empty() {
        return accounted(alloc, settings, run, end, 0, Vec::new(alloc));
    }
    let transfer = Transfer {
        end,
        missing,
        carried: 0,
        size: 0,
        refused: Vec::new(alloc),
        others: Vec::new(alloc),
    };
    Ok(ask_carry(alloc, run, transfer))
}

fn halve(alloc: Global, mut run: Run, transfer: Transfer) -> Phase
    ensures { (h : List Exchange) → IsOpenAt h run transfer → Knows h result }
{
    run.carry = transfer.size / 2;
    ask_carry(alloc, run, transfer)
}

/// Ends a run because a server rejected the transfer of a single document.
fn refuse(
    alloc: Global,
    run: Run,
    doc: &DocLeaves,
    side: Side,
    status: u16,
    words: String,
) -> Result<Phase, AllocError>
    ensures { (h : List Exchange) → IfOk result (λ p. Knows h p) }
{
    let id = String::from_str(alloc, doc.id.as_str())?;
    Ok(failed(alloc, run, Fault::Refused(id, side, status, words)))
}

/// Whether the target rejected a request as too large (status 413).
fn is_too_large(side: Side, status: u16) -> bool
    ensures { result ≡ is_too_large side status }
{
    match side {
        Side::Target => status == 413,
        Side::Source => false,
    }
}

/// Continues a run after a server rejected a transfer of documents.
fn after_rejection(
    alloc: Global,
    settings: &Settings,
    run: Run,
    mut transfer: Transfer,
    side: Side,
    status: u16,
    words: String,
) -> Result<Phase, AllocError>
    ensures { (h : List Exchange) → IsOpenAt h run transfer
        → IfOk result (λ p. Knows (exchange_of (carry_docs (part_of transfer)) (rejected_response side status (string_bytes words)) ∷ h) p) }
{
    if transfer.size > 1 {
        return Ok(halve(alloc, run, transfer));
    }
    let Some(doc) = transfer.missing.get(transfer.carried) else {
        return Ok(failed(alloc, run, Fault::BadAnswer(Operation::Carry)));
    };
    if !is_too_large(side, status) || transfer.size != 1 {
        return refuse(alloc, run, doc, side, status, words);
    }
    push_too_large(alloc, &mut transfer.refused, doc)?;
    Ok(advance(alloc, settings, run, transfer))
}

/// Continues a run after the response to a transfer of documents.
pub(crate) fn after_carry(
    alloc: Global,
    settings: &Settings,
    run: Run,
    mut transfer: Transfer,
    response: Response,
) -> Result<Phase, AllocError>
    ensures { (h : List Exchange) → IsOpenAt h run transfer
        → IfOk result (λ p. Knows (exchange_of (carry_docs (part_of transfer)) (response_view response) ∷ h) p) }
{
    match response {
        Response::RowErrors(rows) => {
            sort_rows(rows, &mut transfer.refused, &mut transfer.others)?;
            Ok(advance(alloc, settings, run, transfer))
        }
        Response::CarryRejected(side, status, words) => {
            after_rejection(alloc, settings, run, transfer, side, status, words)
        }
        other => Ok(failed(
            alloc,
            run,
            fault_of(other, Fault::BadAnswer(Operation::Carry)),
        )),
    }
}

/// Requests a page again, because a leaf of the page is missing at the target and was not refused. After the last try,
/// the call ends the run with `Unaccounted`.
fn retry(
    alloc: Global,
    mut run: Run,
    transfer: Transfer,
    missing: Vec<DocLeaves>,
) -> Result<Phase, AllocError>
    ensures { (h : List Exchange) → IsReached h run → IfOk result (λ p. Knows h p) }
{
    let tries = run.tries.saturating_add(1);
    if tries >= TRIES {
        let leaf = unaccounted(
            alloc,
            transfer.refused.as_slice(),
            transfer.others.as_slice(),
            missing.as_slice(),
        )?;
        return Ok(failed(alloc, run, Fault::Unaccounted(leaf)));
    }
    run.tries = tries;
    Ok(quiet(alloc, run, Stage::Changes))
}

/// Continues a run after the target's `_revs_diff` response that follows a transfer.
pub(crate) fn after_again(
    alloc: Global,
    settings: &Settings,
    run: Run,
    transfer: Transfer,
    response: Response,
) -> Result<Phase, AllocError>
    ensures { (h : List Exchange) → IsOpenAt h run transfer
        → IfOk result (λ p. Knows (exchange_of (revs_diff (docs_view transfer.missing.items)) (response_view response) ∷ h) p) }
{
    let named = match response {
        Response::Missing(named) => named,
        other => return Ok(failed(alloc, run, fault_of(other, Fault::BadDiff))),
    };
    if !name_all(alloc, transfer.missing.as_slice(), named.as_slice())? {
        return Ok(failed(alloc, run, Fault::BadDiff));
    }
    let missing = missing_of(alloc, transfer.missing.as_slice(), named.as_slice())?;
    if !cover(transfer.refused.as_slice(), missing.as_slice()) {
        return retry(alloc, run, transfer, missing);
    }
    let refused = refused_leaves(alloc, transfer.refused.as_slice(), missing.as_slice())?;
    let found = leaf_count(transfer.missing.as_slice());
    accounted(alloc, settings, run, transfer.end, found, refused)
}
