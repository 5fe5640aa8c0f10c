//! Auditing a replication.
ghost use Rattle.std.specs.Prelude.{◌≡◌, ◌∷◌, [], IfOk};
ghost use Rattle.repl_peer.specs.peer.Covered.{first_uncovered};
ghost use Rattle.std.specs.Option.{option_copied};
ghost use Rattle.couch_base.specs.Feed.{chosen_feed, chosen_rows};
ghost use Rattle.repl_target.specs.Audit.{audit_answer, hole_of, IsAudited};
ghost use Rattle.repl_target.specs.ties.Ties.{IsTiedPair};

pub(crate) mod found;

use crate::auditing::found::Audit;
use couch_base::{Change, LookupHint};
use doc_json::{Chosen, is_chosen};
use repl_peer::{Peer, WriteFilter, checkpoint, rep_between};
use std::alloc::{AllocError, Global};

/// Checks whether the target covers each leaf of the source's selected feed up to the common checkpoint. The common
/// checkpoint is the checkpoint of the replication that selects `chosen`.
///
/// The result is `Clean` if the two peers are consistent (docs/PROFILE.md, "Tied peers"). The call reads the source's
/// feed without copying it.
pub fn audit<F: WriteFilter, G: WriteFilter>(
    alloc: Global,
    source: &Peer<F>,
    target: &Peer<G>,
    chosen: Option<&Chosen>,
) -> Result<Audit, AllocError>
    ensures answer { IfOk result
        (λ a. hole_of a ≡ audit_answer source.now.1 target.now.1 (option_copied chosen.entry)) }
    ensures clean { IfOk result
        (λ a. a ≡ Audit.Clean → IsAudited source.now.1 target.now.1 (option_copied chosen.entry)) }
    ensures tied { IfOk result
        (λ a. IsTiedPair source.now.1 target.now.1 (option_copied chosen.entry) → a ≡ Audit.Clean) }
{
    let rep = rep_between(source, target, chosen)?;
    match checkpoint(source, target, &rep) {
        Some((_, recorded)) => hole_within(alloc, source, target, 0, recorded, chosen),
        None => Ok(Audit::Clean),
    }
}

/// Searches the source's selected feed above a sequence for a leaf that the target does not cover. Returns the first
/// uncovered leaf, or `Clean` if every leaf is covered.
///
/// The call reads the source's feed without copying it.
pub fn hole_above<F: WriteFilter, G: WriteFilter>(
    alloc: Global,
    source: &Peer<F>,
    target: &Peer<G>,
    since: u64,
    chosen: Option<&Chosen>,
) -> Result<Audit, AllocError>
    ensures answer { IfOk result
        (λ a. hole_of a ≡ first_uncovered target.now.1
        (chosen_feed (option_copied chosen.entry) source.now.1.db since source.now.1.db.update_seq)) }
{
    hole_within(
        alloc,
        source,
        target,
        since,
        source.db().update_seq(),
        chosen,
    )
}

/// Searches the source's selected feed for a leaf that the target does not cover. The search includes only sequences
/// above `above` and at most `upto`. Returns the first uncovered leaf, or `Clean` if every leaf is covered.
///
/// The call reads the source's feed without copying it.
pub fn hole_within<F: WriteFilter, G: WriteFilter>(
    alloc: Global,
    source: &Peer<F>,
    target: &Peer<G>,
    above: u64,
    upto: u64,
    chosen: Option<&Chosen>,
) -> Result<Audit, AllocError>
    ensures answer { IfOk result (λ a. hole_of a
        ≡ first_uncovered target.now.1 (chosen_feed (option_copied chosen.entry) source.now.1.db above upto)) }
{
    let mut feed = source.db().feed_within(above, upto);
    let mut near = LookupHint::new();
    while let Some(change) = feed.next() {
        let found = hole_in(alloc, target, &change, &mut near, chosen)?;
        if let Audit::Hole { seq, id, rev } = found {
            return Ok(Audit::Hole { seq, id, rev });
        }
    }
    Ok(Audit::Clean)
}

/// Returns a changed document's first leaf that the target does not cover. If all leaves of the document are covered,
/// or the document is not selected, the call returns `Clean`.
fn hole_in<G: WriteFilter>(
    alloc: Global,
    target: &Peer<G>,
    change: &Change<'_>,
    near: &mut LookupHint,
    chosen: Option<&Chosen>,
) -> Result<Audit, AllocError>
    ensures answer { IfOk result (λ a. hole_of a
        ≡ first_uncovered target.now.1 (chosen_rows (option_copied chosen.entry) (change.now ∷ []))) }
{
    if !is_chosen(chosen, change.id()) {
        return Ok(Audit::Clean);
    }
    match target.uncovered_in(alloc, near, change)? {
        Some(rev) => {
            let id = change.id().copy(alloc)?;
            Ok(Audit::Hole {
                seq: change.seq(),
                id,
                rev,
            })
        }
        None => Ok(Audit::Clean),
    }
}
