//! Compares the feed of a source with a target. The contract of `compare_feed` relates the leaves that the target's
//! trees lack to the leaves that the target covers.
ghost use Rattle.std.specs.Prelude.{◌≡◌, IfOk};
ghost use Rattle.std.specs.Option.{option_copied};
ghost use Rattle.couch_base.specs.Feed.{chosen_feed};
ghost use Rattle.repl_target.specs.Audit.{CoversFeed};
ghost use Rattle.repl_inspect.specs.Comparisons.{comparisons};
ghost use Rattle.repl_inspect.specs.Covering.{HasNoLedger, MissingIsRefused};
ghost use Rattle.repl_inspect.specs.Totals.{total_of};

use crate::feed::compare_databases;
use crate::total::Total;
use doc_json::Chosen;
use repl_target::{Peer, WriteFilter};
use std::alloc::{AllocError, Global};

/// Returns the totals of the differences between a source's complete or selected feed and a target. The call ignores
/// logs, and reads the source's feed in pages.
///
/// If the target's trees contain all leaves of the source's feed, the target covers the feed. If the target covers the
/// feed and its trees lack a leaf of the feed, the target has refused a document whose ancestry contains this leaf. If
/// the target covers the feed and all ledgers of the target are empty, the target's trees contain all leaves of the
/// feed.
pub fn compare_feed<F: WriteFilter, G: WriteFilter>(
    alloc: Global,
    source: &Peer<F>,
    target: &Peer<G>,
    chosen: Option<&Chosen>,
) -> Result<Total, AllocError>
    ensures total { IfOk result (λ t. t ≡ total_of (comparisons source.now.1.db target.now.1.db
        (chosen_feed (option_copied chosen.entry) source.now.1.db 0 source.now.1.db.update_seq))) }
    ensures covers { IfOk result (λ t. t.missing ≡ 0
        → CoversFeed source.now.1 target.now.1 (option_copied chosen.entry) source.now.1.db.update_seq) }
    ensures whole { IfOk result (λ t. HasNoLedger target.now.1
        → CoversFeed source.now.1 target.now.1 (option_copied chosen.entry) source.now.1.db.update_seq
        → t.missing ≡ 0) }
    ensures refused { CoversFeed source.now.1 target.now.1 (option_copied chosen.entry) source.now.1.db.update_seq
        → MissingIsRefused source.now.1 target.now.1 (option_copied chosen.entry) }
{
    source.law();
    compare_databases(alloc, source.db(), target.db(), chosen)
}
