//! Replication through a hub, the first peer of a network.
ghost use Rattle.std.specs.Prelude.{◌≡◌, ℕ, List, ◌+◌, ◌++◌, length, IfOk, OnOk};
ghost use Rattle.repl_peer.specs.peer.Backups.{BackupValue};
ghost use Rattle.repl_network.specs.Nets.{peers_of, filters_of, AreTied, IsNet};
ghost use Rattle.repl_network.specs.Made.{StaysMade};
ghost use Rattle.repl_network.specs.Hubs.{gathers, spreads, HubSpread};
ghost use Rattle.repl_network.specs.Taken.{TakesHub};

use crate::along::replicate_along;
use crate::fault::NetFault;
use crate::hop::Hop;
use repl_target::{Peer, Plan, WriteFilter};
use std::alloc::{AllocError, Global};

/// Replicates all other peers of a network into the hub (the first peer), and then the hub into all other peers. One
/// thread performs all replications, two for each peer other than the hub. The caller gives two lists of plans, one for
/// each direction. Each list has one plan for each peer other than the hub, in the order of the peers.
///
/// If every two peers are consistent, they stay consistent, even if the call fails. A document is *selected* if all
/// plans in both directions select the document, and no peer has refused the document when the call returns. The
/// following guarantees are for a successful call on consistent peers, and for a selected document whose trees agree
/// and have complete histories. After the call, the document is the same at all peers, and its trees still agree and
/// have complete histories.
///
/// # Errors
///
/// - `Plans`: the network has no peer, or a list does not have exactly one plan for each peer other than the hub.
/// - `Memory`: an allocation failed before the first replication.
/// - The errors of `replicate_along`.
pub fn sync_by_hub<F: WriteFilter>(
    alloc: Global,
    peers: &mut [Peer<F>],
    there: &[Plan],
    back: &[Plan],
) -> Result<(), NetFault>
    ensures taken { TakesHub F.refuses peers.old there.now back.now result peers.new }
    ensures filters { filters_of peers.new ≡ filters_of peers.old }
    ensures tied { AreTied (peers_of peers.old) → AreTied (peers_of peers.new) }
    ensures net { (backups : List (ℕ × BackupValue)) → IsNet backups (peers_of peers.old)
        → IsNet backups (peers_of peers.new) }
    ensures made { StaysMade (peers_of peers.old) (peers_of peers.new) }
    ensures same { OnOk result
        (AreTied (peers_of peers.old) → HubSpread (peers_of peers.old) there.now back.now (peers_of peers.new)) }
{
    if peers.len() != there.len() + 1 || peers.len() != back.len() + 1 {
        return Err(NetFault::Plans);
    }
    let hops = hub_hops(alloc, there, back)?;
    replicate_along(alloc, peers, &hops)
}

/// Creates one hop for each given plan: first the hops into the hub, and then the hops from the hub.
fn hub_hops(alloc: Global, there: &[Plan], back: &[Plan]) -> Result<Vec<Hop>, AllocError>
    ensures { IfOk result (λ hops. hops.items ≡ gathers 0 there.now ++ spreads 0 back.now) }
{
    let mut hops = Vec::new(alloc);
    for (place, plan) in there.iter().enumerate() {
        hops.push(Hop {
            from: place + 1,
            to: 0,
            plan: plan.copy()?,
        })?;
    }
    for (place, plan) in back.iter().enumerate() {
        hops.push(Hop {
            from: 0,
            to: place + 1,
            plan: plan.copy()?,
        })?;
    }
    Ok(hops)
}
