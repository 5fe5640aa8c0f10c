//! Functions that look up two peers, take the peers out of the table, and store the peers after a run.
ghost use Rattle.std.specs.Prelude.{◌≡◌, ◌≢◌, true, Some};
ghost use Rattle.std.specs.FinMap.{contains_key};
ghost use Rattle.repl_peer.specs.peer.Peer.{PeerValue};
ghost use Rattle.repl_peer.specs.declared.peer.filter.Rules.{Rules};
ghost use Rattle.script_databases.specs.Stored.{IsWithBoth, entry_at, peers_of};

use crate::databases::Names;
use repl_target::{Peer, Rules};
use std::alloc::Global;
use std::mem;

/// Returns the peers of two existing names.
#[tactic(auto, using(crate::proofs::Tables::has_at))]
pub fn find_both<'a>(
    names: &'a Names,
    source: &str,
    target: &str,
) -> (&'a Peer<Rules>, &'a Peer<Rules>)
    requires source { contains_key (peers_of names.now.entries) source.now ≡ true }
    requires target { contains_key (peers_of names.now.entries) target.now ≡ true }
    ensures source { entry_at names.now.entries source.now ≡ Some result.0.now }
    ensures target { entry_at names.now.entries target.now ≡ Some result.1.now }
{
    let Some(sender) = names.get(source) else {
        unreachable!()
    };
    let Some(receiver) = names.get(target) else {
        unreachable!()
    };
    (sender, receiver)
}

/// Removes two peers from the table, and stores empty peers under their names.
pub fn take_out(
    names: &mut Names,
    alloc: Global,
    source: &str,
    target: &str,
) -> (Peer<Rules>, Peer<Rules>)
    requires source { contains_key (peers_of names.old.entries) source.now ≡ true }
    requires target { contains_key (peers_of names.old.entries) target.now ≡ true }
    requires two { source.now ≢ target.now }
    ensures source { entry_at names.old.entries source.now ≡ Some result.0 }
    ensures target { entry_at names.old.entries target.now ≡ Some result.1 }
    ensures left { (p : Rules × PeerValue) × (q : Rules × PeerValue)
        × IsWithBoth names.old.entries source.now target.now p q names.new.entries }
    ensures source_left { contains_key (peers_of names.new.entries) source.now ≡ true }
    ensures target_left { contains_key (peers_of names.new.entries) target.now ≡ true }
{
    let Some(place) = names.get_mut(source) else {
        unreachable!()
    };
    let sender = mem::replace(place, Peer::new(alloc, 0, Rules { deny: None }));
    let Some(place) = names.get_mut(target) else {
        unreachable!()
    };
    let receiver = mem::replace(place, Peer::new(alloc, 0, Rules { deny: None }));
    (sender, receiver)
}

/// Stores two peers under their existing names.
pub fn put_in(
    names: &mut Names,
    source: &str,
    target: &str,
    sender: Peer<Rules>,
    receiver: Peer<Rules>,
)
    requires source { contains_key (peers_of names.old.entries) source.now ≡ true }
    requires target { contains_key (peers_of names.old.entries) target.now ≡ true }
    ensures { IsWithBoth names.old.entries source.now target.now sender receiver names.new.entries }
{
    let Some(place) = names.get_mut(source) else {
        unreachable!()
    };
    *place = sender;
    let Some(place) = names.get_mut(target) else {
        unreachable!()
    };
    *place = receiver;
}
