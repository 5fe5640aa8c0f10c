//! Networks.
ghost use Rattle.std.specs.Prelude.{◌≡◌, [], ◌∷◌, ◌++◌, IfNone, IfSome, OnOk, OnErr};
ghost use Rattle.repl_peer.specs.peer.Peer.{new_peer};
ghost use Rattle.repl_network.specs.Nets.{peers_of, filters_of, IsHeldAt, IsHeld};

use crate::along::{edit_at, load_at, replicate_along};
use crate::fault::NetFault;
use crate::hop::Hop;
use crate::hub::sync_by_hub;
use couch_base::Put;
use doc_json::{Body, Chosen, Doc, DocId};
use repl_target::{Audit, Peer, Plan, WriteFilter, audit};
use rev_core::Rev;
use std::alloc::{AllocError, Global};
use std::marker::Model;

/// A network is a list of peers. Each peer is empty when it is added, and then replicates only with other peers of the
/// network.
///
/// Every two peers of a network are consistent in both directions (docs/PROFILE.md, "Nets"). The methods of `Net`
/// therefore need no assumption about consistency. An audit between two peers of a network never finds an uncovered
/// leaf.
#[derive(Drop)]
pub struct Net<F: WriteFilter> {
    peers: Vec<Peer<F>>,
}

impl<F: WriteFilter> Model for Net<F> {
    ghost use Rattle.std.specs.Prelude.{List, []};
    ghost use Rattle.std.specs.Coded.{coded×, coded_list};
    ghost use Rattle.repl_peer.specs.peer.Peer.{PeerValue};
    ghost use Rattle.repl_peer.specs.peer.PeerCode.{coded_peer};
    ghost use Rattle.repl_network.specs.Nets.{peers_of, IsNet};

    ghost Value = { List (F × PeerValue) };

    ghost coded = { coded_list (coded× F.code coded_peer) };

    ghost view = { λ n. n.peers.items };

    ghost invariant = { λ n. IsNet [] (peers_of n.peers.items) };
}

impl<F: WriteFilter> Net<F> {
    ghost use Rattle.std.specs.Prelude.{Bool, List, Option, length, slice_get, IfOk, IfErr};
    ghost use Rattle.std.specs.Option.{option_copied};
    ghost use Rattle.couch_base.specs.Database.{Id};
    ghost use Rattle.repl_peer.specs.peer.Writing.{after_load, after_edit};
    ghost use Rattle.repl_target.specs.declared.auditing.found.Audit.TheVariants.{Clean};
    ghost use Rattle.repl_network.specs.Nets.{IsNet, Spread, FitsIn, IsRootedAt, EditFits, KeepsAgreement};
    ghost use Rattle.repl_network.specs.Made.{MadeAgree, StaysMade, StaysMadeByEdit, StaysMadeExcept};
    ghost use Rattle.repl_network.specs.Hopped.{IsChangedAt};
    ghost use Rattle.repl_network.specs.Hubs.{HubSpread};
    ghost use Rattle.repl_network.specs.Taken.{TakesHops, TakesHub, AnswersAt, IsNotAdded, Audits};
    ghost use Rattle.couch_base.specs.Put.{PutGives, put_answer};
    ghost use Rattle.couch_base.specs.Edit.{EditGives, edit_answer};

    /// Creates an empty network.
    pub fn new(alloc: Global) -> Net<F>
        ensures { result ≡ [] }
    {
        Net {
            peers: Vec::new(alloc),
        }
    }

    /// Adds a new peer without documents, and returns its index.
    ///
    /// # Errors
    ///
    /// An error changes nothing:
    ///
    /// - `SameUuid`: the peer at the error's index has the given UUID.
    /// - `Memory`: an allocation failed.
    pub fn add(&mut self, alloc: Global, uuid: u128, filter: F) -> Result<usize, NetFault>
    where
        F: Drop,
        ensures ok { IfOk result
            (λ place. (place ≡ length self.old) × (self.new ≡ self.old ++ (filter, new_peer uuid) ∷ [])) }
        ensures err { OnErr result (self.new ≡ self.old) }
        ensures refused { IfErr result (IsNotAdded (peers_of self.old) uuid) }
        ensures made { StaysMade (peers_of self.old) (peers_of self.new) }
    {
        if let Some(place) = place_of(&self.peers, uuid) {
            return Err(NetFault::SameUuid(place));
        }
        let place = self.peers.len();
        put_peer(&mut self.peers, alloc, uuid, filter)?;
        Ok(place)
    }

    /// Returns the peer at an index.
    pub fn peer(&self, place: usize) -> Option<&Peer<F>>
        ensures { option_copied result ≡ slice_get self.now place }
    {
        self.peers.get(place)
    }

    /// Makes the invariant of the network available to proofs, and has no effect at run time. If only edits without MD5
    /// collisions made a document, all trees of the document agree and have complete histories.
    pub fn law(&self)
        ensures net { IsNet [] (peers_of self.now) }
        ensures agree { MadeAgree (peers_of self.now) }
    {
        let _ = &self.peers;
    }

    /// Stores a user's document at one peer (`load_at`).
    pub fn load(&mut self, place: usize, doc: &Doc) -> Result<Put, NetFault>
        ensures answer { AnswersAt (peers_of self.old) place (λ p r. PutGives r (put_answer p.db doc.now)) result }
        ensures filters { filters_of self.new ≡ filters_of self.old }
        ensures ok { OnOk result (IsChangedAt place (λ p. after_load p doc.now) (peers_of self.old) (peers_of self.new)) }
        ensures err { OnErr result (peers_of self.new ≡ peers_of self.old) }
        ensures made { StaysMadeExcept doc.now.id (peers_of self.old) (peers_of self.new) }
        ensures agree { FitsIn (peers_of self.old) doc.now → IsRootedAt (peers_of self.old) place doc.now → (id : Id)
            → KeepsAgreement (peers_of self.old) (peers_of self.new) id }
    {
        load_at(&mut self.peers, place, doc)
    }

    /// Edits a document at one peer (`edit_at`).
    pub fn edit(
        &mut self,
        place: usize,
        id: &DocId,
        parent: Option<Rev>,
        deleted: bool,
        body: &Body,
    ) -> Result<Rev, NetFault>
        ensures answer { AnswersAt (peers_of self.old) place
            (λ p r. EditGives r (edit_answer p.db id.now parent deleted body.now)) result }
        ensures filters { filters_of self.new ≡ filters_of self.old }
        ensures ok { OnOk result
            (IsChangedAt place (λ p. after_edit p id.now parent deleted body.now) (peers_of self.old) (peers_of self.new)) }
        ensures err { OnErr result (peers_of self.new ≡ peers_of self.old) }
        ensures made { StaysMadeByEdit place id.now parent deleted body.now (peers_of self.old) (peers_of self.new) }
        ensures agree { EditFits (peers_of self.old) place id.now parent deleted body.now → (at : Id)
            → KeepsAgreement (peers_of self.old) (peers_of self.new) at }
    {
        edit_at(&mut self.peers, place, id, parent, deleted, body)
    }

    /// Replicates along hops (`replicate_along`).
    pub fn replicate_along(&mut self, alloc: Global, hops: &[Hop]) -> Result<(), NetFault>
        ensures taken { TakesHops F.refuses 0 self.old hops.now result self.new }
        ensures filters { filters_of self.new ≡ filters_of self.old }
        ensures made { StaysMade (peers_of self.old) (peers_of self.new) }
        ensures spread { OnOk result (Spread (peers_of self.old) hops.now (peers_of self.new)) }
    {
        replicate_along(alloc, &mut self.peers, hops)
    }

    /// Replicates all other peers into the first peer, and then the first peer into all other peers (`sync_by_hub`).
    pub fn sync_by_hub(
        &mut self,
        alloc: Global,
        there: &[Plan],
        back: &[Plan],
    ) -> Result<(), NetFault>
        ensures taken { TakesHub F.refuses self.old there.now back.now result self.new }
        ensures filters { filters_of self.new ≡ filters_of self.old }
        ensures made { StaysMade (peers_of self.old) (peers_of self.new) }
        ensures same { OnOk result (HubSpread (peers_of self.old) there.now back.now (peers_of self.new)) }
    {
        sync_by_hub(alloc, &mut self.peers, there, back)
    }

    /// Audits the replication between two peers. The result of the audit is always `Clean`.
    pub fn audit(
        &self,
        alloc: Global,
        source: usize,
        target: usize,
        chosen: Option<&Chosen>,
    ) -> Result<Audit, NetFault>
        ensures answer { Audits (peers_of self.now) source target (option_copied chosen.entry) result }
        ensures clean { IfOk result (λ found. found ≡ Clean) }
    {
        self.law();
        let Some(from) = self.peer(source) else {
            return Err(NetFault::NoPeer(source));
        };
        let Some(into) = self.peer(target) else {
            return Err(NetFault::NoPeer(target));
        };
        Ok(audit(alloc, from, into, chosen)?)
    }
}

/// Returns the index of the peer with a UUID, if the network has such a peer.
fn place_of<F: WriteFilter>(peers: &[Peer<F>], uuid: u128) -> Option<usize>
    ensures there { IfSome result (λ place. IsHeldAt (peers_of peers.now) uuid place) }
    ensures none { IfNone result (IsHeld (peers_of peers.now) uuid → ⊥) }
{
    for (place, peer) in peers.iter().enumerate() {
        if peer.db().uuid() == uuid {
            return Some(place);
        }
    }
    None
}

/// Appends a new peer.
fn put_peer<F: WriteFilter + Drop>(
    peers: &mut Vec<Peer<F>>,
    alloc: Global,
    uuid: u128,
    filter: F,
) -> Result<(), AllocError>
    ensures ok { OnOk result (peers.new.items ≡ peers.old.items ++ (filter, new_peer uuid) ∷ []) }
    ensures err { OnErr result (peers.new.items ≡ peers.old.items) }
{
    peers.push(Peer::new(alloc, uuid, filter))?;
    Ok(())
}
