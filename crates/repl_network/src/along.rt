//! Replications in a network.
ghost use Rattle.std.specs.Prelude.{◌≡◌, ℕ, Bool, List, ◌≢◌, ◌<◌, ◌≤◌, length, OnOk, OnErr, slice_get};
ghost use Rattle.std.specs.List.{All};
ghost use Rattle.repl_peer.specs.peer.Backups.{BackupValue};
ghost use Rattle.repl_network.specs.Nets.{peers_of, filters_of, AreTied, IsNet, Spread, FitsIn, IsRootedAt, EditFits, KeepsAgreement};
ghost use Rattle.repl_network.specs.Made.{StaysMade, StaysMadeByEdit, StaysMadeExcept};
ghost use Rattle.repl_network.specs.Hopped.{Carried, Ended, AllHopped, IsChangedAt};
ghost use Rattle.repl_network.specs.Taken.{IsHop, TakesHop, TakesHops, AnswersAt};
ghost use Rattle.repl_target.specs.replication.Replication.{Replicates};
ghost use Rattle.couch_base.specs.Put.{PutGives, put_answer};
ghost use Rattle.couch_base.specs.Edit.{EditGives, edit_answer};
ghost use Rattle.repl_target.specs.Audit.{CoversFeed};
ghost use Rattle.repl_target.specs.ties.Ties.{IsTiedPair};
ghost use Rattle.repl_peer.specs.peer.Writing.{after_load, after_edit};
ghost use Rattle.couch_base.specs.Database.{Id, LawfulDatabase};

use crate::fault::NetFault;
use crate::hop::Hop;
use couch_base::Put;
use doc_json::{Body, Doc, DocId};
use repl_target::{Peer, Plan, Report, TargetFault, WriteFilter, replicate_alone};
use rev_core::Rev;
use std::alloc::Global;

/// Performs hops (replications between two peers of a network) in order, until a hop fails. Each hop is a call of
/// `replicate_alone` with the hop's plan.
///
/// If every two peers are consistent (docs/PROFILE.md, "Nets"), they stay consistent, even if the call fails. A
/// document is *selected* if every hop's plan selects the document, and no peer has refused the document when the call
/// returns. The following guarantees are for a successful call on consistent peers, and for a selected document whose
/// trees agree and have complete histories. After the call, the document's trees still agree and have complete
/// histories. If chains of hops lead from every peer to every other peer, the document is the same at all peers after
/// the call. A document that is the same at all peers has the same winner at all peers.
pub fn replicate_along<F: WriteFilter>(
    alloc: Global,
    peers: &mut [Peer<F>],
    hops: &[Hop],
) -> Result<(), NetFault>
    ensures taken { TakesHops F.refuses 0 peers.old hops.now result peers.new }
    ensures filters { filters_of peers.new ≡ filters_of peers.old }
    ensures tied { AreTied (peers_of peers.old) → AreTied (peers_of peers.new) }
    ensures net { (backups : List (ℕ × BackupValue)) → IsNet backups (peers_of peers.old)
        → IsNet backups (peers_of peers.new) }
    ensures made { StaysMade (peers_of peers.old) (peers_of peers.new) }
    ensures spread { OnOk result
        (AreTied (peers_of peers.old) → Spread (peers_of peers.old) hops.now (peers_of peers.new)) }
{
    hold_laws(peers);
    for (at, hop) in hops.iter().enumerate() {
        take_hop(alloc, peers, at, hop)?;
    }
    Ok(())
}

/// Stores a user's document at one peer of a network (`Peer::load`).
///
/// If every two peers are consistent, they stay consistent, even if the call fails. The call keeps the trees of every
/// document in agreement and with complete histories under two conditions. The stored document must agree with each
/// peer's tree, and must be complete at the storing peer. The stored document agrees with a tree if document and tree
/// never give a revision different parents or different contents. The stored document is complete at a peer if its
/// ancestry reaches generation 1, or if the peer's tree has the ancestry's oldest revision.
pub fn load_at<F: WriteFilter>(
    peers: &mut [Peer<F>],
    place: usize,
    doc: &Doc,
) -> Result<Put, NetFault>
    ensures answer { AnswersAt (peers_of peers.old) place (λ p r. PutGives r (put_answer p.db doc.now)) result }
    ensures filters { filters_of peers.new ≡ filters_of peers.old }
    ensures tied { AreTied (peers_of peers.old) → AreTied (peers_of peers.new) }
    ensures net { (backups : List (ℕ × BackupValue)) → IsNet backups (peers_of peers.old)
        → IsNet backups (peers_of peers.new) }
    ensures ok { OnOk result (IsChangedAt place (λ p. after_load p doc.now) (peers_of peers.old) (peers_of peers.new)) }
    ensures err { OnErr result (peers_of peers.new ≡ peers_of peers.old) }
    ensures made { StaysMadeExcept doc.now.id (peers_of peers.old) (peers_of peers.new) }
    ensures agree { FitsIn (peers_of peers.old) doc.now → IsRootedAt (peers_of peers.old) place doc.now → (id : Id)
        → KeepsAgreement (peers_of peers.old) (peers_of peers.new) id }
{
    if place >= peers.len() {
        return Err(NetFault::NoPeer(place));
    }
    match peers[place].load(doc) {
        Ok(put) => Ok(put),
        Err(fault) => Err(NetFault::Write(fault)),
    }
}

/// Edits a document at one peer of a network (`Peer::edit`).
///
/// If every two peers are consistent, they stay consistent, even if the call fails. If no peer has the new revision
/// with another parent or content, the edit keeps the document's trees in agreement and with complete histories. If
/// only edits made a document, a revision can have two different parents or contents only if two different edits have
/// the same MD5.
pub fn edit_at<F: WriteFilter>(
    peers: &mut [Peer<F>],
    place: usize,
    id: &DocId,
    parent: Option<Rev>,
    deleted: bool,
    body: &Body,
) -> Result<Rev, NetFault>
    ensures answer { AnswersAt (peers_of peers.old) place
        (λ p r. EditGives r (edit_answer p.db id.now parent deleted body.now)) result }
    ensures filters { filters_of peers.new ≡ filters_of peers.old }
    ensures tied { AreTied (peers_of peers.old) → AreTied (peers_of peers.new) }
    ensures net { (backups : List (ℕ × BackupValue)) → IsNet backups (peers_of peers.old)
        → IsNet backups (peers_of peers.new) }
    ensures ok { OnOk result
        (IsChangedAt place (λ p. after_edit p id.now parent deleted body.now) (peers_of peers.old) (peers_of peers.new)) }
    ensures err { OnErr result (peers_of peers.new ≡ peers_of peers.old) }
    ensures made { StaysMadeByEdit place id.now parent deleted body.now (peers_of peers.old) (peers_of peers.new) }
    ensures agree { EditFits (peers_of peers.old) place id.now parent deleted body.now → (at : Id)
        → KeepsAgreement (peers_of peers.old) (peers_of peers.new) at }
{
    if place >= peers.len() {
        return Err(NetFault::NoPeer(place));
    }
    match peers[place].edit(id, parent, deleted, body) {
        Ok(rev) => Ok(rev),
        Err(fault) => Err(NetFault::Write(fault)),
    }
}

/// Makes the invariant of each peer's database available to proofs, and has no effect at run time.
fn hold_laws<F: WriteFilter>(peers: &[Peer<F>])
    ensures { All (λ p. LawfulDatabase p.1.db) peers.now }
{
    for peer in peers {
        peer.law();
    }
}

/// Replicates from the peer at one index into the peer at another index.
fn take_hop<F: WriteFilter>(
    alloc: Global,
    peers: &mut [Peer<F>],
    at: usize,
    hop: &Hop,
) -> Result<Report, NetFault>
    ensures taken { TakesHop F.refuses at peers.old hop.now result peers.new }
    ensures filters { filters_of peers.new ≡ filters_of peers.old }
    ensures tied { AreTied (peers_of peers.old) → AreTied (peers_of peers.new) }
    ensures net { (backups : List (ℕ × BackupValue)) → IsNet backups (peers_of peers.old)
        → IsNet backups (peers_of peers.new) }
    ensures made { StaysMade (peers_of peers.old) (peers_of peers.new) }
    ensures ended { OnOk result (Ended (peers_of peers.old) hop.now (peers_of peers.new)) }
{
    if hop.from >= peers.len() {
        return Err(NetFault::NoPeer(hop.from));
    }
    if hop.to >= peers.len() {
        return Err(NetFault::NoPeer(hop.to));
    }
    if hop.from == hop.to {
        return Err(NetFault::Hop(at, TargetFault::SamePeer));
    }
    match carry(alloc, peers, hop) {
        Ok(report) => Ok(report),
        Err(why) => Err(NetFault::Hop(at, why)),
    }
}

/// Replicates between two different peers whose indices exist.
fn carry<F: WriteFilter>(
    alloc: Global,
    peers: &mut [Peer<F>],
    hop: &Hop,
) -> Result<Report, TargetFault>
    requires from { hop.now.from < length peers.old }
    requires to { hop.now.to < length peers.old }
    requires two { hop.now.from ≢ hop.now.to }
    ensures hop { IsHop F.refuses peers.old hop.now result peers.new }
    ensures filters { filters_of peers.new ≡ filters_of peers.old }
    ensures tied { AreTied (peers_of peers.old) → AreTied (peers_of peers.new) }
    ensures net { (backups : List (ℕ × BackupValue)) → IsNet backups (peers_of peers.old)
        → IsNet backups (peers_of peers.new) }
    ensures made { StaysMade (peers_of peers.old) (peers_of peers.new) }
    ensures ended { OnOk result (Ended (peers_of peers.old) hop.now (peers_of peers.new)) }
{
    if hop.from < hop.to {
        let (front, back) = peers.split_at_mut(hop.to);
        replicate_two(alloc, &mut front[hop.from], &mut back[0], &hop.plan)
    } else {
        let (front, back) = peers.split_at_mut(hop.from);
        replicate_two(alloc, &mut back[0], &mut front[hop.to], &hop.plan)
    }
}

/// Replicates between two peers.
fn replicate_two<F: WriteFilter>(
    alloc: Global,
    source: &mut Peer<F>,
    target: &mut Peer<F>,
    plan: &Plan,
) -> Result<Report, TargetFault>
    ensures replicates { Replicates (F.refuses target.old.0) source.old.1 target.old.1 plan.now result source.new.1
        target.new.1 }
    ensures filters { (source.new.0 ≡ source.old.0) × (target.new.0 ≡ target.old.0) }
    ensures carried { Carried (F.refuses target.old.0) source.old.1 target.old.1 plan.now source.new.1 target.new.1 }
    ensures whole { OnOk result
        (IsTiedPair source.old.1 target.old.1 plan.now.chosen
        → CoversFeed source.old.1 target.new.1 plan.now.chosen source.old.1.db.update_seq) }
{
    source.law();
    target.law();
    let answer = replicate_alone(alloc, source, target, plan);
    target.law();
    answer
}
