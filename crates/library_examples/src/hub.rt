//! An example in which three laptops and a hub are the peers of one network. The laptops write independently, and
//! synchronize through the hub twice.
use anyhow::Result;
use doc_json::{DocId, read_body};
use repl_log::Moment;
use repl_network::Net;
use repl_target::{Audit, Peer, Plan, Rules};
use rev_core::Rev;
use rev_tree::SessionId;
use serde_json::Value;
use std::alloc::Global;
use std::str::from_utf8;

/// The peers of the network. The first peer is the hub.
const NAMES: [&str; 4] = ["hub", "ann", "ben", "cleo"];

/// Lets the laptops write documents and synchronize twice. At the end, the call audits every pair of peers.
pub fn run(rt: &HostRuntime) -> Result<()> {
    let mut net = Net::new(rt.alloc());
    for uuid in 1..5u64 {
        net.add(rt.alloc(), uuid as u128, Rules { deny: None })?;
    }
    let milk = first_day(rt.alloc(), &mut net)?;
    meet(rt.alloc(), &mut net, 1)?;
    tell(rt, &net)?;
    second_day(rt.alloc(), &mut net, milk)?;
    meet(rt.alloc(), &mut net, 7)?;
    tell(rt, &net)?;
    println!(rt; "holes found by audits: {}", holes(rt.alloc(), &net)?)?;
    Ok(())
}

/// Lets each laptop write a document.
fn first_day(alloc: Global, net: &mut Net<Rules>) -> Result<Rev> {
    let milk = edit(alloc, net, 1, "milk", None, r#"{"litres":1}"#)?;
    edit(alloc, net, 2, "bread", None, r#"{"loaves":1}"#)?;
    edit(alloc, net, 3, "tea", None, r#"{"bags":20}"#)?;
    Ok(milk)
}

/// Lets two laptops change the same document independently.
fn second_day(alloc: Global, net: &mut Net<Rules>, milk: Rev) -> Result<()> {
    edit(alloc, net, 1, "milk", Some(milk), r#"{"litres":2}"#)?;
    edit(alloc, net, 3, "milk", Some(milk), r#"{"litres":3}"#)?;
    Ok(())
}

/// Edits a document of a peer. The new revision is a child of `parent`, or the first revision if there is no parent.
fn edit(
    alloc: Global,
    net: &mut Net<Rules>,
    place: usize,
    id: &str,
    parent: Option<Rev>,
    json: &str,
) -> Result<Rev> {
    let id = DocId::parse(alloc, id)?;
    let value = Value::from_slice(alloc, json.as_bytes())?;
    let body = read_body(alloc, &value)?;
    Ok(net.edit(place, &id, parent, false, &body)?)
}

/// Replicates every laptop into the hub, and the hub into every laptop.
fn meet(alloc: Global, net: &mut Net<Rules>, session: u128) -> Result<()> {
    let there = plans(alloc, session)?;
    let back = plans(alloc, session.saturating_add(3))?;
    net.sync_by_hub(alloc, &there, &back)?;
    Ok(())
}

/// Creates one replication plan for each of the example's three laptops, with consecutive session ids from `first`.
fn plans(alloc: Global, first: u128) -> Result<Vec<Plan>> {
    let mut plans = Vec::new(alloc);
    for number in 0..3u64 {
        plans.push(Plan {
            session: SessionId(first.saturating_add(number as u128)),
            workers: 1,
            batch: 500,
            stop_after: None,
            at: Moment::new(1_700_000_000)?,
            chosen: None,
        })?;
    }
    Ok(plans)
}

/// Prints, for each peer, the winning body and the number of leaves of the document `milk`.
fn tell(rt: &HostRuntime, net: &Net<Rules>) -> Result<()> {
    let id = DocId::parse(rt.alloc(), "milk")?;
    for (place, name) in NAMES.iter().enumerate() {
        if let Some(peer) = net.peer(place) {
            let (winner, leaves) = winner(rt.alloc(), peer, &id)?;
            println!(rt; "{name}: {winner}, of {leaves}")?;
        }
    }
    Ok(())
}

/// Returns the body of a document's winning revision, and the number of the document's leaves.
fn winner(alloc: Global, peer: &Peer<Rules>, id: &DocId) -> Result<(String, usize)> {
    let Some(tree) = peer.db().tree(id) else {
        return Ok((String::new(alloc), 0));
    };
    let Some(rev) = tree.winner() else {
        return Ok((String::new(alloc), 0));
    };
    let mut text = String::new(alloc);
    if let Some(doc) = peer.db().document(alloc, id, rev)? {
        text.push_str(from_utf8(doc.body().text())?)?;
    }
    Ok((text, tree.leaf_count()))
}

/// Returns the number of pairs of peers whose audit finds a leaf that is not covered.
fn holes(alloc: Global, net: &Net<Rules>) -> Result<usize> {
    let mut found = 0usize;
    for source in 0..NAMES.len() {
        for target in 0..NAMES.len() {
            if source != target && is_hole(net.audit(alloc, source, target, None)?) {
                found = found.saturating_add(1);
            }
        }
    }
    Ok(found)
}

/// Whether an audit found a leaf that is not covered.
fn is_hole(found: Audit) -> bool {
    match found {
        Audit::Clean => false,
        Audit::Hole { .. } => true,
    }
}
