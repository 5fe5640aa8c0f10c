//! Tests that calls of `Net` (a network of peers) handle failed allocations. If an allocation fails in `add`, `load` or
//! `edit`, the network is unchanged. After any failed allocation, audits find no uncovered leaf. If a hop (a
//! replication between two peers) fails, the test repeats the hops with other session ids. After the repeated hops, the
//! sum of the peers' update sequences is the same as if no allocation had failed.
use crate::peers::{body, doc, doc_id};
use crate::replications::{is_memory, is_nothing, plan};
use anyhow::{Result, bail};
use couch_base::BaseFault;
use repl_log::Moment;
use repl_network::{Hop, Net, NetFault};
use repl_target::{Plan, Rules};
use std::alloc::Global;

/// The number of peers.
const PEERS: usize = 3;

/// Whether a call ran out of memory.
fn is_wanting(fault: NetFault) -> bool {
    match fault {
        NetFault::Memory => true,
        NetFault::Hop(_, why) => is_memory(why),
        NetFault::Write(BaseFault::Memory) => true,
        _ => false,
    }
}

/// Adds a peer, and retries if an allocation fails.
fn add(alloc: Global, net: &mut Net<Rules>, uuid: u128) -> Option<usize> {
    match net.add(alloc, uuid, Rules { deny: None }) {
        Ok(place) => Some(place),
        Err(fault) => {
            if !is_wanting(fault) {
                return None;
            }
            net.add(alloc, uuid, Rules { deny: None }).ok()
        }
    }
}

/// Loads a document, and retries if an allocation fails.
fn load(alloc: Global, net: &mut Net<Rules>, place: usize, text: &str) -> Option<()> {
    let Some(doc) = doc(alloc, text) else {
        return None;
    };
    if let Err(fault) = net.load(place, &doc) {
        if !is_wanting(fault) {
            return None;
        }
        let Ok(_put) = net.load(place, &doc) else {
            return None;
        };
    }
    Some(())
}

/// Edits a document, and retries if an allocation fails.
fn edit(alloc: Global, net: &mut Net<Rules>, place: usize, id: &str) -> Option<()> {
    let Some(id) = doc_id(alloc, id) else {
        return None;
    };
    let Some(body) = body(alloc, r#"{"n":1}"#) else {
        return None;
    };
    if let Err(fault) = net.edit(place, &id, None, false, &body) {
        if !is_wanting(fault) {
            return None;
        }
        let Ok(_rev) = net.edit(place, &id, None, false, &body) else {
            return None;
        };
    }
    Some(())
}

/// Audits two peers, and retries if an allocation fails. Returns whether the target covers each leaf that the audit
/// reads.
fn is_clean(alloc: Global, net: &Net<Rules>, source: usize, target: usize) -> bool {
    let found = match net.audit(alloc, source, target, None) {
        Ok(found) => Some(found),
        Err(_) => net.audit(alloc, source, target, None).ok(),
    };
    match found {
        Some(found) => is_nothing(found),
        None => false,
    }
}

/// Audits each pair of peers. Returns whether each target covers (has in a tree or in a session's ledger) all leaves
/// that the audit reads.
fn are_clean(alloc: Global, net: &Net<Rules>) -> bool {
    let mut clean = true;
    for source in 0..PEERS {
        for target in 0..PEERS {
            clean = clean && is_clean(alloc, net, source, target);
        }
    }
    clean
}

/// Returns two hops (replications between two peers): from the second peer to the third peer, and from the third peer
/// to the first peer.
fn hops(alloc: Global, first: u128, at: Moment) -> Option<Vec<Hop>> {
    let mut hops = Vec::new(alloc);
    let hop = Hop {
        from: 1,
        to: 2,
        plan: plan(first, at),
    };
    let Ok(()) = hops.push(hop) else {
        return None;
    };
    let hop = Hop {
        from: 2,
        to: 0,
        plan: plan(first.saturating_add(1), at),
    };
    let Ok(()) = hops.push(hop) else {
        return None;
    };
    Some(hops)
}

/// Creates a list of hops, which are replications between two peers, and retries if an allocation fails.
fn some_hops(alloc: Global, first: u128, at: Moment) -> Option<Vec<Hop>> {
    match hops(alloc, first, at) {
        Some(hops) => Some(hops),
        None => hops(alloc, first, at),
    }
}

/// Performs the hops (replications between two peers) that `some_hops` returns. If an allocation fails, the call
/// performs the hops again with other session ids.
fn along(alloc: Global, net: &mut Net<Rules>, at: Moment) -> Option<()> {
    let Some(first) = some_hops(alloc, 1, at) else {
        return None;
    };
    if let Err(fault) = net.replicate_along(alloc, &first) {
        if !is_wanting(fault) || !are_clean(alloc, net) {
            return None;
        }
        let Some(again) = some_hops(alloc, 3, at) else {
            return None;
        };
        let Ok(()) = net.replicate_along(alloc, &again) else {
            return None;
        };
    }
    Some(())
}

/// Returns a plan for each peer other than the hub.
fn plans(alloc: Global, first: u128, at: Moment) -> Option<Vec<Plan>> {
    let mut plans = Vec::new(alloc);
    let Ok(()) = plans.push(plan(first, at)) else {
        return None;
    };
    let Ok(()) = plans.push(plan(first.saturating_add(1), at)) else {
        return None;
    };
    Some(plans)
}

/// Creates a list of plans, and retries if an allocation fails.
fn some_plans(alloc: Global, first: u128, at: Moment) -> Option<Vec<Plan>> {
    match plans(alloc, first, at) {
        Some(plans) => Some(plans),
        None => plans(alloc, first, at),
    }
}

/// Replicates through the hub, and retries with other session ids if an allocation fails.
fn by_hub(alloc: Global, net: &mut Net<Rules>, at: Moment) -> Option<()> {
    let Some(there) = some_plans(alloc, 5, at) else {
        return None;
    };
    let Some(back) = some_plans(alloc, 7, at) else {
        return None;
    };
    if let Err(fault) = net.sync_by_hub(alloc, &there, &back) {
        if !is_wanting(fault) || !are_clean(alloc, net) {
            return None;
        }
        let Some(there) = some_plans(alloc, 9, at) else {
            return None;
        };
        let Some(back) = some_plans(alloc, 11, at) else {
            return None;
        };
        let Ok(()) = net.sync_by_hub(alloc, &there, &back) else {
            return None;
        };
    }
    Some(())
}

/// Returns the sum of the update sequences of all peers.
fn sequences(net: &Net<Rules>) -> Option<u64> {
    let mut sum = 0u64;
    for place in 0..PEERS {
        sum = sum.saturating_add(net.peer(place)?.db().update_seq());
    }
    Some(sum)
}

/// Writes and replicates in a network of three peers. Returns the sum of the peers' update sequences, and whether no
/// audit finds an uncovered leaf.
fn ended(alloc: Global, net: &mut Net<Rules>) -> Option<(u64, bool)> {
    let Ok(at) = Moment::new(10) else {
        return None;
    };
    for uuid in 1..4u64 {
        let Some(_place) = add(alloc, net, uuid as u128) else {
            return None;
        };
    }
    load(
        alloc,
        net,
        1,
        r#"{"_id":"d","_revisions":{"start":2,"ids":["b","a"]}}"#,
    )?;
    let Some(()) = edit(alloc, net, 1, "e") else {
        return None;
    };
    let Some(()) = along(alloc, net, at) else {
        return None;
    };
    let Some(()) = edit(alloc, net, 2, "f") else {
        return None;
    };
    let Some(()) = by_hub(alloc, net, at) else {
        return None;
    };
    let clean = are_clean(alloc, net);
    Some((sequences(net)?, clean))
}

/// Calls `ended` with a new network. The network is the function's only live variable, because each further variable
/// lengthens the proof.
fn of_net(alloc: Global) -> Option<(u64, bool)> {
    let mut net = Net::new(alloc);
    ended(alloc, &mut net)
}

pub(crate) fn run(rt: &impl Print, alloc: Global) -> Result<()> {
    let Some((sequences, clean)) = of_net(alloc) else {
        bail!("nets: another answer");
    };
    println!(rt; "nets as wanted: sequences {sequences}, clean {clean}")?;
    Ok(())
}
