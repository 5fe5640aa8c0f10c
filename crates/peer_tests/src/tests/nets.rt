//! Networks of peers, and calls on networks.
use crate::tests::carried::leaves;
use crate::tests::databases::{parent_of, tree};
use crate::tests::peers::found_text;
use crate::tests::plans::plan;
use crate::tests::records::fault_text;
use crate::tests::texts::{base_fault_text, body, doc, expect_answer, joined};
use couch_base::Database;
use doc_json::DocId;
use repl_network::{Hop, Net, NetFault, edit_at, load_at, replicate_along, sync_by_hub};
use repl_target::{Peer, Plan, Rules};
use rev_tree::SessionId;
use std::alloc::Global;
use std::process::Abort;
use test_support::{rev_text, shown};

/// The indices of a hop's source and target peer.
type Places = (usize, usize);

/// A call on a network. A call names each peer by the peer's index. The sessions of the replications in a test are
/// numbered consecutively.
#[derive(Clone, Copy)]
pub(crate) enum Call<'a> {
    /// Add a peer with a UUID, and with a filter that refuses document ids with a given prefix.
    Add(u128, Option<&'a str>),
    /// Load a document.
    Load(usize, &'a str),
    /// Edit a document, given the document's id, the parent revision (an empty string for none) and the body.
    Edit(usize, &'a str, &'a str, &'a str),
    /// Replicate along hops.
    Along(&'a [Places]),
    /// Replicate along hops, with windows of one row and at most two windows for each replication.
    AlongTwoRows(&'a [Places]),
    /// Replicate all peers through the hub. The arguments are the number of plans for replications into the hub, and
    /// the number of plans for replications out of the hub.
    Hub(usize, usize),
    /// Audit a replication from the first peer, the source, into the second peer, the target.
    Audit(usize, usize),
    /// Read the tree of a document.
    Tree(usize, &'a str),
    /// Read the ancestry and the content of each leaf of a document, winner first.
    Leaves(usize, &'a str),
}

/// The calls of a test, each with the expected result.
pub(crate) type Rows = &'static [(Call<'static>, &'static str)];

/// Lists of calls that are performed in order.
pub(crate) type Lists = &'static [Rows];

/// A network, and the number of the network's last session.
#[derive(Drop)]
struct Bench {
    alloc: Global,
    net: Net<Rules>,
    session: u128,
}

impl Bench {
    /// Performs a call, and returns the call's result as a string.
    fn answer(&mut self, call: &Call) -> Option<String> {
        match *call {
            Call::Add(uuid, deny) => self.add(uuid, deny),
            Call::Load(place, text) => self.load(place, text),
            Call::Edit(place, id, parent, text) => self.edit(place, id, parent, text),
            Call::Along(places) => self.along(places, None),
            Call::AlongTwoRows(places) => self.along(places, Some(2)),
            Call::Hub(there, back) => self.by_hub(there, back),
            reading => self.read(&reading),
        }
    }

    /// Performs a read-only call.
    fn read(&self, call: &Call) -> Option<String> {
        match *call {
            Call::Audit(source, target) => self.audit(source, target),
            Call::Tree(place, _) | Call::Leaves(place, _) => match self.net.peer(place) {
                Some(peer) => of_database(self.alloc, peer.db(), call),
                None => None,
            },
            _ => None,
        }
    }

    /// Adds a peer, and returns the peer's index.
    fn add(&mut self, uuid: u128, deny: Option<&str>) -> Option<String> {
        let deny = match deny {
            Some(prefix) => {
                let Ok(prefix) = prefix.to_string(self.alloc) else {
                    return None;
                };
                Some(prefix)
            }
            None => None,
        };
        match self.net.add(self.alloc, uuid, Rules { deny }) {
            Ok(place) => shown(self.alloc, &place),
            Err(fault) => net_fault_text(self.alloc, fault),
        }
    }

    /// Loads a document.
    fn load(&mut self, place: usize, text: &str) -> Option<String> {
        let Some(doc) = doc(self.alloc, text) else {
            return None;
        };
        match self.net.load(place, &doc) {
            Ok(put) => shown(self.alloc, &put),
            Err(fault) => net_fault_text(self.alloc, fault),
        }
    }

    /// Edits a document.
    fn edit(&mut self, place: usize, id: &str, parent: &str, text: &str) -> Option<String> {
        let Ok(id) = DocId::parse(self.alloc, id) else {
            return None;
        };
        let Some(parent) = parent_of(parent) else {
            return None;
        };
        let Some(body) = body(self.alloc, text) else {
            return None;
        };
        match self.net.edit(place, &id, parent, false, &body) {
            Ok(rev) => rev_text(self.alloc, rev),
            Err(fault) => net_fault_text(self.alloc, fault),
        }
    }

    /// Creates the plan of the next session. If `stop_after` is given, the session has windows of one row.
    fn next_plan(&mut self, stop_after: Option<u64>) -> Option<Plan> {
        self.session = self.session.saturating_add(1);
        let batch = if stop_after.is_some() { 1 } else { 500 };
        let Some(mut plan) = plan(SessionId(self.session), batch, 0) else {
            return None;
        };
        plan.stop_after = stop_after;
        Some(plan)
    }

    /// Creates `count` plans.
    fn plans(&mut self, count: usize) -> Option<Vec<Plan>> {
        let mut plans = Vec::new(self.alloc);
        for _ in 0..count {
            let Some(plan) = self.next_plan(None) else {
                return None;
            };
            let Ok(()) = plans.push(plan) else {
                return None;
            };
        }
        Some(plans)
    }

    /// Replicates along hops, which are given as pairs of a source and a target.
    fn along(&mut self, places: &[Places], stop_after: Option<u64>) -> Option<String> {
        let mut hops = Vec::new(self.alloc);
        for (from, to) in places {
            let Some(plan) = self.next_plan(stop_after) else {
                return None;
            };
            let (from, to) = (*from, *to);
            let Ok(()) = hops.push(Hop { from, to, plan }) else {
                return None;
            };
        }
        let done = self.net.replicate_along(self.alloc, &hops);
        done_text(self.alloc, done)
    }

    /// Replicates through the hub.
    fn by_hub(&mut self, there: usize, back: usize) -> Option<String> {
        let Some(there) = self.plans(there) else {
            return None;
        };
        let Some(back) = self.plans(back) else {
            return None;
        };
        let done = self.net.sync_by_hub(self.alloc, &there, &back);
        done_text(self.alloc, done)
    }

    /// Audits a target against a source.
    fn audit(&self, source: usize, target: usize) -> Option<String> {
        match self.net.audit(self.alloc, source, target, None) {
            Ok(found) => found_text(self.alloc, Ok(found)),
            Err(fault) => net_fault_text(self.alloc, fault),
        }
    }
}

/// Performs the call `Tree` or the call `Leaves` on a database.
fn of_database(alloc: Global, db: &Database, call: &Call) -> Option<String> {
    match *call {
        Call::Tree(_, id) => tree(alloc, db, id),
        Call::Leaves(_, id) => leaves(alloc, db, id),
        _ => None,
    }
}

/// Returns how replications ended.
fn done_text(alloc: Global, done: Result<(), NetFault>) -> Option<String> {
    match done {
        Ok(()) => "done".to_string(alloc).ok(),
        Err(fault) => net_fault_text(alloc, fault),
    }
}

/// Returns the text of an error of a call on a network.
pub(crate) fn net_fault_text(alloc: Global, fault: NetFault) -> Option<String> {
    match fault {
        NetFault::Hop(at, why) => {
            joined(format!(in alloc; "hop {at}: ").ok(), fault_text(alloc, why))
        }
        NetFault::Write(why) => base_fault_text(alloc, why),
        plain => shown(alloc, &plain),
    }
}

/// Performs lists of calls on a new network, and asserts that each call returns the expected result.
pub(crate) fn expect(rt: &impl Abort, alloc: Global, lists: Lists) {
    let mut bench = Bench {
        alloc,
        net: Net::new(alloc),
        session: 0,
    };
    for rows in lists {
        for (i, (call, wanted)) in rows.iter().enumerate() {
            expect_answer(rt, i, bench.answer(call), wanted);
        }
    }
}

/// Creates three peers without documents.
fn three(alloc: Global) -> Option<Vec<Peer<Rules>>> {
    let mut peers = Vec::new(alloc);
    for uuid in 1..4u64 {
        let peer = Peer::new(alloc, uuid as u128, Rules { deny: None });
        let Ok(()) = peers.push(peer) else {
            return None;
        };
    }
    Some(peers)
}

/// Makes local writes at the second peer and at the third peer.
fn write(alloc: Global, peers: &mut [Peer<Rules>]) -> Option<()> {
    let Some(doc) = doc(alloc, r#"{"_id":"d","_rev":"1-a"}"#) else {
        return None;
    };
    let Ok(_put) = load_at(peers, 1, &doc) else {
        return None;
    };
    let Ok(id) = DocId::parse(alloc, "e") else {
        return None;
    };
    let Some(body) = body(alloc, "{}") else {
        return None;
    };
    let Ok(_rev) = edit_at(peers, 2, &id, None, false, &body) else {
        return None;
    };
    Some(())
}

/// Creates the plans of two consecutive sessions.
fn two_plans(session: u128) -> Option<[Plan; 2]> {
    let Some(one) = plan(SessionId(session), 500, 0) else {
        return None;
    };
    let Some(other) = plan(SessionId(session.saturating_add(1)), 500, 0) else {
        return None;
    };
    Some([one, other])
}

/// Replicates the second peer into the third peer, and then replicates all peers through the first peer.
fn replicate(alloc: Global, peers: &mut [Peer<Rules>]) -> Option<()> {
    let Some(first) = plan(SessionId(1), 500, 0) else {
        return None;
    };
    let hop = Hop {
        from: 1,
        to: 2,
        plan: first,
    };
    let Ok(()) = replicate_along(alloc, peers, &[hop]) else {
        return None;
    };
    let Some(there) = two_plans(2) else {
        return None;
    };
    let Some(back) = two_plans(4) else {
        return None;
    };
    sync_by_hub(alloc, peers, &there, &back).ok()
}

/// Returns the leaves of the documents d and e at each of three peers, after writes and replications.
fn replicated(alloc: Global) -> Option<String> {
    let Some(mut peers) = three(alloc) else {
        return None;
    };
    let Some(()) = write(alloc, &mut peers) else {
        return None;
    };
    let Some(()) = replicate(alloc, &mut peers) else {
        return None;
    };
    let mut all = Some(String::new(alloc));
    for peer in &peers {
        all = joined(all, leaves(alloc, peer.db(), "d"));
        all = joined(all, leaves(alloc, peer.db(), "e"));
    }
    all
}

/// Asserts that all three peers of a slice have the documents d and e after writes and replications.
pub(crate) fn of_slice(rt: &impl Abort, alloc: Global) {
    const WANTED: &str = " d 1-a live {}; e 1-a7b2c897c2eeb544e2e818194f53a9e3 live {};";
    let mut all = String::new(alloc);
    for _ in 0..3 {
        all.push_str(WANTED).expect(rt, "memory");
    }
    expect_answer(rt, 0, replicated(alloc), &all);
}
