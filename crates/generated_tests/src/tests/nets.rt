//! Tests of networks whose peers are edited at random. After a replication through a hub, or two rounds of replications
//! along a ring of peers, all peers must have the same documents. If the replication is repeated, it must change no
//! peer. Audits must find no uncovered leaf. Another test replicates along random hops, each from one peer to another.
//! If a chain of hops leads from one peer to a second peer, the second peer must have all earlier leaves of the first
//! peer.
use crate::tests::checks::holds;
use crate::tests::feeds::id;
use crate::tests::merges::below;
use crate::tests::plain_sides::IDS;
use crate::tests::syncs::{assert_same, body, leaf, plan};
use rand_chacha::ChaCha8Rng;
use rand_core::SeedableRng;
use repl_network::{Hop, Net};
use repl_target::{Audit, Peer, Plan, Rules};
use rev_core::Rev;
use std::alloc::Global;
use std::process::Abort;

/// The number of peers of a network, and the number of rounds of a test.
const PEERS: usize = 5;

const MEETINGS: usize = 3;

/// Makes random edits of documents at each peer.
fn edit(rt: &impl Abort, alloc: Global, rng: &mut ChaCha8Rng, net: &mut Net<Rules>) {
    for place in 0..PEERS {
        for _ in 0..6 {
            let id = id(rt, alloc, below(rng, IDS as u32));
            let tree = match net.peer(place) {
                Some(peer) => peer.db().tree(&id),
                None => None,
            };
            let parent = leaf(rt, alloc, rng, tree);
            let deleted = parent.is_some() && below(rng, 5) == 0;
            let body = body(rt, alloc, rng);
            let _edited = net.edit(place, &id, parent, deleted, &body);
        }
    }
}

/// Returns the peer at an index of the network.
fn at<'a>(rt: &impl Abort, net: &'a Net<Rules>, place: usize) -> &'a Peer<Rules> {
    net.peer(place).expect(rt, "a peer")
}

/// Audits every two peers in both directions, and asserts that the audits find no uncovered leaf. An uncovered leaf is
/// a leaf of the source that the target neither stored nor rejected.
fn assert_clean(rt: &impl Abort, alloc: Global, net: &Net<Rules>) {
    for one in 0..PEERS {
        for other in 0..PEERS {
            if one != other {
                let found = net.audit(alloc, one, other, None).expect(rt, "memory");
                holds(rt, matches!(found, Audit::Clean), "an audit is clean");
            }
        }
    }
}

/// Asserts that all peers have the same documents.
fn assert_all_same(rt: &impl Abort, alloc: Global, net: &Net<Rules>) {
    for other in 1..PEERS {
        assert_same(rt, alloc, at(rt, net, 0), at(rt, net, other));
    }
}

/// Returns the sum of the update sequences of all peers.
fn sequences(rt: &impl Abort, net: &Net<Rules>) -> u64 {
    let mut sum = 0u64;
    for place in 0..PEERS {
        sum = sum.saturating_add(at(rt, net, place).db().update_seq());
    }
    sum
}

/// Returns a replication plan for each peer other than the first.
fn plans(rt: &impl Abort, alloc: Global, rng: &mut ChaCha8Rng, sessions: &mut u128) -> Vec<Plan> {
    let mut plans = Vec::new(alloc);
    for _ in 1..PEERS {
        plans.push(plan(rt, rng, 0, sessions)).expect(rt, "memory");
    }
    plans
}

/// Returns the hops of two rounds along a ring of all peers. In two rounds along a ring, chains of hops lead from every
/// peer to every other peer.
fn ring(rt: &impl Abort, alloc: Global, rng: &mut ChaCha8Rng, sessions: &mut u128) -> Vec<Hop> {
    let mut hops = Vec::new(alloc);
    for step in 0..2 * PEERS {
        let hop = Hop {
            from: step % PEERS,
            to: (step + 1) % PEERS,
            plan: plan(rt, rng, 0, sessions),
        };
        hops.push(hop).expect(rt, "memory");
    }
    hops
}

/// Returns random hops (replications from one peer to another) between the peers.
fn hops(rt: &impl Abort, alloc: Global, rng: &mut ChaCha8Rng, sessions: &mut u128) -> Vec<Hop> {
    let mut hops = Vec::new(alloc);
    for _ in 0..8 + below(rng, 32) {
        let from = below(rng, PEERS as u32) % PEERS;
        let to = (from + 1 + below(rng, PEERS as u32 - 1)) % PEERS;
        let plan = plan(rt, rng, 0, sessions);
        if from != to {
            hops.push(Hop { from, to, plan }).expect(rt, "memory");
        }
    }
    hops
}

/// Returns a bit mask for each peer: the set of peers to which a chain of hops leads from this peer. The set of each
/// peer also contains the peer itself.
///
/// The function scans the list of hops once for each peer, and does not enumerate the chains of hops.
fn reached(hops: &[Hop]) -> [u32; PEERS] {
    let mut reached = [0u32; PEERS];
    for (place, places) in reached.iter_mut().enumerate() {
        *places = 1 << (place % PEERS);
        for hop in hops {
            if *places & (1 << (hop.from % PEERS)) != 0 {
                *places |= 1 << (hop.to % PEERS);
            }
        }
    }
    reached
}

/// Returns the leaves of all documents at all peers. Each item of the result has the peer's index, the document's
/// number and the leaf.
fn leaves_of(rt: &impl Abort, alloc: Global, net: &Net<Rules>) -> Vec<(usize, usize, Rev)> {
    let mut all = Vec::new(alloc);
    for place in 0..PEERS {
        for number in 0..IDS {
            if let Some(tree) = at(rt, net, place).db().tree(&id(rt, alloc, number)) {
                for leaf in tree.leaves(alloc).expect(rt, "memory").as_slice() {
                    all.push((place, number, *leaf)).expect(rt, "memory");
                }
            }
        }
    }
    all
}

/// Whether a peer has a revision of a document.
fn has(rt: &impl Abort, alloc: Global, peer: &Peer<Rules>, number: usize, rev: Rev) -> bool {
    match peer.db().tree(&id(rt, alloc, number)) {
        Some(tree) => tree.has(rev),
        None => false,
    }
}

/// Asserts that each leaf is at every peer to which a chain of hops leads from the leaf's original peer.
fn assert_led(
    rt: &impl Abort,
    alloc: Global,
    net: &Net<Rules>,
    reached: &[u32; PEERS],
    leaves: &[(usize, usize, Rev)],
) {
    for (from, number, leaf) in leaves {
        for place in 0..PEERS {
            if reached[*from % PEERS] & (1 << place) != 0 {
                let there = has(rt, alloc, at(rt, net, place), *number, *leaf);
                holds(rt, there, "a leaf is at the end of each chain");
            }
        }
    }
}

/// Replicates along random hops. Returns whether chains of hops led from every peer to every other peer. If chains of
/// hops (replications) lead from every peer to every other peer, all peers must have the same documents.
fn along_chance(
    rt: &impl Abort,
    alloc: Global,
    rng: &mut ChaCha8Rng,
    net: &mut Net<Rules>,
    sessions: &mut u128,
) -> bool {
    let leaves = leaves_of(rt, alloc, net);
    let hops = hops(rt, alloc, rng, sessions);
    net.replicate_along(alloc, hops.as_slice())
        .expect(rt, "nothing refused");
    let reached = reached(hops.as_slice());
    assert_led(rt, alloc, net, &reached, leaves.as_slice());
    assert_clean(rt, alloc, net);
    let mut everywhere = true;
    for places in reached {
        everywhere = everywhere && places == (1 << PEERS) - 1;
    }
    if everywhere {
        assert_all_same(rt, alloc, net);
    }
    everywhere
}

/// Creates a network of peers without documents.
fn net(rt: &impl Abort, alloc: Global) -> Net<Rules> {
    let mut net = Net::new(alloc);
    for uuid in 1..6u64 {
        let _place = net
            .add(alloc, uuid as u128, Rules { deny: None })
            .expect(rt, "a new UUID");
    }
    net
}

/// Repeatedly edits the peers' documents at random, and replicates twice through a hub or along a ring.
fn of_seed(rt: &impl Abort, alloc: Global, seed: u64) {
    let mut rng = ChaCha8Rng::seed_from_u64(seed);
    let mut sessions = 0;
    let mut net = net(rt, alloc);
    for meeting in 0..MEETINGS {
        edit(rt, alloc, &mut rng, &mut net);
        let mut before = 0;
        for again in 0..2 {
            if meeting % 2 == 0 {
                let there = plans(rt, alloc, &mut rng, &mut sessions);
                let back = plans(rt, alloc, &mut rng, &mut sessions);
                net.sync_by_hub(alloc, there.as_slice(), back.as_slice())
                    .expect(rt, "nothing refused");
            } else {
                let hops = ring(rt, alloc, &mut rng, &mut sessions);
                net.replicate_along(alloc, hops.as_slice())
                    .expect(rt, "nothing refused");
            }
            assert_all_same(rt, alloc, &net);
            assert_clean(rt, alloc, &net);
            holds(
                rt,
                again == 0 || sequences(rt, &net) == before,
                "nothing is left to carry",
            );
            before = sequences(rt, &net);
        }
    }
}

/// Repeatedly edits the peers' documents at random, and replicates along random hops. Returns the number of rounds in
/// which chains of hops led from every peer to every other peer.
fn by_chance(rt: &impl Abort, alloc: Global, seed: u64) -> usize {
    let mut rng = ChaCha8Rng::seed_from_u64(seed);
    let mut sessions = 0;
    let mut net = net(rt, alloc);
    let mut ends = 0usize;
    for _ in 0..MEETINGS {
        edit(rt, alloc, &mut rng, &mut net);
        if along_chance(rt, alloc, &mut rng, &mut net, &mut sessions) {
            ends = ends.saturating_add(1);
        }
    }
    ends
}

#[test]
fn thirty_nets_meet(rt: HostRuntime) {
    for seed in 0..30u64 {
        of_seed(&rt, rt.alloc(), seed);
    }
}

#[test]
fn thirty_nets_replicate_by_chance(rt: HostRuntime) {
    let mut ends = 0usize;
    for seed in 0..30u64 {
        ends = ends.saturating_add(by_chance(&rt, rt.alloc(), seed));
    }
    // The test asserts that chains of hops connect all peers in more than 5 and fewer than 85 of the 90 rounds.
    assert!(rt; 5 < ends && ends < 85, "both kinds of ends: {ends}");
}
