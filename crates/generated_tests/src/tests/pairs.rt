//! Tests that replicate all documents or random selections of documents between peers, by one thread and by the pool.
//! Each test compares the result of a replication with simple models of both peers. The test compares the trees and the
//! covered revisions of both peers, the report, and the session's ledger.
use crate::tests::checks::holds;
use crate::tests::choices::{chosen, some};
use crate::tests::feeds::{document_by_chance, is_answer};
use crate::tests::merges::below;
use crate::tests::plain_sides::{ALL, Carried, IDS, Picked, PlainSide, carry};
use crate::tests::sides::{agrees, has_ledger};
use doc_json::Chosen;
use rand_chacha::ChaCha8Rng;
use rand_core::SeedableRng;
use repl_log::{Counts, Moment};
use repl_pool::{Open, Ran, run};
use repl_target::{Peer, Plan, Report, Rules, replicate_alone};
use rev_tree::SessionId;
use std::alloc::Global;
use std::mem;
use std::process::Abort;
use std::sync::Wait;
use std::thread::Threads;

/// A random number below `CHOICES` is the number of the document that the target refuses. If there is no document with
/// this number, the target refuses no document.
const CHOICES: u32 = 8;

/// The index of the set of all documents in the list `Bench::picked`.
const WHOLE: usize = 0;

/// The index of the first selection (a random set of documents) in the list `Bench::picked`.
const FIRST: usize = 1;

/// The index of the second selection (a random set of documents) in the list `Bench::picked`.
const SECOND: usize = 2;

/// The number of the first source in the steps of a test. The source with number n is `Bench::sides[n + 1]`.
const SOURCE: usize = 0;

/// The number of the second source in the steps of a test.
const OTHER: usize = 1;

/// A step of a test.
#[derive(Clone, Copy)]
enum Call {
    /// Load a given number of random documents into the target.
    GrowTarget(usize),
    /// Load a given number of random documents into a source.
    Grow(usize, usize),
    /// Replicate all documents or the selected documents of a source into the target.
    Replicate(usize, usize),
}

/// The steps of a test with two sources and one target. First, the test loads random documents into both sources and
/// the target. Next, the test replicates all documents from the source `OTHER`. Next, the test replicates one selection
/// and then all documents from the source `SOURCE`. At the end, the test loads more documents into `SOURCE`, and
/// replicates two selections and then all documents from `SOURCE`.
static CALLS: &[Call] = &[
    Call::Grow(OTHER, 10),
    Call::GrowTarget(5),
    Call::Grow(SOURCE, 20),
    Call::Replicate(OTHER, WHOLE),
    Call::Replicate(SOURCE, FIRST),
    Call::Replicate(SOURCE, WHOLE),
    Call::Grow(SOURCE, 6),
    Call::Replicate(SOURCE, FIRST),
    Call::Replicate(SOURCE, SECOND),
    Call::Replicate(SOURCE, WHOLE),
];

/// A peer and the peer's plain model. If the peer is a source, the documents in `Bench::picked[i]` have been replicated
/// up to the sequence `carried[i]`.
#[derive(Drop)]
struct Side {
    peer: Peer<Rules>,
    plain: PlainSide,
    carried: [u64; 3],
}

impl Side {
    /// Creates a peer without documents, and the peer's plain model. If `deny` is a prefix, the peer's filter rejects
    /// documents whose ids begin with this prefix.
    fn new(alloc: Global, uuid: u128, deny: Option<String>) -> Side {
        Side {
            peer: Peer::new(alloc, uuid, Rules { deny }),
            plain: PlainSide::new(),
            carried: [0; 3],
        }
    }

    /// Loads a random document into a peer and into the peer's plain model, and asserts that both loads have the same
    /// result.
    fn load(&mut self, rt: &impl Abort, alloc: Global, rng: &mut ChaCha8Rng) {
        let (doc, wanted) = document_by_chance(rt, alloc, rng, &mut self.plain, IDS);
        let answer = self.peer.load(&doc);
        holds(
            rt,
            is_answer(answer, wanted, self.plain.update_seq),
            "a load",
        );
    }
}

/// A target, two sources, and the random choices of a test.
#[derive(Drop)]
struct Bench {
    alloc: Global,
    rng: ChaCha8Rng,
    /// The number of the pool's workers, or 0 for replications without the pool (`replicate_alone`).
    workers: u64,
    deny: Option<usize>,
    /// The sets of documents that the test replicates: all documents, and two selections.
    picked: [Picked; 3],
    sessions: u128,
    sides: Vec<Side>,
}

impl Bench {
    /// Creates a target and two sources, all without documents. The target refuses a random document, or no document.
    fn new(rt: &impl Abort, alloc: Global, seed: u64, workers: u64) -> Bench {
        let mut rng = ChaCha8Rng::seed_from_u64(seed);
        let number = below(&mut rng, CHOICES);
        let deny = if number < IDS { Some(number) } else { None };
        let first = some(&mut rng);
        // The masks of nonempty selections are the numbers 1 to 31. The second selection's mask is the number after the
        // first selection's mask, or 1 after 31.
        let second = first % 31 + 1;
        let mut bench = Bench {
            alloc,
            rng,
            workers,
            deny,
            picked: [ALL, first, second],
            sessions: 0,
            sides: Vec::new(alloc),
        };
        bench.make(rt, 2, prefix(rt, alloc, deny));
        bench.make(rt, 1, None);
        bench.make(rt, 3, None);
        bench
    }

    /// Creates the next side.
    fn make(&mut self, rt: &impl Abort, uuid: u128, deny: Option<String>) {
        let side = Side::new(self.alloc, uuid, deny);
        self.sides.push(side).expect(rt, "memory");
    }

    /// Performs a step.
    fn call<R: Abort + Threads + Wait + Sync>(&mut self, rt: &R, call: Call) {
        match call {
            Call::GrowTarget(loads) => self.grow(rt, 0, loads),
            Call::Grow(source, loads) => self.grow(rt, source.saturating_add(1), loads),
            Call::Replicate(source, choice) => self.replicate(rt, source, choice),
        }
    }

    /// Loads random documents into a side (a peer and the peer's plain model).
    fn grow(&mut self, rt: &impl Abort, at: usize, loads: usize) {
        let side = self.sides.get_mut(at).expect(rt, "a side");
        for _ in 0..loads {
            side.load(rt, self.alloc, &mut self.rng);
        }
    }

    /// Replicates all documents or a selection from a source into the target, in a new session.
    fn replicate<R: Abort + Threads + Wait + Sync>(
        &mut self,
        rt: &R,
        source: usize,
        choice: usize,
    ) {
        self.sessions = self.sessions.saturating_add(1);
        let picked = self.picked[choice % 3];
        let chosen = chosen(rt, self.alloc, picked);
        let plan = plan(rt, &mut self.rng, self.workers, self.sessions, chosen);
        let (target, sources) = self.sides.split_first_mut().expect(rt, "a target");
        let source = sources.get_mut(source).expect(rt, "a source");
        let how = How {
            choice,
            picked,
            deny: self.deny,
        };
        replicate(rt, self.alloc, source, target, how, &plan);
    }
}

/// The documents that a replication copies, and the document that the target refuses.
#[derive(Clone, Copy)]
struct How {
    choice: usize,
    picked: Picked,
    deny: Option<usize>,
}

/// Returns the prefix by which a filter refuses the document with a given number.
pub(crate) fn prefix(rt: &impl Abort, alloc: Global, deny: Option<usize>) -> Option<String> {
    match deny {
        Some(number) => Some(format!(in alloc; "d{number}").expect(rt, "memory")),
        None => None,
    }
}

/// Creates a plan whose windows scan a random number (1 to 4) of rows.
fn plan(
    rt: &impl Abort,
    rng: &mut ChaCha8Rng,
    workers: u64,
    session: u128,
    chosen: Option<Chosen>,
) -> Plan {
    Plan {
        session: SessionId(session),
        workers,
        batch: below(rng, 4) as u64 + 1,
        stop_after: None,
        at: Moment::new(10).expect(rt, "a moment"),
        chosen,
    }
}

/// Moves a peer out of a variable, and leaves an empty peer in the variable. The pool's function `run` takes both peers
/// by value.
fn taken(alloc: Global, place: &mut Peer<Rules>) -> Peer<Rules> {
    mem::replace(place, Peer::new(alloc, 0, Rules { deny: None }))
}

/// Stores both peers after a run, and returns the report of the run.
fn taken_back(
    ran: Ran<Rules>,
    source: &mut Peer<Rules>,
    target: &mut Peer<Rules>,
) -> Option<Report> {
    let Ran {
        source: from,
        target: into,
        fetched: _,
        seats: _,
        outcome,
    } = ran;
    *source = from;
    *target = into;
    outcome.ok()
}

/// Replicates one peer into another. If the plan has no workers, one thread replicates. Otherwise, the pool replicates.
fn carry_peers<R: Threads + Wait + Sync>(
    rt: &R,
    alloc: Global,
    source: &mut Peer<Rules>,
    target: &mut Peer<Rules>,
    plan: &Plan,
) -> Option<Report> {
    if plan.workers == 0 {
        return replicate_alone(alloc, source, target, plan).ok();
    }
    let (from, into) = (taken(alloc, source), taken(alloc, target));
    let ran = run(rt, alloc, from, into, plan, &Open);
    taken_back(ran, source, target)
}

/// Replicates the peers and their plain models, and asserts that the reports, the ledgers and the trees agree.
fn replicate<R: Abort + Threads + Wait + Sync>(
    rt: &R,
    alloc: Global,
    source: &mut Side,
    target: &mut Side,
    how: How,
    plan: &Plan,
) {
    let report = carry_peers(rt, alloc, &mut source.peer, &mut target.peer, plan);
    compare(rt, alloc, source, target, how, plan.session, report);
    holds(
        rt,
        agrees(rt, alloc, &source.peer, &source.plain, IDS),
        "the source",
    );
    holds(
        rt,
        agrees(rt, alloc, &target.peer, &target.plain, IDS),
        "the target",
    );
    source.carried[how.choice % 3] = source.plain.update_seq;
}

/// Replicates the plain models, and asserts that the models agree with the report and the session's ledger.
fn compare(
    rt: &impl Abort,
    alloc: Global,
    source: &Side,
    target: &mut Side,
    how: How,
    session: SessionId,
    report: Option<Report>,
) {
    let since = source.carried[how.choice % 3];
    let (from, into) = (&source.plain, &mut target.plain);
    let mut carried = carry(rt, alloc, from, into, since, how.picked, how.deny);
    assert_eq!(rt;
        report,
        Some(wanted(&source.plain, since, session, &carried))
    );
    let same = has_ledger(rt, alloc, &target.peer, session, &mut carried.ledger);
    holds(rt, same, "the ledger");
}

/// Returns the expected report of a replication that starts at the sequence `since`.
fn wanted(source: &PlainSide, since: u64, session: SessionId, carried: &Carried) -> Report {
    Report {
        session,
        start: since,
        recorded: source.update_seq,
        counts: Counts {
            checked: carried.checked,
            found: carried.found,
            read: carried.found,
            written: carried.written,
            failures: carried.ledger.len() as u64,
        },
    }
}

/// Performs the steps that a seed determines, with the given number of workers.
fn of_seed<R: Abort + Threads + Wait + Sync>(rt: &R, alloc: Global, seed: u64, workers: u64) {
    let mut bench = Bench::new(rt, alloc, seed, workers);
    for call in CALLS {
        bench.call(rt, *call);
    }
}

#[test]
fn thirty_pairs_agree(rt: HostRuntime) {
    for seed in 0..30u64 {
        of_seed(&rt, rt.alloc(), seed, 0);
    }
}

#[test]
fn thirty_pairs_agree_by_the_pool(rt: HostRuntime) {
    for seed in 0..30u64 {
        of_seed(&rt, rt.alloc(), seed, 1 + seed % 4);
    }
}
