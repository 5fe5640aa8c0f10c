//! Performs calls on the peers of a test, such as replications with one or several threads. The test fixture holds the
//! peers.
ghost use Rattle.std.specs.Prelude.{◌≡◌, vec_len};
ghost use Rattle.std.specs.List.{All};
ghost use Rattle.pool_workers.specs.Boards.{WorksAt};

use crate::tests::carried::{leaves, refused};
use crate::tests::databases::tree;
use crate::tests::peers::{Rep, entry, found_text, load, make, make_at, source_log, target_log};
use crate::tests::records::{fault_text, report_text};
use crate::tests::texts::{expect_answer, joined, place_text};
use progress_board::{Board, BoardSeat};
use repl_log::{Moment, RepId, common};
use repl_pool::{Gate, Open, PoolFault, Progress, Ran, run, run_on};
use repl_target::{Peer, Plan, Report, Rules, audit};
use rev_tree::SessionId;
use std::alloc::Global;
use std::mem;
use std::process::Abort;
use std::sync::Wait;
use std::thread::Threads;
use test_support::shown;

/// The parameters of a run.
#[derive(Clone, Copy)]
pub(crate) struct How {
    pub(crate) session: SessionId,
    /// The number of workers, or `None` for the test's number of workers.
    pub(crate) workers: Option<u64>,
    pub(crate) batch: u64,
    pub(crate) stop_after: Option<u64>,
}

/// A call on peers. A call names each peer by the peer's index.
#[derive(Clone, Copy)]
pub(crate) enum Call<'a> {
    /// Create a peer with a UUID and a filter, and append the peer to the test's list of peers. If a prefix is given,
    /// the filter refuses the documents whose ids begin with the prefix.
    Peer(u128, Option<&'a str>),
    /// Create a peer whose database has a given update sequence, and append the peer to the test's list of peers.
    PeerAt(u128, u64),
    /// Load a given number of documents d0, d1 and so on.
    Fill(usize, u64),
    /// Load a document.
    Load(usize, &'a str),
    /// Replicate one peer into another peer with a pool of threads.
    Run(usize, usize, How),
    /// Read the tree of a document.
    Tree(usize, &'a str),
    /// Read the entry of a session.
    Entry(usize, SessionId),
    /// Read the ancestry and the content of each leaf of a document, winner first.
    Leaves(usize, &'a str),
    /// Read the refused leaves of a document from a session's ledger, with the reasons.
    Refused(usize, SessionId, &'a str),
    /// Read a replication's log from the peer that is the replication's source.
    SourceLog(usize, Rep),
    /// Read a replication's log from the peer that is the replication's target.
    TargetLog(usize, Rep),
    /// Compare the source's and the target's log of a replication.
    Common(usize, usize, Rep),
    /// Audit a replication from the first peer, the source, into the second peer, the target.
    Audit(usize, usize),
}

/// The calls of a test, each with the expected result.
pub(crate) type Rows = &'static [(Call<'static>, &'static str)];

/// The peers of a test, and the number of workers of a run.
#[derive(Drop)]
pub(crate) struct Bench {
    alloc: Global,
    workers: u64,
    peers: Vec<Peer<Rules>>,
    fetchers: usize,
}

impl Bench {
    /// Creates the fixture of a test that has no peers yet.
    pub(crate) fn new(alloc: Global, workers: u64) -> Bench {
        Bench {
            alloc,
            workers,
            peers: Vec::new(alloc),
            fetchers: 0,
        }
    }

    /// Returns the number of fetchers that fetched at least one document in the last run.
    pub(crate) fn fetchers(&self) -> usize {
        self.fetchers
    }

    /// Performs the calls in order, and asserts that each call returns the expected result.
    pub(crate) fn run<R: Abort + Threads + Wait + Sync>(&mut self, rt: &R, calls: &[(Call, &str)]) {
        for (i, (call, wanted)) in calls.iter().enumerate() {
            expect_answer(rt, i, self.answer(rt, call), wanted);
        }
    }

    /// Performs a call, and returns the call's result as a string.
    pub(crate) fn answer<R: Abort + Threads + Wait + Sync>(
        &mut self,
        rt: &R,
        call: &Call,
    ) -> Option<String> {
        match *call {
            Call::Run(source, target, how) => self.replicate(rt, &Open, source, target, how),
            other => self.answer_alone(&other),
        }
    }

    /// Performs a call that starts no thread.
    fn answer_alone(&mut self, call: &Call) -> Option<String> {
        match *call {
            Call::Peer(uuid, deny) => make(self.alloc, &mut self.peers, uuid, deny),
            Call::PeerAt(uuid, seq) => make_at(self.alloc, &mut self.peers, uuid, None, seq),
            Call::Common(source, target, _) | Call::Audit(source, target) => {
                match (self.peers.get(source), self.peers.get(target)) {
                    (Some(source), Some(target)) => compare(self.alloc, source, target, call),
                    _ => None,
                }
            }
            Call::Fill(at, _)
            | Call::Load(at, _)
            | Call::Tree(at, _)
            | Call::Entry(at, _)
            | Call::Leaves(at, _)
            | Call::Refused(at, _, _)
            | Call::SourceLog(at, _)
            | Call::TargetLog(at, _) => match self.peers.get_mut(at) {
                Some(peer) => of_one(self.alloc, peer, call),
                None => None,
            },
            Call::Run(_, _, _) => None,
        }
    }

    /// Returns the plan of a run.
    fn plan(&self, how: How) -> Option<Plan> {
        let Ok(at) = Moment::new(0) else {
            return None;
        };
        Some(Plan {
            session: how.session,
            workers: how.workers.unwrap_or(self.workers),
            batch: how.batch,
            stop_after: how.stop_after,
            at,
            chosen: None,
        })
    }

    /// Removes the peer at an index from the test's list of peers, and stores an empty peer at this index.
    fn taken(&mut self, rt: &impl Abort, at: usize) -> Peer<Rules> {
        let empty = Peer::new(self.alloc, 0, Rules { deny: None });
        mem::replace(self.peers.get_mut(at).expect(rt, "a peer"), empty)
    }

    /// Stores a peer in the list of the test's peers again, after a run.
    fn give(&mut self, rt: &impl Abort, at: usize, peer: Peer<Rules>) {
        *self.peers.get_mut(at).expect(rt, "a place") = peer;
    }

    /// Replicates one peer into another peer with a pool of threads, which call the callback `gate` at each stage of a
    /// window. Returns how the run ended, and the number of fetched documents.
    pub(crate) fn replicate<G: Gate + Sync, R: Abort + Threads + Wait + Sync>(
        &mut self,
        rt: &R,
        gate: &G,
        source: usize,
        target: usize,
        how: How,
    ) -> Option<String> {
        let Some(plan) = self.plan(how) else {
            return None;
        };
        let from = self.taken(rt, source);
        let into = self.taken(rt, target);
        let ran = ran(rt, self.alloc, from, into, &plan, gate);
        self.take_back(rt, source, target, ran)
    }

    /// Replicates one peer into another, and shows the progress of the run on the progress board `board`. The list
    /// `seats` must have one seat for each worker of the plan. A seat is an access token for the board.
    pub(crate) fn replicate_on<G: Gate + Sync, R: Abort + Threads + Wait + Sync>(
        &mut self,
        rt: &R,
        gate: &G,
        board: &Board,
        seats: Vec<BoardSeat>,
        how: How,
    ) -> Option<String>
        requires { All (WorksAt board.now) seats.items }
    {
        let Some(plan) = self.plan(how) else {
            return None;
        };
        if seats.len() as u64 != plan.workers {
            return None;
        }
        let from = self.taken(rt, 0);
        let into = self.taken(rt, 1);
        let progress = Progress { board, seats };
        let ran = ran_on(rt, self.alloc, from, into, &plan, gate, progress);
        self.take_back(rt, 0, 1, ran)
    }

    /// Stores both peers after a run, and returns how the run ended.
    fn take_back(
        &mut self,
        rt: &impl Abort,
        source: usize,
        target: usize,
        ran: Ran<Rules>,
    ) -> Option<String> {
        let Ran {
            source: from,
            target: into,
            fetched,
            seats: _,
            outcome,
        } = ran;
        self.give(rt, source, from);
        self.give(rt, target, into);
        self.fetchers = fetched.len();
        ended_text(self.alloc, outcome, &fetched)
    }
}

/// Performs a call on one peer.
fn of_one(alloc: Global, peer: &mut Peer<Rules>, call: &Call) -> Option<String> {
    match *call {
        Call::Fill(_, documents) => fill(alloc, peer, documents),
        Call::Load(_, text) => load(alloc, peer, text),
        reading => read(alloc, peer, &reading),
    }
}

/// Performs a read-only call on one peer.
fn read(alloc: Global, peer: &Peer<Rules>, call: &Call) -> Option<String> {
    match *call {
        Call::Tree(_, id) => tree(alloc, peer.db(), id),
        Call::Entry(_, session) => entry(alloc, peer, session),
        Call::Leaves(_, id) => leaves(alloc, peer.db(), id),
        Call::Refused(_, session, id) => refused(alloc, peer, session, id),
        Call::SourceLog(_, rep) => source_log(alloc, peer, &rep.id()),
        Call::TargetLog(_, rep) => target_log(alloc, peer, &rep.id()),
        _ => None,
    }
}

/// Performs a read-only call on a source and a target.
fn compare(
    alloc: Global,
    source: &Peer<Rules>,
    target: &Peer<Rules>,
    call: &Call,
) -> Option<String> {
    match *call {
        Call::Common(_, _, rep) => agreed(alloc, source, target, &rep.id()),
        Call::Audit(_, _) => found_text(alloc, audit(alloc, source, target, None)),
        _ => None,
    }
}

/// Runs the pool. The call of `run` is in a separate function, because the proof grows with each variable that is live
/// at the call.
fn ran<G: Gate + Sync, R: Threads + Wait + Sync>(
    rt: &R,
    alloc: Global,
    source: Peer<Rules>,
    target: Peer<Rules>,
    plan: &Plan,
    gate: &G,
) -> Ran<Rules> {
    run(rt, alloc, source, target, plan, gate)
}

/// Runs the pool, and shows the progress of the run on a progress board.
fn ran_on<G: Gate + Sync, R: Threads + Wait + Sync>(
    rt: &R,
    alloc: Global,
    source: Peer<Rules>,
    target: Peer<Rules>,
    plan: &Plan,
    gate: &G,
    progress: Progress<'_>,
) -> Ran<Rules>
    requires { (vec_len progress.seats ≡ plan.now.workers) × All (WorksAt progress.board.now) progress.seats.items }
{
    run_on(rt, alloc, source, target, plan, gate, progress)
}

/// Returns how a run ended (the report or the error), and the number of fetched documents, as a string.
fn ended_text(
    alloc: Global,
    outcome: Result<Report, PoolFault>,
    fetched: &[u64],
) -> Option<String> {
    joined(
        outcome_text(alloc, outcome),
        fetched_text(alloc, sum_of(fetched)),
    )
}

/// Returns the number of fetched documents as a string.
fn fetched_text(alloc: Global, fetched: u64) -> Option<String> {
    format!(in alloc; ", fetched {fetched}").ok()
}

/// Returns the sum of a list of counts.
fn sum_of(counts: &[u64]) -> u64 {
    let mut sum = 0u64;
    for count in counts {
        sum = sum.saturating_add(*count);
    }
    sum
}

/// Returns how a run ended (the report or the error), as a string.
fn outcome_text(alloc: Global, outcome: Result<Report, PoolFault>) -> Option<String> {
    match outcome {
        Ok(report) => report_text(alloc, report),
        Err(PoolFault::Refused(fault)) => fault_text(alloc, fault),
        Err(PoolFault::Hole { seq, id, rev }) => place_text(alloc, "Hole", seq, &id, rev),
        Err(plain) => shown(alloc, &plain),
    }
}

/// Loads a document whose id consists of the letter d and a number.
fn load_number(alloc: Global, peer: &mut Peer<Rules>, number: u64) -> Option<String> {
    match format!(in alloc; "{{\"_id\":\"d{number}\",\"_rev\":\"1-a\"}}") {
        Ok(text) => load(alloc, peer, text.as_str()),
        Err(_) => None,
    }
}

/// Loads a given number of documents of one revision each, and returns the result of the last load.
fn fill(alloc: Global, peer: &mut Peer<Rules>, documents: u64) -> Option<String> {
    let mut text = String::new(alloc);
    for number in 0..documents {
        let Some(answer) = load_number(alloc, peer, number) else {
            return None;
        };
        text = answer;
    }
    Some(text)
}

/// Returns the common checkpoint of a replication.
fn agreed(
    alloc: Global,
    source: &Peer<Rules>,
    target: &Peer<Rules>,
    rep: &RepId,
) -> Option<String> {
    let Ok(outgoing) = source.source_log(alloc, rep) else {
        return None;
    };
    let Ok(incoming) = target.target_log(alloc, rep) else {
        return None;
    };
    recorded_text(alloc, common(&outgoing, &incoming))
}

/// Returns the recorded sequence of the newest common session of two logs, or 0 if the logs have no common session.
fn recorded_text(alloc: Global, found: Option<(SessionId, u64)>) -> Option<String> {
    match found {
        Some((_, recorded)) => shown(alloc, &recorded),
        None => "0".to_string(alloc).ok(),
    }
}
