//! Tests of replications with one or several workers, in which a gate stops or blocks a worker. A gate is a callback
//! that workers (threads) call at each stage of a window.
use crate::tests::peers::Rep;
use crate::tests::pool_rows::{CARRIED, DOCUMENTS, OPEN_PEERS};
use crate::tests::pools::{Bench, Call, How, Rows};
use crate::tests::texts::expect_answer;
use repl_pool::{Gate, Place, Turn};
use rev_tree::SessionId;
use std::alloc::Global;
use std::process::Abort;
use std::sync::Wait;
use std::sync::atomic::{AtomicBool, AtomicU64, Ordering};
use std::thread::{Threads, yield_now};

/// The indices of the source and the target among the peers of a test.
const A: usize = 0;

const B: usize = 1;

/// The replication from the source into the target.
const REP: Rep = Rep {
    source: 1,
    target: 2,
};

const S1: SessionId = SessionId(1);

/// The plan of a run whose windows have two rows.
const TWO_ROWS: How = How {
    session: S1,
    workers: None,
    batch: 2,
    stop_after: None,
};

/// A further run.
const AGAIN: How = How {
    session: SessionId(2),
    ..TWO_ROWS
};

/// The maximum number of times a blocked worker polls a flag.
const TURNS: u32 = 1_000_000;

/// Calls that create an empty target, and a source with four documents of one revision each.
static FOUR: Rows = &[
    (Call::Peer(1, None), "made"),
    (Call::Peer(2, None), "made"),
    (Call::Fill(A, 4), "Changed { seq: 4 }"),
];

/// The result of a successful run of the replication.
const WELL: &str = "session 1 from 0 to 4 checked 4 found 4 read 4 written 4 failed 0, fetched 4";

/// Polls a flag until the flag is true. After `TURNS` polls, the function stops and sets the flag `ran_out`.
fn hold(told: &AtomicBool, ran_out: &AtomicBool) {
    for _ in 0..TURNS {
        if told.load(Ordering::SeqCst) {
            return;
        }
        yield_now();
    }
    ran_out.store(true, Ordering::SeqCst);
}

/// A gate (a callback) that blocks the fetcher of the first window until the second window is recorded. `HoldsFetched`
/// also stores the sequence that is recorded after the first window, and after the second window.
#[derive(Drop)]
struct HoldsFetched {
    second: AtomicBool,
    at_second: AtomicU64,
    at_first: AtomicU64,
    ran_out: AtomicBool,
}

impl HoldsFetched {
    /// Creates the callback `HoldsFetched`, which has not blocked a fetcher yet.
    fn new() -> HoldsFetched {
        HoldsFetched {
            second: AtomicBool::new(false),
            at_second: AtomicU64::new(u64::MAX),
            at_first: AtomicU64::new(u64::MAX),
            ran_out: AtomicBool::new(false),
        }
    }
}

impl Gate for HoldsFetched {
    ghost may_stop = { λ _ _. ⊥ };

    fn at<R: Wait>(&self, _rt: &R, place: Place) -> Turn {
        match place {
            Place::Fetched(0) => hold(&self.second, &self.ran_out),
            Place::Recorded(1, recorded) => {
                self.at_second.store(recorded, Ordering::SeqCst);
                self.second.store(true, Ordering::SeqCst);
            }
            Place::Recorded(0, recorded) => self.at_first.store(recorded, Ordering::SeqCst),
            _ => {}
        }
        Turn::Go
    }
}

/// A callback that stops a run once, when a worker reaches the stage `kind` of the window `window`. The five stages of
/// a window have the numbers 0 (`Took`), 1 (`Asked`), 2 (`Fetched`), 3 (`Settled`) and 4 (`Recorded`).
#[derive(Drop)]
struct StopsOnce {
    kind: u64,
    window: u64,
    /// The return value of the method `Gate::may_block`. If the value is true, each worker is a separate thread, even
    /// if there are few workers. The method `StopsOnce::at` never blocks a worker, even if the value is true.
    may_block: bool,
    stopped: AtomicBool,
}

impl StopsOnce {
    /// Creates the callback that stops the run at the stage `kind` of the window `window`.
    fn new(kind: u64, window: u64, may_block: bool) -> StopsOnce {
        StopsOnce {
            kind,
            window,
            may_block,
            stopped: AtomicBool::new(false),
        }
    }
}

/// Returns two numbers for a stage of a window: the number of the stage, and the number of the window.
pub(crate) fn kind_of(place: Place) -> (u64, u64) {
    match place {
        Place::Took(window) => (0, window),
        Place::Asked(window) => (1, window),
        Place::Fetched(window) => (2, window),
        Place::Settled(window) => (3, window),
        Place::Recorded(window, _) => (4, window),
    }
}

impl Gate for StopsOnce {
    ghost may_stop = { λ _ _. Unit {0} };

    fn at<R: Wait>(&self, _rt: &R, place: Place) -> Turn {
        if kind_of(place) == (self.kind, self.window)
            && !self.stopped.swap(true, Ordering::SeqCst)
        {
            Turn::Stop
        } else {
            Turn::Go
        }
    }

    fn may_block(&self) -> bool {
        self.may_block
    }
}

/// A callback of the workers that counts how often a run records its session. The windows of the run must have one row
/// each. The field `other` is set if a worker records a low water that is not the end of the worker's window.
#[derive(Drop)]
struct CountsRecordings {
    count: AtomicU64,
    other: AtomicBool,
}

impl Gate for CountsRecordings {
    ghost may_stop = { λ _ _. ⊥ };

    fn at<R: Wait>(&self, _rt: &R, place: Place) -> Turn {
        if let Place::Recorded(window, recorded) = place {
            if recorded != window.wrapping_add(1) {
                self.other.store(true, Ordering::SeqCst);
            }
            self.count.fetch_add(1, Ordering::SeqCst);
        }
        Turn::Go
    }
}

// No contract excludes a writer that records only every second window, or a writer that reports a wrong low water. This
// test detects both kinds of wrong writers.
#[test]
fn each_recording_tells_the_low_water(rt: HostRuntime) {
    const ONE_BY_ONE: How = How {
        session: S1,
        workers: Some(1),
        batch: 1,
        stop_after: None,
    };
    let gate = CountsRecordings {
        count: AtomicU64::new(0),
        other: AtomicBool::new(false),
    };
    let mut bench = Bench::new(rt.alloc(), 2);
    bench.run(&rt, FOUR);
    expect_answer(&rt, 3, bench.replicate(&rt, &gate, A, B, ONE_BY_ONE), WELL);
    assert_eq!(rt; gate.count.load(Ordering::SeqCst), 4);
    assert!(rt; !gate.other.load(Ordering::SeqCst), "another low water");
}

#[test]
fn windows_done_out_of_order(rt: HostRuntime) {
    let gate = HoldsFetched::new();
    let mut bench = Bench::new(rt.alloc(), 2);
    bench.run(&rt, FOUR);
    expect_answer(&rt, 3, bench.replicate(&rt, &gate, A, B, TWO_ROWS), WELL);
    assert!(rt; !gate.ran_out.load(Ordering::SeqCst), "out of turns");
    assert_eq!(rt; gate.at_second.load(Ordering::SeqCst), 0);
    assert_eq!(rt; gate.at_first.load(Ordering::SeqCst), 4);
}

// The stopped run has fetched two documents, but the session has read 0 documents. The test fails if the run returns
// the number of read documents instead of the number of fetched documents.
#[test]
fn fetched_is_counted_where_a_run_stops(rt: HostRuntime) {
    const HALTED: &str = "Halted(Fetched(0)), fetched 2";
    static THEN: Rows = &[
        (
            Call::Entry(B, S1),
            "session 1 from 0 to 0 checked 0 found 0 read 0 written 0 failed 0, 0 to 0",
        ),
        (Call::SourceLog(A, REP), "1 at 0;"),
        (Call::Audit(A, B), "clean"),
    ];
    for may_block in [true, false] {
        let gate = StopsOnce::new(2, 0, may_block);
        let mut bench = Bench::new(rt.alloc(), 1);
        bench.run(&rt, FOUR);
        expect_answer(&rt, 3, bench.replicate(&rt, &gate, A, B, TWO_ROWS), HALTED);
        bench.run(&rt, THEN);
    }
}

/// If a run stops at stage n, counted from 0, the run's result begins with the string at index n of `STOPPED`.
static STOPPED: [&str; 5] = [
    "Halted(Took(",
    "Halted(Asked(",
    "Halted(Fetched(",
    "Halted(Settled(",
    "Halted(Recorded(",
];

static CLEAN: Rows = &[(Call::Audit(A, B), "clean")];

static AT_GOAL: Rows = &[(Call::Common(A, B, REP), "11")];

/// Asserts that the callback `gate` stops a run at the stage `kind` of the window `window`. Asserts that an audit after
/// the stopped run finds no uncovered leaf.
pub(crate) fn expect_stop<G: Gate + Sync, R: Abort + Threads + Wait + Sync>(
    rt: &R,
    alloc: Global,
    bench: &mut Bench,
    gate: &G,
    kind: u64,
    window: u64,
) {
    let answer = bench
        .replicate(rt, gate, A, B, TWO_ROWS)
        .expect(rt, "a run");
    let name = STOPPED[kind as usize % 5];
    let wanted = format!(in alloc; "{name}{window}").expect(rt, "memory");
    assert!(rt;
        answer.starts_with(wanted.as_str()),
        "{answer} at {kind} of {window}"
    );
    bench.run(rt, CLEAN);
}

/// Asserts that a second run begins at the common checkpoint and ends at the goal, and that both logs record the goal.
pub(crate) fn go_on<R: Abort + Threads + Wait + Sync>(rt: &R, alloc: Global, bench: &mut Bench) {
    let from = bench
        .answer(rt, &Call::Common(A, B, REP))
        .expect(rt, "two logs");
    let answer = bench
        .answer(rt, &Call::Run(A, B, AGAIN))
        .expect(rt, "a run");
    let wanted = format!(in alloc; "session 2 from {from} to 11 ").expect(rt, "memory");
    assert!(rt; answer.starts_with(wanted.as_str()), "{answer} from {from}");
    bench.run(rt, AT_GOAL);
}

/// Performs a run that a callback stops at the stage `kind` of the window `window`, and a second run that completes the
/// replication. The parameter `may_block` is the return value of the callback's method `may_block`.
fn stop_and_go_on<R: Abort + Threads + Wait + Sync>(
    rt: &R,
    alloc: Global,
    workers: u64,
    may_block: bool,
    kind: u64,
    window: u64,
) {
    let gate = StopsOnce::new(kind, window, may_block);
    let mut bench = Bench::new(alloc, workers);
    bench.run(rt, OPEN_PEERS);
    bench.run(rt, DOCUMENTS);
    expect_stop(rt, alloc, &mut bench, &gate, kind, window);
    go_on(rt, alloc, &mut bench);
    bench.run(rt, CARRIED);
}

// The runs have three forms: two fetcher threads and two writer threads, two threads that both fetch and write, and
// only the caller's thread.
#[test]
fn a_stop_at_each_place(rt: HostRuntime) {
    for kind in 0..5u64 {
        for window in 0..3u64 {
            stop_and_go_on(&rt, rt.alloc(), 2, true, kind, window);
            stop_and_go_on(&rt, rt.alloc(), 2, false, kind, window);
            stop_and_go_on(&rt, rt.alloc(), 1, false, kind, window);
        }
    }
}

/// Calls that create a source with 20 documents, and a target that has no update sequence left.
static FULL: Rows = &[
    (Call::Peer(1, None), "made"),
    (Call::PeerAt(2, 9_007_199_254_740_991), "made"),
    (Call::Fill(A, 20), "Changed { seq: 20 }"),
];

// The pool's two channels together hold eight windows or parcels. If a writer ended after an error, the writer would
// satisfy its contract, but the fetchers would wait forever.
#[test]
fn more_windows_than_channels_hold(rt: HostRuntime) {
    const ONE_BY_ONE: How = How {
        session: S1,
        workers: None,
        batch: 1,
        stop_after: None,
    };
    for may_block in [true, false] {
        let gate = StopsOnce::new(5, 0, may_block);
        let mut bench = Bench::new(rt.alloc(), 2);
        bench.run(&rt, FULL);
        let answer = bench
            .replicate(&rt, &gate, A, B, ONE_BY_ONE)
            .expect(&rt, "a run");
        assert!(rt; answer.starts_with("Stopped "), "{answer}");
        bench.run(&rt, CLEAN);
    }
}
