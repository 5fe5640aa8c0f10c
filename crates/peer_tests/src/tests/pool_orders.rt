//! Tests of replications with two gates (callbacks that one or several workers call at each stage of a window). The
//! callback `Counts` counts how often workers call it. The callback `Orders` blocks a worker until another worker has
//! reached a certain stage. A table lists the pairs of stages.
use crate::tests::pool_gates::kind_of;
use crate::tests::pools::{Bench, Call, How, Rows};
use crate::tests::texts::expect_answer;
use repl_pool::{Gate, Place, Turn};
use rev_tree::SessionId;
use std::alloc::Global;
use std::process::Abort;
use std::sync::Wait;
use std::sync::atomic::{AtomicBool, AtomicU64, Ordering};
use std::thread::{Threads, yield_now};

/// The indices of the source and the target among the peers of a test.
const A: usize = 0;

const B: usize = 1;

/// Returns the parameters of a run whose windows have a given number of rows.
const fn in_windows_of(batch: u64) -> How {
    How {
        session: SessionId(1),
        workers: None,
        batch,
        stop_after: None,
    }
}

/// A callback of the workers that counts its calls for each window. The field `strays` counts the calls that workers
/// make out of order.
#[derive(Drop)]
struct Counts {
    places: Vec<AtomicU64>,
    strays: AtomicU64,
    /// The return value of the method `Gate::may_block`. If the value is true, each worker is a separate thread, even
    /// if there are few workers. The method `Counts::at` never blocks a worker, even if the value is true.
    may_block: bool,
}

impl Counts {
    /// Creates counts of 0 for a given number of windows.
    fn new(rt: &impl Abort, alloc: Global, windows: usize, may_block: bool) -> Counts {
        let mut places = Vec::new(alloc);
        for _ in 0..windows {
            places.push(AtomicU64::new(0)).expect(rt, "memory");
        }
        Counts {
            places,
            strays: AtomicU64::new(0),
            may_block,
        }
    }

    /// Returns the number of windows for which workers called the callback five times. A window has five stages.
    fn gone_through(&self) -> usize {
        let mut windows = 0usize;
        for places in &self.places {
            if places.load(Ordering::SeqCst) == 5 {
                windows = windows.saturating_add(1);
            }
        }
        windows
    }
}

impl Gate for Counts {
    ghost may_stop = { λ _ _. ⊥ };

    fn at<R: Wait>(&self, _rt: &R, place: Place) -> Turn {
        let (kind, window) = kind_of(place);
        let in_turn = match self.places.get(window as usize) {
            Some(places) => places.fetch_add(1, Ordering::SeqCst) == kind,
            None => false,
        };
        if !in_turn {
            let _ = self.strays.fetch_add(1, Ordering::SeqCst);
        }
        Turn::Go
    }

    fn may_block(&self) -> bool {
        self.may_block
    }
}

/// Asserts that the workers of a run call their callback exactly once at each stage of each window, in order. The
/// parameter `may_block` is the return value of the callback's method `may_block`.
fn expect_in_order<R: Abort + Threads + Wait + Sync>(
    rt: &R,
    alloc: Global,
    workers: u64,
    may_block: bool,
) {
    const WELL: &str =
        "session 1 from 0 to 300 checked 300 found 300 read 300 written 300 failed 0, fetched 300";
    static MANY: Rows = &[
        (Call::Peer(1, None), "made"),
        (Call::Peer(2, None), "made"),
        (Call::Fill(A, 300), "Changed { seq: 300 }"),
    ];
    let gate = Counts::new(rt, alloc, 30, may_block);
    let mut bench = Bench::new(alloc, workers);
    bench.run(rt, MANY);
    expect_answer(
        rt,
        3,
        bench.replicate(rt, &gate, A, B, in_windows_of(10)),
        WELL,
    );
    assert_eq!(rt; gate.strays.load(Ordering::SeqCst), 0);
    assert_eq!(rt; gate.gone_through(), 30);
    assert_eq!(rt; bench.fetchers() as u64, workers);
}

// The calls for a window are in order if the callback is called once for each stage, from the first stage to the last.
// The runs have three forms: four fetcher threads and four writer threads, four threads that both fetch and write, and
// only the caller's thread.
#[test]
fn each_place_once_and_in_order(rt: HostRuntime) {
    expect_in_order(&rt, rt.alloc(), 4, true);
    expect_in_order(&rt, rt.alloc(), 4, false);
    expect_in_order(&rt, rt.alloc(), 1, false);
}

/// A stage of a window: the number of the stage, from 0, and the number of the window.
type Spot = (u64, u64);

/// A list of pairs, in which each item of a pair is a stage of a window. At the first stage of a pair, a worker waits
/// until another worker has reached the second stage.
type Holds = &'static [(Spot, Spot)];

/// Returns the bit for a stage of a window. The stages of the first twelve windows have different bits.
pub(crate) fn bit_of(spot: Spot) -> u64 {
    let place = spot.0 % 5 + 5 * (spot.1 % 12);
    1 << place
}

/// The maximum number of times a blocked worker polls.
const TURNS: u32 = 1_000_000;

/// A callback that makes workers wait for each other. For each pair in `holds`, a worker waits at the first stage until
/// another worker has reached the second stage.
#[derive(Drop)]
struct Orders {
    holds: Holds,
    come_to: AtomicU64,
    ran_out: AtomicBool,
}

impl Orders {
    /// Creates the callback `Orders`, which no worker has called yet.
    fn new(holds: Holds) -> Orders {
        Orders {
            holds,
            come_to: AtomicU64::new(0),
            ran_out: AtomicBool::new(false),
        }
    }

    /// Polls until a worker has reached a stage of a window. After `TURNS` polls, the function stops and sets the flag
    /// `ran_out`.
    fn wait_for(&self, spot: Spot) {
        let wanted = bit_of(spot);
        for _ in 0..TURNS {
            if self.come_to.load(Ordering::SeqCst) & wanted != 0 {
                return;
            }
            yield_now();
        }
        self.ran_out.store(true, Ordering::SeqCst);
    }
}

impl Gate for Orders {
    ghost may_stop = { λ _ _. ⊥ };

    fn at<R: Wait>(&self, _rt: &R, place: Place) -> Turn {
        let here = kind_of(place);
        let _ = self.come_to.fetch_add(bit_of(here), Ordering::SeqCst);
        for (at, until) in self.holds {
            if *at == here {
                self.wait_for(*until);
            }
        }
        Turn::Go
    }
}

/// Performs a run of eight documents in windows of two rows, with one fetcher and one writer. The list `holds` says at
/// which stages the fetcher and the writer wait for each other.
fn run_held<R: Abort + Threads + Wait + Sync>(rt: &R, alloc: Global, holds: Holds) {
    const WELL: &str =
        "session 1 from 0 to 8 checked 8 found 8 read 8 written 8 failed 0, fetched 8";
    static EIGHT: Rows = &[
        (Call::Peer(1, None), "made"),
        (Call::Peer(2, None), "made"),
        (Call::Fill(A, 8), "Changed { seq: 8 }"),
        // If the target's update sequence is 0, the pool computes requests without the target's lock. The document
        // `own` raises the update sequence to 1.
        (
            Call::Load(B, r#"{"_id":"own","_rev":"1-a"}"#),
            "Changed { seq: 1 }",
        ),
    ];
    let gate = Orders::new(holds);
    let mut bench = Bench::new(alloc, 1);
    bench.run(rt, EIGHT);
    expect_answer(
        rt,
        3,
        bench.replicate(rt, &gate, A, B, in_windows_of(2)),
        WELL,
    );
    assert!(rt; !gate.ran_out.load(Ordering::SeqCst), "out of turns");
}

/// The numbers of the five stages through which workers take a window.
const TOOK: u64 = 0;

const ASKED: u64 = 1;

const FETCHED: u64 = 2;

const SETTLED: u64 = 3;

const RECORDED: u64 = 4;

// Workers lock the target when they request, settle and record. The test fails if a blocked worker holds the lock.
#[test]
fn no_lock_is_held_at_any_place(rt: HostRuntime) {
    static HOLDS: Holds = &[
        // While the callback blocks the writer at the stage `Settled` of the first window, the fetcher requests the
        // second window.
        ((TOOK, 1), (SETTLED, 0)),
        ((SETTLED, 0), (ASKED, 1)),
        // While the callback blocks the fetcher at the stage `Asked` of the second window, the writer records the first
        // window.
        ((ASKED, 1), (RECORDED, 0)),
        // The callback blocks the writer until the fetcher has reached the stage `Took` of the third window. While the
        // callback blocks the fetcher at the stage `Took` of the third window, the writer settles the second window.
        ((RECORDED, 0), (TOOK, 2)),
        ((TOOK, 2), (SETTLED, 1)),
        // While the callback blocks the fetcher at the stage `Fetched` of the third window, the writer records the
        // second window.
        ((SETTLED, 1), (FETCHED, 2)),
        ((FETCHED, 2), (RECORDED, 1)),
        // While the callback blocks the writer at the stage `Recorded` of the second window, the fetcher requests the
        // last window.
        ((RECORDED, 1), (ASKED, 3)),
    ];
    run_held(&rt, rt.alloc(), HOLDS);
}

// While the callback blocks the writer at the first window, the fetcher fetches two more windows, because fetching does
// not depend on the writer.
#[test]
fn fetching_goes_on_beside_a_held_writer(rt: HostRuntime) {
    static HOLDS: Holds = &[((SETTLED, 0), (FETCHED, 2))];
    run_held(&rt, rt.alloc(), HOLDS);
}
