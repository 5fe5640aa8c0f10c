//! Tests of pool runs in which the workers run in a random order. The gate (a callback) of a run blocks all workers,
//! and releases one worker at a time.
use crate::tests::peers::Rep;
use crate::tests::pool_gates::{expect_stop, go_on, kind_of};
use crate::tests::pool_orders::bit_of;
use crate::tests::pool_rows::{CARRIED, CHOOSY_PEERS, DOCUMENTS, OPEN_PEERS, SIFTED};
use crate::tests::pools::{Bench, How};
use crate::tests::texts::expect_answer;
use repl_pool::{Gate, Place, Turn};
use rev_tree::SessionId;
use std::alloc::Global;
use std::process::Abort;
use std::sync::atomic::{AtomicBool, AtomicU64, Ordering};
use std::sync::{Mutex, Wait};
use std::thread::Threads;
use std::time::Duration;

/// The indices of the source and the target among the peers of a test.
const A: usize = 0;

const B: usize = 1;

/// The parameters of a run of three windows, which have two rows each.
const TWO_ROWS: How = How {
    session: SessionId(1),
    workers: None,
    batch: 2,
    stop_after: None,
};

/// The number of windows of a run, and the number of fetchers of a run. A run has as many writers as fetchers.
const WINDOWS: u64 = 3;

const WORKERS: u64 = 2;

/// The number of stages of windows in a run: five for each of the three windows.
const PLACES: u64 = 15;

/// Bit masks. The mask `FETCHED` has the bits of the stages `Fetched`, and the mask `RECORDED` has the bits of the
/// stages `Recorded`.
const FETCHED: u64 = 0b001_0000_1000_0100;

const RECORDED: u64 = 0b100_0010_0001_0000;

/// The number of sleeps after which the callback `Drawn` stops waiting for further blocked workers.
const SURE_NAPS: u32 = 20_000;

/// The maximum number of times a blocked worker checks whether it is released.
const LOOKS: u32 = 1_000_000;

/// Returns the next state of Knuth's linear congruential generator.
fn next_state(state: u64) -> u64 {
    state
        .wrapping_mul(6_364_136_223_846_793_005)
        .wrapping_add(1_442_695_040_888_963_407)
}

/// Returns the number of bits that are set in a number.
fn bits(number: u64) -> u64 {
    u64::from(number.count_ones())
}

/// Returns the number of the stage at index `nth` among the stages with a blocked worker. The stages of all windows are
/// numbered from 0, window by window.
fn nth_held(held: u64, nth: u64) -> u64 {
    let mut passed = 0u64;
    for place in 0..PLACES {
        if held & bit_of((place % 5, place / 5)) != 0 {
            if passed == nth {
                return place;
            }
            passed = passed.saturating_add(1);
        }
    }
    0
}

/// The state of the callback `Drawn`. The state says at which stages workers are blocked, which stages workers have
/// left, and which worker may run.
#[derive(Clone, Copy)]
struct Turns {
    /// The state of the random generator that chooses the next worker.
    chance: u64,
    held: u64,
    left: u64,
    /// The bit (`bit_of`) of the stage at which the chosen worker is blocked, or 0 if no worker is chosen.
    chosen: u64,
    /// The number of times that blocked workers have slept since a worker was last blocked or released.
    naps: u32,
    /// The bit (`bit_of`) of the stage at which a worker is stopped, or 0 if no worker is stopped.
    stop_at: u64,
    /// The order in which workers were chosen to run: a hexadecimal digit for each chosen worker. A worker's digit is
    /// the number of the worker's stage, counted from 1 over all windows.
    order: u64,
    ran_out: bool,
}

impl Turns {
    /// Returns a lower and an upper bound for the number of workers that will be blocked in the callback if no worker
    /// is released.
    ///
    /// A fetcher has a window until the fetcher has passed the stage `Fetched`. A writer has a parcel until the writer
    /// has passed the stage `Recorded`. If a fetcher finds no further window, it sends an end message to a writer, and
    /// another fetcher may still have the last window. After all three windows are fetched and one window is recorded,
    /// an end message may already have ended one of the two writers. If one of the two writers has ended, the remaining
    /// writer handles all remaining windows. After the callback has stopped a worker, the worker drops all further
    /// messages.
    fn awaited(&self) -> (u64, u64) {
        let fetched = bits(self.left & FETCHED);
        let recorded = bits(self.left & RECORDED);
        let fetchers = WORKERS.min(WINDOWS.saturating_sub(fetched));
        let writers = WORKERS.min(fetched.saturating_sub(recorded));
        let may = fetchers.saturating_add(writers);
        if self.left & self.stop_at != 0 {
            return (1, may);
        }
        if fetched == WINDOWS && recorded == 1 {
            return (1, may);
        }
        (may, may)
    }

    /// Chooses one of the blocked workers at random, and returns whether a worker was chosen. The counter `naps` is the
    /// number of times that blocked workers have slept since a worker was last blocked or released. While `naps` is 0,
    /// a worker is chosen only if the number of blocked workers has reached the upper bound of `awaited`. While `naps`
    /// is below `SURE_NAPS`, a worker is chosen only if the number of blocked workers has reached the lower bound of
    /// `awaited`.
    fn choose(&mut self) -> bool {
        let held = bits(self.held);
        if held == 0 {
            return false;
        }
        let (sure, may) = self.awaited();
        if (held < may && self.naps == 0) || (held < sure && self.naps < SURE_NAPS) {
            return false;
        }
        self.ran_out = self.ran_out || held < sure;
        self.chance = next_state(self.chance);
        let place = nth_held(self.held, (self.chance >> 33) % held);
        self.chosen = bit_of((place % 5, place / 5));
        self.order = self
            .order
            .wrapping_mul(16)
            .wrapping_add(place)
            .wrapping_add(1);
        true
    }

    /// Returns two Booleans: whether the worker at the stage `here` is released, and whether `look` has chosen the next
    /// worker.
    fn look(&mut self, here: u64) -> (bool, bool) {
        let goes = self.chosen == here;
        if goes {
            self.chosen = 0;
            self.naps = 0;
            self.held &= !here;
            self.left |= here;
        }
        let chose = self.chosen == 0 && self.choose();
        (goes, chose)
    }

    /// Records that a worker is blocked in the callback at the stage `here` of a window.
    fn come(&mut self, here: u64) {
        self.held |= here;
        self.naps = 0;
    }

    /// Counts a nap (sleep) of a blocked worker.
    fn nap(&mut self) {
        self.naps = self.naps.saturating_add(1);
    }
}

/// A callback that blocks all workers, and releases one randomly chosen worker at a time. If a worker reaches the stage
/// `stop_at`, the callback stops this worker.
#[derive(Drop)]
struct Drawn {
    stop_at: u64,
    turns: Mutex<Turns>,
    /// A counter of the workers that were chosen to run. A blocked worker sleeps until the counter changes, but at most
    /// a millisecond.
    bell: AtomicU64,
    ran_out: AtomicBool,
}

impl Drawn {
    /// Creates the callback `Drawn`, which no worker has called yet.
    fn new(seed: u64, stop_at: u64) -> Drawn {
        Drawn {
            stop_at,
            turns: Mutex::new(Turns {
                chance: next_state(seed),
                held: 0,
                left: 0,
                chosen: 0,
                naps: 0,
                stop_at,
                order: 0,
                ran_out: false,
            }),
            bell: AtomicU64::new(0),
            ran_out: AtomicBool::new(false),
        }
    }

    /// Records that a worker is blocked in the callback at the stage `here` of a window.
    fn come<R: Wait>(&self, rt: &R, here: u64) {
        self.turns.lock(rt).come(here);
    }

    /// Whether the callback now releases the worker at the stage `here` of a window.
    fn goes<R: Wait>(&self, rt: &R, here: u64) -> bool {
        let (goes, chose) = self.turns.lock(rt).look(here);
        if chose {
            let _ = self.bell.fetch_add(1, Ordering::SeqCst);
            self.bell.wake_all();
        }
        goes
    }

    /// Sleeps until another worker is chosen, but at most a millisecond.
    fn sleep<R: Wait>(&self, rt: &R, rung: u64) {
        let low = (rung % 4_294_967_296) as u32;
        self.bell.park_timeout(rt, low, Duration::from_millis(1));
        if self.bell.load(Ordering::SeqCst) == rung {
            self.turns.lock(rt).nap();
        }
    }

    /// Blocks the worker at the stage `here` of a window until the worker is chosen to run. After `LOOKS` checks, the
    /// function stops and sets the flag `ran_out`.
    fn hold<R: Wait>(&self, rt: &R, here: u64) {
        for _ in 0..LOOKS {
            let rung = self.bell.load(Ordering::SeqCst);
            if self.goes(rt, here) {
                return;
            }
            self.sleep(rt, rung);
        }
        self.ran_out.store(true, Ordering::SeqCst);
    }

    /// Returns the order in which workers were chosen to run, and whether a wait took too long. A wait takes too long
    /// if blocked workers sleep `SURE_NAPS` times while they wait for another worker, or if one worker checks `LOOKS`
    /// times whether it is released.
    fn end(self) -> (u64, bool) {
        let turns = self.turns.into_inner();
        (turns.order, turns.ran_out || self.ran_out.into_inner())
    }
}

impl Gate for Drawn {
    ghost may_stop = { λ _ _. Unit {0} };

    fn at<R: Wait>(&self, rt: &R, place: Place) -> Turn {
        let here = bit_of(kind_of(place));
        self.come(rt, here);
        self.hold(rt, here);
        if here == self.stop_at {
            Turn::Stop
        } else {
            Turn::Go
        }
    }
}

/// Performs a run whose workers run in an order that the seed determines, into a target that refuses three leaves.
/// Returns the order in which the workers ran.
fn run_drawn<R: Abort + Threads + Wait + Sync>(rt: &R, alloc: Global, seed: u64) -> u64 {
    const WELL: &str =
        "session 1 from 0 to 11 checked 10 found 10 read 10 written 7 failed 3, fetched 10";
    let gate = Drawn::new(seed, 0);
    let mut bench = Bench::new(alloc, WORKERS);
    bench.run(rt, CHOOSY_PEERS);
    bench.run(rt, DOCUMENTS);
    expect_answer(rt, 0, bench.replicate(rt, &gate, A, B, TWO_ROWS), WELL);
    bench.run(rt, SIFTED);
    let (order, ran_out) = gate.end();
    assert!(rt; !ran_out, "out of turns at {seed}");
    order
}

/// Returns how many different numbers a sorted list has. The list must not contain 0.
fn different(sorted: &[u64]) -> u64 {
    let mut found = 0u64;
    let mut last = 0;
    for number in sorted {
        if *number != last {
            found = found.saturating_add(1);
        }
        last = *number;
    }
    found
}

/// The number of seeds of one test. The number of seeds is small because each test must end within a minute, even on a
/// busy machine.
const SEEDS: u64 = 250;

/// Performs `SEEDS` runs with different seeds, and asserts that the runs have more than `SEEDS` / 2 different orders.
// The order in which the workers of a run are released affects only the sequences of the documents at the target. The
// calls `SIFTED` read the same values after a run for every order of the workers.
fn run_orders<R: Abort + Threads + Wait + Sync>(rt: &R, alloc: Global, first: u64) {
    let mut orders = Vec::new(alloc);
    for number in 0..SEEDS {
        let order = run_drawn(rt, alloc, first.saturating_add(number));
        orders.push(order).expect(rt, "memory");
    }
    orders.sort().expect(rt, "memory");
    let found = different(&orders);
    assert!(rt; found > SEEDS / 2, "{found} orders");
}

#[test]
fn every_order_ends_alike(rt: HostRuntime) {
    run_orders(&rt, rt.alloc(), 0);
}

#[test]
fn further_orders_end_alike(rt: HostRuntime) {
    run_orders(&rt, rt.alloc(), SEEDS);
}

#[test]
fn later_orders_end_alike(rt: HostRuntime) {
    run_orders(&rt, rt.alloc(), 500);
}

#[test]
fn last_orders_end_alike(rt: HostRuntime) {
    run_orders(&rt, rt.alloc(), 750);
}

/// Performs a run that stops at one stage of a window. The seed determines the stage at which the run stops, and the
/// order in which the workers run. A second run completes the replication that the stopped run began.
fn stop_drawn<R: Abort + Threads + Wait + Sync>(rt: &R, alloc: Global, seed: u64) {
    let (kind, window) = (seed % 5, seed / 5 % WINDOWS);
    let gate = Drawn::new(seed, bit_of((kind, window)));
    let mut bench = Bench::new(alloc, WORKERS);
    bench.run(rt, OPEN_PEERS);
    bench.run(rt, DOCUMENTS);
    expect_stop(rt, alloc, &mut bench, &gate, kind, window);
    go_on(rt, alloc, &mut bench);
    bench.run(rt, CARRIED);
    let (_order, ran_out) = gate.end();
    assert!(rt; !ran_out, "out of turns at {seed}");
}

/// Performs 150 runs with different seeds, ten for each of the 15 stages at which a run can stop.
fn stop_orders<R: Abort + Threads + Wait + Sync>(rt: &R, alloc: Global, first: u64) {
    for number in 0..150u64 {
        stop_drawn(rt, alloc, first.saturating_add(number));
    }
}

#[test]
fn a_stop_in_every_order(rt: HostRuntime) {
    stop_orders(&rt, rt.alloc(), 0);
}

#[test]
fn a_stop_in_further_orders(rt: HostRuntime) {
    stop_orders(&rt, rt.alloc(), 150);
}
