//! Finishes windows of a front (a session's windows, in order) in random orders, and compares the front with a list of
//! Booleans after each call.
use crate::tests::checks::holds;
use rand_chacha::ChaCha8Rng;
use rand_core::{Rng, SeedableRng};
use range_front::{Front, FrontFault};
use std::alloc::Global;
use std::process::Abort;

/// The number of windows of a front.
const WINDOWS: usize = 20;

/// Returns the expected low water of a front, which is the sequence up to which all windows of the front are done. The
/// element `marks[i]` says whether window `i` is done. Window `i` consists of ten sequences, and begins above the
/// sequence `start + 10 * i`.
fn low_water(start: u64, marks: &[bool; WINDOWS]) -> u64 {
    let mut water = start;
    for mark in marks {
        if !*mark {
            return water;
        }
        water = water.saturating_add(10);
    }
    water
}

/// Counts the groups of adjacent done windows above the low water.
fn range_count(marks: &[bool; WINDOWS]) -> usize {
    let mut count: usize = 0;
    let mut before = true;
    for mark in marks {
        if *mark && !before {
            count = count.saturating_add(1);
        }
        before = *mark;
    }
    count
}

/// Creates a front with `WINDOWS` windows of ten sequences each, above the sequence `start`.
fn filled(rt: &impl Abort, alloc: Global, start: u64) -> Front {
    let mut front = Front::new(alloc, start);
    for i in 0..WINDOWS as u64 {
        front.append(start % 7 + 10 * i + 10).expect(rt, "memory");
    }
    front
}

/// Finishes a window of a front, and asserts that the call has the expected result and that the window is then done.
fn finish_one(rt: &impl Abort, front: &mut Front, lo: u64, is_done: bool) {
    let wanted = if is_done {
        Err(FrontFault::AlreadyDone)
    } else {
        Ok(())
    };
    let hi = lo.saturating_add(10);
    let was_done = front.is_done(lo, hi);
    front.reserve().expect(rt, "memory");
    let answer = front.finish(lo, hi);
    holds(
        rt,
        was_done == is_done && answer == wanted && front.is_done(lo, hi),
        "a window",
    );
    let beyond = front.finish(lo, lo.saturating_add(20));
    holds(
        rt,
        beyond == Err(FrontFault::NoSuchWindow),
        "no such window",
    );
}

/// Whether a front has the expected low water and the expected number of groups of adjacent done windows. The expected
/// values are computed from the list `marks`. The element `marks[i]` says whether window `i` of the front is done.
fn is_marked(front: &Front, start: u64, marks: &[bool; WINDOWS]) -> bool {
    front.low_water() == low_water(start, marks) && front.range_count() == range_count(marks)
}

/// Calls `finish_one` forty times, each time for a randomly chosen window of a front. The first attempt to finish a
/// given window must succeed, and each later attempt must fail.
fn finishes(rt: &impl Abort, front: &mut Front, seed: u64) {
    let mut rng = ChaCha8Rng::seed_from_u64(seed);
    let start = seed % 7;
    let mut marks = [false; WINDOWS];
    for _ in 0..40 {
        let i = (rng.next_u32() % WINDOWS as u32) as usize;
        finish_one(rt, front, start + 10 * i as u64, marks[i]);
        marks[i] = true;
        holds(
            rt,
            is_marked(front, start, &marks),
            "the low water, or the runs",
        );
    }
    holds(rt, front.end() == start + 10 * WINDOWS as u64, "the end");
}

#[test]
fn two_hundred_orders_agree(rt: HostRuntime) {
    for seed in 0..200u64 {
        let mut front = filled(&rt, rt.alloc(), seed % 7);
        finishes(&rt, &mut front, seed);
    }
}

/// Appends a given number of windows, of two sequences each, to a front.
fn many(rt: &impl Abort, front: &mut Front, windows: u64) {
    for number in 0..windows {
        let hi = number.saturating_mul(2).saturating_add(2);
        front.append(hi).expect(rt, "a window");
    }
}

/// Finishes the window with the number `number` of a front (a session's windows, in order).
fn finish(rt: &impl Abort, front: &mut Front, number: u64) {
    let lo = number.saturating_mul(2);
    let hi = lo.saturating_add(2);
    front.finish(lo, hi).expect(rt, "a window that is not done");
}

/// Finishes the second window of each pair of windows, beginning with the first pair.
fn finish_odd(rt: &impl Abort, front: &mut Front, pairs: u64) {
    for pair in 0..pairs {
        finish(rt, front, pair.saturating_mul(2).saturating_add(1));
    }
}

/// Finishes the first window of each pair of windows, beginning with the last pair.
fn finish_even(rt: &impl Abort, front: &mut Front, pairs: u64) {
    for back in 0..pairs {
        let pair = pairs.saturating_sub(back).saturating_sub(1);
        finish(rt, front, pair.saturating_mul(2));
    }
}

#[test]
fn seventy_thousand_windows(rt: HostRuntime) {
    let mut front = Front::new(rt.alloc(), 0);
    many(&rt, &mut front, 70_000);
    finish_odd(&rt, &mut front, 35_000);
    holds(
        &rt,
        front.range_count() == 35_000 && front.low_water() == 0,
        "ranges above the low water",
    );
    front.reserve().expect(&rt, "room for one range more");
    finish_even(&rt, &mut front, 35_000);
    holds(
        &rt,
        front.range_count() == 0 && front.low_water() == 140_000,
        "no range is left",
    );
}
