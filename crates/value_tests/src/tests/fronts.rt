//! Worked examples of fronts (lists of adjacent windows, each of which is done or not done): calls with expected
//! results. The examples use each public call at least once.
use crate::tests::texts::expect_answer;
use range_front::Front;
use std::alloc::Global;
use std::process::Abort;
use test_support::shown;

/// A call on a front (a list of adjacent windows, each of which is done or not done).
#[derive(Clone, Copy)]
enum Call {
    /// Append a window that ends at a sequence.
    Append(u64),
    /// Reserve space to finish a window.
    Reserve,
    /// Finish a window.
    Finish(u64, u64),
    /// Read whether a window is done.
    IsDone(u64, u64),
    /// Read the start.
    Start,
    /// Read the end.
    End,
    /// Read the low water.
    LowWater,
    /// Count the ranges of done windows above the low water. A range has as many adjacent done windows as possible.
    RangeCount,
}

/// Performs a call and returns its result as a string.
fn answer(alloc: Global, front: &mut Front, call: &Call) -> Option<String> {
    match *call {
        Call::Append(hi) => shown(alloc, &front.append(hi)),
        Call::Reserve => shown(alloc, &front.reserve()),
        Call::Finish(lo, hi) => shown(alloc, &front.finish(lo, hi)),
        Call::IsDone(lo, hi) => shown(alloc, &front.is_done(lo, hi)),
        Call::Start => shown(alloc, &front.start()),
        Call::End => shown(alloc, &front.end()),
        Call::LowWater => shown(alloc, &front.low_water()),
        Call::RangeCount => shown(alloc, &front.range_count()),
    }
}

/// Performs the calls in order, and asserts that each call returns its expected result.
fn run(rt: &impl Abort, alloc: Global, front: &mut Front, calls: &[(Call, &str)]) {
    for (i, (call, wanted)) in calls.iter().enumerate() {
        expect_answer(rt, i, answer(alloc, front, call), wanted);
    }
}

/// A table of calls on a front (a list of adjacent windows). The calls append windows with the ends 2, 4 and 6, and
/// finish the windows out of order.
static OUT_OF_ORDER: &[(Call, &str)] = &[
    (Call::Append(2), "Ok(())"),
    (Call::Append(4), "Ok(())"),
    (Call::Append(6), "Ok(())"),
    (Call::Start, "0"),
    (Call::End, "6"),
    (Call::LowWater, "0"),
    (Call::Reserve, "Ok(())"),
    (Call::Finish(2, 4), "Ok(())"),
    (Call::LowWater, "0"),
    (Call::IsDone(2, 4), "true"),
    (Call::IsDone(0, 2), "false"),
    (Call::Finish(0, 2), "Ok(())"),
    (Call::LowWater, "4"),
    (Call::Finish(0, 2), "Err(AlreadyDone)"),
    (Call::Finish(1, 2), "Err(NoSuchWindow)"),
    (Call::Append(6), "Err(NotRising { end: 6 })"),
];

/// A table of calls on a front (a list of adjacent windows). The first calls append windows with the ends 2, 4, 6, 8
/// and 10. When the windows are finished, ranges of done windows appear, merge, and fall below the low water.
static RANGES_MERGED: &[(Call, &str)] = &[
    (Call::Append(2), "Ok(())"),
    (Call::Append(4), "Ok(())"),
    (Call::Append(6), "Ok(())"),
    (Call::Append(8), "Ok(())"),
    (Call::Append(10), "Ok(())"),
    (Call::Finish(2, 4), "Ok(())"),
    (Call::LowWater, "0"),
    (Call::RangeCount, "1"),
    (Call::Finish(6, 8), "Ok(())"),
    (Call::LowWater, "0"),
    (Call::RangeCount, "2"),
    (Call::Finish(4, 6), "Ok(())"),
    (Call::LowWater, "0"),
    (Call::RangeCount, "1"),
    (Call::Finish(0, 2), "Ok(())"),
    (Call::LowWater, "8"),
    (Call::RangeCount, "0"),
    (Call::IsDone(4, 6), "true"),
    (Call::IsDone(8, 10), "false"),
    (Call::IsDone(2, 6), "false"),
    (Call::Finish(4, 6), "Err(AlreadyDone)"),
];

#[test]
fn front_out_of_order(rt: HostRuntime) {
    let mut front = Front::new(rt.alloc(), 0);
    run(&rt, rt.alloc(), &mut front, OUT_OF_ORDER);
}

#[test]
fn ranges_merged(rt: HostRuntime) {
    let mut front = Front::new(rt.alloc(), 0);
    run(&rt, rt.alloc(), &mut front, RANGES_MERGED);
}
