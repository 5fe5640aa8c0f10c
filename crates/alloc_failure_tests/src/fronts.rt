//! Calls `Front::append`, `reserve` and `finish`.
use anyhow::{Result, bail};
use range_front::{Front, FrontFault};
use std::alloc::{AllocError, Global};

/// Appends a window, and retries if an allocation fails.
fn appended(front: &mut Front, hi: u64) -> Result<(), FrontFault> {
    match front.append(hi) {
        Err(FrontFault::Memory) => front.append(hi),
        answer => answer,
    }
}

/// Reserves space, and retries if an allocation fails.
fn reserved(front: &mut Front) -> Result<(), AllocError> {
    match front.reserve() {
        Err(AllocError) => front.reserve(),
        answer => answer,
    }
}

/// The end sequences of the windows that the test appends.
static ENDS: &[u64] = &[2, 4, 6, 8, 10];

/// Whether `append` succeeds for each end sequence in `ENDS`.
fn grows(front: &mut Front) -> bool {
    let mut grows = true;
    for hi in ENDS {
        grows = grows && appended(front, *hi).is_ok();
    }
    grows
}

/// Whether `reserve` and `finish` succeed for the window that starts at `lo` and has two sequences. The call of
/// `finish` needs no retry, because the test has reserved space.
fn finishes(front: &mut Front, lo: u64) -> bool {
    reserved(front).is_ok() && front.finish(lo, lo.saturating_add(2)).is_ok()
}

/// The start sequences of the windows in the order in which the test finishes them.
static BEGINNINGS: &[u64] = &[2, 6, 0, 4];

/// Appends and finishes the windows. If all calls succeed, returns the low water (the sequence up to which all windows
/// are done).
fn ended(alloc: Global) -> Option<u64> {
    let mut front = Front::new(alloc, 0);
    let mut well = grows(&mut front);
    for lo in BEGINNINGS {
        well = well && finishes(&mut front, *lo);
    }
    if well { Some(front.low_water()) } else { None }
}

pub(crate) fn run(rt: &impl Print, alloc: Global) -> Result<()> {
    let Some(water) = ended(alloc) else {
        bail!("fronts: another answer");
    };
    println!(rt; "fronts as wanted: low water {water}")?;
    Ok(())
}
