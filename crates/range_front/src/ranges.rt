//! The low water of a front, and the ranges of done windows above the low water.
ghost use Rattle.std.specs.Prelude.{◌≡◌, ℕ, ◌<◌, ◌≤◌, ◌++◌, length, take, drop, OnErr, IsOk};
ghost use Rattle.std.specs.List.Sorted.{IsPartitionPoint};
ghost use Rattle.std.specs.Vec.{vec_len, vec_capacity};
ghost use Rattle.range_front.specs.Ranges.{Apart, covers, absorbed, joined};

use std::alloc::AllocError;

/// A range `(lo, hi]` of sequences that consists of adjacent done windows.
#[derive(Clone, Copy)]
pub(crate) struct DoneRange {
    pub(crate) lo: u64,
    pub(crate) hi: u64,
}

/// Searches the ranges of done windows, and returns the index of the first range that ends at `bound` or above.
fn place_from(ranges: &[DoneRange], bound: u64) -> usize
    requires { (mark : ℕ) × Apart mark ranges.now }
    ensures within { result ≤ length ranges.now }
    ensures point { IsPartitionPoint (λ r. r.hi < bound) (λ r. bound ≤ r.hi) ranges.now result }
{
    ranges.partition_point(|range| range.hi < bound)
}

/// Whether the window that ends at `hi` is done. A done window is at or below the low water `mark`, or in one of the
/// ranges above the low water.
pub(crate) fn is_covered(mark: u64, ranges: &[DoneRange], hi: u64) -> bool
    requires { Apart mark ranges.now }
    ensures { result ≡ covers mark ranges.now hi }
{
    if hi <= mark {
        return true;
    }
    match ranges.get(place_from(ranges, hi)) {
        Some(range) => range.lo < hi,
        None => false,
    }
}

/// Removes the range of done windows at the index `place`, if this range begins at `hi`. Returns the end of the removed
/// range, or `hi` if no range was removed.
fn absorb(ranges: &mut Vec<DoneRange>, place: usize, hi: u64) -> u64
    ensures reach { result ≡ (absorbed hi (drop place ranges.old.items)).0 }
    ensures rest { ranges.new.items ≡ take place ranges.old.items ++ (absorbed hi (drop place ranges.old.items)).1 }
{
    match ranges.get(place) {
        Some(next) if next.lo == hi => {
            let reach = next.hi;
            ranges.remove(place);
            reach
        }
        _ => hi,
    }
}

/// Marks the window `(lo, hi]` as done. The window is above the low water `mark`, and outside all ranges of done
/// windows. A window that begins at the low water raises the low water. A window that touches ranges of done windows is
/// joined with these ranges.
///
/// An error changes nothing.
pub(crate) fn join(
    mark: &mut u64,
    ranges: &mut Vec<DoneRange>,
    lo: u64,
    hi: u64,
) -> Result<(), AllocError>
    requires { Apart mark.old ranges.old.items }
    ensures room { vec_len ranges.old < vec_capacity ranges.old → IsOk result }
    ensures mark { IsOk result → mark.new ≡ (joined mark.old ranges.old.items lo hi).0 }
    ensures ranges { IsOk result → ranges.new.items ≡ (joined mark.old ranges.old.items lo hi).1 }
    ensures err { OnErr result ((mark.new ≡ mark.old) × (ranges.new.items ≡ ranges.old.items)) }
{
    if *mark == lo {
        *mark = absorb(ranges, 0, hi);
        return Ok(());
    }
    let place = place_from(ranges, lo);
    match ranges.get(place) {
        Some(before) if before.hi == lo => {
            let reach = absorb(ranges, place + 1, hi);
            ranges[place].hi = reach;
        }
        Some(next) if next.lo == hi => ranges[place].lo = lo,
        _ => ranges.insert(place, DoneRange { lo, hi })?,
    }
    Ok(())
}
