//! Finds the stored window to which a parcel belongs.
ghost use Rattle.std.specs.Prelude.{◌≡◌, ◌<◌, ◌≤◌, ◌+◌, ◌==◌, ◌&&◌, ℕ, Err, None, nat_le, IfOk, IfErr, IfSome, IfNone};
ghost use Rattle.std.specs.List.{find};
ghost use Rattle.std.specs.List.Sorted.{IsPartitionPoint};
ghost use Rattle.couch_base.specs.Database.{most};
ghost use Rattle.repl_peer.specs.session.Settling.{settle_at, window_in};
ghost use Rattle.repl_peer.specs.session.SettlingParts.{Consecutive, IsWindowAt, Passes};
ghost use Rattle.repl_peer.specs.session.Windows.{windows_of};

use crate::fault::TargetFault;
use crate::session::Session;
use crate::session::rows::{asked_count, leaf_count};
use crate::session::window::StoredWindow;
use couch_base::{MOST_SEQUENCE, Parcel};

/// The index of a parcel's window, the number of leaves in the window's rows, and the number of revisions that the
/// parcel requested.
#[derive(Clone, Copy)]
pub(crate) struct Checked {
    pub(crate) place: usize,
    pub(crate) leaves: u64,
    pub(crate) asked: u64,
}

/// Checks that a parcel's window exists, has a row for each document and is not done, and that the counts do not
/// overflow. Returns the index of the parcel's window, and the two numbers that settling adds to the session's counts:
/// leaves and requested revisions. If a check fails, returns the error of the check that fails first.
pub(crate) fn check(session: &Session, parcel: &Parcel) -> Result<Checked, TargetFault>
    ensures ok { IfOk result
        (λ found. Passes session.now parcel.now found.place found.leaves found.asked) }
    ensures err { IfErr result
        (λ fault. settle_at session.now parcel.now
        (window_in session.now parcel.now.asked.lo parcel.now.asked.hi)
        ≡ Err fault) }
{
    let (lo, hi) = (parcel.lo(), parcel.hi());
    let Some(place) = find_window(&session.windows, lo, hi) else {
        return Err(TargetFault::ForeignParcel);
    };
    let window = &session.windows[place];
    if !window.has_rows_of(parcel.docs()) {
        return Err(TargetFault::ForeignParcel);
    }
    if session.front.is_done(lo, hi) {
        return Err(TargetFault::AlreadyDone);
    }
    // The parcel's window is not done, so the rows of the window still have their leaves.
    let Some(rows) = window.rows() else {
        unreachable!()
    };
    let (leaves, asked) = (leaf_count(rows), asked_count(parcel.asked().docs()));
    let read = parcel.docs().len() as u64;
    if !has_room(session, read, leaves, asked) {
        return Err(TargetFault::CountFull);
    }
    Ok(Checked {
        place,
        leaves,
        asked,
    })
}

/// Returns the index of the session's window with the given bounds.
fn find_window(windows: &[StoredWindow], lo: u64, hi: u64) -> Option<usize>
    requires { (start : ℕ) × Consecutive start (windows_of windows.now) }
    ensures some { IfSome result (IsWindowAt (windows_of windows.now) lo hi) }
    ensures none { IfNone result (find (λ w. (w.lo == lo) && (w.hi == hi)) (windows_of windows.now) ≡ None) }
{
    let place = place_from(windows, lo);
    match windows.get(place) {
        Some(window) if window.lo() == lo && window.hi() == hi => Some(place),
        _ => None,
    }
}

/// Searches a session's windows, and returns the index of the first window that begins at `lo` or above.
fn place_from(windows: &[StoredWindow], lo: u64) -> usize
    requires { (start : ℕ) × Consecutive start (windows_of windows.now) }
    ensures { IsPartitionPoint (λ w. w.lo < lo) (λ w. lo ≤ w.lo) (windows_of windows.now) result }
{
    windows.partition_point(|window| window.lo() < lo)
}

/// Whether adding the given numbers keeps each count of the session at or below the maximum of a count.
fn has_room(session: &Session, read: u64, checked: u64, found: u64) -> bool
    ensures { result
        ≡ (nat_le (session.now.counts.read + read) most
        && (nat_le (session.now.counts.checked + checked) most && nat_le (session.now.counts.found + found) most)) }
{
    fits(session.counts.read, read)
        && fits(session.counts.checked, checked)
        && fits(session.counts.found, found)
}

/// Whether `count + more` is at most 9,007,199,254,740,991, the maximum of a session's count.
fn fits(count: u64, more: u64) -> bool
    ensures { result ≡ nat_le (count + more) most }
{
    count <= MOST_SEQUENCE && more <= MOST_SEQUENCE - count
}
