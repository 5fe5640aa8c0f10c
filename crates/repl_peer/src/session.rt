//! How a peer stores an incoming session in memory.

ghost use Rattle.std.specs.Prelude.{◌≡◌, ◌==◌, OnOk, OnErr, if◌then◌else◌};
ghost use Rattle.range_front.specs.Front.{low_water};
ghost use Rattle.repl_log.specs.Entry.{value_of};
ghost use Rattle.repl_peer.specs.peer.Peer.{entry_of};
ghost use Rattle.repl_peer.specs.session.Sessions.{GivesUnlessMemory, new_session, append_in, with_window, recorded_at, report_of, conclude_in};

pub(crate) mod beginning;
pub(crate) mod deferred_drops;
mod ghost_rows;
mod ledger_index;
mod packed_ids;
pub(crate) mod ready_window;
pub(crate) mod refused;
mod rep_index;
pub(crate) mod rows;
pub(crate) mod sessions;
mod settle;
mod stored;
pub(crate) mod window;

use crate::fault::{Report, TargetFault};
use crate::peer::ghost_writes::GhostWrites;
use crate::room::room_for_one;
use crate::session::beginning::{Beginning, Scope};
use crate::session::ready_window::ReadyWindow;
use crate::session::refused::Refused;
use crate::session::window::StoredWindow;
use range_front::Front;
use repl_log::{Counts, Entry, Moment};
use rev_tree::SessionId;
use std::alloc::Global;
use std::marker::Model;

/// An incoming session.
///
/// The session's arrivals (stored documents) exist for contracts only. At run time, the session stores the number of its
/// arrivals, as the count of written documents.
#[derive(Drop)]
pub(crate) struct Session {
    pub(crate) id: SessionId,
    pub(crate) scope: Scope,
    pub(crate) front: Front,
    pub(crate) windows: Vec<StoredWindow>,
    pub(crate) recorded: u64,
    pub(crate) arrivals: GhostWrites,
    pub(crate) ledger: Vec<Refused>,
    pub(crate) counts: Counts,
    pub(crate) start_time: Moment,
    pub(crate) end_time: Moment,
}

impl Model for Session {
    ghost use Rattle.repl_peer.specs.peer.Peer.{SessionValue};
    ghost use Rattle.repl_peer.specs.peer.PeerCode.{coded_session};

    ghost Value = { SessionValue };

    ghost coded = { coded_session };

    ghost use Rattle.repl_peer.specs.session.Stored.{session_value, IsSession};

    ghost view = { session_value };

    ghost invariant = { λ s. IsSession s };
}

impl Session {
    /// Creates a session.
    pub(crate) fn new(alloc: Global, id: SessionId, beginning: Beginning, at: Moment) -> Session
        ensures { result ≡ new_session id beginning at }
    {
        let Beginning { scope, start } = beginning;
        Session {
            id,
            scope,
            front: Front::new(alloc, start),
            windows: Vec::new(alloc),
            recorded: start,
            arrivals: GhostWrites::new(),
            ledger: Vec::new(alloc),
            counts: Counts::none(),
            start_time: at,
            end_time: at,
        }
    }

    /// Adds the next window of the feed.
    ///
    /// # Errors
    ///
    /// Checked in this order; an error changes nothing:
    ///
    /// - `OtherLife`: the window's life is not the session's life.
    /// - `Gap`: the window does not begin at the end of the stored windows.
    /// - `PastGoal`: the window ends above the goal.
    /// - `Memory`: an allocation failed.
    pub(crate) fn append(&mut self, ready: ReadyWindow) -> Result<(), TargetFault>
        ensures answer { GivesUnlessMemory result (append_in ready self.old) }
        ensures ok { OnOk result (self.new ≡ with_window ready self.old (append_in ready self.old)) }
        ensures err { OnErr result (self.new ≡ self.old) }
    {
        let window = ready.window();
        if window.life() != self.scope.life {
            return Err(TargetFault::OtherLife {
                now: self.scope.life,
            });
        }
        let expected = self.front.end();
        let hi = window.hi();
        if window.lo() != expected {
            return Err(TargetFault::Gap { expected });
        }
        if hi > self.scope.goal {
            return Err(TargetFault::PastGoal);
        }
        room_for_one(&mut self.windows)?;
        self.front.append(hi)?;
        self.windows.push(StoredWindow::whole(ready)).unwrap();
        Ok(())
    }

    /// Records the low water of the session, and returns the low water.
    pub(crate) fn record(&mut self, at: Moment) -> u64
        ensures mark { result ≡ low_water self.old.front }
        ensures session { self.new ≡ recorded_at at self.old }
    {
        let mark = self.front.low_water();
        self.recorded = mark;
        self.end_time = at;
        mark
    }

    /// Records the session and returns its report if every window up to the goal is done. If a window up to the goal is
    /// not done, the call returns `Unfinished` and changes nothing.
    pub(crate) fn conclude(&mut self, at: Moment) -> Result<Report, TargetFault>
        ensures answer { result ≡ conclude_in self.old }
        ensures session { self.new
            ≡ (if low_water self.old.front == self.old.goal then recorded_at at self.old else self.old) }
    {
        let low_water = self.front.low_water();
        if low_water != self.scope.goal {
            return Err(TargetFault::Unfinished { low_water });
        }
        self.record(at);
        Ok(self.report())
    }

    /// Returns the report of the session.
    fn report(&self) -> Report
        ensures { result ≡ report_of self.now }
    {
        Report {
            session: self.id,
            start: self.front.start(),
            recorded: self.recorded,
            counts: self.counts,
        }
    }

    /// Returns the log entry of the session.
    pub(crate) fn entry(&self) -> Entry
        ensures { value_of result ≡ entry_of self.now }
    {
        Entry {
            session: self.id,
            life: self.scope.life,
            start: self.front.start(),
            recorded: self.recorded,
            start_time: self.start_time,
            end_time: self.end_time,
            counts: self.counts,
        }
    }
}
