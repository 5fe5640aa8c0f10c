//! A plain model of two peers and the messages between them, written from docs/PROFILE.md, "Worlds", "Sessions of a
//! peer", "Settling" and "Backup and restore". The model represents trees as bit masks, a feed as a scan of all
//! documents, and messages and sessions as tables of rows.
use crate::tests::plain_sides::{
    ALL, IDS, Masks, Picked, PlainSide, Row, is_picked, next_above, take_leaf,
};
use crate::tests::reference::mask_of;
use std::alloc::Global;
use std::process::Abort;

/// The number of the document that is edited and never loaded. In the reference model, the edited document's revision
/// of generation g has the index `3 * (g - 1)`.
pub(crate) const EDITED: usize = 4;

/// A window, or a request for leaves of a window: the life (incarnation) of the source's database, the bounds, and the
/// leaves.
#[derive(Clone, Copy)]
pub(crate) struct Rows {
    life: u64,
    lo: u64,
    hi: u64,
    leaves: Masks,
}

/// A fetched parcel. The model stores the request, and a copy of the source from the time of the fetch.
#[derive(Clone, Copy)]
struct Fetched {
    asked: Rows,
    source: PlainSide,
}

/// The log entry of a session.
#[derive(Clone, Copy, Debug, PartialEq, Eq)]
pub(crate) struct Done {
    pub(crate) session: u128,
    pub(crate) life: u64,
    pub(crate) start: u64,
    pub(crate) recorded: u64,
    /// The times at which the session began and last recorded its progress, in seconds since 1970.
    pub(crate) moments: (u64, u64),
    pub(crate) checked: u64,
    pub(crate) found: u64,
    pub(crate) written: u64,
    pub(crate) failures: u64,
}

/// The source's log of the replication, oldest entry first, and the life of the source's database.
#[derive(Drop)]
pub(crate) struct SourceLog {
    pub(crate) life: u64,
    pub(crate) entries: Vec<Done>,
}

impl SourceLog {
    /// Copies the log.
    fn copy(&self, rt: &impl Abort, alloc: Global) -> SourceLog {
        SourceLog {
            life: self.life,
            entries: Vec::from_slice(alloc, &self.entries).expect(rt, "memory"),
        }
    }
}

/// A backup of the source.
#[derive(Drop)]
struct Copied {
    side: PlainSide,
    log: SourceLog,
}

/// Counts of events that occur only in lists of steps that restore the source from a backup.
#[derive(Clone, Copy, Debug)]
pub(crate) struct Met {
    /// The number of restores while windows, entries or logs were in transit.
    pub(crate) restores: u64,
    /// The number of sessions that began from a log of an earlier life (incarnation) of the source's database.
    pub(crate) begins: u64,
    /// The number of windows that a session did not store because window and session belong to different lives
    /// (incarnations) of the source.
    pub(crate) windows: u64,
    /// The number of entries that the source did not store because the entry's life is not the current life
    /// (incarnation) of the source.
    pub(crate) entries: u64,
}

impl Met {
    /// Creates counts of 0.
    pub(crate) fn new() -> Met {
        Met {
            restores: 0,
            begins: 0,
            windows: 0,
            entries: 0,
        }
    }

    /// Adds the counts in `other` to the counts in `self`. The counts in `other` come from another list of steps.
    pub(crate) fn add(&mut self, other: &Met) {
        self.restores = self.restores.saturating_add(other.restores);
        self.begins = self.begins.saturating_add(other.begins);
        self.windows = self.windows.saturating_add(other.windows);
        self.entries = self.entries.saturating_add(other.entries);
    }

    /// Returns the smallest of the four counts.
    pub(crate) fn least(&self) -> u64 {
        self.restores
            .min(self.begins)
            .min(self.windows)
            .min(self.entries)
    }
}

/// A session of the target.
#[derive(Clone, Copy)]
struct Session {
    done: Done,
    goal: u64,
}

/// A window of a session.
#[derive(Clone, Copy)]
struct Stored {
    session: u128,
    rows: Rows,
    is_done: bool,
}

/// The sessions of a target, and the windows and ledger rows of all sessions. Each of the lists `begun`, `windows` and
/// `ledger` begins with the oldest item.
#[derive(Drop)]
pub(crate) struct Sessions {
    begun: Vec<Session>,
    windows: Vec<Stored>,
    ledger: Vec<(u128, Row)>,
}

/// Returns the number of bits that are set in a list of masks.
fn count(masks: &Masks) -> u64 {
    let mut all = 0u64;
    for mask in masks {
        all = all.saturating_add(mask.count_ones() as u64);
    }
    all
}

/// Returns a page of a source's feed, marked with the given life (incarnation) of the source's database. The call scans
/// at most `limit` rows above `since` and at or below `goal`. The page has only the scanned rows of selected documents.
fn page(side: &PlainSide, life: u64, since: u64, goal: u64, limit: u64, picked: Picked) -> Rows {
    let mut leaves = [0; IDS];
    let mut hi = since;
    for _ in 0..limit {
        let Some((number, seq)) = next_above(&side.documents, hi, goal) else {
            hi = goal;
            break;
        };
        if is_picked(picked, number) {
            leaves[number % IDS] = side.tree(number).leaf_mask();
        }
        hi = seq;
    }
    Rows {
        life,
        lo: since,
        hi,
        leaves,
    }
}

/// Returns those leaves of the given rows that a side (the plain model of a peer) lacks.
fn missing(side: &PlainSide, rows: &Rows) -> Rows {
    let mut leaves = [0; IDS];
    for number in 0..IDS {
        leaves[number] = rows.leaves[number] & !side.tree(number).revisions();
    }
    Rows { leaves, ..*rows }
}

/// Whether a side (the plain model of a peer) covers each leaf of the given rows.
fn covers(side: &PlainSide, rows: &Rows) -> bool {
    let mut covers = true;
    for number in 0..IDS {
        covers = covers && rows.leaves[number] & !side.covered(number) == 0;
    }
    covers
}

/// Whether each requested document has a row in the given rows.
fn are_of(asked: &Rows, rows: &Rows) -> bool {
    let mut are = true;
    for number in 0..IDS {
        are = are && (asked.leaves[number] == 0 || rows.leaves[number] != 0);
    }
    are
}

impl Sessions {
    /// Creates an empty table.
    fn new(alloc: Global) -> Sessions {
        Sessions {
            begun: Vec::new(alloc),
            windows: Vec::new(alloc),
            ledger: Vec::new(alloc),
        }
    }

    /// Returns the least number above 0 that is not the id of a session.
    fn next(&self) -> u128 {
        let mut next = 1u128;
        for _ in &self.begun {
            if self.get(next).is_some() {
                next = next.saturating_add(1);
            }
        }
        next
    }

    /// Returns the index of a session.
    fn place(&self, session: u128) -> Option<usize> {
        self.begun
            .iter()
            .position(|held| held.done.session == session)
    }

    /// Returns a session.
    fn get(&self, session: u128) -> Option<Session> {
        self.begun.get(self.place(session)?).copied()
    }

    /// Returns the sequence at which the session's last window ends, or the session's start if the session has no
    /// window.
    fn end(&self, session: Session) -> u64 {
        let mut end = session.done.start;
        for window in &self.windows {
            if window.session == session.done.session {
                end = window.rows.hi;
            }
        }
        end
    }

    /// Returns the low water of a session, which is the sequence up to which all windows of the session are done.
    fn low_water(&self, session: Session) -> u64 {
        let mut low = session.done.start;
        for window in &self.windows {
            if window.session == session.done.session && window.rows.lo == low && window.is_done {
                low = window.rows.hi;
            }
        }
        low
    }

    /// Returns the common checkpoint of a source's log and the target's sessions. The newest session in both the log
    /// and the target has two recorded sequences, and the common checkpoint is the smaller sequence. If the log and the
    /// target share no session, the common checkpoint is 0.
    fn agreed(&self, entries: &[Done]) -> u64 {
        for held in self.begun.iter().rev() {
            if let Some(place) = place_in(entries, held.done.session) {
                let told = entries.get(place).map_or(0, |done| done.recorded);
                return told.min(held.done.recorded);
            }
        }
        0
    }

    /// Begins a session with the life (incarnation) of the log. The call has no effect if a session has the same id, or
    /// if the goal is below the session's start. The session starts at the common checkpoint of the source's log and
    /// the target's sessions.
    fn begin(&mut self, rt: &impl Abort, session: u128, log: &SourceLog, goal: u64, time: u64) {
        let start = self.agreed(&log.entries);
        if start <= goal && self.get(session).is_none() {
            let done = Done {
                session,
                life: log.life,
                start,
                recorded: start,
                moments: (time, time),
                checked: 0,
                found: 0,
                written: 0,
                failures: 0,
            };
            self.begun.push(Session { done, goal }).expect(rt, "memory");
        }
    }

    /// Stores a window in a session if the window fits the session. The window must have the same life (a number that
    /// changes when the source is restored) as the session. The window must begin at the end of the session's last
    /// window, and must not end above the session's goal (the last sequence that the session reads).
    fn append(&mut self, rt: &impl Abort, session: u128, rows: Rows) {
        let Some(held) = self.get(session) else {
            return;
        };
        if rows.life == held.done.life && rows.lo == self.end(held) && rows.hi <= held.goal {
            let window = Stored {
                session,
                rows,
                is_done: false,
            };
            self.windows.push(window).expect(rt, "memory");
        }
    }

    /// Returns the index of the session's window with the bounds of a request. The window must not be done, and must
    /// have a row for each requested document.
    fn window_for(&self, session: u128, asked: &Rows) -> Option<usize> {
        self.windows.iter().position(|window| {
            window.session == session
                && window.rows.lo == asked.lo
                && window.rows.hi == asked.hi
                && !window.is_done
                && are_of(asked, &window.rows)
        })
    }

    /// Counts a document of a session. A document with a ledger row counts as refused, and a document without a ledger
    /// row counts as written.
    fn count(&mut self, rt: &impl Abort, session: u128, row: Option<Row>) {
        let place = self.place(session).unwrap_or(0);
        let held = self.begun.get_mut(place).expect(rt, "a session");
        match row {
            Some(row) => {
                held.done.failures = held.done.failures.saturating_add(1);
                self.ledger.push((session, row)).expect(rt, "memory");
            }
            None => held.done.written = held.done.written.saturating_add(1),
        }
    }

    /// Counts the results of merging a document's leaves (`take_leaves`).
    fn count_all(&mut self, rt: &impl Abort, session: u128, rows: Vec<Option<Row>>) {
        for row in rows {
            self.count(rt, session, row);
        }
    }

    /// Whether a side (the plain model of a peer) covers each leaf of the window at an index.
    fn is_covered(&self, rt: &impl Abort, window: usize, side: &PlainSide) -> bool {
        covers(side, &self.windows.get(window).expect(rt, "a window").rows)
    }

    /// Marks the window at an index as done, and returns the number of leaves in the window.
    fn finish(&mut self, rt: &impl Abort, window: usize) -> u64 {
        let stored = self.windows.get_mut(window).expect(rt, "a window");
        stored.is_done = true;
        count(&stored.rows.leaves)
    }

    /// Marks the window at an index as done, and adds the window's leaves and the requested revisions to the session's
    /// counts.
    fn mark(&mut self, rt: &impl Abort, session: u128, window: usize, asked: &Rows) {
        let checked = self.finish(rt, window);
        let place = self.place(session).unwrap_or(0);
        let held = self.begun.get_mut(place).expect(rt, "a session");
        held.done.checked = held.done.checked.saturating_add(checked);
        held.done.found = held.done.found.saturating_add(count(&asked.leaves));
    }

    /// Records a session. If `concludes` is true and the low water is not the session's goal, the call does not record
    /// the session. The low water is the sequence up to which all windows are done. Returns the session's log entry.
    fn record(&mut self, session: u128, concludes: bool, time: u64) -> Option<Done> {
        let low = self.low_water(self.get(session)?);
        let place = self.place(session)?;
        let held = self.begun.get_mut(place)?;
        if concludes && low != held.goal {
            return None;
        }
        held.done.recorded = low;
        held.done.moments.1 = time;
        Some(held.done)
    }
}

/// Settles a fetched parcel for a session of a target, if the session has the parcel's window.
fn settle(
    rt: &impl Abort,
    alloc: Global,
    target: &mut PlainSide,
    sessions: &mut Sessions,
    deny: Option<usize>,
    session: u128,
    fetched: &Fetched,
) {
    let Some(window) = sessions.window_for(session, &fetched.asked) else {
        return;
    };
    for number in 0..IDS {
        let rows = take_leaves(rt, alloc, target, fetched, number, deny == Some(number));
        sessions.count_all(rt, session, rows);
    }
    if sessions.is_covered(rt, window, target) {
        sessions.mark(rt, session, window, &fetched.asked);
    }
}

/// Merges leaves of one document into the target, and returns the ledger row of each leaf that the target refuses. A leaf
/// is merged if its ancestry has a requested revision.
fn take_leaves(
    rt: &impl Abort,
    alloc: Global,
    target: &mut PlainSide,
    fetched: &Fetched,
    number: usize,
    denied: bool,
) -> Vec<Option<Row>> {
    let tree = fetched.source.tree(number);
    let leaves = tree.leaves_above(rt, alloc, fetched.asked.leaves[number % IDS]);
    let mut rows = Vec::new(alloc);
    for leaf in &leaves {
        let row = take_leaf(rt, alloc, target, number, &tree, *leaf, denied);
        rows.push(row).expect(rt, "memory");
    }
    rows
}

/// Returns the index of a session's entry in a log.
fn place_in(log: &[Done], session: u128) -> Option<usize> {
    for (place, held) in log.iter().enumerate() {
        if held.session == session {
            return Some(place);
        }
    }
    None
}

/// Stores an entry in a log, unless the log has an entry of the same session with a greater recorded sequence.
fn put_done(rt: &impl Abort, log: &mut Vec<Done>, done: Done) {
    let Some(place) = place_in(log, done.session) else {
        log.push(done).expect(rt, "memory");
        return;
    };
    let held = log.get_mut(place).expect(rt, "an entry");
    if held.recorded <= done.recorded {
        *held = done;
    }
}

/// The plain model of two peers that exchange messages. The model has a source with its log and backups, a target with
/// its sessions, and the messages. Each list of the model begins with the oldest item.
#[derive(Drop)]
pub(crate) struct PlainWorld {
    pub(crate) source: PlainSide,
    pub(crate) target: PlainSide,
    /// The document that the target refuses.
    pub(crate) deny: Option<usize>,
    /// The documents that are replicated.
    pub(crate) picked: Picked,
    sessions: Sessions,
    pub(crate) log: SourceLog,
    windows: Vec<Rows>,
    asked: Vec<Rows>,
    parcels: Vec<Fetched>,
    entries: Vec<Done>,
    logs: Vec<SourceLog>,
    copies: Vec<Copied>,
    pub(crate) met: Met,
}

impl PlainWorld {
    /// Creates a model of two peers without documents and messages. In the new model, the target accepts every
    /// document, and all documents are replicated.
    pub(crate) fn new(alloc: Global) -> PlainWorld {
        PlainWorld {
            source: PlainSide::new(),
            target: PlainSide::new(),
            deny: None,
            picked: ALL,
            sessions: Sessions::new(alloc),
            log: SourceLog {
                life: 0,
                entries: Vec::new(alloc),
            },
            windows: Vec::new(alloc),
            asked: Vec::new(alloc),
            parcels: Vec::new(alloc),
            entries: Vec::new(alloc),
            logs: Vec::new(alloc),
            copies: Vec::new(alloc),
            met: Met::new(),
        }
    }

    /// Returns the numbers of windows, requests, parcels, log entries and logs among the messages in transit.
    pub(crate) fn sizes(&self) -> (usize, usize, usize, usize, usize) {
        (
            self.windows.len(),
            self.asked.len(),
            self.parcels.len(),
            self.entries.len(),
            self.logs.len(),
        )
    }

    /// Returns the number of backups of the source.
    pub(crate) fn copies(&self) -> usize {
        self.copies.len()
    }

    /// Returns the plain model of the source if `is_source` is true, otherwise the plain model of the target.
    pub(crate) fn side(&mut self, is_source: bool) -> &mut PlainSide {
        if is_source {
            &mut self.source
        } else {
            &mut self.target
        }
    }

    /// Returns the id of the newest session if this session can be continued, and otherwise the next session id. The
    /// newest session can be continued if it has not recorded its goal. If `any_life` is false, the newest session can
    /// be continued only if it also has the source's life.
    pub(crate) fn carried(&self, any_life: bool) -> u128 {
        match self.sessions.begun.last() {
            Some(held)
                if held.done.recorded != held.goal
                    && (any_life || held.done.life == self.log.life) => { held.done.session }
            _ => self.sessions.next(),
        }
    }

    /// Returns the sequence at which a session's last window ends, or 0 if the session does not exist.
    pub(crate) fn end(&self, session: u128) -> u64 {
        match self.sessions.get(session) {
            Some(held) => self.sessions.end(held),
            None => 0,
        }
    }

    /// Returns the log entries of all sessions.
    pub(crate) fn told(&self, rt: &impl Abort, alloc: Global) -> Vec<Done> {
        let mut all = Vec::new(alloc);
        for session in &self.sessions.begun {
            all.push(session.done).expect(rt, "memory");
        }
        all
    }

    /// Returns the ledger rows of a session.
    pub(crate) fn ledger(&self, rt: &impl Abort, alloc: Global, session: u128) -> Vec<Row> {
        let mut rows = Vec::new(alloc);
        for (of, row) in &self.sessions.ledger {
            if *of == session {
                rows.push(*row).expect(rt, "memory");
            }
        }
        rows
    }

    // ---- steps

    /// Adds a child of `parent` to the document `EDITED`, if `parent` is the document's only leaf. Without a parent,
    /// adds the first revision if the document does not exist.
    pub(crate) fn edit(&mut self, at_source: bool, parent: Option<usize>) {
        let side = self.side(at_source);
        let leaves = side.tree(EDITED).leaf_mask();
        match parent {
            Some(parent) if leaves == mask_of(&[parent]) => {
                side.merge(EDITED, &[parent.saturating_add(3), parent], false);
            }
            None if leaves == 0 => {
                side.merge(EDITED, &[0], false);
            }
            _ => {}
        }
    }

    /// Reads the source's log.
    pub(crate) fn read_log(&mut self, rt: &impl Abort, alloc: Global) {
        let log = self.log.copy(rt, alloc);
        self.logs.push(log).expect(rt, "memory");
    }

    /// Begins a session from a log that is in transit. The call has no effect if the log does not exist, or if
    /// `Sessions::begin` does not begin the session.
    pub(crate) fn begin(
        &mut self,
        rt: &impl Abort,
        session: u128,
        log: usize,
        goal: u64,
        time: u64,
    ) {
        if let Some(log) = self.logs.get(log) {
            let before = self.sessions.begun.len();
            self.sessions.begin(rt, session, log, goal, time);
            if before < self.sessions.begun.len() && log.life != self.log.life {
                self.met.begins = self.met.begins.saturating_add(1);
            }
        }
    }

    /// Reads a page of the source, if the limit is not 0 and the page's range is valid.
    pub(crate) fn page(&mut self, rt: &impl Abort, since: u64, goal: u64, limit: u64) {
        if limit != 0 && since < goal && goal <= self.source.update_seq {
            let life = self.log.life;
            let rows = page(&self.source, life, since, goal, limit, self.picked);
            self.windows.push(rows).expect(rt, "memory");
        }
    }

    /// Stores a window from the messages in transit in a session.
    pub(crate) fn append(&mut self, rt: &impl Abort, session: u128, window: usize) {
        if let Some(rows) = self.windows.get(window) {
            self.sessions.append(rt, session, *rows);
            let life = self.sessions.get(session).map(|held| held.done.life);
            if life.is_some() && life != Some(rows.life) {
                self.met.windows = self.met.windows.saturating_add(1);
            }
        }
    }

    /// Requests those leaves of a window that the target lacks.
    pub(crate) fn diff(&mut self, rt: &impl Abort, window: usize) {
        if let Some(rows) = self.windows.get(window) {
            let asked = missing(&self.target, rows);
            self.asked.push(asked).expect(rt, "memory");
        }
    }

    /// Fetches the documents for a request.
    pub(crate) fn fetch(&mut self, rt: &impl Abort, asked: usize) {
        if let Some(asked) = self.asked.get(asked) {
            let fetched = Fetched {
                asked: *asked,
                source: self.source,
            };
            self.parcels.push(fetched).expect(rt, "memory");
        }
    }

    /// Settles a parcel for a session, if the session has the parcel's window.
    pub(crate) fn settle(&mut self, rt: &impl Abort, alloc: Global, session: u128, parcel: usize) {
        if let Some(fetched) = self.parcels.get(parcel) {
            let (target, sessions) = (&mut self.target, &mut self.sessions);
            settle(rt, alloc, target, sessions, self.deny, session, fetched);
        }
    }

    /// Records or concludes a session, and adds the session's log entry to the messages in transit.
    pub(crate) fn record(&mut self, rt: &impl Abort, session: u128, concludes: bool, time: u64) {
        if let Some(done) = self.sessions.record(session, concludes, time) {
            self.entries.push(done).expect(rt, "memory");
        }
    }

    /// Stores an entry in the source's log, if the entry has the source's current life (incarnation). If the log has an
    /// entry of the same session with a greater recorded sequence, the call changes nothing.
    pub(crate) fn put_entry(&mut self, rt: &impl Abort, entry: usize) {
        if let Some(entry) = self.entries.get(entry) {
            if entry.life == self.log.life {
                put_done(rt, &mut self.log.entries, *entry);
            } else {
                self.met.entries = self.met.entries.saturating_add(1);
            }
        }
    }

    /// Backs up the source.
    pub(crate) fn back_up(&mut self, rt: &impl Abort, alloc: Global) {
        let copied = Copied {
            side: self.source,
            log: self.log.copy(rt, alloc),
        };
        self.copies.push(copied).expect(rt, "memory");
    }

    /// Restores the source from a backup. The restored source has a new life (incarnation number), which is greater
    /// than the lives of the source and of the backup.
    pub(crate) fn restore(&mut self, rt: &impl Abort, alloc: Global, copy: usize) {
        if let Some(copied) = self.copies.get(copy) {
            if self.windows.len() > 0 || self.entries.len() > 0 || self.logs.len() > 0 {
                self.met.restores = self.met.restores.saturating_add(1);
            }
            let life = self.log.life.max(copied.log.life).saturating_add(1);
            self.source = copied.side;
            self.log = copied.log.copy(rt, alloc);
            self.log.life = life;
        }
    }

    /// Loses all messages, but keeps the backups.
    pub(crate) fn crash(&mut self) {
        self.windows.clear();
        self.asked.clear();
        self.parcels.clear();
        self.entries.clear();
        self.logs.clear();
    }
}
