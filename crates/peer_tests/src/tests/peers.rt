//! Performs calls on peers in a test fixture. The fixture holds the peers, their backups, and the pages, requests and
//! parcels that calls returned.
use crate::tests::databases::{
    Held, edit_text, keep_asked, keep_parcel, keep_window, made_text, node, parent_of, put_text,
    tree,
};
use crate::tests::records::{
    common_text, entry_text, fault_text, log_text, report_text, settled_text,
};
use crate::tests::texts::{
    base_fault_text, body, doc, expect_answer, numbers_text, place_text, stored_text,
};
use crate::tests::{backups, large, plans};
use couch_base::{Asked, Parcel, Window};
use doc_json::DocId;
use repl_log::{Entry, Moment, RepId};
use repl_target::{Audit, Backup, Peer, Rules, Scope, WriteFilter, audit, hole_above};
use rev_tree::SessionId;
use std::alloc::{AllocError, Global};
use std::process::Abort;
use test_support::{bare_entry, rev, shown};

/// A replication of all documents, given by the UUIDs of the source and the target.
#[derive(Clone, Copy)]
pub(crate) struct Rep {
    pub(crate) source: u128,
    pub(crate) target: u128,
}

impl Rep {
    /// Returns the replication id.
    pub(crate) fn id(self) -> RepId {
        RepId {
            source: self.source,
            target: self.target,
            chosen: None,
        }
    }
}

/// The parameters of a session: the replication, the base, the start and the goal.
#[derive(Clone, Copy)]
pub(crate) struct Beginning {
    pub(crate) rep: Rep,
    pub(crate) base: Option<SessionId>,
    pub(crate) start: u64,
    pub(crate) goal: u64,
}

/// A call on a peer. A call names each peer, window, request or parcel by an index.
#[derive(Clone, Copy)]
pub(crate) enum Call<'a> {
    /// Create a peer with a UUID and a filter, and append the peer to the test's list of peers. If a prefix is given,
    /// the filter refuses the documents whose ids begin with the prefix.
    Peer(u128, Option<&'a str>),
    /// Create a peer whose database has a given update sequence, and append the peer to the test's list of peers.
    PeerAt(u128, Option<&'a str>, u64),
    /// Load a document.
    Load(usize, &'a str),
    /// Edit a document, given the document's id, the parent revision (an empty string for none), the deleted flag, and
    /// the body.
    Edit(usize, &'a str, &'a str, bool, &'a str),
    /// Read the UUID and the update sequence of a peer's database.
    Numbers(usize),
    /// Read the life of the peer's database, a number that rises when the peer is restored.
    Life(usize),
    /// Read the tree of a document.
    Tree(usize, &'a str),
    /// Read a revision of a document.
    Node(usize, &'a str, &'a str),
    /// Read the filter's verdict on a document.
    Verdict(usize, &'a str),
    /// Read whether a peer covers a revision of a document. A peer covers a revision if the revision is in the
    /// document's tree, or in an ancestry of the document in a session's ledger.
    Covered(usize, &'a str, &'a str),
    /// Read a page of at most 500 rows, given the sequence before the page and the goal. The call appends the page to
    /// the test's list of windows.
    Page(usize, u64, u64),
    /// Compute which leaves in a window a peer lacks, and append the request for these leaves to the test's list of
    /// requests.
    Diff(usize, usize),
    /// Fetch requested documents from a peer, and append the parcel (the fetched documents) to the test's list of
    /// parcels.
    Fetch(usize, usize),
    /// Begin a session, given the session's parameters and a timestamp.
    Begin(usize, SessionId, Beginning, u64),
    /// Append a copy of a window to a session.
    Append(usize, SessionId, usize),
    /// Settle a copy of a parcel in a session.
    Settle(usize, SessionId, usize),
    /// Record a session, given a timestamp.
    Record(usize, SessionId, u64),
    /// Conclude a session, given a timestamp.
    Conclude(usize, SessionId, u64),
    /// Read the entry of a session.
    Entry(usize, SessionId),
    /// Read the windows of a session, and whether each window still has its complete rows.
    Windows(usize, SessionId),
    /// Read a replication's log from the peer that is the replication's target.
    TargetLog(usize, Rep),
    /// Read a replication's log from the peer that is the replication's source.
    SourceLog(usize, Rep),
    /// Create an entry with a given session and recorded sequence, and store the entry in a source's log of a
    /// replication.
    PutEntry(usize, Rep, SessionId, u64),
    /// Read a session's entry at the target, and store the entry in the source's log of a replication.
    PutEntryOf(usize, Rep, usize, SessionId),
    /// Back up a peer, and append the backup to the test's list of backups. The call returns the UUID and the update
    /// sequence of the backed-up database.
    Backup(usize),
    /// Restore a peer from a backup.
    Restore(usize, usize),
    /// Compare the source's and the target's log of a replication.
    Common(usize, usize, Rep),
    /// Audit a replication from the first peer, the source, into the second peer, the target.
    Audit(usize, usize),
    /// Check whether a plan is valid for two peers, given the maximum number of rows of each window of the plan.
    CheckPlan(usize, usize, u64),
    /// Begin the session of a new plan, given the session id and a timestamp. The first peer is the source, and the
    /// second peer is the target.
    BeginPlan(SessionId, u64),
    /// Read a session's entry at the second peer, the target, and store the entry in the log of the first peer, the
    /// source.
    RecordAtSource(SessionId),
    /// Search the first peer's feed above a sequence for the first leaf that the second peer does not cover.
    HoleAbove(usize, usize, u64),
    /// Replicate the first peer into the second peer, given the session id and the maximum number of rows of a window.
    Replicate(SessionId, u64),
    /// Load the document d with an ancestry of a given number of revisions.
    LoadLong(usize, u32),
    /// Load a given number of leaves of the document d.
    LoadWide(usize, u32),
    /// Create the document d with a body of a given number of letters.
    EditLarge(usize, usize),
    /// Read the size of the tree of the document d.
    Sizes(usize),
}

/// The calls of a test, each with the expected result.
pub(crate) type Rows = &'static [(Call<'static>, &'static str)];

/// Lists of calls that are performed in order.
///
/// A test refers to a single static variable, which contains all lists of calls of the test. If a test referred to
/// several static variables, the prover would process each variable separately.
pub(crate) type Lists = &'static [Rows];

/// The peers of a test, the backups of the peers, and the windows, requests and parcels that calls returned.
#[derive(Drop)]
struct Bench {
    alloc: Global,
    peers: Vec<Peer<Rules>>,
    backups: Vec<Backup>,
    held: Held,
}

impl Bench {
    /// Creates the fixture of a test that has no peers yet.
    fn new(alloc: Global) -> Bench {
        Bench {
            alloc,
            peers: Vec::new(alloc),
            backups: Vec::new(alloc),
            held: Held::new(alloc),
        }
    }

    /// Performs the calls in order, and asserts that each call returns the expected result.
    fn run(&mut self, rt: &impl Abort, calls: &[(Call, &str)]) {
        for (i, (call, wanted)) in calls.iter().enumerate() {
            expect_answer(rt, i, self.answer(call), wanted);
        }
    }

    /// Performs a call, and returns the call's result as a string.
    fn answer(&mut self, call: &Call) -> Option<String> {
        match *call {
            Call::Peer(uuid, deny) => make(self.alloc, &mut self.peers, uuid, deny),
            Call::PeerAt(uuid, deny, seq) => make_at(self.alloc, &mut self.peers, uuid, deny, seq),
            Call::Backup(at) => {
                backups::back_up(self.alloc, self.peers.get(at), &mut self.backups)
            }
            Call::Restore(at, backup) => backups::restore_at(
                self.alloc,
                self.peers.get_mut(at),
                self.backups.get(backup),
            ),
            other => self.answer_of(place_of(&other), &other),
        }
    }

    /// Performs a call on the peer with the index `place`, or on two peers if `place` is `None`.
    fn answer_of(&mut self, place: Option<usize>, call: &Call) -> Option<String> {
        let Some(at) = place else {
            return of_two(self.alloc, &mut self.peers, call);
        };
        match self.peers.get_mut(at) {
            Some(peer) => of_one(self.alloc, peer, &mut self.held, call),
            None => None,
        }
    }
}

/// Returns the index of the peer that a call uses, if the call uses exactly one peer.
fn place_of(call: &Call) -> Option<usize> {
    match *call {
        Call::Load(at, _)
        | Call::Edit(at, _, _, _, _)
        | Call::Numbers(at)
        | Call::Life(at)
        | Call::Tree(at, _)
        | Call::Node(at, _, _)
        | Call::Verdict(at, _)
        | Call::Covered(at, _, _)
        | Call::Page(at, _, _)
        | Call::Diff(at, _)
        | Call::Fetch(at, _)
        | Call::Begin(at, _, _, _)
        | Call::Append(at, _, _)
        | Call::Settle(at, _, _)
        | Call::Record(at, _, _)
        | Call::Conclude(at, _, _)
        | Call::Entry(at, _)
        | Call::Windows(at, _)
        | Call::TargetLog(at, _)
        | Call::SourceLog(at, _)
        | Call::PutEntry(at, _, _, _)
        | Call::LoadLong(at, _)
        | Call::LoadWide(at, _)
        | Call::EditLarge(at, _)
        | Call::Sizes(at) => Some(at),
        _ => None,
    }
}

/// Performs a call on one peer.
fn of_one(alloc: Global, peer: &mut Peer<Rules>, held: &mut Held, call: &Call) -> Option<String> {
    match *call {
        Call::Page(_, since, goal) => page(alloc, peer, &mut held.windows, since, goal),
        Call::Diff(_, window) => diff(alloc, peer, held, window),
        Call::Fetch(_, asked) => fetch(alloc, peer, held, asked),
        Call::Append(_, session, window) => {
            append(alloc, peer, session, held.windows.get(window))
        }
        Call::Settle(_, session, parcel) => {
            settle(alloc, peer, session, held.parcels.get(parcel))
        }
        other => of_one_alone(alloc, peer, &other),
    }
}

/// Performs, on one peer, a call that needs no stored window, request or parcel.
fn of_one_alone(alloc: Global, peer: &mut Peer<Rules>, call: &Call) -> Option<String> {
    match *call {
        Call::Load(_, text) => load(alloc, peer, text),
        Call::Edit(_, id, parent, deleted, text) => edit(alloc, peer, id, parent, deleted, text),
        Call::Begin(_, session, how, moment) => begin(alloc, peer, session, how, moment),
        Call::Record(_, session, moment) => record(alloc, peer, session, moment),
        Call::Conclude(_, session, moment) => conclude(alloc, peer, session, moment),
        Call::PutEntry(_, rep, session, recorded) => {
            put_entry(alloc, peer, &rep.id(), session, recorded)
        }
        Call::LoadLong(_, length) => large::load_long(alloc, peer, length),
        Call::LoadWide(_, leaves) => large::load_wide(alloc, peer, leaves),
        Call::EditLarge(_, letters) => large::edit_large(alloc, peer, letters),
        reading => read(alloc, peer, &reading),
    }
}

/// Performs a read-only call on one peer.
fn read(alloc: Global, peer: &Peer<Rules>, call: &Call) -> Option<String> {
    match *call {
        Call::Numbers(_) => numbers_text(alloc, peer.db()),
        Call::Life(_) => shown(alloc, &peer.db().life()),
        Call::Tree(_, id) => tree(alloc, peer.db(), id),
        Call::Node(_, id, rev) => node(alloc, peer.db(), id, rev),
        Call::Verdict(_, text) => verdict(alloc, peer, text),
        Call::Covered(_, id, rev) => covered(alloc, peer, id, rev),
        Call::Sizes(_) => large::sizes(alloc, peer),
        Call::Entry(_, session) => entry(alloc, peer, session),
        Call::Windows(_, session) => windows(alloc, peer, session),
        Call::TargetLog(_, rep) => target_log(alloc, peer, &rep.id()),
        Call::SourceLog(_, rep) => source_log(alloc, peer, &rep.id()),
        _ => None,
    }
}

/// Performs a call on two peers.
fn of_two(alloc: Global, peers: &mut Vec<Peer<Rules>>, call: &Call) -> Option<String> {
    match *call {
        Call::PutEntryOf(at, rep, target, session) => {
            put_of(alloc, peers, at, &rep.id(), target, session)
        }
        Call::Common(source, target, _)
        | Call::Audit(source, target)
        | Call::CheckPlan(source, target, _)
        | Call::HoleAbove(source, target, _) => {
            match (peers.get(source), peers.get(target)) {
                (Some(source), Some(target)) => compare(alloc, source, target, call),
                _ => None,
            }
        }
        _ => of_first_two(alloc, peers, call),
    }
}

/// Performs a read-only call on a source and a target.
fn compare(
    alloc: Global,
    source: &Peer<Rules>,
    target: &Peer<Rules>,
    call: &Call,
) -> Option<String> {
    match *call {
        Call::Common(_, _, rep) => agreed(alloc, source, target, &rep.id()),
        Call::Audit(_, _) => found_text(alloc, audit(alloc, source, target, None)),
        Call::CheckPlan(_, _, batch) => plans::check(alloc, source, target, batch),
        Call::HoleAbove(_, _, since) => {
            found_text(alloc, hole_above(alloc, source, target, since, None))
        }
        _ => None,
    }
}

/// Performs a call on the first two peers, the source and the target.
fn of_first_two(alloc: Global, peers: &mut Vec<Peer<Rules>>, call: &Call) -> Option<String> {
    let Some((source, others)) = peers.split_first_mut() else {
        return None;
    };
    let Some(target) = others.first_mut() else {
        return None;
    };
    match *call {
        Call::BeginPlan(session, moment) => plans::begin(alloc, source, target, session, moment),
        Call::RecordAtSource(session) => plans::record(alloc, source, target, session),
        Call::Replicate(session, batch) => large::replicate(alloc, source, target, session, batch),
        _ => None,
    }
}

/// Creates a peer, and appends the peer to the list `peers`.
pub(crate) fn make(
    alloc: Global,
    peers: &mut Vec<Peer<Rules>>,
    uuid: u128,
    deny: Option<&str>,
) -> Option<String> {
    let Some(rules) = rules(alloc, deny) else {
        return None;
    };
    made_text(alloc, peers.push(Peer::new(alloc, uuid, rules)).ok())
}

/// Creates a peer whose database has a given update sequence, and appends the peer to the list `peers`.
pub(crate) fn make_at(
    alloc: Global,
    peers: &mut Vec<Peer<Rules>>,
    uuid: u128,
    deny: Option<&str>,
    seq: u64,
) -> Option<String> {
    let Some(rules) = rules(alloc, deny) else {
        return None;
    };
    match Peer::new_at(alloc, uuid, rules, seq) {
        Ok(peer) => made_text(alloc, peers.push(peer).ok()),
        Err(fault) => base_fault_text(alloc, fault),
    }
}

/// Reads a page of the feed, and appends the page to the list `windows`.
fn page(
    alloc: Global,
    peer: &Peer<Rules>,
    windows: &mut Vec<Window>,
    since: u64,
    goal: u64,
) -> Option<String> {
    match peer.page(alloc, since, goal, 500, None) {
        Ok(window) => keep_window(alloc, windows, window),
        Err(fault) => base_fault_text(alloc, fault),
    }
}

/// Computes which leaves in a window a peer lacks, and stores the request for these leaves.
fn diff(alloc: Global, peer: &Peer<Rules>, held: &mut Held, window: usize) -> Option<String> {
    let Some(window) = held.windows.get(window) else {
        return None;
    };
    keep_asked(alloc, &mut held.asked, missed(alloc, peer, window))
}

/// Returns a peer's request for those leaves of a window that the peer lacks.
fn missed(alloc: Global, peer: &Peer<Rules>, window: &Window) -> Option<Asked> {
    peer.revs_diff(alloc, window).ok()
}

/// Fetches requested documents from a peer, and stores the parcel (the fetched documents).
fn fetch(alloc: Global, peer: &Peer<Rules>, held: &mut Held, asked: usize) -> Option<String> {
    let Some(asked) = held.asked.get(asked) else {
        return None;
    };
    keep_parcel(alloc, &mut held.parcels, fetched(alloc, peer, asked))
}

/// Fetches requested documents from a peer, or returns `None` if an allocation fails.
fn fetched(alloc: Global, peer: &Peer<Rules>, asked: &Asked) -> Option<Parcel> {
    peer.open_revs(alloc, asked).ok()
}

/// Appends a copy of a window to a session. If the test has no window with the index in the call, `window` is `None`,
/// and `append` returns `None`.
fn append(
    alloc: Global,
    peer: &mut Peer<Rules>,
    session: SessionId,
    window: Option<&Window>,
) -> Option<String> {
    let Some(window) = window else {
        return None;
    };
    let Ok(copy) = window.copy(alloc) else {
        return None;
    };
    match peer.append(session, copy) {
        Ok(()) => "appended".to_string(alloc).ok(),
        Err(fault) => fault_text(alloc, fault),
    }
}

/// Calls `Peer::settle` for a session with a copy of a parcel (fetched documents), if the parcel exists.
fn settle(
    alloc: Global,
    peer: &mut Peer<Rules>,
    session: SessionId,
    parcel: Option<&Parcel>,
) -> Option<String> {
    let Some(parcel) = parcel else {
        return None;
    };
    let Ok(copy) = parcel.copy(alloc) else {
        return None;
    };
    match peer.settle(session, copy) {
        Ok(settled) => settled_text(alloc, settled),
        Err(fault) => fault_text(alloc, fault),
    }
}

/// Reads a session's entry at the target, and stores the entry in the source's log of a replication.
fn put_of(
    alloc: Global,
    peers: &mut Vec<Peer<Rules>>,
    at: usize,
    rep: &RepId,
    target: usize,
    session: SessionId,
) -> Option<String> {
    let Some(target) = peers.get(target) else {
        return None;
    };
    let Ok(entry) = target.entry(session) else {
        return None;
    };
    let Some(source) = peers.get_mut(at) else {
        return None;
    };
    put(alloc, source, rep, entry)
}

/// Compares the source's and the target's log of a replication.
pub(crate) fn agreed(
    alloc: Global,
    source: &Peer<Rules>,
    target: &Peer<Rules>,
    rep: &RepId,
) -> Option<String> {
    let Ok(outgoing) = source.source_log(alloc, rep) else {
        return None;
    };
    let Ok(incoming) = target.target_log(alloc, rep) else {
        return None;
    };
    common_text(alloc, &outgoing, &incoming)
}

/// Reads a replication's log from the peer that is the replication's target.
pub(crate) fn target_log(alloc: Global, peer: &Peer<Rules>, rep: &RepId) -> Option<String> {
    let Ok(log) = peer.target_log(alloc, rep) else {
        return None;
    };
    log_text(alloc, &log)
}

/// Reads a replication's log from the peer that is the replication's source.
pub(crate) fn source_log(alloc: Global, peer: &Peer<Rules>, rep: &RepId) -> Option<String> {
    let Ok(log) = peer.source_log(alloc, rep) else {
        return None;
    };
    log_text(alloc, &log)
}

/// Performs lists of calls, beginning without peers, and asserts that each call returns the expected result.
pub(crate) fn expect(rt: &impl Abort, alloc: Global, lists: &[Rows]) {
    let mut bench = Bench::new(alloc);
    for calls in lists {
        bench.run(rt, calls);
    }
}

/// Creates the filter that refuses document ids with a prefix.
fn rules(alloc: Global, deny: Option<&str>) -> Option<Rules> {
    match deny {
        Some(prefix) => match prefix.to_string(alloc) {
            Ok(prefix) => Some(Rules { deny: Some(prefix) }),
            Err(_) => None,
        },
        None => Some(Rules { deny: None }),
    }
}

/// Returns the result of an audit as a string, or `None` if an allocation failed.
pub(crate) fn found_text(alloc: Global, found: Result<Audit, AllocError>) -> Option<String> {
    match found {
        Ok(Audit::Clean) => "clean".to_string(alloc).ok(),
        Ok(Audit::Hole { seq, id, rev }) => place_text(alloc, "hole", seq, &id, rev),
        Err(AllocError) => None,
    }
}

/// Loads a document.
pub(crate) fn load(alloc: Global, peer: &mut Peer<Rules>, text: &str) -> Option<String> {
    let Some(doc) = doc(alloc, text) else {
        return None;
    };
    put_text(alloc, peer.load(&doc))
}

/// Edits a document.
fn edit(
    alloc: Global,
    peer: &mut Peer<Rules>,
    id: &str,
    parent: &str,
    deleted: bool,
    text: &str,
) -> Option<String> {
    let Ok(id) = DocId::parse(alloc, id) else {
        return None;
    };
    let Some(parent) = parent_of(parent) else {
        return None;
    };
    let Some(body) = body(alloc, text) else {
        return None;
    };
    edit_text(alloc, peer.edit(&id, parent, deleted, &body))
}

/// Begins a session.
fn begin(
    alloc: Global,
    peer: &mut Peer<Rules>,
    session: SessionId,
    how: Beginning,
    moment: u64,
) -> Option<String> {
    let Ok(at) = Moment::new(moment) else {
        return None;
    };
    let scope = Scope {
        rep: how.rep.id(),
        life: 0,
        base: how.base,
        goal: how.goal,
    };
    let beginning = repl_target::Beginning {
        scope,
        start: how.start,
    };
    match peer.begin(session, beginning, at) {
        Ok(()) => "begun".to_string(alloc).ok(),
        Err(fault) => fault_text(alloc, fault),
    }
}

/// Records a session.
fn record(
    alloc: Global,
    peer: &mut Peer<Rules>,
    session: SessionId,
    moment: u64,
) -> Option<String> {
    let Ok(at) = Moment::new(moment) else {
        return None;
    };
    match peer.record(session, at) {
        Ok(recorded) => shown(alloc, &recorded),
        Err(fault) => fault_text(alloc, fault),
    }
}

/// Concludes a session.
fn conclude(
    alloc: Global,
    peer: &mut Peer<Rules>,
    session: SessionId,
    moment: u64,
) -> Option<String> {
    let Ok(at) = Moment::new(moment) else {
        return None;
    };
    match peer.conclude(session, at) {
        Ok(report) => report_text(alloc, report),
        Err(fault) => fault_text(alloc, fault),
    }
}

/// Stores an entry of a session that read 0 documents and recorded the given sequence.
fn put_entry(
    alloc: Global,
    peer: &mut Peer<Rules>,
    rep: &RepId,
    session: SessionId,
    recorded: u64,
) -> Option<String> {
    let Ok(at) = Moment::new(10) else {
        return None;
    };
    put(alloc, peer, rep, bare_entry(session, recorded, at))
}

/// Stores an entry.
fn put(alloc: Global, peer: &mut Peer<Rules>, rep: &RepId, entry: Entry) -> Option<String> {
    match peer.put_entry(rep, entry) {
        Ok(()) => "put".to_string(alloc).ok(),
        Err(fault) => fault_text(alloc, fault),
    }
}

/// Returns, as a string, the log entry of a session of the peer, or the error.
pub(crate) fn entry(alloc: Global, peer: &Peer<Rules>, session: SessionId) -> Option<String> {
    match peer.entry(session) {
        Ok(entry) => entry_text(alloc, entry),
        Err(fault) => fault_text(alloc, fault),
    }
}

/// Returns, as a string, the verdict of the peer's filter on a document.
fn verdict(alloc: Global, peer: &Peer<Rules>, text: &str) -> Option<String> {
    let Some(doc) = doc(alloc, text) else {
        return None;
    };
    shown(alloc, &peer.filter().verdict(&doc))
}

/// Returns, as a string, whether a peer covers a revision of a document. A peer covers a revision if the revision is in
/// the document's tree, or in an ancestry of the document in a session's ledger.
fn covered(alloc: Global, peer: &Peer<Rules>, id: &str, text: &str) -> Option<String> {
    let Ok(id) = DocId::parse(alloc, id) else {
        return None;
    };
    let Some(rev) = rev(text) else {
        return None;
    };
    shown(alloc, &peer.covered(&id, rev))
}

/// Returns, as a string, the windows that the peer has stored for a session.
fn windows(alloc: Global, peer: &Peer<Rules>, session: SessionId) -> Option<String> {
    match peer.windows(session) {
        Some(windows) => stored_text(alloc, windows),
        None => None,
    }
}
