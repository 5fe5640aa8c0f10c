//! Compares two peers, their logs and the messages in transit with a plain model (`PlainWorld`), after random lists of
//! steps.
use crate::tests::checks::holds;
use crate::tests::choices::{all_or_some, chosen};
use crate::tests::feeds::{body, document_by_chance, id};
use crate::tests::merges::below;
use crate::tests::pairs::prefix;
use crate::tests::plain_sides::PlainSide;
use crate::tests::plain_worlds::{Done, EDITED, Met, PlainWorld};
use crate::tests::sides::{agrees, has_ledger};
use couch_base::Database;
use doc_json::Chosen;
use rand_chacha::ChaCha8Rng;
use rand_core::SeedableRng;
use repl_log::{Entry, Log, Moment, RepId};
use repl_target::{Audit, Peer, Rules, audit};
use repl_world::{Step, World};
use rev_core::{Rev, new_rev};
use rev_tree::SessionId;
use std::alloc::Global;
use std::process::Abort;

/// The number of steps in each random list of steps.
const STEPS: usize = 80;

/// Each random list of steps begins with `LOADS` steps that load a document into the source.
const LOADS: usize = 4;

/// A generator of random steps. The generator performs each generated step on its model.
#[derive(Drop)]
struct Dealer {
    alloc: Global,
    rng: ChaCha8Rng,
    /// The revisions of the document `EDITED`, oldest first.
    chain: Vec<Rev>,
    model: PlainWorld,
    /// The number of generated steps. The field `turn` counts only the generated steps that follow the order of a
    /// replication.
    number: usize,
    turn: usize,
}

/// Creates a timestamp.
fn moment(rt: &impl Abort, seconds: usize) -> Moment {
    Moment::new(seconds as u64).expect(rt, "a moment")
}

impl Dealer {
    /// Creates a generator of random steps that has not yet generated a step.
    fn new(alloc: Global, seed: u64) -> Dealer {
        Dealer {
            alloc,
            rng: ChaCha8Rng::seed_from_u64(seed),
            chain: Vec::new(alloc),
            model: PlainWorld::new(alloc),
            number: 0,
            turn: 0,
        }
    }

    /// Chooses the document that the target refuses, if any, and the documents that are replicated.
    fn pick(&mut self) {
        let number = below(&mut self.rng, 8);
        if number < EDITED {
            self.model.deny = Some(number);
        }
        self.model.picked = all_or_some(&mut self.rng);
    }

    /// Returns the last index of a list with `length` items. Sometimes, the call returns a random number below 5
    /// instead, which may be out of range.
    fn place(&mut self, length: usize) -> usize {
        if below(&mut self.rng, 6) == 0 {
            below(&mut self.rng, 5)
        } else {
            length.saturating_sub(1)
        }
    }

    /// Usually returns the id of the session to continue, but sometimes returns a random id.
    fn session(&mut self) -> u128 {
        if below(&mut self.rng, 8) == 0 {
            below(&mut self.rng, 4) as u128
        } else {
            let any_life = below(&mut self.rng, 3) == 0;
            self.model.carried(any_life)
        }
    }

    /// Returns 0, sometimes 1.
    fn off(&mut self) -> u64 {
        if below(&mut self.rng, 8) == 0 { 1 } else { 0 }
    }

    /// Generates a step that loads a random document.
    fn load(&mut self, rt: &impl Abort, at_source: bool) -> Step {
        let side = self.model.side(at_source);
        let (doc, _answer) = document_by_chance(rt, self.alloc, &mut self.rng, side, EDITED);
        if at_source {
            Step::LoadSource(doc)
        } else {
            Step::ThirdParty(doc)
        }
    }

    /// Returns the index of the parent for an edit (usually the document's leaf), or `None` for an edit without a
    /// parent.
    fn parent(&mut self, at_source: bool) -> Option<usize> {
        let held = self.model.side(at_source).tree(EDITED).count();
        let generation = if below(&mut self.rng, 4) == 0 {
            below(&mut self.rng, 5)
        } else {
            held
        };
        if generation == 0 || 5 < generation {
            None
        } else {
            Some((generation - 1) * 3)
        }
    }

    /// Generates a step that edits the document `EDITED`.
    fn edit(&mut self, rt: &impl Abort, at_source: bool) -> Step {
        let place = self.parent(at_source);
        self.model.edit(at_source, place);
        let parent = match place {
            Some(place) => self.chain.get(place / 3).copied(),
            None => None,
        };
        let deleted = false;
        let (id, body) = (id(rt, self.alloc, EDITED), body(rt, self.alloc));
        if at_source {
            Step::EditSource {
                id,
                parent,
                deleted,
                body,
            }
        } else {
            Step::EditTarget {
                id,
                parent,
                deleted,
                body,
            }
        }
    }

    /// Generates a step that reads the source's log.
    fn read_log(&mut self, rt: &impl Abort) -> Step {
        self.model.read_log(rt, self.alloc);
        Step::ReadLog
    }

    /// Generates a step that begins a session from a log that was read.
    fn begin(&mut self, rt: &impl Abort) -> Step {
        let session = self.session();
        let sizes = self.model.sizes();
        let log = self.place(sizes.4);
        let goal = self.model.source.update_seq;
        self.model.begin(rt, session, log, goal, self.number as u64);
        Step::Begin {
            session: SessionId(session),
            log,
            goal,
            at: moment(rt, self.number),
        }
    }

    /// Generates a step that reads a page, usually the next page of a session.
    fn page(&mut self, rt: &impl Abort) -> Step {
        let since = if below(&mut self.rng, 4) == 0 {
            below(&mut self.rng, 5) as u64
        } else {
            let session = self.session();
            self.model.end(session)
        };
        let off = self.off();
        let goal = self.model.source.update_seq.saturating_add(off);
        let limit = below(&mut self.rng, 3) as u64 % 3 + 1;
        self.model.page(rt, since, goal, limit);
        Step::Page { since, goal, limit }
    }

    /// Generates a step that stores a window in a session.
    fn append(&mut self, rt: &impl Abort) -> Step {
        let session = self.session();
        let sizes = self.model.sizes();
        let window = self.place(sizes.0);
        self.model.append(rt, session, window);
        Step::Append {
            session: SessionId(session),
            window,
        }
    }

    /// Generates a step that requests leaves of a window.
    fn diff(&mut self, rt: &impl Abort) -> Step {
        let sizes = self.model.sizes();
        let window = self.place(sizes.0);
        self.model.diff(rt, window);
        Step::Diff { window }
    }

    /// Generates a step that fetches the documents for a request.
    fn fetch(&mut self, rt: &impl Abort) -> Step {
        let sizes = self.model.sizes();
        let asked = self.place(sizes.1);
        self.model.fetch(rt, asked);
        Step::Fetch { asked }
    }

    /// Generates a step that settles a parcel.
    fn settle(&mut self, rt: &impl Abort) -> Step {
        let session = self.session();
        let sizes = self.model.sizes();
        let parcel = self.place(sizes.2);
        self.model.settle(rt, self.alloc, session, parcel);
        Step::Settle {
            session: SessionId(session),
            parcel,
        }
    }

    /// Generates a step that records or concludes a session.
    fn record(&mut self, rt: &impl Abort, concludes: bool) -> Step {
        let session = self.session();
        self.model
            .record(rt, session, concludes, self.number as u64);
        let at = moment(rt, self.number);
        let session = SessionId(session);
        if concludes {
            Step::Conclude { session, at }
        } else {
            Step::Record { session, at }
        }
    }

    /// Generates a step that stores an entry in the source's log.
    fn put_entry(&mut self, rt: &impl Abort) -> Step {
        let sizes = self.model.sizes();
        let entry = self.place(sizes.3);
        self.model.put_entry(rt, entry);
        Step::PutEntry { entry }
    }

    /// Generates a step that backs up the source.
    fn back_up(&mut self, rt: &impl Abort) -> Step {
        self.model.back_up(rt, self.alloc);
        Step::Backup
    }

    /// Generates a step that restores the source from a backup.
    fn restore(&mut self, rt: &impl Abort) -> Step {
        let copies = self.model.copies();
        let backup = self.place(copies);
        self.model.restore(rt, self.alloc, backup);
        Step::Restore { backup }
    }

    /// Generates a crash, which loses all messages.
    fn crash(&mut self) -> Step {
        self.model.crash();
        Step::Crash
    }

    /// Generates one of the nine steps of a replication. The steps are counted from 0, and the call generates step
    /// `turn % 9`.
    fn carry_on(&mut self, rt: &impl Abort, turn: usize) -> Step {
        match turn % 9 {
            0 => self.read_log(rt),
            1 => self.begin(rt),
            2 => self.page(rt),
            3 => self.append(rt),
            4 => self.diff(rt),
            5 => self.fetch(rt),
            6 => self.settle(rt),
            7 => self.record(rt, false),
            _ => self.put_entry(rt),
        }
    }

    /// Generates a step of the given kind, for example a load, an edit, a backup, or a random step of a replication.
    fn odd(&mut self, rt: &impl Abort, kind: usize) -> Step {
        match kind {
            0 | 1 => self.load(rt, true),
            2 => self.load(rt, false),
            3 => self.edit(rt, true),
            4 => self.edit(rt, false),
            5 => self.record(rt, true),
            6 if below(&mut self.rng, 4) == 0 => self.crash(),
            7 => self.back_up(rt),
            8 => self.restore(rt),
            _ => {
                let turn = below(&mut self.rng, 9);
                self.carry_on(rt, turn)
            }
        }
    }

    /// Generates the next step.
    fn next(&mut self, rt: &impl Abort) -> Step {
        self.number = self.number.saturating_add(1);
        let kind = below(&mut self.rng, 26);
        if self.number <= LOADS {
            return self.load(rt, true);
        }
        if kind < 11 {
            return self.odd(rt, kind);
        }
        let turn = self.turn;
        self.turn = turn.saturating_add(1);
        self.carry_on(rt, turn)
    }
}

/// Computes the revisions of the document `EDITED`, because the model represents revisions by indices and computes no
/// signatures.
fn make_chain(rt: &impl Abort, alloc: Global, chain: &mut Vec<Rev>) {
    for _ in 0..6u64 {
        let parent = chain.last().copied();
        let rev = new_rev(alloc, parent, false, b"{}").expect(rt, "a revision");
        chain.push(rev).expect(rt, "memory");
    }
}

/// Generates a list of steps.
fn deal(rt: &impl Abort, alloc: Global, dealer: &mut Dealer) -> Vec<Step> {
    let mut steps = Vec::new(alloc);
    for _ in 0..STEPS {
        steps.push(dealer.next(rt)).expect(rt, "memory");
    }
    steps
}

// ---- comparing

/// Whether a database has exactly the first `held` revisions of the document `EDITED`.
fn has_chain(rt: &impl Abort, alloc: Global, db: &Database, held: usize, chain: &[Rev]) -> bool {
    match db.tree(&id(rt, alloc, EDITED)) {
        Some(tree) => {
            let leaf = chain.get(held.saturating_sub(1)).copied();
            tree.rev_count() == held && tree.leaf_count() == 1 && tree.winner() == leaf
        }
        None => held == 0,
    }
}

/// Converts a log entry to the plain model's form of an entry.
fn done_of(entry: &Entry) -> Done {
    Done {
        session: entry.session.0,
        life: entry.life,
        start: entry.start,
        recorded: entry.recorded,
        moments: (entry.start_time.seconds(), entry.end_time.seconds()),
        checked: entry.counts.checked,
        found: entry.counts.found,
        written: entry.counts.written,
        failures: entry.counts.failures,
    }
}

/// Whether a log has exactly the expected entries. The entries of the log are newest first, and the expected entries in
/// the list `wanted` are oldest first.
fn is_log(log: &Log, wanted: &[Done]) -> bool {
    let mut same = log.len() == wanted.len();
    for (place, done) in wanted.iter().rev().enumerate() {
        same = same && log.get(place).map(|entry| done_of(&entry)) == Some(*done);
    }
    same
}

/// Asserts that a peer has the expected documents.
fn compare_documents(
    rt: &impl Abort,
    alloc: Global,
    peer: &Peer<Rules>,
    wanted: &PlainSide,
    chain: &[Rev],
) {
    holds(rt, agrees(rt, alloc, peer, wanted, EDITED), "the documents");
    let held = wanted.tree(EDITED).count();
    holds(
        rt,
        has_chain(rt, alloc, peer.db(), held, chain),
        "the edits",
    );
}

/// Asserts that a log has exactly the expected entries, which are given oldest first.
fn compare_log(rt: &impl Abort, log: Option<Log>, wanted: &[Done]) {
    let log = log.expect(rt, "a log");
    holds(rt, is_log(&log, wanted), "a log");
}

/// Asserts that the entries of the target's sessions agree with the model.
fn compare_sessions(
    rt: &impl Abort,
    alloc: Global,
    target: &Peer<Rules>,
    rep: &RepId,
    model: &PlainWorld,
) {
    let told = model.told(rt, alloc);
    compare_log(rt, target.target_log(alloc, rep).ok(), &told);
    for done in &told {
        compare_ledger(rt, alloc, target, model, done.session);
    }
}

/// Asserts that a session's ledger agrees with the model.
fn compare_ledger(
    rt: &impl Abort,
    alloc: Global,
    target: &Peer<Rules>,
    model: &PlainWorld,
    session: u128,
) {
    let mut wanted = model.ledger(rt, alloc, session);
    let has = has_ledger(rt, alloc, target, SessionId(session), &mut wanted);
    holds(rt, has, "a ledger");
}

/// Audits the replicated documents, and asserts that the audit finds no uncovered leaf. An uncovered leaf is a leaf of
/// the source that the target neither stored nor rejected.
fn is_clean(
    rt: &impl Abort,
    alloc: Global,
    source: &Peer<Rules>,
    target: &Peer<Rules>,
    chosen: Option<&Chosen>,
) {
    match audit(alloc, source, target, chosen) {
        Ok(Audit::Clean) => {}
        _ => rt.panic(format_args!("an audit finds a hole")),
    }
}

/// Asserts that a source and a target agree with the model.
fn compare_peers(
    rt: &impl Abort,
    alloc: Global,
    source: &Peer<Rules>,
    target: &Peer<Rules>,
    dealer: &Dealer,
) {
    let model = &dealer.model;
    let chosen = chosen(rt, alloc, model.picked);
    let rep = RepId::new(1, 2, chosen.as_ref()).expect(rt, "memory");
    compare_documents(rt, alloc, source, &model.source, &dealer.chain);
    compare_documents(rt, alloc, target, &model.target, &dealer.chain);
    compare_log(rt, source.source_log(alloc, &rep).ok(), &model.log.entries);
    holds(rt, source.db().life() == model.log.life, "the life");
    // In this test, each write to the source's database is a local write.
    let writes = source.local_count();
    holds(rt, writes == model.source.update_seq, "the local writes");
    compare_sessions(rt, alloc, target, &rep, model);
    is_clean(rt, alloc, source, target, chosen.as_ref());
}

/// Creates a peer that refuses document ids with a prefix.
fn peer(alloc: Global, uuid: u128, deny: Option<String>) -> Peer<Rules> {
    Peer::new(alloc, uuid, Rules { deny })
}

/// Creates a `World` (two peers and the messages between them) without documents and messages. Replications in this
/// `World` copy the documents in `chosen`, or all documents if `chosen` is `None`.
fn world(
    rt: &impl Abort,
    alloc: Global,
    deny: Option<String>,
    chosen: Option<Chosen>,
) -> World<Rules> {
    let (source, target) = (peer(alloc, 1, None), peer(alloc, 2, deny));
    World::new(alloc, source, target, chosen).expect(rt, "two peers")
}

/// Performs a list of steps on two peers and their messages (`World`), and asserts that the `World` then agrees with
/// the model.
fn take(rt: &impl Abort, alloc: Global, world: &mut World<Rules>, steps: &[Step], dealer: &Dealer) {
    world.run(alloc, steps).expect(rt, "memory");
    holds(rt, world.bag_sizes() == dealer.model.sizes(), "the bag");
    compare_peers(rt, alloc, world.source(), world.target(), dealer);
}

/// Generates a list of steps, and performs the steps on two peers and their messages (`take`). Returns the recorded
/// sequence of the last entry in the model's source log, or 0 if the log is empty.
fn taken(rt: &impl Abort, alloc: Global, dealer: &mut Dealer, world: &mut World<Rules>) -> u64 {
    let steps = deal(rt, alloc, dealer);
    take(rt, alloc, world, &steps, dealer);
    dealer
        .model
        .log
        .entries
        .last()
        .map_or(0, |done| done.recorded)
}

/// Tests the list of steps that a seed generates.
fn of_seed(rt: &impl Abort, alloc: Global, seed: u64, met: &mut Met) -> u64 {
    let mut dealer = Dealer::new(alloc, seed);
    dealer.pick();
    make_chain(rt, alloc, &mut dealer.chain);
    let choice = chosen(rt, alloc, dealer.model.picked);
    let mut world = world(rt, alloc, prefix(rt, alloc, dealer.model.deny), choice);
    let recorded = taken(rt, alloc, &mut dealer, &mut world);
    met.add(&dealer.model.met);
    recorded
}

#[test]
fn lists_of_steps_by_chance_agree(rt: HostRuntime) {
    let mut recorded = 0u64;
    let mut met = Met::new();
    for seed in 0..200u64 {
        recorded = recorded.saturating_add(of_seed(&rt, rt.alloc(), seed, &mut met));
    }
    assert!(rt;
        200 < recorded,
        "{recorded} sequences are recorded at both sides"
    );
    assert!(rt; 48 < met.least(), "{met:?}");
}
