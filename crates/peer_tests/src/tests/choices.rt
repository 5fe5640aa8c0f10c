//! Calls that create and read selections of documents, and replicate the selected documents from a source to a target.
use crate::tests::peers::{agreed, found_text, load, source_log, target_log};
use crate::tests::plans::plan;
use crate::tests::records::{fault_text, report_text};
use crate::tests::texts::{base_fault_text, expect_answer, joined, window_text};
use couch_base::Window;
use doc_json::{Chosen, DocId, is_chosen};
use repl_log::{RepId, rep_id};
use repl_target::{Peer, Plan, Rules, audit, begin_plan, hole_above, rep_between, replicate_alone};
use rev_tree::SessionId;
use std::alloc::Global;
use std::process::Abort;
use test_support::shown;

/// The index of a selection, or `None` for all documents.
pub(crate) type Under = Option<usize>;

/// A call in a test that replicates selected documents from a source to a target. A call names a selection of documents
/// by the selection's index.
#[derive(Clone, Copy)]
pub(crate) enum Call<'a> {
    /// Load a document into the source.
    Load(&'a str),
    /// Load a document into the target.
    LoadTarget(&'a str),
    /// Select documents by id, and append the selection to the test's list of selections.
    Choose(&'a [&'a str]),
    /// Select the documents whose ids are the numbers from 1 to a given number, and append the selection to the test's
    /// list of selections. The list of ids from which `ChooseMany` creates the selection has the id 1 twice.
    ChooseMany(u32),
    /// Copy a selection, and append the copy to the test's list of selections.
    Copy(usize),
    /// Check whether two selections, which are given by their indices, are equal.
    Equal(usize, usize),
    /// Check whether a document is selected.
    Has(Under, &'a str),
    /// Format the id of the replication from the source into the target.
    Text(Under),
    /// Read a page of the source, given the sequence before the page, the goal, and the maximum number of rows to scan.
    Page(u64, u64, u64, Under),
    /// Replicate the source into the target with one thread, given the session id and the maximum number of feed rows
    /// that each window scans.
    Replicate(SessionId, u64, Under),
    /// Begin a session at the target.
    Begin(SessionId, Under),
    /// Append a page of the source to a session at the target, given the sequence before the page and the goal.
    Append(SessionId, u64, u64, Under),
    /// Audit the target.
    Audit(Under),
    /// Search the source's feed above a sequence for the first leaf that the target does not cover.
    HoleAbove(u64, Under),
    /// Compare the source's and the target's log of the replication.
    Common(Under),
    /// Read the log of the replication at the source.
    SourceLog(Under),
    /// Read the log of the replication at the target.
    TargetLog(Under),
}

/// The calls of a test, each with the expected result.
pub(crate) type Rows = &'static [(Call<'static>, &'static str)];

/// A source, a target, and selections.
#[derive(Drop)]
struct Bench {
    alloc: Global,
    source: Peer<Rules>,
    target: Peer<Rules>,
    choices: Vec<Chosen>,
}

impl Bench {
    /// Creates peers without documents, with UUIDs 1 and 2.
    fn new(alloc: Global) -> Bench {
        Bench {
            alloc,
            source: Peer::new(alloc, 1, Rules { deny: None }),
            target: Peer::new(alloc, 2, Rules { deny: None }),
            choices: Vec::new(alloc),
        }
    }

    /// Performs the calls in order, and asserts that each call returns the expected result.
    fn run(&mut self, rt: &impl Abort, calls: &[(Call, &str)]) {
        for (i, (call, wanted)) in calls.iter().enumerate() {
            expect_answer(rt, i, self.answer(call), wanted);
        }
    }

    /// Performs a call, and returns the call's result as a string.
    fn answer(&mut self, call: &Call) -> Option<String> {
        match *call {
            Call::Load(text) => load(self.alloc, &mut self.source, text),
            Call::LoadTarget(text) => load(self.alloc, &mut self.target, text),
            Call::Choose(names) => choose(self.alloc, &mut self.choices, names),
            Call::ChooseMany(count) => choose_many(self.alloc, &mut self.choices, count),
            Call::Copy(at) => copy(self.alloc, &mut self.choices, at),
            other => self.answer_under(&other),
        }
    }

    /// Performs a call that adds no selection to the test's list of selections.
    fn answer_under(&mut self, call: &Call) -> Option<String> {
        let (source, target) = (&mut self.source, &mut self.target);
        match *call {
            Call::Equal(one, other) => equal(self.alloc, &self.choices, one, other),
            other => {
                let Some(chosen) = chosen(&self.choices, under_of(&other)) else {
                    return None;
                };
                of_peers(self.alloc, source, target, chosen, &other)
            }
        }
    }
}

/// Returns the selection that a call uses.
fn under_of(call: &Call) -> Under {
    match *call {
        Call::Has(under, _)
        | Call::Text(under)
        | Call::Page(_, _, _, under)
        | Call::Replicate(_, _, under)
        | Call::Begin(_, under)
        | Call::Append(_, _, _, under)
        | Call::Audit(under)
        | Call::HoleAbove(_, under)
        | Call::Common(under)
        | Call::SourceLog(under)
        | Call::TargetLog(under) => under,
        _ => None,
    }
}

/// Performs a call with the selection `chosen` of documents, or with all documents if `chosen` is `None`.
fn of_peers(
    alloc: Global,
    source: &mut Peer<Rules>,
    target: &mut Peer<Rules>,
    chosen: Option<&Chosen>,
    call: &Call,
) -> Option<String> {
    match *call {
        Call::Has(_, id) => has(alloc, chosen, id),
        Call::Replicate(session, batch, _) => {
            replicate(alloc, source, target, session, batch, chosen)
        }
        Call::Begin(session, _) => begin(alloc, source, target, session, chosen),
        Call::Append(session, since, goal, _) => {
            let window = page_of(alloc, source, since, goal, chosen);
            store(alloc, target, session, window)
        }
        other => read(alloc, source, target, chosen, &other),
    }
}

/// Performs a read-only call with the selection `chosen` of documents, or with all documents if `chosen` is `None`.
fn read(
    alloc: Global,
    source: &Peer<Rules>,
    target: &Peer<Rules>,
    chosen: Option<&Chosen>,
    call: &Call,
) -> Option<String> {
    match *call {
        Call::Page(since, goal, limit, _) => page(alloc, source, since, goal, limit, chosen),
        Call::Audit(_) => found_text(alloc, audit(alloc, source, target, chosen)),
        Call::HoleAbove(since, _) => {
            found_text(alloc, hole_above(alloc, source, target, since, chosen))
        }
        _ => match rep_between(source, target, chosen) {
            Ok(rep) => of_replication(alloc, source, target, &rep, call),
            Err(_) => None,
        },
    }
}

/// Performs a call that reads the id or the logs of the replication `rep`.
fn of_replication(
    alloc: Global,
    source: &Peer<Rules>,
    target: &Peer<Rules>,
    rep: &RepId,
    call: &Call,
) -> Option<String> {
    match *call {
        Call::Text(_) => rep_text(alloc, rep),
        Call::Common(_) => agreed(alloc, source, target, rep),
        Call::SourceLog(_) => source_log(alloc, source, rep),
        Call::TargetLog(_) => target_log(alloc, target, rep),
        _ => None,
    }
}

/// Returns the text of a replication id.
fn rep_text(alloc: Global, rep: &RepId) -> Option<String> {
    match rep_id(alloc, rep) {
        Ok(text) => String::from_utf8(text).ok(),
        Err(_) => None,
    }
}

/// Returns the selection at an index. For a call on all documents, returns `Some(None)`. If no selection has the given
/// index, returns `None`.
fn chosen(choices: &[Chosen], under: Under) -> Option<Option<&Chosen>> {
    match under {
        Some(at) => choices.get(at).map(Some),
        None => Some(None),
    }
}

/// Creates a selection of ids, and returns the number of ids. For a small selection, the result also lists the ids.
fn choose_ids(alloc: Global, choices: &mut Vec<Chosen>, ids: Vec<DocId>) -> Option<String> {
    match Chosen::new(ids) {
        Ok(chosen) => keep(alloc, choices, chosen),
        Err(fault) => shown(alloc, &fault),
    }
}

/// Stores a selection, and returns the number of the selection's ids. For a small selection, the result also lists the
/// ids.
fn keep(alloc: Global, choices: &mut Vec<Chosen>, chosen: Chosen) -> Option<String> {
    let text = ids_text(alloc, chosen.ids());
    let Ok(()) = choices.push(chosen) else {
        return None;
    };
    text
}

/// Returns the number of ids of a selection. For a small selection, the result also lists the ids.
fn ids_text(alloc: Global, ids: &[DocId]) -> Option<String> {
    let mut all = shown(alloc, &ids.len());
    if ids.len() < 10 {
        for id in ids {
            all = joined(all, id_text(alloc, id));
        }
    }
    all
}

/// Returns a space followed by an id.
fn id_text(alloc: Global, id: &DocId) -> Option<String> {
    format!(in alloc; " {}", id.text()).ok()
}

/// Appends an optional id.
fn push_id(ids: &mut Vec<DocId>, id: Option<DocId>) -> Option<()> {
    match id {
        Some(id) => ids.push(id).ok(),
        None => None,
    }
}

/// Selects documents.
fn choose(alloc: Global, choices: &mut Vec<Chosen>, names: &[&str]) -> Option<String> {
    let mut ids = Vec::new(alloc);
    for name in names {
        let Some(()) = push_id(&mut ids, DocId::parse(alloc, name).ok()) else {
            return None;
        };
    }
    choose_ids(alloc, choices, ids)
}

/// Returns the document id for a number.
fn number_id(alloc: Global, number: u32) -> Option<DocId> {
    let Ok(text) = number.to_string(alloc) else {
        return None;
    };
    DocId::parse(alloc, text.as_str()).ok()
}

/// Creates a selection from a list of ids: the numbers from 1 to `count`, and the number 1 again.
fn choose_many(alloc: Global, choices: &mut Vec<Chosen>, count: u32) -> Option<String> {
    let mut ids = Vec::new(alloc);
    for number in 0..count {
        let Some(()) = push_id(&mut ids, number_id(alloc, number.saturating_add(1))) else {
            return None;
        };
    }
    let Some(()) = push_id(&mut ids, number_id(alloc, 1)) else {
        return None;
    };
    choose_ids(alloc, choices, ids)
}

/// Copies a selection.
fn copy(alloc: Global, choices: &mut Vec<Chosen>, at: usize) -> Option<String> {
    let Some(chosen) = choices.get(at) else {
        return None;
    };
    let Ok(chosen) = chosen.copy() else {
        return None;
    };
    keep(alloc, choices, chosen)
}

/// Returns whether two selections are equal.
fn equal(alloc: Global, choices: &[Chosen], one: usize, other: usize) -> Option<String> {
    match (choices.get(one), choices.get(other)) {
        (Some(one), Some(other)) => shown(alloc, &(one == other)),
        _ => None,
    }
}

/// Returns whether a document is selected.
fn has(alloc: Global, chosen: Option<&Chosen>, id: &str) -> Option<String> {
    let Ok(id) = DocId::parse(alloc, id) else {
        return None;
    };
    shown(alloc, &is_chosen(chosen, &id))
}

/// Reads a page.
fn page(
    alloc: Global,
    source: &Peer<Rules>,
    since: u64,
    goal: u64,
    limit: u64,
    chosen: Option<&Chosen>,
) -> Option<String> {
    match source.page(alloc, since, goal, limit, chosen) {
        Ok(window) => window_text(alloc, &window),
        Err(fault) => base_fault_text(alloc, fault),
    }
}

/// Scans at most 500 rows of the source's feed, and returns the page, or `None` if the page cannot be read.
fn page_of(
    alloc: Global,
    source: &Peer<Rules>,
    since: u64,
    goal: u64,
    chosen: Option<&Chosen>,
) -> Option<Window> {
    source.page(alloc, since, goal, 500, chosen).ok()
}

/// Appends a window to a session of the target. If the page could not be read, `window` is `None`, and the call returns
/// `None`.
fn store(
    alloc: Global,
    target: &mut Peer<Rules>,
    session: SessionId,
    window: Option<Window>,
) -> Option<String> {
    let Some(window) = window else {
        return None;
    };
    match target.append(session, window) {
        Ok(()) => "appended".to_string(alloc).ok(),
        Err(fault) => fault_text(alloc, fault),
    }
}

/// Returns the plan of a session that replicates only the documents in `chosen`, or all documents if `chosen` is
/// `None`.
fn plan_under(session: SessionId, batch: u64, chosen: Option<&Chosen>) -> Option<Plan> {
    let Some(mut plan) = plan(session, batch, 0) else {
        return None;
    };
    if let Some(chosen) = chosen {
        let Ok(chosen) = chosen.copy() else {
            return None;
        };
        plan.chosen = Some(chosen);
    }
    plan.copy().ok()
}

/// Replicates the source into the target.
fn replicate(
    alloc: Global,
    source: &mut Peer<Rules>,
    target: &mut Peer<Rules>,
    session: SessionId,
    batch: u64,
    chosen: Option<&Chosen>,
) -> Option<String> {
    let Some(plan) = plan_under(session, batch, chosen) else {
        return None;
    };
    match replicate_alone(alloc, source, target, &plan) {
        Ok(report) => report_text(alloc, report),
        Err(fault) => fault_text(alloc, fault),
    }
}

/// Begins a session.
fn begin(
    alloc: Global,
    source: &Peer<Rules>,
    target: &mut Peer<Rules>,
    session: SessionId,
    chosen: Option<&Chosen>,
) -> Option<String> {
    let Some(plan) = plan_under(session, 500, chosen) else {
        return None;
    };
    match begin_plan(source, target, &plan) {
        Ok(start) => shown(alloc, &start),
        Err(fault) => fault_text(alloc, fault),
    }
}

/// Performs lists of calls on a new source and a new target, and asserts that each call returns the expected result.
pub(crate) fn expect(rt: &impl Abort, alloc: Global, lists: &[Rows]) {
    let mut bench = Bench::new(alloc);
    for calls in lists {
        bench.run(rt, calls);
    }
}
