//! Stores the last states of a journal's documents.
ghost use Rattle.std.specs.Prelude.{◌≡◌, ◌++◌, ◌&&◌, IfOk, OnOk, Option, None, Some, bytes_eq, option_map, string_bytes, true};
ghost use Rattle.std.specs.List.{list_any};
ghost use Rattle.journal_lines.specs.Lists.{leaves_view, texts_of};
ghost use Rattle.journal_tasks.specs.Stating.{no_state, put_at, state_at, state_lines, state_or_none, state_view, states_view, with_rev};

use indexmap::IndexMap;
use journal_lines::{Leaves, push_leaves};
use std::alloc::{AllocError, Global};

/// The state of a document, which is its leaves at a sequence.
#[derive(Drop)]
pub(crate) struct State {
    /// The sequence of the state, or `-` if the sequence is unknown.
    pub(crate) seq: String,
    /// The leaf revisions of the document.
    pub(crate) revs: Vec<String>,
    /// Whether a document's state was read from a `state` line of the journal, and not collected from document lines.
    pub(crate) named: bool,
}

/// The last states of documents, by document id.
pub(crate) type StateMap = IndexMap<String, State>;

/// Returns the state of a document without known leaves and sequence.
fn new_state(alloc: Global) -> Result<State, AllocError>
    ensures { IfOk result (λ state. state_view state ≡ no_state) }
{
    Ok(State {
        seq: String::from_str(alloc, "-")?,
        revs: Vec::new(alloc),
        named: false,
    })
}

/// Returns the given state or, if the argument is `None`, a state without known leaves and sequence.
fn or_new(alloc: Global, state: Option<State>) -> Result<State, AllocError>
    ensures { IfOk result (λ new. state_view new ≡ state_or_none (option_map state_view state)) }
{
    match state {
        Some(state) => Ok(state),
        None => new_state(alloc),
    }
}

/// Whether a list of revisions has the given revision.
pub(crate) fn has_rev(revs: &[String], rev: &str) -> bool
    ensures { result ≡ list_any (λ known. bytes_eq rev.now (string_bytes known)) revs.now }
{
    revs.iter().any(|known| rev == known.as_str())
}

/// Returns a state after a line with the document's revision `rev`. A state that was read from a `state` line of the
/// journal stays unchanged.
fn with_rev(alloc: Global, state: State, rev: &str) -> Result<State, AllocError>
    ensures { IfOk result (λ new. state_view new ≡ with_rev rev.now (state_view state)) }
{
    let mut state = state;
    if state.named {
        return Ok(state);
    }
    if has_rev(state.revs.as_slice(), rev) {
        return Ok(state);
    }
    state.revs.push(String::from_str(alloc, rev)?)?;
    Ok(state)
}

/// Replaces the state of a document.
fn put(states: &mut StateMap, id: String, state: State) -> Result<Option<State>, AllocError>
    ensures old { IfOk result (λ old. state_or_none (option_map state_view old) ≡ state_at (states_view states.old) (string_bytes id)) }
    ensures states { OnOk result (states_view states.new ≡ put_at (states_view states.old) (string_bytes id) (state_view state)) }
{
    let old = states.insert(id, state)?;
    Ok(old)
}

/// Replaces the state of a document by the state that was read from a `state` line of the journal.
pub(crate) fn name_state(states: &mut StateMap, leaves: Leaves) -> Result<(), AllocError>
    ensures { OnOk result (states_view states.new
        ≡ put_at (states_view states.old) (leaves_view leaves).1 ((leaves_view leaves).0, (leaves_view leaves).2, true)) }
{
    let Leaves { seq, id, revs } = leaves;
    put(
        states,
        id,
        State {
            seq,
            revs,
            named: true,
        },
    )?;
    Ok(())
}

/// Adds a leaf to the state of a document, unless this state was read from a `state` line of the journal.
pub(crate) fn add_leaf(
    alloc: Global,
    states: &mut StateMap,
    id: &str,
    rev: &str,
) -> Result<(), AllocError>
    ensures { OnOk result (states_view states.new
        ≡ put_at (states_view states.old) id.now (with_rev rev.now (state_at (states_view states.old) id.now))) }
{
    let key = String::from_str(alloc, id)?;
    let none = new_state(alloc)?;
    let old = put(states, key, none)?;
    let before = or_new(alloc, old)?;
    let state = with_rev(alloc, before, rev)?;
    let again = String::from_str(alloc, id)?;
    put(states, again, state)?;
    Ok(())
}

/// Appends a `state` line for each document.
pub(crate) fn push_states(
    alloc: Global,
    states: &StateMap,
    text: &mut Vec<u8>,
) -> Result<(), AllocError>
    ensures { OnOk result (text.new.items ≡ text.old.items ++ state_lines (states_view states.now)) }
{
    for index in 0..states.len() {
        let Some((id, state)) = states.get_index(index) else {
            return Ok(());
        };
        push_leaves(
            alloc,
            text,
            "state",
            state.seq.as_str(),
            id.as_str(),
            state.revs.as_slice(),
        )?;
    }
    Ok(())
}
