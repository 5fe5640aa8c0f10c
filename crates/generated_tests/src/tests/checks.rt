//! Assertions for all test modules.
use std::process::Abort;

/// Asserts a fact, and prints the given name if the fact is false.
///
/// The prover needs about ten steps for a call of this function, but about 30 steps for an assertion with a message.
pub(crate) fn holds(rt: &impl Abort, fact: bool, name: &str) {
    assert!(rt; fact, "{name}");
}
