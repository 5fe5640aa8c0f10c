//! Tests of revisions, JSON values, envelopes, fronts, logs and boards.
#![tactic(auto)]

#[cfg(test)]
mod tests;
