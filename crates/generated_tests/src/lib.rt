//! Randomized tests of databases, peers, messages between peers, networks, revision trees and fronts.
#![tactic(auto)]

#[cfg(test)]
mod tests;
