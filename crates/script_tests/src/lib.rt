//! Tests of the script engine.
#![tactic(auto)]

#[cfg(test)]
mod tests;
