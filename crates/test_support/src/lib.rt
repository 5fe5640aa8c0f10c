//! Helpers that several test crates share. The helpers format results, parse revisions, and create a minimal log entry.
//!
//! This crate has no contracts, because tests compare the crate's results with strings written by hand.
#![tactic(auto)]

mod entries;
mod revisions;

pub use entries::bare_entry;
pub use revisions::{rev, rev_text, revs_text, shown};
