//! Read-only queries about databases and replications. The queries compare a source with a target, list conflicts,
//! count documents and revisions, explain refused documents, and return a document's leaves.
//!
//! No call of this crate changes a database or reads a log. The results of the calls are specified in docs/PROFILE.md,
//! "Missing revisions", "Merging", "Leaves and the winner", "Fetching" and "Covered leaves".
#![tactic(auto)]

mod census;
mod comparison;
mod conflicts;
mod counting;
mod covering;
mod documents;
mod feed;
mod ledger;
mod total;
mod trees;

pub use census::{Census, census_of};
pub use comparison::Comparison;
pub use conflicts::conflicting;
pub use covering::compare_feed;
pub use documents::{documents_of, leaf_document};
pub use feed::compare;
pub use ledger::{LedgerRow, ledger_row};
pub use total::Total;
