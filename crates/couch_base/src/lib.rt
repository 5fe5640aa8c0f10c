//! A database, with calls that put and edit documents, read pages of the changes feed, and request and fetch revisions.
//!
//! The rules are in docs/PROFILE.md, "Sequences", "Merging", "Local edits", "Changes feed", "Missing revisions" and
//! "Fetching".
#![tactic(auto)]

mod asked;
mod copies;
mod database;
mod edit;
mod exchange;
mod fault;
mod feed;
mod id_hash;
mod kept;
mod lookup_hint;
mod paging;
mod parcel;
mod prepared_tree;
mod row;
mod table;
mod window;

pub use asked::{Asked, Wanted};
pub use database::{Database, MOST_SEQUENCE};
pub use fault::{BaseFault, Listed, Put, Revised};
pub use feed::{Change, Feed};
pub use lookup_hint::LookupHint;
pub use parcel::Parcel;
pub use prepared_tree::PreparedTree;
pub use row::Row;
pub use window::Window;
