//! Reads and writes the lines of a journal. A line of a journal may list the leaves of a document, or have a document.
#![tactic(auto)]

mod docs;
mod entry;
mod leaf;
mod leaves;
mod members;
mod text;

pub use docs::{Docs, add_pair};
pub use entry::{Entry, entry_of};
pub use leaf::{Leaf, rev_of};
pub use leaves::{Leaves, is_token, push_leaves, value_of};
pub use members::{items_at, items_of, text_at};
pub use text::{push_json, push_rev, text_of};
