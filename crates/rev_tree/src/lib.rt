//! Revision trees of CouchDB documents, and merging into them.
//!
//! The rules are in docs/PROFILE.md, "Revision trees", "Merging" and "Leaves and the winner".
#![tactic(auto)]

mod content;
mod fault;
mod leaf;
mod merging;
mod node;
mod nodes;
mod origin;
mod origins;
mod place_index;
mod revs;
mod single_node;
mod stored;
mod tournament;
mod tree;
mod walks;
mod winner;
mod words;

pub use content::Content;
pub use fault::{Contradiction, Merged, TreeFault};
pub use origin::{Origin, SessionId};
pub use revs::Revs;
pub use tree::{RevInfo, Tree};
