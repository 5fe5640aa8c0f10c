//! Theorems about any number of peers, and about replications between any two of these peers.
//!
//! The specification of networks is in docs/PROFILE.md, "Nets".
#![tactic(auto)]

mod along;
mod fault;
mod hop;
mod hub;
mod net;

pub use along::{edit_at, load_at, replicate_along};
pub use fault::NetFault;
pub use hop::Hop;
pub use hub::sync_by_hub;
pub use net::Net;
