//! Revision ids of CouchDB documents, and ancestries, which are lists of revisions, newest first.
//!
//! The rules are in docs/PROFILE.md, "Revision ids", "Revision id text", "Ancestries" and "Ids of local edits".
#![tactic(auto)]

mod ancestry;
mod fault;
mod kept_rev;
mod local_edit;
mod rev;
mod short_sig;
mod sig;
mod small_rev;

pub use ancestry::Ancestry;
pub use fault::RevFault;
pub use kept_rev::KeptRev;
pub use local_edit::new_rev;
pub use rev::Rev;
pub use sig::Sig;
pub use small_rev::SmallRev;
