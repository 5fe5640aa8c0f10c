//! Reads the responses of CouchDB that the jobs (folder `jobs/`) need: pages of changes, responses of `_bulk_docs`, and
//! descriptions of servers and databases.
#![tactic(auto)]

mod info;
mod members;
mod page;
mod refused;
mod said;

pub use info::info_of;
pub use page::page_of;
pub use refused::refused_of;
pub use said::{Said, read_said};
