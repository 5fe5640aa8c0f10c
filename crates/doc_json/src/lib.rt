//! Reads CouchDB documents from JSON values, and writes documents as JSON.
//!
//! The rules are in docs/PROFILE.md, "Document ids", "Documents", "What `read_doc` accepts" and "What `write_doc`
//! writes".
#![tactic(auto)]

mod body;
mod chosen;
mod compact;
mod doc;
mod doc_id;
mod fault;
mod json_value;
mod line_value;
mod marks;
mod members;
mod near_text;
mod owned_value;
mod read;
mod revisions;
mod text;
mod write;

pub use body::{Body, read_body, read_line_body};
pub use chosen::{Chosen, is_chosen};
pub use doc::Doc;
pub use doc_id::DocId;
pub use fault::DocFault;
pub use line_value::has_fraction;
pub use read::{read_doc, read_line_doc};
pub use text::push_text;
pub use write::{push_doc, write_doc};
