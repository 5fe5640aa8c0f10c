//! Prepares a document's text for a terminal or a picture. The functions replace hidden characters, which are invisible
//! or move other characters, with escapes of the form `\uXXXX` (docs/PROFILE.md, "Pictures").
#![tactic(auto)]

mod visible;

pub use visible::{is_hidden, push_escape, push_quoted, push_visible};
