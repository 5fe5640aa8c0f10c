//! The interface of commands (`command`), and the functions that commands share. The module `members` reads the members
//! of a line, `given` parses the members' values, and `texts` prints results.
#![tactic(auto)]

mod command;
mod given;
mod members;
mod texts;

pub use command::{Command, serve_in};
pub use given::{read_choice, read_content_or_empty, read_document, read_id, read_rev};
pub use members::{
    has_only_members, name_member, optional_flag, optional_text, optional_texts, optional_uuid,
    optional_whole, text_member,
};
pub use texts::{
    hush, id_text, push_count, push_json, push_last, push_number, push_rev, push_revs,
    push_revs_line,
};
