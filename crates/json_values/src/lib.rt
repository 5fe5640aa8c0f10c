//! A reader for a sequence of JSON values.
#![tactic(auto)]

mod arena;
mod capacities;
mod fault;
mod lexer;
mod line;
mod line_part;
mod members;
mod numbers;
mod plain_texts;
mod reader;
mod run;
mod tokens;
mod unescape;
mod utf8;
mod values;
mod word;

pub use fault::ReadFault;
pub use line::{LineValue, is_same_text};
pub use line_part::{Line, LinePart};
pub use plain_texts::PlainTexts;
pub use reader::ValueReader;
pub use run::{is_plain, plain_end};
