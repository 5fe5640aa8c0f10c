//! Draws revision trees, comparisons, numbers and logs from the output of a script, as text or SVG.
//!
//! docs/PROFILE.md, "Pictures", defines the input and the pictures.
#![tactic(auto)]

mod ancestries;
mod axis;
mod document;
mod drawer;
mod form;
mod labels;
mod lines;
mod markup;
mod reading;
mod rows;
mod sessions;
mod sheet;
mod svg;
mod tally;
mod text;

pub use drawer::draw_answers;
pub use form::Form;
pub use tally::{Outcome, Tally};
