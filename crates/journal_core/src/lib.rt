//! Seals blocks of journal lines with checksums, and confirms a journal block by block.
#![tactic(auto)]

mod blocks;
mod seal;
mod sums;

pub use blocks::{Blocks, Took};
pub use seal::{Seal, seal_block};
pub use sums::added;
