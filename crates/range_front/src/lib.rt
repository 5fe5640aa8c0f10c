//! A front has the windows of a feed, and the sequence up to which all windows are done. The windows are finished in
//! any order.
//!
//! docs/PROFILE.md, "Goal and windows" and "Windows and low water", defines the windows and the low water of a front.
#![tactic(auto)]

mod ends;
mod fault;
mod front;
mod ranges;

pub use fault::FrontFault;
pub use front::Front;
