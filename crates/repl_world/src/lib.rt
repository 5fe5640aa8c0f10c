//! Theorems about two peers and the messages between them, for every order of steps.
//!
//! The steps and the consistency of peers and messages are defined in docs/PROFILE.md, "Worlds" and "Tied windows and
//! messages".
#![tactic(auto)]

mod bag;
mod fault;
mod step;
mod world;

pub use fault::WorldFault;
pub use step::Step;
pub use world::World;
