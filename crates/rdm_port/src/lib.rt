//! A rank's place on the device: its log, its stash, and the steps that it makes.
#![tactic(auto)]

mod answers;
mod effects;
mod fetch;
mod going;
mod kept;
mod notes;
mod port;
mod steps;
mod taking;

pub use effects::Owner;
pub use going::Departure;
pub use kept::{QueuedNote, State, Told};
pub use port::Port;
