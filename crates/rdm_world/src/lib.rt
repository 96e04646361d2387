//! A job that is played over a wire in memory.
#![tactic(auto)]

mod budget;
mod joint;
mod played;
mod rounds;
mod world;

pub use budget::round_budget;
pub use joint::gather;
pub use played::play;
pub use world::{Handling, World};
