//! The live receives of an endpoint, by number and by message.
#![tactic(auto)]

mod live;
mod questions;

pub use live::Live;
