//! Ports that step at the same time, each in turns that several threads take.
#![tactic(auto)]

mod crews;
mod fresh;
mod gate;
mod launching;
mod packing;
mod stations;
#[cfg(test)]
mod tests;
mod turns;

pub use fresh::ports_of;
pub use gate::{Gate, OpenGate, Who};
pub use launching::launch;
