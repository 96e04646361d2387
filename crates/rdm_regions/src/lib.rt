//! The registered regions of an endpoint: the ranges that sends hold and those that receives have out.
#![tactic(auto)]

mod holds;
mod key;
mod refused;
mod region;
mod regions;
mod rising;
mod survival;
#[cfg(test)]
mod tests;

pub use refused::RegionRefused;
pub use regions::Regions;
pub use survival::{holds_law, survival_law};
