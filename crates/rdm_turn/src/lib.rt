//! A table of values that threads take in turns. The value that is taken for a place fits the place.
#![tactic(auto)]

mod block;
mod rule;
mod steps;
#[cfg(test)]
mod tests;
mod turns;

pub use turns::{Tagged, TurnSeat, Turns};
