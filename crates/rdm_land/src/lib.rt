//! A message's bytes so far, parts of which can be lent to be written side by side.
#![tactic(auto)]

mod arrivals;
mod landing;
mod lending;
mod loans;
mod questions;
mod spans;
#[cfg(test)]
mod tests;

pub use landing::{Landing, Placed};
pub use lending::{lending_law, loans_law};
