//! The whole state of one live receive: its range, and once it was matched what came of its message.
#![tactic(auto)]

mod ends;
mod laws;
mod loans;
mod questions;
mod receive;
#[cfg(test)]
mod tests;

pub use laws::{answers_law, ends_law, loans_law, receives_law};
pub use receive::Receive;
