//! What an endpoint owes to other lives, in order. It all goes out ahead of the sends.
#![tactic(auto)]

mod answer;
mod laws;
mod replies;
#[cfg(test)]
mod tests;

pub use answer::{Answer, Dues, First, Outgoing};
pub use laws::answers_law;
pub use replies::Replies;
