//! Which messages of a sending life were heard, and the heard messages that are not matched yet.
#![tactic(auto)]

mod early;
mod message;
mod ring;
#[cfg(test)]
mod tests;
mod window;

pub use early::{Early, EarlyRefused};
pub use message::{EarlyMessage, Opening};
pub use window::{Heard, Window, next_is_told};
