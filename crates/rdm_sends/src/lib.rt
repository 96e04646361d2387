//! One live send, whole: what its packets say, where its bytes stand, how far it was pushed, and what
//! was granted of it or asked for.
#![tactic(auto)]

mod begin;
mod protocol;
mod sending;
#[cfg(test)]
mod tests;

pub use begin::{Own, Place, opt_for, read_list, wants_raw};
pub use protocol::Protocol;
pub use sending::{Sending, given_span};
