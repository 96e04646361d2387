//! The lives that an endpoint knows: what is known of each and owed to it, the numbers of the messages to it, and which of
//! its messages were heard.
#![tactic(auto)]

mod account;
mod laws;
mod peers;
#[cfg(test)]
mod tests;

pub use laws::peers_law;
pub use peers::Peers;
