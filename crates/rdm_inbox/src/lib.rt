//! The inboxes that ports share under threads: one queue for each port.
#![tactic(auto)]

mod counted;
mod inbox;
mod inboxes;
mod passes;
mod port_wire;
mod post;
mod queues;
mod sharing;
#[cfg(test)]
mod tests;

pub use inboxes::Inboxes;
pub use passes::PortPasses;
pub use port_wire::PortWire;
pub use queues::Queues;
