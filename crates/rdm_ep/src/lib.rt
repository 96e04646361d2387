//! The endpoint of one life: its regions, its sends and receives, what it knows of its peers, and
//! what it owes them.
#![tactic(auto)]

mod answer;
mod cancelling;
mod current;
mod endpoint;
mod going;
mod handling;
mod holding;
mod meeting;
mod packets;
mod peers;
mod ranges;
mod receiving;
mod sending;
mod state;
mod taking;
mod telling;
mod twin;
mod verdict;

pub use answer::{
    CancelAnswer, HandleAnswer, InsertRefused, Inserted, Outgoing, RecvAnswer, SendAnswer,
};
pub use endpoint::Endpoint;
pub use ranges::total_length;
pub use state::{Inbound, Outbound, Peer, Posted};
pub use twin::{Twin, TwinBytes};
