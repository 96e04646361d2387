//! What an endpoint keeps.
use crate::twin::TwinBytes;
use rdm_model::Class;
use rdm_num::{Life, MsgNo, RecvNo, RecvReq, SendNo, SendReq};
use rdm_pkt::Packet;

/// What is known of a life.
#[derive(Clone, Copy, Debug, PartialEq, Eq)]
pub struct Peer {
    pub life: Life,
    /// A datagram of it was taken.
    pub greeted: bool,
    /// Its features, from its handshake.
    pub known: Option<u64>,
    /// How many messages were sent to it.
    pub sent: u64,
    /// How many of its messages' numbers have entered.
    pub entered: u64,
}

/// A receive that waits for its message.
#[derive(Clone, Copy, Debug, PartialEq, Eq)]
pub struct Posted {
    pub number: RecvNo,
    pub req: RecvReq,
    /// The life that it names.
    pub from: Option<Life>,
}

/// A message that waits for its receive, or is held for those before it.
#[derive(Debug, Drop)]
pub struct Inbound {
    pub life: Life,
    pub no: MsgNo,
    pub tag: Option<u64>,
    /// Whether its sender waits for a receipt.
    pub confirm: bool,
    pub cq_data: Option<u64>,
    pub bytes: TwinBytes,
}

/// A send that was not pushed yet, with the packet that it owes.
#[derive(Debug, Drop)]
pub struct Outbound {
    pub number: SendNo,
    pub to: Life,
    pub req: SendReq,
    pub packet: Packet,
}

/// Where the message of an accepted send goes, and its number.
#[derive(Clone, Copy, Debug)]
pub(crate) struct AcceptedSend {
    pub to: Life,
    pub msg: MsgNo,
}

/// What is to be done with what came.
#[derive(Debug, Drop)]
pub(crate) enum Verdict {
    Refuse(Class),
    Message(Inbound),
    /// A handshake with this word of features.
    Features(Option<u64>),
}
