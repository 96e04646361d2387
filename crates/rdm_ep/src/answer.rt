//! What the calls of an endpoint answer.
use rdm_model::{Class, Entered, PoolName, RecvWhy, SendWhy};
use rdm_num::{Life, MsgNo, RecvNo, SendNo};
use rdm_wire::Load;

/// An insert that was done.
#[derive(Clone, Copy, Debug, PartialEq, Eq)]
pub enum Inserted {
    /// The port had no current life.
    Inserted,
    /// The life was the current one already.
    Same,
    /// The life takes the place of that one.
    Supersedes(Life),
}

/// An insert that was not done.
#[derive(Clone, Copy, Debug, PartialEq, Eq)]
pub enum InsertRefused {
    /// The life was current once and is not now.
    Superseded,
    Memory,
}

#[derive(Clone, Copy, Debug, PartialEq, Eq)]
pub enum SendAnswer {
    Did { send: SendNo, msg: MsgNo },
    Refused(SendWhy),
    /// The send asks for a receipt, and nothing is known of the life that it goes to.
    NotYet,
    Again(PoolName),
    Memory,
}

#[derive(Clone, Copy, Debug, PartialEq, Eq)]
pub enum RecvAnswer {
    Did(RecvNo),
    Refused(RecvWhy),
    Again(PoolName),
    Memory,
}

#[derive(Clone, Copy, Debug, PartialEq, Eq)]
pub enum CancelAnswer {
    Did,
    NotPosted,
}

#[derive(Clone, Copy, Debug, PartialEq, Eq)]
pub enum HandleAnswer {
    Took(Option<Entered>),
    Dropped(Class),
    /// The message needs an early place, and none is free.
    AgainEarly,
    /// The bytes are being written by a copy.
    AgainCopy,
    Memory,
}

/// What goes out next.
#[derive(Debug, Drop)]
pub struct Outgoing {
    pub to: Life,
    pub load: Load,
}
