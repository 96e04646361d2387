//! What watches the threads of a launch.

/// A thread of a launch.
#[derive(Clone, Copy, Debug, PartialEq, Eq)]
pub enum Who {
    /// The thread that does the instructions of a rank.
    Poster(u32),
    /// A thread that pushes, handles and polls for a rank, and its number among those.
    Progress(u32, u32),
}

/// It may hold a thread back.
pub trait Gate {
    /// Called in each turn of a thread while it has its port, before the turn's first step. A thread
    /// counts its turns from 0, modulo 2^64.
    fn pass(&self, who: Who, turn: u64);

    /// For copies of bytes beside the port, counted as the turns are. The ports of now make none.
    fn copying(&self, who: Who, copy: u64);
}

/// It holds nobody back.
#[derive(Clone, Copy, Debug)]
pub struct OpenGate;

impl Gate for OpenGate {
    fn pass(&self, _who: Who, _turn: u64) {}

    fn copying(&self, _who: Who, _copy: u64) {}
}
