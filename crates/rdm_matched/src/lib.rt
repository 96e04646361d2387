//! The messages that were matched, each with the receive that took it.
#![tactic(auto)]

ghost use Rattle.std.specs.Prelude.{◌≡◌, ◌<◌, None, OnOk, OnErr};
ghost use Rattle.rdm_window.specs.Early.{key_of};
ghost use Rattle.rdm_matched.specs.Matches.{nothing_matched, receive_at, with_match, without_match, with_room, with_spent};

use rdm_num::{Life, MsgNo, NoMemory, OpId};
use std::alloc::{AllocError, Global};
use std::collections::HashMap;
use std::marker::Model;

#[cfg(test)]
mod tests;

/// The messages that were matched and whose receives are not over, each with its receive. The map has at least `room` places
/// to spare: one for each receive that waits for its message.
#[derive(Drop)]
pub struct Matched {
    receives: HashMap<((u32, u32), u32), OpId>,
    room: usize,
}

impl Model for Matched {
    ghost use Rattle.std.specs.Prelude.{◌≤◌};
    ghost use Rattle.std.specs.HashMap.{spare};
    ghost use Rattle.std.specs.FinMap.{from_entries};
    ghost use Rattle.rdm_matched.specs.Matches.{Matches, matches_code};

    ghost Value = { Matches };

    ghost coded = { matches_code };

    ghost view = { λ m. record { room = m.room; messages = from_entries m.receives.entries } };

    ghost invariant = { λ m. m.room ≤ spare m.receives };
}

impl Matched {
    /// No message was matched, and there is room for none.
    pub fn new(alloc: Global) -> Matched
        ensures { result ≡ nothing_matched }
    {
        Matched {
            receives: HashMap::new(alloc),
            room: 0,
        }
    }

    /// Makes room for one more message to be matched without memory.
    pub fn reserve(&mut self) -> Result<(), NoMemory>
        ensures ok { OnOk result (self.new ≡ with_room self.old) }
        ensures err { OnErr result (self.new ≡ self.old) }
    {
        let room = self.room.checked_add(1).ok_or(AllocError)?;
        self.receives.reserve(room)?;
        self.room = room;
        Ok(())
    }

    /// Gives a reservation back, as for a receive that is over without a message.
    pub fn give_back(&mut self)
        requires { 0 < self.old.room }
        ensures { self.new ≡ with_spent self.old }
    {
        self.room -= 1;
    }

    /// Keeps which receive took a message. It wants no memory, and spends one reservation.
    pub fn put(&mut self, life: Life, no: MsgNo, recv: OpId)
        requires room { 0 < self.old.room }
        requires new { receive_at self.old life no ≡ None }
        ensures { self.new ≡ with_spent (with_match self.old life no recv) }
    {
        let Ok(_none) = self.receives.insert(key(life, no), recv) else {
            unreachable!()
        };
        self.room -= 1;
    }

    /// The receive that took a message.
    pub fn receive_of(&self, life: Life, no: MsgNo) -> Option<OpId>
        ensures { result ≡ receive_at self.now life no }
    {
        self.receives.get(&key(life, no)).copied()
    }

    /// Gives the receive that took a message, which is matched no more. No room is made by it.
    pub fn take(&mut self, life: Life, no: MsgNo) -> Option<OpId>
        ensures answer { result ≡ receive_at self.old life no }
        ensures after { self.new ≡ without_match self.old life no }
    {
        self.receives.remove(&key(life, no))
    }
}

/// What a message is kept under.
fn key(life: Life, no: MsgNo) -> ((u32, u32), u32)
    ensures { result ≡ key_of life no }
{
    ((life.port.0, life.connid.0), no.0)
}
