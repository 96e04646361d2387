//! Messages that were heard and are not matched yet.
ghost use Rattle.std.specs.Prelude.{◌≡◌, ◌↔◌, ◌+◌, ◌<◌, ◌≤◌, length, Err, None, Some, IfOk, IsTrue, OnOk, OnErr, IsSome};
ghost use Rattle.std.specs.Option.{option_copied, IsSomeAnd};
ghost use Rattle.std.specs.Borrow.{sem, Lends};
ghost use Rattle.std.specs.FinMap as map;
ghost use Rattle.rdm_window.specs.Message.{opened, Awaits, filled, room, with_room, with_spent};
ghost use Rattle.rdm_window.specs.Early.{none_held, message_at, with_message, after_hold, changed, without_message, without_life, IsHeldOf};
ghost use Rattle.rdm_window.specs.Early as held;
ghost use Rattle.rdm_window.specs.contracts.early.Early.{the_row};
ghost use Rattle.rdm_window.specs.contracts.message.EarlyMessage.{the_row as message_row};

use crate::message::{EarlyMessage, Opening};
use rdm_num::{Life, MsgNo, NoMemory};
use std::alloc::Global;
use std::collections::BTreeMap;
use std::marker::Model;

/// Why a message is not held.
#[derive(Clone, Copy, Debug, PartialEq, Eq)]
pub enum EarlyRefused {
    /// As many messages are held as have a place.
    Full,
    /// Want of memory.
    Memory,
}

/// The messages of an endpoint that were heard and are not matched.
#[derive(Drop)]
pub struct Early {
    alloc: Global,
    size: usize,
    messages: BTreeMap<((u32, u32), u32), EarlyMessage>,
}

impl Model for Early {
    ghost use Rattle.rdm_window.specs.Codes.{held_code};
    ghost use Rattle.rdm_window.specs.Early.{Held, message_order};
    ghost use Rattle.std.specs.Prelude.{◌≤◌, length};
    ghost use Rattle.std.specs.FinMap.{from_entries};

    ghost Value = { Held };

    ghost coded = { held_code };

    ghost view = { λ e. record { size = e.size; messages = from_entries e.messages.entries } };

    ghost invariant = { λ e. length e.messages.entries ≤ e.size };
}

impl Early {
    /// Has a place for that many messages, and holds none.
    pub fn new(alloc: Global, size: usize) -> Result<Early, NoMemory>
        ensures { IfOk result (λ e. e ≡ none_held size) }
    {
        Ok(Early {
            alloc,
            size,
            messages: BTreeMap::new(alloc),
        })
    }

    /// As many messages are held as have a place.
    pub fn is_full(&self) -> bool
        ensures answer { result ≡ held.is_full self.now }
        ensures within { map.len self.now.messages ≤ self.now.size }
    {
        self.messages.len() == self.size
    }

    /// How many messages are held.
    pub fn len(&self) -> usize
        ensures { result ≡ map.len self.now.messages }
    {
        self.messages.len()
    }

    /// Holds a message of which no byte came yet.
    pub fn hold(&mut self, life: Life, no: MsgNo, opening: Opening) -> Result<(), EarlyRefused>
        requires { message_at self.old life no ≡ None }
        ensures full { (result ≡ Err EarlyRefused.Full) ↔ IsTrue (held.is_full self.old) }
        ensures after { self.new ≡ after_hold self.old life no (opened opening) result }
    {
        if self.is_full() {
            return Err(EarlyRefused::Full);
        }
        self.open(life, no, opening)
            .map_err(|_error| EarlyRefused::Memory)
    }

    /// Holds a message of which a piece came.
    pub fn hold_with(
        &mut self,
        life: Life,
        no: MsgNo,
        opening: Opening,
        at: u64,
        bytes: &[u8],
    ) -> Result<(), EarlyRefused>
        requires new { message_at self.old life no ≡ None }
        requires fits { at + length bytes.now ≤ opening.len }
        ensures full { (result ≡ Err EarlyRefused.Full) ↔ IsTrue (held.is_full self.old) }
        ensures after { self.new ≡ after_hold self.old life no (filled (opened opening) at bytes.now) result }
    {
        if self.is_full() {
            return Err(EarlyRefused::Full);
        }
        self.open_with(life, no, opening, at, bytes)
            .map_err(|_error| EarlyRefused::Memory)
    }

    /// A message is held of which no byte of the range came.
    pub fn missing(&self, life: Life, no: MsgNo, at: u64, len: u64) -> bool
        ensures { IsTrue result ↔ IsSomeAnd (message_at self.now life no) (Awaits at len) }
    {
        match self.get(life, no) {
            Some(message) => message.awaits(at, len),
            None => false,
        }
    }

    /// Makes room for one more piece of a message that is held to be added without memory.
    pub fn reserve_add(&mut self, life: Life, no: MsgNo) -> Result<(), NoMemory>
        requires { IsSome (message_at self.old life no) }
        ensures ok { OnOk result (self.new ≡ changed self.old life no with_room) }
        ensures room { OnOk result (IsSomeAnd (message_at self.new life no) (λ m. 0 < room m)) }
        ensures err { OnErr result (self.new ≡ self.old) }
    {
        self.held_mut(life, no).reserve_add()
    }

    /// Adds a piece to a message that is held, of which no byte came. It wants no memory, and spends one
    /// reservation of the message.
    pub fn add_reserved(&mut self, life: Life, no: MsgNo, at: u64, bytes: &[u8])
        requires awaits { IsSomeAnd (message_at self.old life no) (Awaits at (length bytes.now)) }
        requires room { IsSomeAnd (message_at self.old life no) (λ m. 0 < room m) }
        ensures { self.new ≡ changed self.old life no (λ m. with_spent (filled m at bytes.now)) }
    {
        self.held_mut(life, no).add_reserved(at, bytes);
    }

    /// Adds a piece to a message that is held, of which no byte came.
    pub fn add(&mut self, life: Life, no: MsgNo, at: u64, bytes: &[u8]) -> Result<(), NoMemory>
        requires { IsSomeAnd (message_at self.old life no) (Awaits at (length bytes.now)) }
        ensures ok { OnOk result (self.new ≡ changed self.old life no (λ m. filled m at bytes.now)) }
        ensures err { OnErr result (self.new ≡ self.old) }
    {
        self.held_mut(life, no).add(at, bytes)
    }

    /// The message with that number, which is held, for writing.
    #[inline(always)]
    fn held_mut(&mut self, life: Life, no: MsgNo) -> &mut EarlyMessage
        requires { IsSome (message_at self.old life no) }
        ensures* writes_back { sem 𝓛 (Lends the_row message_row self.entry result (with_message self.old life no)) }
        ensures value { Some result.now ≡ message_at self.old life no }
    {
        match self.messages.get_mut(&key(life, no)) {
            Some(message) => message,
            None => unreachable!(),
        }
    }

    /// The message with that number, if it is held.
    pub fn get(&self, life: Life, no: MsgNo) -> Option<&EarlyMessage>
        ensures { option_copied result ≡ message_at self.now life no }
    {
        self.messages.get(&key(life, no))
    }

    /// Gives the message with that number, which is held no more.
    pub fn take(&mut self, life: Life, no: MsgNo) -> Option<EarlyMessage>
        ensures answer { result ≡ message_at self.old life no }
        ensures after { self.new ≡ without_message self.old life no }
    {
        self.messages.remove(&key(life, no))
    }

    /// No message of the life is held any more.
    pub fn forget(&mut self, life: Life)
        ensures { self.new ≡ without_life self.old life }
    {
        while let Some(no) = self.first_of(life) {
            let _ = self.take(life, no);
        }
    }

    /// The number of a message of the life that is held.
    fn first_of(&self, life: Life) -> Option<MsgNo>
        ensures { IsHeldOf self.now life result }
    {
        let (first, _message) = self.messages.range(key(life, MsgNo(0))..).next()?;
        let &((port, connid), no) = first;
        if port == life.port.0 && connid == life.connid.0 {
            Some(MsgNo(no))
        } else {
            None
        }
    }

    /// Gives a message of which no byte came a place.
    fn open(&mut self, life: Life, no: MsgNo, opening: Opening) -> Result<(), NoMemory>
        requires { map.len self.old.messages < self.old.size }
        ensures ok { OnOk result (self.new ≡ with_message self.old life no (opened opening)) }
        ensures err { OnErr result (self.new ≡ self.old) }
    {
        let message = EarlyMessage::open(self.alloc, opening)?;
        self.place(life, no, message)
    }

    /// Gives a message of which a piece came a place.
    fn open_with(
        &mut self,
        life: Life,
        no: MsgNo,
        opening: Opening,
        at: u64,
        bytes: &[u8],
    ) -> Result<(), NoMemory>
        requires place { map.len self.old.messages < self.old.size }
        requires fits { at + length bytes.now ≤ opening.len }
        ensures ok { OnOk result (self.new ≡ with_message self.old life no (filled (opened opening) at bytes.now)) }
        ensures err { OnErr result (self.new ≡ self.old) }
    {
        let message = EarlyMessage::open_with(self.alloc, opening, at, bytes)?;
        self.place(life, no, message)
    }

    /// Gives a message a place.
    fn place(&mut self, life: Life, no: MsgNo, message: EarlyMessage) -> Result<(), NoMemory>
        requires { map.len self.old.messages < self.old.size }
        ensures ok { OnOk result (self.new ≡ with_message self.old life no message) }
        ensures err { OnErr result (self.new ≡ self.old) }
    {
        self.messages.insert(key(life, no), message)?;
        Ok(())
    }
}

/// What a message is held under.
fn key(life: Life, no: MsgNo) -> ((u32, u32), u32)
    ensures { result ≡ held.key_of life no }
{
    ((life.port.0, life.connid.0), no.0)
}
