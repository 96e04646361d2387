//! A message that was heard and is not matched, as its bytes come.
ghost use Rattle.std.specs.Prelude.{◌≡◌, ◌↔◌, ◌+◌, ◌<◌, ◌≤◌, length, IfOk, IsTrue, OnOk, OnErr};
ghost use Rattle.rdm_window.specs.Message.{opened, Awaits, written, filled, room, with_room, with_spent};

use rdm_gaps::Gaps;
use rdm_num::{Bytes, Head, NoMemory};
use std::alloc::{AllocError, Global};
use std::marker::Model;

/// What is known of a message when it is held.
#[derive(Debug, Drop)]
pub struct Opening {
    pub head: Head,
    /// How many bytes the message's own packets bring.
    pub len: u64,
    /// How many bytes the packet brought that opened a message to be granted.
    pub first_part: u64,
}

/// A message that is held: what its packets say of it, its bytes with 0 for each that did not come,
/// and which of them did not come. The memory of a copy of its bytes is taken with it, so that who
/// takes a message that came whole can keep its bytes twice without memory.
#[derive(Debug, Drop)]
pub struct EarlyMessage {
    head: Head,
    first_part: u64,
    buffer: Vec<u8>,
    copy: Vec<u8>,
    gaps: Gaps,
}

impl Model for EarlyMessage {
    ghost use Rattle.std.specs.Prelude.{◌≡◌, length};
    ghost use Rattle.rdm_window.specs.Message.{Message};
    ghost use Rattle.rdm_window.specs.Codes.{message_code};

    ghost Value = { Message };

    ghost coded = { message_code };

    ghost view = { λ m. record { head = m.head; first_part = m.first_part; bytes = m.buffer.items; gaps = m.gaps } };

    ghost invariant = { λ m. (length m.buffer.items ≡ length m.gaps.places) × (length m.copy.items ≡ length m.gaps.places) };
}

impl EarlyMessage {
    /// No byte came yet.
    pub(crate) fn open(alloc: Global, opening: Opening) -> Result<EarlyMessage, NoMemory>
        ensures { IfOk result (λ m. m ≡ opened opening) }
    {
        let Opening {
            head,
            len,
            first_part,
        } = opening;
        let buffer = vec![in alloc; 0; len as usize]?;
        let copy = vec![in alloc; 0; len as usize]?;
        let gaps = Gaps::whole(alloc, len)?;
        Ok(EarlyMessage {
            head,
            first_part,
            buffer,
            copy,
            gaps,
        })
    }

    /// One piece came.
    pub(crate) fn open_with(
        alloc: Global,
        opening: Opening,
        at: u64,
        bytes: &[u8],
    ) -> Result<EarlyMessage, NoMemory>
        requires { at + length bytes.now ≤ opening.len }
        ensures { IfOk result (λ m. m ≡ filled (opened opening) at bytes.now) }
    {
        let mut message = EarlyMessage::open(alloc, opening)?;
        message.add(at, bytes)?;
        Ok(message)
    }

    /// What the packets say of the message.
    pub fn head(&self) -> &Head
        ensures { result.now ≡ self.now.head }
    {
        &self.head
    }

    /// How many bytes the packet brought that opened a message to be granted.
    pub fn first_part(&self) -> u64
        ensures { result ≡ self.now.first_part }
    {
        self.first_part
    }

    /// The bytes of the message, with 0 for each that did not come.
    pub fn bytes(&self) -> &[u8]
        ensures { result.now ≡ self.now.bytes }
    {
        &self.buffer
    }

    /// Gives what the packets say of the message, the bytes that did not come, all bytes, and a
    /// buffer of as many to be overwritten by a copy of them.
    pub fn into_parts(self) -> (Head, Gaps, Bytes, Vec<u8>)
        ensures head { result.0 ≡ self.head }
        ensures gaps { result.1 ≡ self.gaps }
        ensures bytes { result.2 ≡ self.bytes }
        ensures fits { length result.2 ≡ length result.1.places }
        ensures room { length result.3.items ≡ length result.2 }
    {
        let EarlyMessage {
            head,
            first_part: _,
            buffer,
            copy,
            gaps,
        } = self;
        (head, gaps, Bytes::from_vec(buffer), copy)
    }

    /// The range lies in the message, and no byte of it came.
    pub fn awaits(&self, at: u64, len: u64) -> bool
        ensures { IsTrue result ↔ Awaits at len self.now }
    {
        let places = self.gaps.places();
        match at.checked_add(len) {
            Some(end) => end <= places && len <= self.gaps.missing_from(at),
            None => false,
        }
    }

    /// Makes room for one more piece to be added without memory.
    pub(crate) fn reserve_add(&mut self) -> Result<(), NoMemory>
        ensures ok { OnOk result (self.new ≡ with_room self.old) }
        ensures err { OnErr result (self.new ≡ self.old) }
    {
        let more = self.gaps.spare().checked_add(1).ok_or(AllocError)?;
        self.gaps.reserve(more)
    }

    /// Adds a piece, which wants no memory and spends one reservation.
    pub(crate) fn add_reserved(&mut self, at: u64, bytes: &[u8])
        requires awaits { Awaits at (length bytes.now) self.old }
        requires room { 0 < room self.old }
        ensures { self.new ≡ with_spent (filled self.old at bytes.now) }
    {
        write(&mut self.buffer, at as usize, bytes);
        let _taken = self.gaps.take_reserved(at, bytes.len() as u64);
    }

    /// Adds a piece.
    pub(crate) fn add(&mut self, at: u64, bytes: &[u8]) -> Result<(), NoMemory>
        requires { Awaits at (length bytes.now) self.old }
        ensures ok { OnOk result (self.new ≡ filled self.old at bytes.now) }
        ensures err { OnErr result (self.new ≡ self.old) }
    {
        self.reserve_add()?;
        self.add_reserved(at, bytes);
        Ok(())
    }
}

/// Writes bytes over those from `at` on.
fn write(buffer: &mut [u8], at: usize, bytes: &[u8])
    requires { at + length bytes.now ≤ length buffer.old }
    ensures { buffer.new ≡ written buffer.old at bytes.now }
{
    buffer[at..at + bytes.len()].copy_from_slice(bytes);
}
