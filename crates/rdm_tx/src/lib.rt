//! The packets that a send owes, one by one, from the start and by grants: each is made when it is asked
//! for. And what is asked of a send that its receiver reads.
#![tactic(auto)]

ghost use Rattle.std.specs.Prelude.{◌≡◌, ◌≤◌, ◌<◌, ◌+◌, ◌==◌, ℕ, List, length, nat_le, IfOk, IfSome, OnErr};
ghost use Rattle.rdm_tx.specs.Sends.{packet_after, given_after, packet_count, IsSpanAfter, IsPacketWith};
ghost use Rattle.rdm_tx.specs.Laws.{StepsGiveOpenings, SpansFollow, PacketsCarryParts};

mod asked;
mod granted;
mod message;
mod spans;

pub use asked::Asked;
pub use granted::{Granted, granted_law};
pub use message::Message;
use rdm_num::{EpLimits, NoMemory};
use rdm_pkt::Packet;
/// The protocol by which a message goes, which a send chooses before it gives packets.
pub use rdm_pkt::choose;
pub use spans::Span;
use std::alloc::Global;
use std::marker::Model;

/// How many packets of a message were given.
#[derive(Clone, Copy, Debug, PartialEq, Eq)]
pub struct Cursor {
    given: usize,
}

impl Model for Cursor {
    ghost use Rattle.std.specs.Prelude.{ℕ};

    ghost Value = { ℕ };

    ghost view = { λ c. c.given };

    ghost inverse = { λ n. record { given = n } };
}

impl Cursor {
    /// Nothing is given yet.
    pub fn new() -> Cursor
        ensures { result ≡ 0 }
    {
        Cursor { given: 0 }
    }

    /// The next packet, if one is left. It copies the bytes of that packet alone. Where memory runs
    /// out the same packet is still the next one. The mtu has room for the headers of each packet,
    /// and a read list has up to four ranges.
    pub fn next(
        &mut self,
        alloc: Global,
        limits: &EpLimits,
        message: &Message,
        bytes: &[u8],
    ) -> Result<Option<Packet>, NoMemory>
        requires mtu { 256 ≤ limits.now.mtu }
        requires ranges { length message.now.iov ≤ 4 }
        ensures packet { IfOk result (λ packet. packet ≡ packet_after limits.now message.now bytes.now self.old) }
        ensures after { IfOk result (λ packet. self.new ≡ given_after self.old packet) }
        ensures err { OnErr result (self.new ≡ self.old) }
    {
        let total = bytes.len() as u64;
        let Some(span) = self.span(limits, message, total) else {
            return Ok(None);
        };
        let end = span.offset + span.length;
        let piece = &bytes[span.offset as usize..end as usize];
        let packet = self.packet(alloc, limits, message, total, piece)?;
        self.step();
        Ok(packet)
    }

    /// Where the bytes of the next packet stand in a message of so many bytes, if a packet is left.
    /// A read list carries none of them, which is an empty span.
    pub fn span(&self, limits: &EpLimits, message: &Message, total: u64) -> Option<Span>
        requires mtu { 256 ≤ limits.now.mtu }
        requires ranges { length message.now.iov ≤ 4 }
        ensures span { IsSpanAfter limits.now message.now total self.now result }
        ensures within { IfSome result (λ span. span.offset + span.length ≤ total) }
        ensures few { IfSome result (λ _. self.now < usize.MAX) }
    {
        message.span(limits, total, self.given)
    }

    /// The next packet of a message of so many bytes, if one is left, made from the bytes that stand
    /// where `span` says. It copies these alone, and the cursor stays.
    pub fn packet(
        &self,
        alloc: Global,
        limits: &EpLimits,
        message: &Message,
        total: u64,
        piece: &[u8],
    ) -> Result<Option<Packet>, NoMemory>
        requires mtu { 256 ≤ limits.now.mtu }
        requires ranges { length message.now.iov ≤ 4 }
        ensures { IfOk result (IsPacketWith limits.now message.now total self.now piece.now) }
    {
        let Some(span) = message.span(limits, total, self.given) else {
            return Ok(None);
        };
        let form = message.form(alloc, limits, total, span.offset, piece)?;
        Ok(Some(Packet::Rtm {
            no: message.no,
            tag: message.tag,
            confirm: message.says_confirm(),
            opt: message.opt,
            form,
        }))
    }

    /// The packet that was next is given. `span` says of a cursor with a packet left that it can
    /// step.
    pub fn step(&mut self)
        requires { self.old < usize.MAX }
        ensures { self.new ≡ self.old + 1 }
    {
        self.given += 1;
    }

    /// No packet of a message of so many bytes is left.
    pub fn is_done(&self, limits: &EpLimits, message: &Message, total: u64) -> bool
        requires mtu { 256 ≤ limits.now.mtu }
        requires ranges { length message.now.iov ≤ 4 }
        ensures { (bytes : List ℕ) → length bytes ≡ total → result ≡ nat_le (packet_count limits.now message.now bytes) self.now }
    {
        self.span(limits, message, total).is_none()
    }

    /// One packet of a message of so many bytes is left, and no more.
    pub fn is_last(&self, limits: &EpLimits, message: &Message, total: u64) -> bool
        requires mtu { 256 ≤ limits.now.mtu }
        requires ranges { length message.now.iov ≤ 4 }
        ensures { (bytes : List ℕ) → length bytes ≡ total → result ≡ (self.now + 1 == packet_count limits.now message.now bytes) }
    {
        match self.span(limits, message, total) {
            None => false,
            Some(_) => message.span(limits, total, self.given + 1).is_none(),
        }
    }
}

/// Packets that are made one by one from the bytes at their spans are those that open the message.
/// Their spans follow each other from its start without a gap, and each packet carries the bytes
/// that stand at its span.
pub fn cursor_law()
    ensures packets { StepsGiveOpenings }
    ensures spans { SpansFollow }
    ensures bytes { PacketsCarryParts }
{}
