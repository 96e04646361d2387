//! What one port may do with the queues.
ghost use Rattle.std.specs.Prelude.{◌≡◌, ◌<◌, ℕ, ◌++◌, [], length, MatchResult, MatchOption, Some, slice_get};
ghost use Rattle.rdm_inbox.specs.Senders.{from_port, list_at, joined};
ghost use Rattle.rdm_inbox.specs.Letters.{with_taken, with_empty, with_full_for, with_put, with_taken_out, but_last, last_of, with_sender, but_taken, IsWhole, IsFirst};
ghost use Rattle.rdm_inbox.specs.Passes.{SendState};
ghost use Rattle.rdm_wire.specs.Queues.{IsFor};
ghost use Rattle.rdm_inbox.specs.Queues.{with_reader, after_sent, after_found_full, WasFullAt};

use crate::inbox::{Inbox, ReadPass, SendPass};
use rdm_num::PortNo;
use rdm_wire::Datagram;
use std::marker::Model;
use std::mem;
use std::sync::Wait;

/// The passes of one port: by them it sends to each inbox, and takes from its own.
#[derive(Drop)]
pub struct PortPasses {
    port: PortNo,
    senders: Vec<SendPass>,
    reader: ReadPass,
}

impl Model for PortPasses {
    ghost use Rattle.rdm_inbox.specs.Queues.{PassesState};

    ghost Value = { PassesState };

    ghost view = { λ p. record { port = p.port.0; senders = p.senders.items; reader = p.reader } };
}

impl PortPasses {
    /// The passes of a port whose reader's pass has all senders.
    pub(crate) fn whole(port: PortNo, senders: Vec<SendPass>, reader: ReadPass) -> PortPasses
        ensures { result ≡ record { port = port.0; senders = senders.items; reader = reader } }
    {
        PortPasses {
            port,
            senders,
            reader,
        }
    }

    /// The port that has these passes.
    pub fn port(&self) -> PortNo
        ensures { result.0 ≡ self.now.port }
    {
        self.port
    }

    /// Sends a datagram by the port's own pass for its inbox.
    pub(crate) fn send<R: Wait>(
        &mut self,
        rt: &R,
        inbox: &Inbox,
        d: Datagram,
    ) -> Result<(), Datagram>
        requires { (s : SendState) × (slice_get self.old.senders d.dst.0 ≡ Some s) × (s.table ≡ inbox.now.table) × (s.post.from ≡ d.src.0) × (s.post.port ≡ d.dst.0) }
        ensures { MatchResult result (λ _. self.new ≡ after_sent self.old d)
            (λ back. (back ≡ d) × (self.new ≡ after_found_full self.old d.dst.0) × WasFullAt inbox.now.size self.old d.dst.0) }
    {
        inbox.send(rt, &mut self.senders[d.dst.0 as usize], d)
    }

    /// Takes a datagram from the port's own inbox.
    pub(crate) fn receive<R: Wait>(&mut self, rt: &R, inbox: &Inbox) -> Option<Datagram>
        requires { self.old.reader.table ≡ inbox.now.table }
        ensures { MatchOption result (self.new ≡ with_reader with_empty self.old)
            (λ d. (self.new ≡ with_reader (λ r. with_taken r d) self.old) × IsFor self.old.reader.post.port self.old.reader.post.ports d) }
    {
        inbox.receive(rt, &mut self.reader)
    }

    /// Sends a datagram to the port's own inbox, for a port that has no pass of its own.
    pub(crate) fn put<R: Wait>(
        &mut self,
        rt: &R,
        inbox: &Inbox,
        d: Datagram,
    ) -> Result<(), Datagram>
        requires of { (self.old.reader.table ≡ inbox.now.table) × (self.old.reader.post.size ≡ inbox.now.size) }
        requires whole { IsWhole self.old.reader.post }
        requires addressed { (d.src.0 < self.old.reader.post.ports) × (d.dst.0 ≡ self.old.reader.post.port) }
        ensures { MatchResult result
            (λ _. (self.new ≡ with_reader (λ r. with_put r d) self.old) × (length (joined self.old.reader.post.known) < inbox.now.size))
            (λ back. (back ≡ d) × (self.new ≡ with_reader with_full_for self.old) × (length (joined self.old.reader.post.known) ≡ inbox.now.size)) }
    {
        inbox.put(rt, &mut self.reader, d)
    }

    /// Takes a datagram from the port's own inbox by the pass that has all senders.
    pub(crate) fn take_out<R: Wait>(&mut self, rt: &R, inbox: &Inbox) -> Option<Datagram>
        requires of { self.old.reader.table ≡ inbox.now.table }
        requires whole { IsWhole self.old.reader.post }
        ensures { MatchOption result ((self.new ≡ with_reader with_empty self.old) × (joined self.old.reader.post.known ≡ []))
            (λ d. (self.new ≡ with_reader (λ r. with_taken_out r d) self.old) × IsFirst self.old.reader.post d) }
    {
        inbox.take_out(rt, &mut self.reader)
    }

    /// The last sender that the reader's pass has gets a pass of its own.
    pub(crate) fn part(&mut self, inbox: &Inbox) -> SendPass
        requires of { self.old.reader.table ≡ inbox.now.table }
        requires some { 0 < length self.old.reader.post.known }
        ensures left { self.new ≡ with_reader but_last self.old }
        ensures parted { result ≡ record { table = self.old.reader.table; post = last_of self.old.reader.post } }
    {
        inbox.part(&mut self.reader)
    }

    /// The reader's pass takes in the next sender that it lacks.
    pub(crate) fn join(&mut self, inbox: &Inbox, next: SendPass)
        requires of { (self.old.reader.table ≡ inbox.now.table) × (next.table ≡ inbox.now.table) }
        requires next { next.post.from ≡ length self.old.reader.post.known }
        ensures { self.new ≡ with_reader (λ r. with_sender r next.post) self.old }
    {
        inbox.join(&mut self.reader, next);
    }

    /// The reader's pass, which has all senders, forgets what was taken, and knows what is left.
    pub(crate) fn settle(&mut self, inbox: &Inbox)
        requires of { self.old.reader.table ≡ inbox.now.table }
        requires whole { length self.old.reader.post.known ≡ self.old.reader.post.ports }
        ensures settled { self.new ≡ with_reader but_taken self.old }
        ensures left { (p : ℕ) → p < self.old.reader.post.ports → from_port p self.old.reader.post.taken ++ list_at self.new.reader.post.known p ≡ list_at self.old.reader.post.known p }
    {
        inbox.settle(&mut self.reader);
    }

    /// The port has these passes for sending from now on.
    pub(crate) fn give(&mut self, senders: Vec<SendPass>)
        ensures { self.new ≡ record self.old { senders = senders.items } }
    {
        self.senders = senders;
    }

    /// The passes by which the port sent, which it has no more.
    pub(crate) fn take(&mut self) -> Vec<SendPass>
        ensures taken { result.items ≡ self.old.senders }
        ensures left { self.new ≡ record self.old { senders = [] } }
    {
        let alloc = *self.senders.allocator();
        mem::replace(&mut self.senders, Vec::new(alloc))
    }
}
