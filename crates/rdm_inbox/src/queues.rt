//! The queues that the ports' threads share.
ghost use Rattle.std.specs.Prelude.{◌≡◌, ◌<◌, ◌≤◌, [], Some, length, slice_get, MatchResult, MatchOption};
ghost use Rattle.rdm_wire.specs.Queues.{IsFor};
ghost use Rattle.rdm_inbox.specs.Letters.{with_taken, with_empty, with_put, with_full_for, with_taken_out, IsWhole, IsFirst};
ghost use Rattle.rdm_inbox.specs.Senders.{joined};
ghost use Rattle.rdm_inbox.specs.Queues.{HaveSize, IsReadOf, ArePassesOf, with_reader, after_sent, after_found_full, WasFullAt};

use crate::inbox::Inbox;
use crate::passes::PortPasses;
use crate::port_wire::PortWire;
use rdm_wire::Datagram;
use std::marker::Model;
use std::sync::Wait;

/// One queue for each port.
#[derive(Drop)]
pub struct Queues {
    inboxes: Vec<Inbox>,
    size: usize,
}

impl Model for Queues {
    ghost use Rattle.std.specs.Prelude.{◌≤◌};
    ghost use Rattle.rdm_inbox.specs.Queues.{QueuesState, HaveSize};

    ghost Value = { QueuesState };

    ghost view = { λ q. record { tables = q.inboxes.items; size = q.size } };

    ghost invariant = { λ q. (1 ≤ q.size) × HaveSize q.size q.inboxes.items };
}

impl Queues {
    pub(crate) fn new(inboxes: Vec<Inbox>, size: usize) -> Queues
        requires { (1 ≤ size) × HaveSize size inboxes.items }
        ensures { result ≡ record { tables = inboxes.items; size = size } }
    {
        Queues { inboxes, size }
    }

    /// The queue of a port.
    pub(crate) fn inbox(&self, port: usize) -> &Inbox
        requires { port < length self.now.tables }
        ensures at { slice_get self.now.tables port ≡ Some result.now }
        ensures places { (result.now.size ≡ self.now.size) × (1 ≤ self.now.size) }
    {
        &self.inboxes[port]
    }

    /// One port's own view of the queues.
    pub fn wire<'a, R: Wait>(&'a self, rt: &'a R, passes: PortPasses) -> PortWire<'a, R>
        requires { ArePassesOf self.now.tables passes }
        ensures { result ≡ record { queues = self.now; passes = passes } }
    {
        PortWire::new(rt, self, passes)
    }

    /// Sends a datagram by a port's passes.
    pub(crate) fn send<R: Wait>(
        &self,
        rt: &R,
        passes: &mut PortPasses,
        d: Datagram,
    ) -> Result<(), Datagram>
        requires of { ArePassesOf self.now.tables passes.old }
        requires addressed { (d.src.0 ≡ passes.old.port) × (d.dst.0 < length self.now.tables) }
        ensures { MatchResult result (λ _. passes.new ≡ after_sent passes.old d)
            (λ back. (back ≡ d) × (passes.new ≡ after_found_full passes.old d.dst.0) × WasFullAt self.now.size passes.old d.dst.0) }
    {
        passes.send(rt, self.inbox(d.dst.0 as usize), d)
    }

    /// Takes a datagram by a port's passes.
    pub(crate) fn receive<R: Wait>(&self, rt: &R, passes: &mut PortPasses) -> Option<Datagram>
        requires { ArePassesOf self.now.tables passes.old }
        ensures { MatchOption result (passes.new ≡ with_reader with_empty passes.old)
            (λ d. (passes.new ≡ with_reader (λ r. with_taken r d) passes.old) × IsFor passes.old.port (length self.now.tables) d) }
    {
        let port = passes.port();
        passes.receive(rt, self.inbox(port.0 as usize))
    }

    /// Sends a datagram by the passes of its destination, whose reader's pass has all senders.
    pub(crate) fn put<R: Wait>(
        &self,
        rt: &R,
        passes: &mut PortPasses,
        d: Datagram,
    ) -> Result<(), Datagram>
        requires of { IsReadOf self.now.tables d.dst.0 passes.old.reader }
        requires whole { IsWhole passes.old.reader.post }
        requires source { d.src.0 < length self.now.tables }
        ensures places { 1 ≤ self.now.size }
        ensures answer { MatchResult result
            (λ _. (passes.new ≡ with_reader (λ r. with_put r d) passes.old) × (length (joined passes.old.reader.post.known) < self.now.size))
            (λ back. (back ≡ d) × (passes.new ≡ with_reader with_full_for passes.old) × (length (joined passes.old.reader.post.known) ≡ self.now.size)) }
    {
        passes.put(rt, self.inbox(d.dst.0 as usize), d)
    }

    /// Takes a datagram by the passes of a port whose reader's pass has all senders.
    pub(crate) fn take_out<R: Wait>(&self, rt: &R, passes: &mut PortPasses) -> Option<Datagram>
        requires of { IsReadOf self.now.tables passes.old.port passes.old.reader }
        requires whole { IsWhole passes.old.reader.post }
        ensures places { 1 ≤ self.now.size }
        ensures answer { MatchOption result ((passes.new ≡ with_reader with_empty passes.old) × (joined passes.old.reader.post.known ≡ []))
            (λ d. (passes.new ≡ with_reader (λ r. with_taken_out r d) passes.old) × IsFirst passes.old.reader.post d) }
    {
        let port = passes.port();
        passes.take_out(rt, self.inbox(port.0 as usize))
    }
}
