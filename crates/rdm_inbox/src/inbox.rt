//! One inbox: its queue, and the passes by which it is used.
ghost use Rattle.std.specs.Prelude.{◌≡◌, ◌<◌, ◌≤◌, ℕ, ◌++◌, [], length, IfOk, MatchResult, MatchOption};
ghost use Rattle.crossbeam_queue.specs.Passes.{view, IsPassOf, ruled_capacity};
ghost use Rattle.rdm_inbox.specs.Senders.{from_port, list_at, joined};
ghost use Rattle.rdm_inbox.specs.Letters.{opened, new_reader, with_sent, with_full, with_taken, with_empty, with_full_for, with_put, with_taken_out, but_last, last_of, with_sender, but_taken, IsWhole, IsFirst};
ghost use Rattle.rdm_inbox.specs.Passes.{WasFull};
ghost use Rattle.rdm_wire.specs.Queues.{IsFor};

use crate::counted;
use crate::post::{
    Address, LastLeaves, Line, NextJoins, Opens, PostPass, Puts, Sends, Settles, Takes, TakesOut,
};
use rdm_num::NoMemory;
use rdm_wire::Datagram;
use std::alloc::Global;
use std::marker::{Brand, Model};
use std::sync::Wait;

/// The queue of one port, which the ports' threads share.
#[derive(Drop)]
pub struct Inbox {
    line: Line,
}

impl Model for Inbox {
    ghost use Rattle.rdm_inbox.specs.Passes.{InboxState};

    ghost Value = { InboxState };

    ghost view = { λ i. record { table = i.line.table.shared.table_id; size = i.line.cap } };
}

/// By it one port sends to an inbox.
#[derive(Drop)]
pub struct SendPass {
    pass: PostPass,
}

impl Model for SendPass {
    ghost use Rattle.std.specs.Prelude.{◌≡◌, []};
    ghost use Rattle.rdm_inbox.specs.Passes.{SendState, post_of, sender_of, IsSender};

    ghost Value = { SendState };

    ghost view = { λ s. record { table = s.pass.table_id; post = sender_of (post_of s.pass) } };

    ghost invariant = { λ s. IsSender (post_of s.pass) × (s.pass.me.1 ≡ []) };
}

/// By it the port of an inbox takes from it, and sends for those ports that have no pass of their own.
#[derive(Drop)]
pub struct ReadPass {
    pass: PostPass,
}

impl Model for ReadPass {
    ghost use Rattle.std.specs.Prelude.{◌≡◌, []};
    ghost use Rattle.rdm_inbox.specs.Passes.{ReadState, post_of, reader_of, IsReader};

    ghost Value = { ReadState };

    ghost view = { λ r. record { table = r.pass.table_id; post = reader_of (post_of r.pass) } };

    ghost invariant = { λ r. IsReader (post_of r.pass) × (r.pass.me.1 ≡ []) };
}

/// A queue, and its pass, which know whose inbox it is.
fn opened_line<J: Address>(
    alloc: Global,
    _port: u32,
    _ports: u32,
    size: usize,
) -> Result<(Line, PostPass), NoMemory>
    requires some { 1 ≤ size }
    requires named { (J.port ≡ _port) × (J.ports ≡ _ports) × (J.size ≡ size) }
    ensures own { IfOk result (λ b. IsPassOf b.0 b.1 × (ruled_capacity b.0 ≡ size)) }
    ensures whose { IfOk result (λ b. view b.1 ≡ opened _port _ports size) }
{
    let (line, mut pass) = Line::ruled(alloc, size)?;
    line.another::<Opens<J>>(&mut pass);
    Ok((line, pass))
}

impl Inbox {
    /// The empty inbox of a port, and the pass that has all its senders.
    pub fn new(
        alloc: Global,
        port: u32,
        ports: u32,
        size: usize,
    ) -> Result<(Inbox, ReadPass), NoMemory>
        requires { 1 ≤ size }
        ensures { IfOk result (λ b. (b.0.size ≡ size) × (b.1 ≡ record { table = b.0.table; post = new_reader port ports size })) }
    {
        let (line, pass) = opened_line::<Brand>(alloc, port, ports, size)?;
        Ok((Inbox { line }, ReadPass { pass }))
    }

    /// Sends a datagram by a sender's own pass, or gives it back.
    pub fn send<R: Wait>(&self, rt: &R, pass: &mut SendPass, d: Datagram) -> Result<(), Datagram>
        requires of { pass.old.table ≡ self.now.table }
        requires addressed { (d.src.0 ≡ pass.old.post.from) × (d.dst.0 ≡ pass.old.post.port) }
        ensures { MatchResult result (λ _. pass.new ≡ record pass.old { post = with_sent pass.old.post d })
            (λ back. (back ≡ d) × (pass.new ≡ record pass.old { post = with_full pass.old.post }) × WasFull self.now.size pass.old.post) }
    {
        counted::push::<Sends, R>(rt, &self.line, &mut pass.pass, d)
    }

    /// Takes the next datagram, if there is one.
    pub fn receive<R: Wait>(&self, rt: &R, pass: &mut ReadPass) -> Option<Datagram>
        requires { pass.old.table ≡ self.now.table }
        ensures { MatchOption result (pass.new ≡ record pass.old { post = with_empty pass.old.post })
            (λ d. (pass.new ≡ record pass.old { post = with_taken pass.old.post d }) × IsFor pass.old.post.port pass.old.post.ports d) }
    {
        counted::pop::<Takes, R>(rt, &self.line, &mut pass.pass)
    }

    /// Sends a datagram by the pass that has all senders, or gives it back.
    pub fn put<R: Wait>(&self, rt: &R, pass: &mut ReadPass, d: Datagram) -> Result<(), Datagram>
        requires of { (pass.old.table ≡ self.now.table) × (pass.old.post.size ≡ self.now.size) }
        requires whole { IsWhole pass.old.post }
        requires addressed { (d.src.0 < pass.old.post.ports) × (d.dst.0 ≡ pass.old.post.port) }
        ensures { MatchResult result
            (λ _. (pass.new ≡ record pass.old { post = with_put pass.old.post d }) × (length (joined pass.old.post.known) < self.now.size))
            (λ back. (back ≡ d) × (pass.new ≡ record pass.old { post = with_full_for pass.old.post }) × (length (joined pass.old.post.known) ≡ self.now.size)) }
    {
        counted::push::<Puts, R>(rt, &self.line, &mut pass.pass, d)
    }

    /// Takes the next datagram by the pass that has all senders, if there is one.
    pub fn take_out<R: Wait>(&self, rt: &R, pass: &mut ReadPass) -> Option<Datagram>
        requires of { pass.old.table ≡ self.now.table }
        requires whole { IsWhole pass.old.post }
        ensures { MatchOption result ((pass.new ≡ record pass.old { post = with_empty pass.old.post }) × (joined pass.old.post.known ≡ []))
            (λ d. (pass.new ≡ record pass.old { post = with_taken_out pass.old.post d }) × IsFirst pass.old.post d) }
    {
        counted::pop::<TakesOut, R>(rt, &self.line, &mut pass.pass)
    }

    /// The last sender that a pass has gets a pass of its own.
    pub fn part(&self, pass: &mut ReadPass) -> SendPass
        requires of { pass.old.table ≡ self.now.table }
        requires some { 0 < length pass.old.post.known }
        ensures left { pass.new ≡ record pass.old { post = but_last pass.old.post } }
        ensures parted { result ≡ record { table = pass.old.table; post = last_of pass.old.post } }
    {
        SendPass {
            pass: self.line.another::<LastLeaves>(&mut pass.pass),
        }
    }

    /// Takes in the next sender that a pass lacks.
    pub fn join(&self, pass: &mut ReadPass, next: SendPass)
        requires of { (pass.old.table ≡ self.now.table) × (next.table ≡ self.now.table) }
        requires next { next.post.from ≡ length pass.old.post.known }
        ensures { pass.new ≡ record pass.old { post = with_sender pass.old.post next.post } }
    {
        self.line.absorb::<NextJoins>(&mut pass.pass, next.pass);
    }

    /// The pass that has all senders forgets what was taken, and knows what is left.
    pub fn settle(&self, pass: &mut ReadPass)
        requires of { pass.old.table ≡ self.now.table }
        requires whole { length pass.old.post.known ≡ pass.old.post.ports }
        ensures settled { pass.new ≡ record pass.old { post = but_taken pass.old.post } }
        ensures left { (p : ℕ) → p < pass.old.post.ports → from_port p pass.old.post.taken ++ list_at pass.new.post.known p ≡ list_at pass.old.post.known p }
    {
        self.line.learn_as::<Takes>(&mut pass.pass);
        self.line.another::<Settles>(&mut pass.pass);
    }
}
