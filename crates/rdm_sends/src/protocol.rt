//! What came for a send, by its protocol.
ghost use Rattle.std.specs.Prelude.{◌≡◌, ◌≤◌, ◌+◌, ◌↔◌, ℕ, List, length, IsTrue, IfOk, IfSome, OnOk, OnErr};
ghost use Rattle.rdm_tx.specs.Asks as Asks;
ghost use Rattle.rdm_tx.specs.Sends.{part};
ghost use Rattle.rdm_sends.specs.Sending.{takes_asks, length_by};
ghost use Rattle.rdm_sends.specs.Pushing.{granted_span, granted_by, pushed_by, is_sent_by};
ghost use Rattle.rdm_sends.specs.Coming.{takes_grant, granted_more, TakesAsk, HasAskRoom, OwesAnswer, asks_changed, ends_early_by};

use rdm_num::{Connid, EpLimits, NoMemory, OpId};
use rdm_pkt::Packet;
use rdm_tx::{Asked, Granted, Span};
use rdm_wire::ReadAsk;
use std::alloc::Global;

/// What is kept of a send beside the packets that open its message.
#[derive(Debug, Drop)]
pub enum Protocol {
    /// The packets that open it have the whole message.
    Whole,
    /// Its receiver grants what a first part did not bring.
    Granted(Granted),
    /// Its receiver reads it.
    Read(Asked),
}

impl Protocol {
    /// Where the next granted bytes stand in the message, if any are left to push.
    #[tactic(auto, unfolding(crate::specs::Pushing::granted_span, crate::specs::Sending::length_by))]
    pub(crate) fn span(&self, limits: &EpLimits) -> Option<Span>
        ensures span { result ≡ granted_span limits.now self.now }
        ensures within { (total : ℕ) → IfSome result (λ span. span.offset + span.length ≤ length_by total self.now) }
    {
        match self {
            Protocol::Granted(granted) => granted.span(limits),
            Protocol::Whole | Protocol::Read(_) => None,
        }
    }

    /// The packet of the next granted bytes, if any are left to push, made from the bytes that stand
    /// where `span` says.
    #[tactic(auto, unfolding(crate::specs::Pushing::granted_span, crate::specs::Pushing::granted_by))]
    pub(crate) fn packet(
        &self,
        alloc: Global,
        own: Connid,
        limits: &EpLimits,
        piece: &[u8],
    ) -> Result<Option<Packet>, NoMemory>
        requires { IfSome (granted_span limits.now self.now) (λ span. length piece.now ≡ span.length) }
        ensures { IfOk result (λ packet. (bytes : List ℕ) → IfSome (granted_span limits.now self.now) (λ span. piece.now ≡ part span bytes) → packet ≡ granted_by own bytes self.now (granted_span limits.now self.now)) }
    {
        match self {
            Protocol::Granted(granted) => {
                let Some(_) = granted.span(limits) else {
                    return Ok(None);
                };
                let packet = granted.packet(alloc, own, piece)?;
                Ok(Some(packet))
            }
            Protocol::Whole | Protocol::Read(_) => Ok(None),
        }
    }

    /// A packet of granted bytes was pushed.
    #[tactic(auto, unfolding(crate::specs::Pushing::pushed_by, crate::specs::Sending::takes_asks, crate::specs::Sending::length_by))]
    pub(crate) fn step(&mut self, limits: &EpLimits)
        ensures after { self.new ≡ pushed_by limits.now self.old }
        ensures read { takes_asks self.new ≡ takes_asks self.old }
        ensures whole { (total : ℕ) → length_by total self.new ≡ length_by total self.old }
    {
        match self {
            Protocol::Granted(granted) => granted.step(limits),
            Protocol::Whole | Protocol::Read(_) => {}
        }
    }

    /// Whether all bytes were pushed that come after the packets that open the message.
    #[tactic(auto, unfolding(crate::specs::Pushing::is_sent_by))]
    pub(crate) fn is_sent(&self) -> bool
        ensures { result ≡ is_sent_by self.now }
    {
        match self {
            Protocol::Granted(granted) => granted.is_sent(),
            Protocol::Whole | Protocol::Read(_) => true,
        }
    }

    /// Whether its receiver reads the message.
    #[tactic(auto, unfolding(crate::specs::Sending::takes_asks))]
    pub(crate) fn is_read(&self) -> bool
        ensures { result ≡ takes_asks self.now }
    {
        match self {
            Protocol::Read(_) => true,
            Protocol::Whole | Protocol::Granted(_) => false,
        }
    }

    /// Whether the receive may grant so many bytes more.
    #[tactic(auto, unfolding(crate::specs::Coming::takes_grant))]
    pub(crate) fn may_grant(&self, recv: OpId, size: u64) -> bool
        ensures { result ≡ takes_grant recv.0 size self.now }
    {
        match self {
            Protocol::Granted(granted) => granted.may_grant(recv, size),
            Protocol::Whole | Protocol::Read(_) => false,
        }
    }

    /// The receive grants so many bytes more.
    #[tactic(auto, unfolding(crate::specs::Coming::takes_grant, crate::specs::Coming::granted_more, crate::specs::Sending::takes_asks, crate::specs::Sending::length_by))]
    pub(crate) fn grant(&mut self, recv: OpId, size: u64)
        requires { IsTrue (takes_grant recv.0 size self.old) }
        ensures after { self.new ≡ granted_more recv.0 size self.old }
        ensures read { takes_asks self.new ≡ takes_asks self.old }
        ensures whole { (total : ℕ) → length_by total self.new ≡ length_by total self.old }
    {
        match self {
            Protocol::Granted(granted) => granted.grant(recv, size),
            Protocol::Whole | Protocol::Read(_) => {}
        }
    }

    /// Whether the bytes may be asked for.
    pub(crate) fn may_ask(&self, ask: &ReadAsk) -> bool
        ensures may { IsTrue result ↔ TakesAsk ask.now self.now }
        ensures within { (total : ℕ) → IsTrue result → ask.now.at + ask.now.length ≤ length_by total self.now }
    {
        match self {
            Protocol::Read(asked) => asked.may_ask(ask),
            Protocol::Whole | Protocol::Granted(_) => false,
        }
    }

    /// Makes room for one ask, where there is none.
    #[tactic(auto, unfolding(crate::specs::Coming::asks_changed, crate::specs::Sending::takes_asks, crate::specs::Sending::length_by))]
    pub(crate) fn reserve_ask(&mut self) -> Result<(), NoMemory>
        ensures ok { OnOk result (self.new ≡ asks_changed Asks.with_room self.old) }
        ensures err { OnErr result (self.new ≡ self.old) }
        ensures read { takes_asks self.new ≡ takes_asks self.old }
        ensures whole { (total : ℕ) → length_by total self.new ≡ length_by total self.old }
    {
        match self {
            Protocol::Read(asked) => asked.reserve_ask(),
            Protocol::Whole | Protocol::Granted(_) => Ok(()),
        }
    }

    /// The bytes are asked for, in room that was made, and one more answer is owed.
    #[tactic(auto, unfolding(crate::specs::Coming::asks_changed, crate::specs::Sending::takes_asks, crate::specs::Sending::length_by))]
    pub(crate) fn ask(&mut self, ask: &ReadAsk)
        requires may { TakesAsk ask.now self.old }
        requires room { HasAskRoom self.old }
        ensures after { self.new ≡ asks_changed (λ a. Asks.with_reserved_ask a ask.now) self.old }
        ensures read { takes_asks self.new ≡ takes_asks self.old }
        ensures whole { (total : ℕ) → length_by total self.new ≡ length_by total self.old }
    {
        match self {
            Protocol::Read(asked) => asked.ask_reserved(ask),
            Protocol::Whole | Protocol::Granted(_) => {}
        }
    }

    /// An answer was pushed.
    #[tactic(auto, unfolding(crate::specs::Coming::asks_changed, crate::specs::Sending::takes_asks, crate::specs::Sending::length_by))]
    pub(crate) fn answer(&mut self)
        requires { OwesAnswer self.old }
        ensures after { self.new ≡ asks_changed Asks.with_answer self.old }
        ensures read { takes_asks self.new ≡ takes_asks self.old }
        ensures whole { (total : ℕ) → length_by total self.new ≡ length_by total self.old }
    {
        match self {
            Protocol::Read(asked) => asked.answer(),
            Protocol::Whole | Protocol::Granted(_) => {}
        }
    }

    /// Whether an end of the read would come early.
    #[tactic(auto, unfolding(crate::specs::Coming::ends_early_by))]
    pub(crate) fn is_early_end(&self) -> bool
        ensures { result ≡ ends_early_by self.now }
    {
        match self {
            Protocol::Read(asked) => asked.is_early_end(),
            Protocol::Whole | Protocol::Granted(_) => false,
        }
    }
}
