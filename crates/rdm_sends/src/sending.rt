//! One live send.
ghost use Rattle.std.specs.Prelude.{◌≡◌, ◌≤◌, ◌<◌, ◌+◌, ◌↔◌, length, IsTrue, IfOk, IfSome, OnOk, OnErr};
ghost use Rattle.rdm_num.specs.Lives.{same_life};
ghost use Rattle.rdm_model.specs.Dues as Dues;
ghost use Rattle.rdm_model.specs.Targets.{is_long};
ghost use Rattle.rdm_tx.specs.Asks as Asks;
ghost use Rattle.rdm_sends.specs.Beginning.{new_sending};
ghost use Rattle.rdm_sends.specs.Pushing.{IsSpanNext, HasNext, IsLengthNext, IsPacketNext, IsPushed, IsSent, EndsByPush};
ghost use Rattle.rdm_sends.specs.Coming as Coming;

use crate::begin::{Own, Place, count_bytes, message_for, protocol_for};
use crate::protocol::Protocol;
use rdm_num::{Connid, EpLimits, Life, MsgNo, NoMemory, OpId, Parts, SendReq, is_same_life};
use rdm_pkt::{Kind, Packet};
use rdm_tx::{Cursor, Message, Span};
use rdm_wire::ReadAsk;
use std::alloc::Global;
use std::marker::Model;

/// A send that is not over. Its bytes stand in regions, in ranges that it holds.
#[derive(Debug, Drop)]
pub struct Sending {
    to: Life,
    message: Message,
    parts: Parts,
    total: u64,
    cursor: Cursor,
    protocol: Protocol,
}

impl Model for Sending {
    ghost use Rattle.rdm_sends.specs.Sending.{SendingView};

    ghost Value = { SendingView };

    ghost use Rattle.rdm_sends.specs.Sending.{IsSending};

    ghost view = { λ s. record { to = s.to; message = s.message; parts = s.parts; total = s.total; given = s.cursor; protocol = s.protocol } };

    ghost invariant = { λ s. IsSending (record { to = s.to; message = s.message; parts = s.parts; total = s.total; given = s.cursor; protocol = s.protocol }) };
}

impl Sending {
    /// A send of the bytes that stand in the ranges of the request. Where memory runs out nothing is
    /// kept.
    pub fn new(alloc: Global, own: &Own, place: &Place, req: &SendReq) -> Result<Sending, NoMemory>
        requires mtu { 256 ≤ own.now.limits.mtu }
        ensures { IfOk result (λ sending. sending ≡ new_sending own.now place.now req.now) }
    {
        let parts = req.parts.clone()?;
        let total = count_bytes(parts.as_slice())?;
        let message = message_for(own, place, req, total);
        let protocol = protocol_for(alloc, &own.limits, &message, total)?;
        Ok(Sending {
            to: place.to,
            message,
            parts,
            total,
            cursor: Cursor::new(),
            protocol,
        })
    }

    /// Where the bytes of the next packet stand in the message, if something is to be pushed. They
    /// are none where a packet carries none.
    pub fn span(&self, limits: &EpLimits) -> Option<Span>
        requires mtu { 256 ≤ limits.now.mtu }
        ensures span { IsSpanNext limits.now self.now result }
        ensures within { IfSome result (λ span. span.offset + span.length ≤ self.now.total) }
    {
        match self.cursor.span(limits, &self.message, self.total) {
            Some(span) => Some(span),
            None => self.protocol.span(limits),
        }
    }

    /// Whether something is to be pushed.
    pub fn has_next(&self, limits: &EpLimits) -> bool
        requires mtu { 256 ≤ limits.now.mtu }
        ensures { HasNext limits.now self.now result }
    {
        self.span(limits).is_some()
    }

    /// The next packet, from the life with that identifier, if something is to be pushed, made from
    /// the bytes that stand where `span` says. It copies these alone, and the send stays as it was.
    pub fn packet(
        &self,
        alloc: Global,
        own: Connid,
        limits: &EpLimits,
        piece: &[u8],
    ) -> Result<Option<Packet>, NoMemory>
        requires mtu { 256 ≤ limits.now.mtu }
        requires length { IsLengthNext limits.now self.now (length piece.now) }
        ensures { IfOk result (IsPacketNext own limits.now self.now piece.now) }
    {
        match self.cursor.span(limits, &self.message, self.total) {
            Some(_) => self
                .cursor
                .packet(alloc, limits, &self.message, self.total, piece),
            None => self.protocol.packet(alloc, own, limits, piece),
        }
    }

    /// The next packet was pushed.
    pub fn step(&mut self, limits: &EpLimits)
        requires mtu { 256 ≤ limits.now.mtu }
        ensures { IsPushed limits.now self.old self.new }
    {
        match self.cursor.span(limits, &self.message, self.total) {
            Some(_) => self.cursor.step(),
            None => self.protocol.step(limits),
        }
    }

    /// Whether the pushes have ended it: neither its receiver ends it nor a receipt, and all of it was
    /// pushed.
    pub fn is_over(&self, limits: &EpLimits) -> bool
        requires mtu { 256 ≤ limits.now.mtu }
        ensures { EndsByPush limits.now self.now result }
    {
        !self.protocol.is_read() && !self.message.confirm && self.is_sent(limits)
    }

    /// Whether all of it was pushed. Of a send that its receiver reads, only the packets that open it
    /// are.
    pub fn is_sent(&self, limits: &EpLimits) -> bool
        requires mtu { 256 ≤ limits.now.mtu }
        ensures { IsSent limits.now self.now result }
    {
        self.cursor.is_done(limits, &self.message, self.total) && self.protocol.is_sent()
    }

    /// Whether the receive may grant so many bytes more. What comes from another life is tested so
    /// before it is taken.
    pub fn may_grant(&self, recv: OpId, size: u64) -> bool
        ensures { result ≡ Coming.may_grant recv.0 size self.now }
    {
        self.protocol.may_grant(recv, size)
    }

    /// The receive grants so many bytes more.
    pub fn grant(&mut self, recv: OpId, size: u64)
        requires { IsTrue (Coming.may_grant recv.0 size self.old) }
        ensures { self.new ≡ Coming.with_grant recv.0 size self.old }
    {
        self.protocol.grant(recv, size);
    }

    /// Whether the bytes may be asked for. What comes from another life is tested so before it is
    /// taken.
    pub fn may_ask(&self, ask: &ReadAsk) -> bool
        ensures may { IsTrue result ↔ Coming.TakesAsk ask.now self.now.protocol }
        ensures within { IsTrue result → ask.now.at + ask.now.length ≤ self.now.total }
    {
        self.protocol.may_ask(ask)
    }

    /// Makes room for one ask, where there is none. A send that is not read takes no asks and stays
    /// as it was.
    pub fn reserve_ask(&mut self) -> Result<(), NoMemory>
        ensures ok { OnOk result (self.new ≡ Coming.with_asks Asks.with_room self.old) }
        ensures err { OnErr result (self.new ≡ self.old) }
    {
        self.protocol.reserve_ask()
    }

    /// The bytes are asked for, in room that was made, and one more answer is owed.
    pub fn ask(&mut self, ask: &ReadAsk)
        requires may { Coming.TakesAsk ask.now self.old.protocol }
        requires room { Coming.HasAskRoom self.old.protocol }
        ensures { self.new ≡ Coming.with_asks (λ a. Asks.with_reserved_ask a ask.now) self.old }
    {
        self.protocol.ask(ask);
    }

    /// An answer was pushed.
    pub fn answer(&mut self)
        requires { Coming.OwesAnswer self.old.protocol }
        ensures { self.new ≡ Coming.with_asks Asks.with_answer self.old }
    {
        self.protocol.answer();
    }

    /// Whether an end of the read would come early: some byte was not asked for, or some answer was
    /// not pushed.
    pub fn is_early_end(&self) -> bool
        ensures { result ≡ Coming.ends_early_by self.now.protocol }
    {
        self.protocol.is_early_end()
    }

    /// Whether it goes to that life.
    pub fn is_to(&self, life: Life) -> bool
        ensures { result ≡ same_life self.now.to life }
    {
        is_same_life(self.to, life)
    }

    /// The life that it goes to.
    pub fn to(&self) -> Life
        ensures { result ≡ self.now.to }
    {
        self.to
    }

    /// Whether its receiver reads it.
    pub fn is_read(&self) -> bool
        ensures { result ≡ Dues.is_read self.now.message.kind }
    {
        self.protocol.is_read()
    }

    /// Whether its receiver grants what a first part did not bring.
    #[tactic(auto, unfolding(rdm_model::specs::Targets::is_long))]
    pub fn is_granted(&self) -> bool
        ensures { result ≡ is_long self.now.message.kind }
    {
        matches!(self.message.kind, Kind::LongCts)
    }

    /// Whether a receipt ends it.
    pub fn is_confirmed(&self) -> bool
        ensures { result ≡ Coming.is_confirmed self.now }
    {
        self.message.confirm && !self.protocol.is_read()
    }

    /// Its number among the sends of its life.
    pub fn number(&self) -> OpId
        ensures { result ≡ self.now.message.send_id }
    {
        self.message.send_id
    }

    /// The number of its message among those to the same life.
    pub fn message_number(&self) -> MsgNo
        ensures { result ≡ self.now.message.no }
    {
        self.message.no
    }

    /// How many bytes the message has.
    pub fn total(&self) -> u64
        ensures { result ≡ self.now.total }
    {
        self.total
    }

    /// The ranges that the bytes stand in, one after another.
    pub fn parts(&self) -> &Parts
        ensures { result.now ≡ self.now.parts }
    {
        &self.parts
    }
}

/// Where the bytes stand in the message that an ask is for.
pub fn given_span(ask: &ReadAsk) -> Span
    ensures { result ≡ Coming.given_span ask.now }
{
    Span {
        offset: ask.at,
        length: ask.length,
    }
}
