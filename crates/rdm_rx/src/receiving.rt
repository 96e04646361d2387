//! A receive that was matched to a message.
ghost use Rattle.std.specs.Prelude.{◌≡◌, ◌<◌, ◌&&◌, ◌==◌, [], IfNone, IfSome, length, nat_lt};
ghost use Rattle.rdm_num.specs.Lives.{same_life};
ghost use Rattle.rdm_model.specs.Replies.{asks_for, grant_for, end_for};
ghost use Rattle.rdm_rx.specs.Asking.{HeadFits};
ghost use Rattle.rdm_rx.specs.Left.{left};
ghost use Rattle.rdm_rx.specs.Owing.{IsOnlyPacket};
ghost use Rattle.rdm_rx.specs.Receiving.{window_if, granted_if};

use crate::{Asks, end, grant, next_window};
use rdm_num::{Connid, EpLimits, Head, Life, MsgNo, OpId, is_same_life};
use rdm_pkt::Packet;
use std::marker::Model;

/// What an endpoint keeps of a matched receive beside the bytes that landed: which message it takes,
/// and how much of it is granted.
#[derive(Debug, Drop)]
pub struct Receiving {
    source: Life,
    number: MsgNo,
    recv: OpId,
    head: Head,
    granted: u64,
}

impl Model for Receiving {
    ghost use Rattle.std.specs.Prelude.{◌<◌, ◌^◌};
    ghost use Rattle.rdm_rx.specs.Asking.{HeadFits};
    ghost use Rattle.rdm_rx.specs.Receiving.{ReceivingView};

    ghost Value = { ReceivingView };

    ghost view = { λ r. record { source = r.source; number = r.number; recv = r.recv; head = r.head; granted = r.granted } };

    ghost invariant = { λ r. HeadFits r.head × (r.head.length < 2 ^ 64) };
}

impl Receiving {
    /// A receive that was just matched. `first_part` is how many bytes the packet brought that opened
    /// a message to be granted, and 0 for any other message.
    pub fn new(source: Life, number: MsgNo, recv: OpId, head: Head, first_part: u64) -> Receiving
        requires { HeadFits head }
        ensures { result ≡ record { source = source; number = number; recv = recv; head = head; granted = first_part } }
    {
        Receiving {
            source,
            number,
            recv,
            head,
            granted: first_part,
        }
    }

    /// The life that sent the message.
    pub fn source(&self) -> Life
        ensures { result ≡ self.now.source }
    {
        self.source
    }

    /// The number of the message among those of its life.
    pub fn number(&self) -> MsgNo
        ensures { result ≡ self.now.number }
    {
        self.number
    }

    /// What the packets of the message say of it.
    pub fn head(&self) -> &Head
        ensures { result.now ≡ self.now.head }
    {
        &self.head
    }

    /// Whether it takes that message.
    pub fn is_of(&self, source: Life, number: MsgNo) -> bool
        ensures { result ≡ (same_life self.now.source source && self.now.number.0 == number.0) }
    {
        is_same_life(self.source, source) && self.number.0 == number.0
    }

    /// How many bytes of the message are granted.
    pub fn granted(&self) -> u64
        ensures { result ≡ self.now.granted }
    {
        self.granted
    }

    /// Whether bytes that end there pass what is granted.
    pub fn passes_grants(&self, end: u64) -> bool
        ensures { result ≡ nat_lt self.now.granted end }
    {
        self.granted < end
    }

    /// The asks that are owed at the match, if there are any.
    pub fn asks(&self) -> Option<Asks>
        ensures none { IfNone result (asks_for self.now.head.shape self.now.recv ≡ []) }
        ensures some { IfSome result (λ asks. (left asks ≡ asks_for self.now.head.shape self.now.recv) × (0 < length (left asks))) }
    {
        Asks::of(&self.head, self.recv)
    }

    /// How many bytes `grant_next` would grant. `landed` says whether all that is granted has landed.
    #[tactic(auto, unfolding(crate::specs::Receiving::window_if))]
    pub fn next_window(&self, limits: &EpLimits, landed: bool) -> u64
        ensures { result ≡ window_if landed limits.now self.now }
    {
        if landed {
            next_window(limits, &self.head, self.granted)
        } else {
            0
        }
    }

    /// Grants the next window, if it has a byte: the packet that says so to the sender, from the life
    /// with that identifier. It is called at the match and each time that bytes landed.
    pub fn grant_next(&mut self, own: Connid, limits: &EpLimits, landed: bool) -> Option<Packet>
        ensures packet { IsOnlyPacket own result (λ life. grant_for life self.old.head.shape self.old.recv (window_if landed limits.now self.old)) }
        ensures after { self.new ≡ granted_if landed limits.now self.old }
    {
        let size = self.next_window(limits, landed);
        self.granted += size;
        grant(own, &self.head, self.recv, size)
    }

    /// What ends the message, once all of it landed.
    pub fn end(&self, own: Connid) -> Option<Packet>
        ensures { IsOnlyPacket own result (λ life. end_for life self.now.head.shape self.now.head.confirm self.now.number self.now.recv) }
    {
        end(own, &self.head, self.number, self.recv)
    }
}
