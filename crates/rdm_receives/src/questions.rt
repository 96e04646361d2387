//! What a receive answers, grants and owes.
ghost use Rattle.std.specs.Prelude.{◌≡◌, ◌↔◌, ◌<◌, [], length, IsTrue, IfNone, IfSome, is_some};
ghost use Rattle.std.specs.Option.{option_copied};
ghost use Rattle.rdm_lists.specs.Lists.{each_below};
ghost use Rattle.rdm_land.specs.Landed.{OnlyLent};
ghost use Rattle.rdm_land.specs.Arrivals.{IsFree, has_come};
ghost use Rattle.rdm_rx.specs.Left.{left};
ghost use Rattle.rdm_rx.specs.Owing.{IsOnlyPacket};
ghost use Rattle.rdm_receives.specs.Answers.{source_of, number_of, IsMissing, asks_owed, grant_owed, end_owed, after_grant};
ghost use Rattle.rdm_receives.specs.Answers as Answers;

use crate::receive::Receive;
use rdm_num::{Connid, EpLimits, Life, MsgNo, OpId, RecvReq};
use rdm_pkt::Packet;
use rdm_rx::{Asks, Receiving};

impl Receive {
    /// Its number in packets.
    pub fn number(&self) -> OpId
        ensures { result ≡ self.now.number }
    {
        self.number
    }

    /// The life that it names.
    pub fn named(&self) -> Option<Life>
        ensures { result ≡ self.now.named }
    {
        self.named
    }

    /// What it asks for.
    pub fn req(&self) -> RecvReq
        ensures { result ≡ self.now.req }
    {
        self.req
    }

    /// Whether it was matched.
    pub fn is_matched(&self) -> bool
        ensures { result ≡ is_some self.now.message }
    {
        self.receiving.is_some()
    }

    /// Its message, once it was matched.
    pub fn message(&self) -> Option<&Receiving>
        ensures { option_copied result ≡ self.now.message }
    {
        self.receiving.as_ref()
    }

    /// The life that sent its message.
    pub fn source(&self) -> Option<Life>
        ensures { result ≡ source_of self.now.message }
    {
        match &self.receiving {
            Some(receiving) => Some(receiving.source()),
            None => None,
        }
    }

    /// The number of its message among those of that life.
    pub fn message_number(&self) -> Option<MsgNo>
        ensures { result ≡ number_of self.now.message }
    {
        match &self.receiving {
            Some(receiving) => Some(receiving.number()),
            None => None,
        }
    }

    /// The range lies in its message, and no byte of it came. Bytes of a range that is lent have not
    /// come yet.
    pub fn is_missing(&self, at: u64, len: u64) -> bool
        ensures { IsTrue result ↔ IsMissing self.now at len }
    {
        self.receiving.is_some() && self.landing.awaits(at, len)
    }

    /// The range shares no place with what is lent.
    pub fn is_free(&self, at: u64, len: u64) -> bool
        ensures { IsTrue result ↔ IsFree self.now.landed at len }
    {
        self.landing.is_free(at, len)
    }

    /// The range would be missing if what is lent were, and is not.
    pub fn only_lent(&self, at: u64, len: u64) -> bool
        ensures { IsTrue result ↔ OnlyLent self.now.landed at len }
    {
        self.landing.only_lent(at, len)
    }

    /// Each place below `end` lies in the message, and its byte came.
    fn has_come_to(&self, end: u64) -> bool
        ensures { result ≡ each_below (has_come self.now.landed) end }
    {
        end <= self.landing.front()
    }

    /// It has a message, and all of it came.
    pub fn is_full(&self) -> bool
        ensures { result ≡ Answers.is_full self.now.landed self.now.message }
    {
        match &self.receiving {
            Some(receiving) => self.has_come_to(receiving.head().length),
            None => false,
        }
    }

    /// It has a message, and all that is granted of it came.
    pub fn has_landed(&self) -> bool
        ensures { result ≡ Answers.has_landed self.now.landed self.now.message }
    {
        match &self.receiving {
            Some(receiving) => self.has_come_to(receiving.granted()),
            None => false,
        }
    }

    /// Whether bytes of its message that end there pass what is granted.
    pub fn passes_grants(&self, end: u64) -> bool
        ensures { result ≡ Answers.passes_grants self.now.message end }
    {
        match &self.receiving {
            Some(receiving) => receiving.passes_grants(end),
            None => false,
        }
    }

    /// How many bytes of its message lie past its range.
    pub fn excess(&self) -> u64
        ensures { result ≡ Answers.excess self.now }
    {
        let _number = self.number;
        self.landing.excess()
    }
}
