//! What a receive owes to its sender, and what comes back of it.
ghost use Rattle.std.specs.Prelude.{◌≡◌, ◌<◌, [], length, min, IfNone, IfSome};
ghost use Rattle.rdm_mr.specs.Tiles.{AreBytes, IsAll};
ghost use Rattle.rdm_rx.specs.Left.{left};
ghost use Rattle.rdm_rx.specs.Owing.{IsOnlyPacket};
ghost use Rattle.rdm_receives.specs.Answers.{asks_owed, grant_owed, end_owed, after_grant, AreZeros};

use crate::receive::Receive;
use rdm_mr::Part;
use rdm_num::{Connid, EpLimits};
use rdm_pkt::Packet;
use rdm_rx::Asks;

impl Receive {
    /// The asks that its match makes owed, if there are any.
    pub fn asks(&self) -> Option<Asks>
        ensures none { IfNone result (asks_owed self.now.message ≡ []) }
        ensures some { IfSome result (λ asks. (left asks ≡ asks_owed self.now.message) × (0 < length (left asks))) }
    {
        match &self.receiving {
            Some(receiving) => receiving.asks(),
            None => None,
        }
    }

    /// Grants the next window, if all that was granted has landed and the window has a byte: the packet
    /// that says so to the sender, from the life with that identifier. It is called at the match and
    /// each time that bytes came.
    pub fn grant_next(&mut self, own: Connid, limits: &EpLimits) -> Option<Packet>
        ensures packet { IsOnlyPacket own result (λ life. grant_owed life limits.now self.old.landed self.old.message) }
        ensures after { self.new ≡ after_grant limits.now self.old }
    {
        let landed = self.has_landed();
        match &mut self.receiving {
            Some(receiving) => receiving.grant_next(own, limits, landed),
            None => None,
        }
    }

    /// What ends its message, once all of it came: the end of a read, or the receipt that the sender
    /// waits for.
    pub fn end(&self, own: Connid) -> Option<Packet>
        ensures { IsOnlyPacket own result (λ life. end_owed life self.now.landed self.now.message) }
    {
        if !self.is_full() {
            return None;
        }
        match &self.receiving {
            Some(receiving) => receiving.end(own),
            None => None,
        }
    }

    /// The bytes of its message that fit, once nothing of its range is lent. They aren't copied.
    pub fn bytes(&self) -> &[u8]
        requires { self.now.landed.lent ≡ [] }
        ensures long { length result.now ≡ min (length self.now.landed.missing) self.now.req.len }
        ensures there { AreBytes 0 result.now self.now.landed.tiles.cells }
    {
        self.landing.agrees_law();
        let length = match &self.receiving {
            Some(receiving) => receiving.head().length,
            None => 0,
        };
        let count = length.min(self.req.len) as usize;
        match self.landing.bytes(0, count) {
            Some(bytes) => bytes,
            None => unreachable!(),
        }
    }

    /// Its part, once nothing of it is lent.
    pub fn into_part(self) -> Part
        requires { self.landed.lent ≡ [] }
        ensures { IsAll self.landed.tiles result }
    {
        let Receive {
            number: _,
            named: _,
            req: _,
            landing,
            receiving: _,
        } = self;
        landing.into_part()
    }

    /// The same, with zeros in the place of its bytes.
    pub fn into_zeros(self) -> Part
        requires { self.landed.lent ≡ [] }
        ensures { AreZeros self.landed.tiles result }
    {
        let mut part = self.into_part();
        part.bytes_mut().fill(0);
        part
    }
}
