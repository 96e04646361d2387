//! A live receive.
ghost use Rattle.std.specs.Prelude.{◌≡◌, ◌<◌, length, None, OnOk, OnErr, MatchResult};
ghost use Rattle.rdm_gaps.specs.Places.{AreMissing};
ghost use Rattle.rdm_rx.specs.Asking.{HeadFits};
ghost use Rattle.rdm_receives.specs.View.{IsReceive, posted, met, with_room, filled};

use rdm_gaps::{Gaps, NoMemory};
use rdm_land::Landing;
use rdm_mr::Part;
use rdm_num::{Head, Life, MsgNo, OpId, RecvReq};
use rdm_rx::Receiving;
use std::alloc::Global;
use std::marker::Model;

/// What an endpoint keeps of a receive that was accepted and is not over. Its range is out as a part
/// of its region, so it must be spent, by `into_part` or `into_zeros`.
pub struct Receive {
    pub(crate) number: OpId,
    pub(crate) named: Option<Life>,
    pub(crate) req: RecvReq,
    pub(crate) landing: Landing,
    pub(crate) receiving: Option<Receiving>,
}

impl Model for Receive {
    ghost use Rattle.rdm_receives.specs.View.{ReceiveView};

    ghost Value = { ReceiveView };

    ghost use Rattle.rdm_receives.specs.View.{IsOfMessage};
    ghost use Rattle.rdm_land.specs.Landed.{capacity};
    ghost use Rattle.std.specs.Prelude.{◌≡◌};

    ghost view = { λ r. record { number = r.number; named = r.named; req = r.req; landed = r.landing; message = r.receiving } };

    ghost invariant = { λ r. (capacity r.landing ≡ r.req.len) × IsOfMessage r.number r.landing r.receiving };
}

impl Receive {
    /// A receive that waits for its message, with the part that is its range. `named` is the life that
    /// it names. Where memory is wanting the part comes back.
    pub fn new(
        alloc: Global,
        number: OpId,
        named: Option<Life>,
        req: RecvReq,
        part: Part,
    ) -> Result<Receive, Part>
        requires { length part.bytes ≡ req.len }
        ensures { MatchResult result (λ receive. receive ≡ posted number named req part) (λ back. back ≡ part) }
    {
        match Landing::new(alloc, part, 0) {
            Ok(landing) => Ok(Receive {
                number,
                named,
                req,
                landing,
                receiving: None,
            }),
            Err(part) => Err(part),
        }
    }

    /// What is known of each receive, as its number, its range and its message have it.
    pub fn receive_law(&self)
        ensures { IsReceive self.now }
    {
        self.landing.agrees_law();
    }

    /// It takes an early message, of which the gaps are missing and the other bytes came. `first_part`
    /// is how many bytes the packet brought that opened a message to be granted. It wants no memory.
    pub fn take_message(
        &mut self,
        source: Life,
        number: MsgNo,
        head: Head,
        gaps: Gaps,
        bytes: &[u8],
        first_part: u64,
    )
        requires waits { self.old.message ≡ None }
        requires fits { HeadFits head }
        requires places { length gaps.places ≡ head.length }
        requires long { length bytes.now ≡ length gaps.places }
        ensures { self.new ≡ met self.old source number head gaps bytes.now first_part }
    {
        self.landing.arrive(gaps, bytes);
        self.receiving = Some(Receiving::new(source, number, self.number, head, first_part));
    }

    /// Makes room for one range to be filled.
    pub fn reserve_fill(&mut self) -> Result<(), NoMemory>
        ensures ok { OnOk result (self.new ≡ with_room self.old) }
        ensures err { OnErr result (self.new ≡ self.old) }
    {
        self.landing.reserve(1)
    }

    /// Bytes of its message came. Those past its range are discarded.
    pub fn fill(&mut self, at: u64, bytes: &[u8])
        requires missing { AreMissing at (length bytes.now) self.old.landed.missing }
        requires room { 0 < self.old.landed.room }
        ensures { self.new ≡ filled self.old at bytes.now }
    {
        let _placed = self.landing.fill(at, bytes);
    }
}
