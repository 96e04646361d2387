//! Regions, the lives that are held as current, and sends.
ghost use Rattle.std.specs.Prelude.{◌≡◌, ◌⊎◌, ◌<◌, IfOk, OnOk, OnErr, MatchResult, Some, length};
ghost use Rattle.rdm_ep.specs.Sending as Sending;
ghost use Rattle.rdm_ep.specs.Sending.{after_reg, after_send_to, InsertsAs, SendsAs, CanSend, IsNoSend, is_again};

use crate::answer::{InsertRefused, Inserted, SendAnswer};
use crate::current::current_of;
use crate::endpoint::Endpoint;
use crate::packets::eager;
use crate::peers::{cannot_confirm, peer_of, write_peer};
use crate::ranges::{gather, overlaps, passes_end, region_of};
use crate::state::{AcceptedSend, Outbound, Peer};
use rdm_model::{PoolName, SendWhy};
use rdm_num::{Life, MsgNo, NoMemory, RegionNo, SendNo, SendReq, Span, is_same_life};
use std::alloc::Global;

impl Endpoint {
    /// Registers a region with these bytes. Regions are numbered from 0.
    #[tactic(auto, unfolding(crate::specs::Sending::after_reg))]
    pub fn reg(&mut self, alloc: Global, bytes: &[u8]) -> Result<RegionNo, NoMemory>
        requires { length self.old.regions < 4294967295 }
        ensures number { IfOk result (λ n. n.0 ≡ length self.old.regions) }
        ensures ok { OnOk result (self.new ≡ after_reg self.old bytes.now) }
        ensures err { OnErr result (self.new ≡ self.old) }
    {
        let region = Vec::from_slice(alloc, bytes)?;
        let number = RegionNo(self.regions.len() as u32);
        self.regions.push(region)?;
        Ok(number)
    }

    /// Holds a life as the current one of its port.
    #[tactic(auto, unfolding(crate::specs::Sending::insert_answer, crate::specs::Sending::after_insert, crate::specs::View::current_in))]
    pub fn insert(&mut self, life: Life) -> Result<Inserted, InsertRefused>
        ensures { InsertsAs self.old self.new life result }
    {
        match current_of(&self.currents, life.port) {
            None => {
                let Ok(()) = self.currents.reserve(1) else {
                    return Err(InsertRefused::Memory);
                };
                self.currents.push_reserved(life);
                Ok(Inserted::Inserted)
            }
            Some(old) if is_same_life(old, life) => Ok(Inserted::Same),
            Some(_) => Err(InsertRefused::Superseded),
        }
    }

    /// Accepts a send or says why not. Its bytes are those that its ranges have now.
    #[tactic(auto, unfolding(crate::specs::Sending::after_send))]
    pub fn send(&mut self, alloc: Global, s: &SendReq) -> SendAnswer
        requires { self.old.sends < 4294967295 }
        ensures answer { (result ≡ SendAnswer.Memory) ⊎ (result ≡ Sending.send_answer self.old s.now) }
        ensures after { SendsAs self.old self.new s.now result }
    {
        match self.check_send(s) {
            Err(answer) => answer,
            Ok(accepted) => match self.accept_send(alloc, s, accepted) {
                Ok(send) => SendAnswer::Did {
                    send,
                    msg: accepted.msg,
                },
                Err(_) => SendAnswer::Memory,
            },
        }
    }

    /// What a send would answer, want of memory aside.
    pub fn answer_send(&self, s: &SendReq) -> SendAnswer
        ensures { result ≡ Sending.send_answer self.now s.now }
    {
        match self.check_send(s) {
            Ok(accepted) => SendAnswer::Did {
                send: SendNo(self.sends),
                msg: accepted.msg,
            },
            Err(answer) => answer,
        }
    }

    /// Whether a send would wait, for a place in a pool or for a handshake.
    #[tactic(auto, unfolding(crate::specs::Sending::is_again))]
    pub fn waits_send(&self, s: &SendReq) -> bool
        ensures { result ≡ is_again (Sending.send_answer self.now s.now) }
    {
        match self.check_send(s) {
            Ok(_) => false,
            Err(SendAnswer::NotYet | SendAnswer::Again(_)) => true,
            Err(_) => false,
        }
    }

    /// The life and the number of a send's message, or why the send is not accepted.
    #[tactic(auto, unfolding(crate::specs::Sending::send_answer, crate::specs::Sending::has_no_number, crate::specs::Sending::number_to, crate::specs::Sending::number_to_current, crate::specs::Sending::cannot_confirm, crate::specs::Sending::waits_for_handshake, crate::specs::Sending::known_in, crate::specs::Sending::cq_is_full, crate::specs::View::cq_in, crate::specs::View::current_in, rdm_lists::specs::Lists::first_case))]
    fn check_send(&self, s: &SendReq) -> Result<AcceptedSend, SendAnswer>
        ensures { MatchResult result (λ a. CanSend self.now s.now a) (λ r. (r ≡ Sending.send_answer self.now s.now) × IsNoSend r) }
    {
        let parts = s.parts.as_slice();
        if self.names_no_region(parts) {
            return Err(SendAnswer::Refused(SendWhy::NoRegion));
        }
        if self.passes_an_end(parts) {
            return Err(SendAnswer::Refused(SendWhy::Range));
        }
        let Some(to) = current_of(&self.currents, s.to) else {
            return Err(SendAnswer::Refused(SendWhy::NoEntry));
        };
        if self.meets_a_receive(parts) {
            return Err(SendAnswer::Refused(SendWhy::Busy));
        }
        let number = u64::from(self.limits.first).saturating_add(peer_of(&self.peers, to).sent);
        if 4_294_967_296 <= number {
            return Err(SendAnswer::Refused(SendWhy::Numbers));
        }
        if s.confirm {
            let known = peer_of(&self.peers, to).known;
            if cannot_confirm(self.features, known) {
                return Err(SendAnswer::Refused(SendWhy::NoConfirm));
            }
            if known.is_none() {
                return Err(SendAnswer::NotYet);
            }
        }
        if self.limits.tx as usize <= self.outgoing.len() {
            return Err(SendAnswer::Again(PoolName::Tx));
        }
        if self.cq_is_full() {
            return Err(SendAnswer::Again(PoolName::Cq));
        }
        Ok(AcceptedSend {
            to,
            msg: MsgNo(number as u32),
        })
    }

    /// Keeps an accepted send, with its packet.
    #[tactic(auto, using(crate::proofs::PeersLemmas::with_peer_put), unfolding(crate::specs::Sending::after_send_to, crate::specs::Sending::outbound, crate::specs::Sending::number_to))]
    fn accept_send(
        &mut self,
        alloc: Global,
        s: &SendReq,
        accepted: AcceptedSend,
    ) -> Result<SendNo, NoMemory>
        requires sends { self.old.sends < 4294967295 }
        requires can { CanSend self.old s.now accepted }
        ensures number { IfOk result (λ n. n.0 ≡ self.old.sends) }
        ensures ok { OnOk result (self.new ≡ after_send_to self.old s.now (Some accepted.to)) }
        ensures err { OnErr result (self.new ≡ self.old) }
    {
        self.outgoing.reserve(1)?;
        self.peers.reserve(1)?;
        let req = s.clone()?;
        let bytes = gather(alloc, &self.regions, &s.parts)?;
        let peer = peer_of(&self.peers, accepted.to);
        let packet = eager(self.life, peer.known, accepted.msg, s, bytes);
        let number = SendNo(self.sends);
        let sent = peer.sent + 1;
        write_peer(&mut self.peers, accepted.to, Peer { sent, ..peer });
        self.outgoing.push_reserved(Outbound {
            number,
            to: accepted.to,
            req,
            packet,
        });
        self.sends += 1;
        Ok(number)
    }

    /// One of the ranges is of a region that was not registered.
    #[tactic(auto, unfolding(crate::specs::Sending::names_no_region))]
    fn names_no_region(&self, parts: &[Span]) -> bool
        ensures { result ≡ Sending.names_no_region self.now parts.now }
    {
        parts.iter().any(|part| self.has_no_region(part.region))
    }

    /// No region of that number was registered.
    #[tactic(auto, unfolding(crate::specs::Sending::has_no_region))]
    fn has_no_region(&self, region: RegionNo) -> bool
        ensures { result ≡ Sending.has_no_region self.now region.0 }
    {
        self.regions.len() <= region.0 as usize
    }

    /// One of the ranges passes the end of its region.
    #[tactic(auto, unfolding(crate::specs::Sending::passes_an_end))]
    fn passes_an_end(&self, parts: &[Span]) -> bool
        ensures { result ≡ Sending.passes_an_end self.now parts.now }
    {
        parts.iter().any(|part| self.is_out_of_range(part.region, part.at, part.len))
    }

    /// The range passes the end of its region.
    #[tactic(auto, unfolding(crate::specs::Sending::is_out_of_range))]
    fn is_out_of_range(&self, region: RegionNo, at: u64, len: u64) -> bool
        ensures { result ≡ Sending.is_out_of_range self.now region.0 at len }
    {
        match region_of(&self.regions, region) {
            Some(bytes) => passes_end(bytes, at, len),
            None => passes_end(&[], at, len),
        }
    }

    /// One of the ranges shares a place with that of a receive.
    #[tactic(auto, unfolding(crate::specs::Sending::meets_a_receive))]
    fn meets_a_receive(&self, parts: &[Span]) -> bool
        ensures { result ≡ Sending.meets_a_receive self.now parts.now }
    {
        parts
            .iter()
            .any(|part| self.meets_posted(part.region, part.at, part.len))
    }

    /// The range shares a place with that of a receive.
    #[tactic(auto, unfolding(crate::specs::Sending::meets_posted))]
    pub(crate) fn meets_posted(&self, region: RegionNo, at: u64, len: u64) -> bool
        ensures { result ≡ Sending.meets_posted self.now region.0 at len }
    {
        self.posted.iter().any(|posted| {
            posted.req.region.0 == region.0 && overlaps(at, len, posted.req.at, posted.req.len)
        })
    }

    /// Every place for a completion is taken.
    #[tactic(auto, unfolding(crate::specs::Sending::cannot_confirm, crate::specs::Sending::waits_for_handshake, crate::specs::Sending::known_in, crate::specs::Sending::cq_is_full, crate::specs::View::cq_in))]
    pub(crate) fn cq_is_full(&self) -> bool
        ensures { result ≡ Sending.cq_is_full self.now }
    {
        let taken = self.posted.len() + self.outgoing.len() + self.completions.len();
        self.limits.cq as usize <= taken
    }
}
