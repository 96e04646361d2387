//! Receives, and messages that meet them.
ghost use Rattle.std.specs.Prelude.{◌≡◌, ◌⊎◌, ◌<◌, ◌≤◌, ◌+◌, ◌++◌, ◌∷◌, [], map, take, length, get_or, ◌==◌, ◌&&◌, IfOk, OnOk, OnErr, MatchResult, Some, None, slice_get, remove, vec_len, vec_capacity};
ghost use Rattle.std.specs.List.{position_from, list_any};
ghost use Rattle.rdm_num.specs.Pieces as Pieces;
ghost use Rattle.rdm_num.specs.declared.parts.Span.{Span};
ghost use Rattle.rdm_model.specs.Regions.{change_at, put};
ghost use Rattle.rdm_ep.specs.Places.{IsPlace, IsPlaced};
ghost use Rattle.rdm_ep.specs.Counts.{IsInRange};
ghost use Rattle.rdm_ep.specs.Receiving as Receiving;
ghost use Rattle.rdm_ep.specs.Receiving.{after_recv, after_post, one_more_receive, named_in, ReceivesAs, CanReceive, IsNoReceive, is_again};
ghost use Rattle.rdm_ep.specs.Sending as Sending;

use crate::answer::RecvAnswer;
use crate::current::current_of;
use crate::endpoint::Endpoint;
use crate::going::complete;
use crate::ranges::{overlaps, passes_end, region_of};
use crate::state::{Inbound, Posted};
use crate::twin::Twin;
use rdm_match::{Arrived, PostedRecv, accepts};
use rdm_model::{PoolName, RecvWhy};
use rdm_num::{Life, NoMemory, PortNo, RecvNo, RecvReq, RegionNo, Span};

/// The receive takes the message.
#[tactic(auto, unfolding(crate::specs::Receiving::takes))]
pub(crate) fn takes(posted: &Posted, inbound: &Inbound) -> bool
    ensures { result ≡ Receiving.takes posted.now inbound.now }
{
    let receive = PostedRecv {
        id: posted.number,
        from: posted.from,
        want: posted.req.want,
    };
    let message = Arrived {
        life: inbound.life,
        no: inbound.no,
        tag: inbound.tag,
    };
    accepts(&receive, &message)
}

/// Searches for the first message that a receive takes.
fn search_arrived(arrived: &[Inbound], posted: &Posted) -> Option<usize>
    ensures { result ≡ position_from (Receiving.takes posted.now) 0 arrived.now }
{
    arrived.iter().position(|inbound| takes(posted, inbound))
}

/// Where the first message stands that a receive takes.
fn place_of_arrived(arrived: &[Inbound], posted: &Posted) -> Option<usize>
    ensures { IsPlace (Receiving.takes posted.now) arrived.now result }
{
    search_arrived(arrived, posted)
}

/// Searches for the first receive that takes a message.
fn search_posted(posted: &[Posted], inbound: &Inbound) -> Option<usize>
    ensures { result ≡ position_from (λ p. Receiving.takes p inbound.now) 0 posted.now }
{
    posted.iter().position(|receive| takes(receive, inbound))
}

/// Where the first receive stands that takes a message.
pub(crate) fn place_of_posted(posted: &[Posted], inbound: &Inbound) -> Option<usize>
    ensures { IsPlace (λ p. Receiving.takes p inbound.now) posted.now result }
{
    search_posted(posted, inbound)
}

/// The first bytes of a message that a receive has room for.
pub(crate) fn kept_bytes(bytes: &[u8], capacity: u64) -> &[u8]
    ensures { result.now ≡ take capacity bytes.now }
{
    let count = bytes.len().min(capacity as usize);
    &bytes[..count]
}

/// The completion of a receive with a message.
#[tactic(auto, unfolding(crate::specs::Receiving::completion_of))]
pub(crate) fn completion_of(posted: &Posted, inbound: Inbound) -> Twin
    ensures { result ≡ Receiving.completion_of posted.now inbound }
{
    Twin::of_message(
        posted.number,
        inbound.life,
        inbound.tag,
        inbound.cq_data,
        inbound.bytes,
        posted.req.len,
    )
}

/// Writes bytes at a place of a region.
pub(crate) fn write_region(regions: &mut Vec<Vec<u8>>, region: RegionNo, at: u64, bytes: &[u8])
    requires region { region.0 < length (map (λ r. r.items) regions.old.items) }
    requires range { at + length bytes.now ≤ length (get_or (map (λ r. r.items) regions.old.items) region.0 []) }
    ensures { map (λ r. r.items) regions.new.items ≡ change_at (put at bytes.now) region.0 (map (λ r. r.items) regions.old.items) }
{
    write_at(&mut regions[region.0 as usize], at, bytes);
}

/// Writes bytes at a place.
#[tactic(auto, unfolding(rdm_model::specs::Regions::put))]
fn write_at(region: &mut [u8], at: u64, bytes: &[u8])
    requires { at + length bytes.now ≤ length region.old }
    ensures { region.new ≡ put at bytes.now region.old }
{
    let from = at as usize;
    region[from..from + bytes.len()].copy_from_slice(bytes);
}

impl Endpoint {
    /// What a receive would answer, want of memory aside.
    pub fn answer_recv(&self, r: &RecvReq) -> RecvAnswer
        ensures { result ≡ Receiving.recv_answer self.now r.now }
    {
        match self.check_recv(r) {
            Ok(_) => RecvAnswer::Did(RecvNo(self.receives)),
            Err(answer) => answer,
        }
    }

    /// Whether a receive would wait for a place in a pool.
    #[tactic(auto, unfolding(crate::specs::Receiving::is_again))]
    pub fn waits_recv(&self, r: &RecvReq) -> bool
        ensures { result ≡ is_again (Receiving.recv_answer self.now r.now) }
    {
        match self.check_recv(r) {
            Ok(_) => false,
            Err(RecvAnswer::Again(_)) => true,
            Err(_) => false,
        }
    }

    /// The current life of the port that a receive names, if it names one.
    #[tactic(auto, unfolding(crate::specs::Receiving::named_in, crate::specs::View::current_in))]
    fn named(&self, from: Option<PortNo>) -> Option<Life>
        ensures { result ≡ named_in self.now from }
    {
        match from {
            None => None,
            Some(port) => current_of(&self.currents, port),
        }
    }

    /// The range shares a place with one of a send.
    #[tactic(auto, unfolding(crate::specs::Sending::meets_outgoing))]
    fn meets_outgoing(&self, region: RegionNo, at: u64, len: u64) -> bool
        ensures { result ≡ Sending.meets_outgoing self.now region.0 at len }
    {
        self.outgoing.iter().any(|outbound| meets_part(
            outbound.req.parts.as_slice(),
            region,
            at,
            len,
        ))
    }

    /// The life that an accepted receive names, or why the receive is not accepted.
    #[tactic(auto, unfolding(crate::specs::Receiving::recv_answer, crate::specs::Receiving::names_nobody, crate::specs::Receiving::named_in, crate::specs::Sending::has_no_region, crate::specs::Sending::is_out_of_range, crate::specs::Sending::cq_is_full, crate::specs::View::cq_in, crate::specs::View::current_in, rdm_lists::specs::Lists::first_case))]
    fn check_recv(&self, r: &RecvReq) -> Result<Option<Life>, RecvAnswer>
        ensures { MatchResult result (λ f. CanReceive self.now r.now f) (λ a. (a ≡ Receiving.recv_answer self.now r.now) × IsNoReceive a) }
    {
        let Some(region) = region_of(&self.regions, r.region) else {
            return Err(RecvAnswer::Refused(RecvWhy::NoRegion));
        };
        if passes_end(region, r.at, r.len) {
            return Err(RecvAnswer::Refused(RecvWhy::Range));
        }
        let from = self.named(r.from);
        if r.from.is_some() && from.is_none() {
            return Err(RecvAnswer::Refused(RecvWhy::NoEntry));
        }
        if self.meets_posted(r.region, r.at, r.len) || self.meets_outgoing(r.region, r.at, r.len) {
            return Err(RecvAnswer::Refused(RecvWhy::Busy));
        }
        if self.limits.rx as usize <= self.posted.len() {
            return Err(RecvAnswer::Again(PoolName::Rx));
        }
        if self.cq_is_full() {
            return Err(RecvAnswer::Again(PoolName::Cq));
        }
        Ok(from)
    }

    /// Accepts a receive or says why not. It completes at once where a message waits for it.
    #[tactic(auto, unfolding(crate::specs::Receiving::after_recv))]
    pub fn recv(&mut self, r: &RecvReq) -> RecvAnswer
        requires { self.old.receives < 4294967295 }
        ensures answer { (result ≡ RecvAnswer.Memory) ⊎ (result ≡ Receiving.recv_answer self.old r.now) }
        ensures after { ReceivesAs self.old self.new r.now result }
    {
        match self.check_recv(r) {
            Err(answer) => answer,
            Ok(from) => match self.accept_recv(r, from) {
                Ok(recv) => RecvAnswer::Did(recv),
                Err(_) => RecvAnswer::Memory,
            },
        }
    }

    /// Keeps an accepted receive, or completes it with the first message that it takes.
    #[tactic(auto, unfolding(crate::specs::Receiving::after_recv, crate::specs::Receiving::posted_by))]
    fn accept_recv(&mut self, r: &RecvReq, from: Option<Life>) -> Result<RecvNo, NoMemory>
        requires receives { self.old.receives < 4294967295 }
        requires can { CanReceive self.old r.now from }
        ensures number { IfOk result (λ n. n.0 ≡ self.old.receives) }
        ensures ok { OnOk result (self.new ≡ after_recv self.old r.now) }
        ensures err { OnErr result (self.new ≡ self.old) }
    {
        let number = RecvNo(self.receives);
        let posted = Posted {
            number,
            req: *r,
            from,
        };
        match place_of_arrived(&self.arrived, &posted) {
            None => self.wait(posted)?,
            Some(at) => self.meet(posted, at),
        }
        Ok(number)
    }

    /// Lets a receive wait for its message.
    #[tactic(auto, unfolding(crate::specs::Receiving::after_post))]
    fn wait(&mut self, posted: Posted) -> Result<(), NoMemory>
        requires receives { self.old.receives < 4294967295 }
        requires room { self.old.sends + self.old.receives < self.old.own.limits.cq + self.old.polled }
        requires range { IsInRange self.old.regions posted }
        ensures ok { OnOk result (self.new ≡ after_post (one_more_receive self.old) posted None) }
        ensures err { OnErr result (self.new ≡ self.old) }
    {
        self.posted.reserve(1)?;
        self.posted.push_reserved(posted);
        self.receives += 1;
        Ok(())
    }

    /// Completes a receive with a message that waits.
    #[tactic(auto, unfolding(crate::specs::Receiving::after_post, crate::specs::Receiving::landed))]
    fn meet(&mut self, posted: Posted, at: usize)
        requires receives { self.old.receives < 4294967295 }
        requires room { self.old.sends + self.old.receives < self.old.own.limits.cq + self.old.polled }
        requires range { IsInRange self.old.regions posted }
        requires placed { IsPlaced (Receiving.takes posted) self.old.arrived at }
        ensures { self.new ≡ after_post (one_more_receive self.old) posted (slice_get self.old.arrived at) }
    {
        let inbound = take_out(&mut self.arrived, at);
        let kept = kept_bytes(inbound.bytes.as_slice(), posted.req.len);
        write_region(&mut self.regions, posted.req.region, posted.req.at, kept);
        complete(&mut self.completions, completion_of(&posted, inbound));
        self.receives += 1;
    }
}

/// The range shares a place with one of these.
fn meets_part(parts: &[Span], region: RegionNo, at: u64, len: u64) -> bool
    ensures { result ≡ list_any (λ (p : Span). p.region.0 == region.0 && Pieces.overlaps at len p.at p.len) parts.now }
{
    parts.iter().any(|part| part.region.0 == region.0 && overlaps(at, len, part.at, part.len))
}

/// Takes out a message.
pub(crate) fn take_out(messages: &mut Vec<Inbound>, at: usize) -> Inbound
    requires { at < vec_len messages.old }
    ensures message { slice_get messages.old.items at ≡ Some result }
    ensures left { messages.new.items ≡ remove messages.old.items at }
    ensures room { vec_capacity messages.new ≡ vec_capacity messages.old }
{
    messages.remove(at)
}
