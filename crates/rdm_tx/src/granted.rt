//! The granted bytes of a long send.
ghost use Rattle.std.specs.Prelude.{◌≡◌, ◌≤◌, ◌<◌, ◌+◌, ◌==◌, IsTrue, Some, not, length, option_map, IfOk, IfSome};
ghost use Rattle.rdm_tx.specs.GrantLaws.{GrantedFollow, GrantedIsCounted, GrantedAreDue};
ghost use Rattle.rdm_tx.specs.Granting.{ungranted, is_other_number, is_wrong_for, with_grant, next_length, span_next, packet_with, pushed};

use crate::spans::Span;
use rdm_num::{Bytes, Connid, DATA_HEADER, EpLimits, NoMemory, OpId};
use rdm_pkt::Packet;
use std::alloc::Global;
use std::marker::Model;

/// How much of one long message was pushed and granted, in bytes. The message and what opens it
/// stand elsewhere.
#[derive(Clone, Copy, Debug, PartialEq, Eq)]
pub struct Granted {
    total: u64,
    /// How many bytes opened the message or were pushed since.
    done: u64,
    /// How many bytes may be pushed so far.
    allowed: u64,
    granted_by: Option<OpId>,
}

impl Model for Granted {
    ghost use Rattle.std.specs.Prelude.{◌≤◌, ◌<◌, IsSome, option_map};
    ghost use Rattle.rdm_num.specs.Lives.{op_id};
    ghost use Rattle.rdm_tx.specs.Granting.{Granting};

    ghost Value = { Granting };

    ghost view = { λ g. record { total = g.total; done = g.done; allowed = g.allowed; granted_by = option_map (λ r. r.0) g.granted_by } };

    ghost inverse = { λ v. record { total = v.total; done = v.done; allowed = v.allowed; granted_by = option_map op_id v.granted_by } };

    ghost invariant = { λ g. (g.done ≤ g.allowed) × (g.allowed ≤ g.total) × (g.done < g.allowed → IsSome g.granted_by) };
}

impl Granted {
    /// A message of that length, of which a first part opened so many bytes.
    pub fn new(total: u64, first: u64) -> Granted
        requires { first ≤ total }
        ensures { result ≡ ungranted total first }
    {
        Granted {
            total,
            done: first,
            allowed: first,
            granted_by: None,
        }
    }

    /// Whether the receive may grant so many bytes more. What comes from another life is tested so
    /// before it is taken.
    pub fn may_grant(&self, recv: OpId, size: u64) -> bool
        ensures { result ≡ not (is_wrong_for recv.0 size self.now) }
    {
        size <= self.total - self.allowed && !is_other(recv, self.granted_by)
    }

    /// The receive grants so many bytes more.
    #[tactic(auto, using(crate::proofs::Granting::first_named))]
    pub fn grant(&mut self, recv: OpId, size: u64)
        requires { IsTrue (not (is_wrong_for recv.0 size self.old)) }
        ensures { self.new ≡ with_grant recv.0 size self.old }
    {
        self.allowed += size;
        self.granted_by = self.granted_by.or(Some(recv));
    }

    /// Where the bytes of the next packet stand in the message, if granted bytes are left to push.
    /// They are none where the mtu has no room beside the headers.
    pub fn span(&self, limits: &EpLimits) -> Option<Span>
        ensures span { result ≡ span_next limits.now self.now }
        ensures left { IfSome result (λ _. self.now.done < self.now.allowed) }
        ensures granted { IfSome result (λ span. self.now.done + span.length ≤ self.now.allowed) }
        ensures within { IfSome result (λ span. span.offset + span.length ≤ self.now.total) }
    {
        (self.done < self.allowed).then_some(Span {
            offset: self.done,
            length: self.next_length(limits),
        })
    }

    /// The next packet, from the life with that identifier, made from the bytes that stand where
    /// `span` says. It copies these alone.
    pub fn packet(&self, alloc: Global, own: Connid, piece: &[u8]) -> Result<Packet, NoMemory>
        requires left { self.now.done < self.now.allowed }
        requires granted { self.now.done + length piece.now ≤ self.now.allowed }
        ensures { IfOk result (λ packet. Some packet ≡ packet_with own self.now piece.now) }
    {
        let recv_id = self.granted_by.unwrap();
        let bytes = Bytes::from_slice(alloc, piece)?;
        Ok(Packet::CtsData {
            recv_id,
            offset: self.done,
            connid: own,
            bytes,
        })
    }

    /// The next packet was pushed.
    pub fn step(&mut self, limits: &EpLimits)
        ensures { self.new ≡ pushed limits.now self.old }
    {
        self.done += self.next_length(limits);
    }

    /// Whether the whole message was pushed.
    pub fn is_sent(&self) -> bool
        ensures { result ≡ (self.now.done == self.now.total) }
    {
        self.done == self.total
    }

    /// How many bytes the next packet carries.
    #[tactic(auto, unfolding(rdm_model::specs::Grants::data_room))]
    fn next_length(&self, limits: &EpLimits) -> u64
        ensures { result ≡ next_length limits.now self.now }
    {
        let room = u64::from(limits.mtu.saturating_sub(DATA_HEADER));
        (self.allowed - self.done).min(room)
    }
}

/// Whether another receive is named.
#[tactic(auto, unfolding(crate::specs::Granting::is_other_number))]
fn is_other(recv: OpId, named: Option<OpId>) -> bool
    ensures { result ≡ is_other_number recv.0 (option_map (λ r. r.0) named) }
{
    match named {
        None => false,
        Some(named) => named != recv,
    }
}

/// Grants that are taken and packets that are pushed, in any order: the packets follow each other
/// from the first part on without a gap, to the receive that the first grant named, and have no more
/// bytes than the grants have, and these no more than the message. Each is the packet that a life
/// owes of a send that was granted so.
pub fn granted_law()
    ensures follow { GrantedFollow }
    ensures counted { GrantedIsCounted }
    ensures due { GrantedAreDue }
{}
