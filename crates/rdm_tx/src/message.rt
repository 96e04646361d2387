//! A send's message, and the forms of the packets that open it.
ghost use Rattle.std.specs.Prelude.{◌≡◌, ◌≤◌, ◌<◌, ◌+◌, ◌-◌, if◌then◌else◌, ℕ, List, length, is_some, IfSome, IfOk};
ghost use Rattle.rdm_hdr.specs.Headers as Headers;
ghost use Rattle.rdm_pkt.specs.Openings as Openings;
ghost use Rattle.rdm_tx.specs.Sends.{opener, packet_after, span_after, part, IsSpanAfter};

use crate::spans::{Span, alone, piece};
use rdm_hdr::{Opt, opt_size, size_if};
use rdm_num::{Bytes, EpLimits, Iov, MsgNo, NoMemory, OpId};
use rdm_pkt::{Form, Kind};
use std::alloc::Global;

/// What all packets that open a message share. The bytes of the message stand elsewhere.
#[derive(Debug, Drop)]
pub struct Message {
    pub no: MsgNo,
    pub tag: Option<u64>,
    /// Whether it asks for a receipt.
    pub confirm: bool,
    pub opt: Opt,
    pub send_id: OpId,
    /// Where a receiver reads the message.
    pub iov: Iov,
    pub kind: Kind,
}

/// The header of a segment or of a first part that asks for grants, without tag and optional headers.
const PART_HEADER: usize = 24;

/// The header of a segment of the first part ahead of a read, without tag, optional headers and ranges.
const RUNT_HEADER: usize = 40;

/// The bytes of one range of a read list.
const RANGE: usize = 24;

impl Message {
    /// Where the bytes of the packet of that number stand, if there is one: those of a whole
    /// message, of a part as full as the limits allow, or none beside a read list.
    pub(crate) fn span(&self, limits: &EpLimits, total: u64, number: usize) -> Option<Span>
        requires mtu { 256 ≤ limits.now.mtu }
        requires ranges { length self.now.iov ≤ 4 }
        ensures span { IsSpanAfter limits.now self.now total number result }
        ensures within { IfSome result (λ span. span.offset + span.length ≤ total) }
        ensures few { IfSome result (λ _. number < usize.MAX) }
    {
        match self.kind {
            Kind::Eager => alone(number, total),
            Kind::Medium => piece(self.room(limits, PART_HEADER), total, number),
            Kind::LongCts => alone(number, total.min(self.room(limits, PART_HEADER))),
            Kind::LongRead => alone(number, 0),
            Kind::Runt { runt_length } => {
                let header = RUNT_HEADER + RANGE * self.iov.as_slice().len();
                piece(self.room(limits, header), total.min(runt_length), number)
            }
        }
    }

    /// The form of the packet whose bytes are that piece of a message of so many bytes, at that
    /// offset.
    pub(crate) fn form(
        &self,
        alloc: Global,
        limits: &EpLimits,
        total: u64,
        offset: u64,
        piece: &[u8],
    ) -> Result<Form, NoMemory>
        requires mtu { 256 ≤ limits.now.mtu }
        requires ranges { length self.now.iov ≤ 4 }
        ensures { IfOk result (λ form. (bytes : List ℕ) (n : ℕ) (s : Span) → length bytes ≡ total → Some s ≡ span_after limits.now self.now bytes n → s.offset ≡ offset → piece.now ≡ part s bytes → Some (opener self.now form) ≡ packet_after limits.now self.now bytes n) }
    {
        match self.kind {
            Kind::Eager => {
                let bytes = Bytes::from_slice(alloc, piece)?;
                Ok(Form::Eager { bytes })
            }
            Kind::Medium => {
                let bytes = Bytes::from_slice(alloc, piece)?;
                Ok(Form::Medium {
                    msg_length: total,
                    offset,
                    bytes,
                })
            }
            Kind::LongCts => {
                let bytes = Bytes::from_slice(alloc, piece)?;
                Ok(Form::LongCts {
                    msg_length: total,
                    send_id: self.send_id,
                    credit_request: limits.credits,
                    bytes,
                })
            }
            Kind::LongRead => {
                let iov = self.iov.clone()?;
                Ok(Form::LongRead {
                    msg_length: total,
                    send_id: self.send_id,
                    iov,
                })
            }
            Kind::Runt { runt_length } => {
                let iov = self.iov.clone()?;
                let bytes = Bytes::from_slice(alloc, piece)?;
                Ok(Form::Runt {
                    msg_length: total,
                    send_id: self.send_id,
                    iov,
                    runt_length,
                    offset,
                    bytes,
                })
            }
        }
    }

    /// Whether its packets say that it asks for a receipt: where it is read, they cannot.
    pub(crate) fn says_confirm(&self) -> bool
        ensures { result ≡ Openings.says_confirm self.now.kind self.now.confirm }
    {
        match self.kind {
            Kind::Eager | Kind::Medium | Kind::LongCts => self.confirm,
            Kind::LongRead | Kind::Runt { .. } => false,
        }
    }

    /// How many bytes a packet has room for that has a header of that size, the tag and the
    /// optional headers.
    fn room(&self, limits: &EpLimits, header: usize) -> u64
        requires mtu { 256 ≤ limits.now.mtu }
        requires header { header ≤ 136 }
        ensures value { result ≡ limits.now.mtu - (header + (if is_some self.now.tag then 8 else 0) + Headers.opt_size self.now.opt) }
        ensures some { 0 < result }
    {
        let headers = header + size_if(self.tag.is_some(), 8) + opt_size(&self.opt);
        u64::from(limits.mtu) - headers as u64
    }
}
