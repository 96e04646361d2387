//! What a send begins as.
ghost use Rattle.std.specs.Prelude.{◌≡◌, ◌≤◌, ◌<◌, ◌+◌, ◌∷◌, ◌++◌, [], ℕ, IfOk, IfSome, length};
ghost use Rattle.rdm_model.specs.Sends as Sends;
ghost use Rattle.rdm_model.specs.Targets.{read_from};
ghost use Rattle.rdm_model.specs.Dues.{is_read};
ghost use Rattle.rdm_sends.specs.Beginning.{new_message, protocol_of, kept_list, some_range, first_part, span_length};
ghost use Rattle.rdm_sends.specs.Sending.{range_bytes, takes_asks, length_by};

use crate::protocol::Protocol;
use arrayvec::ArrayVec;
use rdm_hdr::Opt;
use rdm_num::{EpLimits, Iov, IovEntry, Life, MsgNo, NoMemory, OpId, Parts, SendReq, Span};
use rdm_pkt::Kind;
use rdm_tx::{Asked, Cursor, Granted, Message, choose};
use std::alloc::{AllocError, Global};

/// The life that sends, its features and its limits.
#[derive(Clone, Copy, Debug, PartialEq, Eq)]
pub struct Own {
    pub life: Life,
    pub features: u64,
    pub limits: EpLimits,
}

/// Where a send goes: the life, what is known of its features, and the numbers of the send and of
/// its message.
#[derive(Clone, Copy, Debug, PartialEq, Eq)]
pub struct Place {
    pub to: Life,
    pub known: Option<u64>,
    pub number: OpId,
    pub no: MsgNo,
}

/// How many bytes the ranges have together. More than a `u64` counts are more than memory has.
pub(crate) fn count_bytes(parts: &[Span]) -> Result<u64, NoMemory>
    ensures { IfOk result (λ n. n ≡ range_bytes parts.now) }
{
    let mut total: u64 = 0;
    for part in parts {
        total = total.checked_add(part.len).ok_or(AllocError)?;
    }
    Ok(total)
}

/// What the packets of a new send of so many bytes say.
pub(crate) fn message_for(own: &Own, place: &Place, req: &SendReq, total: u64) -> Message
    ensures message { result ≡ new_message own.now place.now req.now total }
    ensures few { length result.iov ≤ 4 }
    ensures read { read_from result.kind ≤ total }
{
    let raw = wants_raw(place.known);
    let tagged = req.tag.is_some();
    let cq_data = req.cq_data.is_some();
    Message {
        no: place.no,
        tag: req.tag,
        confirm: req.confirm,
        opt: opt_for(own.life, raw, req.cq_data),
        send_id: place.number,
        iov: read_list(&req.parts),
        kind: choose(
            total,
            tagged,
            cq_data,
            raw,
            own.features,
            place.known,
            &own.limits,
        ),
    }
}

/// What is kept before anything came for a message of so many bytes.
#[tactic(auto, unfolding(crate::specs::Beginning::protocol_of, rdm_model::specs::Targets::read_from, rdm_model::specs::Dues::is_read, crate::specs::Sending::takes_asks, crate::specs::Sending::length_by))]
pub(crate) fn protocol_for(
    alloc: Global,
    limits: &EpLimits,
    message: &Message,
    total: u64,
) -> Result<Protocol, NoMemory>
    requires mtu { 256 ≤ limits.now.mtu }
    requires ranges { length message.now.iov ≤ 4 }
    requires read { read_from message.now.kind ≤ total }
    ensures protocol { IfOk result (λ protocol. protocol ≡ protocol_of limits.now message.now total message.now.kind) }
    ensures read { IfOk result (λ protocol. is_read message.now.kind ≡ takes_asks protocol) }
    ensures whole { IfOk result (λ protocol. length_by total protocol ≡ total) }
{
    match message.kind {
        Kind::Eager | Kind::Medium => Ok(Protocol::Whole),
        Kind::LongCts => {
            let first = first_length(limits, message, total);
            Ok(Protocol::Granted(Granted::new(total, first)))
        }
        Kind::LongRead => {
            let iov = message.iov.clone()?;
            let asked = Asked::new(alloc, 0, total, iov)?;
            Ok(Protocol::Read(asked))
        }
        Kind::Runt { runt_length } => {
            let iov = message.iov.clone()?;
            let asked = Asked::new(alloc, runt_length, total, iov)?;
            Ok(Protocol::Read(asked))
        }
    }
}

/// How many bytes open a message of so many bytes that is granted.
fn first_length(limits: &EpLimits, message: &Message, total: u64) -> u64
    requires mtu { 256 ≤ limits.now.mtu }
    requires ranges { length message.now.iov ≤ 4 }
    requires long { message.now.kind ≡ Kind.LongCts }
    ensures first { result ≡ first_part limits.now message.now total }
    ensures within { result ≤ total }
{
    let cursor = Cursor::new();
    let span = cursor.span(limits, message, total);
    length_of(span)
}

/// How many bytes a packet has, and none where there is no packet.
#[tactic(auto, unfolding(crate::specs::Beginning::span_length))]
fn length_of(span: Option<rdm_tx::Span>) -> u64
    ensures length { result ≡ span_length span }
    ensures within { (total : ℕ) → IfSome span (λ s. s.offset + s.length ≤ total) → result ≤ total }
{
    match span {
        None => 0,
        Some(span) => span.length,
    }
}

/// The read list of the ranges that have bytes. Where none has, an empty range stands there, since a
/// message without bytes is not read.
pub fn read_list(parts: &Parts) -> Iov
    ensures list { result ≡ kept_list parts.now }
    ensures few { length result ≤ 4 }
{
    let mut entries = ArrayVec::<IovEntry, 4>::new();
    let ranges = parts.as_slice();
    for part in ranges {
        add_range(&mut entries, part);
    }
    listed(entries)
}

/// The ranges, where an empty one stands for none.
fn listed(entries: ArrayVec<IovEntry, 4>) -> Iov
    ensures list { result ≡ some_range entries.items }
    ensures few { length result ≤ 4 }
{
    match Iov::from_array_vec(entries) {
        Some(iov) => iov,
        None => {
            let mut one = ArrayVec::<IovEntry, 4>::new();
            one.push(IovEntry {
                offset: 0,
                length: 0,
                key: 0,
            });
            Iov::from_array_vec(one).unwrap()
        }
    }
}

/// Adds a range, if it has bytes.
#[tactic(auto, unfolding(rdm_model::specs::Sends::read_list))]
fn add_range(entries: &mut ArrayVec<IovEntry, 4>, part: &Span)
    requires { length entries.old.items < 4 }
    ensures items { entries.new.items ≡ entries.old.items ++ Sends.read_list (part.now ∷ []) }
    ensures few { length entries.new.items ≤ length entries.old.items + 1 }
{
    if part.len > 0 {
        entries.push(entry_of(part));
    }
}

/// A range as a read list names it.
fn entry_of(part: &Span) -> IovEntry
    ensures { result ≡ Sends.entry_of part.now }
{
    IovEntry {
        offset: part.at,
        length: part.len,
        key: u64::from(part.region.0),
    }
}

/// A peer with these features wants the raw address in every packet; so does one of which nothing
/// is known.
#[tactic(auto, unfolding(rdm_model::specs::Sends::wants_raw, rdm_hdr::specs::Fields::has_bit))]
pub fn wants_raw(known: Option<u64>) -> bool
    ensures { result ≡ Sends.wants_raw known }
{
    match known {
        None => true,
        Some(word) => word / 4 % 2 == 1,
    }
}

/// The optional headers of a send's packets.
#[tactic(auto, unfolding(rdm_model::specs::Sends::opt_for))]
pub fn opt_for(life: Life, raw: bool, cq_data: Option<u64>) -> Opt
    ensures { result ≡ Sends.opt_for life raw cq_data }
{
    if raw {
        Opt {
            raw: Some((life.port.0, life.connid.0)),
            cq_data,
            connid: None,
        }
    } else {
        Opt {
            raw: None,
            cq_data,
            connid: Some(life.connid.0),
        }
    }
}
