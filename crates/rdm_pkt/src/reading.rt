//! How packets are read: field after field, each condition of the grammar where its field is read.
ghost use Rattle.std.specs.Prelude.{◌≡◌, ◌≤◌, ◌<◌, ◌+◌, ◌*◌, ◌&&◌, nat_le, if◌then◌else◌, IfOk, IfSome, length, drop, option_and_then};
ghost use Rattle.std.specs.Bool.{then_some};
ghost use Rattle.rdm_hdr.specs.Fields.{number_at, fields_bytes};
ghost use Rattle.rdm_hdr.specs.Reading.{begins};
ghost use Rattle.rdm_pkt.specs.Grammar.{head_fields, opt_fits};
ghost use Rattle.rdm_pkt.specs.Grammar as Grammar;
ghost use Rattle.rdm_pkt.specs.Reading.{IsReadAs, EagerRow, MediumRow, LongCtsRow, LongReadRow, RuntRow, CtsRow, CtsDataRow, EorRow, HandshakeRow, ReceiptRow, if_spelled, values_at, rtm_at, packet_in, confirm_at};
ghost use Rattle.rdm_pkt.specs.Opened.{opening_in};

use crate::handshakes::read_handshake;
use crate::read_forms::{read_eager, read_long_cts, read_long_read, read_medium, read_runt};
use crate::writing::{CONNID_FLAG, VERSION, rtm_flags, tagged_kind};
use crate::{Form, Packet};
use rdm_hdr::{NoMemory, Opt, has_bit, read_opt, size_if, u16_at, u32_at, u64_at};
use rdm_num::{Bytes, Connid, MsgNo, OpId};
use std::alloc::Global;

impl Packet {
    /// The packet that the bytes spell, if there is one. What it carries is copied once.
    #[tactic(auto, using(crate::proofs::ReadRtm::read_as))]
    pub fn read(alloc: Global, bytes: &[u8]) -> Result<Option<Packet>, NoMemory>
        ensures value { IfOk result (λ r. r ≡ packet_in bytes.now) }
        ensures spelled { IfOk result (λ r. IsReadAs bytes.now r) }
    {
        read_packet(alloc, bytes)
    }
}

/// The packet by its first byte, which is its type.
fn read_packet(alloc: Global, bytes: &[u8]) -> Result<Option<Packet>, NoMemory>
    ensures { IfOk result (λ r. r ≡ packet_in bytes.now) }
{
    let Some(kind) = bytes.first() else {
        return Ok(None);
    };
    match *kind {
        3 => Ok(read_cts(bytes)),
        4 => read_cts_data(alloc, bytes),
        7 => Ok(read_eor(bytes)),
        9 => read_handshake(alloc, bytes),
        10 => Ok(read_receipt(bytes)),
        64 | 65 => read_eager(alloc, bytes),
        66 | 67 => read_medium(alloc, bytes),
        68 | 69 => read_long_cts(alloc, bytes),
        128 | 129 => Ok(read_long_read(bytes)),
        192 | 193 => read_runt(alloc, bytes),
        // senders of these wait for a receipt
        200 | 201 => read_eager(alloc, bytes),
        202 | 203 => read_medium(alloc, bytes),
        204 | 205 => read_long_cts(alloc, bytes),
        _ => Ok(None),
    }
}

/// The bytes begin with the base header of that type, with those flags.
#[tactic(auto, unfolding(rdm_hdr::specs::Reading::begins, crate::specs::Grammar::head_fields, rdm_hdr::specs::Headers::base_fields, rdm_hdr::specs::Fields::fields_bytes, rdm_hdr::specs::Fields::field_bytes))]
pub fn has_head(bytes: &[u8], kind: u8, flags: u16) -> bool
    ensures { result ≡ begins (fields_bytes (head_fields kind flags)) bytes.now }
{
    let flags = flags.to_le_bytes();
    bytes.starts_with(&[kind, VERSION, flags[0], flags[1]])
}

/// The bytes from a place on.
pub fn after(bytes: &[u8], place: usize) -> &[u8]
    requires { place ≤ length bytes.now }
    ensures { result.now ≡ drop place bytes.now }
{
    &bytes[place..]
}

/// A grant.
fn read_cts(bytes: &[u8]) -> Option<Packet>
    ensures { result ≡ if_spelled bytes.now (values_at CtsRow bytes.now) }
{
    if bytes.len() != 24 {
        return None;
    }
    if !has_head(bytes, 3, CONNID_FLAG) {
        return None;
    }
    let recv_length = u64_at(bytes, 12);
    if recv_length == 0 {
        return None;
    }
    Some(Packet::Cts {
        send_id: OpId(u32_at(bytes, 4)),
        recv_id: OpId(u32_at(bytes, 8)),
        recv_length,
        connid: Connid(u32_at(bytes, 20)),
    })
}

/// Granted data.
fn read_cts_data(alloc: Global, bytes: &[u8]) -> Result<Option<Packet>, NoMemory>
    ensures { IfOk result (λ r. r ≡ if_spelled bytes.now (values_at CtsDataRow bytes.now)) }
{
    if bytes.len() <= 28 {
        return Ok(None);
    }
    if !has_head(bytes, 4, CONNID_FLAG) {
        return Ok(None);
    }
    let data = after(bytes, 28);
    let seg_length = data.len() as u64;
    if u64_at(bytes, 8) != seg_length {
        return Ok(None);
    }
    let offset = u64_at(bytes, 16);
    if offset > u64::MAX - seg_length {
        return Ok(None);
    }
    Ok(Some(Packet::CtsData {
        recv_id: OpId(u32_at(bytes, 4)),
        offset,
        connid: Connid(u32_at(bytes, 24)),
        bytes: Bytes::from_slice(alloc, data)?,
    }))
}

/// The end of an operation.
fn read_eor(bytes: &[u8]) -> Option<Packet>
    ensures { result ≡ if_spelled bytes.now (values_at EorRow bytes.now) }
{
    if bytes.len() != 16 {
        return None;
    }
    if !has_head(bytes, 7, CONNID_FLAG) {
        return None;
    }
    Some(Packet::Eor {
        send_id: OpId(u32_at(bytes, 4)),
        recv_id: OpId(u32_at(bytes, 8)),
        connid: Connid(u32_at(bytes, 12)),
    })
}

/// A receipt.
fn read_receipt(bytes: &[u8]) -> Option<Packet>
    ensures { result ≡ if_spelled bytes.now (values_at ReceiptRow bytes.now) }
{
    if bytes.len() != 12 {
        return None;
    }
    if !has_head(bytes, 10, CONNID_FLAG) {
        return None;
    }
    Some(Packet::Receipt {
        no: MsgNo(u32_at(bytes, 4)),
        connid: Connid(u32_at(bytes, 8)),
    })
}

/// Whether the type is one of a packet whose sender waits for a receipt.
pub fn asks_receipt(bytes: &[u8]) -> bool
    ensures { result ≡ confirm_at bytes.now }
{
    match bytes.first() {
        Some(kind) => *kind >= 200 && *kind <= 205,
        None => false,
    }
}

/// What the headers say that each packet has which opens a message.
#[derive(Clone, Copy)]
pub struct Opening {
    pub no: MsgNo,
    pub tag: Option<u64>,
    pub confirm: bool,
    pub opt: Opt,
    /// Where the read list or the data begin.
    pub place: usize,
}

impl Opening {
    /// The packet with those headers.
    pub fn packet(&self, form: Form) -> Packet
        ensures { result ≡ Packet.Rtm self.now.no self.now.tag self.now.confirm self.now.opt form }
    {
        Packet::Rtm {
            no: self.no,
            tag: self.tag,
            confirm: self.confirm,
            opt: self.opt,
            form,
        }
    }
}

/// The headers of a packet that opens a message, of the untagged type `kind`, whose mandatory header has `size` bytes
/// where there is no tag.
pub fn read_opening(kind: u8, size: usize, bytes: &[u8]) -> Option<Opening>
    requires small { kind < 255 }
    requires least { 8 ≤ size }
    requires most { size ≤ 40 }
    ensures value { result ≡ opening_in kind size bytes.now }
    ensures least { IfSome result (λ opening. size ≤ opening.place) }
    ensures most { IfSome result (λ opening. opening.place ≤ length bytes.now) }
{
    if bytes.len() < size {
        return None;
    }
    let flags = u16_at(bytes, 2);
    let tagged = has_bit(3, u64::from(flags));
    let place = size + size_if(tagged, 8);
    if bytes.len() < place {
        return None;
    }
    let (opt, opt_size) = read_opt(flags, after(bytes, place))?;
    let tag = read_tag(tagged, bytes, size);
    if !opt_fits(&opt) {
        return None;
    }
    if !has_head(bytes, tagged_kind(kind, tag), rtm_flags(tag, &opt)) {
        return None;
    }
    Some(Opening {
        no: MsgNo(u32_at(bytes, 4)),
        tag,
        confirm: asks_receipt(bytes),
        opt,
        place: place + opt_size,
    })
}

/// The tag at a place, if it is there.
fn read_tag(is_there: bool, bytes: &[u8], place: usize) -> Option<u64>
    requires { place + (if is_there then 8 else 0) ≤ length bytes.now }
    ensures { result ≡ then_some is_there (number_at place 8 bytes.now) }
{
    if is_there {
        Some(u64_at(bytes, place))
    } else {
        None
    }
}

/// Exactly one of the raw address and the identifier is there.
#[tactic(auto, unfolding(crate::specs::Grammar::opt_fits))]
pub fn opt_fits(opt: &Opt) -> bool
    ensures { result ≡ Grammar.opt_fits opt.now }
{
    opt.raw.is_some() != opt.connid.is_some()
}
