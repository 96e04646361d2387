//! How packets are written.
ghost use Rattle.std.specs.Prelude.{◌≡◌, ◌≤◌, ◌<◌, ◌+◌, ◌*◌, ◌++◌, IsTrue, length, List, map, flat_map, OnOk, OnErr, ℕ, is_some, if◌then◌else◌};
ghost use Rattle.std.specs.Vec.{vec_len, vec_capacity};
ghost use Rattle.rdm_hdr.specs.Fields.{Number, Data, fields_bytes};
ghost use Rattle.rdm_pkt.specs.Grammar.{packet_fits, form_fits, spelling, head_fields, form_fields, entry_fields, last_fields, tag_fields};
ghost use Rattle.rdm_hdr.specs.Headers as Headers;
ghost use Rattle.rdm_pkt.specs.Grammar as Grammar;

use crate::handshakes::sender_opt;
use crate::{Form, Packet};
use rdm_hdr::{Base, NoMemory, Opt, append_base, append_bytes, append_opt, append_u32, append_u64};
use rdm_num::{IovEntry, MsgNo};

/// The version of each packet.
pub const VERSION: u8 = 4;

/// The flags of a packet that carries its sender's connection identifier and no other header.
pub const CONNID_FLAG: u16 = 0x8000;

impl Packet {
    /// Appends the packet's one spelling.
    pub fn write(&self, to: &mut Vec<u8>) -> Result<(), NoMemory>
        requires { IsTrue (packet_fits self.now) }
        ensures ok { OnOk result (to.new.items ≡ to.old.items ++ spelling self.now) }
        ensures err { OnErr result (to.new.items ≡ to.old.items) }
    {
        to.reserve(self.size())?;
        self.append(to);
        Ok(())
    }

    /// Appends the packet, for which room is reserved.
    #[tactic(auto, using(crate::proofs::PacketBytes::packet_parts))]
    fn append(&self, to: &mut Vec<u8>)
        requires fits { IsTrue (packet_fits self.now) }
        requires room { vec_len to.old + length (spelling self.now) ≤ vec_capacity to.old }
        ensures { to.new.items ≡ to.old.items ++ spelling self.now }
    {
        match self {
            Packet::Rtm {
                no,
                tag,
                confirm,
                opt,
                form,
            } => append_rtm(*no, *tag, *confirm, opt, form, to),
            Packet::Cts {
                send_id,
                recv_id,
                recv_length,
                connid,
            } => {
                append_head(3, CONNID_FLAG, to);
                append_u32(to, send_id.0);
                append_u32(to, recv_id.0);
                append_u64(to, *recv_length);
                append_u32(to, connid.0);
            }
            Packet::CtsData {
                recv_id,
                offset,
                connid,
                bytes,
            } => {
                let bytes = bytes.as_slice();
                append_head(4, CONNID_FLAG, to);
                append_u32(to, recv_id.0);
                append_u64(to, bytes.len() as u64);
                append_u64(to, *offset);
                append_u32(to, connid.0);
                append_bytes(to, bytes);
            }
            Packet::Eor {
                send_id,
                recv_id,
                connid,
            } => {
                append_head(7, CONNID_FLAG, to);
                append_u32(to, send_id.0);
                append_u32(to, recv_id.0);
                append_u32(to, connid.0);
            }
            Packet::Handshake { words, connid, raw } => {
                let words = words.as_slice();
                let sender = sender_opt(*connid, *raw);
                append_head(9, opt_flags(&sender), to);
                append_u32(to, words.len() as u32 + 3);
                append_words(words, to);
                append_opt(&sender, to);
            }
            Packet::Receipt { no, connid } => {
                append_head(10, CONNID_FLAG, to);
                append_u32(to, no.0);
                append_u32(to, connid.0);
            }
        }
    }
}

/// Appends a packet that opens a message, for which room is reserved.
fn append_rtm(no: MsgNo, tag: Option<u64>, confirm: bool, opt: &Opt, form: &Form, to: &mut Vec<u8>)
    requires fits { IsTrue (form_fits form.now) }
    requires room { vec_len to.old + length (spelling (Packet.Rtm no tag confirm opt.now form.now)) ≤ vec_capacity to.old }
    ensures { to.new.items ≡ to.old.items ++ spelling (Packet.Rtm no tag confirm opt.now form.now) }
{
    append_head(rtm_kind(form, tag, confirm), rtm_flags(tag, opt), to);
    append_u32(to, no.0);
    append_form(form, to);
    append_tag(tag, to);
    append_opt(opt, to);
    append_last(form, to);
}

/// Appends the base header of a packet, for which room is reserved.
#[tactic(auto, unfolding(crate::specs::Grammar::head_fields))]
fn append_head(kind: u8, flags: u16, to: &mut Vec<u8>)
    requires { vec_len to.old + 4 ≤ vec_capacity to.old }
    ensures items { to.new.items ≡ to.old.items ++ fields_bytes (head_fields kind flags) }
    ensures len { vec_len to.new ≡ vec_len to.old + 4 }
    ensures room { vec_capacity to.old ≤ vec_capacity to.new }
{
    let base = Base {
        kind,
        version: VERSION,
        flags,
    };
    append_base(base, to);
}

/// The type of a packet that opens a message.
fn rtm_kind(form: &Form, tag: Option<u64>, confirm: bool) -> u8
    ensures { result ≡ Grammar.type_of confirm form.now + (if is_some tag then 1 else 0) }
{
    tagged_kind(untagged_kind(form, confirm), tag)
}

/// The type of an untagged packet that opens a message.
#[tactic(auto, unfolding(crate::specs::Grammar::type_of))]
fn untagged_kind(form: &Form, confirm: bool) -> u8
    ensures value { result ≡ Grammar.type_of confirm form.now }
    ensures bound { result < 255 }
{
    match form {
        Form::Eager { .. } => confirmed_kind(64, confirm),
        Form::Medium { .. } => confirmed_kind(66, confirm),
        Form::LongCts { .. } => confirmed_kind(68, confirm),
        Form::LongRead { .. } => 128,
        Form::Runt { .. } => 192,
    }
}

/// The type of a packet whose sender may wait for a receipt, from that of one whose sender does not.
pub fn confirmed_kind(plain: u8, confirm: bool) -> u8
    requires { plain < 119 }
    ensures value { result ≡ (if confirm then plain + 136 else plain) }
    ensures bound { result < 255 }
{
    if confirm { plain + 136 } else { plain }
}

/// The type of a packet that opens a message, from that of an untagged one.
pub fn tagged_kind(untagged: u8, tag: Option<u64>) -> u8
    requires { untagged < 255 }
    ensures { result ≡ untagged + (if is_some tag then 1 else 0) }
{
    untagged + u8::from(tag.is_some())
}

/// The flags of a packet that opens a message.
#[tactic(auto, unfolding(crate::specs::Grammar::rtm_flags))]
pub fn rtm_flags(tag: Option<u64>, opt: &Opt) -> u16
    ensures { result ≡ Grammar.rtm_flags tag opt.now }
{
    let kind = if tag.is_some() { 8 } else { 4 };
    kind + opt_flags(opt)
}

/// The flags that say which optional headers there are.
#[tactic(auto, unfolding(rdm_hdr::specs::Headers::opt_flags))]
pub fn opt_flags(opt: &Opt) -> u16
    ensures value { result ≡ Headers.opt_flags opt.now }
    ensures bound { result ≤ 32771 }
{
    let raw = if opt.raw.is_some() { 1 } else { 0 };
    let cq_data = if opt.cq_data.is_some() { 2 } else { 0 };
    let connid = if opt.connid.is_some() { 0x8000 } else { 0 };
    raw + cq_data + connid
}

/// Appends the header of a form, for which room is reserved.
#[tactic(auto, using(crate::proofs::PacketSizes::part_sizes), unfolding(crate::specs::Grammar::form_fields, rdm_hdr::specs::Fields::fields_bytes))]
fn append_form(form: &Form, to: &mut Vec<u8>)
    requires fits { IsTrue (form_fits form.now) }
    requires room { vec_len to.old + length (fields_bytes (form_fields form.now)) ≤ vec_capacity to.old }
    ensures items { to.new.items ≡ to.old.items ++ fields_bytes (form_fields form.now) }
    ensures len { vec_len to.new ≡ vec_len to.old + length (fields_bytes (form_fields form.now)) }
    ensures room { vec_capacity to.old ≤ vec_capacity to.new }
{
    match form {
        Form::Eager { .. } => {}
        Form::Medium {
            msg_length,
            offset,
            ..
        } => {
            append_u64(to, *msg_length);
            append_u64(to, *offset);
        }
        Form::LongCts {
            msg_length,
            send_id,
            credit_request,
            ..
        } => {
            append_u64(to, *msg_length);
            append_u32(to, send_id.0);
            append_u32(to, *credit_request);
        }
        Form::LongRead {
            msg_length,
            send_id,
            iov,
        } => {
            append_u64(to, *msg_length);
            append_u32(to, send_id.0);
            append_u32(to, iov.as_slice().len() as u32);
        }
        Form::Runt {
            msg_length,
            send_id,
            iov,
            runt_length,
            offset,
            ..
        } => {
            append_u64(to, *msg_length);
            append_u32(to, send_id.0);
            append_u32(to, iov.as_slice().len() as u32);
            append_u64(to, *runt_length);
            append_u64(to, *offset);
        }
    }
}

/// Appends the tag, if it is there, for which room is reserved.
#[tactic(auto, using(crate::proofs::PacketSizes::part_sizes), unfolding(crate::specs::Grammar::tag_fields, rdm_hdr::specs::Fields::fields_bytes))]
fn append_tag(tag: Option<u64>, to: &mut Vec<u8>)
    requires { vec_len to.old + length (fields_bytes (tag_fields tag)) ≤ vec_capacity to.old }
    ensures items { to.new.items ≡ to.old.items ++ fields_bytes (tag_fields tag) }
    ensures len { vec_len to.new ≡ vec_len to.old + length (fields_bytes (tag_fields tag)) }
    ensures room { vec_capacity to.old ≤ vec_capacity to.new }
{
    if let Some(tag) = tag {
        append_u64(to, tag);
    }
}

/// Appends the read list and the data, for which room is reserved.
#[tactic(auto, using(crate::proofs::PacketBytes::last_parts))]
fn append_last(form: &Form, to: &mut Vec<u8>)
    requires { vec_len to.old + length (fields_bytes (last_fields form.now)) ≤ vec_capacity to.old }
    ensures { to.new.items ≡ to.old.items ++ fields_bytes (last_fields form.now) }
{
    match form {
        Form::Eager { bytes } | Form::Medium { bytes, .. } | Form::LongCts { bytes, .. } => {
            append_bytes(to, bytes.as_slice());
        }
        Form::LongRead { iov, .. } => append_iov(iov.as_slice(), to),
        Form::Runt { iov, bytes, .. } => {
            append_iov(iov.as_slice(), to);
            append_bytes(to, bytes.as_slice());
        }
    }
}

/// Appends a read list, for which room is reserved.
fn append_iov(iov: &[IovEntry], to: &mut Vec<u8>)
    requires { vec_len to.old + 24 * length iov.now ≤ vec_capacity to.old }
    ensures items { to.new.items ≡ to.old.items ++ fields_bytes (flat_map entry_fields iov.now) }
    ensures len { vec_len to.new ≡ vec_len to.old + 24 * length iov.now }
    ensures room { vec_capacity to.old ≤ vec_capacity to.new }
{
    for entry in iov {
        append_u64(to, entry.offset);
        append_u64(to, entry.length);
        append_u64(to, entry.key);
    }
}

/// Appends words, for which room is reserved.
fn append_words(words: &[u64], to: &mut Vec<u8>)
    requires { vec_len to.old + 8 * length words.now ≤ vec_capacity to.old }
    ensures items { to.new.items ≡ to.old.items ++ fields_bytes (map (Number 8) words.now) }
    ensures len { vec_len to.new ≡ vec_len to.old + 8 * length words.now }
    ensures room { vec_capacity to.old ≤ vec_capacity to.new }
{
    for word in words {
        append_u64(to, *word);
    }
}
