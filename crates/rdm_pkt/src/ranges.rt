//! That each number of a packet is within its range, since its type is: these calls read the numbers and do nothing else.
ghost use Rattle.std.specs.Prelude.{IsTrue, [], ◌∷◌, map, flat_map};
ghost use Rattle.rdm_hdr.specs.Fields.{Number, Data, fields_fit};
ghost use Rattle.rdm_hdr.specs.Headers.{raw_fields, cq_data_fields, connid_fields, opt_fields};
ghost use Rattle.rdm_pkt.specs.Grammar.{tag_fields, entry_fields, form_fields, last_fields, form_fits, packet_fits, layout};

use crate::handshakes::sender_opt;
use crate::{Form, Packet};
use rdm_hdr::Opt;
use rdm_num::IovEntry;

impl Packet {
    /// Each number of a packet that meets its conditions is within its range.
    pub fn in_range(&self)
        requires { IsTrue (packet_fits self.now) }
        ensures { IsTrue (fields_fit (layout self.now)) }
    {
        match self {
            Packet::Rtm {
                no,
                tag,
                opt,
                form,
                ..
            } => {
                number_in_range(no.0);
                tag_in_range(*tag);
                opt_in_range(opt);
                form_in_range(form);
            }
            Packet::Cts {
                send_id,
                recv_id,
                recv_length,
                connid,
            } => {
                number_in_range(send_id.0);
                number_in_range(recv_id.0);
                word_in_range(*recv_length);
                number_in_range(connid.0);
            }
            Packet::CtsData {
                recv_id,
                offset,
                connid,
                bytes,
            } => {
                number_in_range(recv_id.0);
                word_in_range(*offset);
                number_in_range(connid.0);
                bytes_in_range(bytes.as_slice());
            }
            Packet::Eor {
                send_id,
                recv_id,
                connid,
            } => {
                number_in_range(send_id.0);
                number_in_range(recv_id.0);
                number_in_range(connid.0);
            }
            Packet::Handshake { words, connid, raw } => {
                words_in_range(words.as_slice());
                opt_in_range(&sender_opt(*connid, *raw));
            }
            Packet::Receipt { no, connid } => {
                number_in_range(no.0);
                number_in_range(connid.0);
            }
        }
    }
}

/// A number of four bytes is in its range.
#[tactic(auto, using(crate::proofs::InRange::ranges))]
fn number_in_range(number: u32)
    ensures { IsTrue (fields_fit (Number 4 number ∷ [])) }
{
    let _number = number;
}

/// A number of eight bytes is in its range.
#[tactic(auto, using(crate::proofs::InRange::ranges))]
fn word_in_range(word: u64)
    ensures { IsTrue (fields_fit (Number 8 word ∷ [])) }
{
    let _word = word;
}

/// A tag is in its range.
#[tactic(auto, using(crate::proofs::InRange::ranges), unfolding(crate::specs::Grammar::tag_fields))]
fn tag_in_range(tag: Option<u64>)
    ensures { IsTrue (fields_fit (tag_fields tag)) }
{
    if let Some(tag) = tag {
        let _tag = tag;
    }
}

/// The optional headers are in their ranges.
#[tactic(auto, using(crate::proofs::InRange::opt_parts))]
fn opt_in_range(opt: &Opt)
    ensures { IsTrue (fields_fit (opt_fields opt.now)) }
{
    raw_in_range(opt.raw);
    cq_data_in_range(opt.cq_data);
    connid_in_range(opt.connid);
}

/// A raw address is in its ranges.
#[tactic(auto, using(crate::proofs::InRange::raw_parts))]
fn raw_in_range(raw: Option<(u32, u32)>)
    ensures { IsTrue (fields_fit (raw_fields raw)) }
{
    if let Some((port, connid)) = raw {
        let _address = (port, connid);
    }
}

/// CQ data are in their range.
#[tactic(auto, using(crate::proofs::InRange::ranges), unfolding(rdm_hdr::specs::Headers::cq_data_fields))]
fn cq_data_in_range(cq_data: Option<u64>)
    ensures { IsTrue (fields_fit (cq_data_fields cq_data)) }
{
    if let Some(number) = cq_data {
        let _number = number;
    }
}

/// An identifier is in its range.
#[tactic(auto, using(crate::proofs::InRange::ranges), unfolding(rdm_hdr::specs::Headers::connid_fields))]
fn connid_in_range(connid: Option<u32>)
    ensures { IsTrue (fields_fit (connid_fields connid)) }
{
    if let Some(connid) = connid {
        let _connid = connid;
    }
}

/// The header of a form that meets its conditions, its read list and its bytes are in their ranges.
fn form_in_range(form: &Form)
    requires { IsTrue (form_fits form.now) }
    ensures header { IsTrue (fields_fit (form_fields form.now)) }
    ensures last { IsTrue (fields_fit (last_fields form.now)) }
{
    match form {
        Form::Eager { bytes } => bytes_in_range(bytes.as_slice()),
        Form::Medium {
            msg_length,
            offset,
            bytes,
        } => {
            word_in_range(*msg_length);
            word_in_range(*offset);
            bytes_in_range(bytes.as_slice());
        }
        Form::LongCts {
            msg_length,
            send_id,
            credit_request,
            bytes,
        } => {
            word_in_range(*msg_length);
            number_in_range(send_id.0);
            number_in_range(*credit_request);
            bytes_in_range(bytes.as_slice());
        }
        Form::LongRead {
            msg_length,
            send_id,
            iov,
        } => {
            word_in_range(*msg_length);
            number_in_range(send_id.0);
            iov_in_range(iov.as_slice());
        }
        Form::Runt {
            msg_length,
            send_id,
            iov,
            runt_length,
            offset,
            bytes,
        } => {
            word_in_range(*msg_length);
            number_in_range(send_id.0);
            word_in_range(*runt_length);
            word_in_range(*offset);
            iov_in_range(iov.as_slice());
            bytes_in_range(bytes.as_slice());
        }
    }
}

/// Bytes are in their range.
fn bytes_in_range(bytes: &[u8])
    ensures { IsTrue (fields_fit (Data bytes.now ∷ [])) }
{
    let _count = bytes.len();
}

/// Words are in their range.
fn words_in_range(words: &[u64])
    ensures { IsTrue (fields_fit (map (Number 8) words.now)) }
{
    let _count = words.len();
}

/// The ranges of a read list are in their ranges.
fn iov_in_range(iov: &[IovEntry])
    ensures { IsTrue (fields_fit (flat_map entry_fields iov.now)) }
{
    for entry in iov {
        word_in_range(entry.offset);
        word_in_range(entry.length);
        word_in_range(entry.key);
    }
}
