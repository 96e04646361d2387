//! How many bytes packets have.
ghost use Rattle.std.specs.Prelude.{◌≡◌, ◌≤◌, ◌<◌, ◌+◌, ◌*◌, ◌^◌, IsTrue, length};
ghost use Rattle.rdm_hdr.specs.Fields.{fields_bytes};
ghost use Rattle.rdm_pkt.specs.Grammar.{packet_fits, form_fits, spelling, form_fields, last_fields, tag_fields};

use crate::handshakes::sender_opt;
use crate::{Form, Packet};
use rdm_hdr::opt_size;

impl Packet {
    /// How many bytes the packet has.
    #[tactic(auto, using(crate::proofs::PacketSizes::packet_sizes))]
    pub fn size(&self) -> usize
        requires { IsTrue (packet_fits self.now) }
        ensures { result ≡ length (spelling self.now) }
    {
        match self {
            Packet::Rtm { tag, opt, form, .. } => {
                8 + form_size(form) + tag_size(*tag) + opt_size(opt) + last_size(form)
            }
            Packet::Cts { .. } => 24,
            Packet::CtsData { bytes, .. } => 28 + bytes.as_slice().len(),
            Packet::Eor { .. } => 16,
            Packet::Handshake { words, connid, raw } => {
                8 + 8 * words.as_slice().len() + opt_size(&sender_opt(*connid, *raw))
            }
            Packet::Receipt { .. } => 12,
        }
    }
}

/// How many bytes the header of a form has after the message number.
#[tactic(auto, using(crate::proofs::PacketSizes::part_sizes))]
fn form_size(form: &Form) -> usize
    ensures value { result ≡ length (fields_bytes (form_fields form.now)) }
    ensures bound { result ≤ 32 }
{
    match form {
        Form::Eager { .. } => 0,
        Form::Medium { .. } | Form::LongCts { .. } | Form::LongRead { .. } => 16,
        Form::Runt { .. } => 32,
    }
}

/// How many bytes the tag has.
#[tactic(auto, using(crate::proofs::PacketSizes::part_sizes))]
fn tag_size(tag: Option<u64>) -> usize
    ensures value { result ≡ length (fields_bytes (tag_fields tag)) }
    ensures bound { result ≤ 8 }
{
    if tag.is_some() { 8 } else { 0 }
}

/// How many bytes the read list and the data have.
#[tactic(auto, using(crate::proofs::PacketSizes::part_sizes))]
fn last_size(form: &Form) -> usize
    requires { IsTrue (form_fits form.now) }
    ensures value { result ≡ length (fields_bytes (last_fields form.now)) }
    ensures bound { result < 2 ^ 63 + 96 }
{
    match form {
        Form::Eager { bytes } | Form::Medium { bytes, .. } | Form::LongCts { bytes, .. } => {
            bytes.as_slice().len()
        }
        Form::LongRead { iov, .. } => 24 * iov.as_slice().len(),
        Form::Runt { iov, bytes, .. } => 24 * iov.as_slice().len() + bytes.as_slice().len(),
    }
}
