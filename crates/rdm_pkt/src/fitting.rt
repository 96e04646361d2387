//! Which packets have a spelling.
ghost use Rattle.std.specs.Bool.{OnTrue};
ghost use Rattle.std.specs.Prelude.{◌≡◌, IsTrue};
ghost use Rattle.rdm_pkt.specs.Grammar as Grammar;

use crate::read_forms::ends_by;
use crate::read_list::iov_fits;
use crate::reading::opt_fits;
use crate::{Form, Packet};

impl Packet {
    /// Whether the packet is within the ranges of the grammar, so that it has a spelling.
    #[tactic(auto, unfolding(crate::specs::Grammar::fits))]
    pub fn fits(&self) -> bool
        ensures fits { result ≡ Grammar.fits self.now }
        ensures conditions { OnTrue result (IsTrue (Grammar.packet_fits self.now)) }
    {
        if !self.meets_conditions() {
            return false;
        }
        self.in_range();
        true
    }

    /// Whether the packet meets the conditions of its row.
    #[tactic(auto, using(crate::proofs::PacketTests::packet_tests))]
    fn meets_conditions(&self) -> bool
        ensures { result ≡ Grammar.packet_fits self.now }
    {
        match self {
            Packet::Rtm {
                confirm,
                opt,
                form,
                ..
            } => confirm_fits(*confirm, form) && opt_fits(opt) && form_fits(form),
            Packet::Cts { recv_length, .. } => *recv_length >= 1,
            Packet::CtsData { offset, bytes, .. } => {
                let length = bytes.as_slice().len() as u64;
                length >= 1 && *offset <= u64::MAX - length
            }
            Packet::Eor { .. } | Packet::Receipt { .. } => true,
            Packet::Handshake { words, .. } => {
                let count = words.as_slice().len();
                count >= 1 && count <= 8
            }
        }
    }
}

/// A message that is read asks for no receipt.
#[tactic(auto, unfolding(crate::specs::Grammar::confirm_fits))]
fn confirm_fits(confirm: bool, form: &Form) -> bool
    ensures { result ≡ Grammar.confirm_fits confirm form.now }
{
    match form {
        Form::Eager { .. } | Form::Medium { .. } | Form::LongCts { .. } => true,
        Form::LongRead { .. } | Form::Runt { .. } => !confirm,
    }
}

/// Whether a form meets its conditions.
#[tactic(auto, using(crate::proofs::PacketTests::form_tests))]
fn form_fits(form: &Form) -> bool
    ensures { result ≡ Grammar.form_fits form.now }
{
    match form {
        Form::Eager { .. } => true,
        Form::Medium {
            msg_length,
            offset,
            bytes,
        } => {
            let part = bytes.as_slice();
            part.len() >= 1 && ends_by(*offset, part, *msg_length)
        }
        Form::LongCts {
            msg_length,
            credit_request,
            bytes,
            ..
        } => {
            let length = bytes.as_slice().len() as u64;
            length >= 1 && length < *msg_length && *credit_request >= 1
        }
        Form::LongRead {
            msg_length,
            iov,
            ..
        } => iov_fits(iov.as_slice(), *msg_length),
        Form::Runt {
            msg_length,
            iov,
            runt_length,
            offset,
            bytes,
            ..
        } => {
            let part = bytes.as_slice();
            iov_fits(iov.as_slice(), *msg_length)
                && part.len() >= 1
                && ends_by(*offset, part, *runt_length)
                && *runt_length >= 1
                && *runt_length < *msg_length
        }
    }
}
