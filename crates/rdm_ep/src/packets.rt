//! The packets that an endpoint makes.
ghost use Rattle.std.specs.Prelude.{◌≡◌, [], ◌∷◌, IfOk, IsTrue, None};
ghost use Rattle.rdm_pkt.specs.Grammar.{packet_fits};
ghost use Rattle.rdm_pkt.specs.declared.Packet.TheVariants as PacketKind;
ghost use Rattle.rdm_pkt.specs.declared.Form.TheVariants as FormKind;
ghost use Rattle.rdm_model.specs.Sends as Sends;
ghost use Rattle.rdm_ep.specs.Going.{outgoing_of};

use crate::answer::Outgoing;
use crate::peers::{opt_for, wants_raw};
use rdm_num::{Bytes, Connid, Life, MsgNo, NoMemory, SendReq, Words};
use rdm_pkt::{Form, Packet};
use rdm_wire::Load;
use std::alloc::Global;

/// Tells a life these features.
#[tactic(auto, unfolding(rdm_pkt::specs::Grammar::packet_fits))]
pub fn handshake(alloc: Global, features: u64, connid: Connid) -> Result<Packet, NoMemory>
    ensures packet { IfOk result (λ p. p ≡ PacketKind.Handshake (features ∷ []) connid None) }
    ensures fits { IfOk result (λ p. IsTrue (packet_fits p)) }
{
    let words = Words::from_slice(alloc, &[features])?;
    Ok(Packet::Handshake {
        words,
        connid,
        raw: None,
    })
}

/// Carries a whole message from a life, to one of which this is known.
#[tactic(auto, unfolding(rdm_pkt::specs::Grammar::packet_fits, rdm_pkt::specs::Grammar::confirm_fits, rdm_pkt::specs::Grammar::opt_fits, rdm_pkt::specs::Grammar::form_fits))]
pub fn eager(life: Life, known: Option<u64>, no: MsgNo, request: &SendReq, bytes: Bytes) -> Packet
    ensures packet { result ≡ PacketKind.Rtm no request.now.tag request.now.confirm (Sends.opt_for life (Sends.wants_raw known) request.now.cq_data) (FormKind.Eager bytes) }
    ensures fits { IsTrue (packet_fits result) }
{
    let opt = opt_for(life, wants_raw(known), request.cq_data);
    Packet::Rtm {
        no,
        tag: request.tag,
        confirm: request.confirm,
        opt,
        form: Form::Eager { bytes },
    }
}

/// A packet on its way to a life.
pub fn leaving(alloc: Global, to: Life, packet: &Packet) -> Result<Outgoing, NoMemory>
    requires { IsTrue (packet_fits packet.now) }
    ensures { IfOk result (λ o. o ≡ outgoing_of (record { to = to; packet = packet.now })) }
{
    let mut bytes = Vec::new(alloc);
    packet.write(&mut bytes)?;
    Ok(Outgoing {
        to,
        load: Load::Packet(Bytes::from_vec(bytes)),
    })
}
