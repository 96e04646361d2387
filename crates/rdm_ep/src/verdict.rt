//! What an endpoint decides on what came.
ghost use Rattle.std.specs.Prelude.{◌≡◌, ◌∷◌, [], IfOk, nat_lt, ◌||◌};
ghost use Rattle.rdm_pkt.specs.Heads.{head_of};
ghost use Rattle.rdm_pkt.specs.declared.Packet.TheVariants.{Rtm};
ghost use Rattle.rdm_model.specs.Deeds.{Spelled, item_of};
ghost use Rattle.rdm_model.specs.Heads as Heads;
ghost use Rattle.rdm_model.specs.Heads.{same_head};
ghost use Rattle.rdm_model.specs.Sources as Sources;
ghost use Rattle.rdm_ep.specs.Entering as Entering;
ghost use Rattle.rdm_ep.specs.Entering.{next_in};
ghost use Rattle.rdm_ep.specs.Handling as Handling;
ghost use Rattle.rdm_ep.specs.Handling.{rtm_class, inbound_head};
ghost use Rattle.rdm_ep.specs.Verdicts.{verdict_in, known_verdict, verdict_of};

use crate::current::current_of;
use crate::endpoint::Endpoint;
use crate::holding::is_message;
use crate::peers::peer_of;
use crate::state::{Inbound, Verdict};
use crate::twin::TwinBytes;
use rdm_hdr::Opt;
use rdm_model::Class;
use rdm_num::{Connid, Life, MsgNo, NoMemory, PortNo, is_same_life};
use rdm_pkt::{Form, Packet};
use rdm_wire::Load;
use std::alloc::Global;

impl Endpoint {
    /// Decides on a load from one life to another. A packet is copied out of its bytes here.
    #[tactic(auto, unfolding(crate::specs::Verdicts::verdict_in, crate::specs::Verdicts::verdict_of, crate::specs::Verdicts::known_verdict, crate::specs::Verdicts::known_class, crate::specs::Handling::item_class_in, crate::specs::View::current_in, rdm_lists::specs::Lists::first_case))]
    pub(crate) fn verdict(
        &self,
        alloc: Global,
        from: Life,
        to: Connid,
        load: &Load,
    ) -> Result<Verdict, NoMemory>
        ensures { IfOk result (λ r. r ≡ verdict_in self.now from to (item_of load.now)) }
    {
        if self.life.connid.0 != to.0 {
            return Ok(Verdict::Refuse(Class::ToOther));
        }
        if is_other(current_of(&self.currents, from.port), from) {
            return Ok(Verdict::Refuse(Class::FromOther));
        }
        self.known_verdict(alloc, from, load)
    }

    /// Decides on a load for this life, from a life whose port has no other current one.
    #[tactic(auto, unfolding(crate::specs::Verdicts::verdict_of, crate::specs::Verdicts::known_verdict, crate::specs::Verdicts::known_class, crate::specs::Handling::load_class, crate::specs::View::current_in, rdm_lists::specs::Lists::first_case, rdm_model::specs::Deeds::item_of, rdm_model::specs::Deeds::packet_item, rdm_model::specs::Sources::is_malformed, rdm_model::specs::Sources::has_raw))]
    fn known_verdict(&self, alloc: Global, from: Life, load: &Load) -> Result<Verdict, NoMemory>
        ensures { IfOk result (λ r. r ≡ known_verdict self.now from (item_of load.now)) }
    {
        let is_known = current_of(&self.currents, from.port).is_some();
        match load {
            Load::Packet(bytes) => match Packet::read(alloc, bytes.as_slice())? {
                Some(packet) => self.packet_verdict(from, packet),
                None => Ok(Verdict::Refuse(Class::Malformed)),
            },
            Load::Ask(_) if is_known => Ok(Verdict::Refuse(Class::BadKey)),
            Load::Given(_) if is_known => Ok(Verdict::Refuse(Class::NoOp)),
            Load::Ask(_) | Load::Given(_) => Ok(Verdict::Refuse(Class::Unknown)),
        }
    }

    /// Decides on a packet.
    #[tactic(auto, unfolding(crate::specs::Verdicts::verdict_of, crate::specs::Verdicts::accepted_of, crate::specs::Verdicts::known_verdict, crate::specs::Verdicts::known_class, crate::specs::Handling::load_class, crate::specs::View::current_in, rdm_lists::specs::Lists::first_case, rdm_model::specs::Sources::is_malformed))]
    fn packet_verdict(&self, from: Life, packet: Packet) -> Result<Verdict, NoMemory>
        ensures { IfOk result (λ r. r ≡ known_verdict self.now from (Spelled packet)) }
    {
        if !names_source(from, &packet) {
            return Ok(Verdict::Refuse(Class::Malformed));
        }
        if current_of(&self.currents, from.port).is_none() && !has_raw(&packet) {
            return Ok(Verdict::Refuse(Class::Unknown));
        }
        match packet {
            Packet::Rtm {
                no,
                tag,
                confirm,
                opt,
                form,
            } => self.opening_verdict(from, no, tag, confirm, opt, form),
            Packet::Handshake { words, .. } => {
                if peer_of(&self.peers, from).known.is_some() {
                    return Ok(Verdict::Refuse(Class::Mismatch));
                }
                Ok(Verdict::Features(words.as_slice().first().copied()))
            }
            Packet::CtsData { bytes: _bytes, .. } => Ok(Verdict::Refuse(Class::NoOp)),
            Packet::Cts { .. } | Packet::Eor { .. } | Packet::Receipt { .. } => {
                Ok(Verdict::Refuse(Class::NoOp))
            }
        }
    }

    /// Decides on a packet that opens a message.
    #[tactic(auto, unfolding(crate::specs::Verdicts::verdict_of, crate::specs::Verdicts::accepted_of, crate::specs::Handling::rtm_class, crate::specs::Handling::is_eager, rdm_pkt::specs::Heads::head_of, rdm_lists::specs::Lists::first_case))]
    fn opening_verdict(
        &self,
        from: Life,
        no: MsgNo,
        tag: Option<u64>,
        confirm: bool,
        opt: Opt,
        form: Form,
    ) -> Result<Verdict, NoMemory>
        ensures { IfOk result (λ r. r ≡ verdict_of from (Spelled (Rtm no tag confirm opt form)) (rtm_class self.now from no.0 (head_of tag confirm opt form) form)) }
    {
        if is_other_message(&self.arrived, from, no, tag, confirm, &opt, &form)
            || is_other_message(&self.held, from, no, tag, confirm, &opt, &form)
        {
            return Ok(Verdict::Refuse(Class::Mismatch));
        }
        if self.has_entered(from, no) || self.is_held(from, no) {
            return Ok(Verdict::Refuse(Class::Overlap));
        }
        if confirm {
            return Ok(Verdict::Refuse(Class::Malformed));
        }
        match form {
            Form::Eager { bytes } => Ok(Verdict::Message(Inbound {
                life: from,
                no,
                tag,
                confirm,
                cq_data: opt.cq_data,
                bytes: TwinBytes::copied(bytes)?,
            })),
            Form::Medium { bytes: _bytes, .. } | Form::LongCts { bytes: _bytes, .. } => {
                Ok(Verdict::Refuse(Class::Malformed))
            }
            Form::LongRead { iov: _iov, .. } => Ok(Verdict::Refuse(Class::Malformed)),
            Form::Runt {
                iov: _iov,
                bytes: _bytes,
                ..
            } => Ok(Verdict::Refuse(Class::Malformed)),
        }
    }

    /// The number has entered, or is below the first one.
    fn has_entered(&self, from: Life, no: MsgNo) -> bool
        ensures { result ≡ nat_lt no.0 (next_in self.now from) }
    {
        no.0 < self.limits.first
            || ((no.0 - self.limits.first) as u64) < peer_of(&self.peers, from).entered
    }

    /// The message is held for those before it.
    #[tactic(auto, unfolding(crate::specs::Entering::is_held_in))]
    fn is_held(&self, from: Life, no: MsgNo) -> bool
        ensures { result ≡ Entering.is_held_in self.now from no.0 }
    {
        self.held
            .iter()
            .any(|inbound| is_message(inbound, from, no.0 as u64))
    }
}

/// The message is one of these, and its packet said something else of it.
#[tactic(auto, unfolding(crate::specs::Handling::is_other_message))]
fn is_other_message(
    messages: &[Inbound],
    from: Life,
    no: MsgNo,
    tag: Option<u64>,
    confirm: bool,
    opt: &Opt,
    form: &Form,
) -> bool
    ensures { result ≡ Handling.is_other_message messages.now from no.0 (head_of tag confirm opt.now form.now) }
{
    messages.iter().any(|inbound| {
        is_message(inbound, from, no.0 as u64) && !has_head(inbound, tag, confirm, opt, form)
    })
}

/// A message that waits is what the packet says of it.
#[tactic(auto, unfolding(rdm_model::specs::Heads::same_head, rdm_model::specs::Heads::same_truth, rdm_model::specs::Heads::same_option, rdm_model::specs::Heads::same_shape, rdm_pkt::specs::Heads::head_of, rdm_pkt::specs::Heads::size_of, rdm_pkt::specs::Heads::shape_of))]
fn has_head(inbound: &Inbound, tag: Option<u64>, confirm: bool, opt: &Opt, form: &Form) -> bool
    ensures { result ≡ same_head (inbound_head inbound.now) (head_of tag confirm opt.now form.now) }
{
    match form {
        Form::Eager { bytes } => {
            same_option(inbound.tag, tag)
                && inbound.confirm == confirm
                && same_option(inbound.cq_data, opt.cq_data)
                && inbound.bytes.len() == bytes.len()
        }
        Form::Medium { .. } | Form::LongCts { .. } | Form::LongRead { .. } | Form::Runt { .. } =>
            false,
    }
}

/// Both are none, or both are the same number.
#[tactic(auto, unfolding(rdm_model::specs::Heads::same_option))]
fn same_option(a: Option<u64>, b: Option<u64>) -> bool
    ensures { result ≡ Heads.same_option a b }
{
    match (a, b) {
        (None, None) => true,
        (Some(a), Some(b)) => a == b,
        (None, Some(_)) | (Some(_), None) => false,
    }
}

/// The current life of the source's port is another one.
#[tactic(auto, unfolding(rdm_model::specs::Sources::is_other))]
fn is_other(current: Option<Life>, from: Life) -> bool
    ensures { result ≡ Sources.is_other current from }
{
    match current {
        Some(now) => !is_same_life(now, from),
        None => false,
    }
}

/// The raw address and the identifier of a packet are those of the life.
#[tactic(auto, unfolding(rdm_model::specs::Sources::names_source, rdm_model::specs::Sources::is_raw_of, rdm_model::specs::Sources::is_connid_of))]
fn names_source(from: Life, packet: &Packet) -> bool
    ensures { result ≡ Sources.names_source from packet.now }
{
    match packet {
        Packet::Rtm { opt, .. } => is_raw_of(from, opt.raw) && is_connid_of(from, opt.connid),
        Packet::Cts { connid, .. }
        | Packet::CtsData { connid, .. }
        | Packet::Eor { connid, .. }
        | Packet::Receipt { connid, .. } => connid.0 == from.connid.0,
        Packet::Handshake { connid, raw, .. } => {
            connid.0 == from.connid.0 && is_port_of(from, *raw)
        }
    }
}

/// No port, or that of the life.
#[tactic(auto, unfolding(rdm_model::specs::Sources::is_port_of))]
fn is_port_of(from: Life, raw: Option<PortNo>) -> bool
    ensures { result ≡ Sources.is_port_of from raw }
{
    match raw {
        Some(port) => port.0 == from.port.0,
        None => true,
    }
}

/// No raw address, or that of the life.
#[tactic(auto, unfolding(rdm_model::specs::Sources::is_raw_of))]
fn is_raw_of(from: Life, raw: Option<(u32, u32)>) -> bool
    ensures { result ≡ Sources.is_raw_of from raw }
{
    match raw {
        Some((port, connid)) => port == from.port.0 && connid == from.connid.0,
        None => true,
    }
}

/// No identifier, or that of the life.
#[tactic(auto, unfolding(rdm_model::specs::Sources::is_connid_of))]
fn is_connid_of(from: Life, connid: Option<u32>) -> bool
    ensures { result ≡ Sources.is_connid_of from connid }
{
    match connid {
        Some(connid) => connid == from.connid.0,
        None => true,
    }
}

/// A packet that opens a message or a handshake, with a raw address.
#[tactic(auto, unfolding(rdm_model::specs::Sources::has_raw))]
fn has_raw(packet: &Packet) -> bool
    ensures { result ≡ Sources.has_raw (Spelled packet.now) }
{
    match packet {
        Packet::Rtm { opt, .. } => opt.raw.is_some(),
        Packet::Handshake { raw, .. } => raw.is_some(),
        Packet::Cts { .. } | Packet::CtsData { .. } | Packet::Eor { .. } | Packet::Receipt { .. } =>
            false,
    }
}
