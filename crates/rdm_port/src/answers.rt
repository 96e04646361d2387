//! What an instruction answers, by what a port keeps.
ghost use Rattle.std.specs.Prelude.{◌≡◌, ◌⊎◌, ◌+◌, Some, true, false, not, ◌&&◌, nat_le};
ghost use Rattle.rdm_model.specs.declared.answer.Next.TheVariants as NextKind;
ghost use Rattle.rdm_model.specs.Jobs.{needs_life, spans_length};
ghost use Rattle.rdm_port.specs.Views.{PortView};
ghost use Rattle.rdm_port.specs.Kept as KeptWords;
ghost use Rattle.rdm_port.specs.Kept.{Kept};
ghost use Rattle.rdm_ep.specs.Answers as EpAnswers;
ghost use Rattle.rdm_port.specs.Machine.{header_size, machine_answer, takes_memory};

use crate::kept::{State, Told};
use rdm_ep::{Endpoint, RecvAnswer, SendAnswer, total_length};
use rdm_model::{DidWhat, Instr, Next, RecvWhy, SendWhy, Why, Yet};
use rdm_num::{EpLimits, Life, PortNo, RegionNo, SendReq};

/// The life is among those.
#[tactic(auto, unfolding(crate::specs::Kept::is_opened, rdm_num::specs::Lives::same_life))]
fn is_opened(opened: &[Life], life: Life) -> bool
    ensures { result ≡ KeptWords.is_opened opened.now life }
{
    opened.iter().any(|other| life.port.0 == other.port.0 && life.connid.0 == other.connid.0)
}

/// The word of that port is among those.
#[tactic(auto, unfolding(crate::specs::Kept::is_told))]
fn is_told(told: &[Told], from: PortNo, what: u64) -> bool
    ensures { result ≡ KeptWords.is_told told.now from.0 what }
{
    told.iter()
        .any(|word| word.from.0 == from.0 && word.what == what)
}

/// What a send answers, as the answer of an instruction.
#[tactic(auto, unfolding(rdm_ep::specs::Answers::next_of_send, rdm_ep::specs::Answers::why_of_send))]
fn next_of_send(answer: SendAnswer) -> Next
    ensures { result ≡ EpAnswers.next_of_send answer }
{
    match answer {
        SendAnswer::Did { send, msg } => Next::Did(DidWhat::Sent(send, msg)),
        SendAnswer::Refused(SendWhy::NoRegion) => Next::Refused(Why::NoRegion),
        SendAnswer::Refused(SendWhy::Range) => Next::Refused(Why::Range),
        SendAnswer::Refused(SendWhy::NoEntry) => Next::Refused(Why::NoEntry),
        SendAnswer::Refused(SendWhy::Busy) => Next::Refused(Why::Busy),
        SendAnswer::Refused(SendWhy::Numbers) => Next::Refused(Why::Numbers),
        SendAnswer::Refused(SendWhy::NoConfirm) => Next::Refused(Why::NoConfirm),
        SendAnswer::NotYet => Next::NotYet(Yet::Handshake),
        SendAnswer::Again(pool) => Next::Again(pool),
        SendAnswer::Memory => Next::Memory,
    }
}

/// What a receive answers, as the answer of an instruction.
#[tactic(auto, unfolding(rdm_ep::specs::Answers::next_of_recv, rdm_ep::specs::Answers::why_of_recv))]
fn next_of_recv(answer: RecvAnswer) -> Next
    ensures { result ≡ EpAnswers.next_of_recv answer }
{
    match answer {
        RecvAnswer::Did(recv) => Next::Did(DidWhat::Posted(recv)),
        RecvAnswer::Refused(RecvWhy::NoRegion) => Next::Refused(Why::NoRegion),
        RecvAnswer::Refused(RecvWhy::Range) => Next::Refused(Why::Range),
        RecvAnswer::Refused(RecvWhy::NoEntry) => Next::Refused(Why::NoEntry),
        RecvAnswer::Refused(RecvWhy::Busy) => Next::Refused(Why::Busy),
        RecvAnswer::Again(pool) => Next::Again(pool),
        RecvAnswer::Memory => Next::Memory,
    }
}

impl State {
    /// What an instruction answers. What is not built yet wants memory.
    #[tactic(auto, unfolding(crate::specs::Machine::machine_answer, crate::specs::Machine::insert_answer_in, crate::specs::Machine::takes_memory, rdm_model::specs::Jobs::needs_life))]
    pub fn answer(&self, number: PortNo, limits: &EpLimits, instr: &Instr) -> Next
        ensures says { (v : PortView) → v.number ≡ number.0 → v.limits ≡ limits.now → (result ≡ NextKind.Memory) ⊎ (result ≡ machine_answer v self.now instr.now) }
        ensures spared { (v : PortView) → takes_memory instr.now ≡ false → result ≡ machine_answer v self.now instr.now }
    {
        match instr {
            Instr::OpenLife { connid } => {
                let life = Life {
                    port: number,
                    connid: *connid,
                };
                if self.endpoint.is_some() || is_opened(&self.opened, life) {
                    Next::Memory
                } else {
                    Next::Did(DidWhat::Plain)
                }
            }
            Instr::Note { to: _, what: _ } => Next::Did(DidWhat::Plain),
            Instr::Await { from, what } => {
                if is_told(&self.told, *from, *what) {
                    Next::Did(DidWhat::Plain)
                } else {
                    Next::NotYet(Yet::Await)
                }
            }
            _ => match &self.endpoint {
                None => Next::Memory,
                Some(endpoint) => answer_in(endpoint, &self.opened, limits, instr),
            },
        }
    }
}

/// What an instruction of an open life answers.
#[tactic(auto, unfolding(crate::specs::Machine::machine_answer, crate::specs::Machine::insert_answer_in, crate::specs::Machine::takes_memory, rdm_model::specs::Jobs::needs_life))]
fn answer_in(endpoint: &Endpoint, opened: &[Life], limits: &EpLimits, instr: &Instr) -> Next
    ensures says { (v : PortView) → (k : Kept) → v.limits ≡ limits.now → k.opened ≡ opened.now → k.endpoint ≡ Some endpoint.now → (result ≡ NextKind.Memory) ⊎ (result ≡ machine_answer v k instr.now) }
    ensures spared { (v : PortView) → (k : Kept) → k.endpoint ≡ Some endpoint.now → needs_life instr.now ≡ true → takes_memory instr.now ≡ false → result ≡ machine_answer v k instr.now }
{
    match instr {
        Instr::Insert { life } => {
            if !is_opened(opened, *life) {
                Next::NotYet(Yet::Opened)
            } else if endpoint.supersedes(*life) || endpoint.greets_inserted() {
                Next::Memory
            } else {
                Next::Did(DidWhat::Plain)
            }
        }
        Instr::Reg { content: _ } => {
            let count = endpoint.region_count();
            if count < 4_294_967_295 {
                Next::Did(DidWhat::Region(RegionNo(count as u32)))
            } else {
                Next::Memory
            }
        }
        Instr::Send(req) => {
            if is_built_send(limits, req) {
                next_of_send(endpoint.answer_send(req))
            } else {
                Next::Memory
            }
        }
        Instr::Recv(req) => next_of_recv(endpoint.answer_recv(req)),
        Instr::Cancel { recv } => {
            if endpoint.is_posted(*recv) {
                Next::Did(DidWhat::Plain)
            } else {
                Next::Refused(Why::NotPosted)
            }
        }
        Instr::Wait { count } => {
            let have = endpoint.polled_count();
            if have < *count {
                Next::NotYet(Yet::Wait { have, need: *count })
            } else {
                Next::Did(DidWhat::Plain)
            }
        }
        _ => Next::Memory,
    }
}

/// The send asks for no receipt and has room in one packet, whatever its headers.
fn is_built_send(limits: &EpLimits, req: &SendReq) -> bool
    ensures { result ≡ (not req.now.confirm && nat_le (spans_length req.now.parts + header_size req.now) limits.now.mtu) }
{
    !req.confirm
        && total_length(&req.parts) + u128::from(header_size(req)) <= u128::from(limits.mtu)
}

/// How many bytes of headers a message in one packet has beside a raw address, which is the longest.
fn header_size(req: &SendReq) -> u32
    ensures { result ≡ header_size req.now }
{
    let tag = if req.tag.is_some() { 8 } else { 0 };
    let cq_data = if req.cq_data.is_some() { 8 } else { 0 };
    44 + tag + cq_data
}
