//! What an instruction that did makes of what a port keeps.
ghost use Rattle.std.specs.Prelude.{◌≡◌, ◌++◌, ◌∷◌, [], true, false, Some, OnOk, OnErr, IsOk, option_map};
ghost use Rattle.rdm_wire.specs.declared.NoteBody.TheVariants as NoteKind;
ghost use Rattle.rdm_model.specs.declared.job.Instr.TheVariants as InstrKind;
ghost use Rattle.rdm_ep.specs.Sending.{after_reg, after_insert, after_send};
ghost use Rattle.rdm_ep.specs.Receiving.{after_recv};
ghost use Rattle.rdm_model.specs.declared.answer.Next.TheVariants as NextKind;
ghost use Rattle.rdm_model.specs.declared.answer.DidWhat.{DidWhat};
ghost use Rattle.rdm_ep.specs.View.{EndpointView};
ghost use Rattle.rdm_ep.specs.Cancelling.{after_cancel, waits_for_message};
ghost use Rattle.rdm_port.specs.Views.{PortView};
ghost use Rattle.rdm_port.specs.Machine.{IsOwnedBy, after_did, after_entry, machine_answer, takes_memory};

use crate::kept::{QueuedNote, State};
use crate::notes::queue_opened;
use rdm_ep::{CancelAnswer, Endpoint, RecvAnswer, SendAnswer};
use rdm_model::{Instr, Next};
use rdm_num::{Connid, EpLimits, Life, NoMemory, PortNo, RecvNo, RecvReq, SendReq};
use rdm_wire::NoteBody;
use std::alloc::{AllocError, Global};
use std::mem;

/// Whose instruction it is: the port, how many ports there are, and what its endpoints begin with.
#[derive(Clone, Copy, Debug)]
pub struct Owner {
    pub number: PortNo,
    pub ports: u32,
    pub features: u64,
    pub limits: EpLimits,
}

impl State {
    /// Does an instruction by its answer: one that was refused has no effect.
    #[tactic(auto, unfolding(crate::specs::Machine::after_entry))]
    pub fn follow(
        &mut self,
        alloc: Global,
        owner: &Owner,
        instr: &Instr,
        answer: Next,
    ) -> Result<(), NoMemory>
        ensures ok { (v : PortView) → IsOwnedBy v owner.now → OnOk result (self.new ≡ after_entry v instr.now answer self.old) }
        ensures err { OnErr result (self.new ≡ self.old) }
        ensures spared { takes_memory instr.now ≡ false → (v : PortView) → answer ≡ machine_answer v self.old instr.now → IsOk result }
    {
        match answer {
            Next::Did(_) => self.apply(alloc, owner, instr),
            _ => Ok(()),
        }
    }

    /// Does an instruction, or leaves all as it was.
    #[tactic(auto, unfolding(crate::specs::Machine::after_did, crate::specs::Machine::takes_memory))]
    pub fn apply(&mut self, alloc: Global, owner: &Owner, instr: &Instr) -> Result<(), NoMemory>
        ensures ok { (v : PortView) → v.number ≡ owner.now.number.0 → v.ports ≡ owner.now.ports → v.rank.features ≡ owner.now.features → v.limits ≡ owner.now.limits → OnOk result (self.new ≡ after_did v instr.now self.old) }
        ensures err { OnErr result (self.new ≡ self.old) }
        ensures spared { takes_memory instr.now ≡ false → (v : PortView) → (what : DidWhat) → machine_answer v self.old instr.now ≡ NextKind.Did what → IsOk result }
    {
        match instr {
            Instr::OpenLife { connid } => self.open(alloc, owner, *connid),
            Instr::Insert { life } => self.insert(*life),
            Instr::Reg { content } => self.register(alloc, content.as_slice()),
            Instr::Send(req) => self.send(alloc, req),
            Instr::Recv(req) => self.receive(req),
            Instr::Cancel { recv } => self.cancel(*recv),
            Instr::Note { to, what } => self.note(*to, *what),
            _ => Ok(()),
        }
    }

    /// Opens a life, and queues the note of it to each other port.
    #[tactic(auto, unfolding(crate::specs::Machine::after_did, crate::specs::Kept::own_at))]
    fn open(&mut self, alloc: Global, owner: &Owner, connid: Connid) -> Result<(), NoMemory>
        ensures ok { (v : PortView) → v.number ≡ owner.now.number.0 → v.ports ≡ owner.now.ports → v.rank.features ≡ owner.now.features → v.limits ≡ owner.now.limits → OnOk result (self.new ≡ after_did v (InstrKind.OpenLife connid) self.old) }
        ensures err { OnErr result (self.new ≡ self.old) }
    {
        let life = Life {
            port: owner.number,
            connid,
        };
        self.notes.reserve(owner.ports as usize)?;
        self.opened.reserve(1)?;
        let endpoint = Endpoint::start(alloc, life, owner.features, &owner.limits)?;
        queue_opened(&mut self.notes, owner.number, owner.ports, connid);
        self.opened.push_reserved(life);
        if let Some(old) = mem::replace(&mut self.endpoint, Some(endpoint)) {
            old.close();
        }
        Ok(())
    }

    fn insert(&mut self, life: Life) -> Result<(), NoMemory>
        ensures ok { OnOk result (self.new ≡ record self.old { endpoint = option_map (λ e. after_insert e life) self.old.endpoint }) }
        ensures err { OnErr result (self.new ≡ self.old) }
    {
        match &mut self.endpoint {
            None => Err(AllocError),
            Some(endpoint) => match endpoint.insert(life) {
                Ok(_) => Ok(()),
                Err(_) => Err(AllocError),
            },
        }
    }

    fn register(&mut self, alloc: Global, content: &[u8]) -> Result<(), NoMemory>
        ensures ok { OnOk result (self.new ≡ record self.old { endpoint = option_map (λ e. after_reg e content.now) self.old.endpoint }) }
        ensures err { OnErr result (self.new ≡ self.old) }
    {
        match &mut self.endpoint {
            None => Err(AllocError),
            Some(endpoint) => {
                if 4_294_967_295 <= endpoint.region_count() {
                    return Err(AllocError);
                }
                endpoint.reg(alloc, content)?;
                Ok(())
            }
        }
    }

    fn send(&mut self, alloc: Global, req: &SendReq) -> Result<(), NoMemory>
        ensures ok { OnOk result (self.new ≡ record self.old { endpoint = option_map (λ e. after_send e req.now) self.old.endpoint }) }
        ensures err { OnErr result (self.new ≡ self.old) }
    {
        match &mut self.endpoint {
            None => Err(AllocError),
            Some(endpoint) => {
                if 4_294_967_295 <= endpoint.send_count() {
                    return Err(AllocError);
                }
                match endpoint.send(alloc, req) {
                    SendAnswer::Did { send: _, msg: _ } => Ok(()),
                    _ => Err(AllocError),
                }
            }
        }
    }

    fn receive(&mut self, req: &RecvReq) -> Result<(), NoMemory>
        ensures ok { OnOk result (self.new ≡ record self.old { endpoint = option_map (λ e. after_recv e req.now) self.old.endpoint }) }
        ensures err { OnErr result (self.new ≡ self.old) }
    {
        match &mut self.endpoint {
            None => Err(AllocError),
            Some(endpoint) => {
                if 4_294_967_295 <= endpoint.receive_count() {
                    return Err(AllocError);
                }
                match endpoint.recv(req) {
                    RecvAnswer::Did(_) => Ok(()),
                    _ => Err(AllocError),
                }
            }
        }
    }

    fn cancel(&mut self, recv: RecvNo) -> Result<(), NoMemory>
        ensures ok { OnOk result (self.new ≡ record self.old { endpoint = option_map (λ e. after_cancel e recv) self.old.endpoint }) }
        ensures err { OnErr result (self.new ≡ self.old) }
        ensures spared { (e : EndpointView) → self.old.endpoint ≡ Some e → waits_for_message e recv.0 ≡ true → IsOk result }
    {
        match &mut self.endpoint {
            None => Err(AllocError),
            Some(endpoint) => match endpoint.cancel(recv) {
                CancelAnswer::Did => Ok(()),
                CancelAnswer::NotPosted => Err(AllocError),
            },
        }
    }

    fn note(&mut self, to: PortNo, what: u64) -> Result<(), NoMemory>
        ensures ok { OnOk result (self.new ≡ record self.old { notes = self.old.notes ++ record { to = to; body = NoteKind.Said what } ∷ [] }) }
        ensures err { OnErr result (self.new ≡ self.old) }
    {
        self.notes.reserve(1)?;
        self.notes.push_reserved(QueuedNote {
            to,
            body: NoteBody::Said(what),
        });
        Ok(())
    }
}
