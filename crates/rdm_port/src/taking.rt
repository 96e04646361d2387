//! What a port makes of a datagram that is handled.
ghost use Rattle.std.specs.Prelude.{◌≡◌, ◌≤◌, IfOk};
ghost use Rattle.rdm_ep.specs.Answers as EpAnswers;
ghost use Rattle.rdm_port.specs.Kept.{places_of};
ghost use Rattle.rdm_port.specs.Machine.{MachineHandles, NoteTakenAs, TakesIn, drop_counted, waits_in};

use crate::kept::{State, Told};
use rdm_ep::HandleAnswer;
use rdm_model::{Class, Handled};
use rdm_num::{Life, NoMemory, PortNo};
use rdm_wire::{Body, Datagram, NoteBody};
use std::alloc::Global;

impl State {
    /// Handles a datagram, whose answer is an entry or leaves all as it was.
    #[tactic(auto, unfolding(crate::specs::Machine::machine_handled, crate::specs::Machine::after_handled, crate::specs::Machine::life_answer, crate::specs::Machine::after_life, crate::specs::Machine::drop_counted))]
    pub fn handle(&mut self, alloc: Global, d: &Datagram) -> Handled
        ensures handles { self.old.to_other ≤ 9223372036854775807 → self.old.from_other ≤ 9223372036854775807 → MachineHandles self.old self.new d.now result }
        ensures places { places_of self.new.endpoint ≡ places_of self.old.endpoint }
        ensures done { self.new.done ≡ self.old.done }
    {
        match &d.body {
            Body::Note(note) => self.take_note(d.src, *note),
            Body::Between {
                from: _,
                to: _,
                load: _,
            } => {
                let answer = self.take_in(alloc, d);
                self.count_drop(answer);
                answer
            }
        }
    }

    /// Hands a datagram to the endpoint. Where no life is open, it is to another one.
    fn take_in(&mut self, alloc: Global, d: &Datagram) -> Handled
        ensures { TakesIn self.old self.new d.now result }
    {
        let Some(endpoint) = &mut self.endpoint else {
            return Handled::Dropped(Class::ToOther);
        };
        handled_of(endpoint.handle(alloc, d))
    }

    /// Counts a drop.
    #[tactic(auto, unfolding(crate::specs::Machine::drop_counted))]
    fn count_drop(&mut self, answer: Handled)
        ensures counts { self.old.to_other ≤ 9223372036854775807 → self.old.from_other ≤ 9223372036854775807 → self.new ≡ drop_counted answer self.old }
        ensures same { self.new.endpoint ≡ self.old.endpoint }
        ensures done { self.new.done ≡ self.old.done }
    {
        match answer {
            Handled::Dropped(Class::ToOther) => {
                self.to_other = self.to_other.saturating_add(1);
            }
            Handled::Dropped(Class::FromOther) => {
                self.from_other = self.from_other.saturating_add(1);
            }
            _ => {}
        }
    }

    /// Takes a note.
    #[tactic(auto, unfolding(crate::specs::Machine::after_note))]
    fn take_note(&mut self, src: PortNo, note: NoteBody) -> Handled
        ensures takes { NoteTakenAs self.old self.new src note result }
        ensures same { self.new.endpoint ≡ self.old.endpoint }
        ensures done { self.new.done ≡ self.old.done }
    {
        match note {
            NoteBody::Opened(connid) => {
                let Ok(()) = self.opened.reserve(1) else {
                    return Handled::Memory;
                };
                self.opened.push_reserved(Life { port: src, connid });
            }
            NoteBody::Said(what) => {
                let Ok(()) = self.told.reserve(1) else {
                    return Handled::Memory;
                };
                self.told.push_reserved(Told { from: src, what });
            }
        }
        Handled::Took(None)
    }

    /// Whether a datagram would wait for an early place.
    #[tactic(auto, unfolding(crate::specs::Machine::waits_in))]
    pub fn waits_early(&self, alloc: Global, d: &Datagram) -> Result<bool, NoMemory>
        ensures { IfOk result (λ b. b ≡ waits_in self.now.endpoint d.now) }
    {
        match &self.endpoint {
            None => Ok(false),
            Some(endpoint) => endpoint.waits_early(alloc, d),
        }
    }
}

/// What an endpoint answers to a datagram, as the answer of its port.
#[tactic(auto, unfolding(rdm_ep::specs::Answers::handled_of))]
fn handled_of(answer: HandleAnswer) -> Handled
    ensures { result ≡ EpAnswers.handled_of answer }
{
    match answer {
        HandleAnswer::Took(entered) => Handled::Took(entered),
        HandleAnswer::Dropped(class) => Handled::Dropped(class),
        HandleAnswer::AgainEarly => Handled::AgainEarly,
        HandleAnswer::AgainCopy => Handled::AgainCopy,
        HandleAnswer::Memory => Handled::Memory,
    }
}
