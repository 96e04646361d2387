//! All ports of a job over one wire in memory.
ghost use Rattle.std.specs.Prelude.{◌≡◌, ◌≢◌, ◌<◌, ◌≤◌, length, IfOk};
ghost use Rattle.rdm_model.specs.Beginnings.{port_count};
ghost use Rattle.rdm_model.specs.Answers.{is_entry};
ghost use Rattle.rdm_model.specs.Jobs.{choice_rank};
ghost use Rattle.rdm_model.specs.Worlds.{new_world};
ghost use Rattle.rdm_model.specs.declared.answer.Next.TheVariants as NextKind;
ghost use Rattle.rdm_model.specs.declared.answer.Push.TheVariants as PushKind;
ghost use Rattle.rdm_model.specs.declared.answer.Handled.TheVariants as HandledKind;
ghost use Rattle.rdm_model.specs.declared.job.Choice.TheVariants as ChoiceKind;
ghost use Rattle.rdm_port.specs.Handles.{is_handling};
ghost use Rattle.rdm_world.specs.Answers.{is_pushed, is_polled};
ghost use Rattle.rdm_world.specs.Shows.{IsWorld};
ghost use Rattle.rdm_world.specs.Steps.{Enters, Steps, Tries};

use rdm_model::{Choice, Handled, Job, Next, Polled, Push};
use rdm_num::{NoMemory, PortNo};
use rdm_port::Port;
use rdm_wire::MemWire;
use std::alloc::{AllocError, Global};
use std::marker::Model;

/// The ports in order, and the wire between them. It must be spent.
pub struct World {
    pub(crate) ports: Vec<Port>,
    pub(crate) wire: MemWire,
}

impl Model for World {
    ghost use Rattle.rdm_world.specs.Views.{WorldView, IsInPlace};

    ghost Value = { WorldView };

    ghost view = { λ w. record { ports = w.ports.items; wire = w.wire } };

    ghost invariant = { λ w. IsInPlace (record { ports = w.ports.items; wire = w.wire }) };
}

/// What a try to handle did: whether it made an entry, and whether it changed anything.
#[derive(Clone, Copy, Debug, PartialEq, Eq)]
pub struct Handling {
    pub made: bool,
    pub changed: bool,
}

/// Ends each port.
fn end_all(mut ports: Vec<Port>) {
    while let Some(port) = ports.pop() {
        port.end();
    }
    ports.destroy_empty();
}

/// Whether an instruction's answer is an entry.
#[tactic(auto, unfolding(rdm_model::specs::Answers::is_entry))]
fn entered(answer: Next) -> Result<bool, NoMemory>
    ensures { IfOk result (λ made. (made ≡ is_entry answer) × (answer ≢ NextKind.Memory)) }
{
    match answer {
        Next::Memory => Err(AllocError),
        Next::Did(_) => Ok(true),
        Next::Refused(_) => Ok(true),
        Next::NotYet(_) => Ok(false),
        Next::Again(_) => Ok(false),
        Next::Ended => Ok(false),
        Next::Worn => Ok(false),
    }
}

/// Whether a push's answer is an entry.
#[tactic(auto, unfolding(crate::specs::Answers::is_pushed))]
fn pushed(answer: Push) -> Result<bool, NoMemory>
    ensures { IfOk result (λ made. (made ≡ is_pushed answer) × (answer ≢ PushKind.Memory)) }
{
    match answer {
        Push::Memory => Err(AllocError),
        Push::Pushed(_) => Ok(true),
        Push::Idle => Ok(false),
        Push::Full(_) => Ok(false),
        Push::Worn => Ok(false),
    }
}

/// Whether a handling's answer is an entry.
#[tactic(auto, unfolding(rdm_port::specs::Handles::is_handling))]
fn handled(answer: Handled) -> Result<bool, NoMemory>
    ensures { IfOk result (λ made. (made ≡ is_handling answer) × (answer ≢ HandledKind.Memory)) }
{
    match answer {
        Handled::Memory => Err(AllocError),
        Handled::Took(_) => Ok(true),
        Handled::Dropped(_) => Ok(true),
        Handled::AgainEarly => Ok(false),
        Handled::AgainCopy => Ok(false),
        Handled::Empty => Ok(false),
        Handled::Worn => Ok(false),
    }
}

/// Whether a poll's answer is an entry.
#[tactic(auto, unfolding(crate::specs::Answers::is_polled))]
fn polled(answer: Polled) -> bool
    ensures { result ≡ is_polled answer }
{
    match answer {
        Polled::Some(_) => true,
        Polled::None => false,
        Polled::Worn => false,
    }
}

impl World {
    /// The ports of a job before any step.
    pub fn new(alloc: Global, job: &Job) -> Result<World, NoMemory>
        requires few { port_count job.now ≤ 16 }
        requires inbox { 1 ≤ job.now.inbox }
        ensures { IfOk result (IsWorld job.now new_world) }
    {
        let count = job.ranks.as_slice().len() as u32;
        let wire = MemWire::new(alloc, count, job.inbox)?;
        let mut ports = Vec::with_capacity(alloc, count as usize)?;
        for number in 0..count {
            match Port::new(alloc, PortNo(number), job) {
                Ok(port) => ports.push_reserved(port),
                Err(error) => {
                    end_all(ports);
                    return Err(error);
                }
            }
        }
        Ok(World { ports, wire })
    }

    /// The ports in order, and the wire.
    pub fn parts(self) -> (Vec<Port>, MemWire)
        ensures { (result.0.items ≡ self.ports) × (result.1 ≡ self.wire) }
    {
        let World { ports, wire } = self;
        (ports, wire)
    }

    /// Ends each port.
    pub fn end(self) {
        let World { ports, wire: _ } = self;
        end_all(ports);
    }

    /// A port does its next instruction. Says whether anything changed.
    pub fn next(&mut self, alloc: Global, rank: u32) -> Result<bool, NoMemory>
        requires { rank < length self.old.ports }
        ensures does { IfOk result (Steps (ChoiceKind.Next rank) self.old self.new) }
        ensures count { length self.new.ports ≡ length self.old.ports }
    {
        let answer = self.ports[rank as usize].next(alloc);
        entered(answer)
    }

    /// A port pushes its next datagram. Says whether anything changed.
    pub fn push(&mut self, alloc: Global, rank: u32) -> Result<bool, NoMemory>
        requires { rank < length self.old.ports }
        ensures does { IfOk result (Steps (ChoiceKind.Push rank) self.old self.new) }
        ensures count { length self.new.ports ≡ length self.old.ports }
    {
        let answer = self.ports[rank as usize].push(alloc, &mut self.wire);
        pushed(answer)
    }

    /// A port fetches, and handles the datagram that is picked.
    pub fn handle(&mut self, alloc: Global, rank: u32, pick: u64) -> Result<Handling, NoMemory>
        requires { rank < length self.old.ports }
        ensures does { IfOk result (Tries rank pick self.old self.new) }
        ensures count { length self.new.ports ≡ length self.old.ports }
    {
        let before = self.ports[rank as usize].waiting();
        let answer = self.ports[rank as usize].handle(alloc, &mut self.wire, pick);
        let after = self.ports[rank as usize].waiting();
        let made = handled(answer)?;
        Ok(Handling {
            made,
            changed: made | (before != after),
        })
    }

    /// A port polls its next completion. Says whether anything changed.
    pub fn poll(&mut self, rank: u32) -> bool
        requires { rank < length self.old.ports }
        ensures does { Steps (ChoiceKind.Poll rank) self.old self.new result }
        ensures count { length self.new.ports ≡ length self.old.ports }
    {
        let answer = self.ports[rank as usize].poll();
        polled(answer)
    }

    /// Makes a choice. Says whether an entry was made.
    #[tactic(auto, unfolding(rdm_model::specs::Jobs::choice_rank))]
    pub fn step(&mut self, alloc: Global, choice: Choice) -> Result<bool, NoMemory>
        requires { choice_rank choice < length self.old.ports }
        ensures does { IfOk result (Enters choice self.old self.new) }
        ensures count { length self.new.ports ≡ length self.old.ports }
    {
        match choice {
            Choice::Next(rank) => self.next(alloc, rank),
            Choice::Push(rank) => self.push(alloc, rank),
            Choice::Handle(rank, pick) => {
                let handling = self.handle(alloc, rank, pick)?;
                Ok(handling.made)
            }
            Choice::Poll(rank) => Ok(self.poll(rank)),
        }
    }
}
