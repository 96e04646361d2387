//! The port.
ghost use Rattle.std.specs.Prelude.{◌≡◌, ◌≢◌, ◌<◌, ◌≤◌, IfOk, true, length, is_none, slice_get};
ghost use Rattle.rdm_model.specs.Beginnings.{port_count};
ghost use Rattle.rdm_model.specs.Beginnings as Owns;
ghost use Rattle.rdm_port.specs.Views.{new_port, IsSamePort};
ghost use Rattle.rdm_model.specs.Steps.{count, nexts_by};
ghost use Rattle.rdm_model.specs.declared.answer.Next.TheVariants as NextKind;
ghost use Rattle.rdm_port.specs.Nexts.{DoesNext, NextTakesNone, EndsAs};
ghost use Rattle.rdm_port.specs.Pushes.{DoesPush, PushesOn, FullRose, IsKeptWire};
ghost use Rattle.rdm_port.specs.Handles.{DoesHandle};
ghost use Rattle.rdm_port.specs.Polls.{DoesPoll};
ghost use Rattle.rdm_port.specs.Movings.{LogsNone, PushMoves, HandleMoves};

use crate::effects::Owner;
use crate::fetch::fetch_into;
use crate::kept::State;
use crate::steps::{do_handle, do_next, do_poll, do_push, next_answer};
use rdm_model::{End, Entries, Handled, Job, Next, Polled, Push, Rank};
use rdm_num::{EpLimits, NoMemory, PortNo, Room};
use rdm_wire::{Datagram, Wire};
use std::alloc::{AllocError, Global};
use std::marker::Model;

/// A rank's place on the device. It must be spent.
pub struct Port {
    pub(crate) number: u32,
    pub(crate) ports: u32,
    pub(crate) inbox: u32,
    pub(crate) start: u64,
    pub(crate) limits: EpLimits,
    pub(crate) rank: Rank,
    pub(crate) log: Entries,
    pub(crate) stash: Room<Datagram>,
    pub(crate) state: State,
}

impl Model for Port {
    ghost use Rattle.rdm_port.specs.Views.{PortView};
    ghost use Rattle.rdm_port.specs.Kept.{IsSoundPort};

    ghost Value = { PortView };

    ghost view = { λ p. record { number = p.number; ports = p.ports; inbox = p.inbox; start = p.start; limits = p.limits; rank = p.rank; log = p.log.list; stash = p.stash.list } };

    ghost invariant = { λ p. IsSoundPort (record { number = p.number; ports = p.ports; inbox = p.inbox; start = p.start; limits = p.limits; rank = p.rank; log = p.log.list; stash = p.stash.list }) p.state p.log.room };
}

impl Port {
    /// A new port of a job: the rank of that number, with the rank's own pools. It takes the room
    /// for the entry of each of its instructions.
    #[tactic(auto, unfolding(rdm_model::specs::Beginnings::rank_of))]
    pub fn new(alloc: Global, no: PortNo, job: &Job) -> Result<Port, NoMemory>
        requires rank { no.0 < port_count job.now }
        requires few { port_count job.now ≤ 16 }
        ensures { IfOk result (λ p. p ≡ new_port job.now no.0) }
    {
        let ranks = job.ranks.as_slice();
        let own = &ranks[no.0 as usize];
        let rank = Rank {
            features: own.features,
            limits: own.limits,
            ops: own.ops.clone()?,
        };
        let mut log = Entries::new(alloc);
        log.reserve(rank.ops.as_slice().len())?;
        Ok(Port {
            number: no.0,
            ports: ranks.len() as u32,
            inbox: job.inbox,
            start: job.clock,
            limits: with_pools(&job.limits, &own.limits),
            rank,
            log,
            stash: Room::new(alloc),
            state: State::new(alloc, job.clock),
        })
    }

    /// Ends the port.
    pub fn end(self) {
        let Port {
            number: _,
            ports: _,
            inbox: _,
            start: _,
            limits: _,
            rank: _,
            log: _,
            stash: _,
            state,
        } = self;
        state.end();
    }

    /// The entries that the port made.
    pub fn log(&self) -> &Entries
        ensures { result.now.list ≡ self.now.log }
    {
        &self.log
    }

    /// How many datagrams wait in the stash.
    pub fn waiting(&self) -> u64
        ensures { result ≡ length self.now.stash }
    {
        self.stash.len() as u64
    }

    /// Whether no instruction is left.
    pub fn is_over(&self) -> bool
        ensures { result ≡ is_none (slice_get self.now.rank.ops (count nexts_by self.now.log)) }
    {
        self.rank.ops.as_slice().len() as u64 <= self.state.done
    }

    /// How the port ended, if it makes no further step.
    pub fn ending(&self) -> Result<End, NoMemory>
        ensures { IfOk result (EndsAs self.now) }
    {
        let left = match next_answer(
            PortNo(self.number),
            &self.limits,
            &self.rank.ops,
            &self.state,
        ) {
            Next::Memory => return Err(AllocError),
            Next::Ended => None,
            answer => Some(answer),
        };
        let state = &self.state;
        Ok(End {
            done: state.done,
            all: self.rank.ops.as_slice().len() as u64,
            left,
            to_other: state.to_other,
            from_other: state.from_other,
            waiting: self.stash.len() as u64,
        })
    }

    /// Does the next instruction.
    pub fn next(&mut self, alloc: Global) -> Next
        ensures does { DoesNext self.old self.new result }
        ensures spared { NextTakesNone self.old → result ≢ NextKind.Memory }
        ensures same { IsSamePort self.old self.new }
        ensures moves { LogsNone self.old.log self.new.log × (self.new.stash ≡ self.old.stash) }
    {
        let owner = Owner {
            number: PortNo(self.number),
            ports: self.ports,
            features: self.rank.features,
            limits: self.limits,
        };
        do_next(
            alloc,
            &owner,
            &self.rank.ops,
            &mut self.state,
            &mut self.log,
        )
    }

    /// Pushes the next datagram.
    pub fn push<W: Wire>(&mut self, alloc: Global, wire: &mut W) -> Push
        requires serves { W.serves wire.old self.old.number ≡ true }
        requires ports { W.ports wire.old ≡ self.old.ports }
        ensures does { DoesPush self.old self.new result }
        ensures wire { PushesOn (W.in_order wire.old) self.new.log result (W.held wire.old) (W.held wire.new) }
        ensures full { FullRose (W.fulls wire.old) (W.fulls wire.new) result }
        ensures same { IsSamePort self.old self.new }
        ensures kept { IsKeptWire W.ports W.serves wire.old wire.new }
        ensures queues { (W.tables wire.new ≡ W.tables wire.old) × (W.empties wire.new ≡ W.empties wire.old) }
        ensures moves { PushMoves self.old.log self.new.log result (W.account wire.old) (W.account wire.new) × (self.new.stash ≡ self.old.stash) }
    {
        do_push(
            alloc,
            PortNo(self.number),
            self.ports,
            self.rank.ops.as_slice().len(),
            &mut self.state,
            &mut self.log,
            wire,
        )
    }

    /// Fetches, and handles the datagram that is picked.
    pub fn handle<W: Wire>(&mut self, alloc: Global, wire: &mut W, pick: u64) -> Handled
        requires serves { W.serves wire.old self.old.number ≡ true }
        requires ports { W.ports wire.old ≡ self.old.ports }
        ensures does { DoesHandle (W.in_order wire.old) self.old self.new pick result (W.held wire.old) (W.held wire.new) }
        ensures same { IsSamePort self.old self.new }
        ensures kept { IsKeptWire W.ports W.serves wire.old wire.new }
        ensures queues { (W.tables wire.new ≡ W.tables wire.old) × (W.fulls wire.new ≡ W.fulls wire.old) }
        ensures moves { HandleMoves self.old self.new result (W.account wire.old) (W.account wire.new) (W.empties wire.old) (W.empties wire.new) }
    {
        let Ok(()) = self.stash.reserve(self.inbox as usize) else {
            return Handled::Memory;
        };
        fetch_into(&mut self.stash, wire, PortNo(self.number), self.inbox);
        do_handle(
            alloc,
            PortNo(self.number),
            pick,
            self.rank.ops.as_slice().len(),
            &mut self.stash,
            &mut self.state,
            &mut self.log,
        )
    }

    /// The first completion that was not polled.
    pub fn poll(&mut self) -> Polled
        ensures does { DoesPoll self.old self.new result }
        ensures same { IsSamePort self.old self.new }
        ensures moves { LogsNone self.old.log self.new.log × (self.new.stash ≡ self.old.stash) }
    {
        do_poll(PortNo(self.number), &mut self.state, &mut self.log)
    }
}

/// The limits of a job, with the pools of others in place.
fn with_pools(limits: &EpLimits, pools: &EpLimits) -> EpLimits
    ensures { result ≡ Owns.with_pools limits.now pools.now }
{
    EpLimits {
        tx: pools.tx,
        rx: pools.rx,
        early: pools.early,
        cq: pools.cq,
        ..*limits
    }
}
