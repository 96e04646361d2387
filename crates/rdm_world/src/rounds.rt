//! What goes on after the choices: rounds of all ports.
ghost use Rattle.std.specs.Prelude.{◌≡◌, ◌<◌, ◌≤◌, length, IfOk, OnOk, IsTrue};
ghost use Rattle.rdm_model.specs.Jobs.{is_fair, law_ops};
ghost use Rattle.rdm_model.specs.Played.{handle_any, visit_of, round_of, rounds, round_bound};
ghost use Rattle.rdm_world.specs.Steps.{Makes, Reaches};

use crate::budget::round_budget;
use crate::world::World;
use rdm_model::Job;
use rdm_num::NoMemory;
use std::alloc::Global;

impl World {
    /// A port handles the first datagram that makes an entry. Says whether anything changed.
    pub fn handle_any(&mut self, alloc: Global, rank: u32) -> Result<bool, NoMemory>
        requires { rank < length self.old.ports }
        ensures does { IfOk result (Makes (λ job w. handle_any job w rank) self.old self.new) }
        ensures count { length self.new.ports ≡ length self.old.ports }
    {
        let mut changed = false;
        let mut waiting: u64 = 1;
        for pick in 0..u64::MAX {
            let handling = self.handle(alloc, rank, pick)?;
            changed = changed | handling.changed;
            waiting = self.ports[rank as usize].waiting();
            if handling.made || waiting <= pick + 1 {
                return Ok(changed);
            }
        }
        Ok(changed)
    }

    /// A port's part of a round. Says whether anything changed.
    pub fn visit(&mut self, alloc: Global, rank: u32) -> Result<bool, NoMemory>
        requires { rank < length self.old.ports }
        ensures does { IfOk result (Makes (λ job w. visit_of job w rank) self.old self.new) }
        ensures count { length self.new.ports ≡ length self.old.ports }
    {
        let did = self.next(alloc, rank)?;
        let pushed = self.push(alloc, rank)?;
        let handled = self.handle_any(alloc, rank)?;
        let polled = self.poll(rank);
        Ok(did | pushed | handled | polled)
    }

    /// A round of all ports. Says whether anything changed.
    pub fn round(&mut self, alloc: Global) -> Result<bool, NoMemory>
        ensures does { IfOk result (Makes round_of self.old self.new) }
        ensures count { length self.new.ports ≡ length self.old.ports }
    {
        let count = self.ports.len() as u32;
        let mut changed = false;
        for rank in 0..count {
            let one = self.visit(alloc, rank)?;
            changed = changed | one;
        }
        Ok(changed)
    }

    /// Rounds, at most as many as the job may need, until one changes nothing.
    pub fn settle(&mut self, alloc: Global, job: &Job) -> Result<(), NoMemory>
        requires { IsTrue (is_fair law_ops job.now) }
        ensures does { OnOk result (Reaches job.now (rounds (round_bound job.now) job.now) self.old self.new) }
        ensures count { length self.new.ports ≡ length self.old.ports }
    {
        let budget = round_budget(job);
        for _round in 0..budget {
            let changed = self.round(alloc)?;
            if !changed {
                return Ok(());
            }
        }
        Ok(())
    }
}
