//! A job from its first step to its report.
ghost use Rattle.std.specs.Prelude.{◌≡◌, IfOk, OnOk, IsTrue, length};
ghost use Rattle.rdm_model.specs.Jobs.{is_fair, law_ops};
ghost use Rattle.rdm_model.specs.Worlds.{new_world, after_choices};
ghost use Rattle.rdm_model.specs.Played.{IsPlayed};
ghost use Rattle.rdm_world.specs.Shows.{IsWorld, AreOfRanks, StaysBuilt};
ghost use Rattle.rdm_world.specs.Steps.{Reaches};
ghost use Rattle.rdm_world.specs.Plays.{AreEnds, IsStuckAs};

use crate::joint::gather;
use crate::world::World;
use rdm_model::{Ends, Job, Report};
use rdm_num::NoMemory;
use std::alloc::Global;

impl World {
    /// How each port ended.
    fn ends(&self, alloc: Global) -> Result<Ends, NoMemory>
        ensures { IfOk result (AreEnds self.now) }
    {
        let mut ends = Vec::new(alloc);
        for port in &self.ports {
            ends.push(port.ending()?)?;
        }
        Ok(Ends::from_vec(ends))
    }

    /// Whether some program has an instruction left.
    fn is_stuck(&self) -> bool
        ensures { IsStuckAs self.now result }
    {
        for port in &self.ports {
            if !port.is_over() {
                return true;
            }
        }
        false
    }

    /// The choices of a job, in order.
    fn choose(&mut self, alloc: Global, job: &Job) -> Result<(), NoMemory>
        requires { AreOfRanks (length self.old.ports) job.now.choices }
        ensures does { OnOk result (Reaches job.now (λ w. after_choices job.now w job.now.choices) self.old self.new) }
        ensures count { length self.new.ports ≡ length self.old.ports }
    {
        for choice in job.choices.as_slice() {
            self.step(alloc, *choice)?;
        }
        Ok(())
    }

    /// All that is played of a job, and its report.
    fn run(&mut self, alloc: Global, job: &Job) -> Result<Report, NoMemory>
        requires fair { IsTrue (is_fair law_ops job.now) }
        requires built { StaysBuilt job.now new_world }
        requires begins { IsWorld job.now new_world self.old }
        ensures { IfOk result (IsPlayed job.now) }
    {
        self.choose(alloc, job)?;
        self.settle(alloc, job)?;
        let history = gather(alloc, &self.ports)?;
        let ends = self.ends(alloc)?;
        Ok(Report {
            stuck: self.is_stuck(),
            history,
            ends,
        })
    }
}

/// Plays a job: its choices in order, and then rounds until nothing changes. Each want of memory ends it.
pub fn play(alloc: Global, job: &Job) -> Result<Report, NoMemory>
    requires fair { IsTrue (is_fair law_ops job.now) }
    requires built { StaysBuilt job.now new_world }
    ensures { IfOk result (IsPlayed job.now) }
{
    let mut world = World::new(alloc, job)?;
    let report = world.run(alloc, job);
    world.end();
    report
}
