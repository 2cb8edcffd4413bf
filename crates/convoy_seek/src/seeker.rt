use crate::chance::Chance;
use crate::rival::Rival;
use crate::score::Score;
use convoy_packets::{Instance, Schedule};
use convoy_scenario::AllocResult;
use convoy_sim::{Record, Run, simulate};
use std::alloc::Global;

/// Where seeking stands.
#[derive(Drop)]
pub struct Seeker {
    /// The record of the greatest latency that was seen.
    pub best: Record,
    /// The schedule from which a climb goes on.
    pub kept: Schedule,
    /// The schedule that is simulated next.
    pub tried: Schedule,
    /// How many simulations are left.
    pub left: u64,
    /// The latency that ends it, in ticks.
    pub until: u32,
    /// What it does by chance.
    pub chance: Chance,
}

impl Seeker {
    ghost use Rattle.std.specs.Prelude.{◌≡◌, ◌<◌, ◌≤◌, IsTrue};
    ghost use Rattle.convoy_sim.specs.Delivery.{latency_of};
    ghost use Rattle.convoy_seek.specs.Seeking.{IsSeeking, GoesOn};

    /// Whether simulations are left, and a latency that ends it was not seen.
    pub fn may_go_on(&self) -> bool
        ensures { IsTrue result → 0 < self.now.left }
    {
        self.left > 0 && self.best.latency() < self.until
    }

    /// Whether a rival could hold the target back for longer than the best record does.
    pub fn may_gain_by(&self, rival: Rival) -> bool {
        u64::from(self.best.latency()) < rival.most
    }

    /// Simulates the schedule that is tried, and keeps a record of it where its latency is greater
    /// than that of the best one.
    pub fn simulate_tried(&mut self, alloc: Global, instance: &Instance) -> AllocResult<Run>
        requires seeking { IsSeeking instance.now self.old }
        requires left { 0 < self.old.left }
        ensures goes_on { GoesOn instance.now self.old self.new }
        ensures left { self.new.left < self.old.left }
    {
        self.left -= 1;
        let run = simulate(alloc, instance, &self.tried)?;
        if run.latency() > self.best.latency() {
            self.note(alloc, instance)?;
        }
        Ok(run)
    }

    /// Simulates the schedule that is tried, keeps a record of it likewise, and answers its score by a
    /// rival.
    pub fn weigh(&mut self, alloc: Global, instance: &Instance, rival: usize) -> AllocResult<Score>
        requires seeking { IsSeeking instance.now self.old }
        requires left { 0 < self.old.left }
        ensures goes_on { GoesOn instance.now self.old self.new }
        ensures left { self.new.left < self.old.left }
    {
        let run = self.simulate_tried(alloc, instance)?;
        Ok(Score::of(instance.scenario(), &run, rival))
    }

    /// Makes the schedule that is tried the best record, than which it is no faster.
    pub fn note(&mut self, alloc: Global, instance: &Instance) -> AllocResult<()>
        requires seeking { IsSeeking instance.now self.old }
        requires no_less { self.old.best.latency ≤ latency_of instance.now self.old.tried }
        ensures goes_on { GoesOn instance.now self.old self.new }
    {
        let schedule = self.tried.copy()?;
        self.best = Record::of(instance, schedule);
        Ok(())
    }
}
