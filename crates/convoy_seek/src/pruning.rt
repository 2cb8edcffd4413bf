use crate::seeker::Seeker;
use crate::ties::clear_rank;
use convoy_packets::{Instance, Order};
use convoy_sim::latency;
use std::alloc::{AllocError, Global};

impl Seeker {
    ghost use Rattle.std.specs.Prelude.{◌≡◌, ◌<◌};
    ghost use Rattle.convoy_draft.specs.declared.time.Time.TheVariants.{Real};
    ghost use Rattle.convoy_seek.specs.Seeking.{IsSeeking, GoesOn};

    /// Gives each moment in turn the rank 0 where the latency of the best record does not need another,
    /// as far as simulations are left: so the order of its ties says no more than it has to.
    pub fn prune(&mut self, alloc: Global, instance: &Instance) -> Result<(), AllocError>
        requires real { instance.now.time ≡ Real }
        requires seeking { IsSeeking instance.now self.old }
        ensures { GoesOn instance.now self.old self.new }
    {
        for i in 0..Order::rank_count(instance.scenario()) {
            if self.left > 0 {
                self.prune_rank(alloc, instance, i)?;
            }
        }
        Ok(())
    }

    /// Gives one moment the rank 0, if the latency does not fall then.
    fn prune_rank(&mut self, alloc: Global, instance: &Instance, i: usize) -> Result<(), AllocError>
        requires real { instance.now.time ≡ Real }
        requires seeking { IsSeeking instance.now self.old }
        requires left { 0 < self.old.left }
        ensures { GoesOn instance.now self.old self.new }
    {
        self.tried.copy_from(self.best.schedule());
        if !clear_rank(alloc, instance, &mut self.tried, i)? {
            return Ok(());
        }
        self.left -= 1;
        if latency(instance, &self.tried) >= self.best.latency() {
            self.note(alloc, instance)?;
        }
        Ok(())
    }
}
