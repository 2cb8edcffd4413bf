use crate::moves::change;
use crate::pattern::Pattern;
use crate::seeker::Seeker;
use convoy_packets::schedule_laws::fixed_order_is_order;
use convoy_packets::{Instance, Order};
use std::alloc::{AllocError, Global};

/// How many steps without a better score end a climb in whole ticks.
const PATIENCE: u32 = 300;

/// The same in real time or where some message may wait: there are more ways to go on.
const GREAT_PATIENCE: u32 = 1_300;

impl Seeker {
    ghost use Rattle.std.specs.Prelude.{◌≡◌, ◌<◌, length};
    ghost use Rattle.convoy_packets.specs.Table.{table_of};
    ghost use Rattle.convoy_seek.specs.Seeking.{GoesOn, IsSeeking};

    /// Climbs from a pattern with ties in the fixed order: changes a few packets of the schedule that is
    /// kept by chance, or in real time ranks of its moments, and keeps what has no lesser score, until
    /// many changes in a row have found no greater one.
    pub fn climb(
        &mut self,
        alloc: Global,
        instance: &Instance,
        start: &Pattern,
    ) -> Result<(), AllocError>
        requires some { 0 < length (table_of instance.now).packets }
        requires seeking { IsSeeking instance.now self.old }
        requires left { 0 < self.old.left }
        ensures goes_on { GoesOn instance.now self.old self.new }
    {
        fixed_order_is_order();
        start.lay(instance, &mut self.tried);
        self.tried.set_order(Order::none());
        let mut score = self.weigh(alloc, instance, start.rival())?;
        self.kept.copy_from(&self.tried);
        let patience = patience_of(instance);
        let mut stale = 0;
        while stale < patience && self.may_go_on() {
            self.tried.copy_from(&self.kept);
            change(alloc, instance, &mut self.tried, &mut self.chance)?;
            let next = self.weigh(alloc, instance, start.rival())?;
            stale = if next > score { 0 } else { stale + 1 };
            if next >= score {
                score = next;
                self.kept.copy_from(&self.tried);
            }
        }
        Ok(())
    }
}

/// How many steps without a better score end a climb.
fn patience_of(instance: &Instance) -> u32 {
    if instance.scenario().is_timed() {
        GREAT_PATIENCE
    } else {
        PATIENCE
    }
}
