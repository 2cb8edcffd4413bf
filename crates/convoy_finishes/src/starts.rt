//! From where climbs go.

ghost use Rattle.std.specs.Prelude.{◌<◌, length, IfOk};
ghost use Rattle.convoy_packets.specs.Assignment.{IsAssignment};

use super::climber::{Climber, take_end};
use super::finish_run::goes_to_target;
use super::ways::Ways;
use convoy_packets::schedule_laws::fixed_order_is_order;
use convoy_packets::{Instance, Schedule};
use convoy_scenario::AllocResult;
use convoy_seek::{Comings, End, Pattern, Score};
use std::alloc::Global;

impl Climber {
    ghost use Rattle.std.specs.Prelude.{◌<◌, length};
    ghost use Rattle.convoy_packets.specs.Table.{table_of};
    ghost use Rattle.convoy_finishes.specs.Climbing.{GoesOn, IsClimbing, OnlyTries};

    /// Climbs for as long as it may: for the target from the best schedule and from the greatest delays, and in turn
    /// for each rival from its best pattern, from all its packets late and all others early, and then from patterns
    /// by chance.
    pub(crate) fn run(&mut self, alloc: Global, instance: &Instance, ways: &Ways) -> AllocResult<()>
        requires climbing { IsClimbing instance.now ways.now self.old }
        ensures goes_on { GoesOn instance.now ways.now self.old self.new }
    {
        let count = instance.message_count();
        if instance.table().is_empty() || count == 0 {
            return Ok(());
        }
        for round in 0..usize::MAX {
            if self.left == 0 {
                break;
            }
            self.climb_for(alloc, instance, ways, round % count, round / count)?;
        }
        Ok(())
    }

    /// Climbs for a message from where it does in that turn, if it goes to the target's group.
    fn climb_for(
        &mut self,
        alloc: Global,
        instance: &Instance,
        ways: &Ways,
        message: usize,
        turn: usize,
    ) -> AllocResult<()>
        requires some { 0 < length (table_of instance.now).packets }
        requires message { message < length instance.now.multicasts }
        requires climbing { IsClimbing instance.now ways.now self.old }
        ensures goes_on { GoesOn instance.now ways.now self.old self.new }
    {
        if !goes_to_target(instance, message) {
            return Ok(());
        }
        if message == instance.target_message() {
            self.lay_target(alloc, instance, turn)?;
        } else {
            self.lay_rival(alloc, instance, ways, message, turn)?;
        }
        if self.left == 0 {
            return Ok(());
        }
        self.climb(alloc, instance, ways, message)
    }

    /// Makes the schedule that is tried that of the greatest delays in the second turn, and else the best one.
    fn lay_target(&mut self, alloc: Global, instance: &Instance, turn: usize) -> AllocResult<()>
        requires best { IsAssignment instance.now self.old.best }
        requires tried { IsAssignment instance.now self.old.tried }
        ensures { OnlyTries instance.now self.old self.new }
    {
        if turn == 1 {
            self.tried = greatest(alloc, instance)?;
        } else {
            self.tried.copy_from(&self.best);
        }
        Ok(())
    }

    /// Makes the schedule that is tried one in which a rival is late: in the first turn by its best pattern, in the
    /// second all its packets late and all others early, and then by a pattern by chance.
    fn lay_rival(
        &mut self,
        alloc: Global,
        instance: &Instance,
        ways: &Ways,
        message: usize,
        turn: usize,
    ) -> AllocResult<()>
        requires message { message < length instance.now.multicasts }
        requires climbing { IsClimbing instance.now ways.now self.old }
        ensures goes_on { GoesOn instance.now ways.now self.old self.new }
    {
        self.tried = greatest(alloc, instance)?;
        if turn == 1 {
            lay_late(instance, &mut self.tried, message);
            return Ok(());
        }
        let comings = Comings::of(instance, message);
        let pattern = if turn == 0 {
            self.best_pattern(alloc, instance, ways, message, &comings)?
        } else {
            Pattern::numbered(instance, message, &comings, 0).varied(
                instance,
                &comings,
                &mut self.chance,
            )
        };
        pattern.lay(instance, &mut self.tried);
        Ok(())
    }

    /// The pattern of a rival with the greatest score, the first where several have it, among some.
    fn best_pattern(
        &mut self,
        alloc: Global,
        instance: &Instance,
        ways: &Ways,
        message: usize,
        comings: &Comings,
    ) -> AllocResult<Pattern>
        requires message { message < length instance.now.multicasts }
        requires climbing { IsClimbing instance.now ways.now self.old }
        ensures goes_on { GoesOn instance.now ways.now self.old self.new }
    {
        let mut best = Pattern::numbered(instance, message, comings, 0);
        let mut greatest = Score::LEAST;
        let most = (self.left / 16) as usize;
        for number in 0..Pattern::count(instance, comings).min(most) {
            if self.left == 0 {
                break;
            }
            let pattern = Pattern::numbered(instance, message, comings, number);
            pattern.lay(instance, &mut self.tried);
            let score = self.weigh(alloc, instance, ways, message)?;
            if score > greatest {
                best = pattern;
                greatest = score;
            }
        }
        Ok(best)
    }
}

/// The schedule of the greatest delays, with ties in the fixed order.
fn greatest(alloc: Global, instance: &Instance) -> AllocResult<Schedule>
    ensures { IfOk result (IsAssignment instance.now) }
{
    fixed_order_is_order();
    let schedule = Schedule::greatest(alloc, instance.table())?;
    Ok(schedule)
}

/// Gives all packets of a rival their greatest delays, and all others their least.
fn lay_late(instance: &Instance, schedule: &mut Schedule, rival: usize)
    requires { IsAssignment instance.now schedule.old }
    ensures { IsAssignment instance.now schedule.new }
{
    for message in 0..instance.message_count() {
        let end = if message == rival {
            End::Most
        } else {
            End::Least
        };
        take_end(instance, schedule, message, end);
    }
}
