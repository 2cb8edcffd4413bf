//! From where climbs go.

ghost use Rattle.std.specs.Prelude.{◌<◌, length, IfOk};
ghost use Rattle.convoy_packets.specs.Assignment.{IsAssignment};

use super::climber::{Climber, take_end};
use super::question::{Focus, Question};
use convoy_packets::schedule_laws::fixed_order_is_order;
use convoy_packets::{Instance, Schedule};
use convoy_scenario::AllocResult;
use convoy_seek::{Comings, End, Pattern};
use std::alloc::Global;

impl Climber {
    ghost use Rattle.std.specs.Prelude.{◌<◌, length};
    ghost use Rattle.convoy_packets.specs.Table.{table_of};
    ghost use Rattle.convoy_causes.specs.Climbing.{GoesOn, IsClimbing};

    /// Climbs for as long as it may, in turn for each delivery that others may wait for, that of the target first, and
    /// for each rival there.
    pub(crate) fn run(&mut self, question: &Question) -> AllocResult<()>
        requires climbing { IsClimbing question.now.instance.now question.now.causes.now question.now.origin self.old }
        ensures goes_on { GoesOn question.now.instance.now question.now.causes.now question.now.origin self.old self.new }
    {
        let count = question.instance.message_count();
        if question.instance.table().is_empty() || count == 0 {
            return Ok(());
        }
        let foci = question.focus_count();
        for round in 0..usize::MAX {
            if self.left == 0 {
                break;
            }
            let focus = question.focus(round / count % foci);
            self.climb_for(question, focus, round % count, round / count / foci)?;
        }
        Ok(())
    }

    /// Climbs for a message from where it does in that turn, if it goes to the group of the delivery.
    fn climb_for(
        &mut self,
        question: &Question,
        focus: Focus,
        message: usize,
        turn: usize,
    ) -> AllocResult<()>
        requires some { 0 < length (table_of question.now.instance.now).packets }
        requires message { message < length question.now.instance.now.multicasts }
        requires climbing { IsClimbing question.now.instance.now question.now.causes.now question.now.origin self.old }
        ensures goes_on { GoesOn question.now.instance.now question.now.causes.now question.now.origin self.old self.new }
    {
        if !goes_to(question.instance, message, focus.group) {
            return Ok(());
        }
        let target = question.instance.target_message();
        if message == focus.message {
            self.lay_best(question, turn)?;
        } else if focus.message == target {
            self.lay_rival(question, focus, message, turn)?;
        } else {
            self.lay_other(question, message, turn)?;
        }
        if self.left == 0 {
            return Ok(());
        }
        self.climb(question, focus, message)
    }

    /// Makes the schedule that is tried that of the greatest delays in the second turn, and else the best one.
    fn lay_best(&mut self, question: &Question, turn: usize) -> AllocResult<()>
        requires climbing { IsClimbing question.now.instance.now question.now.causes.now question.now.origin self.old }
        ensures goes_on { GoesOn question.now.instance.now question.now.causes.now question.now.origin self.old self.new }
    {
        if turn == 1 {
            self.tried = greatest(question.alloc, question.instance)?;
            self.gaps.lengthen(question.causes);
            return Ok(());
        }
        self.tried.copy_from(&self.best);
        self.left = self.left.saturating_sub(1);
        self.gaps.read(question, &self.tried)
    }

    /// Makes it one in which a rival of a message that others follow is late: the best one in every second turn, and else
    /// that in which all packets of the rival are late and all others early.
    fn lay_other(&mut self, question: &Question, message: usize, turn: usize) -> AllocResult<()>
        requires climbing { IsClimbing question.now.instance.now question.now.causes.now question.now.origin self.old }
        ensures goes_on { GoesOn question.now.instance.now question.now.causes.now question.now.origin self.old self.new }
    {
        if turn % 2 == 0 {
            return self.lay_best(question, 0);
        }
        self.tried = greatest(question.alloc, question.instance)?;
        self.gaps.lengthen(question.causes);
        lay_late(question.instance, &mut self.tried, message);
        Ok(())
    }

    /// Makes it one in which a rival of the target is late: in the first turn by its best pattern, in the second all its
    /// packets late and all others early, and then by a pattern by chance.
    fn lay_rival(
        &mut self,
        question: &Question,
        focus: Focus,
        message: usize,
        turn: usize,
    ) -> AllocResult<()>
        requires message { message < length question.now.instance.now.multicasts }
        requires climbing { IsClimbing question.now.instance.now question.now.causes.now question.now.origin self.old }
        ensures goes_on { GoesOn question.now.instance.now question.now.causes.now question.now.origin self.old self.new }
    {
        let instance = question.instance;
        self.tried = greatest(question.alloc, instance)?;
        self.gaps.lengthen(question.causes);
        if turn == 1 {
            lay_late(instance, &mut self.tried, message);
            return Ok(());
        }
        let comings = Comings::of(instance, message);
        let pattern = if turn == 0 {
            self.best_pattern(question, focus, message, &comings)?
        } else {
            Pattern::numbered(instance, message, &comings, 0).varied(
                instance,
                &comings,
                &mut self.chance,
            )
        };
        pattern.lay(instance, &mut self.tried);
        Ok(())
    }

    /// The pattern of a rival with the greatest score, the first where several have it, among some.
    fn best_pattern(
        &mut self,
        question: &Question,
        focus: Focus,
        message: usize,
        comings: &Comings,
    ) -> AllocResult<Pattern>
        requires message { message < length question.now.instance.now.multicasts }
        requires climbing { IsClimbing question.now.instance.now question.now.causes.now question.now.origin self.old }
        ensures goes_on { GoesOn question.now.instance.now question.now.causes.now question.now.origin self.old self.new }
    {
        let instance = question.instance;
        let mut best = Pattern::numbered(instance, message, comings, 0);
        let mut greatest = 0u64;
        let most = (self.left / 16) as usize;
        for number in 0..Pattern::count(instance, comings).min(most) {
            if self.left == 0 {
                break;
            }
            let pattern = Pattern::numbered(instance, message, comings, number);
            pattern.lay(instance, &mut self.tried);
            let score = self.try_out(question, focus, message)?;
            if score > greatest {
                best = pattern;
                greatest = score;
            }
        }
        Ok(best)
    }
}

/// Whether a message goes to a group.
fn goes_to(instance: &Instance, message: usize, group: usize) -> bool
    requires { message < length instance.now.multicasts }
{
    instance.destinations(message).contains(&group)
}

/// The schedule of the greatest delays, with ties in the fixed order.
pub(crate) fn greatest(alloc: Global, instance: &Instance) -> AllocResult<Schedule>
    ensures { IfOk result (IsAssignment instance.now) }
{
    fixed_order_is_order();
    let schedule = Schedule::greatest(alloc, instance.table())?;
    Ok(schedule)
}

/// Gives all packets of a rival their greatest delays, and all others their least.
fn lay_late(instance: &Instance, schedule: &mut Schedule, rival: usize)
    requires { IsAssignment instance.now schedule.old }
    ensures { IsAssignment instance.now schedule.new }
{
    for message in 0..instance.message_count() {
        let end = if message == rival {
            End::Most
        } else {
            End::Least
        };
        take_end(instance, schedule, message, end);
    }
}
