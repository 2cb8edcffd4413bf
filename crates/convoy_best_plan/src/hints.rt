//! Schedules that were late at other placements, which are tried first: a worst schedule of one placement is often
//! one of another, where each packet takes the delay that is as far in its range there.

ghost use Rattle.std.specs.Prelude.{◌≡◌, IfOk, IfSome};
ghost use Rattle.convoy_draft.specs.declared.time.Time.TheVariants.{Real};
ghost use Rattle.convoy_packets.specs.Assignment.{IsAssignment};

use convoy_packets::schedule_laws::{fixed_order_is_order, lists_of_delays_are_schedules};
use convoy_packets::{Instance, ListFault, Order, Schedule};
use convoy_scenario::Time;
use std::alloc::{AllocError, Global};

/// How many hints are kept for a target.
const MOST_HINTS: usize = 8;

/// A schedule of a placement, with the ranges of its packets there.
#[derive(Drop)]
pub(crate) struct Hint {
    ranges: Vec<(u16, u16)>,
    delays: Vec<u16>,
    ranks: Vec<u16>,
}

/// The hints for a target by its place among all targets, those that served last first.
#[derive(Drop)]
pub(crate) struct TargetHints {
    pub(crate) place: usize,
    pub(crate) hints: Vec<Hint>,
}

impl Hint {
    /// The hint of a schedule of an instance. Fails where memory runs out, and else never.
    pub(crate) fn of(
        alloc: Global,
        instance: &Instance,
        schedule: &Schedule,
    ) -> Result<Hint, AllocError> {
        Ok(Hint {
            ranges: Vec::from_slice(alloc, instance.table().ranges())?,
            delays: Vec::from_slice(alloc, schedule.delays())?,
            ranks: schedule.order().ranks(alloc, instance.scenario())?,
        })
    }

    /// The schedule that it hints at in an instance, if it is one there. Fails where memory runs out, and else never.
    pub(crate) fn schedule(
        &self,
        alloc: Global,
        instance: &Instance,
    ) -> Result<Option<Schedule>, AllocError>
        ensures { IfOk result (λ schedule. IfSome schedule (IsAssignment instance.now)) }
    {
        let list = self.delays(alloc, instance)?;
        match laid(alloc, instance, &list)? {
            Some(schedule) => match instance.time() {
                Time::Ticks => Ok(Some(schedule)),
                Time::Real => self.ordered(alloc, instance, schedule),
            },
            None => Ok(None),
        }
    }

    /// The schedule with the hint's order of ties, if it is one there.
    fn ordered(
        &self,
        alloc: Global,
        instance: &Instance,
        schedule: Schedule,
    ) -> Result<Option<Schedule>, AllocError>
        requires time { instance.now.time ≡ Real }
        requires schedule { IsAssignment instance.now schedule }
        ensures { IfOk result (λ schedule. IfSome schedule (IsAssignment instance.now)) }
    {
        let list = self.order_list(alloc)?;
        match Order::from_list(alloc, instance.scenario(), &list) {
            Ok(order) => {
                let mut other = schedule;
                other.set_order(order);
                Ok(Some(other))
            }
            Err(ListFault::Memory) => Err(AllocError),
            Err(_) => Ok(None),
        }
    }

    /// The ranks of the hint's order of ties.
    fn order_list(&self, alloc: Global) -> Result<Vec<i64>, AllocError> {
        let mut list = Vec::new(alloc);
        for rank in &self.ranks {
            list.push(i64::from(*rank))?;
        }
        Ok(list)
    }

    /// The delay of each packet of an instance, as far in its range as in that of the hint.
    fn delays(&self, alloc: Global, instance: &Instance) -> Result<Vec<i64>, AllocError> {
        let mut delays = Vec::new(alloc);
        let mut place = 0;
        for range in instance.table().ranges() {
            delays.push(i64::from(self.delay(place, *range)))?;
            place = place.saturating_add(1);
        }
        Ok(delays)
    }

    /// The delay of the packet at a place, in another range: an end of the range where it is that end in its own, and else
    /// as near as may be.
    fn delay(&self, place: usize, range: (u16, u16)) -> u16 {
        match (self.delays.get(place), self.ranges.get(place)) {
            (Some(delay), Some(own)) => {
                if *delay == own.1 {
                    range.1
                } else if *delay == own.0 {
                    range.0
                } else {
                    (*delay).max(range.0).min(range.1)
                }
            }
            _ => range.1,
        }
    }
}

/// The schedule of these delays in an instance, if it is one there.
fn laid(alloc: Global, instance: &Instance, list: &[i64]) -> Result<Option<Schedule>, AllocError>
    ensures { IfOk result (λ schedule. IfSome schedule (IsAssignment instance.now)) }
{
    fixed_order_is_order();
    lists_of_delays_are_schedules();
    match Schedule::from_list(alloc, instance.table(), list) {
        Ok(schedule) => Ok(Some(schedule)),
        Err(ListFault::Memory) => Err(AllocError),
        Err(_) => Ok(None),
    }
}

/// Puts a hint in front of those of a target, of which the last is left out where there are too many. Fails where memory runs
/// out, and else never.
pub(crate) fn put_first(hints: &mut Vec<Hint>, hint: Hint) -> Result<(), AllocError> {
    if hints.len() >= MOST_HINTS {
        let _last = hints.pop();
    }
    hints.insert(0, hint)?;
    Ok(())
}
