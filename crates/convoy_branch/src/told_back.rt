//! Runs of the widened instance, told back as schedules of the instance. No proof rests on how that is done: whatever it
//! comes to is simulated.

ghost use Rattle.std.specs.Prelude.{◌≡◌, ◌<◌, ◌≤◌, length, All, IfOk, IfSome};
ghost use Rattle.convoy_packets.specs.Assignment.{AreWithin, IsAssignment, IsWithin};
ghost use Rattle.convoy_packets.specs.Order.{IsOrder};
ghost use Rattle.convoy_intervals.specs.Boxes.{IsBox};
ghost use Rattle.convoy_starts.specs.Links.{IsLink};
ghost use Rattle.convoy_leads.specs.Openings.{IsOpenCase};
ghost use Rattle.convoy_scenario.specs.Widened.{widened};
ghost use Rattle.convoy_branch.specs.Steps.{IsBetter};

use super::wants::range_at;
use convoy_intervals::DelayBox;
use convoy_intervals::box_laws::members_are_assignments;
use convoy_leads::{Link, OpenCase};
use convoy_origin::Origin;
use convoy_packets::schedule_laws::{fixed_order_is_order, ranks_are_one_each};
use convoy_packets::{Instance, Order, Packet, Schedule};
use convoy_scenario::Time;
use convoy_sim::Record;
use convoy_wishes::wish;
use std::alloc::{AllocError, Global};

/// The record of a wish run of the widened box of a box, told back as a member of the box, if its latency is above the
/// one known, in ticks. The error is that memory ran out.
pub(crate) fn wish_told_back(
    alloc: Global,
    origin: &Origin,
    moved: &Instance,
    delay_box: &DelayBox,
    case: &OpenCase,
    links: &[Link],
    known: u32,
) -> Result<Option<Record>, AllocError>
    requires moved { moved.now ≡ widened origin.now }
    requires inside { IsBox origin.now delay_box.now }
    requires case { IsOpenCase moved.now case.now }
    requires links { All (IsLink moved.now) links.now }
    ensures { IfOk result (λ found. IfSome found (IsBetter origin.now known)) }
{
    let wide = origin.moved_box(alloc, moved, delay_box)?;
    let Some(found) = wish(alloc, moved, &wide, case, links, known)? else {
        return Ok(None);
    };
    let run = LaterRun {
        instance: origin.instance(),
        moved,
        delay_box,
        schedule: found.schedule(),
    };
    let told = Record::of(origin.instance(), run.told_back(alloc)?);
    if told.latency() <= known {
        return Ok(None);
    }
    Ok(Some(told))
}

/// A run of the widened instance, and the box of the instance of which it is told back as a member.
#[derive(Clone, Copy)]
struct LaterRun<'a> {
    instance: &'a Instance,
    moved: &'a Instance,
    delay_box: &'a DelayBox,
    schedule: &'a Schedule,
}

impl<'a> LaterRun<'a> {
    /// The run as a schedule of the instance: what travels takes as long, and the messages are issued as far from the
    /// target as in the run, or as nearly so as the box allows. The error is that memory ran out.
    fn told_back(&self, alloc: Global) -> Result<Schedule, AllocError>
        requires inside { IsBox self.now.instance.now self.now.delay_box.now }
        requires run { IsAssignment self.now.moved.now self.now.schedule.now }
        ensures { IfOk result (IsAssignment self.now.instance.now) }
    {
        members_are_assignments();
        let mut schedule = self.delay_box.greatest(alloc)?;
        self.lay(&mut schedule);
        schedule.set_order(self.order(alloc)?);
        Ok(schedule)
    }

    /// Gives each packet the delay of the box that is nearest to that of the run.
    #[tactic(auto, using(crate::proofs::Lengths::length_within))]
    fn lay(&self, schedule: &mut Schedule)
        requires within { AreWithin self.now.delay_box.now schedule.old.delays }
        ensures within { AreWithin self.now.delay_box.now schedule.new.delays }
    {
        let table = self.instance.table();
        let target_wait = self.target_wait();
        for place in 0..self.delay_box.len().min(table.len()) {
            let delay = self.delay(table.packet(place), target_wait);
            schedule.set(place, nearest(self.delay_box.range(place), delay));
        }
    }

    /// How long the target waits, in ticks: as short as the box allows so that each other message waits no less than its
    /// own range says, or as long as the box allows where it can't wait so long.
    fn target_wait(&self) -> u32 {
        let target = self.instance.target_message();
        let (least, most) = self.wait_range(target);
        let mut wait = u32::from(least);
        for message in 0..self.instance.message_count() {
            if message != target {
                wait = wait.max(self.target_wait_for(message));
            }
        }
        wait.min(u32::from(most))
    }

    /// How long the target is to wait at least, in ticks, so that another message waits no less than its range says.
    fn target_wait_for(&self, message: usize) -> u32 {
        let (least, _) = self.wait_range(message);
        (u32::from(least) + u32::from(self.longest_target_wait())).saturating_sub(self.wait_in_run(
            message,
        ))
    }

    /// The delay of a packet as the run has it, in ticks, where the target waits so long; in the packet's range or not.
    fn delay(&self, packet: Packet, target_wait: u32) -> u32 {
        let table = self.moved.table();
        match packet {
            Packet::Wait { message } if message == self.instance.target_message() => target_wait,
            Packet::Wait { message } => (self
                .wait_in_run(message)
                .saturating_add(target_wait)).saturating_sub(u32::from(self.longest_target_wait())),
            Packet::Multicast { message, to } => u32::from(table.multicast_delay(
                self.schedule,
                message,
                to,
            )),
            Packet::Propose { message, from, to } => u32::from(table.propose_delay(
                self.schedule,
                message,
                from,
                to,
            )),
        }
    }

    /// How long a message waits in the run, in ticks.
    fn wait_in_run(&self, message: usize) -> u32 {
        u32::from(self.moved.table().wait_in(self.schedule, message))
    }

    /// How long the target waits at most in the scenario, in ticks: by so much all other messages may wait longer in
    /// the run.
    fn longest_target_wait(&self) -> u16 {
        self.instance.longest_wait(self.instance.target_message())
    }

    /// The range of the wait of a message in the box, in ticks; 0 and 0 where it does not wait.
    fn wait_range(&self, message: usize) -> (u16, u16)
        ensures ordered { result.0 ≤ result.1 }
    {
        range_at(self.delay_box, self.instance.table().wait(message))
    }

    /// The order in which ties fall in the run: its ranks are by stages, which are those of the instance. The error is
    /// that memory ran out.
    fn order(&self, alloc: Global) -> Result<Order, AllocError>
        requires run { IsOrder self.now.moved.now self.now.schedule.now.order }
        ensures { IfOk result (IsOrder self.now.instance.now) }
    {
        fixed_order_is_order();
        ranks_are_one_each();
        match self.instance.time() {
            Time::Ticks => Ok(Order::none()),
            Time::Real => {
                let ranks = self.schedule.order().ranks(alloc, self.moved.scenario())?;
                Ok(Order::from_ranks(self.instance.scenario(), &ranks))
            }
        }
    }
}

/// The delay of a range that is nearest to so many ticks.
fn nearest(range: (u16, u16), ticks: u32) -> u16
    requires { range.0 ≤ range.1 }
    ensures { IsWithin range result }
{
    ticks.clamp(u32::from(range.0), u32::from(range.1)) as u16
}
