ghost use Rattle.std.specs.Prelude.{◌≡◌, ◌↔◌, ◌<◌, ◌≤◌, ◌-◌, ◌*◌, length, All, IfOk, IfSome, IsTrue};
ghost use Rattle.convoy_scenario.specs.Scenario.{GoesTo};
ghost use Rattle.convoy_packets.specs.Assignment.{IsAssignment};
ghost use Rattle.convoy_sim.specs.Times.{arrive, issue, settle};
ghost use Rattle.convoy_sim.specs.Delivery.{deliver};
ghost use Rattle.convoy_causes.specs.Causes.{AreCauses, IsCause, IsFollowing, event_tick, time_from};

use super::cause::Cause;
use super::event::Event;
use super::question::Focus;
use convoy_packets::{Instance, Schedule};
use convoy_scenario::{AllocResult, GREATEST_UNTIL};
use convoy_sim::{Run, simulate};
use std::alloc::Global;
use std::marker::Model;

/// What it costs a rival to come one tick after the commit of a message, in ticks gained.
const PRICE_OF_A_TICK: u64 = 10;

/// The score of a run that gains nothing.
const ZERO: u64 = 0x10_0000_0000;

/// A run of an instance under a schedule, of which it is asked whether messages follow their causes, and when their events
/// are (docs/PROTOCOL.md, "Messages that follow others").
#[derive(Drop)]
pub struct CausedRun<'a> {
    instance: &'a Instance,
    schedule: &'a Schedule,
    run: Run,
}

impl<'a> Model for CausedRun<'a> {
    ghost use Rattle.convoy_causes.specs.CausedRuns.{IsShown, Shown};

    ghost Value = { Shown };

    ghost view = { λ r. record {
      scenario = r.instance.now;
      schedule = r.schedule.now;
      run = r.run;
    } };

    ghost invariant = { λ r. IsShown (view r) };
}

impl<'a> CausedRun<'a> {
    /// The run of an instance under a schedule. Fails where memory runs out, and else never.
    pub fn of(
        alloc: Global,
        instance: &'a Instance,
        schedule: &'a Schedule,
    ) -> AllocResult<CausedRun<'a>>
        requires assignment { IsAssignment instance.now schedule.now }
        ensures scenario { IfOk result (λ run. run.scenario ≡ instance.now) }
        ensures schedule { IfOk result (λ run. run.schedule ≡ schedule.now) }
    {
        let _scenario = instance.scenario();
        let run = simulate(alloc, instance, schedule)?;
        Ok(CausedRun {
            instance,
            schedule,
            run,
        })
    }

    /// Whether each message follows its cause.
    pub fn follow_all(&self, causes: &[Cause]) -> bool
        requires { AreCauses self.now.scenario causes.now }
        ensures { IsTrue result
            ↔ All (IsFollowing self.now.scenario self.now.schedule) causes.now }
    {
        for cause in causes {
            if !self.follows(cause) {
                return false;
            }
        }
        true
    }

    /// Whether a message follows its cause.
    pub fn follows(&self, cause: &Cause) -> bool
        requires { IsCause self.now.scenario cause.now }
        ensures { IsTrue result ↔ IsFollowing self.now.scenario self.now.schedule cause.now }
    {
        let tick = u64::from(self.event_tick(cause.event, cause.message, cause.group));
        let issued = u64::from(self.issue(cause.effect));
        tick + u64::from(cause.least) <= issued && issued <= tick + u64::from(cause.most)
    }

    /// From the issue of a message to the delivery of the target, in ticks; 0 where the target is delivered before that.
    pub fn time_from(&self, origin: usize) -> u32
        requires { origin < length self.now.scenario.multicasts }
        ensures { result ≡ time_from self.now.scenario origin self.now.schedule }
    {
        let (target, group) = (self.instance.target_message(), self.instance.target_group());
        self.delivery(target, group)
            .saturating_sub(self.issue(origin))
    }

    /// How good the run of that time is to climb from, so that a rival is committed late at a group and is still ahead
    /// there of a message that is to be delivered late: by how much the time would be greater if that message waited for the
    /// rival, less a price for each tick that the rival comes after the commit of that message, and for what its stamp
    /// exceeds that of the message by. For the message itself, how great the time is. Never 0.
    pub(crate) fn score(&self, focus: Focus, rival: usize, time: u32) -> u64 {
        let (waits, behind) = if rival == focus.message {
            (0, 0)
        } else {
            self.nearness(focus, rival).unwrap_or((0, ZERO))
        };
        (ZERO + 1 + u64::from(time) + waits)
            .saturating_sub(behind)
            .max(1)
    }

    /// The tick at which a rival is committed at a group, and that at which a message is delivered there with the price of
    /// what the rival is behind it. None where one of them does not go there.
    fn nearness(&self, focus: Focus, rival: usize) -> Option<(u64, u64)>
        ensures { IfSome result (λ near. (near.0 ≤ u32.MAX) × (near.1 ≤ 12 * u32.MAX)) }
    {
        let (message, group) = (focus.message, focus.group);
        let came = self.run.proposed(rival, group)?;
        let committed = self.run.committed(rival, group)?;
        let late = came
            .tick
            .saturating_sub(self.run.committed(message, group)?);
        let delivered = self.run.delivered(message, group)?;
        let last = self.run.final_stamp(message)?;
        let free = if group < last.group {
            last.time
        } else {
            last.time.saturating_sub(1)
        };
        let excess = came
            .stamp
            .time
            .saturating_sub(free)
            .min(u64::from(u32::MAX));
        let price = PRICE_OF_A_TICK * u64::from(late);
        Some((u64::from(committed), u64::from(delivered) + price + excess))
    }

    /// The tick of an event of a message at a group.
    pub fn event_tick(&self, event: Event, message: usize, group: usize) -> u32
        requires addressed { GoesTo self.now.scenario message group }
        ensures { result ≡ event_tick self.now.scenario self.now.schedule event message group }
    {
        match event {
            Event::Issue => self.issue(message),
            Event::Arrival => self.arrival(message, group),
            Event::Commit => self.commit(message, group),
            Event::Delivery => self.delivery(message, group),
        }
    }

    /// The tick at which a message is issued.
    #[tactic(auto, unfolding(convoy_packets::specs::Assignment::delay_of), using(convoy_sim::proofs::Destinations::issued_soon))]
    pub fn issue(&self, message: usize) -> u32
        requires { message < length self.now.scenario.multicasts }
        ensures value { result ≡ issue self.now.scenario self.now.schedule message }
        ensures fits { result ≤ GREATEST_UNTIL }
    {
        let wait = self.instance.table().wait_in(self.schedule, message);
        self.instance.issue_tick(message) + u32::from(wait)
    }

    /// The tick at which a message arrives at a group.
    fn arrival(&self, message: usize, group: usize) -> u32
        requires { GoesTo self.now.scenario message group }
        ensures { result ≡ arrive self.now.scenario self.now.schedule message group }
    {
        match self.run.proposed(message, group) {
            Some(proposal) => proposal.tick,
            None => 0,
        }
    }

    /// The tick at which a message is committed at a group.
    fn commit(&self, message: usize, group: usize) -> u32
        requires { GoesTo self.now.scenario message group }
        ensures { result ≡ settle self.now.scenario self.now.schedule message group }
    {
        match self.run.committed(message, group) {
            Some(tick) => tick,
            None => 0,
        }
    }

    /// The tick at which a message is delivered at a group.
    pub fn delivery(&self, message: usize, group: usize) -> u32
        requires { GoesTo self.now.scenario message group }
        ensures { result ≡ deliver self.now.scenario self.now.schedule message group }
    {
        match self.run.delivered(message, group) {
            Some(tick) => tick,
            None => 0,
        }
    }
}
