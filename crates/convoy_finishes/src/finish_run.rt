ghost use Rattle.std.specs.Prelude.{◌≡◌, ◌+◌, ◌<◌, ◌≤◌, ◌&&◌, ◌-◌, length, map, All, IfOk};
ghost use Rattle.convoy_scenario.specs.Scenario.{GoesTo, is_addressed, message_at};
ghost use Rattle.convoy_packets.specs.Assignment.{IsAssignment};
ghost use Rattle.convoy_sim.specs.Times.{arrive, greatest, issue, settle};
ghost use Rattle.convoy_sim.specs.Stamps.{final_stamp, is_less, local_stamp};
ghost use Rattle.convoy_finishes.specs.Finishes.{IsFinishReached, finish_by, finish_latency, is_ahead, way_at};

use super::finish_laws::latest_finishes;
use super::ways::Ways;
use convoy_packets::{Instance, Schedule};
use convoy_seek::Score;
use convoy_sim::{Run, simulate};
use convoy_sure::{LAST_ARRIVAL, destinations};
use std::alloc::{AllocError, Global};
use std::marker::Model;

/// The finish latency of a schedule, in ticks: from the issue of the target to its delivery at the latest, where
/// messages are finished some time after their commit (docs/PROTOCOL.md, "Replicated groups"). Fails where memory
/// runs out, and else never.
pub fn finish_latency(
    alloc: Global,
    instance: &Instance,
    schedule: &Schedule,
    ways: &Ways,
) -> Result<u32, AllocError>
    requires assignment { IsAssignment instance.now schedule.now }
    ensures value { IfOk result
        (λ latency. latency ≡ finish_latency instance.now ways.now schedule.now) }
    ensures reached { IfOk result (λ latency. IsFinishReached instance.now ways.now latency) }
{
    latest_finishes();
    let _scenario = instance.scenario();
    let run = FinishRun::of(alloc, instance, schedule, ways)?;
    let latency = run.latency();
    Ok(latency)
}

/// A run of an instance under a schedule, in which messages are finished some time after their commit.
#[derive(Drop)]
pub struct FinishRun<'a> {
    instance: &'a Instance,
    schedule: &'a Schedule,
    ways: &'a Ways,
    run: Run,
}

impl<'a> Model for FinishRun<'a> {
    ghost use Rattle.convoy_finishes.specs.FinishRuns.{Answered, IsAnswered};

    ghost Value = { Answered };

    ghost view = { λ r. record {
      scenario = r.instance.now;
      schedule = r.schedule.now;
      ways = r.ways.now;
      run = r.run;
    } };

    ghost invariant = { λ r. IsAnswered (view r) };
}

impl<'a> FinishRun<'a> {
    /// The run of an instance under a schedule. Fails where memory runs out, and else never.
    pub fn of(
        alloc: Global,
        instance: &'a Instance,
        schedule: &'a Schedule,
        ways: &'a Ways,
    ) -> Result<FinishRun<'a>, AllocError>
        requires assignment { IsAssignment instance.now schedule.now }
        ensures scenario { IfOk result (λ run. run.scenario ≡ instance.now) }
        ensures schedule { IfOk result (λ run. run.schedule ≡ schedule.now) }
        ensures ways { IfOk result (λ run. run.ways ≡ ways.now) }
    {
        let _scenario = instance.scenario();
        let run = simulate(alloc, instance, schedule)?;
        Ok(FinishRun {
            instance,
            schedule,
            ways,
            run,
        })
    }

    /// How good the run of that finish latency is to climb from, so that a message is finished late and is still
    /// ahead of the target: for the target itself, how great the latency is.
    pub(crate) fn score(&self, message: usize, latency: u32) -> Score
        requires { message < length self.now.scenario.multicasts }
    {
        let target = self.instance.target_message();
        let held = if message == target {
            latency
        } else if goes_to_target(self.instance, message) {
            self.finish(message).saturating_sub(self.issue(target))
        } else {
            0
        };
        Score::until(self.instance.scenario(), &self.run, message, held)
    }

    /// The finish latency, in ticks.
    #[tactic(auto, unfolding(crate::specs::Finishes::finish_latency))]
    pub(crate) fn latency(&self) -> u32
        ensures { result ≡ finish_latency self.now.scenario self.now.ways self.now.schedule }
    {
        let target = self.instance.target_message();
        let mut last = self.finish(target);
        for message in 0..self.instance.message_count() {
            if self.is_ahead(message) {
                last = last.max(self.finish(message));
            }
        }
        last.saturating_sub(self.issue(target))
    }

    /// The last tick at which a message that goes there is finished at the target's group.
    pub fn finish(&self, message: usize) -> u32
        requires { GoesTo self.now.scenario message self.now.scenario.target_group }
        ensures { result ≡ finish_by self.now.scenario self.now.schedule self.now.ways message }
    {
        self.commit(message).max(self.answer(message))
    }

    /// The last tick at which the answers that a message waits for are at the target's group.
    fn answer(&self, message: usize) -> u32
        requires { message < length self.now.scenario.multicasts }
        ensures { result ≡ greatest
            (map (λ k. arrive self.now.scenario self.now.schedule message k
            + way_at self.now.ways message k)
            (message_at self.now.scenario message).destinations) }
    {
        let mut last = 0u32;
        for group in reached_groups(self.instance, message) {
            last = last.max(self.arrival(message, *group) + self.ways.way(message, *group));
        }
        last
    }

    /// Whether a message is ahead of the target at its group: it goes there, and has a stamp there that is less than
    /// the final one of the target.
    pub fn is_ahead(&self, message: usize) -> bool
        requires { message < length self.now.scenario.multicasts }
        ensures { result ≡ is_ahead self.now.scenario self.now.schedule message }
    {
        let (target, group) = (self.instance.target_message(), self.instance.target_group());
        match (
            self.run.proposed(message, group),
            self.run.final_stamp(target),
        ) {
            (Some(proposal), Some(last)) => proposal.stamp.is_less(last),
            _ => false,
        }
    }

    /// The tick at which the message is issued.
    #[tactic(auto, unfolding(convoy_packets::specs::Assignment::delay_of), using(crate::proofs::Reached::issued_soon))]
    pub fn issue(&self, message: usize) -> u32
        requires { message < length self.now.scenario.multicasts }
        ensures { result ≡ issue self.now.scenario self.now.schedule message }
    {
        let wait = self.instance.table().wait_in(self.schedule, message);
        self.instance.issue_tick(message) + u32::from(wait)
    }

    /// The tick at which a message arrives at a group.
    #[tactic(auto, using(convoy_sim::proofs::Destinations::comes_soon, convoy_sim::proofs::Addressed::number_of_goes))]
    fn arrival(&self, message: usize, group: usize) -> u32
        requires { GoesTo self.now.scenario message group }
        ensures value { result ≡ arrive self.now.scenario self.now.schedule message group }
        ensures fits { result ≤ LAST_ARRIVAL }
    {
        match self.run.proposed(message, group) {
            Some(proposal) => proposal.tick,
            None => 0,
        }
    }

    /// The tick at which a message that goes there is committed at the target's group.
    pub fn commit(&self, message: usize) -> u32
        requires { GoesTo self.now.scenario message self.now.scenario.target_group }
        ensures { result
            ≡ settle self.now.scenario self.now.schedule message self.now.scenario.target_group }
    {
        let group = self.instance.target_group();
        match self.run.committed(message, group) {
            Some(tick) => tick,
            None => 0,
        }
    }
}

/// Whether a message goes to the target's group.
pub(crate) fn goes_to_target(instance: &Instance, message: usize) -> bool
    requires { message < length instance.now.multicasts }
    ensures { result ≡ is_addressed (message_at instance.now message) instance.now.target_group }
{
    let group = instance.target_group();
    instance.destinations(message).contains(&group)
}

/// The groups that a message goes to.
#[tactic(auto, using(crate::proofs::Reached::all_reached))]
fn reached_groups(instance: &Instance, message: usize) -> &[usize]
    requires { message < length instance.now.multicasts }
    ensures value { result.now ≡ (message_at instance.now message).destinations }
    ensures known { All (λ g. g < 8) result.now }
    ensures reached { All (GoesTo instance.now message) result.now }
    ensures few { message < 16 }
{
    destinations(instance.scenario(), message)
}
