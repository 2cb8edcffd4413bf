ghost use Rattle.std.specs.Prelude.{◌≡◌, ◌<◌, length, IfOk};
ghost use Rattle.convoy_packets.specs.Assignment.{IsAssignment};
ghost use Rattle.convoy_finishes.specs.Finishes.{finish_latency};

use super::finish_run::FinishRun;
use super::ways::Ways;
use convoy_packets::{Instance, Packet, Schedule};
use convoy_scenario::AllocResult;
use convoy_seek::{Chance, End, Score, change};
use std::alloc::Global;

/// How many steps without a better score end a climb at most.
const PATIENCE: u64 = 1_300;

/// Where a climb to a great finish latency stands.
#[derive(Drop)]
pub(crate) struct Climber {
    /// The best schedule that was seen.
    pub(crate) best: Schedule,
    /// Its finish latency, in ticks.
    pub(crate) latency: u32,
    /// The schedule from which the climb goes on.
    pub(crate) kept: Schedule,
    /// The schedule that is simulated next.
    pub(crate) tried: Schedule,
    /// How many simulations are left.
    pub(crate) left: u64,
    /// What it does by chance.
    pub(crate) chance: Chance,
}

impl Climber {
    ghost use Rattle.std.specs.Prelude.{◌<◌, length};
    ghost use Rattle.convoy_packets.specs.Table.{table_of};
    ghost use Rattle.convoy_finishes.specs.Climbing.{GoesOn, IsClimbing, OnlyTries};

    /// Climbs from the schedule that is tried to where a message is finished late and is still ahead of the target:
    /// changes a few packets of the schedule that is kept, and keeps what has no lesser score, until many changes in
    /// a row have found no greater one.
    pub(crate) fn climb(
        &mut self,
        alloc: Global,
        instance: &Instance,
        ways: &Ways,
        message: usize,
    ) -> AllocResult<()>
        requires some { 0 < length (table_of instance.now).packets }
        requires message { message < length instance.now.multicasts }
        requires climbing { IsClimbing instance.now ways.now self.old }
        requires left { 0 < self.old.left }
        ensures goes_on { GoesOn instance.now ways.now self.old self.new }
    {
        let patience = PATIENCE.min(self.left / 8 + 1);
        let mut score = self.weigh(alloc, instance, ways, message)?;
        self.kept.copy_from(&self.tried);
        let mut stale = 0u64;
        while stale < patience && self.left > 0 {
            self.tried.copy_from(&self.kept);
            self.change(alloc, instance)?;
            let next = self.weigh(alloc, instance, ways, message)?;
            stale = if next > score { 0 } else { stale + 1 };
            if next >= score {
                score = next;
                self.kept.copy_from(&self.tried);
            }
        }
        Ok(())
    }

    /// Simulates the schedule that is tried, makes it the best one where its finish latency is greater, and answers its
    /// score by a message.
    pub(crate) fn weigh(
        &mut self,
        alloc: Global,
        instance: &Instance,
        ways: &Ways,
        message: usize,
    ) -> AllocResult<Score>
        requires message { message < length instance.now.multicasts }
        requires climbing { IsClimbing instance.now ways.now self.old }
        requires left { 0 < self.old.left }
        ensures goes_on { GoesOn instance.now ways.now self.old self.new }
        ensures left { self.new.left < self.old.left }
    {
        self.left -= 1;
        let (latency, score) = weigh(alloc, instance, &self.tried, ways, message)?;
        if latency > self.latency {
            self.best.copy_from(&self.tried);
            self.latency = latency;
        }
        Ok(score)
    }

    /// Changes the schedule that is tried: in one case of eight it gives a whole message one end of its ranges.
    fn change(&mut self, alloc: Global, instance: &Instance) -> AllocResult<()>
        requires some { 0 < length (table_of instance.now).packets }
        requires tried { IsAssignment instance.now self.old.tried }
        ensures { OnlyTries instance.now self.old self.new }
    {
        if self.chance.below(8) > 0 {
            return change(alloc, instance, &mut self.tried, &mut self.chance);
        }
        let message = self.chance.below(instance.message_count());
        let end = End::numbered(self.chance.below(2));
        take_end(instance, &mut self.tried, message, end);
        Ok(())
    }
}

/// The finish latency of a schedule, in ticks, with its score by a message.
fn weigh(
    alloc: Global,
    instance: &Instance,
    schedule: &Schedule,
    ways: &Ways,
    message: usize,
) -> AllocResult<(u32, Score)>
    requires message { message < length instance.now.multicasts }
    requires assignment { IsAssignment instance.now schedule.now }
    ensures { IfOk result
        (λ weighed. weighed.0 ≡ finish_latency instance.now ways.now schedule.now) }
{
    let run = FinishRun::of(alloc, instance, schedule, ways)?;
    let latency = run.latency();
    let score = run.score(message, latency);
    Ok((latency, score))
}

/// Gives all packets of a message, and its wait, one end of their ranges.
#[tactic(auto, using(convoy_seek::proofs::Schedules::length_within))]
pub(crate) fn take_end(instance: &Instance, schedule: &mut Schedule, message: usize, end: End)
    requires { IsAssignment instance.now schedule.old }
    ensures { IsAssignment instance.now schedule.new }
{
    let table = instance.table();
    for i in 0..table.len() {
        if message_of(table.packet(i)) == message {
            schedule.set(i, end.of(table.range(i)));
        }
    }
}

/// The message to which a packet belongs.
fn message_of(packet: Packet) -> usize {
    match packet {
        Packet::Wait { message }
        | Packet::Multicast { message, .. }
        | Packet::Propose { message, .. } => message,
    }
}
