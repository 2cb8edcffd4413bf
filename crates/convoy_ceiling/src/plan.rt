ghost use Rattle.std.specs.Prelude.{◌<◌, length, IfOk};
ghost use Rattle.convoy_packets.specs.Assignment.{IsAssignment};

use super::naming::name_for;
use super::ticks::IssueTicks;
use convoy_packets::schedule_laws::fixed_order_is_order;
use convoy_packets::{Instance, Packet, Schedule};
use convoy_scenario::naming::{
    draft_destinations, draft_group, draft_groups, draft_link, draft_places, draft_sender,
};
use convoy_scenario::{DraftLink, DraftMulticast, DraftScenario, Name, Scenario};
use std::alloc::{AllocError, Global};

/// How copies push the clock of a group before the target comes there, and that of the target's group no
/// further than it matters.
#[derive(Clone, Copy, PartialEq, Eq)]
pub enum Push {
    /// They come to the target's group as late as they may, where they go there at all: after the rival.
    Late,
    /// They come to the target's group just after the target, and so have a greater stamp there: the other
    /// group commits them before the target comes.
    Early,
}

/// Traffic in which a rival is to hold the target back for as long as it can: it comes to the target's group
/// as the target is committed there, with a stamp below that of the target. For that, copies of another
/// message may push the clock of a group to which the target goes, before the target comes there.
///
/// The rival is message 0. The copies stand before the target where they come late, and else after it.
#[derive(Clone, Copy)]
pub struct Plan {
    /// The message of the scenario of whose kind the rival is.
    pub rival: usize,
    /// The one of whose kind the copies are.
    pub pusher: usize,
    /// How many copies there are.
    pub copies: usize,
    /// How they push.
    pub push: Push,
    /// The group whose clock they push.
    pub via: usize,
}

impl Plan {
    ghost use Rattle.std.specs.Prelude.{◌<◌, length, IfOk};
    ghost use Rattle.convoy_packets.specs.Assignment.{IsAssignment};

    /// The traffic of the plan, with the names of a scenario.
    pub fn draft(&self, alloc: Global, scenario: &Scenario) -> Result<DraftScenario, AllocError>
        requires rival { self.now.rival < length scenario.now.multicasts }
        requires pusher { self.now.pusher < length scenario.now.multicasts }
    {
        let target = scenario.target_message();
        Ok(DraftScenario {
            time: scenario.time(),
            tick: scenario.tick(),
            delay: i64::from(scenario.delay()),
            groups: draft_groups(alloc, scenario)?,
            places: draft_places(alloc, scenario)?,
            links: links_of(alloc, scenario)?,
            multicasts: self.messages(alloc, scenario)?,
            target_message: Name::new(alloc, scenario.message_name(target))?,
            target_group: draft_group(alloc, scenario, scenario.target_group())?,
        })
    }

    /// The messages of the plan.
    fn messages(
        &self,
        alloc: Global,
        scenario: &Scenario,
    ) -> Result<Vec<DraftMulticast>, AllocError>
        requires rival { self.now.rival < length scenario.now.multicasts }
        requires pusher { self.now.pusher < length scenario.now.multicasts }
    {
        let ticks = IssueTicks::of(self, scenario);
        let target = scenario.target_message();
        let name = Name::new(alloc, scenario.message_name(target))?;
        let target = message_of(alloc, scenario, target, ticks.target, name)?;
        let mut messages = Vec::new(alloc);
        push_message(alloc, scenario, self.rival, ticks.rival, &mut messages)?;
        for _ in 0..self.copies {
            push_message(alloc, scenario, self.pusher, ticks.pusher, &mut messages)?;
        }
        match self.push {
            Push::Late => messages.push(target)?,
            Push::Early => messages.insert(1.min(messages.len()), target)?,
        }
        Ok(messages)
    }

    /// The schedule of the plan in its traffic: each packet takes its greatest delay, but those that are in
    /// a hurry their least.
    #[tactic(auto, using(convoy_seek::proofs::Schedules::length_within))]
    pub fn schedule(&self, alloc: Global, traffic: &Instance) -> Result<Schedule, AllocError>
        ensures { IfOk result (λ schedule. IsAssignment traffic.now schedule) }
    {
        let mut schedule = slowest(alloc, traffic)?;
        let table = traffic.table();
        for i in 0..table.len() {
            if self.is_hurried(traffic, table.packet(i)) {
                schedule.set(i, table.range(i).0);
            }
        }
        Ok(schedule)
    }

    /// Whether a packet brings the rival to the target's group, or a copy to the group whose clock it
    /// pushes. Where copies are to come early, all their packets are in a hurry, and the target on its way
    /// to its group.
    fn is_hurried(&self, traffic: &Instance, packet: Packet) -> bool {
        let (target, group) = (traffic.target_message(), traffic.target_group());
        let is_early = self.push == Push::Early;
        match packet {
            Packet::Wait { .. } => false,
            Packet::Multicast { message: 0, to } => to == group,
            Packet::Multicast { message, to } if message == target => is_early && to == group,
            Packet::Multicast { to, .. } => is_early || to == self.via,
            Packet::Propose { message, .. } => is_early && message != 0 && message != target,
        }
    }
}

/// The schedule of the greatest delays.
fn slowest(alloc: Global, traffic: &Instance) -> Result<Schedule, AllocError>
    ensures { IfOk result (λ schedule. IsAssignment traffic.now schedule) }
{
    fixed_order_is_order();
    let schedule = Schedule::greatest(alloc, traffic.table())?;
    Ok(schedule)
}

/// All links, with names.
fn links_of(alloc: Global, scenario: &Scenario) -> Result<Vec<DraftLink>, AllocError> {
    let mut links = Vec::new(alloc);
    for link in scenario.links() {
        links.push(draft_link(alloc, scenario, *link)?)?;
    }
    Ok(links)
}

/// Adds a message of a kind, with a name that none before it has.
fn push_message(
    alloc: Global,
    scenario: &Scenario,
    kind: usize,
    at: u32,
    messages: &mut Vec<DraftMulticast>,
) -> Result<(), AllocError>
    requires { kind < length scenario.now.multicasts }
{
    let name = name_for(alloc, scenario, kind, messages)?;
    messages.push(message_of(alloc, scenario, kind, at, name)?)?;
    Ok(())
}

/// A message of a kind, with names: traffic is made with known issues, whether the kind may wait or not.
fn message_of(
    alloc: Global,
    scenario: &Scenario,
    kind: usize,
    at: u32,
    name: Name,
) -> Result<DraftMulticast, AllocError>
    requires { kind < length scenario.now.multicasts }
{
    Ok(DraftMulticast {
        name,
        sender: draft_sender(alloc, scenario, scenario.sender(kind))?,
        to: draft_destinations(alloc, scenario, scenario.destinations(kind))?,
        at: i64::from(at),
        until: i64::from(at),
    })
}
