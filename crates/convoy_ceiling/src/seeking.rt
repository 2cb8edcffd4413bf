ghost use Rattle.std.specs.Prelude.{◌≤◌, IfOk};
ghost use Rattle.convoy_ceiling.specs.Ceiling.{ceiling_of};
ghost use Rattle.convoy_ceiling.specs.Finding.{IsFound};

use super::plan::{Plan, Push};
use super::traffic::traffic_of;
use crate::ceiling_laws::{ceiling_bounds_traffic, own_kinds_are_traffic};
use crate::{ceiling, goes_to, longest_from_arrival, longest_to_commit};
use convoy_packets::schedule_laws::fixed_order_is_order;
use convoy_packets::{Instance, Schedule};
use convoy_scenario::Scenario;
use convoy_seek::seek;
use convoy_sim::Record;
use std::alloc::{AllocError, Global};

/// How many copies push a clock at most.
const MOST_COPIES: usize = 2;

/// Traffic of a scenario's kinds of messages, and a record of it.
#[derive(Drop)]
pub struct Found {
    /// The traffic, with its packets.
    pub traffic: Instance,
    /// A schedule of the traffic, with its latency.
    pub record: Record,
}

/// Seeks traffic of a scenario's kinds of messages in which the target has a latency near the ceiling
/// (docs/PROTOCOL.md, "Traffic that attains the ceiling"): answers the traffic of the greatest latency
/// that it has found, with a schedule that has it, or the scenario itself with its least delays where it
/// has found none of a greater one. It simulates at most so many schedules, and ends where a latency is
/// the ceiling. It finds the same for the same input.
///
/// Fails where memory runs out, and else never.
pub fn seek_traffic(
    alloc: Global,
    scenario: &Scenario,
    simulations: u64,
) -> Result<Found, AllocError>
    ensures found { IfOk result (λ found. IsFound scenario.now found.traffic found.record) }
    ensures within { IfOk result (λ found. found.record.latency ≤ ceiling_of scenario.now) }
{
    ceiling_bounds_traffic();
    let (target, group) = (scenario.target_message(), scenario.target_group());
    let mut seeker = TrafficSeeker {
        found: own_traffic(alloc, scenario)?,
        left: simulations,
        ceiling: ceiling(scenario, target, group),
    };
    seeker.try_rivals(alloc, scenario)?;
    seeker.climbed(alloc)
}

/// The scenario itself, with the record of its least delays.
fn own_traffic(alloc: Global, scenario: &Scenario) -> Result<Found, AllocError>
    ensures { IfOk result (λ found. IsFound scenario.now found.traffic found.record) }
{
    own_kinds_are_traffic();
    fixed_order_is_order();
    let traffic = Instance::of(alloc, scenario.copy()?)?;
    let schedule = Schedule::least(alloc, traffic.table())?;
    let record = Record::of(&traffic, schedule);
    let _latency = record.latency();
    Ok(Found { traffic, record })
}

/// Where seeking stands.
#[derive(Drop)]
struct TrafficSeeker {
    /// The traffic of the greatest latency that was found.
    found: Found,
    /// How many simulations are left.
    left: u64,
    /// The ceiling, in ticks: a latency that ends it.
    ceiling: u32,
}

impl TrafficSeeker {
    ghost use Rattle.std.specs.Prelude.{◌≡◌, ◌<◌, length, IfOk};
    ghost use Rattle.convoy_scenario.specs.Scenario.{Scenario};
    ghost use Rattle.convoy_ceiling.specs.Targets.{AsksTheSame};
    ghost use Rattle.convoy_ceiling.specs.Finding.{IsFound};

    /// Tries plans with each rival by which it may gain.
    fn try_rivals(&mut self, alloc: Global, scenario: &Scenario) -> Result<(), AllocError>
        requires { IsFound scenario.now self.old.found.traffic self.old.found.record }
        ensures { IsFound scenario.now self.new.found.traffic self.new.found.record }
    {
        for rival in 0..scenario.message_count() {
            if goes_to(scenario, rival, scenario.target_group()) {
                self.try_rival(alloc, scenario, rival)?;
            }
        }
        Ok(())
    }

    /// Tries plans with a rival: first without copies, and then with those that push the clock of another
    /// group to which the target goes.
    fn try_rival(
        &mut self,
        alloc: Global,
        scenario: &Scenario,
        rival: usize,
    ) -> Result<(), AllocError>
        requires found { IsFound scenario.now self.old.found.traffic self.old.found.record }
        requires rival { rival < length scenario.now.multicasts }
        ensures { IsFound scenario.now self.new.found.traffic self.new.found.record }
    {
        let group = scenario.target_group();
        let alone = Plan {
            rival,
            pusher: rival,
            copies: 0,
            push: Push::Late,
            via: group,
        };
        self.try_plan(alloc, scenario, alone)?;
        for via in scenario.destinations(scenario.target_message()) {
            if *via != group {
                self.try_group(alloc, scenario, rival, *via)?;
            }
        }
        Ok(())
    }

    /// Tries plans with a rival in which the clock of this group is pushed.
    fn try_group(
        &mut self,
        alloc: Global,
        scenario: &Scenario,
        rival: usize,
        via: usize,
    ) -> Result<(), AllocError>
        requires found { IsFound scenario.now self.old.found.traffic self.old.found.record }
        requires rival { rival < length scenario.now.multicasts }
        ensures { IsFound scenario.now self.new.found.traffic self.new.found.record }
    {
        for pusher in 0..scenario.message_count() {
            if goes_to(scenario, pusher, via) {
                self.try_copies(alloc, scenario, rival, pusher, via)?;
            }
        }
        Ok(())
    }

    /// Tries plans with a rival in which copies of a message push the clock of this group.
    fn try_copies(
        &mut self,
        alloc: Global,
        scenario: &Scenario,
        rival: usize,
        pusher: usize,
        via: usize,
    ) -> Result<(), AllocError>
        requires found { IsFound scenario.now self.old.found.traffic self.old.found.record }
        requires rival { rival < length scenario.now.multicasts }
        requires pusher { pusher < length scenario.now.multicasts }
        ensures { IsFound scenario.now self.new.found.traffic self.new.found.record }
    {
        for copies in 1..=MOST_COPIES {
            let plan = Plan {
                rival,
                pusher,
                copies,
                push: Push::Late,
                via,
            };
            self.try_plan(alloc, scenario, plan)?;
            let early = Plan {
                push: Push::Early,
                ..plan
            };
            self.try_plan(alloc, scenario, early)?;
        }
        Ok(())
    }

    /// Simulates a plan where it may gain by its rival, and keeps its traffic where that has a greater
    /// latency than the one that was found before.
    fn try_plan(&mut self, alloc: Global, scenario: &Scenario, plan: Plan) -> Result<(), AllocError>
        requires found { IsFound scenario.now self.old.found.traffic self.old.found.record }
        requires rival { plan.rival < length scenario.now.multicasts }
        requires pusher { plan.pusher < length scenario.now.multicasts }
        ensures { IsFound scenario.now self.new.found.traffic self.new.found.record }
    {
        if self.left == 0 || !self.may_gain_by(scenario, plan.rival) {
            return Ok(());
        }
        self.left -= 1;
        if let Some(traffic) = traffic_of(alloc, scenario, &plan)? {
            let record = Record::of(&traffic, plan.schedule(alloc, &traffic)?);
            if record.latency() > self.found.record.latency() {
                self.found = Found { traffic, record };
            }
        }
        Ok(())
    }

    /// Whether a rival could hold the target back for longer than in the traffic that was found.
    fn may_gain_by(&self, scenario: &Scenario, rival: usize) -> bool
        requires { rival < length scenario.now.multicasts }
    {
        let (target, group) = (scenario.target_message(), scenario.target_group());
        let commit = longest_to_commit(scenario, target, group);
        self.found.record.latency() < commit + longest_from_arrival(scenario, group, rival)
    }

    /// What is found once a better schedule was sought by as many simulations as are left.
    fn climbed(self, alloc: Global) -> Result<Found, AllocError>
        requires { self.found.record.scenario ≡ self.found.traffic }
        ensures { (scenario : Scenario) → AsksTheSame scenario self.found.traffic
            → IfOk result (λ found. IsFound scenario found.traffic found.record) }
    {
        let TrafficSeeker {
            found: Found { traffic, record },
            left,
            ceiling,
        } = self;
        match seek(alloc, &traffic, record, ceiling, left) {
            Ok(record) => {
                let _latency = record.latency();
                Ok(Found { traffic, record })
            }
            Err((_, error)) => Err(error),
        }
    }
}
