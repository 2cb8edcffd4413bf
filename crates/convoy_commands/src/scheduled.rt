ghost use Rattle.std.specs.Prelude.{IfOk};
ghost use Rattle.std.specs.Option.{option_map};
ghost use Rattle.convoy_packets.specs.Assignment.{AreWithin};
ghost use Rattle.convoy_packets.specs.Order.{IsOrder};
ghost use Rattle.convoy_commands.specs.Memory.{IsUnlessMemory};
ghost use Rattle.convoy_commands.specs.declared.fault.Fault.TheVariants.{Memory};
ghost use Rattle.convoy_commands.specs.Schedules.{chosen_order, chosen_schedule, order_in};

use super::answer::{Known, ReadInstance};
use super::fault::{Fault, OrderFault, fault_of_order};
use convoy_certificate::Certificate;
use convoy_packets::schedule_laws::fixed_order_is_order;
use convoy_packets::{Instance, Order, PacketTable, Schedule};
use convoy_scenario::{Scenario, Time};
use convoy_toml::{Input, PlainNumber, read_toml};
use std::alloc::Global;
use std::marker::Model;

/// A scenario with its packets, and a schedule of it. The schedule is an assignment.
#[derive(Drop)]
pub(crate) struct Scheduled {
    instance: Instance,
    schedule: Schedule,
    /// The plain number beside durations of the text, of which no contract speaks.
    plain: Option<PlainNumber>,
}

impl Model for Scheduled {
    ghost use Rattle.convoy_packets.specs.Assignment.{IsAssignment};
    ghost use Rattle.convoy_sim.specs.Scheduled.{Scheduled};

    ghost Value = { Scheduled };

    ghost view = { λ s. record { scenario = s.instance; schedule = s.schedule } };

    ghost invariant = { λ s. IsAssignment s.instance s.schedule };
}

impl Scheduled {
    ghost use Rattle.std.specs.Prelude.{◌≡◌};
    ghost use Rattle.convoy_packets.specs.Assignment.{IsAssignment};
    ghost use Rattle.convoy_commands.specs.declared.fault.Fault.TheVariants.{Memory};
    ghost use Rattle.convoy_commands.specs.Memory.{IsUnlessMemory};
    ghost use Rattle.convoy_commands.specs.Schedules.{scheduled_in, scheduled_of_text};

    /// What a scenario's text gives: where it gives no schedule, the least delays, and where it gives
    /// no order of ties, the fixed one.
    pub(crate) fn read(alloc: Global, text: &[u8]) -> Result<Scheduled, Fault>
        ensures { IsUnlessMemory Memory (scheduled_of_text text.now) result }
    {
        let Input {
            scenario,
            schedule,
            order,
            plain,
            ..
        } = read_toml(alloc, text)?;
        let instance = Instance::of(alloc, scenario)?;
        let mut schedule = choose_schedule(alloc, instance.table(), &schedule)?;
        schedule.set_order(choose_order(alloc, instance.scenario(), &order)?);
        Ok(Scheduled {
            instance,
            schedule,
            plain,
        })
    }

    /// What a certificate gives.
    pub(crate) fn of_certificate(certificate: Certificate) -> Scheduled
        ensures { result ≡ scheduled_in certificate }
    {
        let _ = certificate.schedule();
        let (instance, _, schedule, _) = certificate.into_parts();
        Scheduled {
            instance,
            schedule,
            plain: None,
        }
    }

    /// What is known of the scenario.
    pub(crate) fn into_known(self) -> Known {
        let Scheduled {
            instance,
            plain,
            ..
        } = self;
        Known::of(ReadInstance { instance, plain }, None)
    }

    /// The scenario with its packets.
    pub(crate) fn instance(&self) -> &Instance
        ensures value { result.now ≡ self.now.scenario }
        ensures assignment { IsAssignment self.now.scenario self.now.schedule }
    {
        &self.instance
    }

    /// The schedule.
    pub(crate) fn schedule(&self) -> &Schedule
        ensures { result.now ≡ self.now.schedule }
    {
        &self.schedule
    }
}

/// The schedule of the delays that are given, and where none are of the least delays.
fn choose_schedule(
    alloc: Global,
    table: &PacketTable,
    list: &Option<Vec<i64>>,
) -> Result<Schedule, Fault>
    ensures value { IsUnlessMemory Memory
        (chosen_schedule table.now.ranges (option_map (λ numbers. numbers.items) list.now)) result }
    ensures within { IfOk result (λ schedule. AreWithin table.now.ranges schedule.delays) }
{
    match list {
        None => Ok(Schedule::least(alloc, table)?),
        Some(numbers) => Ok(Schedule::from_list(alloc, table, numbers)?),
    }
}

/// The order of ties that is given, and where none is the fixed one.
fn choose_order(alloc: Global, scenario: &Scenario, list: &Option<Vec<i64>>) -> Result<Order, Fault>
    ensures value { IsUnlessMemory Memory
        (chosen_order scenario.now (option_map (λ ranks. ranks.items) list.now)) result }
    ensures lawful { IfOk result (λ order. IsOrder scenario.now order) }
{
    fixed_order_is_order();
    match list {
        None => Ok(Order::none()),
        Some(ranks) => order_in(alloc, scenario, ranks),
    }
}

/// The order of ties that a list gives: in whole ticks none may be given.
fn order_in(alloc: Global, scenario: &Scenario, ranks: &[i64]) -> Result<Order, Fault>
    ensures value { IsUnlessMemory Memory (order_in scenario.now.time scenario.now ranks.now) result }
    ensures lawful { IfOk result (λ order. IsOrder scenario.now order) }
{
    match scenario.time() {
        Time::Ticks => Err(Fault::Order(OrderFault::InTicks)),
        Time::Real => match Order::from_list(alloc, scenario, ranks) {
            Ok(order) => Ok(order),
            Err(cause) => Err(fault_of_order(cause)),
        },
    }
}
