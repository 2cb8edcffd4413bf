ghost use Rattle.std.specs.Prelude.{◌≡◌, IfOk};
ghost use Rattle.convoy_packets.specs.Assignment.{IsAssignment};
ghost use Rattle.convoy_scenario.specs.WellFormed.{IsScenario};

use super::tag::Tag;
use super::target::latency;
use convoy_packets::{Instance, Schedule};
use convoy_scenario::Scenario;
use std::alloc::{AllocError, Global};
use std::marker::Model;

/// A schedule with its latency in one scenario, which contracts name: a proof that the scenario can
/// take that long. A search keeps the record of the greatest latency that it has seen.
#[derive(Drop)]
pub struct Record {
    schedule: Schedule,
    latency: u32,
    scenario: Tag<Scenario>,
}

impl Model for Record {
    ghost use Rattle.convoy_sim.specs.Record.{Record, IsAttained};

    ghost Value = { Record };

    ghost view = { λ r. record { scenario = r.scenario.value; schedule = r.schedule; latency = r.latency } };

    ghost invariant = { λ r. IsAttained (view r) };
}

impl Record {
    ghost use Rattle.convoy_sim.specs.Record.{IsAttained, attained_by};

    /// The record of a schedule of an instance. Takes no memory.
    pub fn of(instance: &Instance, schedule: Schedule) -> Record
        requires assignment { IsAssignment instance.now schedule }
        ensures { result ≡ attained_by instance.now schedule }
    {
        let latency = latency(instance, &schedule);
        Record {
            schedule,
            latency,
            scenario: name_of(instance.scenario()),
        }
    }

    /// The latency that the scenario asks for, in ticks, under the schedule of the record.
    pub fn latency(&self) -> u32
        ensures value { result ≡ self.now.latency }
        ensures attained { IsAttained self.now }
    {
        self.latency
    }

    /// The schedule of the record.
    pub fn schedule(&self) -> &Schedule
        ensures value { result.now ≡ self.now.schedule }
        ensures attained { IsAttained self.now }
    {
        &self.schedule
    }

    /// The name of the record's scenario.
    pub fn scenario(&self) -> Tag<Scenario>
        ensures { result.value ≡ self.now.scenario }
    {
        self.scenario.copy()
    }

    /// The same record again. Fails where memory runs out, and else never.
    pub fn copy(&self) -> Result<Record, AllocError>
        ensures { IfOk result (λ r. r ≡ self.now) }
    {
        Ok(Record {
            schedule: self.schedule.copy()?,
            latency: self.latency,
            scenario: self.scenario.copy(),
        })
    }
}

/// The name of a scenario, which is well formed as each scenario is.
fn name_of(scenario: &Scenario) -> Tag<Scenario>
    ensures value { result.value ≡ scenario.now }
    ensures lawful { IsScenario scenario.now }
{
    let _delay = scenario.delay();
    Tag::of(scenario)
}
