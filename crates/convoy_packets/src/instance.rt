ghost use Rattle.std.specs.Prelude.{◌≡◌, ◌<◌, length, IfOk};
ghost use Rattle.convoy_scenario.specs.Scenario.{message_at, group_name_at};
ghost use Rattle.convoy_scenario.specs.WellFormed.{IsScenario};
ghost use Rattle.convoy_packets.specs.Table.{table_of, IsTable};

use super::table::PacketTable;
use convoy_scenario::{Scenario, Sender, Time};
use std::alloc::{AllocError, Global};
use std::marker::Model;

/// A scenario with its packets: all that a run, a bound or a search is asked about. Contracts see the
/// scenario; the table is made of it once, for look-ups.
#[derive(Drop)]
pub struct Instance {
    scenario: Scenario,
    table: PacketTable,
}

impl Model for Instance {
    ghost use Rattle.std.specs.Prelude.{◌≡◌};
    ghost use Rattle.convoy_scenario.specs.Scenario.{Scenario};
    ghost use Rattle.convoy_packets.specs.Table.{table_of};

    ghost Value = { Scenario };

    ghost view = { λ i. i.scenario };

    ghost invariant = { λ i. i.table ≡ table_of i.scenario };
}

impl Instance {
    /// The instance of a scenario. Fails where memory runs out, and else never; the scenario does not
    /// come back then.
    pub fn of(alloc: Global, scenario: Scenario) -> Result<Instance, AllocError>
        ensures { IfOk result (λ instance. instance ≡ scenario) }
    {
        let table = PacketTable::of(alloc, &scenario)?;
        Ok(Instance { scenario, table })
    }

    /// The same instance, in memory of its own. Fails where memory runs out, and else never.
    pub fn copy(&self, alloc: Global) -> Result<Instance, AllocError>
        ensures { IfOk result (λ copy. copy ≡ self.now) }
    {
        Instance::of(alloc, self.scenario.copy()?)
    }

    /// The scenario, without its packets.
    pub fn scenario(&self) -> &Scenario
        ensures value { result.now ≡ self.now }
        ensures lawful { IsScenario self.now }
    {
        let _delay = self.scenario.delay();
        &self.scenario
    }

    /// The scenario alone.
    pub fn into_scenario(self) -> Scenario
        ensures value { result ≡ self }
        ensures lawful { IsScenario result }
    {
        let _delay = self.scenario.delay();
        self.scenario
    }

    /// The packets of the scenario, for look-ups.
    pub fn table(&self) -> &PacketTable
        ensures value { result.now ≡ table_of self.now }
        ensures lawful { IsTable (table_of self.now) }
    {
        let _count = self.table.len();
        &self.table
    }

    /// Whether time goes in whole ticks, or is real (docs/PROTOCOL.md).
    pub fn time(&self) -> Time
        ensures value { result ≡ self.now.time }
        ensures lawful { IsScenario self.now }
    {
        let _delay = self.scenario.delay();
        self.scenario.time()
    }

    /// D, the greatest delay of a packet, in ticks.
    pub fn delay(&self) -> u16
        ensures value { result ≡ self.now.delay }
        ensures lawful { IsScenario self.now }
    {
        self.scenario.delay()
    }

    /// How many groups there are.
    pub fn group_count(&self) -> usize
        ensures value { result ≡ length self.now.groups }
        ensures lawful { IsScenario self.now }
    {
        self.scenario.group_count()
    }

    /// The name of a group.
    pub fn group_name(&self, group: usize) -> &str
        requires { group < length self.now.groups }
        ensures { result.now ≡ group_name_at self.now group }
    {
        self.scenario.group_name(group)
    }

    /// How many messages there are.
    pub fn message_count(&self) -> usize
        ensures value { result ≡ length self.now.multicasts }
        ensures lawful { IsScenario self.now }
    {
        self.scenario.message_count()
    }

    /// The name of a message.
    pub fn message_name(&self, message: usize) -> &str
        requires { message < length self.now.multicasts }
        ensures { result.now ≡ (message_at self.now message).name }
    {
        self.scenario.message_name(message)
    }

    /// Who sends a message.
    pub fn sender(&self, message: usize) -> Sender
        requires { message < length self.now.multicasts }
        ensures value { result ≡ (message_at self.now message).sender }
        ensures lawful { IsScenario self.now }
    {
        self.scenario.sender(message)
    }

    /// The numbers of the groups that a message goes to, ascending.
    pub fn destinations(&self, message: usize) -> &[usize]
        requires { message < length self.now.multicasts }
        ensures value { result.now ≡ (message_at self.now message).destinations }
        ensures lawful { IsScenario self.now }
    {
        self.scenario.destinations(message)
    }

    /// The tick at which a message is issued.
    pub fn issue_tick(&self, message: usize) -> u32
        requires { message < length self.now.multicasts }
        ensures value { result ≡ (message_at self.now message).at }
        ensures lawful { IsScenario self.now }
    {
        self.scenario.issue_tick(message)
    }

    /// How many ticks a message waits at most, from the first at which it may be issued to its issue; 0
    /// where its issue is known.
    pub fn longest_wait(&self, message: usize) -> u16
        requires { message < length self.now.multicasts }
        ensures value { result ≡ (message_at self.now message).longest_wait }
        ensures lawful { IsScenario self.now }
    {
        self.scenario.longest_wait(message)
    }

    /// The number of the message of which the latency is asked.
    pub fn target_message(&self) -> usize
        ensures value { result ≡ self.now.target_message }
        ensures lawful { IsScenario self.now }
    {
        self.scenario.target_message()
    }

    /// The number of the group at which the latency of the target is asked.
    pub fn target_group(&self) -> usize
        ensures value { result ≡ self.now.target_group }
        ensures lawful { IsScenario self.now }
    {
        self.scenario.target_group()
    }
}
