ghost use Rattle.convoy_library.specs.Ceiling.{IsUpperInTraffic};

use convoy_library::ceiling::ceiling;
use convoy_library::scenario::Scenario;

/// A timeout, in ticks after its issue, within which a message of the target's kind is delivered at the
/// target's group, whatever else is issued: any number of messages of the scenario's kinds, at any ticks.
pub fn timeout_in_traffic(scenario: &Scenario) -> u32
    ensures { let target = scenario.now.target_message in
        IsUpperInTraffic scenario.now target scenario.now.target_group result }
{
    ceiling(scenario, scenario.target_message(), scenario.target_group())
}
