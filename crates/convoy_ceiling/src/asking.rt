//! Whether the same is asked in traffic as in a scenario.

ghost use Rattle.std.specs.Prelude.{◌≡◌, ◌<◌, length, All, IsTrue};
ghost use Rattle.convoy_scenario.specs.Scenario.{message_at};
ghost use Rattle.convoy_ceiling.specs.Ceiling.{IsOfKind, IsOfSomeKind};
ghost use Rattle.convoy_ceiling.specs.Targets.{AsksTheSame};
ghost use Rattle.convoy_ceiling.specs.Tests.{HasSameTicks, HasSameTarget};

use convoy_scenario::{Part, Scenario, agree_in};

/// Whether the same is asked in this traffic as in a scenario: where the answer is yes, it is.
pub fn asks_the_same(scenario: &Scenario, traffic: &Scenario) -> bool
    ensures { IsTrue result → AsksTheSame scenario.now traffic.now }
{
    has_same_ticks(scenario, traffic)
        && agree_in(scenario, traffic, Part::Links)
        && has_known_kinds(scenario, traffic)
        && has_same_target(scenario, traffic)
}

/// Whether there are as many groups, and D and time are the same.
fn has_same_ticks(scenario: &Scenario, traffic: &Scenario) -> bool
    ensures { IsTrue result → HasSameTicks scenario.now traffic.now }
{
    traffic.group_count() == scenario.group_count()
        && agree_in(scenario, traffic, Part::Delay)
        && agree_in(scenario, traffic, Part::Time)
        && agree_in(scenario, traffic, Part::Tick)
}

/// Whether each message of the traffic is of the kind of some message of the scenario.
fn has_known_kinds(scenario: &Scenario, traffic: &Scenario) -> bool
    ensures { IsTrue result → All (IsOfSomeKind scenario.now) traffic.now.multicasts }
{
    for message in 0..traffic.message_count() {
        if !has_known_kind(scenario, traffic, message) {
            return false;
        }
    }
    true
}

/// Whether a message of the traffic is of the kind of some message of the scenario.
fn has_known_kind(scenario: &Scenario, traffic: &Scenario, message: usize) -> bool
    requires { message < length traffic.now.multicasts }
    ensures { IsTrue result → IsOfSomeKind scenario.now (message_at traffic.now message) }
{
    for kind in 0..scenario.message_count() {
        if is_of_kind(scenario, kind, traffic, message) {
            return true;
        }
    }
    false
}

/// Whether a message of the traffic is of the kind of this message of the scenario.
fn is_of_kind(scenario: &Scenario, kind: usize, traffic: &Scenario, message: usize) -> bool
    requires kind { kind < length scenario.now.multicasts }
    requires message { message < length traffic.now.multicasts }
    ensures { IsTrue result
        → IsOfKind (message_at scenario.now kind) (message_at traffic.now message) }
{
    traffic.sender(message) == scenario.sender(kind)
        && are_same_groups(traffic.destinations(message), scenario.destinations(kind))
}

fn are_same_groups(groups: &[usize], others: &[usize]) -> bool
    ensures { IsTrue result → groups.now ≡ others.now }
{
    groups == others
}

/// Whether the target is of the kind of the scenario's target, and asked for at the same group.
fn has_same_target(scenario: &Scenario, traffic: &Scenario) -> bool
    ensures { IsTrue result → HasSameTarget scenario.now traffic.now }
{
    let (message, target) = (scenario.target_message(), traffic.target_message());
    traffic.target_group() == scenario.target_group()
        && is_of_kind(scenario, message, traffic, target)
}
