ghost use Rattle.std.specs.Prelude.{◌≡◌, ◌+◌, ◌<◌, ◌≤◌, ◌*◌, length};
ghost use Rattle.convoy_scenario.specs.Scenario.{is_addressed, message_at};
ghost use Rattle.convoy_scenario.specs.WellFormed.{IsScenario};
ghost use Rattle.convoy_scenario.specs.declared.sender.Sender.TheVariants.{Group};
ghost use Rattle.convoy_ceiling.specs.Ceiling.{
  IsUpperInTraffic,
  ceiling_at,
  ceiling_of,
  delays_between,
  stamp_delays,
  longest_after,
  longest_by,
  longest_from_arrival,
  longest_to_commit,
};

use super::ceiling_laws::ceiling_holds;
use convoy_scenario::{Scenario, Sender};

/// The ceiling of a message at a group, in ticks: whatever messages of the scenario's kinds are issued, of
/// any number and at any ticks, none of this message's kind has a greater latency at the group
/// (docs/PROTOCOL.md, "The ceiling"). Of the scenario's messages only the senders and the destinations
/// count.
pub fn ceiling(scenario: &Scenario, message: usize, group: usize) -> u32
    requires { message < length scenario.now.multicasts }
    ensures value { result ≡ ceiling_at scenario.now message group }
    ensures holds { IsUpperInTraffic scenario.now message group result }
{
    ceiling_holds();
    longest_to_commit(scenario, message, group) + longest_after(scenario, group)
}

/// The ceiling of a scenario's own target, in ticks.
pub fn target_ceiling(scenario: &Scenario) -> u32
    ensures value { result ≡ ceiling_of scenario.now }
    ensures lawful { IsScenario scenario.now }
    ensures safe { IsUpperInTraffic scenario.now scenario.now.target_message scenario.now.target_group
        (ceiling_of scenario.now) }
{
    ceiling(scenario, scenario.target_message(), scenario.target_group())
}

/// Whether a message goes to a group.
pub fn goes_to(scenario: &Scenario, message: usize, group: usize) -> bool
    requires { message < length scenario.now.multicasts }
    ensures { result ≡ is_addressed (message_at scenario.now message) group }
{
    scenario.destinations(message).contains(&group)
}

/// The longest from the issue of a message to its commit at a group.
pub fn longest_to_commit(scenario: &Scenario, message: usize, group: usize) -> u32
    requires { message < length scenario.now.multicasts }
    ensures value { result ≡ longest_to_commit scenario.now message group }
    ensures fits { result ≤ 2 * u16.MAX }
{
    let sender = scenario.sender(message);
    let mut longest = 0u32;
    for via in scenario.destinations(message) {
        longest = longest.max(longest_by(scenario, sender, group, *via));
    }
    longest
}

/// The longest from the arrival of any message at a group to its commit there.
fn longest_after(scenario: &Scenario, group: usize) -> u32
    ensures value { result ≡ longest_after scenario.now group }
    ensures lawful { IsScenario scenario.now }
    ensures fits { result ≤ 2 * u16.MAX }
{
    let mut longest = 0u32;
    for message in 0..scenario.message_count() {
        if goes_to(scenario, message, group) {
            longest = longest.max(longest_from_arrival(scenario, group, message));
        }
    }
    longest
}

/// The longest from the arrival of a message at a group to its commit there.
pub fn longest_from_arrival(scenario: &Scenario, group: usize, message: usize) -> u32
    requires { message < length scenario.now.multicasts }
    ensures value { result ≡ longest_from_arrival scenario.now group message }
    ensures fits { result ≤ 2 * u16.MAX }
{
    let (least, _) = delays_between(scenario, scenario.sender(message), group);
    longest_to_commit(scenario, message, group).saturating_sub(u32::from(least))
}

/// The longest way from a sender to the group `via`, and on to a group.
fn longest_by(scenario: &Scenario, sender: Sender, group: usize, via: usize) -> u32
    ensures value { result ≡ longest_by scenario.now sender group via }
    ensures fits { result ≤ 2 * u16.MAX }
{
    let (_, first) = delays_between(scenario, sender, via);
    let (_, second) = stamp_delays(scenario, via, group);
    u32::from(first) + u32::from(second)
}

/// The least and the greatest delay of a message from a sender to a group, in ticks; what a group sends to itself
/// takes no time, unless it has a link to itself.
pub fn delays_between(scenario: &Scenario, sender: Sender, to: usize) -> (u16, u16)
    ensures { result ≡ delays_between scenario.now sender to }
{
    if scenario.takes_time(sender, to) {
        scenario.range_between(sender, to)
    } else {
        (0, 0)
    }
}

/// The least and the greatest delay of a stamp from a group to another one, in ticks; its own takes no time, unless the
/// group has a link to itself that is for stamps.
pub fn stamp_delays(scenario: &Scenario, from: usize, to: usize) -> (u16, u16)
    ensures { result ≡ stamp_delays scenario.now from to }
{
    if scenario.stamp_takes_time(from, to) {
        scenario.range_between(Sender::Group(from), to)
    } else {
        (0, 0)
    }
}
