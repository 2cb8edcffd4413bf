//! How long all messages of a scenario take to be committed, at the longest.

ghost use Rattle.std.specs.Prelude.{◌≡◌, ◌≤◌, ◌<◌, length};
ghost use Rattle.convoy_scenario.specs.WellFormed.{IsScenario};
ghost use Rattle.convoy_best_plan.specs.Totals.{total_at, total_of};

use convoy_ceiling::longest_to_commit;
use convoy_scenario::Scenario;

/// The longest from the issue of a message to its commit, summed over all messages and the groups that they go to.
pub fn total_of(scenario: &Scenario) -> u64
    ensures { result ≡ total_of scenario.now }
{
    let mut total = 0u64;
    for message in 0..scenario.message_count() {
        total += total_at(scenario, message);
    }
    total
}

/// The same of one message.
fn total_at(scenario: &Scenario, message: usize) -> u64
    requires { message < length scenario.now.multicasts }
    ensures value { result ≡ total_at scenario.now message }
    ensures lawful { IsScenario scenario.now }
    ensures few { result ≤ 2_000_000 }
{
    let groups = scenario.destinations(message);
    let mut total = 0u64;
    for group in groups {
        total += u64::from(longest_to_commit(scenario, message, *group));
    }
    total
}
