//! The limits within which a trace is judged.

ghost use Rattle.std.specs.Prelude.{◌≡◌, ◌<◌, length};
ghost use Rattle.std.specs.List.{list_all};
ghost use Rattle.convoy_scenario.specs.Scenario.{message_at};
ghost use Rattle.convoy_fits.specs.Limits.{is_early, is_in_time, is_within_limits};

use super::corrected::Corrected;
use super::fine_test::is_there;
use convoy_scenario::{GREATEST_AT, GREATEST_DELAY, Scenario};
use convoy_traces::{LAST_TIME, Told};

/// Whether a message may be issued at a fine tick at which messages of scenarios may be.
fn is_early(factor: u16, scenario: &Scenario, message: usize) -> bool
    requires { message < length scenario.now.multicasts }
    ensures { result ≡ is_early factor (message_at scenario.now message) }
{
    u64::from(factor) * u64::from(scenario.issue_tick(message)) <= u64::from(GREATEST_AT)
}

/// Whether all messages may be.
fn are_early(factor: u16, scenario: &Scenario) -> bool
    ensures { result ≡ list_all (is_early factor) scenario.now.multicasts }
{
    for message in 0..scenario.message_count() {
        if !is_early(factor, scenario, message) {
            return false;
        }
    }
    true
}

/// Whether what is told is of the scenario, and no later than a trace may tell.
fn is_in_time(scenario: &Scenario, one: &Told) -> bool
    ensures { result ≡ is_in_time scenario.now one.now }
{
    is_there(scenario, one) && one.time <= LAST_TIME
}

/// Whether all that is told is.
fn are_in_time(scenario: &Scenario, told: &[Told]) -> bool
    ensures { result ≡ list_all (is_in_time scenario.now) told.now }
{
    for one in told {
        if !is_in_time(scenario, one) {
            return false;
        }
    }
    true
}

/// Whether the scenario keeps the limits of scenarios in the fine ticks of a trace, and the trace is one of it.
pub(crate) fn is_within_limits(scenario: &Scenario, trace: &Corrected) -> bool
    ensures { result ≡ is_within_limits scenario.now trace.now }
{
    let factor = trace.factor();
    1 <= factor
        && u32::from(factor) * u32::from(scenario.delay()) <= u32::from(GREATEST_DELAY)
        && are_early(factor, scenario)
        && are_in_time(scenario, trace.told())
}
