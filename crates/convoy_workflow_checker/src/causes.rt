//! The causes of a certificate: which is the first that is none of its scenario, and which the first that is not followed.

ghost use Rattle.std.specs.Prelude.{◌≡◌, ◌↔◌, ◌<◌, All, length, IsTrue, MatchOption};
ghost use Rattle.convoy_scenario.specs.Scenario.{is_addressed, message_at};
ghost use Rattle.convoy_causes.specs.Causes.{AreCauses, IsCause, IsFollowing};

use convoy_causes::{Cause, CausedRun};
use convoy_scenario::Scenario;

/// The place of the first cause that names a message that is not there, or a group to which what it follows does not go.
pub(crate) fn first_unknown(scenario: &Scenario, causes: &[Cause]) -> Option<usize>
    ensures { MatchOption result (AreCauses scenario.now causes.now) (λ _. ¬ (AreCauses scenario.now causes.now)) }
{
    for (place, cause) in causes.iter().enumerate() {
        if !is_cause(scenario, cause) {
            return Some(place);
        }
    }
    None
}

/// Whether a cause speaks of messages of the scenario, one of which goes to the group of the event.
fn is_cause(scenario: &Scenario, cause: &Cause) -> bool
    ensures { IsTrue result ↔ IsCause scenario.now cause.now }
{
    cause.effect < scenario.message_count()
        && cause.message < scenario.message_count()
        && is_addressed(scenario, cause.message, cause.group)
}

/// Whether a message goes to a group.
fn is_addressed(scenario: &Scenario, message: usize, group: usize) -> bool
    requires { message < length scenario.now.multicasts }
    ensures { result ≡ is_addressed (message_at scenario.now message) group }
{
    scenario.destinations(message).contains(&group)
}

/// The place of the first cause that is not followed in a run.
pub(crate) fn first_not_followed(run: &CausedRun, causes: &[Cause]) -> Option<usize>
    requires { AreCauses run.now.scenario causes.now }
    ensures { MatchOption result (All (IsFollowing run.now.scenario run.now.schedule) causes.now)
        (λ _. ¬ (All (IsFollowing run.now.scenario run.now.schedule) causes.now)) }
{
    for (place, cause) in causes.iter().enumerate() {
        if !run.follows(cause) {
            return Some(place);
        }
    }
    None
}
