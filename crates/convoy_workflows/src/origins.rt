//! From which message's issue the time counts.

ghost use Rattle.std.specs.Prelude.{◌≡◌, option_copied, position};
ghost use Rattle.std.specs.Str.{bytes_eq};
ghost use Rattle.convoy_draft.specs.declared.fault.ScenarioFault.TheVariants.{Memory};
ghost use Rattle.convoy_scenario.specs.Memory.{IsUnlessMemory};
ghost use Rattle.convoy_workflow_words.specs.declared.fault.WorkflowFault.TheVariants as workflow;
ghost use Rattle.convoy_workflows.specs.Origins.{cause_of_message, checked_origin, does_follow, origin_of};

use convoy_causes::{Cause, may_be_origin};
use convoy_scenario::{Name, Scenario};
use convoy_toml::WrittenMulticast;
use convoy_workflow_words::WorkflowFault;

/// What the message of that number follows, if it follows another.
fn cause_of_message(causes: &[Cause], message: usize) -> Option<&Cause>
    ensures { option_copied result ≡ cause_of_message causes.now message }
{
    causes.iter().find(|cause| cause.effect == message)
}

/// Whether a message follows the message `origin`, be it through others.
fn does_follow(causes: &[Cause], origin: usize, message: usize) -> bool
    ensures { result ≡ does_follow causes.now origin message }
{
    let mut at = message;
    let mut steps = causes.len();
    while 0 < steps {
        match cause_of_message(causes, at) {
            Some(cause) => {
                if cause.message == origin {
                    return true;
                }
                at = cause.message;
            }
            None => return false,
        }
        steps -= 1;
    }
    false
}

/// The number of the message of that name, if there is one.
fn message_named(multicasts: &[WrittenMulticast], name: &Name) -> Option<usize>
    ensures { result ≡ position (λ message. bytes_eq name.now message.name) multicasts.now }
{
    multicasts.iter().position(|m| name.is_same(&m.name))
}

/// The message, if the target follows it and there is room to know its issue. Fails also where memory runs out.
fn checked_origin(
    scenario: &Scenario,
    causes: &[Cause],
    message: usize,
) -> Result<usize, WorkflowFault>
    ensures { IsUnlessMemory (workflow.Scenario Memory) (checked_origin scenario.now causes.now message) result }
{
    if !does_follow(causes, message, scenario.target_message()) {
        return Err(WorkflowFault::UnknownOrigin);
    }
    if may_be_origin(scenario, message)? {
        Ok(message)
    } else {
        Err(WorkflowFault::OriginWaits)
    }
}

/// The number of the message from whose issue the time counts: the target, or the one of the name that is written. Fails also
/// where memory runs out.
pub(crate) fn origin_of(
    scenario: &Scenario,
    causes: &[Cause],
    multicasts: &[WrittenMulticast],
    name: &Option<Name>,
) -> Result<usize, WorkflowFault>
    ensures { IsUnlessMemory (workflow.Scenario Memory) (origin_of scenario.now causes.now multicasts.now name.now) result }
{
    match name {
        Some(name) => {
            let message = message_named(multicasts, name).ok_or(WorkflowFault::UnknownOrigin)?;
            checked_origin(scenario, causes, message)
        }
        None => Ok(scenario.target_message()),
    }
}
