//! The scenario in which the issue of a message is known.

ghost use Rattle.std.specs.Prelude.{◌≡◌, ◌<◌, length, IfOk, IfSome};
ghost use Rattle.std.specs.Option.{is_some};
ghost use Rattle.convoy_scenario.specs.Scenario.{GoesTo};
ghost use Rattle.convoy_causes.specs.CauseWindows.{has_room_from, may_be_origin, scenario_from};

use convoy_scenario::Scenario;
use std::alloc::AllocError;

/// The scenario in which the issue of a message is known: that is issued at the end of its window, and each other message
/// may wait longer by as much as it might (docs/PROTOCOL.md, "Messages that follow others"). None where that one is not
/// within the limits of scenarios. The error is that memory ran out.
pub(crate) fn scenario_from(
    scenario: &Scenario,
    message: usize,
) -> Result<Option<Scenario>, AllocError>
    requires { message < length scenario.now.multicasts }
    ensures some { IfOk result (λ found. IfSome found (λ known. known ≡ scenario_from scenario.now message)) }
    ensures room { IfOk result (λ found. is_some found ≡ has_room_from scenario.now message) }
{
    if !scenario.may_be_target(message) {
        return Ok(None);
    }
    let asked = scenario.with_target(message, first_destination(scenario, message))?;
    let moved = asked.widened()?;
    let (target, group) = (scenario.target_message(), scenario.target_group());
    if !moved.may_be_target(target) {
        return Ok(None);
    }
    let known = moved.with_target(target, group)?;
    Ok(Some(known))
}

/// Whether there is a message of that number, and room to know its issue: the scenario in which it is known is within the
/// limits of scenarios, as it always is for the target. The error is that memory ran out.
pub fn may_be_origin(scenario: &Scenario, message: usize) -> Result<bool, AllocError>
    ensures { IfOk result (λ may. may ≡ may_be_origin scenario.now message) }
{
    if message < scenario.message_count() {
        has_room_from(scenario, message)
    } else {
        Ok(false)
    }
}

/// Whether there is room to know the issue of a message.
fn has_room_from(scenario: &Scenario, message: usize) -> Result<bool, AllocError>
    requires { message < length scenario.now.multicasts }
    ensures { IfOk result (λ has. has ≡ has_room_from scenario.now message) }
{
    Ok(scenario_from(scenario, message)?.is_some())
}

/// The first group to which a message goes.
fn first_destination(scenario: &Scenario, message: usize) -> usize
    requires { message < length scenario.now.multicasts }
    ensures { GoesTo scenario.now message result }
{
    let destinations = scenario.destinations(message);
    destinations[0]
}
