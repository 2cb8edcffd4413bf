ghost use Rattle.std.specs.Prelude.{◌≡◌, ◌<◌, ◌++◌, length, IfOk, OnOk, Some};
ghost use Rattle.std.specs.List.{All, flat_map};
ghost use Rattle.convoy_scenario.specs.Room.{HasRoom};
ghost use Rattle.convoy_scenario.specs.Scenario.{GoesTo, message_numbers};
ghost use Rattle.convoy_scenario.specs.Targets.{with_target};
ghost use Rattle.convoy_budget.specs.Budgets.{MayBeTarget, target_at, targets_at, targets_of, with_deadline};

use super::kinds::Target;
use convoy_commands::deadline_at;
use convoy_scenario::Scenario;
use std::alloc::{AllocError, Global};

/// The targets of a scenario that have deadlines, which are given by the numbers of their messages, in ticks: that of
/// which the latency is asked, or of all each message that may be the target, at each group that it goes to, in the order of
/// their numbers. Fails where memory runs out, and else never.
pub fn targets_of(
    alloc: Global,
    of_all: bool,
    deadlines: &[Option<u32>],
    scenario: &Scenario,
) -> Result<Vec<Target>, AllocError>
    ensures value { IfOk result (λ targets. targets.items ≡ targets_of of_all deadlines.now scenario.now) }
    ensures lawful { IfOk result (λ targets. All (MayBeTarget scenario.now) targets.items) }
{
    if of_all {
        return all_targets(alloc, deadlines, scenario);
    }
    let mut targets = Vec::new(alloc);
    let (message, group) = (scenario.target_message(), scenario.target_group());
    push_target(deadlines, scenario, message, group, &mut targets)?;
    Ok(targets)
}

/// All targets that have deadlines.
fn all_targets(
    alloc: Global,
    deadlines: &[Option<u32>],
    scenario: &Scenario,
) -> Result<Vec<Target>, AllocError>
    ensures value { IfOk result (λ targets. targets.items
        ≡ flat_map (targets_at deadlines.now scenario.now) (message_numbers scenario.now)) }
    ensures lawful { IfOk result (λ targets. All (MayBeTarget scenario.now) targets.items) }
{
    let mut targets = Vec::new(alloc);
    for message in 0..scenario.message_count() {
        push_message(deadlines, scenario, message, &mut targets)?;
    }
    Ok(targets)
}

/// Appends a message at each group that it goes to, if it has a deadline.
fn push_message(
    deadlines: &[Option<u32>],
    scenario: &Scenario,
    message: usize,
    targets: &mut Vec<Target>,
) -> Result<(), AllocError>
    requires known { message < length scenario.now.multicasts }
    requires lawful { All (MayBeTarget scenario.now) targets.old.items }
    ensures value { OnOk result (targets.new.items ≡ targets.old.items ++ targets_at deadlines.now scenario.now message) }
    ensures lawful { OnOk result (All (MayBeTarget scenario.now) targets.new.items) }
{
    for group in scenario.destinations(message) {
        push_target(deadlines, scenario, message, *group, targets)?;
    }
    Ok(())
}

/// Appends a message at a group that it goes to, if it has a deadline and may be the target.
fn push_target(
    deadlines: &[Option<u32>],
    scenario: &Scenario,
    message: usize,
    group: usize,
    targets: &mut Vec<Target>,
) -> Result<(), AllocError>
    requires known { message < length scenario.now.multicasts }
    requires addressed { GoesTo scenario.now message group }
    requires lawful { All (MayBeTarget scenario.now) targets.old.items }
    ensures value { OnOk result (targets.new.items ≡ targets.old.items ++ target_at deadlines.now scenario.now message group) }
    ensures lawful { OnOk result (All (MayBeTarget scenario.now) targets.new.items) }
{
    if !scenario.may_be_target(message) {
        return Ok(());
    }
    match deadline_at(deadlines, message) {
        Some(deadline) => push_with_deadline(scenario, message, group, deadline, targets),
        None => Ok(()),
    }
}

/// Appends a message that may be the target at a group that it goes to, with its deadline.
fn push_with_deadline(
    _scenario: &Scenario,
    message: usize,
    group: usize,
    deadline: u32,
    targets: &mut Vec<Target>,
) -> Result<(), AllocError>
    requires known { message < length _scenario.now.multicasts }
    requires addressed { GoesTo _scenario.now message group }
    requires room { HasRoom (with_target _scenario.now message group) }
    requires lawful { All (MayBeTarget _scenario.now) targets.old.items }
    ensures value { OnOk result (targets.new.items ≡ targets.old.items ++ with_deadline message group (Some deadline)) }
    ensures lawful { OnOk result (All (MayBeTarget _scenario.now) targets.new.items) }
{
    targets.push(Target {
        message,
        group,
        deadline,
    })?;
    Ok(())
}
