ghost use Rattle.std.specs.Prelude.{◌≡◌, ◌<◌, [], ◌∷◌, ◌++◌, length, IfOk, OnOk};
ghost use Rattle.std.specs.List.{All, flat_map, list_any};
ghost use Rattle.convoy_scenario.specs.Room.{HasRoom};
ghost use Rattle.convoy_scenario.specs.Scenario.{GoesTo, message_numbers};
ghost use Rattle.convoy_scenario.specs.Targets.{with_target};
ghost use Rattle.convoy_best_order.specs.Targets.{MayBeTarget, are_judged, counted, has_target, is_at, many_targets, or_asked, target_at, target_with, targets_at, targets_of, uncounted};

use super::target::Target;
use super::wanted::Wanted;
use convoy_commands::deadline_at;
use convoy_scenario::Scenario;
use std::alloc::{AllocError, Global};

/// The targets for which an order is to be the best, by the deadlines of the messages, in ticks: those messages that are
/// wanted and may be the target, at each group that they go to, in the order of their numbers; and where there
/// are none, the target of which the latency is asked. Fails where memory runs out, and else never.
pub fn targets_of(
    alloc: Global,
    wanted: Wanted,
    deadlines: &[Option<u32>],
    scenario: &Scenario,
) -> Result<Vec<Target>, AllocError>
    ensures value { IfOk result (λ targets. targets.items ≡ targets_of wanted deadlines.now scenario.now) }
    ensures some { IfOk result (λ targets. 0 < length targets.items) }
    ensures lawful { IfOk result (λ targets. All (MayBeTarget scenario.now) targets.items) }
{
    let targets = many_targets(alloc, wanted, deadlines, scenario)?;
    if targets.is_empty() {
        return asked_target(alloc, deadlines, scenario);
    }
    Ok(targets)
}

/// The target of which the latency is asked, alone.
fn asked_target(
    alloc: Global,
    deadlines: &[Option<u32>],
    scenario: &Scenario,
) -> Result<Vec<Target>, AllocError>
    ensures value { IfOk result (λ targets. targets.items ≡ or_asked deadlines.now scenario.now []) }
    ensures lawful { IfOk result (λ targets. All (MayBeTarget scenario.now) targets.items) }
{
    let (message, group) = (scenario.target_message(), scenario.target_group());
    let mut targets = Vec::new(alloc);
    targets.push(target_with(deadlines, message, group))?;
    Ok(targets)
}

/// The messages that are wanted at their groups.
fn many_targets(
    alloc: Global,
    wanted: Wanted,
    deadlines: &[Option<u32>],
    scenario: &Scenario,
) -> Result<Vec<Target>, AllocError>
    ensures value { IfOk result (λ targets. targets.items ≡ many_targets wanted deadlines.now scenario.now) }
    ensures lawful { IfOk result (λ targets. All (MayBeTarget scenario.now) targets.items) }
{
    let mut targets = Vec::new(alloc);
    for message in 0..scenario.message_count() {
        push_message(wanted, deadlines, scenario, message, &mut targets)?;
    }
    Ok(targets)
}

/// Appends a message at each group that it goes to, unless it may wait or is not wanted.
fn push_message(
    wanted: Wanted,
    deadlines: &[Option<u32>],
    scenario: &Scenario,
    message: usize,
    targets: &mut Vec<Target>,
) -> Result<(), AllocError>
    requires known { message < length scenario.now.multicasts }
    requires lawful { All (MayBeTarget scenario.now) targets.old.items }
    ensures value { OnOk result (targets.new.items ≡ targets.old.items ++ targets_at wanted deadlines.now scenario.now message) }
    ensures lawful { OnOk result (All (MayBeTarget scenario.now) targets.new.items) }
{
    for group in scenario.destinations(message) {
        push_target(wanted, deadlines, scenario, message, *group, targets)?;
    }
    Ok(())
}

/// Appends a message at a group that it goes to, if it may be the target and is wanted.
fn push_target(
    wanted: Wanted,
    deadlines: &[Option<u32>],
    scenario: &Scenario,
    message: usize,
    group: usize,
    targets: &mut Vec<Target>,
) -> Result<(), AllocError>
    requires known { message < length scenario.now.multicasts }
    requires addressed { GoesTo scenario.now message group }
    requires lawful { All (MayBeTarget scenario.now) targets.old.items }
    ensures value { OnOk result (targets.new.items ≡ targets.old.items ++ target_at wanted deadlines.now scenario.now message group) }
    ensures lawful { OnOk result (All (MayBeTarget scenario.now) targets.new.items) }
{
    if scenario.may_be_target(message) && wanted.is_wanted(deadline_at(deadlines, message)) {
        return push_wanted(deadlines, scenario, message, group, targets);
    }
    Ok(())
}

/// Appends a message that may be the target at a group that it goes to.
fn push_wanted(
    deadlines: &[Option<u32>],
    _scenario: &Scenario,
    message: usize,
    group: usize,
    targets: &mut Vec<Target>,
) -> Result<(), AllocError>
    requires known { message < length _scenario.now.multicasts }
    requires addressed { GoesTo _scenario.now message group }
    requires room { HasRoom (with_target _scenario.now message group) }
    requires lawful { All (MayBeTarget _scenario.now) targets.old.items }
    ensures value { OnOk result (targets.new.items ≡ targets.old.items ++ target_with deadlines.now message group ∷ []) }
    ensures lawful { OnOk result (All (MayBeTarget _scenario.now) targets.new.items) }
{
    targets.push(target_with(deadlines, message, group))?;
    Ok(())
}

/// A message at a group, with its deadline if it has one.
fn target_with(deadlines: &[Option<u32>], message: usize, group: usize) -> Target
    ensures { result ≡ target_with deadlines.now message group }
{
    Target {
        message,
        group,
        deadline: deadline_at(deadlines, message),
    }
}

/// Whether one of these targets is at the group.
pub(crate) fn has_target(targets: &[Target], group: usize) -> bool
    ensures { result ≡ has_target targets.now group }
{
    targets.iter().any(|target| target.group == group)
}

/// Whether one of these targets has a deadline.
pub fn are_judged(targets: &[Target]) -> bool
    ensures { result ≡ are_judged targets.now }
{
    targets.iter().any(|target| target.deadline.is_some())
}

/// Those of some targets that count: where one of them has a deadline those that have one, and else all.
pub fn counted(alloc: Global, targets: &[Target]) -> Result<Vec<Target>, AllocError>
    ensures { IfOk result (λ kept. kept.items ≡ counted targets.now) }
{
    let is_judged = are_judged(targets);
    let mut kept = Vec::new(alloc);
    for target in targets {
        if target.counts(is_judged) {
            kept.push(*target)?;
        }
    }
    Ok(kept)
}

/// The others.
pub(crate) fn uncounted(alloc: Global, targets: &[Target]) -> Result<Vec<Target>, AllocError>
    ensures { IfOk result (λ kept. kept.items ≡ uncounted targets.now) }
{
    let is_judged = are_judged(targets);
    let mut kept = Vec::new(alloc);
    for target in targets {
        if !target.counts(is_judged) {
            kept.push(*target)?;
        }
    }
    Ok(kept)
}
