//! Whether schedules show that no order of a scenario's groups is below an excess.

ghost use Rattle.std.specs.Prelude.{◌≡◌, ◌++◌, All, IsTrue, Ok, IfOk, OnOk};
ghost use Rattle.std.specs.List.{list_all, range_with_len};
ghost use Rattle.convoy_plans.specs.Plans.{has};
ghost use Rattle.convoy_best_order.specs.Orders.{IsOrder, listed};
ghost use Rattle.convoy_best_order.specs.Targets.{MayBeTarget, asked_of};
ghost use Rattle.convoy_best_plan.specs.Floors.{excess_at};
ghost use Rattle.convoy_plan_checker.specs.Lateness.{are_late, is_late, is_late_in, is_order, is_past, latency_in, others, target_at, without, witness_groups, witness_order};

use convoy_best_order::{Target, listed};
use convoy_best_plan::Floor;
use convoy_packets::Instance;
use convoy_plan_certificate::Witness;
use convoy_scenario::Scenario;
use std::alloc::{AllocError, Global};

/// Whether each group of a scenario is among these, and no more are than there are groups: an order of the groups.
pub fn is_order(scenario: &Scenario, order: &[usize]) -> bool
    ensures value { result ≡ is_order scenario.now order.now }
    ensures lawful { IsTrue result → IsOrder scenario.now order.now }
{
    has_each_once(scenario, order)
}

/// The same, as a test.
fn has_each_once(scenario: &Scenario, order: &[usize]) -> bool
    ensures { result ≡ is_order scenario.now order.now }
{
    let count = scenario.group_count();
    order.len() == count && has_all(count, order)
}

/// Whether so many groups are all among these.
fn has_all(count: usize, order: &[usize]) -> bool
    ensures { result ≡ list_all (λ g. has g order.now) (range_with_len 0 count) }
{
    (0..count).all(|group| order.contains(&group))
}

/// The groups of a scenario with a group behind those that are none of these, and the others of these behind it. Fails where
/// memory runs out, and else never.
pub fn witness_order(
    alloc: Global,
    scenario: &Scenario,
    groups: &[usize],
    group: usize,
) -> Result<Vec<usize>, AllocError>
    ensures { IfOk result (λ order. order.items ≡ witness_order scenario.now groups.now group) }
{
    let mut order = others(alloc, scenario, groups)?;
    order.push(group)?;
    push_without(groups, group, &mut order)?;
    Ok(order)
}

/// The groups of a scenario that are none of these.
fn others(alloc: Global, scenario: &Scenario, groups: &[usize]) -> Result<Vec<usize>, AllocError>
    ensures { IfOk result (λ left. left.items ≡ others scenario.now groups.now) }
{
    let count = scenario.group_count();
    let mut left = Vec::new(alloc);
    for group in 0..count {
        if !groups.contains(&group) {
            left.push(group)?;
        }
    }
    Ok(left)
}

/// Appends these groups without one.
fn push_without(groups: &[usize], group: usize, order: &mut Vec<usize>) -> Result<(), AllocError>
    ensures { OnOk result (order.new.items ≡ order.old.items ++ without groups.now group) }
{
    for other in groups {
        if *other != group {
            order.push(*other)?;
        }
    }
    Ok(())
}

/// The target at a place, or none.
pub(crate) fn target_at(targets: &[Target], place: usize) -> Target
    ensures { result ≡ target_at targets.now place }
{
    match targets.get(place) {
        Some(target) => *target,
        None => Target {
            message: 0,
            group: 0,
            deadline: None,
        },
    }
}

/// The groups of the targets of some witnesses.
fn witness_groups(
    alloc: Global,
    targets: &[Target],
    witnesses: &[Witness],
) -> Result<Vec<usize>, AllocError>
    ensures { IfOk result (λ groups. groups.items ≡ witness_groups targets.now witnesses.now) }
{
    let mut groups = Vec::new(alloc);
    for witness in witnesses {
        let target = target_at(targets, witness.target);
        groups.push(target.group)?;
    }
    Ok(groups)
}

/// Whether there is a witness, and each of them shows that a target is below no floor, with such a total, where the groups of
/// the others are listed behind its own. Fails where memory runs out, and else never.
pub(crate) fn are_late(
    alloc: Global,
    scenario: &Scenario,
    targets: &[Target],
    floor: Floor,
    total: u64,
    witnesses: &[Witness],
) -> Result<bool, AllocError>
    requires { All (MayBeTarget scenario.now) targets.now }
    ensures { IfOk result (λ late. late ≡ are_late scenario.now targets.now (excess_at floor total) witnesses.now) }
{
    let groups = witness_groups(alloc, targets, witnesses)?;
    if witnesses.is_empty() {
        return Ok(false);
    }
    all_late(alloc, scenario, targets, floor, total, &groups, witnesses)
}

/// Whether each of some witnesses shows it of its target beside those of these groups.
fn all_late(
    alloc: Global,
    scenario: &Scenario,
    targets: &[Target],
    floor: Floor,
    total: u64,
    groups: &[usize],
    witnesses: &[Witness],
) -> Result<bool, AllocError>
    requires { All (MayBeTarget scenario.now) targets.now }
    ensures { IfOk result (λ late. late
        ≡ list_all (is_late scenario.now targets.now (excess_at floor total) groups.now) witnesses.now) }
{
    for witness in witnesses {
        if !is_late(alloc, scenario, targets, floor, total, groups, witness)? {
            return Ok(false);
        }
    }
    Ok(true)
}

/// Whether a witness shows it of its target beside those of these groups.
fn is_late(
    alloc: Global,
    scenario: &Scenario,
    targets: &[Target],
    floor: Floor,
    total: u64,
    groups: &[usize],
    witness: &Witness,
) -> Result<bool, AllocError>
    requires { All (MayBeTarget scenario.now) targets.now }
    ensures { IfOk result (λ late. late ≡ is_late scenario.now targets.now (excess_at floor total) groups.now witness.now) }
{
    if witness.target >= targets.len() {
        return Ok(false);
    }
    let target = targets[witness.target];
    let order = witness_order(alloc, scenario, groups, target.group)?;
    is_late_in(alloc, scenario, floor, total, target, &order, witness)
}

/// Whether it shows it of a target with the groups in that order.
fn is_late_in(
    alloc: Global,
    scenario: &Scenario,
    floor: Floor,
    total: u64,
    target: Target,
    order: &[usize],
    witness: &Witness,
) -> Result<bool, AllocError>
    requires { MayBeTarget scenario.now target }
    ensures { IfOk result (λ late. late ≡ is_late_in scenario.now (excess_at floor total) target order.now witness.now) }
{
    if !is_order(scenario, order) {
        return Ok(false);
    }
    let latency = latency_in(alloc, scenario, target, order, witness)?;
    Ok(is_past(floor, total, target, latency))
}

/// The latency of the schedule of a witness with the groups in that order, if it is one there.
fn latency_in(
    alloc: Global,
    scenario: &Scenario,
    target: Target,
    order: &[usize],
    witness: &Witness,
) -> Result<Option<u32>, AllocError>
    requires may { MayBeTarget scenario.now target }
    requires order { IsOrder scenario.now order.now }
    ensures { IfOk result (λ latency. latency ≡ latency_in (listed (asked_of scenario.now target) order.now) witness.now) }
{
    let instance = instance_in(alloc, scenario, target, order)?;
    let schedule = witness.schedule(alloc, &instance)?;
    match schedule {
        None => Ok(None),
        Some(schedule) => Ok(Some(convoy_sim::latency(&instance, &schedule))),
    }
}

/// The scenario that asks for the latency of a target with the groups in that order. Fails where memory runs out, and else
/// never.
pub fn instance_in(
    alloc: Global,
    scenario: &Scenario,
    target: Target,
    order: &[usize],
) -> Result<Instance, AllocError>
    requires may { MayBeTarget scenario.now target }
    requires order { IsOrder scenario.now order.now }
    ensures { IfOk result (λ instance. listed (asked_of scenario.now target) order.now ≡ Ok instance) }
{
    let asked = scenario.with_target(target.message, target.group)?;
    let other = listed(alloc, &asked, order)?;
    let instance = Instance::of(alloc, other)?;
    Ok(instance)
}

/// Whether a latency of the target, if there is one, is below no floor, with such a total.
pub(crate) fn is_past(floor: Floor, total: u64, target: Target, latency: Option<u32>) -> bool
    ensures { result ≡ is_past (excess_at floor total) target latency }
{
    match latency {
        None => false,
        Some(latency) => {
            let more = u64::from(total < floor.ties);
            let limit = target.deadline.unwrap_or(0);
            u64::from(floor.least.latency) + more + u64::from(limit)
                <= u64::from(latency) + u64::from(floor.least.limit)
        }
    }
}
