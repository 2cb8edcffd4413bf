//! Why no order of the groups of a placement's scenario is below the floor: some targets at different groups, each so late where
//! the groups of the others stand behind its own.

ghost use Rattle.std.specs.Prelude.{◌<◌, length, All, IfSome};
ghost use Rattle.convoy_best_order.specs.Targets.{MayBeTarget};

use super::claim::Claim;
use super::listing::instance_beside;
use super::seeking::{searched, sought};
use super::witnessing::witness_of;
use convoy_best_order::{Reason, Target, best_order};
use convoy_best_plan::{targets_by, total_of};
use convoy_commands::Watch;
use convoy_plan_certificate::Witness;
use convoy_scenario::Scenario;
use std::alloc::{AllocError, Global};
use std::sync::Wait;
use std::thread::Threads;

/// How many schedules are simulated at most for a target to begin with.
const FEW_SIMULATIONS: u64 = 300;

/// How many are simulated at most before the best order of the groups is searched.
const MORE_SIMULATIONS: u64 = 3000;

/// Why no order of the groups of a placement's scenario is below the floor, where that is found: by a target alone, of which a
/// schedule is sought, and else by a search for the best order. The target at the place `served` is tried first, and is the one
/// that served last from there on. Fails where memory runs out, and else never.
pub(crate) fn witnesses_at<R: Threads + Wait + Sync, W: Watch + Sync>(
    rt: &R,
    alloc: Global,
    claim: &Claim,
    scenario: &Scenario,
    served: &mut usize,
    watches: &[W],
) -> Result<Option<Vec<Witness>>, AllocError>
    requires watched { 0 < length watches.now }
{
    // A scenario is well formed.
    let _count = scenario.group_count();
    let targets = targets_by(alloc, claim.plan, claim.wanted, scenario)?;
    let few = some_alone(alloc, claim, scenario, &targets, FEW_SIMULATIONS, served)?;
    if few.is_some() {
        return Ok(few);
    }
    let more = some_alone(alloc, claim, scenario, &targets, MORE_SIMULATIONS, served)?;
    if more.is_some() {
        return Ok(more);
    }
    by_best_order(rt, alloc, claim, scenario, &targets, watches)
}

/// A target that shows it alone, by so many simulations for each at most.
fn some_alone(
    alloc: Global,
    claim: &Claim,
    scenario: &Scenario,
    targets: &[Target],
    simulations: u64,
    served: &mut usize,
) -> Result<Option<Vec<Witness>>, AllocError>
    requires { All (MayBeTarget scenario.now) targets.now }
{
    let first = *served;
    if first < targets.len() {
        let found = alone(alloc, claim, scenario, targets, first, simulations)?;
        if found.is_some() {
            return Ok(found);
        }
    }
    for place in 0..targets.len() {
        if place != first {
            let found = alone(alloc, claim, scenario, targets, place, simulations)?;
            if found.is_some() {
                *served = place;
                return Ok(found);
            }
        }
    }
    Ok(None)
}

/// The target at this place alone, if it shows it.
fn alone(
    alloc: Global,
    claim: &Claim,
    scenario: &Scenario,
    targets: &[Target],
    place: usize,
    simulations: u64,
) -> Result<Option<Vec<Witness>>, AllocError>
    requires lawful { All (MayBeTarget scenario.now) targets.now }
    requires known { place < length targets.now }
{
    let (target, total) = (targets[place], total_of(scenario));
    let Some(instance) = instance_beside(alloc, scenario, target, &[target.group])? else {
        return Ok(None);
    };
    match sought(alloc, claim, &instance, target, total, simulations)? {
        Some(schedule) => {
            let witness = witness_of(alloc, &instance, place, &schedule)?;
            Ok(Some(vec![in alloc; witness]?))
        }
        None => Ok(None),
    }
}

/// A schedule for each of the reasons why no order of the groups is better than the best one; nothing where there is no reason,
/// or no schedule for one.
fn by_best_order<R: Threads + Wait + Sync, W: Watch + Sync>(
    rt: &R,
    alloc: Global,
    claim: &Claim,
    scenario: &Scenario,
    targets: &[Target],
    watches: &[W],
) -> Result<Option<Vec<Witness>>, AllocError>
    requires watched { 0 < length watches.now }
    requires some { 0 < length targets.now }
    requires lawful { All (MayBeTarget scenario.now) targets.now }
{
    let best = best_order(rt, alloc, None, scenario, targets, claim.options, watches)?;
    if best.reasons.is_empty() {
        return Ok(None);
    }
    let groups = groups_of(alloc, &best.reasons)?;
    let mut witnesses = Vec::new(alloc);
    for reason in &best.reasons {
        let Some(place) = place_of(targets, reason.target) else {
            return Ok(None);
        };
        match beside(
            rt,
            alloc,
            claim,
            scenario,
            targets,
            &groups,
            place,
            &watches[0],
        )? {
            Some(witness) => witnesses.push(witness)?,
            None => return Ok(None),
        }
    }
    Ok(Some(witnesses))
}

/// The groups at which the targets of some reasons are.
fn groups_of(alloc: Global, reasons: &[Reason]) -> Result<Vec<usize>, AllocError> {
    let mut groups = Vec::new(alloc);
    for reason in reasons {
        groups.push(reason.target.group)?;
    }
    Ok(groups)
}

/// The place of a target among some.
fn place_of(targets: &[Target], target: Target) -> Option<usize>
    ensures { IfSome result (λ place. place < length targets.now) }
{
    for place in 0..targets.len() {
        if targets[place].message == target.message && targets[place].group == target.group {
            return Some(place);
        }
    }
    None
}

/// The target at this place, if a search shows it where the others of these groups are listed behind its own.
fn beside<R: Threads + Wait + Sync, W: Watch + Sync>(
    rt: &R,
    alloc: Global,
    claim: &Claim,
    scenario: &Scenario,
    targets: &[Target],
    groups: &[usize],
    place: usize,
    watch: &W,
) -> Result<Option<Witness>, AllocError>
    requires lawful { All (MayBeTarget scenario.now) targets.now }
    requires known { place < length targets.now }
{
    let (target, total) = (targets[place], total_of(scenario));
    let Some(instance) = instance_beside(alloc, scenario, target, groups)? else {
        return Ok(None);
    };
    match searched(rt, alloc, claim, &instance, target, total, watch)? {
        Some(schedule) => Ok(Some(witness_of(alloc, &instance, place, &schedule)?)),
        None => Ok(None),
    }
}
