//! A walk over the nodes of a tree over placements.

ghost use Rattle.std.specs.Prelude.{◌≡◌, ◌&&◌, ◌∷◌, [], All, Some, is_none, IfOk};
ghost use Rattle.convoy_best_order.specs.Targets.{MayBeTarget};
ghost use Rattle.convoy_best_plan.specs.Leaves.{site_known};
ghost use Rattle.convoy_plans.specs.Plans.{is_apart};
ghost use Rattle.convoy_plan_checker.specs.Sites.{is_one_site, is_placed, no_sites};
ghost use Rattle.convoy_plan_checker.specs.Trees.{fault_of, first_fault, is_late_made, is_right, node_fault, scenario_over};

use super::claim::Claim;
use super::commits::is_late_anyhow;
use super::group_sites::{GroupSites, OpenSites};
use super::lateness::are_late;
use super::plan_refused::PlanRefused;
use convoy_best_plan::{site_known, targets_by, total_of};
use convoy_plan_certificate::{Branch, Witness};
use convoy_plans::{Plan, scenario_at};
use convoy_scenario::{Scenario, ScenarioFault};
use std::alloc::{AllocError, Global};

/// The first fault of the nodes as a tree over all placements.
pub(crate) fn first_fault(
    alloc: Global,
    plan: &Plan,
    claim: &Claim,
    nodes: &[Branch],
) -> Result<Option<PlanRefused>, AllocError>
    requires { All (MayBeTarget claim.now.scenario) claim.now.targets }
    ensures { IfOk result (λ fault. fault ≡ first_fault plan.now claim.now 0 (no_sites plan.now ∷ []) nodes.now) }
{
    let mut left = OpenSites::over(alloc, GroupSites::none(alloc, plan)?)?;
    for (number, node) in nodes.iter().enumerate() {
        let Some(sites) = left.next() else {
            return Ok(Some(PlanRefused::TreeCount));
        };
        let fault = node_fault(alloc, plan, claim, number, node, &sites)?;
        if fault.is_some() {
            return Ok(fault);
        }
        left.push_below(alloc, plan, node, &sites)?;
    }
    Ok((!left.is_empty()).then_some(PlanRefused::TreeCount))
}

/// The fault of the node of that number over some sites.
fn node_fault(
    alloc: Global,
    plan: &Plan,
    claim: &Claim,
    number: usize,
    node: &Branch,
    sites: &GroupSites,
) -> Result<Option<PlanRefused>, AllocError>
    requires { All (MayBeTarget claim.now.scenario) claim.now.targets }
    ensures { IfOk result (λ fault. fault ≡ node_fault plan.now claim.now number node.now sites.now) }
{
    if is_right(alloc, plan, claim, node, sites)? {
        return Ok(None);
    }
    Ok(Some(fault_of(node, number)))
}

/// What a node of that number is refused for.
fn fault_of(node: &Branch, number: usize) -> PlanRefused
    ensures { result ≡ fault_of node.now number }
{
    match node {
        Branch::Split(_) => PlanRefused::Split(number),
        Branch::Apart(..) => PlanRefused::Apart(number),
        Branch::Commit(_) => PlanRefused::Commit(number),
        Branch::NoScenario => PlanRefused::NoScenario(number),
        Branch::Late(_) => PlanRefused::Late(number),
    }
}

/// Whether the node is right over some sites.
fn is_right(
    alloc: Global,
    plan: &Plan,
    claim: &Claim,
    node: &Branch,
    sites: &GroupSites,
) -> Result<bool, AllocError>
    requires { All (MayBeTarget claim.now.scenario) claim.now.targets }
    ensures { IfOk result (λ right. right ≡ is_right plan.now claim.now node.now sites.now) }
{
    match node {
        Branch::Split(group) => Ok(sites.is_left(*group)),
        Branch::Apart(group, other) => Ok(is_crowded(plan, *group, *other, sites)),
        Branch::Commit(target) => Ok(is_commit_late(plan, claim, *target, sites)),
        Branch::NoScenario => is_unmade(alloc, plan, sites),
        Branch::Late(witnesses) => is_late_placed(alloc, plan, claim, witnesses, sites),
    }
}

/// Whether two groups that are to be apart are at one site.
fn is_crowded(plan: &Plan, group: usize, other: usize, sites: &GroupSites) -> bool
    ensures { result
        ≡ (is_apart plan.now group other && is_one_site (site_known sites.now group) (site_known sites.now other)) }
{
    let sites = sites.as_slice();
    plan.is_apart(group, other) && is_one_site(site_known(sites, group), site_known(sites, other))
}

/// Whether both sites are known, and are one.
fn is_one_site(site: Option<usize>, other: Option<usize>) -> bool
    ensures { result ≡ is_one_site site other }
{
    match (site, other) {
        (Some(site), Some(other)) => site == other,
        (Some(_), None) | (None, _) => false,
    }
}

/// Whether the target at a place is too late by its commit alone.
fn is_commit_late(plan: &Plan, claim: &Claim, place: usize, sites: &GroupSites) -> bool
    requires { All (MayBeTarget claim.now.scenario) claim.now.targets }
    ensures { result ≡ is_right plan.now claim.now (Branch.Commit place) sites.now }
{
    place < claim.targets.len()
        && is_late_anyhow(plan, claim, sites.as_slice(), claim.targets[place])
}

/// Whether each group has its site, and there is no scenario.
fn is_unmade(alloc: Global, plan: &Plan, sites: &GroupSites) -> Result<bool, AllocError>
    ensures { IfOk result (λ right. right ≡ (is_placed sites.now && is_none (scenario_over plan.now sites.now))) }
{
    if !sites.is_placed() {
        return Ok(false);
    }
    let made = scenario_over(alloc, plan, sites)?;
    Ok(made.is_none())
}

/// Whether each group has its site, and there is a scenario of which the witnesses show that no order of its groups is below
/// the floor.
fn is_late_placed(
    alloc: Global,
    plan: &Plan,
    claim: &Claim,
    witnesses: &[Witness],
    sites: &GroupSites,
) -> Result<bool, AllocError>
    ensures { IfOk result (λ right. right
        ≡ (is_placed sites.now && is_late_made plan.now claim.now witnesses.now (scenario_over plan.now sites.now))) }
{
    if !sites.is_placed() {
        return Ok(false);
    }
    match scenario_over(alloc, plan, sites)? {
        None => Ok(false),
        Some(scenario) => is_late_made(alloc, plan, claim, witnesses, &scenario),
    }
}

/// The scenario of the placement that has these sites, where each group has one, if there is one.
fn scenario_over(
    alloc: Global,
    plan: &Plan,
    sites: &GroupSites,
) -> Result<Option<Scenario>, AllocError>
    ensures { IfOk result (λ made. made ≡ scenario_over plan.now sites.now) }
{
    let placement = sites.placement(alloc)?;
    match scenario_at(alloc, plan, &placement) {
        Ok(scenario) => Ok(Some(scenario)),
        Err(ScenarioFault::Memory) => Err(AllocError),
        Err(_) => Ok(None),
    }
}

/// Whether the witnesses show that no order of the groups of a scenario is below the floor.
fn is_late_made(
    alloc: Global,
    plan: &Plan,
    claim: &Claim,
    witnesses: &[Witness],
    scenario: &Scenario,
) -> Result<bool, AllocError>
    ensures { IfOk result (λ late. late ≡ is_late_made plan.now claim.now witnesses.now (Some scenario.now)) }
{
    let wanted = claim.wanted();
    let floor = claim.floor();
    let targets = targets_by(alloc, plan, wanted, scenario)?;
    let total = total_of(scenario);
    are_late(alloc, scenario, &targets, floor, total, witnesses)
}
