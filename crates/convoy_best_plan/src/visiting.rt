//! One placement of the groups.

ghost use Rattle.std.specs.Prelude.{◌≡◌, All, IsTrue, Ok, IfNone, IfOk, IfSome, OnOk, ◌<◌, length};
ghost use Rattle.convoy_plans.specs.Placements.{IsPlacement, scenario_at};
ghost use Rattle.convoy_best_order.specs.Targets.{MayBeTarget};
ghost use Rattle.convoy_best_plan.specs.BestPlans.{HasNoScenario, IsNew};
ghost use Rattle.convoy_best_plan.specs.Standings.{HasFallen, IsOutdone, IsPassed, IsStanding};

use super::excluding::is_exceeded;
use super::judging::{best_found, choice_of};
use super::planned::Planned;
use super::standing::Standing;
use super::targets::targets_by;
use super::totals::total_of;
use convoy_best_order::best_order_laws::no_order_is_better;
use convoy_best_order::{Target, Wanted};
use convoy_branch::Options;
use convoy_commands::Watch;
use convoy_plans::{Plan, scenario_at};
use convoy_scenario::{Scenario, ScenarioFault};
use std::alloc::{AllocError, Global};
use std::sync::Wait;
use std::thread::Threads;

/// Looks at a placement: it is the best choice from there on where it is better than the one so far. Fails where memory
/// runs out, and else never.
pub(crate) fn visit<R: Threads + Wait + Sync, W: Watch + Sync>(
    rt: &R,
    alloc: Global,
    plan: &Plan,
    wanted: Wanted,
    told: &[Planned],
    placement: Vec<usize>,
    standing: Standing,
    options: &Options,
    watches: &[W],
) -> Result<Standing, AllocError>
    requires watched { 0 < length watches.now }
    requires placement { IsPlacement plan.now placement.items }
    requires new { IsNew told.now placement.items }
    requires standing { IsStanding options.now wanted plan.now told.now standing.chosen }
    ensures standing { IfOk result (λ next. IsStanding options.now wanted plan.now told.now next.chosen) }
    ensures fallen { IfOk result (λ next. HasFallen standing.chosen next.chosen) }
    ensures passed { IfOk result (λ next. IsPassed wanted plan.now next.chosen placement.items) }
{
    match scenario_if_made(alloc, plan, &placement)? {
        Some(scenario) => visit_scenario(
            rt, alloc, plan, wanted, told, placement, scenario, standing, options, watches,
        ),
        None => Ok(standing),
    }
}

/// The scenario of a placement, if there is one. Fails where memory runs out, and else never.
pub fn scenario_if_made(
    alloc: Global,
    plan: &Plan,
    placement: &[usize],
) -> Result<Option<Scenario>, AllocError>
    ensures some { IfOk result (λ made. IfSome made (λ scenario. scenario_at plan.now placement.now ≡ Ok scenario)) }
    ensures none { IfOk result (λ made. IfNone made (HasNoScenario plan.now placement.now)) }
{
    match scenario_at(alloc, plan, placement) {
        Ok(scenario) => Ok(Some(scenario)),
        Err(ScenarioFault::Memory) => Err(AllocError),
        Err(_) => Ok(None),
    }
}

/// The same of a placement with its scenario.
fn visit_scenario<R: Threads + Wait + Sync, W: Watch + Sync>(
    rt: &R,
    alloc: Global,
    plan: &Plan,
    wanted: Wanted,
    told: &[Planned],
    placement: Vec<usize>,
    scenario: Scenario,
    standing: Standing,
    options: &Options,
    watches: &[W],
) -> Result<Standing, AllocError>
    requires watched { 0 < length watches.now }
    requires placement { IsPlacement plan.now placement.items }
    requires new { IsNew told.now placement.items }
    requires made { scenario_at plan.now placement.items ≡ Ok scenario }
    requires standing { IsStanding options.now wanted plan.now told.now standing.chosen }
    ensures standing { IfOk result (λ next. IsStanding options.now wanted plan.now told.now next.chosen) }
    ensures fallen { IfOk result (λ next. HasFallen standing.chosen next.chosen) }
    ensures passed { IfOk result (λ next. IsPassed wanted plan.now next.chosen placement.items) }
{
    no_order_is_better();
    // A scenario is well formed.
    let _count = scenario.group_count();
    let targets = targets_by(alloc, plan, wanted, &scenario)?;
    let mut standing = standing;
    let outdone = is_past_here(alloc, &scenario, &targets, &mut standing)?;
    if outdone {
        return Ok(standing);
    }
    let best = best_found(rt, alloc, &scenario, &targets, options, watches)?;
    let found = choice_of(placement, scenario, targets, best);
    Ok(standing.with(found))
}

/// Whether surely no order of the groups of a scenario is better than the best choice so far, by a schedule of one of its
/// targets. Fails where memory runs out, and else never.
fn is_past_here(
    alloc: Global,
    scenario: &Scenario,
    targets: &[Target],
    standing: &mut Standing,
) -> Result<bool, AllocError>
    requires { All (MayBeTarget scenario.now) targets.now }
    ensures outdone { IfOk result (λ is. IsTrue is → IsOutdone standing.old.chosen scenario.now targets.now) }
    ensures chosen { OnOk result (standing.new.chosen ≡ standing.old.chosen) }
{
    match &standing.chosen {
        None => Ok(false),
        Some(planned) => {
            let reach = planned.reach();
            let total = total_of(scenario);
            let exceeded = is_exceeded(
                alloc,
                scenario,
                targets,
                reach,
                total,
                &mut standing.served,
            )?;
            Ok(exceeded)
        }
    }
}
