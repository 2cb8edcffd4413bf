//! The ceilings of a placement.

ghost use Rattle.std.specs.Prelude.{◌≡◌, All, Ok, map, IfOk};
ghost use Rattle.convoy_plans.specs.Placements.{IsPlacement, scenario_at};
ghost use Rattle.convoy_best_order.specs.Excesses.{greater};
ghost use Rattle.convoy_best_order.specs.Targets.{MayBeTarget};
ghost use Rattle.convoy_plan_ceilings.specs.LeastCeilings.{IsCeilingChoice, row_at, worst_after, worst_of};

use super::ceiling_choice::CeilingChoice;
use super::target_ceiling::TargetCeiling;
use convoy_best_order::{Excess, Target, Wanted};
use convoy_best_plan::{Floor, targets_by, total_of};
use convoy_ceiling::ceiling;
use convoy_plans::Plan;
use convoy_scenario::Scenario;
use std::alloc::{AllocError, Global};

/// The choice of a placement, with the ceilings in its scenario. Fails where memory runs out, and else never.
pub(crate) fn choice_at(
    alloc: Global,
    plan: &Plan,
    wanted: Wanted,
    placement: Vec<usize>,
    scenario: Scenario,
) -> Result<CeilingChoice, AllocError>
    requires placement { IsPlacement plan.now placement.items }
    requires made { scenario_at plan.now placement.items ≡ Ok scenario }
    ensures choice { IfOk result (IsCeilingChoice wanted plan.now) }
    ensures scenario { IfOk result (λ choice. choice.scenario ≡ scenario) }
{
    let targets = targets_by(alloc, plan, wanted, &scenario)?;
    let rows = rows_at(alloc, &scenario, &targets)?;
    let least = worst_of(&rows);
    let ties = total_of(&scenario);
    Ok(CeilingChoice {
        placement,
        scenario,
        rows,
        reach: Floor { least, ties },
    })
}

/// The ceilings of some targets.
fn rows_at(
    alloc: Global,
    scenario: &Scenario,
    targets: &[Target],
) -> Result<Vec<TargetCeiling>, AllocError>
    requires { All (MayBeTarget scenario.now) targets.now }
    ensures { IfOk result (λ rows. rows.items ≡ map (row_at scenario.now) targets.now) }
{
    let mut rows = Vec::new(alloc);
    for target in targets {
        rows.push(row_at(scenario, *target))?;
    }
    Ok(rows)
}

/// A target with its ceiling.
fn row_at(scenario: &Scenario, target: Target) -> TargetCeiling
    requires { MayBeTarget scenario.now target }
    ensures { result ≡ row_at scenario.now target }
{
    TargetCeiling {
        target,
        ceiling: ceiling(scenario, target.message, target.group),
    }
}

/// The greatest excess of some ceilings; 0 where there are none.
pub(crate) fn worst_of(rows: &[TargetCeiling]) -> Excess
    ensures { result ≡ worst_of rows.now }
{
    match rows {
        [] => Excess {
            latency: 0,
            limit: 0,
        },
        [first, rest @ ..] => worst_after(first.excess(), rest),
    }
}

/// The greatest of one excess and those of some ceilings.
fn worst_after(worst: Excess, rows: &[TargetCeiling]) -> Excess
    ensures { result ≡ worst_after worst rows.now }
{
    let mut worst = worst;
    for row in rows {
        worst = greater(worst, row.excess());
    }
    worst
}

/// The greater of two.
fn greater(excess: Excess, other: Excess) -> Excess
    ensures { result ≡ greater excess other }
{
    if excess.is_less(other) { other } else { excess }
}
