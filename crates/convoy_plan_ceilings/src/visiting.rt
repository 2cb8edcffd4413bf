//! One placement of the groups.

ghost use Rattle.std.specs.Prelude.{◌≡◌, Ok, IfOk};
ghost use Rattle.convoy_plans.specs.Placements.{IsPlacement, scenario_at};
ghost use Rattle.convoy_plan_ceilings.specs.Standings.{HasFallen, IsPassed, IsStanding};

use super::learning::learn;
use super::measuring::choice_at;
use super::standing::{Standing, better_of};
use convoy_best_order::Wanted;
use convoy_best_plan::scenario_if_made;
use convoy_plans::Plan;
use convoy_scenario::Scenario;
use std::alloc::{AllocError, Global};

/// Looks at a placement: it is the best choice from there on where it is better than the one so far. Fails where memory
/// runs out, and else never.
pub(crate) fn visit(
    alloc: Global,
    plan: &Plan,
    wanted: Wanted,
    placement: Vec<usize>,
    standing: Standing,
) -> Result<Standing, AllocError>
    requires placement { IsPlacement plan.now placement.items }
    requires standing { IsStanding wanted plan.now standing }
    ensures standing { IfOk result (IsStanding wanted plan.now) }
    ensures fallen { IfOk result (λ next. HasFallen standing.chosen next.chosen) }
    ensures passed { IfOk result (λ next. IsPassed wanted plan.now next.chosen placement.items) }
{
    match scenario_if_made(alloc, plan, &placement)? {
        Some(scenario) => visit_scenario(alloc, plan, wanted, placement, scenario, standing),
        None => Ok(standing),
    }
}

/// The same of a placement with its scenario.
fn visit_scenario(
    alloc: Global,
    plan: &Plan,
    wanted: Wanted,
    placement: Vec<usize>,
    scenario: Scenario,
    standing: Standing,
) -> Result<Standing, AllocError>
    requires placement { IsPlacement plan.now placement.items }
    requires made { scenario_at plan.now placement.items ≡ Ok scenario }
    requires standing { IsStanding wanted plan.now standing }
    ensures standing { IfOk result (IsStanding wanted plan.now) }
    ensures fallen { IfOk result (λ next. HasFallen standing.chosen next.chosen) }
    ensures passed { IfOk result (λ next. IsPassed wanted plan.now next.chosen placement.items) }
{
    let Standing { chosen, leasts } = standing;
    let mut leasts = leasts;
    learn(plan, &placement, &scenario, &mut leasts);
    let found = choice_at(alloc, plan, wanted, placement, scenario)?;
    Ok(Standing {
        chosen: Some(better_of(chosen, found)),
        leasts,
    })
}
