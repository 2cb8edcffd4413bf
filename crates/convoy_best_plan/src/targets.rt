//! For which targets the order of a placement's groups is to be the best.

ghost use Rattle.std.specs.Prelude.{◌≡◌, ◌<◌, length, All, IfOk};
ghost use Rattle.convoy_best_order.specs.Targets.{MayBeTarget};
ghost use Rattle.convoy_best_plan.specs.BestPlans.{targets_by};

use convoy_best_order::{Target, Wanted, counted, targets_of};
use convoy_plans::Plan;
use convoy_scenario::Scenario;
use std::alloc::{AllocError, Global};

/// The targets of a scenario of the plan that count: where one of them has a deadline those that have one, and else all.
/// Fails where memory runs out, and else never.
pub fn targets_by(
    alloc: Global,
    plan: &Plan,
    wanted: Wanted,
    scenario: &Scenario,
) -> Result<Vec<Target>, AllocError>
    ensures value { IfOk result (λ targets. targets.items ≡ targets_by wanted plan.now scenario.now) }
    ensures some { IfOk result (λ targets. 0 < length targets.items) }
    ensures lawful { IfOk result (λ targets. All (MayBeTarget scenario.now) targets.items) }
{
    let targets = targets_of(alloc, wanted, plan.deadlines(), scenario)?;
    let counting = counted(alloc, &targets)?;
    Ok(counting)
}
