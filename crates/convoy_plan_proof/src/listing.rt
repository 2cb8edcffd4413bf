ghost use Rattle.convoy_best_order.specs.Targets.{MayBeTarget};

use convoy_best_order::Target;
use convoy_packets::Instance;
use convoy_plan_checker::{instance_in, is_order, witness_order};
use convoy_scenario::Scenario;
use std::alloc::{AllocError, Global};

/// The scenario that asks for the latency of a target where of these groups all others are listed behind its own, and no more; none
/// where its own is none of these groups. Fails where memory runs out, and else never.
pub(crate) fn instance_beside(
    alloc: Global,
    scenario: &Scenario,
    target: Target,
    groups: &[usize],
) -> Result<Option<Instance>, AllocError>
    requires { MayBeTarget scenario.now target }
{
    let order = witness_order(alloc, scenario, groups, target.group)?;
    if !is_order(scenario, &order) {
        return Ok(None);
    }
    let instance = instance_in(alloc, scenario, target, &order)?;
    Ok(Some(instance))
}
