//! A target with its group listed last.

ghost use Rattle.std.specs.Prelude.{◌≡◌, ◌<◌, ◌++◌, ◌∷◌, [], length, slice_index_or, IfOk};
ghost use Rattle.std.specs.List.{range_with_len, remove};
ghost use Rattle.convoy_best_order.specs.Targets.{MayBeTarget};
ghost use Rattle.convoy_best_plan.specs.Witnesses.{IsLastListed};

use convoy_best_order::{Target, listed};
use convoy_packets::Instance;
use convoy_scenario::Scenario;
use std::alloc::{AllocError, Global};

/// The scenario that asks for the latency of a target, with the target's group listed behind all others, where the latency is
/// the least. Fails where memory runs out, and else never.
pub(crate) fn last_listed(
    alloc: Global,
    scenario: &Scenario,
    target: Target,
) -> Result<Instance, AllocError>
    requires { MayBeTarget scenario.now target }
    ensures { IfOk result (IsLastListed scenario.now target) }
{
    let count = scenario.group_count();
    let asked = scenario.with_target(target.message, target.group)?;
    let order = with_last(alloc, count, target.group)?;
    let other = listed(alloc, &asked, &order)?;
    let instance = Instance::of(alloc, other)?;
    Ok(instance)
}

/// So many groups with that one behind all others.
fn with_last(alloc: Global, count: usize, group: usize) -> Result<Vec<usize>, AllocError>
    requires { group < count }
    ensures { IfOk result (λ order. order.items ≡ remove (range_with_len 0 count) group ++ slice_index_or (range_with_len 0 count) group 0 ∷ []) }
{
    let mut order = Vec::new(alloc);
    for other in 0..count {
        order.push(other)?;
    }
    let last = order.remove(group);
    order.push(last)?;
    Ok(order)
}
