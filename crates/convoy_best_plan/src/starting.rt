//! The placement with which the search begins, so that there soon is a choice to which others can be compared.

ghost use Rattle.std.specs.Prelude.{◌<◌, length, IfOk};
ghost use Rattle.convoy_best_plan.specs.Standings.{IsStanding};

use super::likely::likely_placement;
use super::planned::Planned;
use super::standing::Standing;
use super::told::is_new;
use super::visiting::visit;
use convoy_best_order::Wanted;
use convoy_branch::Options;
use convoy_commands::Watch;
use convoy_plans::{Plan, is_placement};
use std::alloc::{AllocError, Global};
use std::sync::Wait;
use std::thread::Threads;

/// Looks at one placement that is not told already, which is likely to be a good one. Fails where memory runs out, and else never.
pub(crate) fn start<R: Threads + Wait + Sync, W: Watch + Sync>(
    rt: &R,
    alloc: Global,
    plan: &Plan,
    wanted: Wanted,
    told: &[Planned],
    standing: Standing,
    options: &Options,
    watches: &[W],
) -> Result<Standing, AllocError>
    requires watched { 0 < length watches.now }
    requires standing { IsStanding options.now wanted plan.now told.now standing.chosen }
    ensures { IfOk result (λ next. IsStanding options.now wanted plan.now told.now next.chosen) }
{
    let mut standing = standing;
    let placement = likely_placement(alloc, plan, wanted, told, &mut standing.served)?;
    let placed = is_placement(plan, &placement);
    if !placed {
        return Ok(standing);
    }
    let new = is_new(told, &placement);
    if !new {
        return Ok(standing);
    }
    visit(
        rt, alloc, plan, wanted, told, placement, standing, options, watches,
    )
}
