//! The search over placements, one group after the other.

ghost use Rattle.std.specs.Prelude.{◌≡◌, ◌≤◌, length, IfOk};
ghost use Rattle.convoy_best_plan.specs.Standings.{left_of};
ghost use Rattle.convoy_plan_ceilings.specs.Standings.{ArePassed, HasFallen, IsStanding};

use super::cutting::is_cut;
use super::standing::Standing;
use super::visiting::visit;
use convoy_best_order::Wanted;
use convoy_best_plan::{next_group, placement_of, with_site};
use convoy_plans::{Plan, is_placement};
use std::alloc::{AllocError, Global};

/// Searches all placements that have these sites, where at most so many groups have none yet. Fails where memory runs
/// out, and else never.
pub(crate) fn search_below(
    alloc: Global,
    plan: &Plan,
    wanted: Wanted,
    left: usize,
    sites: &[Option<usize>],
    standing: Standing,
) -> Result<Standing, AllocError>
    requires long { length sites.now ≡ length plan.now.written.groups }
    requires left { left_of sites.now ≤ left }
    requires standing { IsStanding wanted plan.now standing }
    ensures standing { IfOk result (IsStanding wanted plan.now) }
    ensures fallen { IfOk result (λ next. HasFallen standing.chosen next.chosen) }
    ensures passed { IfOk result (λ next. ArePassed wanted plan.now next.chosen sites.now) }
{
    let cut = is_cut(plan, &standing, sites);
    if cut {
        return Ok(standing);
    }
    let group = match next_group(plan, sites) {
        Some(group) => group,
        None => return visit_placed(alloc, plan, wanted, sites, standing),
    };
    let homes = plan.sites_of(group);
    let mut standing = standing;
    for site in homes {
        let more = with_site(alloc, sites, group, *site)?;
        let next = search_below(alloc, plan, wanted, left - 1, &more, standing)?;
        standing = next;
    }
    Ok(standing)
}

/// Looks at the placement that has these sites, where each group has one.
fn visit_placed(
    alloc: Global,
    plan: &Plan,
    wanted: Wanted,
    sites: &[Option<usize>],
    standing: Standing,
) -> Result<Standing, AllocError>
    requires long { length sites.now ≡ length plan.now.written.groups }
    requires all { left_of sites.now ≡ 0 }
    requires standing { IsStanding wanted plan.now standing }
    ensures standing { IfOk result (IsStanding wanted plan.now) }
    ensures fallen { IfOk result (λ next. HasFallen standing.chosen next.chosen) }
    ensures passed { IfOk result (λ next. ArePassed wanted plan.now next.chosen sites.now) }
{
    // A plan is well formed.
    let _count = plan.group_count();
    let placement = placement_of(alloc, sites)?;
    let placed = is_placement(plan, &placement);
    if !placed {
        return Ok(standing);
    }
    visit(alloc, plan, wanted, placement, standing)
}
