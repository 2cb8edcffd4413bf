//! The search over placements, one group after the other.

ghost use Rattle.std.specs.Prelude.{◌≡◌, ◌<◌, ◌≤◌, ◌∷◌, ℕ, List, length, slice_get, slice_set, map, Some, None, IfOk, IfSome, IfNone, IsTrue};
ghost use Rattle.convoy_plans.specs.Placements.{IsPlacement};
ghost use Rattle.convoy_best_plan.specs.Standings.{ArePassed, HasFallen, IsStanding, left_of};

use super::cutting::is_cut;
use super::planned::Planned;
use super::standing::Standing;
use super::told::is_new;
use super::visiting::visit;
use super::watch::PlanWatch;
use super::watching::{placements_below, tell_choice};
use convoy_best_order::Wanted;
use convoy_branch::Options;
use convoy_commands::Watch;
use convoy_plans::{Origin, Plan, is_placement};
use std::alloc::{AllocError, Global};
use std::sync::Wait;
use std::thread::Threads;

/// Searches all placements that have these sites, but for those that are told already, where at most so many groups have no
/// site yet. The first who watches is told of each as it is passed. Fails where memory runs out, and else never.
pub(crate) fn search_below<R: Threads + Wait + Sync, W: PlanWatch + Sync>(
    rt: &R,
    alloc: Global,
    plan: &Plan,
    wanted: Wanted,
    told: &[Planned],
    left: usize,
    sites: &[Option<usize>],
    standing: Standing,
    options: &Options,
    watches: &[W],
) -> Result<Standing, AllocError>
    requires watched { 0 < length watches.now }
    requires long { length sites.now ≡ length plan.now.written.groups }
    requires left { left_of sites.now ≤ left }
    requires standing { IsStanding options.now wanted plan.now told.now standing.chosen }
    ensures standing { IfOk result (λ next. IsStanding options.now wanted plan.now told.now next.chosen) }
    ensures fallen { IfOk result (λ next. HasFallen standing.chosen next.chosen) }
    ensures passed { IfOk result (λ next. ArePassed wanted plan.now told.now next.chosen sites.now) }
{
    let cut = is_cut(plan, &standing.chosen, sites);
    if cut {
        watches[0].passes(placements_below(plan, sites));
        return Ok(standing);
    }
    let group = match next_group(plan, sites) {
        Some(group) => group,
        None => return pass_placed(
            rt, alloc, plan, wanted, told, sites, standing, options, watches,
        ),
    };
    let homes = plan.sites_of(group);
    let mut standing = standing;
    for site in homes {
        let more = with_site(alloc, sites, group, *site)?;
        let next = search_below(
            rt,
            alloc,
            plan,
            wanted,
            told,
            left - 1,
            &more,
            standing,
            options,
            watches,
        )?;
        standing = next;
    }
    Ok(standing)
}

/// The group that gets a site next: one on which a message with a deadline rests, if there is such, since its commits can show
/// soonest that no such placement is better.
pub fn next_group(plan: &Plan, sites: &[Option<usize>]) -> Option<usize>
    ensures some { IfSome result (λ group. slice_get sites.now group ≡ Some None) }
    ensures none { IfNone result (left_of sites.now ≡ 0) }
{
    for message in 0..plan.message_count() {
        if let Some(group) = next_of_message(plan, sites, message) {
            return Some(group);
        }
    }
    first_group(sites)
}

/// The first group that has no site yet, of those that the message goes to if it has a deadline, and its sender.
fn next_of_message(plan: &Plan, sites: &[Option<usize>], message: usize) -> Option<usize>
    ensures { IfSome result (λ group. slice_get sites.now group ≡ Some None) }
{
    plan.deadline(message)?;
    for group in plan.destinations(message) {
        if is_left(sites, *group) {
            return Some(*group);
        }
    }
    match plan.origin(message) {
        Origin::Group(group) if is_left(sites, group) => Some(group),
        _ => None,
    }
}

/// Whether the group has no site yet.
fn is_left(sites: &[Option<usize>], group: usize) -> bool
    ensures { IsTrue result → slice_get sites.now group ≡ Some None }
{
    match sites.get(group) {
        Some(site) => site.is_none(),
        None => false,
    }
}

/// The first group that has no site yet.
fn first_group(sites: &[Option<usize>]) -> Option<usize>
    ensures some { IfSome result (λ group. slice_get sites.now group ≡ Some None) }
    ensures none { IfNone result (left_of sites.now ≡ 0) }
{
    for group in 0..sites.len() {
        if sites[group].is_none() {
            return Some(group);
        }
    }
    None
}

/// The sites with that of one more group.
pub fn with_site(
    alloc: Global,
    sites: &[Option<usize>],
    group: usize,
    site: usize,
) -> Result<Vec<Option<usize>>, AllocError>
    requires { group < length sites.now }
    ensures { IfOk result (λ more. more.items ≡ slice_set sites.now group (Some site)) }
{
    let mut more = Vec::from_slice(alloc, sites)?;
    more[group] = Some(site);
    Ok(more)
}

/// Looks at the placement that has these sites, where each group has one, unless it is told already; and tells who watches.
fn pass_placed<R: Threads + Wait + Sync, W: PlanWatch + Sync>(
    rt: &R,
    alloc: Global,
    plan: &Plan,
    wanted: Wanted,
    told: &[Planned],
    sites: &[Option<usize>],
    standing: Standing,
    options: &Options,
    watches: &[W],
) -> Result<Standing, AllocError>
    requires watched { 0 < length watches.now }
    requires long { length sites.now ≡ length plan.now.written.groups }
    requires all { left_of sites.now ≡ 0 }
    requires standing { IsStanding options.now wanted plan.now told.now standing.chosen }
    ensures standing { IfOk result (λ next. IsStanding options.now wanted plan.now told.now next.chosen) }
    ensures fallen { IfOk result (λ next. HasFallen standing.chosen next.chosen) }
    ensures passed { IfOk result (λ next. ArePassed wanted plan.now told.now next.chosen sites.now) }
{
    let next = visit_placed(
        rt, alloc, plan, wanted, told, sites, standing, options, watches,
    )?;
    watches[0].passes(1);
    tell_choice(plan, &next.chosen, options, &watches[0]);
    Ok(next)
}

/// Looks at the placement that has these sites, where each group has one, unless it is told already.
fn visit_placed<R: Threads + Wait + Sync, W: Watch + Sync>(
    rt: &R,
    alloc: Global,
    plan: &Plan,
    wanted: Wanted,
    told: &[Planned],
    sites: &[Option<usize>],
    standing: Standing,
    options: &Options,
    watches: &[W],
) -> Result<Standing, AllocError>
    requires watched { 0 < length watches.now }
    requires long { length sites.now ≡ length plan.now.written.groups }
    requires all { left_of sites.now ≡ 0 }
    requires standing { IsStanding options.now wanted plan.now told.now standing.chosen }
    ensures standing { IfOk result (λ next. IsStanding options.now wanted plan.now told.now next.chosen) }
    ensures fallen { IfOk result (λ next. HasFallen standing.chosen next.chosen) }
    ensures passed { IfOk result (λ next. ArePassed wanted plan.now told.now next.chosen sites.now) }
{
    // A plan is well formed.
    let _count = plan.group_count();
    let placement = placement_of(alloc, sites)?;
    let placed = is_placement(plan, &placement);
    if !placed {
        return Ok(standing);
    }
    let new = is_new(told, &placement);
    if !new {
        return Ok(standing);
    }
    visit(
        rt, alloc, plan, wanted, told, placement, standing, options, watches,
    )
}

/// The site of each group, where each has one.
pub fn placement_of(alloc: Global, sites: &[Option<usize>]) -> Result<Vec<usize>, AllocError>
    requires { left_of sites.now ≡ 0 }
    ensures { IfOk result (λ placement. map (λ site. Some site) placement.items ≡ sites.now) }
{
    let mut placement = Vec::new(alloc);
    for site in sites {
        match site {
            Some(site) => placement.push(*site)?,
            None => unreachable!(),
        }
    }
    Ok(placement)
}
