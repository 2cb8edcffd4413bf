//! The tree over placements that shows that no choice is below the floor.

ghost use Rattle.std.specs.Prelude.{◌<◌, ◌≡◌, length};
ghost use Rattle.convoy_best_plan.specs.Standings.{left_of};

use super::claim::Claim;
use super::excluding::witnesses_at;
use super::late::late_target;
use convoy_best_plan::{
    PlanWatch, Stage, next_group, placement_of, placements_below, scenario_if_made, site_known,
    with_site,
};
use convoy_commands::Watch;
use convoy_plan_certificate::Branch;
use std::alloc::{AllocError, Global};
use std::sync::Wait;
use std::thread::Threads;

/// How many nodes a tree has at most.
const MOST_BRANCHES: usize = 4_000_000;

/// What came of it.
#[derive(Drop)]
pub(crate) enum Tree {
    /// The nodes of the whole tree, in their order.
    Whole(Vec<Branch>),
    /// Of some placement it was not found that it is no better.
    Open,
    /// There would be too many nodes.
    TooLarge,
}

/// The tree over all placements. The first who watches is told of each placement as it is passed.
pub(crate) fn tree_of<R: Threads + Wait + Sync, W: PlanWatch + Sync>(
    rt: &R,
    alloc: Global,
    claim: &Claim,
    watches: &[W],
) -> Result<Tree, AllocError>
    requires watched { 0 < length watches.now }
{
    watches[0].begins_placing(Stage::Certificate, placements_below(claim.plan, &[]));
    let tree = grown(rt, alloc, claim, watches);
    watches[0].ends_placing();
    tree
}

/// The tree of [`tree_of`].
fn grown<R: Threads + Wait + Sync, W: PlanWatch + Sync>(
    rt: &R,
    alloc: Global,
    claim: &Claim,
    watches: &[W],
) -> Result<Tree, AllocError>
    requires watched { 0 < length watches.now }
{
    let mut nodes = Vec::new(alloc);
    let mut served = 0;
    let groups = claim.plan.group_count();
    let root = vec![in alloc; None; groups]?;
    let mut left = vec![in alloc; root]?;
    for _ in 0..MOST_BRANCHES {
        let Some(sites) = left.pop() else {
            return Ok(Tree::Whole(nodes));
        };
        let Some(node) = node_at(rt, alloc, claim, &sites, &mut served, watches)? else {
            return Ok(Tree::Open);
        };
        match &node {
            Branch::Split(group) => push_halves(alloc, claim, &sites, *group, &mut left)?,
            _ => watches[0].passes(placements_below(claim.plan, &sites)),
        }
        nodes.push(node)?;
    }
    Ok(Tree::TooLarge)
}

/// Puts the sites that have one more for the group on those that are left, so that the first site that is written for it comes
/// next.
fn push_halves(
    alloc: Global,
    claim: &Claim,
    sites: &[Option<usize>],
    group: usize,
    left: &mut Vec<Vec<Option<usize>>>,
) -> Result<(), AllocError> {
    if group < sites.len() {
        for site in claim.plan.sites_of(group).iter().rev() {
            left.push(with_site(alloc, sites, group, *site)?)?;
        }
    }
    Ok(())
}

/// The node over all placements that have these sites, if there is one.
fn node_at<R: Threads + Wait + Sync, W: Watch + Sync>(
    rt: &R,
    alloc: Global,
    claim: &Claim,
    sites: &[Option<usize>],
    served: &mut usize,
    watches: &[W],
) -> Result<Option<Branch>, AllocError>
    requires watched { 0 < length watches.now }
{
    if let Some((group, other)) = both_at_one_site(claim, sites) {
        return Ok(Some(Branch::Apart(group, other)));
    }
    if let Some(target) = late_target(claim, sites) {
        return Ok(Some(Branch::Commit(target)));
    }
    match next_group(claim.plan, sites) {
        Some(group) => Ok(Some(Branch::Split(group))),
        None => placed_node(rt, alloc, claim, sites, served, watches),
    }
}

/// Two groups that are at one site, and are to be apart.
fn both_at_one_site(claim: &Claim, sites: &[Option<usize>]) -> Option<(usize, usize)> {
    for group in 0..sites.len() {
        if let Some(other) = other_there(claim, sites, group) {
            return Some((other, group));
        }
    }
    None
}

/// A group before that one that is at its site, and is to be apart from it.
fn other_there(claim: &Claim, sites: &[Option<usize>], group: usize) -> Option<usize> {
    let site = site_known(sites, group)?;
    for other in 0..group {
        if site_known(sites, other) == Some(site) && claim.plan.is_apart(other, group) {
            return Some(other);
        }
    }
    None
}

/// The node over the one placement that has these sites.
fn placed_node<R: Threads + Wait + Sync, W: Watch + Sync>(
    rt: &R,
    alloc: Global,
    claim: &Claim,
    sites: &[Option<usize>],
    served: &mut usize,
    watches: &[W],
) -> Result<Option<Branch>, AllocError>
    requires watched { 0 < length watches.now }
    requires all { left_of sites.now ≡ 0 }
{
    let placement = placement_of(alloc, sites)?;
    match scenario_if_made(alloc, claim.plan, &placement)? {
        None => Ok(Some(Branch::NoScenario)),
        Some(scenario) => {
            let witnesses = witnesses_at(rt, alloc, claim, &scenario, served, watches)?;
            Ok(witnesses.map(|witnesses| Branch::Late(witnesses)))
        }
    }
}
