//! A placement in which what has to do with each other is near. Nothing rests on how it is found.

use super::leaves::{origin_site, site_known};
use super::searching::next_group;
use convoy_plans::Plan;
use std::alloc::{AllocError, Global};

/// How much more a message counts that has a deadline.
const WEIGHT: usize = 8;

/// Sites of all groups, each placed where it is near to what has its site already. Where groups are to be apart they may be no
/// placement.
pub(crate) fn near_placement(alloc: Global, plan: &Plan) -> Result<Vec<usize>, AllocError> {
    let groups = plan.group_count();
    let mut sites = vec![in alloc; None; groups]?;
    let mut placement = vec![in alloc; 0; groups]?;
    for _ in 0..groups {
        if let Some(group) = next_group(plan, &sites) {
            place_near(plan, group, &mut sites, &mut placement);
        }
    }
    Ok(placement)
}

/// Places a group where it is near.
fn place_near(
    plan: &Plan,
    group: usize,
    sites: &mut Vec<Option<usize>>,
    placement: &mut Vec<usize>,
) {
    let site = nearest(plan, sites, group);
    if group < sites.len() && group < placement.len() {
        sites[group] = Some(site);
        placement[group] = site;
    }
}

/// The site of a group at which it is nearest to what has its site already.
fn nearest(plan: &Plan, sites: &[Option<usize>], group: usize) -> usize {
    let mut best = 0;
    let mut least = usize::MAX;
    for site in plan.sites_of(group) {
        let far = distance(plan, sites, group, *site);
        if far < least && is_free(plan, sites, group, *site) {
            least = far;
            best = *site;
        }
    }
    best
}

/// Whether no group is at the site that is to be apart from the group.
fn is_free(plan: &Plan, sites: &[Option<usize>], group: usize, site: usize) -> bool {
    for other in 0..sites.len() {
        if site_known(sites, other) == Some(site) && plan.is_apart(group, other) {
            return false;
        }
    }
    true
}

/// How far a group is at a site from what has to do with it, summed over messages.
fn distance(plan: &Plan, sites: &[Option<usize>], group: usize, site: usize) -> usize {
    let mut far = 0usize;
    for message in 0..plan.message_count() {
        far = far.saturating_add(distance_by(plan, sites, group, site, message));
    }
    far
}

/// The same for one message, which may not go there.
fn distance_by(
    plan: &Plan,
    sites: &[Option<usize>],
    group: usize,
    site: usize,
    message: usize,
) -> usize {
    if !plan.destinations(message).contains(&group) {
        return 0;
    }
    let mut far = most_from(plan, origin_site(sites, plan.origin(message)), site);
    for other in plan.destinations(message) {
        far = far.saturating_add(most_from(plan, site_known(sites, *other), site));
    }
    if plan.deadline(message).is_some() {
        far.saturating_mul(WEIGHT)
    } else {
        far
    }
}

/// How long the way from a site takes at most, where it is known.
fn most_from(plan: &Plan, from: Option<usize>, site: usize) -> usize {
    match from {
        Some(from) => plan.most(from, site),
        None => 0,
    }
}
