//! Placements that are excluded at once: a target is late by its commit alone, wherever the groups are that have no site yet.

use super::claim::Claim;
use convoy_best_plan::{commit_known, is_past_by, total_known};

/// The place of a target that is so late where groups are at these sites, if there is one.
pub(crate) fn late_target(claim: &Claim, sites: &[Option<usize>]) -> Option<usize> {
    let total = total_known(claim.plan, &claim.planned.scenario, sites);
    for place in 0..claim.planned.targets.len() {
        if is_late(claim, sites, total, place) {
            return Some(place);
        }
    }
    None
}

/// Whether the target at that place is.
fn is_late(claim: &Claim, sites: &[Option<usize>], total: u64, place: usize) -> bool {
    let scenario = &claim.planned.scenario;
    let Some(target) = claim.planned.targets.get(place) else {
        return false;
    };
    if target.message >= scenario.message_count() {
        return false;
    }
    let latency = commit_known(claim.plan, scenario, sites, target.message, target.group);
    is_past_by(*target, claim.floor, total, latency)
}
