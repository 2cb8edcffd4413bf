//! What is told to who watches a search over placements. Nothing rests on it.

use super::leaves::site_known;
use super::planned::Planned;
use super::watch::PlanWatch;
use convoy_best_order::are_judged;
use convoy_branch::Options;
use convoy_plans::Plan;
use convoy_times::Measure;

/// How many placements have these sites, where others have any: all of them where no site is given.
pub fn placements_below(plan: &Plan, sites: &[Option<usize>]) -> u64 {
    let mut placements = 1u64;
    for group in 0..plan.group_count() {
        if site_known(sites, group).is_none() {
            let homes = plan.sites_of(group).len() as u64;
            placements = placements.saturating_mul(homes);
        }
    }
    placements
}

/// Tells who watches what the best choice so far keeps, if there is one.
pub(crate) fn tell_choice<W: PlanWatch>(
    plan: &Plan,
    chosen: &Option<Planned>,
    options: &Options,
    watch: &W,
) {
    if let Some(planned) = chosen {
        let measure = Measure::of(&planned.scenario, options.unit(), plan.unit());
        let most = planned.best.most;
        let deadline = if are_judged(&planned.targets) {
            Some(most.limit)
        } else {
            None
        };
        watch.chooses(measure, most.latency, deadline);
    }
}
