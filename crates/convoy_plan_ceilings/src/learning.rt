//! What scenarios of placements show of the least delays from site to site.

ghost use Rattle.std.specs.Prelude.{◌≡◌, ◌<◌, Ok, length};
ghost use Rattle.convoy_plans.specs.Placements.{scenario_at, site_at};
ghost use Rattle.convoy_plans.specs.PlanLaws.{site_of};
ghost use Rattle.convoy_plan_ceilings.specs.Leasts.{AreLeasts, IsLeastBetween, least_at};

use super::ceiling_choice_laws::leasts_are_of_sites;
use convoy_plans::plan_laws::messages_are_of_plans;
use convoy_plans::{MOST_SITES, Origin, Plan};
use convoy_scenario::Scenario;

/// Learns the least delays that messages have in the scenario of a placement, from where they are sent to where they go.
pub(crate) fn learn(
    plan: &Plan,
    placement: &[usize],
    scenario: &Scenario,
    leasts: &mut Vec<Option<u16>>,
)
    requires made { scenario_at plan.now placement.now ≡ Ok scenario.now }
    requires leasts { AreLeasts plan.now leasts.old.items }
    ensures { AreLeasts plan.now leasts.new.items }
{
    for message in 0..scenario.message_count() {
        learn_message(plan, placement, scenario, message, leasts);
    }
}

/// The same of one message.
fn learn_message(
    plan: &Plan,
    placement: &[usize],
    scenario: &Scenario,
    message: usize,
    leasts: &mut Vec<Option<u16>>,
)
    requires made { scenario_at plan.now placement.now ≡ Ok scenario.now }
    requires known { message < length scenario.now.multicasts }
    requires leasts { AreLeasts plan.now leasts.old.items }
    ensures { AreLeasts plan.now leasts.new.items }
{
    for group in scenario.destinations(message) {
        learn_way(plan, placement, scenario, message, *group, leasts);
    }
}

/// The same of one message at one group that it goes to.
fn learn_way(
    plan: &Plan,
    placement: &[usize],
    scenario: &Scenario,
    message: usize,
    group: usize,
    leasts: &mut Vec<Option<u16>>,
)
    requires made { scenario_at plan.now placement.now ≡ Ok scenario.now }
    requires known { message < length scenario.now.multicasts }
    requires leasts { AreLeasts plan.now leasts.old.items }
    ensures { AreLeasts plan.now leasts.new.items }
{
    leasts_are_of_sites();
    messages_are_of_plans();
    if message >= plan.message_count() || group >= plan.group_count() {
        return;
    }
    let origin = plan.origin(message);
    if is_group(origin, group) {
        return;
    }
    let (from, to) = (site_of(placement, origin), site_at(placement, group));
    if plan.most(from, to) == 0 {
        return;
    }
    let (least, _) = scenario.range_between(scenario.sender(message), group);
    note(plan, from, to, least, leasts);
}

/// Notes the least delay from a site to a site.
fn note(_plan: &Plan, from: usize, to: usize, least: u16, leasts: &mut Vec<Option<u16>>)
    requires is { IsLeastBetween _plan.now from to least }
    requires leasts { AreLeasts _plan.now leasts.old.items }
    ensures { AreLeasts _plan.now leasts.new.items }
{
    if from >= MOST_SITES || to >= MOST_SITES {
        return;
    }
    let place = from * MOST_SITES + to;
    if place < leasts.len() {
        leasts[place] = Some(least);
    }
}

ghost use Rattle.convoy_plans.specs.Told.{is_itself};

/// Whether a message is sent from that group.
fn is_group(origin: Origin, group: usize) -> bool
    ensures { result ≡ is_itself origin group }
{
    match origin {
        Origin::Site(_) => false,
        Origin::Group(other) => other == group,
    }
}

/// The site of clients, or of a group in a placement.
fn site_of(placement: &[usize], origin: Origin) -> usize
    ensures { result ≡ site_of placement.now origin }
{
    match origin {
        Origin::Site(site) => site,
        Origin::Group(group) => site_at(placement, group),
    }
}

/// The site of a group in a placement.
fn site_at(placement: &[usize], group: usize) -> usize
    ensures { result ≡ site_at placement.now group }
{
    match placement.get(group) {
        Some(site) => *site,
        None => 0,
    }
}

/// The least delay from a site to a site, if it is known.
pub(crate) fn least_at(leasts: &[Option<u16>], from: usize, to: usize) -> Option<u16>
    ensures { result ≡ least_at leasts.now from to }
{
    if from < MOST_SITES && to < MOST_SITES {
        return match leasts.get(from * MOST_SITES + to) {
            Some(least) => *least,
            None => None,
        };
    }
    None
}
