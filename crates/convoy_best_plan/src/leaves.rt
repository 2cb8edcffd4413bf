//! What is known of all placements that have some sites: how late commits may be at least, where all takes as long as it may.

ghost use Rattle.std.specs.Prelude.{◌≡◌, ◌<◌, ◌≤◌, length, IsTrue};
ghost use Rattle.convoy_best_plan.specs.Leaves.{IsLate, IsLateAnyhow, commit_known, most_known, origin_site, site_known, total_known, total_known_at, way_by, way_known};

use super::excluding::is_past_by;
use super::floor::Floor;
use convoy_best_order::Target;
use convoy_plans::{Origin, Plan};
use convoy_scenario::{Scenario, Sender};

/// Whether some target is so late by its commit alone, wherever the groups are that have no site yet, that no such placement is
/// better.
pub(crate) fn is_late_anyhow(
    plan: &Plan,
    scenario: &Scenario,
    sites: &[Option<usize>],
    targets: &[Target],
    reach: Floor,
) -> bool
    ensures { IsTrue result → IsLateAnyhow plan.now scenario.now sites.now targets.now reach }
{
    let total = total_known(plan, scenario, sites);
    for target in targets {
        if is_target_late(plan, scenario, sites, *target, reach, total) {
            return true;
        }
    }
    false
}

/// Whether that target is.
fn is_target_late(
    plan: &Plan,
    scenario: &Scenario,
    sites: &[Option<usize>],
    target: Target,
    reach: Floor,
    total: u64,
) -> bool
    ensures { IsTrue result → IsLate plan.now scenario.now sites.now reach total target }
{
    if target.message >= scenario.message_count() {
        return false;
    }
    let latency = commit_known(plan, scenario, sites, target.message, target.group);
    is_past_by(target, reach, total, latency)
}

/// How long all messages take to their commits, summed over the groups that they go to, at least as far as that is known.
pub fn total_known(plan: &Plan, scenario: &Scenario, sites: &[Option<usize>]) -> u64
    ensures { result ≤ total_known plan.now scenario.now sites.now }
{
    let mut total = 0u64;
    for message in 0..scenario.message_count() {
        total = total.saturating_add(total_known_at(plan, scenario, sites, message));
    }
    total
}

/// The same of one message.
fn total_known_at(plan: &Plan, scenario: &Scenario, sites: &[Option<usize>], message: usize) -> u64
    requires { message < length scenario.now.multicasts }
    ensures { result ≤ total_known_at plan.now scenario.now sites.now message }
{
    let groups = scenario.destinations(message);
    let mut total = 0u64;
    for group in groups {
        total = total.saturating_add(u64::from(commit_known(
            plan, scenario, sites, message, *group,
        )));
    }
    total
}

/// How long a message takes to its commit at a group, at least as far as that is known.
pub fn commit_known(
    plan: &Plan,
    scenario: &Scenario,
    sites: &[Option<usize>],
    message: usize,
    group: usize,
) -> u32
    requires { message < length scenario.now.multicasts }
    ensures { result ≤ commit_known plan.now scenario.now sites.now message group }
{
    let (sender, origin) = (scenario.sender(message), plan.origin(message));
    let groups = scenario.destinations(message);
    let mut longest = 0u32;
    for via in groups {
        longest = longest.max(way_by(plan, sites, sender, origin, group, *via));
    }
    longest
}

/// How long the way from a sender, who is there, to the group `via` and on to a group takes, at least as far as that is known.
fn way_by(
    plan: &Plan,
    sites: &[Option<usize>],
    sender: Sender,
    from: Origin,
    group: usize,
    via: usize,
) -> u32
    ensures { result ≤ way_by plan.now sites.now sender from group via }
{
    let first = way_known(plan, sites, sender, from, via);
    let second = way_known(plan, sites, Sender::Group(via), Origin::Group(via), group);
    first.saturating_add(second)
}

/// How long the way from a sender, who is there, to a group takes, at least as far as that is known.
fn way_known(
    plan: &Plan,
    sites: &[Option<usize>],
    sender: Sender,
    from: Origin,
    group: usize,
) -> u32
    ensures { result ≤ way_known plan.now sites.now sender from group }
{
    match sender {
        Sender::Group(itself) if itself == group => 0,
        _ => most_known(plan, origin_site(sites, from), site_known(sites, group)),
    }
}

/// How long the way from the one site to the other takes, at least as far as both are known.
fn most_known(plan: &Plan, from: Option<usize>, to: Option<usize>) -> u32
    ensures { result ≤ most_known plan.now from to }
{
    match (from, to) {
        (Some(from), Some(to)) => u32::try_from(plan.most(from, to)).unwrap_or(0),
        (Some(_), None) | (None, _) => 0,
    }
}

/// The site from which something is sent, if it is known.
pub fn origin_site(sites: &[Option<usize>], from: Origin) -> Option<usize>
    ensures { result ≡ origin_site sites.now from }
{
    match from {
        Origin::Site(site) => Some(site),
        Origin::Group(group) => site_known(sites, group),
    }
}

/// The site of a group, if it has one.
pub fn site_known(sites: &[Option<usize>], group: usize) -> Option<usize>
    ensures { result ≡ site_known sites.now group }
{
    match sites.get(group) {
        Some(site) => *site,
        None => None,
    }
}
