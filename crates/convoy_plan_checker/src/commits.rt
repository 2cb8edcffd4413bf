//! How late commits may be where all takes as long as it may, as far as the sites of groups are known: exactly.

ghost use Rattle.std.specs.Prelude.{◌≡◌, ◌<◌, ◌≤◌, length, All};
ghost use Rattle.convoy_best_order.specs.Targets.{MayBeTarget};
ghost use Rattle.convoy_plans.specs.Plans.{most_between};
ghost use Rattle.convoy_best_plan.specs.Leaves.{commit_known, most_known, total_known, total_known_at, way_by, way_known};
ghost use Rattle.convoy_plan_checker.specs.Trees.{is_late_anyhow};

use super::claim::Claim;
use super::lateness::is_past;
use convoy_best_order::Target;
use convoy_best_plan::{origin_site, site_known};
use convoy_plans::{Origin, Plan};
use convoy_scenario::{Scenario, Sender};

/// Whether the target is so late by its commit alone, wherever the groups are that have no site yet, that no such placement is
/// below the floor.
pub(crate) fn is_late_anyhow(
    plan: &Plan,
    claim: &Claim,
    sites: &[Option<usize>],
    target: Target,
) -> bool
    requires { MayBeTarget claim.now.scenario target }
    ensures { result ≡ is_late_anyhow plan.now claim.now sites.now target }
{
    let total = total_known(plan, &claim.scenario, sites);
    let latency = commit_known(plan, &claim.scenario, sites, target.message, target.group);
    is_past(claim.floor, total, target, Some(latency))
}

/// How long all messages take to their commits, summed over the groups that they go to, as far as that is known.
fn total_known(plan: &Plan, scenario: &Scenario, sites: &[Option<usize>]) -> u64
    ensures { result ≡ total_known plan.now scenario.now sites.now }
{
    let mut total = 0u64;
    for message in 0..scenario.message_count() {
        total += total_known_at(plan, scenario, sites, message);
    }
    total
}

/// The same of one message.
fn total_known_at(plan: &Plan, scenario: &Scenario, sites: &[Option<usize>], message: usize) -> u64
    requires { message < length scenario.now.multicasts }
    ensures value { result ≡ total_known_at plan.now scenario.now sites.now message }
    ensures few { result ≤ 2_000_000 }
{
    let groups = scenario.destinations(message);
    let mut total = 0u64;
    for group in groups {
        total += u64::from(commit_known(plan, scenario, sites, message, *group));
    }
    total
}

/// How long a message takes to its commit at a group, as far as that is known.
fn commit_known(
    plan: &Plan,
    scenario: &Scenario,
    sites: &[Option<usize>],
    message: usize,
    group: usize,
) -> u32
    requires { message < length scenario.now.multicasts }
    ensures value { result ≡ commit_known plan.now scenario.now sites.now message group }
    ensures fits { result ≤ 131_070 }
{
    let (sender, origin) = (scenario.sender(message), plan.origin(message));
    let groups = scenario.destinations(message);
    let mut longest = 0u32;
    for via in groups {
        longest = longest.max(way_by(plan, sites, sender, origin, group, *via));
    }
    longest
}

/// How long the way from a sender, who is there, to the group `via` and on to a group takes.
fn way_by(
    plan: &Plan,
    sites: &[Option<usize>],
    sender: Sender,
    from: Origin,
    group: usize,
    via: usize,
) -> u32
    ensures value { result ≡ way_by plan.now sites.now sender from group via }
    ensures fits { result ≤ 131_070 }
{
    let first = way_known(plan, sites, sender, from, via);
    let second = way_known(plan, sites, Sender::Group(via), Origin::Group(via), group);
    first + second
}

/// How long the way from a sender, who is there, to a group takes.
fn way_known(
    plan: &Plan,
    sites: &[Option<usize>],
    sender: Sender,
    from: Origin,
    group: usize,
) -> u32
    ensures value { result ≡ way_known plan.now sites.now sender from group }
    ensures fits { result ≤ 65_535 }
{
    match sender {
        Sender::Group(itself) if itself == group => 0,
        _ => most_known(plan, origin_site(sites, from), site_known(sites, group)),
    }
}

/// How long the way from the one site to the other takes, or 0 where one of them is not known.
fn most_known(plan: &Plan, from: Option<usize>, to: Option<usize>) -> u32
    ensures value { result ≡ most_known plan.now from to }
    ensures fits { result ≤ 65_535 }
{
    match (from, to) {
        (Some(from), Some(to)) => u32::from(most_between(plan, from, to)),
        (Some(_), None) | (None, _) => 0,
    }
}

/// How long the way from the one site to the other takes.
fn most_between(plan: &Plan, from: usize, to: usize) -> u16
    ensures { result ≡ most_between plan.now from to }
{
    let most = plan.most(from, to);
    most as u16
}
