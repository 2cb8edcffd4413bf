//! What is known of all placements that have some sites: how great ceilings are at least.

ghost use Rattle.std.specs.Prelude.{◌≡◌, ◌<◌, ◌≤◌, length, IsTrue};
ghost use Rattle.convoy_plan_ceilings.specs.Bounds.{IsHigh, IsHighAnyhow, after_known, after_least, ceiling_known, from_arrival_known, least_between, least_known};

use super::learning::least_at;
use super::target_ceiling::TargetCeiling;
use convoy_best_plan::{Floor, commit_known, is_past_by, origin_site, site_known, total_known};
use convoy_ceiling::goes_to;
use convoy_plans::{Origin, Plan};
use convoy_scenario::{Scenario, Sender};

/// Whether the ceiling of some target is so great, wherever the groups are that have no site yet, that no such placement is
/// better.
pub(crate) fn is_high_anyhow(
    plan: &Plan,
    scenario: &Scenario,
    leasts: &[Option<u16>],
    sites: &[Option<usize>],
    rows: &[TargetCeiling],
    reach: Floor,
) -> bool
    ensures { IsTrue result → IsHighAnyhow plan.now scenario.now leasts.now sites.now rows.now reach }
{
    let total = total_known(plan, scenario, sites);
    for row in rows {
        if is_high(plan, scenario, leasts, sites, *row, reach, total) {
            return true;
        }
    }
    false
}

/// Whether that of one target is.
fn is_high(
    plan: &Plan,
    scenario: &Scenario,
    leasts: &[Option<u16>],
    sites: &[Option<usize>],
    row: TargetCeiling,
    reach: Floor,
    total: u64,
) -> bool
    ensures { IsTrue result → IsHigh plan.now scenario.now leasts.now sites.now reach total row }
{
    let target = row.target;
    if target.message >= scenario.message_count() {
        return false;
    }
    let ceiling = ceiling_known(plan, scenario, leasts, sites, target.message, target.group);
    is_past_by(target, reach, total, ceiling)
}

/// The ceiling of a message at a group, at least as far as that is known.
fn ceiling_known(
    plan: &Plan,
    scenario: &Scenario,
    leasts: &[Option<u16>],
    sites: &[Option<usize>],
    message: usize,
    group: usize,
) -> u32
    requires { message < length scenario.now.multicasts }
    ensures { result ≤ ceiling_known plan.now scenario.now leasts.now sites.now message group }
{
    let commit = commit_known(plan, scenario, sites, message, group);
    commit.saturating_add(after_known(plan, scenario, leasts, sites, group))
}

/// How long any message takes from its arrival at a group to its commit there, at least as far as that is known.
fn after_known(
    plan: &Plan,
    scenario: &Scenario,
    leasts: &[Option<u16>],
    sites: &[Option<usize>],
    group: usize,
) -> u32
    ensures { result ≤ after_known plan.now scenario.now leasts.now sites.now group }
{
    let mut longest = 0u32;
    for message in 0..scenario.message_count() {
        longest = longest.max(after_known_of(plan, scenario, leasts, sites, group, message));
    }
    longest
}

/// How long a message takes so if it goes to the group, at least as far as that is known.
fn after_known_of(
    plan: &Plan,
    scenario: &Scenario,
    leasts: &[Option<u16>],
    sites: &[Option<usize>],
    group: usize,
    message: usize,
) -> u32
    requires { message < length scenario.now.multicasts }
    ensures { result ≤ after_known plan.now scenario.now leasts.now sites.now group }
{
    if !goes_to(scenario, message, group) {
        return 0;
    }
    from_arrival_known(plan, scenario, leasts, sites, group, message)
}

/// How long a message takes from its arrival at a group to its commit there, at least as far as that is known.
fn from_arrival_known(
    plan: &Plan,
    scenario: &Scenario,
    leasts: &[Option<u16>],
    sites: &[Option<usize>],
    group: usize,
    message: usize,
) -> u32
    requires { message < length scenario.now.multicasts }
    ensures { result ≤ from_arrival_known plan.now scenario.now leasts.now sites.now group message }
{
    let (sender, origin) = (scenario.sender(message), plan.origin(message));
    let least = least_known(leasts, sites, sender, origin, group);
    after_least(commit_known(plan, scenario, sites, message, group), least)
}

/// What is left of so many ticks after a delay; nothing where it is not known.
fn after_least(ticks: u32, least: Option<u16>) -> u32
    ensures { result ≡ after_least ticks least }
{
    match least {
        Some(least) => ticks.saturating_sub(u32::from(least)),
        None => 0,
    }
}

/// The least delay from a sender, who is there, to a group, if it is known.
fn least_known(
    leasts: &[Option<u16>],
    sites: &[Option<usize>],
    sender: Sender,
    from: Origin,
    group: usize,
) -> Option<u16>
    ensures { result ≡ least_known leasts.now sites.now sender from group }
{
    match sender {
        Sender::Group(itself) if itself == group => Some(0),
        _ => least_between(leasts, origin_site(sites, from), site_known(sites, group)),
    }
}

/// The least delay from the one site to the other, if both are known and it is.
fn least_between(leasts: &[Option<u16>], from: Option<usize>, to: Option<usize>) -> Option<u16>
    ensures { result ≡ least_between leasts.now from to }
{
    match (from, to) {
        (Some(from), Some(to)) => least_at(leasts, from, to),
        (Some(_), None) | (None, _) => None,
    }
}
