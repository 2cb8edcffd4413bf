//! The rules for a plan as it is written, in the order in which they are asked.

ghost use Rattle.std.specs.Prelude.{◌≡◌, ◌++◌, ◌&&◌, ◌*◌, ◌^◌, ◌-◌, is_some, not, length, map, min, nat_le, IfOk};
ghost use Rattle.std.specs.List.{list_all, list_any};
ghost use Rattle.convoy_draft.specs.declared.fault.ScenarioFault.TheVariants.{Memory};
ghost use Rattle.convoy_draft.specs.Checks.{all_differ, is_among, is_count, is_same_pair, links_differ};
ghost use Rattle.convoy_draft.specs.Names.{is_group_name};
ghost use Rattle.convoy_scenario.specs.Memory.{IsUnlessMemory};
ghost use Rattle.convoy_plans.specs.declared.fault.PlanFault.TheVariants.{Scenario};
ghost use Rattle.convoy_plans.specs.Checks.{are_among, group_checks, is_sent_from, judge, knows_ends, limit_checks, name_checks, placement_count, places_of, rules_of, settled_of, site_checks};

use super::fault::{MOST_PLACEMENTS, MOST_SITES, PlanFault, PlanLimit};
use super::lists::{Names, Numbers};
use super::ranges::senders_of;
use super::written::{Home, WrittenPlan};
use convoy_draft::all_have_ranges;
use convoy_scenario::{
    DraftLink, DraftScenario, Key, Limit, Name, ScenarioFault, is_named_alike, is_within,
};
use convoy_toml::{LinkEnds, WrittenLink, WrittenMulticast, copy_names};
use std::alloc::{AllocError, Global};

/// Tells the first rule that a plan breaks, of which the times are these in ticks, and whose groups may be at these sites.
pub(crate) fn check(
    alloc: Global,
    plan: &WrittenPlan,
    draft: &DraftScenario,
    housed: &[Numbers],
) -> Result<(), PlanFault>
    ensures { IsUnlessMemory (Scenario Memory)
        (judge (rules_of plan.now draft.now housed.now (places_of plan.now) (settled_of plan.now))) result }
{
    let places = places_of(alloc, plan)?;
    let settled = settled_of(alloc, plan)?;
    check_all(plan, draft, housed, &places, &settled)
}

/// The same, where the names of all places and of the groups that have a table are these.
fn check_all(
    plan: &WrittenPlan,
    draft: &DraftScenario,
    housed: &[Numbers],
    places: &[Name],
    settled: &[Name],
) -> Result<(), PlanFault>
    ensures { result ≡ judge (rules_of plan.now draft.now housed.now places.now settled.now) }
{
    check_limits(plan, draft, housed)?;
    check_all_names(plan, draft, places, settled)
}

/// The rules that are asked after those on numbers.
fn check_all_names(
    plan: &WrittenPlan,
    draft: &DraftScenario,
    places: &[Name],
    settled: &[Name],
) -> Result<(), PlanFault>
    ensures { result ≡ judge (name_checks plan.now draft.now places.now settled.now
        ++ (group_checks plan.now settled.now ++ site_checks plan.now places.now)) }
{
    check_names(plan, draft, places, settled)?;
    check_references(plan, places, settled)
}

/// The rules on what refers to groups and sites.
fn check_references(plan: &WrittenPlan, places: &[Name], settled: &[Name]) -> Result<(), PlanFault>
    ensures { result ≡ judge (group_checks plan.now settled.now ++ site_checks plan.now places.now) }
{
    check_groups(plan, settled)?;
    check_sites(plan, places)
}

/// The names of all places: the groups, and the sites.
fn places_of(alloc: Global, plan: &WrittenPlan) -> Result<Vec<Name>, AllocError>
    ensures { IfOk result (λ names. names.items ≡ places_of plan.now) }
{
    let mut names = copy_names(alloc, &plan.scenario.groups)?;
    let mut sites = copy_names(alloc, &plan.sites)?;
    names.append(&mut sites)?;
    Ok(names)
}

/// The names of the groups that have a table.
fn settled_of(alloc: Global, plan: &WrittenPlan) -> Result<Vec<Name>, AllocError>
    ensures { IfOk result (λ names. names.items ≡ settled_of plan.now) }
{
    let mut names = Vec::new(alloc);
    for home in &plan.homes {
        names.push(home.name.copy()?)?;
    }
    Ok(names)
}

fn check_limits(
    plan: &WrittenPlan,
    draft: &DraftScenario,
    housed: &[Numbers],
) -> Result<(), PlanFault>
    ensures { result ≡ judge (limit_checks plan.now draft.now housed.now) }
{
    if !is_count(plan.sites.len(), MOST_SITES) {
        return Err(PlanFault::OverLimit(PlanLimit::Sites));
    }
    if !is_within(draft.delay, 1, u32::from(draft.time.greatest_delay())) {
        return Err(PlanFault::Scenario(ScenarioFault::OverLimit(Limit::Delay)));
    }
    if !all_have_ranges(draft.delay, &draft.links) {
        return Err(PlanFault::Scenario(ScenarioFault::OverLimit(Limit::Link)));
    }
    if !are_few(housed) {
        return Err(PlanFault::OverLimit(PlanLimit::Placements));
    }
    Ok(())
}

fn check_names(
    plan: &WrittenPlan,
    draft: &DraftScenario,
    places: &[Name],
    settled: &[Name],
) -> Result<(), PlanFault>
    ensures { result ≡ judge (name_checks plan.now draft.now places.now settled.now) }
{
    if !are_good(&plan.sites) {
        return Err(PlanFault::Scenario(ScenarioFault::BadName));
    }
    if !all_differ(places) {
        return Err(PlanFault::Scenario(ScenarioFault::DoubleName));
    }
    if !all_differ(settled) {
        return Err(PlanFault::Scenario(ScenarioFault::DoubleName));
    }
    if !home_sites_differ(&plan.homes) {
        return Err(PlanFault::Scenario(ScenarioFault::DoubleName));
    }
    if !apart_differ(&plan.apart) {
        return Err(PlanFault::Scenario(ScenarioFault::DoubleName));
    }
    if !links_differ(&draft.links) {
        return Err(PlanFault::Scenario(ScenarioFault::DoubleName));
    }
    Ok(())
}

fn check_groups(plan: &WrittenPlan, settled: &[Name]) -> Result<(), PlanFault>
    ensures { result ≡ judge (group_checks plan.now settled.now) }
{
    if !are_among(settled, &plan.scenario.groups) {
        return Err(PlanFault::Scenario(ScenarioFault::UnknownGroup));
    }
    if !apart_are_known(&plan.apart, &plan.scenario.groups) {
        return Err(PlanFault::Scenario(ScenarioFault::UnknownGroup));
    }
    if !all_go_to_groups(&plan.scenario.multicasts, &plan.scenario.groups) {
        return Err(PlanFault::Scenario(ScenarioFault::UnknownGroup));
    }
    if !are_among(&plan.scenario.groups, settled) {
        return Err(PlanFault::NoSites);
    }
    Ok(())
}

fn check_sites(plan: &WrittenPlan, places: &[Name]) -> Result<(), PlanFault>
    ensures { result ≡ judge (site_checks plan.now places.now) }
{
    if !home_sites_are_known(&plan.homes, &plan.sites) {
        return Err(PlanFault::UnknownSite);
    }
    if !all_links_have_senders(&plan.scenario.links) {
        return Err(PlanFault::Scenario(ScenarioFault::Shape(Key::From)));
    }
    if !none_is_for_stamps(&plan.scenario.links) {
        return Err(PlanFault::Scenario(ScenarioFault::Shape(Key::Stamps)));
    }
    if !all_ends_are_known(&plan.scenario.links, &plan.sites) {
        return Err(PlanFault::UnknownSite);
    }
    if !all_messages_have_senders(&plan.scenario.multicasts) {
        return Err(PlanFault::NoPlace);
    }
    if !all_are_sent_from(&plan.scenario.multicasts, places) {
        return Err(PlanFault::UnknownSite);
    }
    Ok(())
}

fn is_count(count: usize, most: usize) -> bool
    ensures { result ≡ (nat_le 1 count && nat_le count most) }
{
    1 <= count && count <= most
}

/// So many times the sites, or `usize::MAX` where that is more.
fn times(count: usize, sites: &Numbers) -> usize
    ensures { result ≡ min (count * length sites.now) (2 ^ 64 - 1) }
{
    count.saturating_mul(sites.items.len())
}

/// Whether there are no more placements than there may be.
fn are_few(housed: &[Numbers]) -> bool
    ensures { result ≡ nat_le (placement_count housed.now) MOST_PLACEMENTS }
{
    let mut count: usize = 1;
    for sites in housed {
        count = times(count, sites);
    }
    count <= MOST_PLACEMENTS
}

fn are_good(names: &[Name]) -> bool
    ensures { result ≡ list_all is_group_name names.now }
{
    names.iter().all(|name| name.is_good_for_group())
}

/// Whether no two of the names are the same.
fn all_differ(names: &[Name]) -> bool
    ensures { result ≡ all_differ names.now }
{
    let mut rest = names;
    while let Some((name, tail)) = rest.split_first() {
        if name.is_among(tail) {
            return false;
        }
        rest = tail;
    }
    true
}

fn home_sites_differ(homes: &[Home]) -> bool
    ensures { result ≡ list_all (λ home. all_differ home.sites) homes.now }
{
    homes.iter().all(|home| all_differ(&home.sites))
}

fn apart_differ(lists: &[Names]) -> bool
    ensures { result ≡ list_all all_differ lists.now }
{
    lists.iter().all(|names| all_differ(&names.items))
}

fn is_same_pair(link: &DraftLink, other: &DraftLink) -> bool
    ensures { result ≡ is_same_pair link.now other.now }
{
    is_named_alike(&link.sender, &other.sender) && link.to.is_same(&other.to)
}

fn has_same_pair(link: &DraftLink, links: &[DraftLink]) -> bool
    ensures { result ≡ list_any (is_same_pair link.now) links.now }
{
    links.iter().any(|other| is_same_pair(link, other))
}

/// Whether no two of the links lead from one site to one site.
fn links_differ(links: &[DraftLink]) -> bool
    ensures { result ≡ links_differ links.now }
{
    let mut rest = links;
    while let Some((first, tail)) = rest.split_first() {
        if has_same_pair(first, tail) {
            return false;
        }
        rest = tail;
    }
    true
}

/// Whether all of the names are among others.
fn are_among(names: &[Name], others: &[Name]) -> bool
    ensures { result ≡ are_among names.now others.now }
{
    names.iter().all(|name| name.is_among(others))
}

fn apart_are_known(lists: &[Names], groups: &[Name]) -> bool
    ensures { result ≡ list_all (λ names. are_among names groups.now) lists.now }
{
    lists.iter().all(|names| are_among(&names.items, groups))
}

fn home_sites_are_known(homes: &[Home], sites: &[Name]) -> bool
    ensures { result ≡ list_all (λ home. are_among home.sites sites.now) homes.now }
{
    homes.iter().all(|home| are_among(&home.sites, sites))
}

fn all_links_have_senders(links: &[WrittenLink]) -> bool
    ensures { result ≡ list_all (λ link. is_some link.ends.senders) links.now }
{
    links.iter().all(|link| has_senders(&link.ends))
}

/// Whether no link is for a group's own stamps: a plan's links lead from site to site.
fn none_is_for_stamps(links: &[WrittenLink]) -> bool
    ensures { result ≡ list_all (λ link. not link.stamps) links.now }
{
    links.iter().all(|link| !link.stamps)
}

fn has_senders(ends: &LinkEnds) -> bool
    ensures { result ≡ is_some ends.now.senders }
{
    ends.senders.is_some()
}

/// Whether both ends of a table's links are sites.
fn knows_ends(sites: &[Name], ends: &LinkEnds) -> bool
    ensures { result ≡ knows_ends sites.now ends.now }
{
    are_among(senders_of(ends), sites) && are_among(&ends.to, sites)
}

fn all_ends_are_known(links: &[WrittenLink], sites: &[Name]) -> bool
    ensures { result ≡ list_all (λ link. knows_ends sites.now link.ends) links.now }
{
    links.iter().all(|link| knows_ends(sites, &link.ends))
}

fn all_go_to_groups(messages: &[WrittenMulticast], groups: &[Name]) -> bool
    ensures { result ≡ list_all (λ message. are_among message.to groups.now) messages.now }
{
    messages
        .iter()
        .all(|message| are_among(&message.to, groups))
}

fn all_messages_have_senders(messages: &[WrittenMulticast]) -> bool
    ensures { result ≡ list_all (λ message. is_some message.sender) messages.now }
{
    messages.iter().all(|message| message.sender.is_some())
}

/// Whether what sends the message is one of the places.
fn is_sent_from(places: &[Name], message: &WrittenMulticast) -> bool
    ensures { result ≡ is_sent_from places.now message.now }
{
    match &message.sender {
        Some(name) => name.is_among(places),
        None => false,
    }
}

fn all_are_sent_from(messages: &[WrittenMulticast], places: &[Name]) -> bool
    ensures { result ≡ list_all (is_sent_from places.now) messages.now }
{
    messages.iter().all(|message| is_sent_from(places, message))
}
