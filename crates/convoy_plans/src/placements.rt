//! The scenario of a placement.

ghost use Rattle.std.specs.Prelude.{◌≡◌, ◌++◌, [], ◌∷◌, Some, drop, map, IfOk, OnOk, option_copied, slice_index_or};
ghost use Rattle.std.specs.List.{slice_get};
ghost use Rattle.convoy_draft.specs.declared.fault.ScenarioFault.TheVariants.{Memory};
ghost use Rattle.convoy_draft.specs.Checks.{is_named_alike};
ghost use Rattle.convoy_scenario.specs.Memory.{IsUnlessMemory};
ghost use Rattle.convoy_plans.specs.Placements.{client_spots, first_client, group_numbers, further_clients, further_spot, group_spot, groups_in, is_first, link_along, link_to, links_at, links_from, message_in, scenario_at, sender_in, site_at, spots, table_between, table_to, written_at};
ghost use Rattle.convoy_plans.specs.Plans.{group_name};

use super::plan::{Plan, number_at};
use super::ranges::table_between;
use super::spot::Spot;
use convoy_scenario::{Name, Scenario, ScenarioFault};
use convoy_toml::{
    LinkEnds, WrittenLink, WrittenMulticast, WrittenScenario, copy_names, scenario_of_written,
};
use std::alloc::{AllocError, Global};

/// The scenario of a placement, which is the sites of the groups, by number (docs/FORMATS.md, "Plan text"); or why it makes
/// none; or `ScenarioFault::Memory` where memory runs out.
pub fn scenario_at(
    alloc: Global,
    plan: &Plan,
    placement: &[usize],
) -> Result<Scenario, ScenarioFault>
    ensures { IsUnlessMemory Memory (scenario_at plan.now placement.now) result }
{
    let written = written_at(alloc, plan, placement)?;
    Ok(scenario_of_written(alloc, &written)?)
}

/// That scenario as it would be written: no clients of it are at named places. Fails where memory runs out, and else
/// never.
pub fn written_at(
    alloc: Global,
    plan: &Plan,
    placement: &[usize],
) -> Result<WrittenScenario, AllocError>
    ensures { IfOk result (λ written. written ≡ written_at plan.now placement.now) }
{
    let written = &plan.written;
    Ok(WrittenScenario {
        time: written.time,
        tick: plan.tick,
        delay: written.delay,
        least: written.least,
        groups: groups_in(alloc, plan)?,
        places: Vec::new(alloc),
        agreements: Vec::new(alloc),
        links: links_at(alloc, plan, placement)?,
        multicasts: messages_in(alloc, plan)?,
        target_message: written.target_message.copy()?,
        target_group: written.target_group.copy()?,
    })
}

/// The first site from which clients send some message.
fn first_client(plan: &Plan) -> Option<usize>
    ensures { result ≡ first_client plan.now }
{
    plan.clients.first().copied()
}

/// The other sites from which clients send some.
fn further_clients(plan: &Plan) -> &[usize]
    ensures { result.now ≡ further_clients plan.now }
{
    match plan.clients.split_first() {
        Some((_, rest)) => rest,
        None => &[],
    }
}

/// Whether the name is that of the first site from which clients send some message.
fn is_first(plan: &Plan, name: &Name) -> bool
    ensures { result ≡ is_first plan.now name.now }
{
    match first_client(plan) {
        Some(site) => name.as_str() == plan.site_name(site),
        None => false,
    }
}

/// Who sends in the scenario what is written to be sent from there.
fn sender_in(plan: &Plan, sender: &Option<Name>) -> Result<Option<Name>, AllocError>
    ensures { IfOk result (λ name. name ≡ sender_in plan.now sender.now) }
{
    match sender {
        Some(name) => {
            if is_first(plan, name) {
                return Ok(None);
            }
            Ok(Some(name.copy()?))
        }
        None => Ok(None),
    }
}

/// A message of the scenario.
fn message_in(
    alloc: Global,
    plan: &Plan,
    message: &WrittenMulticast,
) -> Result<WrittenMulticast, AllocError>
    ensures { IfOk result (λ changed. changed ≡ message_in plan.now message.now) }
{
    Ok(WrittenMulticast {
        name: message.name.copy()?,
        sender: sender_in(plan, &message.sender)?,
        to: copy_names(alloc, &message.to)?,
        at: message.at,
        until: message.until,
        within: message.within,
        longer: message.longer,
    })
}

/// The messages of the scenario.
fn messages_in(alloc: Global, plan: &Plan) -> Result<Vec<WrittenMulticast>, AllocError>
    ensures { IfOk result (λ messages. messages.items ≡ map (message_in plan.now) plan.now.written.messages) }
{
    let mut messages = Vec::new(alloc);
    for message in &plan.written.multicasts {
        messages.push(message_in(alloc, plan, message)?)?;
    }
    Ok(messages)
}

/// The groups of the scenario: those of the plan, and then the other sites of clients.
fn groups_in(alloc: Global, plan: &Plan) -> Result<Vec<Name>, AllocError>
    ensures { IfOk result (λ groups. groups.items ≡ groups_in plan.now) }
{
    let mut groups = copy_names(alloc, &plan.written.groups)?;
    for site in further_clients(plan) {
        groups.push(Name::new(alloc, plan.site_name(*site))?)?;
    }
    Ok(groups)
}

/// All places from which something is sent: the clients, the groups, and the clients at other sites.
fn spots(alloc: Global, plan: &Plan, placement: &[usize]) -> Result<Vec<Spot>, AllocError>
    ensures { IfOk result (λ all. all.items ≡ spots plan.now placement.now) }
{
    let mut all = first_spots(alloc, plan)?;
    push_groups(alloc, &mut all, plan, placement)?;
    push_further(alloc, &mut all, plan)?;
    Ok(all)
}

/// The clients at the first site from which they send, if there is one.
fn first_spots(alloc: Global, plan: &Plan) -> Result<Vec<Spot>, AllocError>
    ensures { IfOk result (λ all. all.items ≡ client_spots (first_client plan.now)) }
{
    let mut all = Vec::new(alloc);
    if let Some(site) = first_client(plan) {
        all.push(Spot { name: None, site })?;
    }
    Ok(all)
}

/// Appends the groups, where they are.
fn push_groups(
    alloc: Global,
    all: &mut Vec<Spot>,
    plan: &Plan,
    placement: &[usize],
) -> Result<(), AllocError>
    ensures { OnOk result (all.new.items
        ≡ all.old.items ++ map (group_spot plan.now placement.now) (group_numbers plan.now)) }
{
    for group in 0..plan.written.groups.len() {
        all.push(Spot {
            name: Some(Name::new(alloc, plan.group_name(group))?),
            site: number_at(placement, group),
        })?;
    }
    Ok(())
}

/// Appends the clients at other sites than the first.
fn push_further(alloc: Global, all: &mut Vec<Spot>, plan: &Plan) -> Result<(), AllocError>
    ensures { OnOk result (all.new.items
        ≡ all.old.items ++ map (further_spot plan.now) (further_clients plan.now)) }
{
    for site in further_clients(plan) {
        all.push(Spot {
            name: Some(Name::new(alloc, plan.site_name(*site))?),
            site: *site,
        })?;
    }
    Ok(())
}

/// Whether the place is the group of that name.
fn is_group(spot: &Spot, name: &str) -> bool
    ensures { result ≡ is_named_alike spot.now.name (Some name.now) }
{
    match &spot.name {
        Some(other) => other.as_str() == name,
        None => false,
    }
}

/// A link from the place to the group with the range of a table.
fn link_along(
    alloc: Global,
    spot: &Spot,
    to: &str,
    link: &WrittenLink,
) -> Result<WrittenLink, AllocError>
    ensures { IfOk result (λ made. made ∷ [] ≡ link_along spot.now to.now (Some link.now)) }
{
    let senders = match &spot.name {
        Some(name) => Some(vec![in alloc; name.copy()?]?),
        None => None,
    };
    let to = vec![in alloc; Name::new(alloc, to)?]?;
    Ok(WrittenLink {
        ends: LinkEnds {
            senders,
            to,
            both: false,
        },
        least: link.least,
        most: link.most,
        stamps: false,
    })
}

/// The table whose range a link from the place to the group has: none where the place is the group itself.
fn table_to<'a>(
    plan: &'a Plan,
    placement: &[usize],
    spot: &Spot,
    group: usize,
) -> Option<&'a WrittenLink>
    ensures { option_copied result ≡ table_to plan.now placement.now spot.now group }
{
    if is_group(spot, plan.group_name(group)) {
        None
    } else {
        table_from(plan, spot.site, number_at(placement, group))
    }
}

/// The first table whose links lead from the one site to the other.
fn table_from(plan: &Plan, from: usize, to: usize) -> Option<&WrittenLink>
    ensures { option_copied result ≡ table_between plan.now from to }
{
    table_between(
        &plan.written.links,
        plan.site_name(from),
        plan.site_name(to),
    )
}

/// Appends the link from the place to a group other than itself, if a range is written from site to site.
fn push_link_to(
    alloc: Global,
    links: &mut Vec<WrittenLink>,
    plan: &Plan,
    placement: &[usize],
    spot: &Spot,
    group: usize,
) -> Result<(), AllocError>
    ensures { OnOk result (links.new.items
        ≡ links.old.items ++ link_to plan.now placement.now spot.now group) }
{
    match table_to(plan, placement, spot, group) {
        Some(table) => {
            links.push(link_along(alloc, spot, plan.group_name(group), table)?)?;
            Ok(())
        }
        None => Ok(()),
    }
}

/// Appends the links from the place to the groups.
fn push_links_from(
    alloc: Global,
    links: &mut Vec<WrittenLink>,
    plan: &Plan,
    placement: &[usize],
    spot: &Spot,
) -> Result<(), AllocError>
    ensures { OnOk result (links.new.items
        ≡ links.old.items ++ links_from plan.now placement.now spot.now) }
{
    for group in 0..plan.written.groups.len() {
        push_link_to(alloc, links, plan, placement, spot, group)?;
    }
    Ok(())
}

/// All links of the scenario.
fn links_at(alloc: Global, plan: &Plan, placement: &[usize]) -> Result<Vec<WrittenLink>, AllocError>
    ensures { IfOk result (λ links. links.items ≡ links_at plan.now placement.now) }
{
    let spots = spots(alloc, plan, placement)?;
    let mut links = Vec::new(alloc);
    for spot in &spots {
        push_links_from(alloc, &mut links, plan, placement, spot)?;
    }
    Ok(links)
}
