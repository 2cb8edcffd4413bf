//! What is wrong with sites, and with names of them.

use super::lists::{PlanText, first_stray, is_among};
use convoy_hints_scenario::hint_for_no_such;
use convoy_hints_sketch::{Hint, Names, Quoted, is_word_for_clients, nearest};
use convoy_plans::MOST_SITES;
use convoy_toml::ScenarioTable;
use std::alloc::{AllocError, Global};

/// That there are too many sites, or none.
pub(crate) fn hint_for_many_sites(
    alloc: Global,
    plan: &PlanText<'_>,
) -> Result<String, AllocError> {
    let count = plan.sites.len();
    format!(in alloc; "there are {count} sites, and there may be 1 to {MOST_SITES}")
}

/// Which name is that of no site, and where it stands.
pub(crate) fn hint_for_unknown_site(alloc: Global, plan: &PlanText<'_>) -> Hint {
    if let Some(hint) = hint_for_stray_home(alloc, plan)? {
        return Ok(Some(hint));
    }
    match hint_for_stray_end(alloc, plan)? {
        Some(hint) => Ok(Some(hint)),
        None => hint_for_stray_sender(alloc, plan),
    }
}

/// A table of a group names a site that there is not.
fn hint_for_stray_home(alloc: Global, plan: &PlanText<'_>) -> Hint {
    for home in &plan.homes {
        if let Some(name) = first_stray(&home.sites, &plan.sites) {
            let part = home.part;
            let place = format!(in alloc; "'sites' in {part}")?;
            return hint_for_no_such(alloc, place.as_str(), "site", name, &plan.sites).map(Some);
        }
    }
    Ok(None)
}

/// A link leads from or to a site that there is not.
fn hint_for_stray_end(alloc: Global, plan: &PlanText<'_>) -> Hint {
    for (number, link) in plan.links.iter().enumerate() {
        let (key, name) = match (
            first_stray(&link.from, &plan.sites),
            first_stray(&link.to, &plan.sites),
        ) {
            (Some(name), _) => ("from", name),
            (None, Some(name)) => ("to", name),
            (None, None) => continue,
        };
        let part = plan.source.part(ScenarioTable::Link(number));
        if is_among(name, &plan.groups) {
            return hint_for_group_as_end(alloc, key, name).map(Some);
        }
        let place = format!(in alloc; "'{key}' in {part}")?;
        return hint_for_no_such(alloc, place.as_str(), "site", name, &plan.sites).map(Some);
    }
    Ok(None)
}

/// A link leads from or to a group.
fn hint_for_group_as_end(alloc: Global, key: &str, name: &str) -> Result<String, AllocError> {
    let name = Quoted(name);
    format!(in alloc;
        "'{key}' of a link names the group {name}, and the links of a plan lead from site to site: name the sites at which the group may be"
    )
}

/// A message is sent from what is no site and no group.
fn hint_for_stray_sender(alloc: Global, plan: &PlanText<'_>) -> Hint {
    for (number, message) in plan.messages.iter().enumerate() {
        let Some(name) = message.from else {
            continue;
        };
        if !is_among(name, &plan.sites) && !is_among(name, &plan.groups) {
            return hint_for_sender(alloc, plan, number, name).map(Some);
        }
    }
    Ok(None)
}

/// The message of that number is sent from what is no site and no group.
fn hint_for_sender(
    alloc: Global,
    plan: &PlanText<'_>,
    number: usize,
    name: &str,
) -> Result<String, AllocError> {
    let part = plan.source.part(ScenarioTable::Multicast(number));
    let (shown, sites, groups) = (Quoted(name), Names(&plan.sites), Names(&plan.groups));
    if is_word_for_clients(name) {
        return format!(in alloc;
            "'from' in {part} is {shown}: where a client sends, write the site at which it is, one of {sites}"
        );
    }
    let near = match nearest(alloc, name, &plan.sites)? {
        Some(near) => Some(near),
        None => nearest(alloc, name, &plan.groups)?,
    };
    match near {
        Some(near) => {
            let near = Quoted(near);
            format!(in alloc;
                "'from' in {part} names {shown}, which is no site and no group: did you mean {near}?"
            )
        }
        None => format!(in alloc;
            "'from' in {part} names {shown}, which is no site and no group: the sites are {sites}, and the groups {groups}"
        ),
    }
}

/// Which message does not say where it is sent from.
pub(crate) fn hint_for_no_place(alloc: Global, plan: &PlanText<'_>) -> Hint {
    for (number, message) in plan.messages.iter().enumerate() {
        if message.from.is_none() {
            let part = plan.source.part(ScenarioTable::Multicast(number));
            let site = Quoted(plan.sites.first().copied().unwrap_or("ireland"));
            return format!(in alloc;
                "{part} has no key 'from': write the site at which its client is, as 'from = {site}', or the group that sends it"
            ).map(Some);
        }
    }
    Ok(None)
}
