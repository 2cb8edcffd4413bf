//! What is wrong with names that stand in a plan alone.

use super::lists::{PlanText, first_stray, first_twice, is_among};
use convoy_hints_scenario::hint_for_no_such;
use convoy_hints_sketch::{Hint, Quoted};
use convoy_toml::{Asked, ScenarioTable, TargetKey, WrittenScenario};
use std::alloc::{AllocError, Global};

/// Which name stands twice, of a site, a group, or a table of one.
pub(crate) fn hint_for_double_place(alloc: Global, plan: &PlanText<'_>) -> Hint {
    if let Some(site) = first_twice(&plan.sites) {
        return hint_for_twice(alloc, "'sites' above the first header", site).map(Some);
    }
    for site in &plan.sites {
        if plan.groups.iter().any(|group| *group == *site) {
            let name = Quoted(site);
            return format!(in alloc;
                "{name} is the name of a site and of a group: give one of them another"
            ).map(Some);
        }
    }
    match hint_for_double_home(alloc, plan)? {
        Some(hint) => Ok(Some(hint)),
        None => hint_for_double_apart(alloc, plan),
    }
}

/// A name stands twice at that place.
fn hint_for_twice(alloc: Global, place: &str, name: &str) -> Result<String, AllocError> {
    let name = Quoted(name);
    format!(in alloc; "{place} names {name} twice")
}

/// A group has two tables, or a table names a site twice.
fn hint_for_double_home(alloc: Global, plan: &PlanText<'_>) -> Hint {
    for (place, home) in plan.homes.iter().enumerate() {
        let part = home.part;
        if let Some(site) = first_twice(&home.sites) {
            let place = format!(in alloc; "'sites' in {part}")?;
            return hint_for_twice(alloc, place.as_str(), site).map(Some);
        }
        let other = plan.homes.iter().take(place).find(|other| {
            part.name.is_some() && other.part.name == part.name
        });
        if let Some(other) = other {
            let other = other.part;
            return format!(in alloc;
                "{other} and {part} are of one group: write one table with all sites at which it may be"
            ).map(Some);
        }
    }
    Ok(None)
}

/// A list of groups that are to be apart names one twice.
fn hint_for_double_apart(alloc: Global, plan: &PlanText<'_>) -> Hint {
    for groups in &plan.apart {
        if let Some(group) = first_twice(groups) {
            return hint_for_twice(alloc, "a list in 'apart'", group).map(Some);
        }
    }
    Ok(None)
}

/// Which name is that of no group: of a table, in a list of groups that are to be apart, of a destination, or of the target's
/// group.
pub(crate) fn hint_for_unknown_group(
    alloc: Global,
    plan: &PlanText<'_>,
    asked: &Asked,
    written: &WrittenScenario,
) -> Hint {
    if plan.groups.is_empty() {
        return hint_for_empty_groups(alloc).map(Some);
    }
    match hint_for_stray_group(alloc, plan)? {
        Some(hint) => Ok(Some(hint)),
        None => hint_for_stray_target(alloc, plan, asked, written),
    }
}

/// A plan names no groups.
fn hint_for_empty_groups(alloc: Global) -> Result<String, AllocError> {
    String::from_str(
        alloc,
        "'groups' names no group: write the names of all groups, as 'groups = [\"orders\", \"stock\"]'",
    )
}

/// The group of the target is none.
fn hint_for_stray_target(
    alloc: Global,
    plan: &PlanText<'_>,
    asked: &Asked,
    written: &WrittenScenario,
) -> Hint {
    let place = match &asked.target {
        TargetKey::Named { .. } => "'--target'",
        TargetKey::Required | TargetKey::Optional => "'group' in the target",
    };
    let name = written.target_group.as_str();
    if is_among(name, &plan.groups) {
        return Ok(None);
    }
    hint_for_no_such(alloc, place, "group", name, &plan.groups).map(Some)
}

/// Which name is that of no group, but that of the target's.
fn hint_for_stray_group(alloc: Global, plan: &PlanText<'_>) -> Hint {
    for home in &plan.homes {
        if let Some(name) = stray_of(home.part.name, &plan.groups) {
            let part = home.part;
            let place = format!(in alloc; "'name' in {part}")?;
            return hint_for_no_such(alloc, place.as_str(), "group", name, &plan.groups).map(Some);
        }
    }
    for groups in &plan.apart {
        if let Some(name) = first_stray(groups, &plan.groups) {
            return hint_for_no_such(alloc, "'apart'", "group", name, &plan.groups).map(Some);
        }
    }
    hint_for_stray_destination(alloc, plan)
}

/// The name, where it is none of these.
fn stray_of<'a>(name: Option<&'a str>, names: &[&str]) -> Option<&'a str> {
    let name = name?;
    if names.iter().any(|other| *other == name) {
        None
    } else {
        Some(name)
    }
}

/// A message goes to what is no group.
fn hint_for_stray_destination(alloc: Global, plan: &PlanText<'_>) -> Hint {
    for (number, message) in plan.messages.iter().enumerate() {
        if let Some(name) = first_stray(&message.to, &plan.groups) {
            let part = plan.source.part(ScenarioTable::Multicast(number));
            let place = format!(in alloc; "'to' in {part}")?;
            return hint_for_no_such(alloc, place.as_str(), "group", name, &plan.groups).map(Some);
        }
    }
    Ok(None)
}
