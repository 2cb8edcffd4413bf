//! What is wrong with where groups may be.

use super::lists::{PlanText, is_among};
use convoy_hints_sketch::{Hint, Names, Quoted};
use convoy_plans::MOST_PLACEMENTS;
use std::alloc::{AllocError, Global};

/// Which group has no table.
pub(crate) fn hint_for_houseless(alloc: Global, plan: &PlanText<'_>) -> Hint {
    for group in &plan.groups {
        if plan.homes.iter().all(|home| home.part.name != Some(*group)) {
            let (group, sites) = (Quoted(group), Names(&plan.sites));
            return format!(in alloc;
                "nothing says at which sites the group {group} may be: write a table [[group]] with 'name = {group}' and 'sites = [{sites}]', or some of these"
            ).map(Some);
        }
    }
    Ok(None)
}

/// That there are too many placements.
pub(crate) fn hint_for_many_placements(
    alloc: Global,
    plan: &PlanText<'_>,
) -> Result<String, AllocError> {
    let mut count: u64 = 1;
    for home in &plan.homes {
        count = count.saturating_mul(home.sites.len() as u64);
    }
    format!(in alloc;
        "there are {count} placements, the product of the numbers of sites at which the groups may be, and there may be {MOST_PLACEMENTS}: let some groups be at fewer sites"
    )
}

/// That each placement has two groups at one site which are to be apart.
pub(crate) fn hint_for_no_placement(
    alloc: Global,
    plan: &PlanText<'_>,
) -> Result<String, AllocError> {
    for groups in &plan.apart {
        let sites = sites_of_all(alloc, plan, groups)?;
        if sites.len() < groups.len() {
            return hint_for_few_sites(alloc, groups, &sites);
        }
    }
    String::from_str(
        alloc,
        "each placement has two groups at one site that are to be apart: let one of them be at a further site, or leave it out of 'apart'",
    )
}

/// That these groups are to be apart, and are more than the sites at which they may be.
fn hint_for_few_sites(
    alloc: Global,
    groups: &[&str],
    sites: &[&str],
) -> Result<String, AllocError> {
    let (groups, sites) = (Names(groups), Names(sites));
    format!(in alloc;
        "each placement has two groups at one site that are to be apart: the groups {groups} are more than the sites at which they may be ({sites}): let one of them be at a further site, or leave it out of 'apart'"
    )
}

/// The sites at which some of these groups may be.
fn sites_of_all<'a>(
    alloc: Global,
    plan: &PlanText<'a>,
    groups: &[&str],
) -> Result<Vec<&'a str>, AllocError> {
    let mut all = Vec::new(alloc);
    for group in groups {
        add_new(&mut all, plan.sites_of(group))?;
    }
    Ok(all)
}

/// Adds those of the sites that are not there yet.
fn add_new<'a>(all: &mut Vec<&'a str>, sites: &[&'a str]) -> Result<(), AllocError> {
    for site in sites {
        if !is_among(site, all) {
            all.push(*site)?;
        }
    }
    Ok(())
}
