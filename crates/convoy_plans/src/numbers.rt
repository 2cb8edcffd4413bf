//! The numbers of a plan.

ghost use Rattle.std.specs.Prelude.{◌≡◌, find, map, option_copied, IfOk};
ghost use Rattle.std.specs.List.{list_any};
ghost use Rattle.std.specs.Str.{bytes_eq};
ghost use Rattle.convoy_scenario.specs.Numbering.{numbers_of, place};
ghost use Rattle.convoy_plans.specs.Numbering.{all_housed, apart_in, goes_in, housed_in, origin_in, origins_in, places};
ghost use Rattle.convoy_plans.specs.Plans.{client_sites, is_site};

use super::lists::{Names, Numbers};
use super::plan::Origin;
use super::written::{Home, WrittenPlan};
use convoy_scenario::Name;
use convoy_toml::WrittenMulticast;
use std::alloc::{AllocError, Global};

/// The place of the name, or 0 where it is not there.
fn place(name: &Name, names: &[Name]) -> usize
    ensures { result ≡ place name.now names.now }
{
    names
        .iter()
        .position(|other| name.is_same(other))
        .unwrap_or(0)
}

/// The places of the names among others.
fn places(alloc: Global, others: &[Name], names: &[Name]) -> Result<Numbers, AllocError>
    ensures { IfOk result (λ numbers. numbers ≡ places others.now names.now) }
{
    let mut items = Vec::new(alloc);
    for name in names {
        items.push(place(name, others))?;
    }
    Ok(Numbers { items })
}

/// The first table of the group of that name.
fn home_of<'a>(homes: &'a [Home], group: &Name) -> Option<&'a Home>
    ensures { option_copied result ≡ find (λ home. bytes_eq group.now home.name) homes.now }
{
    homes.iter().find(|home| group.is_same(&home.name))
}

/// The sites of a group.
fn housed_in(
    alloc: Global,
    sites: &[Name],
    homes: &[Home],
    group: &Name,
) -> Result<Numbers, AllocError>
    ensures { IfOk result (λ numbers. numbers ≡ housed_in sites.now homes.now group.now) }
{
    match home_of(homes, group) {
        Some(home) => places(alloc, sites, &home.sites),
        None => Ok(Numbers {
            items: Vec::new(alloc),
        }),
    }
}

/// The sites of each group.
fn all_housed(
    alloc: Global,
    sites: &[Name],
    homes: &[Home],
    groups: &[Name],
) -> Result<Vec<Numbers>, AllocError>
    ensures { IfOk result (λ lists. lists.items ≡ map (housed_in sites.now homes.now) groups.now) }
{
    let mut lists = Vec::new(alloc);
    for group in groups {
        lists.push(housed_in(alloc, sites, homes, group)?)?;
    }
    Ok(lists)
}

/// The numbers of the groups in each of the lists.
fn all_places(alloc: Global, groups: &[Name], lists: &[Names]) -> Result<Vec<Numbers>, AllocError>
    ensures { IfOk result (λ numbers. numbers.items ≡ map (places groups.now) lists.now) }
{
    let mut numbers = Vec::new(alloc);
    for names in lists {
        numbers.push(places(alloc, groups, &names.items)?)?;
    }
    Ok(numbers)
}

/// Where what is written so is sent from.
fn origin_in(sites: &[Name], groups: &[Name], sender: &Option<Name>) -> Origin
    ensures { result ≡ origin_in sites.now groups.now sender.now }
{
    match sender {
        Some(name) => {
            if name.is_among(groups) {
                Origin::Group(place(name, groups))
            } else {
                Origin::Site(place(name, sites))
            }
        }
        None => Origin::Site(0),
    }
}

/// Where each message is sent from.
fn origins_in(
    alloc: Global,
    sites: &[Name],
    groups: &[Name],
    messages: &[WrittenMulticast],
) -> Result<Vec<Origin>, AllocError>
    ensures { IfOk result (λ origins. origins.items
        ≡ map (λ message. origin_in sites.now groups.now message.sender) messages.now) }
{
    let mut origins = Vec::new(alloc);
    for message in messages {
        origins.push(origin_in(sites, groups, &message.sender))?;
    }
    Ok(origins)
}

/// The numbers of the groups that are named, ascending.
fn numbers_of(alloc: Global, groups: &[Name], named: &[Name]) -> Result<Vec<usize>, AllocError>
    ensures { IfOk result (λ numbers. numbers.items ≡ numbers_of groups.now named.now) }
{
    let mut numbers = Vec::new(alloc);
    for (g, group) in groups.iter().enumerate() {
        if group.is_among(named) {
            numbers.push(g)?;
        }
    }
    Ok(numbers)
}

/// The groups that each message goes to.
fn all_going(
    alloc: Global,
    groups: &[Name],
    messages: &[WrittenMulticast],
) -> Result<Vec<Numbers>, AllocError>
    ensures { IfOk result (λ lists. lists.items
        ≡ map (λ message. numbers_of groups.now message.to) messages.now) }
{
    let mut lists = Vec::new(alloc);
    for message in messages {
        let items = numbers_of(alloc, groups, &message.to)?;
        lists.push(Numbers { items })?;
    }
    Ok(lists)
}

impl Origin {
    /// Whether clients at that site send what is sent from there.
    fn is_site(&self, site: usize) -> bool
        ensures { result ≡ is_site site self.now }
    {
        match self {
            Origin::Site(other) => *other == site,
            Origin::Group(_) => false,
        }
    }
}

/// Whether clients at that site send some message.
fn send_from(origins: &[Origin], site: usize) -> bool
    ensures { result ≡ list_any (is_site site) origins.now }
{
    origins.iter().any(|origin| origin.is_site(site))
}

/// The sites from which clients send some message, in the order of the sites.
fn client_sites(alloc: Global, origins: &[Origin], sites: &[Name]) -> Result<Vec<usize>, AllocError>
    ensures { IfOk result (λ clients. clients.items ≡ client_sites origins.now sites.now) }
{
    let mut clients = Vec::new(alloc);
    for site in 0..sites.len() {
        if send_from(origins, site) {
            clients.push(site)?;
        }
    }
    Ok(clients)
}

/// Where each message of a plan is sent from.
pub(crate) fn origins_of(alloc: Global, written: &WrittenPlan) -> Result<Vec<Origin>, AllocError>
    ensures { IfOk result (λ origins. origins.items ≡ origins_in written.now) }
{
    let scenario = &written.scenario;
    origins_in(
        alloc,
        &written.sites,
        &scenario.groups,
        &scenario.multicasts,
    )
}

/// The groups that each message of a plan goes to.
pub(crate) fn goes_of(alloc: Global, written: &WrittenPlan) -> Result<Vec<Numbers>, AllocError>
    ensures { IfOk result (λ lists. lists.items ≡ goes_in written.now) }
{
    let scenario = &written.scenario;
    all_going(alloc, &scenario.groups, &scenario.multicasts)
}

/// The lists of groups of a plan no two of which are at one site.
pub(crate) fn apart_of(alloc: Global, written: &WrittenPlan) -> Result<Vec<Numbers>, AllocError>
    ensures { IfOk result (λ lists. lists.items ≡ apart_in written.now) }
{
    all_places(alloc, &written.scenario.groups, &written.apart)
}

/// The sites at which each group of a plan may be.
pub(crate) fn housed_of(alloc: Global, written: &WrittenPlan) -> Result<Vec<Numbers>, AllocError>
    ensures { IfOk result (λ lists. lists.items ≡ all_housed written.now) }
{
    all_housed(
        alloc,
        &written.sites,
        &written.homes,
        &written.scenario.groups,
    )
}

/// The sites of a plan from which clients send some message.
pub(crate) fn clients_of(
    alloc: Global,
    origins: &[Origin],
    written: &WrittenPlan,
) -> Result<Vec<usize>, AllocError>
    ensures { IfOk result (λ clients. clients.items ≡ client_sites origins.now written.now.sites) }
{
    client_sites(alloc, origins, &written.sites)
}
