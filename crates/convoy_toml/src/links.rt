ghost use Rattle.std.specs.Prelude.{◌≡◌, ◌++◌, map, flat_map, filter, nat_le, option_map, sum_by, IfOk, OnOk};
ghost use Rattle.std.specs.List.{list_any};
ghost use Rattle.convoy_draft.specs.Checks.{leads_elsewhere};
ghost use Rattle.convoy_scenario.specs.Memory.{IsUnlessMemory};
ghost use Rattle.convoy_toml.specs.Links.{link_in, links_from, links_between, ways_of, apart, links_of_bundle, count_of, links_of_bundles};
ghost use Rattle.convoy_toml.specs.Shape.{listed};

use super::bundle::Bundle;
use convoy_scenario::{DraftLink, Limit, Name, ScenarioFault};
use std::alloc::{AllocError, Global};

/// How many links the tables of a text write at most, those from a group to itself among them.
pub const MOST_WRITTEN_LINKS: usize = 4_096;

/// The links that all tables write, in order, or `ScenarioFault::OverLimit` where there are more than
/// `MOST_WRITTEN_LINKS` (docs/FORMATS.md, "Several links in one table").
pub fn links_of_bundles(alloc: Global, bundles: &[Bundle]) -> Result<Vec<DraftLink>, ScenarioFault>
    ensures { IsUnlessMemory ScenarioFault.Memory (links_of_bundles bundles.now) (listed result) }
{
    if !are_few(bundles) {
        return Err(ScenarioFault::OverLimit(Limit::Link));
    }
    Ok(all_links(alloc, bundles)?)
}

/// Whether the tables write no more links than they may.
pub(crate) fn are_few(bundles: &[Bundle]) -> bool
    ensures { result ≡ nat_le (sum_by count_of bundles.now) MOST_WRITTEN_LINKS }
{
    let mut count: usize = 0;
    for bundle in bundles {
        count = count.saturating_add(bundle.count());
    }
    count <= MOST_WRITTEN_LINKS
}

fn all_links(alloc: Global, bundles: &[Bundle]) -> Result<Vec<DraftLink>, AllocError>
    ensures { IfOk result (λ links. links.items ≡ flat_map links_of_bundle bundles.now) }
{
    let mut links = Vec::new(alloc);
    for bundle in bundles {
        let mut more = links_of_bundle(alloc, bundle)?;
        links.append(&mut more)?;
    }
    Ok(links)
}

/// The links that a table writes.
pub fn links_of_bundle(alloc: Global, bundle: &Bundle) -> Result<Vec<DraftLink>, AllocError>
    ensures { IfOk result (λ links. links.items ≡ links_of_bundle bundle.now) }
{
    let mut links = ways_of(alloc, bundle)?;
    keep_apart(&mut links);
    Ok(links)
}

/// Takes the links from a group to itself out, unless there are no others.
fn keep_apart(links: &mut Vec<DraftLink>)
    ensures { links.new.items ≡ apart links.old.items }
{
    if some_lead_elsewhere(links) {
        keep_leading_elsewhere(links);
    }
}

/// Whether there is a link to another place than its sender.
fn some_lead_elsewhere(links: &[DraftLink]) -> bool
    ensures { result ≡ list_any leads_elsewhere links.now }
{
    links.iter().any(|link| link.leads_elsewhere())
}

/// Keeps the links to another place than their sender, and no other.
fn keep_leading_elsewhere(links: &mut Vec<DraftLink>)
    ensures { links.new.items ≡ filter leads_elsewhere links.old.items }
{
    links.retain(|link| link.leads_elsewhere());
}

/// The ways there, and where both are asked for the ways back.
fn ways_of(alloc: Global, bundle: &Bundle) -> Result<Vec<DraftLink>, AllocError>
    ensures { IfOk result (λ links. links.items ≡ ways_of bundle.now) }
{
    let mut links = Vec::new(alloc);
    match &bundle.ends.senders {
        Some(senders) => {
            push_between(&mut links, bundle, senders, &bundle.ends.to)?;
            if bundle.ends.both {
                push_between(&mut links, bundle, &bundle.ends.to, senders)?;
            }
        }
        None => push_from(&mut links, bundle, None, &bundle.ends.to)?,
    }
    Ok(links)
}

/// Appends links from each of these to each of the groups, sender by sender.
fn push_between(
    links: &mut Vec<DraftLink>,
    bundle: &Bundle,
    senders: &[Name],
    to: &[Name],
) -> Result<(), AllocError>
    ensures { OnOk result (links.new.items
        ≡ links.old.items ++ links_between bundle.now senders.now to.now) }
{
    for sender in senders {
        push_from(links, bundle, Some(sender), to)?;
    }
    Ok(())
}

/// Appends links from one sender to each of the groups.
fn push_from(
    links: &mut Vec<DraftLink>,
    bundle: &Bundle,
    sender: Option<&Name>,
    to: &[Name],
) -> Result<(), AllocError>
    ensures { OnOk result (links.new.items
        ≡ links.old.items ++ links_from bundle.now (option_map (λ name. name.now) sender.entry) to.now) }
{
    for group in to {
        links.push(link_in(bundle, sender, group)?)?;
    }
    Ok(())
}

/// A link with the range of the bundle.
fn link_in(bundle: &Bundle, sender: Option<&Name>, to: &Name) -> Result<DraftLink, AllocError>
    ensures { IfOk result (λ link. link
        ≡ link_in bundle.now (option_map (λ name. name.now) sender.entry) to.now) }
{
    Ok(DraftLink {
        sender: copy_sender(sender)?,
        to: to.copy()?,
        least: bundle.least,
        most: bundle.most,
        stamps: bundle.stamps,
    })
}

/// The same name, in memory of its own, if there is one.
pub fn copy_sender(sender: Option<&Name>) -> Result<Option<Name>, AllocError>
    ensures { IfOk result (λ copy. copy ≡ option_map (λ name. name.now) sender.entry) }
{
    match sender {
        Some(name) => Ok(Some(name.copy()?)),
        None => Ok(None),
    }
}
