ghost use Rattle.std.specs.Prelude.{◌≡◌, ◌++◌, ◌&&◌, not, map, filter, take, option_map, Some, IfOk, OnOk};
ghost use Rattle.std.specs.List.{list_any};
ghost use Rattle.convoy_draft.specs.declared.limits.TheConstants.{MOST_GROUPS, MOST_PLACES};
ghost use Rattle.convoy_draft.specs.Checks.{is_named_alike};
ghost use Rattle.convoy_toml.specs.Agreements.{filled_by};
ghost use Rattle.convoy_toml.specs.Ways.{carries, has_ranges, is_one_of, lacks_link, leads_along, link_along, ways_between, ways_from, ways_from_all, ways_without_link, with_least};

use super::links::copy_sender;
use convoy_scenario::{
    DraftLink, DraftMulticast, DraftScenario, MOST_GROUPS, MOST_PLACES, Name, Time, is_named_alike,
};
use std::alloc::{AllocError, Global};
use std::marker::Model;

/// A way from a sender to a group.
#[derive(Drop)]
pub struct Way {
    /// The group that sends, or the place of the clients that do; none for clients of no named place.
    pub sender: Option<Name>,
    /// The group that receives.
    pub to: Name,
}

impl Model for Way {
    ghost use Rattle.convoy_toml.specs.Ways.{Way};

    ghost Value = { Way };

    ghost view = { λ w. record { sender = w.sender; to = w.to } };
}

/// The ways on which something goes without a link, a message or the stamp that one of its groups sends another:
/// those of clients first, by their places, and then those of groups, and by receiver, in the order of the groups.
pub fn ways_without_link(alloc: Global, draft: &DraftScenario) -> Result<Vec<Way>, AllocError>
    ensures { IfOk result (λ ways. ways.items ≡ ways_without_link draft.now) }
{
    let groups = first_names(&draft.groups, MOST_GROUPS);
    let places = first_names(&draft.places, MOST_PLACES);
    let mut ways = ways_between(alloc, groups, places)?;
    keep_without_link(&mut ways, &draft.multicasts, &draft.links);
    Ok(ways)
}

/// The draft, with a link for each way on which something goes without one, where their least delay is written and is
/// not the 1 that it is without a link: they have the range from that to D, in ticks.
pub fn with_least(
    alloc: Global,
    least: Option<i64>,
    draft: DraftScenario,
) -> Result<DraftScenario, AllocError>
    ensures { IfOk result (λ linked. linked ≡ with_least least draft) }
{
    let Some(least) = least else {
        return Ok(draft);
    };
    if least <= 1 {
        return Ok(draft);
    }
    filled_by(alloc, Some(least), draft)
}

/// The draft, with a link for each way on which something goes without one, where their least delay is known: they have
/// the range from that to D, in ticks.
pub(crate) fn filled_by(
    alloc: Global,
    least: Option<i64>,
    draft: DraftScenario,
) -> Result<DraftScenario, AllocError>
    ensures { IfOk result (λ linked. linked ≡ filled_by least draft) }
{
    let Some(least) = least else {
        return Ok(draft);
    };
    let ways = ways_without_link(alloc, &draft)?;
    let mut draft = draft;
    let delay = draft.delay;
    push_along(&mut draft.links, least, delay, ways)?;
    Ok(draft)
}

/// Whether each packet that travels has a range that is written, be it a link's or by the least delay of what goes by
/// none; in whole ticks it is 1 to D where nothing is written.
pub fn has_ranges(alloc: Global, has_least: bool, draft: &DraftScenario) -> Result<bool, AllocError>
    ensures { IfOk result (λ has. has ≡ has_ranges has_least draft.now) }
{
    match draft.time {
        Time::Ticks => Ok(true),
        Time::Real if has_least => Ok(true),
        Time::Real => Ok(ways_without_link(alloc, draft)?.is_empty()),
    }
}

/// So many of the names at most: a draft with more groups or places than a scenario may have is none of one.
fn first_names(names: &[Name], most: usize) -> &[Name]
    ensures { result.now ≡ take most names.now }
{
    names.get(..most).unwrap_or(names)
}

/// Keeps the ways on which something goes without a link, and no other.
fn keep_without_link(ways: &mut Vec<Way>, multicasts: &[DraftMulticast], links: &[DraftLink])
    ensures { ways.new.items ≡ filter (lacks_link multicasts.now links.now) ways.old.items }
{
    ways.retain(|way| lacks_link(multicasts, links, way));
}

/// Appends a link along each of the ways, with the range from the least delay to D, in ticks.
fn push_along(
    links: &mut Vec<DraftLink>,
    least: i64,
    delay: i64,
    ways: Vec<Way>,
) -> Result<(), AllocError>
    ensures { OnOk result (links.new.items ≡ links.old.items ++ map (link_along least delay) ways.items) }
{
    for way in ways {
        links.push(DraftLink {
            sender: way.sender,
            to: way.to,
            least,
            most: delay,
            stamps: false,
        })?;
    }
    Ok(())
}

/// The ways to each of the groups: from clients of no named place, from those at each place, and from each group.
fn ways_between(alloc: Global, groups: &[Name], places: &[Name]) -> Result<Vec<Way>, AllocError>
    ensures { IfOk result (λ ways. ways.items ≡ ways_between groups.now places.now) }
{
    let mut ways = Vec::new(alloc);
    push_from(&mut ways, groups, None)?;
    push_from_all(&mut ways, groups, places)?;
    push_from_all(&mut ways, groups, groups)?;
    Ok(ways)
}

/// Appends the ways from each of these to each of the groups, sender by sender.
fn push_from_all(ways: &mut Vec<Way>, groups: &[Name], senders: &[Name]) -> Result<(), AllocError>
    ensures { OnOk result (ways.new.items ≡ ways.old.items ++ ways_from_all groups.now senders.now) }
{
    for sender in senders {
        push_from(ways, groups, Some(sender))?;
    }
    Ok(())
}

/// Appends the ways from one sender to each of the groups.
fn push_from(ways: &mut Vec<Way>, groups: &[Name], sender: Option<&Name>) -> Result<(), AllocError>
    ensures { OnOk result (ways.new.items
        ≡ ways.old.items ++ ways_from groups.now (option_map (λ name. name.now) sender.entry)) }
{
    for to in groups {
        ways.push(Way {
            sender: copy_sender(sender)?,
            to: to.copy()?,
        })?;
    }
    Ok(())
}

/// Whether something goes that way, and no link leads there.
fn lacks_link(multicasts: &[DraftMulticast], links: &[DraftLink], way: &Way) -> bool
    ensures { result ≡ lacks_link multicasts.now links.now way.now }
{
    some_travel(multicasts, way) && !some_lead(links, way)
}

/// Whether something of one of the messages goes that way.
fn some_travel(multicasts: &[DraftMulticast], way: &Way) -> bool
    ensures { result ≡ list_any (carries way.now) multicasts.now }
{
    multicasts.iter().any(|multicast| way.carries(multicast))
}

/// Whether one of the links leads that way.
pub(crate) fn some_lead(links: &[DraftLink], way: &Way) -> bool
    ensures { result ≡ list_any (leads_along way.now) links.now }
{
    links.iter().any(|link| way.is_led_by(link))
}

/// Whether the sender is one of these groups.
fn is_one_of(sender: &Option<Name>, groups: &[Name]) -> bool
    ensures { result ≡ is_one_of sender.now groups.now }
{
    match sender {
        Some(name) => name.is_among(groups),
        None => false,
    }
}

impl Way {
    /// Whether the way leads to another place than its sender.
    pub(crate) fn leads_elsewhere(&self) -> bool
        ensures { result ≡ not (is_named_alike self.now.sender (Some self.now.to)) }
    {
        match &self.sender {
            Some(sender) => !sender.is_same(&self.to),
            None => true,
        }
    }

    /// Whether the link leads this way.
    fn is_led_by(&self, link: &DraftLink) -> bool
        ensures { result ≡ leads_along self.now link.now }
    {
        is_named_alike(&self.sender, &link.sender) && self.to.is_same(&link.to)
    }

    /// Whether something of the message goes that way: the message itself, or the stamp that one of its groups sends
    /// another.
    fn carries(&self, multicast: &DraftMulticast) -> bool
        ensures { result ≡ carries self.now multicast.now }
    {
        self.leads_elsewhere()
            && self.to.is_among(&multicast.to)
            && (is_named_alike(&self.sender, &multicast.sender)
                || is_one_of(&self.sender, &multicast.to))
    }
}
