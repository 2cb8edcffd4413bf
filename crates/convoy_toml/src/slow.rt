//! Slow messages, whose packets take longer than a link says: each is sent from a place of its own, from which links lead
//! that take so much longer.

ghost use Rattle.std.specs.Prelude.{◌≡◌, ◌++◌, map, flat_map, find, is_some, option_copied, IfOk, OnOk};
ghost use Rattle.std.specs.List.{list_any};
ghost use Rattle.toml.specs.View.{table_view};
ghost use Rattle.convoy_draft.specs.declared.fault.ScenarioFault.TheVariants.{Memory};
ghost use Rattle.convoy_scenario.specs.Memory.{IsUnlessMemory};
ghost use Rattle.convoy_toml.specs.Outside.{shares_of_table};
ghost use Rattle.convoy_toml.specs.Shape.{listed};
ghost use Rattle.convoy_toml.specs.Slow.{bundle_between, counts_together, durations_together, from_own_place, has_link_along, is_slow, is_up_to, least_in, lengthened_range, link_from_place, need_few, links_of_message, links_of_messages, need_no_shares, need_none_slow, need_range, own_link, own_links, own_place, range_along, range_of_links, range_without_link, ranges_together, scenario_without_slow, times_together, with_own_places, without_ranges_of_messages, written_of_table};

use super::agreements::together;
use super::asked::Asked;
use super::bundle::Bundle;
use super::copying::{copy_ends, copy_name};
use super::links::{are_few, links_of_bundle};
use super::outside::{LinkShare, shares_of_table};
use super::placed::{Placed, ScenarioTable, in_table};
use super::shape::{scenario_of_table, shape_of_table};
use super::target::TargetKey;
use super::ways::{Way, some_lead};
use super::written::{
    LinkEnds, WrittenInput, WrittenLink, WrittenMulticast, WrittenRange, WrittenScenario,
    WrittenTime,
};
use convoy_scenario::{Duration, GREATEST_DELAY, Key, Limit, Name, ScenarioFault, Time, is_within};
use std::alloc::{AllocError, Global};
use toml::Table;

/// What is written in a table, in which the target has to be written or not, with each slow message sent from a place of
/// its own, and where a case is asked about each message sent as in that; or the first key that is at fault
/// (docs/FORMATS.md, "Scenario text").
pub fn written_of_table(alloc: Global, table: &Table, asked: &Asked) -> Result<WrittenInput, Placed>
    ensures { IsUnlessMemory Memory (written_of_table asked.now (table_view table.now)) result }
{
    let WrittenInput {
        scenario,
        schedule,
        order,
    } = shape_of_table(alloc, table, asked)?;
    let scenario = without_ranges_of_messages(alloc, table, scenario)?;
    Ok(WrittenInput {
        scenario,
        schedule,
        order,
    })
}

/// The scenario of a table, with each slow message sent from a place of its own where there is one, and else as it is.
fn without_ranges_of_messages(
    alloc: Global,
    table: &Table,
    scenario: WrittenScenario,
) -> Result<WrittenScenario, Placed>
    ensures { IsUnlessMemory Memory
        (without_ranges_of_messages (shares_of_table (table_view table.now)) scenario) result }
{
    if !some_are_slow(&scenario.multicasts) {
        return Ok(scenario);
    }
    let shares = shares_of_table(alloc, table)?;
    need_no_shares(&shares)?;
    with_own_places(alloc, scenario)
}

/// The scenario as it is written in a table, but for what the replicas of groups need to agree, whatever else stands there,
/// for texts in which each message has one sender at most and no range of its own: of a faulty one the first fault, with the table that it is of; and
/// `ScenarioFault::Memory` where memory runs out.
pub fn scenario_without_slow(
    alloc: Global,
    table: &Table,
    target: &TargetKey,
) -> Result<WrittenScenario, Placed>
    ensures { IsUnlessMemory Memory (scenario_without_slow target.now (table_view table.now)) result }
{
    let scenario = scenario_of_table(alloc, table, None, target)?;
    need_none_slow(&scenario.multicasts)?;
    Ok(scenario)
}

/// No message has a range of its own: the keys that say so are unknown.
fn need_none_slow(multicasts: &[WrittenMulticast]) -> Result<(), Placed>
    ensures { result ≡ need_none_slow multicasts.now }
{
    for (number, multicast) in multicasts.iter().enumerate() {
        if multicast.is_slow() {
            let fault = Err(ScenarioFault::Shape(Key::Unknown));
            return in_table(ScenarioTable::Multicast(number), fault);
        }
    }
    Ok(())
}

/// Beside a slow message no table of links writes which share of packets is outside its range, since the links from its
/// place would have none.
fn need_no_shares(shares: &[LinkShare]) -> Result<(), ScenarioFault>
    ensures { result ≡ need_no_shares shares.now }
{
    if shares.is_empty() {
        Ok(())
    } else {
        Err(ScenarioFault::Shape(Key::Link))
    }
}

/// The scenario with each slow message sent from a place of its own.
fn with_own_places(alloc: Global, scenario: WrittenScenario) -> Result<WrittenScenario, Placed>
    ensures { IsUnlessMemory Memory (with_own_places scenario) result }
{
    need_few(alloc, &scenario.links)?;
    let mut links = links_of_multicasts(alloc, &scenario)?;
    let mut scenario = scenario;
    scenario.links.append(&mut links)?;
    push_own_places(&mut scenario.places, &scenario.multicasts)?;
    scenario.multicasts = from_own_places(alloc, scenario.multicasts)?;
    Ok(scenario)
}

/// The tables write no more links than they may.
fn need_few(alloc: Global, links: &[WrittenLink]) -> Result<(), ScenarioFault>
    ensures { IsUnlessMemory Memory (need_few links.now) result }
{
    let bundles = bundles_between(alloc, links)?;
    if are_few(&bundles) {
        Ok(())
    } else {
        Err(ScenarioFault::OverLimit(Limit::Link))
    }
}

/// Links with the ends of each of these tables, whatever their range.
fn bundles_between(alloc: Global, links: &[WrittenLink]) -> Result<Vec<Bundle>, AllocError>
    ensures { IfOk result (λ bundles. bundles.items ≡ map (λ link. bundle_between link.ends) links.now) }
{
    let mut bundles = Vec::new(alloc);
    for link in links {
        bundles.push(bundle_between(alloc, &link.ends)?)?;
    }
    Ok(bundles)
}

/// Whether one of the messages has a range of its own.
fn some_are_slow(multicasts: &[WrittenMulticast]) -> bool
    ensures { result ≡ list_any is_slow multicasts.now }
{
    multicasts.iter().any(|multicast| multicast.is_slow())
}

/// Appends the own place of each slow message.
fn push_own_places(
    places: &mut Vec<Name>,
    multicasts: &[WrittenMulticast],
) -> Result<(), AllocError>
    ensures { OnOk result (places.new.items ≡ places.old.items ++ flat_map own_place multicasts.now) }
{
    for multicast in multicasts {
        push_own_place(places, multicast)?;
    }
    Ok(())
}

/// Appends the own place of a message, which is named as it is; none where it has no range.
fn push_own_place(places: &mut Vec<Name>, multicast: &WrittenMulticast) -> Result<(), AllocError>
    ensures { OnOk result (places.new.items ≡ places.old.items ++ own_place multicast.now) }
{
    if multicast.is_slow() {
        places.push(multicast.name.copy()?)?;
    }
    Ok(())
}

/// The messages, each slow one sent from its own place.
fn from_own_places(
    alloc: Global,
    multicasts: Vec<WrittenMulticast>,
) -> Result<Vec<WrittenMulticast>, AllocError>
    ensures { IfOk result (λ moved. moved.items ≡ map from_own_place multicasts.items) }
{
    let mut moved = Vec::new(alloc);
    for multicast in multicasts {
        moved.push(from_own_place(multicast)?)?;
    }
    Ok(moved)
}

/// The message sent from its own place, where it has a range.
fn from_own_place(multicast: WrittenMulticast) -> Result<WrittenMulticast, AllocError>
    ensures { IfOk result (λ moved. moved ≡ from_own_place multicast) }
{
    if !multicast.is_slow() {
        return Ok(multicast);
    }
    let place = multicast.name.copy()?;
    Ok(WrittenMulticast {
        sender: Some(place),
        longer: None,
        ..multicast
    })
}

/// The links from the own places of messages, message by message.
fn links_of_multicasts(
    alloc: Global,
    scenario: &WrittenScenario,
) -> Result<Vec<WrittenLink>, Placed>
    ensures { IsUnlessMemory Memory
        (links_of_messages scenario.now scenario.now.messages) (listed result) }
{
    let mut links = Vec::new(alloc);
    for (number, multicast) in scenario.multicasts.iter().enumerate() {
        let place = ScenarioTable::Multicast(number);
        let mut more = in_table(place, links_of_multicast(alloc, scenario, multicast))?;
        links.append(&mut more)?;
    }
    Ok(links)
}

/// The links from the own place of a message; none where it has no range.
fn links_of_multicast(
    alloc: Global,
    scenario: &WrittenScenario,
    multicast: &WrittenMulticast,
) -> Result<Vec<WrittenLink>, ScenarioFault>
    ensures { IsUnlessMemory Memory (links_of_message scenario.now multicast.now) (listed result) }
{
    match &multicast.longer {
        Some(longer) => {
            need_range(longer)?;
            own_links(alloc, scenario, multicast, longer)
        }
        None => Ok(Vec::new(alloc)),
    }
}

/// The links from the own place of a message that takes so much longer than a link says, to each of its groups.
fn own_links(
    alloc: Global,
    scenario: &WrittenScenario,
    multicast: &WrittenMulticast,
    longer: &WrittenRange,
) -> Result<Vec<WrittenLink>, ScenarioFault>
    ensures { IsUnlessMemory Memory
        (own_links scenario.now multicast.now longer.now multicast.now.to) (listed result) }
{
    let mut links = Vec::new(alloc);
    for to in &multicast.to {
        links.push(own_link(alloc, scenario, multicast, longer, to)?)?;
    }
    Ok(links)
}

/// The link from a message's own place to a group, which takes so much longer than the way from its sender.
fn own_link(
    alloc: Global,
    scenario: &WrittenScenario,
    multicast: &WrittenMulticast,
    longer: &WrittenRange,
    to: &Name,
) -> Result<WrittenLink, ScenarioFault>
    ensures { IsUnlessMemory Memory (own_link scenario.now multicast.now longer.now to.now) result }
{
    let way = Way {
        sender: copy_name(&multicast.sender)?,
        to: to.copy()?,
    };
    let along = range_along(alloc, scenario, &way)?;
    let range = lengthened_range(along, longer)?;
    Ok(link_from_place(alloc, &multicast.name, to, range)?)
}

/// A table of one link from a place to a group.
fn link_from_place(
    alloc: Global,
    place: &Name,
    to: &Name,
    range: WrittenRange,
) -> Result<WrittenLink, AllocError>
    ensures { IfOk result (λ link. link ≡ link_from_place place.now to.now range) }
{
    Ok(WrittenLink {
        ends: LinkEnds {
            senders: Some(vec![in alloc; place.copy()?]?),
            to: vec![in alloc; to.copy()?]?,
            both: false,
        },
        least: range.least,
        most: range.most,
        stamps: false,
    })
}

/// The range of what goes that way: that of a link, or of what goes by none; nothing from a group to itself, which takes
/// no time.
pub(crate) fn range_along(
    alloc: Global,
    scenario: &WrittenScenario,
    way: &Way,
) -> Result<Option<WrittenRange>, ScenarioFault>
    ensures { IsUnlessMemory Memory (range_along scenario.now way.now) result }
{
    let written = range_of_links(alloc, &scenario.links, way)?;
    if written.is_some() {
        return Ok(written);
    }
    if way.leads_elsewhere() {
        let range = range_without_link(scenario)?;
        Ok(Some(range))
    } else {
        Ok(None)
    }
}

/// The range of the first table with a link that leads that way.
fn range_of_links(
    alloc: Global,
    links: &[WrittenLink],
    way: &Way,
) -> Result<Option<WrittenRange>, AllocError>
    ensures { IfOk result (λ range. range ≡ range_of_links links.now way.now) }
{
    for link in links {
        if has_link_along(alloc, link, way)? {
            return Ok(Some(WrittenRange {
                least: link.least,
                most: link.most,
            }));
        }
    }
    Ok(None)
}

/// Whether a link of the table leads that way.
fn has_link_along(alloc: Global, link: &WrittenLink, way: &Way) -> Result<bool, AllocError>
    ensures { IfOk result (λ has. has ≡ has_link_along way.now link.now) }
{
    let bundle = bundle_between(alloc, &link.ends)?;
    let links = links_of_bundle(alloc, &bundle)?;
    Ok(some_lead(&links, way))
}

/// Links with these ends, whatever their range.
fn bundle_between(alloc: Global, ends: &LinkEnds) -> Result<Bundle, AllocError>
    ensures { IfOk result (λ bundle. bundle ≡ bundle_between ends.now) }
{
    Ok(Bundle {
        ends: copy_ends(alloc, ends)?,
        least: 0,
        most: 0,
        stamps: false,
    })
}

/// The range of what goes by no link, which has to be written.
fn range_without_link(scenario: &WrittenScenario) -> Result<WrittenRange, ScenarioFault>
    ensures { result ≡ range_without_link scenario.now }
{
    let least = scenario.least.or(least_in(scenario.time));
    let least = least.ok_or(ScenarioFault::NoRange)?;
    let most = scenario.delay.ok_or(ScenarioFault::NoRange)?;
    Ok(WrittenRange { least, most })
}

/// The least delay of what goes by no link, where none is written: 1 tick in whole ticks.
fn least_in(time: Time) -> Option<WrittenTime>
    ensures { result ≡ least_in time }
{
    match time {
        Time::Ticks => Some(WrittenTime::Count(1)),
        Time::Real => None,
    }
}

/// The range, if there is one, together with another.
fn lengthened_range(
    range: Option<WrittenRange>,
    longer: &WrittenRange,
) -> Result<WrittenRange, ScenarioFault>
    ensures { result ≡ lengthened_range range longer.now }
{
    match range {
        Some(range) => ranges_together(&range, longer),
        None => Ok(*longer),
    }
}

/// Two ranges together.
fn ranges_together(
    range: &WrittenRange,
    longer: &WrittenRange,
) -> Result<WrittenRange, ScenarioFault>
    ensures { result ≡ ranges_together range.now longer.now }
{
    let least = times_together(Key::Least, range.least, longer.least)?;
    let most = times_together(Key::Most, range.most, longer.most)?;
    Ok(WrittenRange { least, most })
}

/// Two times together, which are written alike: the key of the one that is not is at fault.
fn times_together(
    key: Key,
    time: WrittenTime,
    more: WrittenTime,
) -> Result<WrittenTime, ScenarioFault>
    ensures { result ≡ times_together key time more }
{
    match time {
        WrittenTime::Count(ticks) => match more {
            WrittenTime::Count(more) => counts_together(ticks, more),
            WrittenTime::Lasting(_) => Err(ScenarioFault::Shape(key)),
        },
        WrittenTime::Lasting(length) => match more {
            WrittenTime::Count(_) => Err(ScenarioFault::Shape(key)),
            WrittenTime::Lasting(more) => durations_together(length, more),
        },
    }
}

/// Two numbers of ticks together, each of them within the limits of a delay.
fn counts_together(ticks: i64, more: i64) -> Result<WrittenTime, ScenarioFault>
    ensures { result ≡ counts_together ticks more }
{
    let greatest = u32::from(GREATEST_DELAY);
    if is_within(ticks, 0, greatest) && is_within(more, 0, greatest) {
        Ok(WrittenTime::Count(together(ticks, more)))
    } else {
        Err(ScenarioFault::OverLimit(Limit::Link))
    }
}

/// Two durations together, as long as one may be.
fn durations_together(length: Duration, more: Duration) -> Result<WrittenTime, ScenarioFault>
    ensures { result ≡ durations_together length more }
{
    let nanoseconds = length.nanoseconds() + more.nanoseconds();
    match Duration::from_nanoseconds(nanoseconds) {
        Some(length) => Ok(WrittenTime::Lasting(length)),
        None => Err(ScenarioFault::OverLimit(Limit::Link)),
    }
}

/// The least time of a range is no more than the greatest.
fn need_range(range: &WrittenRange) -> Result<(), ScenarioFault>
    ensures { result ≡ need_range range.now }
{
    if range.least.is_up_to(range.most) {
        Ok(())
    } else {
        Err(ScenarioFault::OverLimit(Limit::Link))
    }
}

impl WrittenTime {
    /// Whether the time is no more than the other, where they are written alike.
    fn is_up_to(self, most: WrittenTime) -> bool
        ensures { result ≡ is_up_to self most }
    {
        match self {
            WrittenTime::Count(ticks) => match most {
                WrittenTime::Count(most) => ticks <= most,
                WrittenTime::Lasting(_) => true,
            },
            WrittenTime::Lasting(length) => match most {
                WrittenTime::Count(_) => true,
                WrittenTime::Lasting(most) => length.nanoseconds() <= most.nanoseconds(),
            },
        }
    }
}

impl WrittenMulticast {
    /// Whether the message has a range of its own.
    pub fn is_slow(&self) -> bool
        ensures { result ≡ is_slow self.now }
    {
        self.longer.is_some()
    }
}
