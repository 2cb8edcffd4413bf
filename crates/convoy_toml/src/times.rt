ghost use Rattle.std.specs.Prelude.{◌≡◌, ◌≤◌, ◌++◌, map, flat_map, pos, IfOk, OnOk};
ghost use Rattle.convoy_draft.specs.declared.duration.TheConstants.{LONGEST_DURATION};
ghost use Rattle.std.specs.List.{list_all};
ghost use Rattle.convoy_scenario.specs.Memory.{IsUnlessMemory};
ghost use Rattle.convoy_toml.specs.Deadlines.{has_durations};
ghost use Rattle.convoy_toml.specs.Shape.{listed};
ghost use Rattle.convoy_toml.specs.Times.{if_written, whole_if_written, greatest_most, delay_or_greatest, is_least, need_least, times_of_message, times_of_links, times_of_agreements, is_count, is_lasting, length_of, divisor_of_all, times_of, tick_between, tick_of, ticks_in, ticks_of, whole, last_tick, draft_message_of, draft_messages_of, bundle_of, bundles_of, agreement_of, agreements_of, draft_of_written};

use super::agreements::{Agreement, with_agreements};
use super::bundle::Bundle;
use super::copying::{copy_ends, copy_name, copy_names};
use super::divisor::common_divisor;
use super::links::links_of_bundles;
use super::placed::{Placed, ScenarioTable, in_table};
use super::written::{
    WrittenAgreement, WrittenLink, WrittenMulticast, WrittenScenario, WrittenTime,
};
use convoy_scenario::{
    DraftLink, DraftMulticast, DraftScenario, Duration, Key, Limit, Name, ScenarioFault, Time,
    is_within,
};
use std::alloc::{AllocError, Global};

impl WrittenTime {
    fn is_count(&self) -> bool
        ensures { result ≡ is_count self.now }
    {
        matches!(self, WrittenTime::Count(_))
    }

    fn is_lasting(&self) -> bool
        ensures { result ≡ is_lasting self.now }
    {
        matches!(self, WrittenTime::Lasting(_))
    }

    /// The nanoseconds of a duration; 0 for a number of ticks.
    fn length(&self) -> u64
        ensures length { result ≡ length_of self.now }
        ensures bounded { result ≤ LONGEST_DURATION }
    {
        match self {
            WrittenTime::Count(_) => 0,
            WrittenTime::Lasting(duration) => duration.nanoseconds(),
        }
    }
}

/// All times of a scenario.
fn times_of(alloc: Global, scenario: &WrittenScenario) -> Result<Vec<WrittenTime>, AllocError>
    ensures { IfOk result (λ times. times.items ≡ times_of scenario.now) }
{
    let mut times = Vec::new(alloc);
    push_agreements(&mut times, &scenario.agreements)?;
    push_written(&mut times, scenario.delay)?;
    push_written(&mut times, scenario.least)?;
    push_issues(&mut times, &scenario.multicasts)?;
    push_ranges(&mut times, &scenario.links)?;
    Ok(times)
}

/// Appends the time, where one is written.
fn push_written(times: &mut Vec<WrittenTime>, time: Option<WrittenTime>) -> Result<(), AllocError>
    ensures { OnOk result (times.new.items ≡ times.old.items ++ if_written time) }
{
    if let Some(time) = time {
        times.push(time)?;
    }
    Ok(())
}

/// Appends the times between which each message may be issued.
fn push_issues(
    times: &mut Vec<WrittenTime>,
    multicasts: &[WrittenMulticast],
) -> Result<(), AllocError>
    ensures { OnOk result (times.new.items ≡ times.old.items ++ flat_map times_of_message multicasts.now) }
{
    for multicast in multicasts {
        push_issue(times, multicast)?;
    }
    Ok(())
}

/// Appends the first time at which a message may be issued, and the last where that is written.
fn push_issue(times: &mut Vec<WrittenTime>, multicast: &WrittenMulticast) -> Result<(), AllocError>
    ensures { OnOk result (times.new.items ≡ times.old.items ++ times_of_message multicast.now) }
{
    times.push(multicast.at)?;
    push_written(times, multicast.until)
}

/// Appends the least and the greatest delay of each table of links.
fn push_ranges(times: &mut Vec<WrittenTime>, links: &[WrittenLink]) -> Result<(), AllocError>
    ensures { OnOk result (times.new.items ≡ times.old.items ++ times_of_links links.now) }
{
    for link in links {
        times.push(link.least)?;
        times.push(link.most)?;
    }
    Ok(())
}

/// Appends the least and the greatest time of each agreement.
fn push_agreements(
    times: &mut Vec<WrittenTime>,
    agreements: &[WrittenAgreement],
) -> Result<(), AllocError>
    ensures { OnOk result (times.new.items ≡ times.old.items ++ times_of_agreements agreements.now) }
{
    for agreement in agreements {
        times.push(agreement.least)?;
        times.push(agreement.most)?;
    }
    Ok(())
}

/// The greatest common divisor of the durations.
fn divisor_of_all(times: &[WrittenTime]) -> u64
    ensures divisor { result ≡ divisor_of_all 0 (map length_of times.now) }
    ensures bounded { result ≤ LONGEST_DURATION }
{
    let mut divisor = 0;
    for time in times {
        divisor = common_divisor(divisor, time.length());
    }
    divisor
}

fn are_counts(times: &[WrittenTime]) -> bool
    ensures { result ≡ list_all is_count times.now }
{
    times.iter().all(|time| time.is_count())
}

fn are_lasting(times: &[WrittenTime]) -> bool
    ensures { result ≡ list_all is_lasting times.now }
{
    times.iter().all(|time| time.is_lasting())
}

/// The length of a tick that is not written: none where all times are numbers of ticks, and where all are
/// durations the greatest that each of them is a whole number of.
fn tick_between(times: &[WrittenTime]) -> Result<Option<Duration>, ScenarioFault>
    ensures { result ≡ tick_between times.now }
{
    if are_counts(times) {
        Ok(None)
    } else if are_lasting(times) {
        let length = divisor_of_all(times).max(1);
        Ok(Duration::from_nanoseconds(length))
    } else {
        Err(ScenarioFault::Shape(Key::Tick))
    }
}

/// The length of a scenario's tick, if it has one.
pub fn tick_of(alloc: Global, scenario: &WrittenScenario) -> Result<Option<Duration>, ScenarioFault>
    ensures { IsUnlessMemory ScenarioFault.Memory (tick_of scenario.now) result }
{
    if scenario.tick.is_some() {
        return Ok(scenario.tick);
    }
    let times = times_of(alloc, scenario)?;
    tick_between(&times)
}

/// Whether a time of a scenario is written as a duration.
pub(crate) fn has_durations(alloc: Global, scenario: &WrittenScenario) -> Result<bool, AllocError>
    ensures { IfOk result (λ has. has ≡ has_durations scenario.now) }
{
    let times = times_of(alloc, scenario)?;
    Ok(!are_counts(&times))
}

/// The nanoseconds of a tick, if there is one.
pub(crate) fn length_of(tick: &Option<Duration>) -> Option<u64>
    ensures { result ≡ tick.now }
{
    match tick {
        Some(tick) => Some(tick.nanoseconds()),
        None => None,
    }
}

/// How many ticks of so many nanoseconds a duration takes, if that is a whole number.
fn ticks_in(tick: u64, duration: Duration) -> Option<i64>
    ensures { result ≡ ticks_in tick duration }
{
    let length = duration.nanoseconds();
    if length.is_multiple_of(tick) {
        Some(length.checked_div(tick).unwrap_or(0) as i64)
    } else {
        None
    }
}

/// The ticks of a time, where a tick is so many nanoseconds.
fn ticks_of(tick: Option<u64>, time: WrittenTime) -> Option<i64>
    ensures { result ≡ ticks_of tick time }
{
    match time {
        WrittenTime::Count(ticks) => Some(ticks),
        WrittenTime::Lasting(duration) => ticks_in(tick?, duration),
    }
}

/// The ticks of the time at a key, which has to be a whole number of them.
fn whole(tick: Option<u64>, key: Key, time: WrittenTime) -> Result<i64, ScenarioFault>
    ensures { result ≡ whole tick key time }
{
    ticks_of(tick, time).ok_or(ScenarioFault::NotWhole(key))
}

/// The ticks of the time at a key that may be left out.
fn whole_if_written(
    tick: Option<u64>,
    key: Key,
    time: Option<WrittenTime>,
) -> Result<Option<i64>, ScenarioFault>
    ensures { result ≡ whole_if_written tick key time }
{
    match time {
        Some(time) => {
            let ticks = whole(tick, key, time)?;
            Ok(Some(ticks))
        }
        None => Ok(None),
    }
}

/// The last tick at which a message may be issued: where none is written, the first one.
fn last_tick(tick: Option<u64>, at: i64, until: Option<WrittenTime>) -> Result<i64, ScenarioFault>
    ensures { result ≡ last_tick tick at until }
{
    match until {
        Some(until) => whole(tick, Key::Until, until),
        None => Ok(at),
    }
}

/// A message in ticks, in memory of its own.
fn draft_multicast_of(
    alloc: Global,
    tick: Option<u64>,
    multicast: &WrittenMulticast,
) -> Result<DraftMulticast, ScenarioFault>
    ensures { IsUnlessMemory ScenarioFault.Memory (draft_message_of tick multicast.now) result }
{
    let at = whole(tick, Key::At, multicast.at)?;
    let until = last_tick(tick, at, multicast.until)?;
    Ok(DraftMulticast {
        name: multicast.name.copy()?,
        sender: copy_name(&multicast.sender)?,
        to: copy_names(alloc, &multicast.to)?,
        at,
        until,
    })
}

fn draft_multicasts_of(
    alloc: Global,
    tick: Option<u64>,
    multicasts: &[WrittenMulticast],
) -> Result<Vec<DraftMulticast>, Placed>
    ensures { IsUnlessMemory ScenarioFault.Memory
        (draft_messages_of tick multicasts.now) (listed result) }
{
    let mut drafts = Vec::new(alloc);
    for multicast in multicasts {
        let place = ScenarioTable::Multicast(drafts.len());
        drafts.push(in_table(place, draft_multicast_of(alloc, tick, multicast))?)?;
    }
    Ok(drafts)
}

/// The links of a table in ticks, in memory of their own.
fn bundle_of(alloc: Global, tick: Option<u64>, link: &WrittenLink) -> Result<Bundle, ScenarioFault>
    ensures { IsUnlessMemory ScenarioFault.Memory (bundle_of tick link.now) result }
{
    let least = whole(tick, Key::Least, link.least)?;
    let most = whole(tick, Key::Most, link.most)?;
    Ok(Bundle {
        ends: copy_ends(alloc, &link.ends)?,
        least,
        most,
        stamps: link.stamps,
    })
}

/// The tables of links in ticks of so many nanoseconds, where a tick has a length, in memory of their own; or the first
/// of their times that is no whole number of ticks, with its table.
pub fn bundles_of(
    alloc: Global,
    tick: Option<u64>,
    links: &[WrittenLink],
) -> Result<Vec<Bundle>, Placed>
    ensures { IsUnlessMemory ScenarioFault.Memory (bundles_of tick links.now) (listed result) }
{
    let mut bundles = Vec::new(alloc);
    for link in links {
        let place = ScenarioTable::Link(bundles.len());
        bundles.push(in_table(place, bundle_of(alloc, tick, link))?)?;
    }
    Ok(bundles)
}

/// What the replicas of groups need to agree, in ticks, in memory of its own.
fn agreement_of(
    alloc: Global,
    tick: Option<u64>,
    agreement: &WrittenAgreement,
) -> Result<Agreement, ScenarioFault>
    ensures { IsUnlessMemory ScenarioFault.Memory (agreement_of tick agreement.now) result }
{
    let least = whole(tick, Key::Agree, agreement.least)?;
    let most = whole(tick, Key::Agree, agreement.most)?;
    Ok(Agreement {
        groups: copy_names(alloc, &agreement.groups)?,
        least,
        most,
        twice: agreement.twice,
    })
}

/// What the replicas of all groups need to agree, in ticks of so many nanoseconds, where a tick has a length; or the first
/// of these times that is no whole number of ticks, with its table.
fn agreements_of(
    alloc: Global,
    tick: Option<u64>,
    written: &[WrittenAgreement],
) -> Result<Vec<Agreement>, Placed>
    ensures { IsUnlessMemory ScenarioFault.Memory (agreements_of tick written.now) (listed result) }
{
    let mut agreements = Vec::new(alloc);
    for agreement in written {
        let place = ScenarioTable::Group(agreements.len());
        agreements.push(in_table(place, agreement_of(alloc, tick, agreement))?)?;
    }
    Ok(agreements)
}

/// The greatest of the greatest delays of all tables of links, in ticks, or 0 where there are none.
fn greatest_most(bundles: &[Bundle]) -> i64
    ensures { result ≡ greatest_most (pos 0) bundles.now }
{
    let mut greatest = 0;
    for bundle in bundles {
        if greatest <= bundle.most {
            greatest = bundle.most;
        }
    }
    greatest
}

/// Whether the least delay of what goes by no link is within 1 to D, where it is written. A D beyond its own limits is
/// told later.
fn is_least(time: Time, delay: i64, least: Option<i64>) -> bool
    ensures { result ≡ is_least time delay least }
{
    let Some(least) = least else {
        return true;
    };
    !is_within(delay, 1, u32::from(time.greatest_delay())) || (1 <= least && least <= delay)
}

/// A least delay of what goes by no link that is not within 1 to D is a fault.
fn need_least(time: Time, delay: i64, least: Option<i64>) -> Result<(), ScenarioFault>
    ensures { result ≡ need_least time delay least }
{
    if is_least(time, delay, least) {
        Ok(())
    } else {
        Err(ScenarioFault::OverLimit(Limit::Least))
    }
}

/// D in ticks: what is written, or else the greatest delay of all links.
fn delay_or_greatest(written: Option<i64>, bundles: &[Bundle]) -> i64
    ensures { result ≡ delay_or_greatest written bundles.now }
{
    match written {
        Some(delay) => delay,
        None => greatest_most(bundles),
    }
}

/// The draft of a scenario by its times in ticks, in memory of its own.
fn draft_in_ticks(
    alloc: Global,
    scenario: &WrittenScenario,
    tick: Option<Duration>,
    delay: i64,
    links: Vec<DraftLink>,
    multicasts: Vec<DraftMulticast>,
) -> Result<DraftScenario, AllocError>
    ensures { IfOk result (λ draft. draft
        ≡ (record { time = scenario.now.time; tick = tick; delay = delay; groups = scenario.now.groups; places = scenario.now.places; links = links.items; messages = multicasts.items; target_message = scenario.now.target_message; target_group = scenario.now.target_group })) }
{
    Ok(DraftScenario {
        time: scenario.time,
        tick,
        delay,
        groups: copy_names(alloc, &scenario.groups)?,
        places: copy_names(alloc, &scenario.places)?,
        links,
        multicasts,
        target_message: scenario.target_message.copy()?,
        target_group: scenario.target_group.copy()?,
    })
}

/// The scenario in ticks, with each link that its tables write, and where a least delay of what goes by none is written,
/// a link with it for each way of that, and with what the replicas of groups need to agree; or the first time that is no
/// whole number of ticks, or that there are too many links, or that the least delay, or where replicas agree another
/// range, is beyond its limits (docs/FORMATS.md, "How faults are found").
pub fn draft_of_written(alloc: Global, scenario: &WrittenScenario) -> Result<DraftScenario, Placed>
    ensures { IsUnlessMemory ScenarioFault.Memory (draft_of_written scenario.now) result }
{
    let tick = tick_of(alloc, scenario)?;
    let length = length_of(&tick);
    let written = whole_if_written(length, Key::Delay, scenario.delay)?;
    let least = whole_if_written(length, Key::Least, scenario.least)?;
    let multicasts = draft_multicasts_of(alloc, length, &scenario.multicasts)?;
    let bundles = bundles_of(alloc, length, &scenario.links)?;
    let agreements = agreements_of(alloc, length, &scenario.agreements)?;
    let links = links_of_bundles(alloc, &bundles)?;
    let delay = delay_or_greatest(written, &bundles);
    need_least(scenario.time, delay, least)?;
    let draft = draft_in_ticks(alloc, scenario, tick, delay, links, multicasts)?;
    Ok(with_agreements(alloc, least, &agreements, draft)?)
}
