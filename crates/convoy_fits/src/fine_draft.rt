//! The scenario in fine ticks, as a draft. Nothing is believed of it: it is tested.

ghost use Rattle.std.specs.Prelude.{◌<◌, length};

use super::corrected::Corrected;
use super::told_times::time_told;
use convoy_draft::{AllocResult, DraftLink, DraftMulticast, DraftScenario, Name, Time};
use convoy_scenario::lookup::window;
use convoy_scenario::naming::{
    draft_destinations, draft_group, draft_groups, draft_places, draft_sender, message_name,
};
use convoy_scenario::{GREATEST_AT, Scenario, Sender};
use convoy_traces::{Event, Told};
use std::alloc::Global;

/// Of the arrivals of a message the earliest that is told, less the least that its packet takes; the last time where
/// none is told.
fn latest_issue(scenario: &Scenario, trace: &Corrected, message: usize, last: i64) -> i64 {
    let mut latest = last;
    for one in trace.told() {
        if one.message == message
            && let Event::Arrival(to) = one.event
        {
            latest = latest.min(issued_before(scenario, trace, one, to));
        }
    }
    latest
}

/// When at the latest a message was issued that arrives then.
fn issued_before(scenario: &Scenario, trace: &Corrected, one: &Told, to: usize) -> i64 {
    let sender = convoy_scenario::lookup::sender_of(scenario, one.message);
    if !scenario.takes_time(sender, to) {
        return i64::from(one.time);
    }
    let (least, _) = scenario.range_between(sender, to);
    i64::from(one.time) - i64::from(least) * i64::from(trace.factor())
}

/// When a message is issued in fine ticks: when it is told, or else at the last time in its window at which its arrivals
/// allow it.
fn issue_in(scenario: &Scenario, trace: &Corrected, message: usize) -> i64 {
    if let Some(time) = time_told(trace.told(), message, Event::Issue) {
        return i64::from(time);
    }
    let (first, last) = window(scenario, message);
    let factor = i64::from(trace.factor());
    let last = (i64::from(last) * factor).min(i64::from(GREATEST_AT));
    latest_issue(scenario, trace, message, last).max(i64::from(first) * factor)
}

/// A message of the scenario in fine ticks: it does not wait. Fails where memory runs out, and else never.
fn fine_message(
    alloc: Global,
    scenario: &Scenario,
    trace: &Corrected,
    message: usize,
) -> AllocResult<DraftMulticast>
    requires { message < length scenario.now.multicasts }
{
    let at = issue_in(scenario, trace, message);
    Ok(DraftMulticast {
        name: Name::new(alloc, scenario.message_name(message))?,
        sender: draft_sender(alloc, scenario, scenario.sender(message))?,
        to: draft_destinations(alloc, scenario, scenario.destinations(message))?,
        at,
        until: at,
    })
}

/// The messages of the scenario in fine ticks. Fails where memory runs out, and else never.
fn fine_messages(
    alloc: Global,
    scenario: &Scenario,
    trace: &Corrected,
) -> AllocResult<Vec<DraftMulticast>> {
    let mut messages = Vec::new(alloc);
    for message in 0..scenario.message_count() {
        messages.push(fine_message(alloc, scenario, trace, message)?)?;
    }
    Ok(messages)
}

/// The link from a sender to a group, in fine ticks. Fails where memory runs out, and else never.
fn fine_link(
    alloc: Global,
    scenario: &Scenario,
    factor: u16,
    sender: Sender,
    to: usize,
) -> AllocResult<DraftLink> {
    let (least, most) = scenario.range_between(sender, to);
    Ok(DraftLink {
        sender: draft_sender(alloc, scenario, sender)?,
        to: draft_group(alloc, scenario, to)?,
        least: i64::from(least) * i64::from(factor),
        most: i64::from(most) * i64::from(factor),
        stamps: sender == Sender::Group(to) && scenario.stamp_takes_time(to, to),
    })
}

/// Appends the links from a sender to all other groups, and to itself where it has one. Fails where memory runs out, and else never.
fn push_links(
    alloc: Global,
    scenario: &Scenario,
    factor: u16,
    sender: Sender,
    links: &mut Vec<DraftLink>,
) -> AllocResult<()> {
    for to in 0..scenario.group_count() {
        if scenario.takes_time(sender, to) {
            links.push(fine_link(alloc, scenario, factor, sender, to)?)?;
        }
    }
    Ok(())
}

/// The links of the scenario in fine ticks: one from each sender to each other group, and one from a group to itself where
/// it has one, for stamps where that is. Fails where memory runs out, and else never.
fn fine_links(alloc: Global, scenario: &Scenario, factor: u16) -> AllocResult<Vec<DraftLink>> {
    let mut links = Vec::new(alloc);
    for place in 0..scenario.place_count() + 1 {
        push_links(alloc, scenario, factor, Sender::Client(place), &mut links)?;
    }
    for group in 0..scenario.group_count() {
        push_links(alloc, scenario, factor, Sender::Group(group), &mut links)?;
    }
    Ok(links)
}

/// The scenario in fine ticks, and in real time. Fails where memory runs out, and else never.
pub(crate) fn fine_draft(
    alloc: Global,
    scenario: &Scenario,
    trace: &Corrected,
) -> AllocResult<DraftScenario> {
    let factor = trace.factor();
    Ok(DraftScenario {
        time: Time::Real,
        tick: None,
        delay: i64::from(scenario.delay()) * i64::from(factor),
        groups: draft_groups(alloc, scenario)?,
        places: draft_places(alloc, scenario)?,
        links: fine_links(alloc, scenario, factor)?,
        multicasts: fine_messages(alloc, scenario, trace)?,
        target_message: Name::new(alloc, message_name(scenario, scenario.target_message()))?,
        target_group: draft_group(alloc, scenario, scenario.target_group())?,
    })
}
