//! The parts of a scenario by their names, as they stand in a draft of it: groups and messages that it has not
//! have the name without a byte.

ghost use Rattle.std.specs.Prelude.{◌≡◌, ◌<◌, ◌≤◌, length, map, IfOk};
ghost use Rattle.convoy_scenario.specs.Naming.{draft_link, draft_message, sender_name, sender_word};
ghost use Rattle.convoy_scenario.specs.Scenario.{group_name_at, message_at, place_name_at};

use super::link::Link;
use super::scenario::Scenario;
use super::sender::Sender;
use convoy_draft::{DraftLink, DraftMulticast, Name};
use std::alloc::{AllocError, Global};

/// The name of a group, and none for a group that the scenario has not.
pub fn group_name(scenario: &Scenario, group: usize) -> &str
    ensures { result.now ≡ group_name_at scenario.now group }
{
    if group < scenario.group_count() {
        scenario.group_name(group)
    } else {
        ""
    }
}

/// The name of a place, from 1, and none for a place that the scenario has not.
pub fn place_name(scenario: &Scenario, place: usize) -> &str
    requires { 1 ≤ place }
    ensures { result.now ≡ place_name_at scenario.now place }
{
    if place <= scenario.place_count() {
        scenario.place_name(place - 1)
    } else {
        ""
    }
}

/// The name of a message, and none for a message that the scenario has not.
pub fn message_name(scenario: &Scenario, message: usize) -> &str
    ensures { result.now ≡ (message_at scenario.now message).name }
{
    if message < scenario.message_count() {
        scenario.message_name(message)
    } else {
        ""
    }
}

/// The word for a sender: `client`, or the name of the place or of the group.
pub fn sender_word(scenario: &Scenario, sender: Sender) -> &str
    ensures { result.now ≡ sender_word scenario.now sender }
{
    match sender {
        Sender::Client(0) => "client",
        Sender::Client(place) => place_name(scenario, place),
        Sender::Group(group) => group_name(scenario, group),
    }
}

/// The names of all groups, in their order. Fails where memory runs out, and else never.
pub fn draft_groups(alloc: Global, scenario: &Scenario) -> Result<Vec<Name>, AllocError>
    ensures { IfOk result (λ names. names.items ≡ scenario.now.groups) }
{
    let mut names = Vec::new(alloc);
    for group in 0..scenario.group_count() {
        names.push(draft_group(alloc, scenario, group)?)?;
    }
    Ok(names)
}

/// The names of all places, in their order. Fails where memory runs out, and else never.
pub fn draft_places(alloc: Global, scenario: &Scenario) -> Result<Vec<Name>, AllocError>
    ensures { IfOk result (λ names. names.items ≡ scenario.now.places) }
{
    let mut names = Vec::new(alloc);
    for place in 0..scenario.place_count() {
        names.push(Name::new(alloc, scenario.place_name(place))?)?;
    }
    Ok(names)
}

/// A group by name. Fails where memory runs out, and else never.
pub fn draft_group(alloc: Global, scenario: &Scenario, group: usize) -> Result<Name, AllocError>
    ensures { IfOk result (λ name. name ≡ group_name_at scenario.now group) }
{
    Name::new(alloc, group_name(scenario, group))
}

/// A sender by name, which is none for a client of no named place. Fails where memory runs out, and else never.
pub fn draft_sender(
    alloc: Global,
    scenario: &Scenario,
    sender: Sender,
) -> Result<Option<Name>, AllocError>
    ensures { IfOk result (λ name. name ≡ sender_name scenario.now sender) }
{
    match sender {
        Sender::Client(0) => Ok(None),
        Sender::Client(place) => Ok(Some(Name::new(alloc, place_name(scenario, place))?)),
        Sender::Group(group) => Ok(Some(draft_group(alloc, scenario, group)?)),
    }
}

/// Some groups by their names, as a message tells them to which it goes. Fails where memory runs out, and
/// else never.
pub fn draft_destinations(
    alloc: Global,
    scenario: &Scenario,
    groups: &[usize],
) -> Result<Vec<Name>, AllocError>
    ensures { IfOk result (λ names. names.items ≡ map (group_name_at scenario.now) groups.now) }
{
    let mut names = Vec::new(alloc);
    for group in groups {
        names.push(draft_group(alloc, scenario, *group)?)?;
    }
    Ok(names)
}

/// A link by names. Fails where memory runs out, and else never.
pub fn draft_link(alloc: Global, scenario: &Scenario, link: Link) -> Result<DraftLink, AllocError>
    ensures { IfOk result (λ named. named ≡ draft_link scenario.now link) }
{
    Ok(DraftLink {
        sender: draft_sender(alloc, scenario, link.sender)?,
        to: draft_group(alloc, scenario, link.to)?,
        least: i64::from(link.least),
        most: i64::from(link.most),
        stamps: link.stamps,
    })
}

/// A message by names. Fails where memory runs out, and else never.
pub fn draft_message(
    alloc: Global,
    scenario: &Scenario,
    message: usize,
) -> Result<DraftMulticast, AllocError>
    requires { message < length scenario.now.multicasts }
    ensures { IfOk result (λ named. named ≡ draft_message scenario.now (message_at scenario.now message)) }
{
    let at = i64::from(scenario.issue_tick(message));
    Ok(DraftMulticast {
        name: Name::new(alloc, scenario.message_name(message))?,
        sender: draft_sender(alloc, scenario, scenario.sender(message))?,
        to: draft_destinations(alloc, scenario, scenario.destinations(message))?,
        at,
        until: at + i64::from(scenario.longest_wait(message)),
    })
}
