//! How the scenario of a certificate differs from the one that is wanted.

use convoy_hints_sketch::{Hint, Length, Names, Ordinal, Quoted, noun, shown_time, words_of};
use convoy_scenario::naming::{draft_message, group_name, message_name, place_name};
use convoy_scenario::{DraftMulticast, Link, Scenario, Sender};
use std::alloc::{AllocError, Global};

/// In what the scenario of a valid certificate is another than the one that is wanted, in one line
/// `hint: ..`: the first that differs in the order in which scenarios are compared (docs/FORMATS.md,
/// "Refusals"), as it is here and as it is there.
pub fn hint_for_difference(
    alloc: Global,
    wanted: &Scenario,
    found: &Scenario,
) -> Result<String, AllocError> {
    match first_difference(alloc, found, wanted)? {
        Some(difference) => format!(in alloc;
            "hint: the certificate is valid, of another scenario: {difference}\n"
        ),
        None => String::from_str(
            alloc,
            "hint: the certificate is valid, of another scenario: compare what 'convoy scenario' writes of it and of yours\n",
        ),
    }
}

/// The first difference of a certificate's scenario from the one that is wanted. Where the lengths of a tick differ, a
/// tick that is not written follows from the times, so that it is told only where nothing else differs.
fn first_difference(alloc: Global, found: &Scenario, wanted: &Scenario) -> Hint {
    if let Some(line) = difference_in_time(alloc, found, wanted)? {
        return Ok(Some(line));
    }
    let (here, there) = (tick_in(alloc, found)?, tick_in(alloc, wanted)?);
    let tick = told(alloc, "a tick", here.as_str(), there.as_str())?;
    if tick.is_some() && (found.tick().is_none() || wanted.tick().is_none()) {
        return Ok(tick);
    }
    match difference_in_parts(alloc, found, wanted)? {
        Some(line) => Ok(Some(line)),
        None => Ok(tick),
    }
}

/// The first difference in what follows the length of a tick, told in time where that is known.
fn difference_in_parts(alloc: Global, found: &Scenario, wanted: &Scenario) -> Hint {
    let (here, there) = (delay_in(alloc, found)?, delay_in(alloc, wanted)?);
    if let Some(line) = told(alloc, "'delay' is", here.as_str(), there.as_str())? {
        return Ok(Some(line));
    }
    if let Some(line) = difference_in_groups(alloc, found, wanted)? {
        return Ok(Some(line));
    }
    if let Some(line) = difference_in_places(alloc, found, wanted)? {
        return Ok(Some(line));
    }
    if let Some(line) = difference_in_links(alloc, found, wanted)? {
        return Ok(Some(line));
    }
    if let Some(line) = difference_in_messages(alloc, found, wanted)? {
        return Ok(Some(line));
    }
    difference_in_target(alloc, found, wanted)
}

/// What is so in the certificate, and otherwise in the scenario that is wanted; None where it is the same.
fn told(alloc: Global, what: &str, found: &str, wanted: &str) -> Hint {
    if found == wanted {
        return Ok(None);
    }
    format!(in alloc;
        "{what} {found} in the certificate, and {wanted} in the scenario of '--scenario'"
    ).map(Some)
}

/// How time goes.
fn difference_in_time(alloc: Global, found: &Scenario, wanted: &Scenario) -> Hint {
    let (here, there) = (Quoted(found.time().word()), Quoted(wanted.time().word()));
    let (here, there) = (format!(in alloc; "{here}")?, format!(in alloc; "{there}")?);
    told(alloc, "'time' is", here.as_str(), there.as_str())
}

/// How long a tick lasts, in words.
fn tick_in(alloc: Global, scenario: &Scenario) -> Result<String, AllocError> {
    match scenario.tick() {
        Some(tick) => {
            let tick = Length(tick);
            format!(in alloc; "lasts {tick}")
        }
        None => String::from_str(alloc, "has no length"),
    }
}

/// The greatest delay.
fn delay_in(alloc: Global, scenario: &Scenario) -> Result<String, AllocError> {
    shown_time(alloc, i64::from(scenario.delay()), scenario.tick())
}

/// The groups, by their names and in their order.
fn difference_in_groups(alloc: Global, found: &Scenario, wanted: &Scenario) -> Hint {
    let (here, there) = (groups_in(alloc, found)?, groups_in(alloc, wanted)?);
    told(alloc, "the groups are", here.as_str(), there.as_str())
}

/// The places of clients, by their names and in their order.
fn difference_in_places(alloc: Global, found: &Scenario, wanted: &Scenario) -> Hint {
    let (here, there) = (places_in(alloc, found)?, places_in(alloc, wanted)?);
    told(
        alloc,
        "the places of clients are",
        here.as_str(),
        there.as_str(),
    )
}

/// The names of all places, or that there are none.
fn places_in(alloc: Global, scenario: &Scenario) -> Result<String, AllocError> {
    let mut names = Vec::new(alloc);
    for place in 0..scenario.place_count() {
        names.push(scenario.place_name(place))?;
    }
    if names.is_empty() {
        return String::from_str(alloc, "none");
    }
    let names = Names(&names);
    format!(in alloc; "{names}")
}

/// The names of all groups.
fn groups_in(alloc: Global, scenario: &Scenario) -> Result<String, AllocError> {
    let mut names = Vec::new(alloc);
    for group in 0..scenario.group_count() {
        names.push(scenario.group_name(group))?;
    }
    let names = Names(&names);
    format!(in alloc; "{names}")
}

/// The first link, of either, with another range than in the other one. Without a link the range is 1 to D, and what a group
/// sends to itself takes no time.
fn difference_in_links(alloc: Global, found: &Scenario, wanted: &Scenario) -> Hint {
    for link in wanted.links().iter().chain(found.links()) {
        if let Some(line) = difference_in_link(alloc, found, wanted, link)? {
            return Ok(Some(line));
        }
    }
    Ok(None)
}

/// The range of what goes the way of a link.
fn difference_in_link(alloc: Global, found: &Scenario, wanted: &Scenario, link: &Link) -> Hint {
    let (sender, to) = (
        sender_in(alloc, wanted, link.sender)?,
        Quoted(group_name(wanted, link.to)),
    );
    let what = format!(in alloc; "a packet from {sender} to {to} takes")?;
    let (here, there) = (
        range_in(alloc, found, link)?,
        range_in(alloc, wanted, link)?,
    );
    told(alloc, what.as_str(), here.as_str(), there.as_str())
}

/// Who sends, in words.
fn sender_in(alloc: Global, scenario: &Scenario, sender: Sender) -> Result<String, AllocError> {
    match sender {
        Sender::Client(0) => String::from_str(alloc, "a client"),
        Sender::Client(place) => {
            let place = Quoted(place_name(scenario, place));
            format!(in alloc; "a client at {place}")
        }
        Sender::Group(group) => {
            let group = Quoted(group_name(scenario, group));
            format!(in alloc; "{group}")
        }
    }
}

/// The range of what goes the way of a link: `1 to 2 ticks`.
fn range_in(alloc: Global, scenario: &Scenario, link: &Link) -> Result<String, AllocError> {
    if !scenario.takes_time(link.sender, link.to) {
        return String::from_str(alloc, "no time");
    }
    let (least, most) = scenario.range_between(link.sender, link.to);
    let first = shown_time(alloc, i64::from(least), scenario.tick())?;
    let last = shown_time(alloc, i64::from(most), scenario.tick())?;
    if scenario.tick().is_some() {
        return format!(in alloc; "{first} to {last}");
    }
    let ticks = noun(most == 1, "tick", "ticks");
    format!(in alloc; "{first} to {last} {ticks}")
}

/// The first message that differs, in the first of its name, its sender, its destinations and its issue; or how many
/// there are.
fn difference_in_messages(alloc: Global, found: &Scenario, wanted: &Scenario) -> Hint {
    let (here, there) = (messages_in(alloc, found)?, messages_in(alloc, wanted)?);
    for (before, (here, there)) in here.iter().zip(&there).enumerate() {
        if let Some(line) = difference_in_message(alloc, before, here, there)? {
            return Ok(Some(line));
        }
    }
    let (here, there) = (count_of(alloc, &here)?, count_of(alloc, &there)?);
    told(alloc, "there are", here.as_str(), there.as_str())
}

/// A message, in words.
#[derive(Drop)]
struct Message {
    name: String,
    sender: String,
    to: String,
    issue: String,
}

/// All messages, in their order.
fn messages_in(alloc: Global, scenario: &Scenario) -> Result<Vec<Message>, AllocError> {
    let mut messages = Vec::new(alloc);
    for message in 0..scenario.message_count() {
        let draft = draft_message(alloc, scenario, message)?;
        let (name, to) = (Quoted(draft.name.as_str()), words_of(alloc, &draft.to)?);
        let to = Names(&to);
        messages.push(Message {
            name: format!(in alloc; "{name}")?,
            sender: sender_in(alloc, scenario, scenario.sender(message))?,
            to: format!(in alloc; "{to}")?,
            issue: issue_of(alloc, &draft, scenario)?,
        })?;
    }
    Ok(messages)
}

/// When a message is issued: `at 6`, or where it may wait `from 5 to 7`.
fn issue_of(
    alloc: Global,
    message: &DraftMulticast,
    scenario: &Scenario,
) -> Result<String, AllocError> {
    let first = shown_time(alloc, message.at, scenario.tick())?;
    if message.until == message.at {
        return format!(in alloc; "at {first}");
    }
    let last = shown_time(alloc, message.until, scenario.tick())?;
    format!(in alloc; "from {first} to {last}")
}

/// In what two messages differ that have so many before them.
fn difference_in_message(alloc: Global, before: usize, found: &Message, wanted: &Message) -> Hint {
    let place = Ordinal(before.saturating_add(1));
    let what = format!(in alloc; "the {place} multicast is")?;
    if let Some(line) = told(
        alloc,
        what.as_str(),
        found.name.as_str(),
        wanted.name.as_str(),
    )? {
        return Ok(Some(line));
    }
    let name = wanted.name.as_str();
    for (verb, here, there) in [
        ("comes from", &found.sender, &wanted.sender),
        ("goes to", &found.to, &wanted.to),
        ("is issued", &found.issue, &wanted.issue),
    ] {
        let what = format!(in alloc; "{name} {verb}")?;
        if let Some(line) = told(alloc, what.as_str(), here.as_str(), there.as_str())? {
            return Ok(Some(line));
        }
    }
    Ok(None)
}

/// How many messages there are.
fn count_of(alloc: Global, messages: &[Message]) -> Result<String, AllocError> {
    let count = messages.len();
    let multicasts = noun(count == 1, "multicast", "multicasts");
    format!(in alloc; "{count} {multicasts}")
}

/// The message of which the latency is asked, and the group at which it is asked.
fn difference_in_target(alloc: Global, found: &Scenario, wanted: &Scenario) -> Hint {
    let (here, there) = (target_in(alloc, found)?, target_in(alloc, wanted)?);
    told(alloc, "the target is", here.as_str(), there.as_str())
}

/// The target, in words: `"t" at "a"`.
fn target_in(alloc: Global, scenario: &Scenario) -> Result<String, AllocError> {
    let message = Quoted(message_name(scenario, scenario.target_message()));
    let group = Quoted(group_name(scenario, scenario.target_group()));
    format!(in alloc; "{message} at {group}")
}
