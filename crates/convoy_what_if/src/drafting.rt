//! A scenario that is changed, by way of its draft.

ghost use Rattle.std.specs.Prelude.{◌≡◌, ◌<◌, ◌++◌, length, map, IfOk, OnOk};
ghost use Rattle.std.specs.List.{flat_map};
ghost use Rattle.convoy_scenario.specs.Memory.{IsUnlessMemory};
ghost use Rattle.convoy_scenario.specs.Naming.{draft_link};
ghost use Rattle.convoy_scenario.specs.Scenario.{message_numbers};
ghost use Rattle.convoy_what_if.specs.Changes.{changed, changed_draft, fixed_link, leaves_out, links_left, messages_left, narrows, new_links};

use super::kinds::Change;
use convoy_scenario::naming::{draft_group, draft_groups, draft_link, draft_message, draft_places};
use convoy_scenario::{
    DraftLink, DraftMulticast, DraftScenario, Link, Name, Scenario, ScenarioFault, Sender,
};
use std::alloc::{AllocError, Global};

/// The scenario that is changed so (docs/CALLING.md, "Changes of one thing"), in memory of its own: the one
/// that its names and numbers give, which are checked as those of a text. `ScenarioFault::Memory` where
/// memory runs out; else the first fault that they have, as where the target's message is left out.
pub fn change(alloc: Global, scenario: &Scenario, change: Change) -> Result<Scenario, ScenarioFault>
    ensures { IsUnlessMemory ScenarioFault.Memory (changed scenario.now change) result }
{
    Scenario::from_draft(alloc, changed_draft(alloc, scenario, change)?)
}

/// The draft of the scenario that is changed so.
fn changed_draft(
    alloc: Global,
    scenario: &Scenario,
    change: Change,
) -> Result<DraftScenario, AllocError>
    ensures { IfOk result (λ draft. draft ≡ changed_draft scenario.now change) }
{
    let target = scenario.target_message();
    Ok(DraftScenario {
        time: scenario.time(),
        tick: scenario.tick(),
        delay: i64::from(scenario.delay()),
        groups: draft_groups(alloc, scenario)?,
        places: draft_places(alloc, scenario)?,
        links: links_of(alloc, scenario, change)?,
        multicasts: messages_of(alloc, scenario, change)?,
        target_message: Name::new(alloc, scenario.message_name(target))?,
        target_group: draft_group(alloc, scenario, scenario.target_group())?,
    })
}

/// The links by names: those that keep their range, and the one that is narrowed.
fn links_of(
    alloc: Global,
    scenario: &Scenario,
    change: Change,
) -> Result<Vec<DraftLink>, AllocError>
    ensures { IfOk result (λ links. links.items
        ≡ flat_map (links_left scenario.now change) scenario.now.links
        ++ map (draft_link scenario.now) (new_links scenario.now change)) }
{
    let mut links = Vec::new(alloc);
    for link in scenario.links() {
        push_link(alloc, scenario, change, *link, &mut links)?;
    }
    push_new(alloc, scenario, change, &mut links)?;
    Ok(links)
}

/// Appends a link by names, if it stays as it is.
fn push_link(
    alloc: Global,
    scenario: &Scenario,
    change: Change,
    link: Link,
    links: &mut Vec<DraftLink>,
) -> Result<(), AllocError>
    ensures { OnOk result (links.new.items ≡ links.old.items ++ links_left scenario.now change link) }
{
    if !narrows(change, &link) {
        links.push(draft_link(alloc, scenario, link)?)?;
    }
    Ok(())
}

/// Appends the link that a change brings, if it brings one.
fn push_new(
    alloc: Global,
    scenario: &Scenario,
    change: Change,
    links: &mut Vec<DraftLink>,
) -> Result<(), AllocError>
    ensures { OnOk result (links.new.items ≡ links.old.items ++ map (draft_link scenario.now) (new_links scenario.now change)) }
{
    let link = match change {
        Change::Nothing | Change::Without { .. } => return Ok(()),
        Change::AtLeast { sender, to } => {
            fixed_link(scenario, sender, to, scenario.range_between(sender, to).0)
        }
        Change::AtMost { sender, to } => {
            fixed_link(scenario, sender, to, scenario.range_between(sender, to).1)
        }
    };
    links.push(draft_link(alloc, scenario, link)?)?;
    Ok(())
}

/// A link on which each packet takes so many ticks, for a group's own stamps if these take time in the scenario.
fn fixed_link(scenario: &Scenario, sender: Sender, to: usize, delay: u16) -> Link
    ensures { result ≡ fixed_link scenario.now sender to delay }
{
    Link {
        sender,
        to,
        least: delay,
        most: delay,
        stamps: scenario.own_stamps_take_time(sender, to),
    }
}

/// Whether a change gives the link another range.
fn narrows(change: Change, link: &Link) -> bool
    ensures { result ≡ narrows change link.now }
{
    match change {
        Change::Nothing | Change::Without { .. } => false,
        Change::AtLeast { sender, to } | Change::AtMost { sender, to } => link.leads(sender, to),
    }
}

/// The messages by names, but for the one that is left out.
fn messages_of(
    alloc: Global,
    scenario: &Scenario,
    change: Change,
) -> Result<Vec<DraftMulticast>, AllocError>
    ensures { IfOk result (λ messages. messages.items ≡ flat_map (messages_left scenario.now change) (message_numbers scenario.now)) }
{
    let mut messages = Vec::new(alloc);
    for message in 0..scenario.message_count() {
        push_left(alloc, scenario, change, message, &mut messages)?;
    }
    Ok(messages)
}

/// Appends a message by names, if it stays.
fn push_left(
    alloc: Global,
    scenario: &Scenario,
    change: Change,
    message: usize,
    messages: &mut Vec<DraftMulticast>,
) -> Result<(), AllocError>
    requires { message < length scenario.now.multicasts }
    ensures { OnOk result (messages.new.items ≡ messages.old.items ++ messages_left scenario.now change message) }
{
    if !leaves_out(change, message) {
        messages.push(draft_message(alloc, scenario, message)?)?;
    }
    Ok(())
}

/// Whether a change leaves the message out.
fn leaves_out(change: Change, message: usize) -> bool
    ensures { result ≡ leaves_out change message }
{
    match change {
        Change::Without { message: other } => message == other,
        Change::Nothing | Change::AtLeast { .. } | Change::AtMost { .. } => false,
    }
}
