//! A scenario around a target, by way of its draft.

ghost use Rattle.std.specs.Prelude.{◌≡◌, ◌<◌, length, map, IfOk, IsTrue};
ghost use Rattle.convoy_around.specs.Around.{around, around_at, is_span, issue_around, message_around};
ghost use Rattle.convoy_scenario.specs.Memory.{IsUnlessMemory};
ghost use Rattle.convoy_scenario.specs.Naming.{draft_for, draft_link, draft_message};
ghost use Rattle.convoy_scenario.specs.Scenario.{GoesTo, message_at};
ghost use Rattle.convoy_scenario.specs.WellFormed.{IsScenario};

use super::around_laws::around_is_scenario;
use convoy_scenario::naming::{
    draft_destinations, draft_group, draft_groups, draft_link, draft_places, draft_sender,
};
use convoy_scenario::scenario_laws::scenarios_have_drafts;
use convoy_scenario::{
    DraftLink, DraftMulticast, DraftScenario, LONGEST_WAIT, Limit, Name, Scenario, ScenarioFault,
};
use std::alloc::{AllocError, Global};

/// The scenario around its target, in memory of its own: the target is issued at a known tick, and each other message
/// at any tick from so many, the span, before it to twice the span after it (docs/FORMATS.md, "Around the target").
///
/// The faults are `ScenarioFault::OverLimit(Limit::Until)` where three spans are more ticks than a message may wait
/// ([`is_span`]), and `ScenarioFault::Memory` where memory runs out.
pub fn around(alloc: Global, scenario: &Scenario, span: u32) -> Result<Scenario, ScenarioFault>
    ensures { IsUnlessMemory ScenarioFault.Memory (around span scenario.now) result }
{
    if !is_span(span) {
        return Err(ScenarioFault::OverLimit(Limit::Until));
    }
    let message = scenario.target_message();
    let group = scenario.target_group();
    Ok(around_at(alloc, scenario, span, message, group)?)
}

/// Whether a message may wait three times as long, from so long before the target to twice as long after it.
pub fn is_span(span: u32) -> bool
    ensures { result ≡ is_span span }
{
    span <= u32::from(LONGEST_WAIT) / 3
}

/// The scenario around that message at that group, which is one that it goes to, in memory of its own. Fails where
/// memory runs out, and else never.
pub fn around_at(
    alloc: Global,
    scenario: &Scenario,
    span: u32,
    message: usize,
    group: usize,
) -> Result<Scenario, AllocError>
    requires span { IsTrue (is_span span) }
    requires known { message < length scenario.now.multicasts }
    requires addressed { GoesTo scenario.now message group }
    ensures { IfOk result (λ other. other ≡ around_at span scenario.now message group) }
{
    around_is_scenario();
    scenarios_have_drafts();
    let draft = draft_around(alloc, scenario, span, message, group)?;
    match Scenario::from_draft(alloc, draft) {
        Ok(other) => Ok(other),
        // (the draft is that of a well-formed scenario)
        Err(_) => Err(AllocError),
    }
}

/// The draft of the scenario around that message at that group.
fn draft_around(
    alloc: Global,
    scenario: &Scenario,
    span: u32,
    message: usize,
    group: usize,
) -> Result<DraftScenario, AllocError>
    requires span { IsTrue (is_span span) }
    requires known { message < length scenario.now.multicasts }
    ensures value { IfOk result (λ draft. draft ≡ draft_for (around_at span scenario.now message group)) }
    ensures lawful { IsScenario scenario.now }
{
    Ok(DraftScenario {
        time: scenario.time(),
        tick: scenario.tick(),
        delay: i64::from(scenario.delay()),
        groups: draft_groups(alloc, scenario)?,
        places: draft_places(alloc, scenario)?,
        links: links_of(alloc, scenario)?,
        multicasts: messages_around(alloc, scenario, span, message)?,
        target_message: Name::new(alloc, scenario.message_name(message))?,
        target_group: draft_group(alloc, scenario, group)?,
    })
}

/// The links by names.
fn links_of(alloc: Global, scenario: &Scenario) -> Result<Vec<DraftLink>, AllocError>
    ensures { IfOk result (λ links. links.items ≡ map (draft_link scenario.now) scenario.now.links) }
{
    let mut links = Vec::new(alloc);
    for link in scenario.links() {
        links.push(draft_link(alloc, scenario, *link)?)?;
    }
    Ok(links)
}

/// The messages by names, as they are around that target.
fn messages_around(
    alloc: Global,
    scenario: &Scenario,
    span: u32,
    target: usize,
) -> Result<Vec<DraftMulticast>, AllocError>
    requires { IsTrue (is_span span) }
    ensures { IfOk result (λ messages. messages.items
        ≡ map (draft_message scenario.now) (around_at span scenario.now target 0).multicasts) }
{
    let mut messages = Vec::new(alloc);
    for message in 0..scenario.message_count() {
        messages.push(message_around(alloc, scenario, span, target, message)?)?;
    }
    Ok(messages)
}

/// A message by names, as it is around that target.
fn message_around(
    alloc: Global,
    scenario: &Scenario,
    span: u32,
    target: usize,
    message: usize,
) -> Result<DraftMulticast, AllocError>
    requires span { IsTrue (is_span span) }
    requires known { message < length scenario.now.multicasts }
    ensures { IfOk result (λ named. named
        ≡ draft_message scenario.now (message_around span target message (message_at scenario.now message))) }
{
    let (at, wait) = issue_around(span, message == target);
    Ok(DraftMulticast {
        name: Name::new(alloc, scenario.message_name(message))?,
        sender: draft_sender(alloc, scenario, scenario.sender(message))?,
        to: draft_destinations(alloc, scenario, scenario.destinations(message))?,
        at: i64::from(at),
        until: i64::from(at) + i64::from(wait),
    })
}

/// The first tick at which a message is issued, and how long it may wait from then.
fn issue_around(span: u32, is_target: bool) -> (u32, u32)
    requires { IsTrue (is_span span) }
    ensures { result ≡ issue_around span is_target }
{
    if is_target { (span, 0) } else { (0, 3 * span) }
}
