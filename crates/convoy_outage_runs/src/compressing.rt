//! A compressed scenario, by way of its draft.

ghost use Rattle.std.specs.Prelude.{◌≡◌, ◌<◌, ◌≤◌, ◌+◌, ◌-◌, ◌==◌, ◌&&◌, ◌||◌, length, map, min, nat_le, IfOk, IsTrue};
ghost use Rattle.std.specs.List.{list_all};
ghost use Rattle.convoy_draft.specs.declared.limits.TheConstants.{GREATEST_AT, LONGEST_WAIT};
ghost use Rattle.convoy_draft.specs.declared.time.Time.TheVariants.{Real};
ghost use Rattle.convoy_outages.specs.declared.outage.TheConstants.{LONGEST_OUTAGE};
ghost use Rattle.convoy_outage_runs.specs.Compressed.{
  compressed,
  compressed_link,
  compressed_span,
  compressed_within,
  first_tick_saved,
  is_within_limits,
  last_tick_saved,
  message_saved,
  saved_ticks,
  shortest_travel,
};
ghost use Rattle.convoy_packets.specs.Packets.{is_wait};
ghost use Rattle.convoy_scenario.specs.Naming.{draft_for, draft_link, draft_message};
ghost use Rattle.convoy_scenario.specs.Scenario.{message_at, message_numbers};
ghost use Rattle.convoy_scenario.specs.WellFormed.{IsScenario};

use super::outage_run_laws::compressed_is_scenario;
use convoy_outages::Span;
use convoy_packets::{Instance, Packet};
use convoy_scenario::lookup::{first_tick, window};
use convoy_scenario::naming::{
    draft_destinations, draft_group, draft_groups, draft_places, draft_sender, message_name,
};
use convoy_scenario::scenario_laws::scenarios_have_drafts;
use convoy_scenario::{
    DraftLink, DraftMulticast, DraftScenario, GREATEST_AT, GREATEST_DELAY, LONGEST_WAIT, Link,
    Name, Scenario,
};
use std::alloc::{AllocError, Global};

/// The compressed scenario, in memory of its own, where it is within the limits of scenarios, and else none: that of a
/// scenario in real time, and of outages of which each tick is made so many times as short (docs/PROTOCOL.md, "Runs
/// through outages"). Fails where memory runs out, and else never.
pub fn compressed(
    alloc: Global,
    scenario: &Scenario,
    factor: u16,
    span: Span,
) -> Result<Option<Scenario>, AllocError>
    requires real { scenario.now.time ≡ Real }
    requires some { 1 ≤ factor }
    ensures { IfOk result (λ other. other ≡ compressed_within factor span scenario.now) }
{
    if is_within_limits(scenario, factor, span) {
        Ok(Some(compressed_scenario(alloc, scenario, factor, span)?))
    } else {
        Ok(None)
    }
}

/// How many ticks of outages that last so long are saved where each of their ticks is made so many times as short.
pub fn saved_ticks(factor: u16, span: Span) -> u32
    requires { 1 ≤ factor }
    ensures { result ≡ saved_ticks factor span }
{
    span.ticks() - span.ticks() / u32::from(factor)
}

/// The least delay of all packets of a scenario that travel, in ticks.
pub fn shortest_travel(instance: &Instance) -> u16
    ensures { result ≡ shortest_travel instance.now }
{
    let table = instance.table();
    let mut shortest = GREATEST_DELAY;
    for place in 0..table.len() {
        if !is_wait(table.packet(place)) {
            shortest = shortest.min(table.range(place).0);
        }
    }
    shortest
}

/// Whether it is the wait of a message, and no packet that travels.
fn is_wait(packet: Packet) -> bool
    ensures { result ≡ is_wait packet }
{
    matches!(packet, Packet::Wait { .. })
}

/// The compressed scenario, which is within the limits.
fn compressed_scenario(
    alloc: Global,
    scenario: &Scenario,
    factor: u16,
    span: Span,
) -> Result<Scenario, AllocError>
    requires real { scenario.now.time ≡ Real }
    requires some { 1 ≤ factor }
    requires within { IsTrue (is_within_limits (compressed factor span scenario.now)) }
    ensures { IfOk result (λ other. other ≡ compressed factor span scenario.now) }
{
    compressed_is_scenario();
    scenarios_have_drafts();
    let draft = draft_compressed(alloc, scenario, factor, span)?;
    match Scenario::from_draft(alloc, draft) {
        Ok(other) => Ok(other),
        // (the draft is that of a well-formed scenario)
        Err(_) => Err(AllocError),
    }
}

/// Whether the compressed scenario is within the limits of scenarios.
fn is_within_limits(scenario: &Scenario, factor: u16, span: Span) -> bool
    requires { 1 ≤ factor }
    ensures { result ≡ is_within_limits (compressed factor span scenario.now) }
{
    let saved = saved_ticks(factor, span);
    compressed_delay(scenario, factor, span) <= u32::from(GREATEST_DELAY)
        && windows_fit(scenario, saved)
        && has_room(scenario, saved)
}

/// The greatest delay of a packet in the compressed scenario.
fn compressed_delay(scenario: &Scenario, factor: u16, span: Span) -> u32
    requires { 1 ≤ factor }
    ensures value { result ≡ scenario.now.delay + compressed_span factor span + min (factor - 1) 1 }
    ensures lawful { IsScenario scenario.now }
{
    let longer = u32::from((factor - 1).min(1));
    u32::from(scenario.delay()) + compressed_span(factor, span) + longer
}

/// How many ticks compressed outages are, one that has begun counted whole.
fn compressed_span(factor: u16, span: Span) -> u32
    requires { 1 ≤ factor }
    ensures value { result ≡ compressed_span factor span }
    ensures bounded { result ≤ LONGEST_OUTAGE }
{
    span.ticks().div_ceil(u32::from(factor))
}

/// Whether no message waits longer than one may.
fn windows_fit(scenario: &Scenario, saved: u32) -> bool
    ensures { let target = message_at scenario.now scenario.now.target_message in result
        ≡ list_all (λ m. nat_le (message_saved saved target (message_at scenario.now m)).longest_wait LONGEST_WAIT)
        (message_numbers scenario.now) }
{
    (0..scenario.message_count()).all(|message| window_fits(scenario, saved, message))
}

/// Whether a message waits no longer than one may.
fn window_fits(scenario: &Scenario, saved: u32, message: usize) -> bool
    ensures { let target = message_at scenario.now scenario.now.target_message in result
        ≡ nat_le (message_saved saved target (message_at scenario.now message)).longest_wait LONGEST_WAIT }
{
    wait_saved(scenario, saved, message) <= u32::from(LONGEST_WAIT)
}

/// Whether the target has room to wait as long as it may.
fn has_room(scenario: &Scenario, saved: u32) -> bool
    ensures { let target = message_at scenario.now scenario.now.target_message in
        let wait = (message_saved saved target target).longest_wait in result
        ≡ (nat_le (first_tick_saved saved target target + wait) GREATEST_AT
        && list_all (λ m. m == scenario.now.target_message
        || nat_le ((message_saved saved target (message_at scenario.now m)).longest_wait + wait) LONGEST_WAIT)
        (message_numbers scenario.now)) }
{
    let target = scenario.target_message();
    let first = first_saved(scenario, saved, target);
    let last = u64::from(first) + u64::from(wait_saved(scenario, saved, target));
    last <= u64::from(GREATEST_AT) && others_have_room(scenario, saved)
}

/// Whether the window of each message but the target, with that of the target, is no longer than one may be.
fn others_have_room(scenario: &Scenario, saved: u32) -> bool
    ensures { let target = message_at scenario.now scenario.now.target_message in result
        ≡ list_all (λ m. m == scenario.now.target_message
        || nat_le ((message_saved saved target (message_at scenario.now m)).longest_wait
        + (message_saved saved target target).longest_wait) LONGEST_WAIT) (message_numbers scenario.now) }
{
    (0..scenario.message_count()).all(|message| is_target_or_has_room(scenario, saved, message))
}

/// Whether the message is the target, or its window with that of the target is no longer than one may be.
fn is_target_or_has_room(scenario: &Scenario, saved: u32, message: usize) -> bool
    ensures { let target = message_at scenario.now scenario.now.target_message in result
        ≡ (message == scenario.now.target_message
        || nat_le ((message_saved saved target (message_at scenario.now message)).longest_wait
        + (message_saved saved target target).longest_wait) LONGEST_WAIT) }
{
    let target = scenario.target_message();
    let wait = u64::from(wait_saved(scenario, saved, message));
    let both = wait + u64::from(wait_saved(scenario, saved, target));
    message == target || both <= u64::from(LONGEST_WAIT)
}

/// How many ticks a message waits at most where so many ticks between it and the target are saved, or fewer.
fn wait_saved(scenario: &Scenario, saved: u32, message: usize) -> u32
    ensures { result ≡ (message_saved saved
        (message_at scenario.now scenario.now.target_message) (message_at scenario.now message)).longest_wait }
{
    let last = last_saved(scenario, saved, message);
    last.saturating_sub(first_saved(scenario, saved, message))
}

/// The first tick at which a message may be issued then.
fn first_saved(scenario: &Scenario, saved: u32, message: usize) -> u32
    ensures { result ≡ first_tick_saved saved
        (message_at scenario.now scenario.now.target_message) (message_at scenario.now message) }
{
    let first = first_tick(scenario, message);
    let first_of_target = first_tick(scenario, scenario.target_message());
    first.min(first_of_target).max(first.saturating_sub(saved))
}

/// The last tick at which a message may be issued then.
fn last_saved(scenario: &Scenario, saved: u32, message: usize) -> u32
    ensures { result ≡ last_tick_saved saved
        (message_at scenario.now scenario.now.target_message) (message_at scenario.now message) }
{
    let (_, last) = window(scenario, message);
    let (_, last_of_target) = window(scenario, scenario.target_message());
    last.max(last_of_target).min(last.saturating_add(saved))
}

/// The draft of the compressed scenario.
fn draft_compressed(
    alloc: Global,
    scenario: &Scenario,
    factor: u16,
    span: Span,
) -> Result<DraftScenario, AllocError>
    requires { 1 ≤ factor }
    ensures value { IfOk result (λ draft. draft ≡ draft_for (compressed factor span scenario.now)) }
    ensures lawful { IsScenario scenario.now }
{
    let saved = saved_ticks(factor, span);
    Ok(DraftScenario {
        time: scenario.time(),
        tick: scenario.tick(),
        delay: i64::from(compressed_delay(scenario, factor, span)),
        groups: draft_groups(alloc, scenario)?,
        places: draft_places(alloc, scenario)?,
        links: links_compressed(alloc, scenario, factor, span)?,
        multicasts: messages_saved(alloc, scenario, saved)?,
        target_message: Name::new(alloc, message_name(scenario, scenario.target_message()))?,
        target_group: draft_group(alloc, scenario, scenario.target_group())?,
    })
}

/// The links by names, as they are where outages are compressed.
fn links_compressed(
    alloc: Global,
    scenario: &Scenario,
    factor: u16,
    span: Span,
) -> Result<Vec<DraftLink>, AllocError>
    requires { 1 ≤ factor }
    ensures { IfOk result (λ links. links.items
        ≡ map (draft_link scenario.now) (map (compressed_link factor span) scenario.now.links)) }
{
    let mut links = Vec::new(alloc);
    for link in scenario.links() {
        links.push(link_compressed(alloc, scenario, factor, span, *link)?)?;
    }
    Ok(links)
}

/// A link by names, as it is where outages are compressed.
fn link_compressed(
    alloc: Global,
    scenario: &Scenario,
    factor: u16,
    span: Span,
    link: Link,
) -> Result<DraftLink, AllocError>
    requires { 1 ≤ factor }
    ensures { IfOk result (λ named. named ≡ draft_link scenario.now (compressed_link factor span link)) }
{
    Ok(DraftLink {
        sender: draft_sender(alloc, scenario, link.sender)?,
        to: draft_group(alloc, scenario, link.to)?,
        least: i64::from((link.least / factor).max(1)),
        most: i64::from(link.most) + i64::from(compressed_span(factor, span)),
        stamps: link.stamps,
    })
}

/// The messages by names, as they are where so many ticks between them and the target are saved, or fewer.
fn messages_saved(
    alloc: Global,
    scenario: &Scenario,
    saved: u32,
) -> Result<Vec<DraftMulticast>, AllocError>
    ensures { let target = message_at scenario.now scenario.now.target_message in
        IfOk result (λ messages. messages.items
        ≡ map (draft_message scenario.now) (map (message_saved saved target) scenario.now.multicasts)) }
{
    let mut messages = Vec::new(alloc);
    for message in 0..scenario.message_count() {
        messages.push(draft_saved(alloc, scenario, saved, message)?)?;
    }
    Ok(messages)
}

/// A message by names, as it is then.
fn draft_saved(
    alloc: Global,
    scenario: &Scenario,
    saved: u32,
    message: usize,
) -> Result<DraftMulticast, AllocError>
    requires { message < length scenario.now.multicasts }
    ensures { let target = message_at scenario.now scenario.now.target_message in
        IfOk result (λ named. named
        ≡ draft_message scenario.now (message_saved saved target (message_at scenario.now message))) }
{
    let first = first_saved(scenario, saved, message);
    Ok(DraftMulticast {
        name: Name::new(alloc, scenario.message_name(message))?,
        sender: draft_sender(alloc, scenario, scenario.sender(message))?,
        to: draft_destinations(alloc, scenario, scenario.destinations(message))?,
        at: i64::from(first),
        until: i64::from(first) + i64::from(wait_saved(scenario, saved, message)),
    })
}
