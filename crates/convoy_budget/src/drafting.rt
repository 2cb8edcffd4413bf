//! A scenario in which one way has another range, by way of its draft.

ghost use Rattle.std.specs.Prelude.{◌≡◌, ◌++◌, max, map, IfOk};
ghost use Rattle.convoy_scenario.specs.Memory.{IsUnlessMemory};
ghost use Rattle.convoy_scenario.specs.Naming.{draft_for};
ghost use Rattle.convoy_budget.specs.Ranges.{breadth_at_end, link_on, range_at, range_of_way, ranged_draft, widened, widest, with_range};
ghost use Rattle.convoy_budget.specs.Ways.{all_ways};

use super::kinds::{Side, Way, Widening};
use super::ways::{all_ways, is_same_way};
use convoy_scenario::naming::{
    draft_group, draft_groups, draft_message, draft_places, draft_sender,
};
use convoy_scenario::{DraftLink, DraftMulticast, DraftScenario, Name, Scenario, ScenarioFault};
use std::alloc::{AllocError, Global};

/// The scenario in which the range of a way has that breadth, in ticks, and all other ways have their ranges, in memory of
/// its own. `ScenarioFault::Memory` where memory runs out; else the first fault of the scenario, as where the range is
/// wider than any that may be written.
pub fn widened(
    alloc: Global,
    scenario: &Scenario,
    widening: Widening,
    breadth: u16,
) -> Result<Scenario, ScenarioFault>
    ensures { IsUnlessMemory ScenarioFault.Memory (widened scenario.now widening breadth) result }
{
    let today = range_of_way(scenario, widening.way);
    let range = range_at(widening.side, today, breadth);
    with_range(alloc, scenario, widening.way, range)
}

/// The greatest breadth that may be written for a range.
pub(crate) fn widest(scenario: &Scenario, widening: Widening) -> u16
    ensures { result ≡ widest scenario.now widening }
{
    let range = range_of_way(scenario, widening.way);
    match widening.side {
        Side::Later => scenario.time().greatest_delay().saturating_sub(range.0),
        Side::Earlier => range.1.saturating_sub(1),
    }
}

/// The least and the greatest delay of a way, in ticks.
pub(crate) fn range_of_way(scenario: &Scenario, way: Way) -> (u16, u16)
    ensures { result ≡ range_of_way scenario.now way }
{
    scenario.range_between(way.sender, way.to)
}

/// A range of that breadth in place of this one.
fn range_at(side: Side, range: (u16, u16), breadth: u16) -> (u32, u32)
    ensures { result ≡ range_at side range breadth }
{
    let (least, most) = (u32::from(range.0), u32::from(range.1));
    match side {
        Side::Later => (least, least + u32::from(breadth)),
        Side::Earlier => (most.saturating_sub(u32::from(breadth)), most),
    }
}

/// The scenario with this range of the way, and all others as they are.
fn with_range(
    alloc: Global,
    scenario: &Scenario,
    way: Way,
    range: (u32, u32),
) -> Result<Scenario, ScenarioFault>
    ensures { IsUnlessMemory ScenarioFault.Memory (with_range scenario.now way range) result }
{
    Scenario::from_draft(alloc, ranged_draft(alloc, scenario, way, range)?)
}

/// Its draft.
fn ranged_draft(
    alloc: Global,
    scenario: &Scenario,
    way: Way,
    range: (u32, u32),
) -> Result<DraftScenario, AllocError>
    ensures { IfOk result (λ draft. draft ≡ ranged_draft scenario.now way range) }
{
    let target = scenario.target_message();
    Ok(DraftScenario {
        time: scenario.time(),
        tick: scenario.tick(),
        delay: i64::from(u32::from(scenario.delay()).max(range.1)),
        groups: draft_groups(alloc, scenario)?,
        places: draft_places(alloc, scenario)?,
        links: links_of(alloc, scenario, way, range)?,
        multicasts: messages_of(alloc, scenario)?,
        target_message: Name::new(alloc, scenario.message_name(target))?,
        target_group: draft_group(alloc, scenario, scenario.target_group())?,
    })
}

/// A link for each way.
fn links_of(
    alloc: Global,
    scenario: &Scenario,
    way: Way,
    range: (u32, u32),
) -> Result<Vec<DraftLink>, AllocError>
    ensures { IfOk result (λ links. links.items ≡ map (link_on scenario.now way range) (all_ways scenario.now)) }
{
    let ways = all_ways(alloc, scenario)?;
    let mut links = Vec::new(alloc);
    for other in &ways {
        links.push(link_on(alloc, scenario, way, range, *other)?)?;
    }
    Ok(links)
}

/// The link of a way, where the one has that range and the others have theirs.
fn link_on(
    alloc: Global,
    scenario: &Scenario,
    way: Way,
    range: (u32, u32),
    other: Way,
) -> Result<DraftLink, AllocError>
    ensures { IfOk result (λ link. link ≡ link_on scenario.now way range other) }
{
    let today = range_of_way(scenario, other);
    let (least, most) = if is_same_way(way, other) {
        range
    } else {
        (u32::from(today.0), u32::from(today.1))
    };
    Ok(DraftLink {
        sender: draft_sender(alloc, scenario, other.sender)?,
        to: draft_group(alloc, scenario, other.to)?,
        least: i64::from(least),
        most: i64::from(most),
        stamps: scenario.own_stamps_take_time(other.sender, other.to),
    })
}

/// The messages by names.
fn messages_of(alloc: Global, scenario: &Scenario) -> Result<Vec<DraftMulticast>, AllocError>
    ensures { IfOk result (λ messages. messages.items ≡ (draft_for scenario.now).messages) }
{
    let mut messages = Vec::new(alloc);
    for message in 0..scenario.message_count() {
        messages.push(draft_message(alloc, scenario, message)?)?;
    }
    Ok(messages)
}
