//! The deadlines of messages.

ghost use Rattle.std.specs.Prelude.{◌≡◌};
ghost use Rattle.convoy_scenario.specs.Memory.{IsUnlessMemory};
ghost use Rattle.convoy_toml.specs.Deadlines.{counted_ticks, deadline_of, deadlines_of, deadlines_of_written, has_durations, need_deadline, own_deadline, ticks_within, whole_ticks};
ghost use Rattle.convoy_toml.specs.Shape.{listed};

use super::placed::{Placed, ScenarioTable, in_table};
use super::times::{has_durations, length_of, tick_of};
use super::written::{WrittenMulticast, WrittenScenario, WrittenTime};
use convoy_scenario::{Duration, Key, ScenarioFault};
use std::alloc::Global;

/// The greatest deadline, in ticks: no latency has so many, and a greater one counts as this.
pub const GREATEST_DEADLINE: u32 = 4_294_967_295;

/// How many whole ticks of that length a duration above 0 has.
fn whole_ticks(tick: Option<u64>, duration: Duration) -> Option<u32>
    ensures { result ≡ whole_ticks tick duration }
{
    let length = duration.nanoseconds();
    if length < 1 {
        return None;
    }
    let ticks = length.checked_div(tick?).unwrap_or(0);
    Some(ticks.min(u64::from(GREATEST_DEADLINE)) as u32)
}

/// The ticks of a deadline that counts 1 tick or more.
pub(crate) fn counted_ticks(ticks: i64) -> Option<u32>
    ensures { result ≡ counted_ticks ticks }
{
    if ticks < 1 {
        return None;
    }
    Some(ticks.min(i64::from(GREATEST_DEADLINE)) as u32)
}

/// The most ticks that a latency may have by a deadline that is written so: 1 tick or more, or a duration above 0 where a
/// tick has a length.
fn ticks_within(tick: Option<u64>, within: WrittenTime) -> Option<u32>
    ensures { result ≡ ticks_within tick within }
{
    match within {
        WrittenTime::Count(ticks) => counted_ticks(ticks),
        WrittenTime::Lasting(duration) => whole_ticks(tick, duration),
    }
}

/// The same of a deadline in a text: beside durations it has to be one.
fn own_deadline(has_durations: bool, tick: Option<u64>, within: WrittenTime) -> Option<u32>
    ensures { result ≡ own_deadline has_durations tick within }
{
    match within {
        WrittenTime::Count(ticks) => {
            if has_durations {
                return None;
            }
            counted_ticks(ticks)
        }
        WrittenTime::Lasting(duration) => whole_ticks(tick, duration),
    }
}

/// A deadline that is none is a fault.
fn need_deadline(deadline: Option<u32>) -> Result<Option<u32>, ScenarioFault>
    ensures { result ≡ need_deadline deadline }
{
    match deadline {
        Some(ticks) => Ok(Some(ticks)),
        None => Err(ScenarioFault::Shape(Key::Within)),
    }
}

/// The deadline of a message in ticks: its own, or else the one that is asked beside the text, if there is one.
fn deadline_of(
    at_most: Option<WrittenTime>,
    has_durations: bool,
    tick: Option<u64>,
    multicast: &WrittenMulticast,
) -> Result<Option<u32>, ScenarioFault>
    ensures { result ≡ deadline_of at_most has_durations tick multicast.now }
{
    match (multicast.within, at_most) {
        (Some(within), _) => need_deadline(own_deadline(has_durations, tick, within)),
        (None, Some(within)) => need_deadline(ticks_within(tick, within)),
        (None, None) => Ok(None),
    }
}

/// The deadlines of messages, in ticks, in their order; or the first that is none.
fn deadlines_of(
    alloc: Global,
    at_most: Option<WrittenTime>,
    has_durations: bool,
    tick: Option<u64>,
    multicasts: &[WrittenMulticast],
) -> Result<Vec<Option<u32>>, Placed>
    ensures { IsUnlessMemory ScenarioFault.Memory
        (deadlines_of at_most has_durations tick multicasts.now) (listed result) }
{
    let mut deadlines = Vec::new(alloc);
    for multicast in multicasts {
        let place = ScenarioTable::Multicast(deadlines.len());
        deadlines.push(in_table(place, deadline_of(at_most, has_durations, tick, multicast))?)?;
    }
    Ok(deadlines)
}

/// The deadlines of a scenario's messages, in ticks, by their numbers, with one that is asked beside the text for those
/// that have none; or the first that is none (docs/FORMATS.md, "Deadlines").
pub fn deadlines_of_written(
    alloc: Global,
    at_most: Option<WrittenTime>,
    scenario: &WrittenScenario,
) -> Result<Vec<Option<u32>>, Placed>
    ensures { IsUnlessMemory ScenarioFault.Memory
        (deadlines_of_written at_most scenario.now) (listed result) }
{
    let tick = tick_of(alloc, scenario)?;
    let has_durations = has_durations(alloc, scenario)?;
    deadlines_of(
        alloc,
        at_most,
        has_durations,
        length_of(&tick),
        &scenario.multicasts,
    )
}
