//! What is wrong with the deadline of a message.

use super::durations::Length;
use super::hint::Hint;
use super::part::Part;
use super::scenario_text::ScenarioText;
use super::times::has_durations;
use convoy_scenario::{Duration, Time};
use convoy_toml::{ScenarioTable, WrittenScenario, WrittenTime};
use std::alloc::{AllocError, Global};

/// How the times of a scenario are written that are no deadlines.
#[derive(Clone, Copy)]
struct Times {
    time: Time,
    /// Whether one of them is a duration.
    has_durations: bool,
    /// Whether the length of a tick is known.
    has_length: bool,
}

/// What is wrong with the first deadline that is none, in a text whose other times are as they have to be: that of a
/// message, or the one that a command line gives by `--at-most` for each message that has none.
pub fn hint_for_deadline(
    alloc: Global,
    source: ScenarioText<'_>,
    scenario: &WrittenScenario,
    at_most: &Option<WrittenTime>,
) -> Hint {
    let times = times_of(alloc, scenario)?;
    for (number, multicast) in scenario.multicasts.iter().enumerate() {
        let part = source.part(ScenarioTable::Multicast(number));
        let hint = hint_for_one(alloc, times, &multicast.within, at_most, &part)?;
        if hint.is_some() {
            return Ok(hint);
        }
    }
    Ok(None)
}

/// How the times of a scenario are written.
fn times_of(alloc: Global, scenario: &WrittenScenario) -> Result<Times, AllocError> {
    let has_durations = has_durations(alloc, scenario)?;
    Ok(Times {
        time: scenario.time,
        has_durations,
        has_length: has_durations || scenario.tick.is_some(),
    })
}

/// What is wrong with the deadline of a message: its own, or the one that is asked for where it has none. None where nothing
/// is.
fn hint_for_one(
    alloc: Global,
    times: Times,
    within: &Option<WrittenTime>,
    at_most: &Option<WrittenTime>,
    part: &Part<'_>,
) -> Hint {
    match (within, at_most) {
        (Some(within), _) => hint_for_within(alloc, times, within, part),
        (None, Some(WrittenTime::Lasting(duration))) if !times.has_length => {
            hint_for_at_most(alloc, times.time, *duration).map(Some)
        }
        (None, _) => Ok(None),
    }
}

/// What is wrong with the deadline of a message; None where nothing is.
fn hint_for_within(alloc: Global, times: Times, within: &WrittenTime, part: &Part<'_>) -> Hint {
    match within {
        WrittenTime::Count(ticks) if times.has_durations => format!(in alloc;
            "'within' in {part} is the plain number {ticks}: write a duration, as the other times are, as 'within = \"400 ms\"'"
        ).map(Some),
        WrittenTime::Count(ticks) if *ticks < 1 => {
            format!(in alloc; "'within' in {part} is {ticks}, and may be 1 or more").map(Some)
        }
        WrittenTime::Lasting(duration) if duration.nanoseconds() < 1 => {
            format!(in alloc; "'within' in {part} is 0, and a deadline is longer").map(Some)
        }
        WrittenTime::Lasting(duration) if !times.has_length => {
            hint_for_no_tick(alloc, *duration, part).map(Some)
        }
        _ => Ok(None),
    }
}

/// The deadline of a message is a duration, and no tick has a length.
fn hint_for_no_tick(
    alloc: Global,
    duration: Duration,
    part: &Part<'_>,
) -> Result<String, AllocError> {
    let length = Length(duration);
    format!(in alloc;
        "'within' in {part} is the duration {length}, and nothing says how long a tick is: write 'tick = \"..\"', the length of a tick, above the first header, or a number of ticks"
    )
}

/// The deadline that a command line gives is a duration, and no tick has a length.
fn hint_for_at_most(alloc: Global, time: Time, duration: Duration) -> Result<String, AllocError> {
    let length = Length(duration);
    let way_out = match time {
        Time::Ticks => "time goes in whole ticks: write 'time = \"real\"' and 'tick = \"..\"'",
        Time::Real => "nothing says how long a tick is: write 'tick = \"..\"'",
    };
    format!(in alloc;
        "'--at-most' is the duration {length}, and {way_out} in the scenario, or give a number of ticks"
    )
}
