//! Deliveries that a trace does not tell, though it tells what happens later.

ghost use Rattle.std.specs.Prelude.{◌≡◌, ◌<◌, length};
ghost use Rattle.convoy_scenario.specs.Scenario.{message_at};
ghost use Rattle.convoy_fits.specs.Tests.{first_missing, first_missing_from, missing_at};

use super::comparing::earlier;
use super::departure::Departure;
use super::told_times::{end_of, time_told};
use convoy_packets::Instance;
use convoy_sim::Run;
use convoy_traces::{Event, Told};

/// The delivery of a message at a group, where it is missing.
fn missing_at(run: &Run, told: &[Told], message: usize, group: usize) -> Option<Departure>
    ensures { result ≡ missing_at run.now told.now message group }
{
    let tick = run.delivered(message, group).unwrap_or(0);
    if time_told(told, message, Event::Delivery(group)).is_some() || end_of(told) <= tick {
        None
    } else {
        Some(Departure::Missing(message, group, tick))
    }
}

/// The first missing delivery of a message at these groups, or a departure that is known.
fn first_missing(
    run: &Run,
    told: &[Told],
    message: usize,
    known: Option<Departure>,
    groups: &[usize],
) -> Option<Departure>
    ensures { result ≡ first_missing run.now told.now message known groups.now }
{
    let mut first = known;
    for group in groups {
        first = earlier(first, missing_at(run, told, message, *group));
    }
    first
}

/// The first missing delivery, or a departure that is known.
pub(crate) fn first_missing_from(
    finer: &Instance,
    run: &Run,
    told: &[Told],
    known: Option<Departure>,
) -> Option<Departure>
    ensures { result ≡ first_missing_from finer.now run.now told.now known (length finer.now.multicasts) 0 }
{
    let mut first = known;
    for message in 0..finer.message_count() {
        first = first_missing(run, told, message, first, finer.destinations(message));
    }
    first
}
