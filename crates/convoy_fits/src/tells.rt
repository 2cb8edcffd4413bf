//! What a run tells of an event.

ghost use Rattle.std.specs.Prelude.{◌≡◌, Some};
ghost use Rattle.std.specs.Option.{option_map_or};
ghost use Rattle.convoy_sim.specs.Run.{proposed_of};
ghost use Rattle.convoy_fits.specs.Runs.{agrees};
ghost use Rattle.convoy_fits.specs.Tests.{moment_in, stamp_in};

use convoy_packets::{Instance, Schedule};
use convoy_scenario::lookup::first_tick;
use convoy_sim::{Run, Timestamp};
use convoy_traces::{Event, Stamp};

/// When the message arrives at the group; 0 where it does not.
fn arrival_in(run: &Run, message: usize, group: usize) -> u64
    ensures value { result ≡ option_map_or (λ p. p.tick) (proposed_of run.now message group) 0 }
    ensures small { result < 2 ^ 32 }
{
    match run.proposed(message, group) {
        Some(proposal) => u64::from(proposal.tick),
        None => 0,
    }
}

ghost use Rattle.std.specs.Prelude.{◌<◌, ◌^◌};

/// The moment of an event, in ticks of the scenario.
#[tactic(auto, unfolding(convoy_packets::specs::Assignment::delay_of))]
pub(crate) fn moment_in(
    finer: &Instance,
    schedule: &Schedule,
    run: &Run,
    message: usize,
    event: Event,
) -> u64
    ensures { result ≡ moment_in finer.now schedule.now run.now message event }
{
    let table = finer.table();
    match event {
        Event::Issue => {
            let wait = table.wait_in(schedule, message);
            u64::from(first_tick(finer.scenario(), message)) + u64::from(wait)
        }
        Event::Arrival(group) => arrival_in(run, message, group),
        Event::Proposal(group, from) => {
            let delay = table.propose_delay(schedule, message, from, group);
            arrival_in(run, message, from) + u64::from(delay)
        }
        Event::Commit(group) => u64::from(run.committed(message, group).unwrap_or(0)),
        Event::Delivery(group) => u64::from(run.delivered(message, group).unwrap_or(0)),
    }
}

/// The stamp that a group proposes for a message.
fn proposed_stamp(run: &Run, message: usize, group: usize) -> Option<Timestamp>
    ensures { result ≡ option_map (λ p. p.stamp) (proposed_of run.now message group) }
{
    match run.proposed(message, group) {
        Some(proposal) => Some(proposal.stamp),
        None => None,
    }
}

ghost use Rattle.std.specs.Prelude.{option_map};

/// The stamp that stands with an event.
pub(crate) fn stamp_in(run: &Run, message: usize, event: Event) -> Option<Timestamp>
    ensures { result ≡ stamp_in run.now message event }
{
    match event {
        Event::Issue => None,
        Event::Arrival(group) => proposed_stamp(run, message, group),
        Event::Proposal(_, from) => proposed_stamp(run, message, from),
        Event::Commit(_) => run.final_stamp(message),
        Event::Delivery(_) => run.final_stamp(message),
    }
}

/// Whether the stamp that is told, if one is, is this one.
pub(crate) fn agrees(told: Option<Stamp>, stamp: Timestamp) -> bool
    ensures { result ≡ agrees told (Some stamp) }
{
    match told {
        Some(told) => u64::from(told.time) == stamp.time && told.group == stamp.group,
        None => true,
    }
}
