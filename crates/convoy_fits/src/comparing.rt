//! Compares what a run tells with a trace.

ghost use Rattle.std.specs.Prelude.{◌≡◌, None};
ghost use Rattle.convoy_fits.specs.Departures.{is_network};
ghost use Rattle.convoy_fits.specs.Tests.{departure_at, departure_in, departure_of_kind, earlier, first_departure, or_else, stamp_departure, time_of};

use super::departure::Departure;
use super::missing::first_missing_from;
use super::tells::{agrees, moment_in, stamp_in};
use convoy_packets::{Instance, Schedule};
use convoy_sim::{Run, Timestamp};
use convoy_traces::{Event, Told};

/// Whether the event is one of the network: an issue, or the arrival of a packet.
pub(crate) fn is_network(event: Event) -> bool
    ensures { result ≡ is_network event }
{
    match event {
        Event::Issue => true,
        Event::Arrival(_) => true,
        Event::Proposal(_, _) => true,
        Event::Commit(_) => false,
        Event::Delivery(_) => false,
    }
}

/// When a departure is met.
fn time_of(departure: Departure) -> u32
    ensures { result ≡ time_of departure }
{
    match departure {
        Departure::Window(_, time, _, _) => time,
        Departure::Packet(_, _, came, _, _) => came,
        Departure::Moment(one, _) => one.time,
        Departure::Stamp(one, _) => one.time,
        Departure::Missing(_, _, tick) => tick,
    }
}

/// The one that is met first.
pub(crate) fn earlier(known: Option<Departure>, other: Option<Departure>) -> Option<Departure>
    ensures { result ≡ earlier known other }
{
    let Some(first) = known else {
        return other;
    };
    let Some(second) = other else {
        return known;
    };
    if time_of(second) < time_of(first) {
        other
    } else {
        known
    }
}

/// The departure from a stamp, if it is one.
fn stamp_departure(one: &Told, stamp: Option<Timestamp>) -> Option<Departure>
    ensures { result ≡ stamp_departure one.now stamp }
{
    let stamp = stamp?;
    if agrees(one.stamp, stamp) {
        None
    } else {
        Some(Departure::Stamp(*one, stamp))
    }
}

/// The departure of a run from what is told, if it is one.
fn departure_at(finer: &Instance, schedule: &Schedule, run: &Run, one: &Told) -> Option<Departure>
    ensures { result ≡ departure_at finer.now schedule.now run.now one.now }
{
    let moment = moment_in(finer, schedule, run, one.message, one.event);
    if moment == u64::from(one.time) {
        stamp_departure(one, stamp_in(run, one.message, one.event))
    } else {
        Some(Departure::Moment(*one, moment))
    }
}

/// The departure from what is told of an event of the network, or of another.
fn departure_of_kind(
    finer: &Instance,
    schedule: &Schedule,
    run: &Run,
    network: bool,
    one: &Told,
) -> Option<Departure>
    ensures { result ≡ departure_of_kind finer.now schedule.now run.now network one.now }
{
    if is_network(one.event) == network {
        departure_at(finer, schedule, run, one)
    } else {
        None
    }
}

/// The first departure from what is told of events of the network, or of others.
fn first_departure(
    finer: &Instance,
    schedule: &Schedule,
    run: &Run,
    network: bool,
    told: &[Told],
) -> Option<Departure>
    ensures { result ≡ first_departure finer.now schedule.now run.now network None told.now }
{
    let mut known = None;
    for one in told {
        known = earlier(known, departure_of_kind(finer, schedule, run, network, one));
    }
    known
}

/// The first departure of a run from a trace: of the network, or else of the protocol.
pub(crate) fn departure_in(
    finer: &Instance,
    schedule: &Schedule,
    run: &Run,
    told: &[Told],
) -> Option<Departure>
    ensures { result ≡ departure_in finer.now schedule.now run.now told.now }
{
    if let Some(first) = first_departure(finer, schedule, run, true, told) {
        return Some(first);
    }
    let known = first_departure(finer, schedule, run, false, told);
    first_missing_from(finer, run, told, known)
}
