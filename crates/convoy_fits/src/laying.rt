//! The schedule that a trace gives. That it is an assignment is all that is said of it: its run is compared.

ghost use Rattle.std.specs.Prelude.{◌≤◌, IfOk};
ghost use Rattle.convoy_packets.specs.Assignment.{AreWithin, IsWithin, ranges_of};

use super::told_times::time_told;
use convoy_packets::{Instance, Packet, Schedule};
use convoy_scenario::lookup::first_tick;
use convoy_traces::{Event, Told};
use std::alloc::{AllocError, Global};

/// The delay of a range, in ticks, that is nearest to a wished one.
fn within(range: (u16, u16), delay: i64) -> u16
    requires { range.0 ≤ range.1 }
    ensures { IsWithin range result }
{
    delay.clamp(i64::from(range.0), i64::from(range.1)) as u16
}

/// Gives each packet the delay that the trace tells, or the nearest that it may take; where the trace tells none, the
/// greatest by which what the trace tells next may have come in time. Fails where memory runs out, and else never.
#[tactic(auto, using(crate::proofs::Lengths::length_within))]
pub(crate) fn lay(alloc: Global, finer: &Instance, told: &[Told]) -> Result<Schedule, AllocError>
    ensures { IfOk result (λ schedule. AreWithin (ranges_of finer.now) schedule.delays) }
{
    let table = finer.table();
    let mut schedule = Schedule::greatest(alloc, table)?;
    for at in 0..table.len() {
        let range = table.range(at);
        let delay = wished(finer, told, &schedule, table.packet(at), i64::from(range.1));
        schedule.set(at, within(range, delay));
    }
    Ok(schedule)
}

/// When a message arrives at a group by the delays so far.
fn arrival_by(finer: &Instance, schedule: &Schedule, message: usize, group: usize) -> i64 {
    let delay = finer.table().multicast_delay(schedule, message, group);
    i64::from(first_tick(finer.scenario(), message)) + i64::from(delay)
}

/// The delay that is wished of a packet, in its range or not; the greatest, where the trace asks for none.
fn wished(
    finer: &Instance,
    told: &[Told],
    schedule: &Schedule,
    packet: Packet,
    greatest: i64,
) -> i64 {
    match packet {
        Packet::Wait { .. } => greatest,
        Packet::Multicast { message, to } => {
            let issue = first_tick(finer.scenario(), message);
            match time_told(told, message, Event::Arrival(to)) {
                Some(time) => i64::from(time) - i64::from(issue),
                None => arrival_in_time(finer, told, message, to, i64::from(issue), greatest),
            }
        }
        Packet::Propose { message, from, to } => {
            let since = arrival_by(finer, schedule, message, from);
            match time_told(told, message, Event::Proposal(to, from)) {
                Some(time) => i64::from(time).saturating_sub(since),
                None => in_time(told, message, to, since, greatest),
            }
        }
    }
}

/// The greatest delay since its issue by which a message may have come to a group before what the trace tells of it there.
fn arrival_in_time(
    finer: &Instance,
    told: &[Told],
    message: usize,
    to: usize,
    since: i64,
    greatest: i64,
) -> i64 {
    let mut delay = greatest;
    for one in told {
        if one.message == message
            && let Some(last) = last_arrival(finer, *one, to)
        {
            delay = delay.min(last.saturating_sub(since));
        }
    }
    delay
}

/// By when a message has come to a group, where what the trace tells of it follows from that: a proposal of the group comes
/// to one, or the message is committed or delivered there, after the group's own proposal.
fn last_arrival(finer: &Instance, one: Told, to: usize) -> Option<i64> {
    match one.event {
        Event::Commit(group) | Event::Delivery(group) if group == to => {
            Some(proposed_by(finer, one, to, to))
        }
        Event::Proposal(group, from) if from == to => Some(proposed_by(finer, one, to, group)),
        _ => None,
    }
}

/// By when a group has proposed a stamp for a message, where it comes to a group at what is told.
fn proposed_by(finer: &Instance, one: Told, from: usize, to: usize) -> i64 {
    let least = least_delay(finer, one.message, from, to);
    i64::from(one.time).saturating_sub(i64::from(least))
}

/// The least delay of a proposal; 0 where it takes no time.
fn least_delay(finer: &Instance, message: usize, from: usize, to: usize) -> u16 {
    let table = finer.table();
    match table.propose(message, from, to) {
        Some(place) if usize::from(place) < table.len() => table.range(usize::from(place)).0,
        _ => 0,
    }
}

/// The greatest delay since then by which a proposal may have come as the message is committed, or delivered.
fn in_time(told: &[Told], message: usize, to: usize, since: i64, greatest: i64) -> i64 {
    let by = match time_told(told, message, Event::Commit(to)) {
        Some(time) => Some(time),
        None => time_told(told, message, Event::Delivery(to)),
    };
    match by {
        Some(time) => i64::from(time).saturating_sub(since).min(greatest),
        None => greatest,
    }
}
