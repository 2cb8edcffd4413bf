//! Packets that took longer, or less, than they may, and issues outside their windows.

ghost use Rattle.std.specs.Prelude.{◌≡◌, ◌≤◌, ◌*◌, Some, IfSome};
ghost use Rattle.convoy_scenario.specs.Scenario.{is_addressed, message_at, window_of};
ghost use Rattle.convoy_packets.specs.Assignment.{range_of};
ghost use Rattle.convoy_packets.specs.ScheduleLaws.{is_sent};
ghost use Rattle.convoy_traces.specs.declared.told.Event.TheVariants.{Issue};
ghost use Rattle.convoy_fits.specs.Fits.{time_told};
ghost use Rattle.convoy_fits.specs.Departures.{IsOutside, comes_as, explained, fine_range, in_fine_ticks, message_of, sent_by};

use super::comparing::earlier;
use super::corrected::Corrected;
use super::departure::Departure;
use super::teller::{is_same_teller, teller_of};
use super::told_times::time_told;
use convoy_packets::Packet;
use convoy_scenario::lookup::{longest_wait, may_wait, sender_of, window};
use convoy_scenario::{Scenario, Sender};
use convoy_traces::{Event, Told};

/// A range in fine ticks.
pub(crate) fn in_fine_ticks(factor: u16, range: (u32, u32)) -> (u64, u64)
    ensures { result ≡ in_fine_ticks factor range }
{
    let factor = u64::from(factor);
    (factor * u64::from(range.0), factor * u64::from(range.1))
}

/// Whether the message goes to the group.
pub(crate) fn is_addressed(scenario: &Scenario, message: usize, group: usize) -> bool
    ensures { result ≡ is_addressed (message_at scenario.now message) group }
{
    message < scenario.message_count() && scenario.destinations(message).contains(&group)
}

/// Whether the scenario has the packet.
fn is_sent(scenario: &Scenario, packet: Packet) -> bool
    ensures { result ≡ is_sent scenario.now packet }
{
    match packet {
        Packet::Wait { message } => may_wait(scenario, message),
        Packet::Multicast { message, to } => {
            is_addressed(scenario, message, to)
                && scenario.takes_time(sender_of(scenario, message), to)
        }
        Packet::Propose { message, from, to } => {
            is_addressed(scenario, message, from)
                && is_addressed(scenario, message, to)
                && scenario.stamp_takes_time(from, to)
        }
    }
}

/// The least and the greatest delay of a packet, in ticks.
pub(crate) fn range_of(scenario: &Scenario, packet: Packet) -> (u16, u16)
    ensures { result ≡ range_of scenario.now packet }
{
    match packet {
        Packet::Wait { message } => (0, longest_wait(scenario, message)),
        Packet::Multicast { message, to } => scenario.range_between(
            sender_of(scenario, message),
            to,
        ),
        Packet::Propose { from, to, .. } => scenario.range_between(Sender::Group(from), to),
    }
}

/// What a packet may take, in fine ticks; what a group sends itself takes no time, unless it is a message and the group has
/// a link to itself.
pub(crate) fn fine_range(factor: u16, scenario: &Scenario, packet: Packet) -> (u64, u64)
    ensures { result ≡ fine_range factor scenario.now packet }
{
    if is_sent(scenario, packet) {
        let range = range_of(scenario, packet);
        in_fine_ticks(factor, (u32::from(range.0), u32::from(range.1)))
    } else {
        (0, 0)
    }
}

/// The issue of a message, where it is told outside of its window by more than the skew.
fn outside_window(
    scenario: &Scenario,
    trace: &Corrected,
    skew: u32,
    message: usize,
) -> Option<Departure>
    ensures { IfSome result (IsOutside skew scenario.now trace.now) }
{
    let time = time_told(trace.told(), message, Event::Issue)?;
    let (first, last) = in_fine_ticks(trace.factor(), window(scenario, message));
    let slack = u64::from(skew);
    if u64::from(time) + slack < first || last + slack < u64::from(time) {
        Some(Departure::Window(message, time, first, last))
    } else {
        None
    }
}

/// The event with which a packet is sent.
fn sent_by(packet: Packet) -> Event
    ensures { result ≡ sent_by packet }
{
    match packet {
        Packet::Wait { .. } => Event::Issue,
        Packet::Multicast { .. } => Event::Issue,
        Packet::Propose { from, .. } => Event::Arrival(from),
    }
}

/// The event with which a packet comes.
fn comes_as(packet: Packet) -> Event
    ensures { result ≡ comes_as packet }
{
    match packet {
        Packet::Wait { .. } => Event::Issue,
        Packet::Multicast { to, .. } => Event::Arrival(to),
        Packet::Propose { from, to, .. } => Event::Proposal(to, from),
    }
}

/// The message of a packet.
fn message_of(packet: Packet) -> usize
    ensures { result ≡ message_of packet }
{
    match packet {
        Packet::Wait { message } => message,
        Packet::Multicast { message, .. } => message,
        Packet::Propose { message, .. } => message,
    }
}

/// How much of what a packet takes clocks may explain that are right within the skew, in fine ticks: twice the skew, and
/// nothing where one clock tells both when it was sent and when it came.
pub fn explained(skew: u32, scenario: &Scenario, packet: Packet) -> u64
    ensures value { result ≡ explained skew scenario.now packet }
    ensures bounded { result ≤ 2 * skew }
{
    let message = message_of(packet);
    let sender = teller_of(scenario, message, sent_by(packet));
    let receiver = teller_of(scenario, message, comes_as(packet));
    if is_same_teller(sender, receiver) {
        0
    } else {
        2 * u64::from(skew)
    }
}

/// The packet, where it is told to have taken longer than it may, or less, by more than clocks explain.
fn outside_range(
    scenario: &Scenario,
    trace: &Corrected,
    skew: u32,
    packet: Packet,
) -> Option<Departure>
    ensures { IfSome result (IsOutside skew scenario.now trace.now) }
{
    let told = trace.told();
    let sent = time_told(told, message_of(packet), sent_by(packet))?;
    let came = time_told(told, message_of(packet), comes_as(packet))?;
    let (least, most) = fine_range(trace.factor(), scenario, packet);
    let slack = u128::from(explained(skew, scenario, packet));
    let (since, at) = (u128::from(sent), u128::from(came));
    if at + slack < since + u128::from(least) || since + u128::from(most) + slack < at {
        Some(Departure::Packet(packet, sent, came, least, most))
    } else {
        None
    }
}

/// What is told of an event of the network, where it is outside of a window or of a range by more than clocks explain.
fn outside_at(scenario: &Scenario, trace: &Corrected, skew: u32, one: &Told) -> Option<Departure>
    ensures { IfSome result (IsOutside skew scenario.now trace.now) }
{
    let message = one.message;
    match one.event {
        Event::Issue => outside_window(scenario, trace, skew, message),
        Event::Arrival(to) => {
            outside_range(scenario, trace, skew, Packet::Multicast { message, to })
        }
        Event::Proposal(to, from) => {
            outside_range(scenario, trace, skew, Packet::Propose { message, from, to })
        }
        Event::Commit(_) => None,
        Event::Delivery(_) => None,
    }
}

/// The first of what is told outside of a window or of a range, by more than clocks explain that are right within the skew.
pub(crate) fn first_outside(scenario: &Scenario, trace: &Corrected, skew: u32) -> Option<Departure>
    ensures { IfSome result (IsOutside skew scenario.now trace.now) }
{
    let mut known = None;
    for one in trace.told() {
        known = earlier(known, outside_at(scenario, trace, skew, one));
    }
    known
}
