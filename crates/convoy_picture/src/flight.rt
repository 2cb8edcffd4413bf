ghost use Rattle.std.specs.Prelude.{◌≡◌, ◌+◌, ◌≤◌};
ghost use Rattle.convoy_picture.specs.Pictures.{flight_of, sent_at};
ghost use Rattle.convoy_packets.specs.Assignment.{delay_of, sender_of};
ghost use Rattle.convoy_packets.specs.declared.packet.Packet.TheVariants.{Multicast};
ghost use Rattle.convoy_sim.specs.Times.{arrive};

use convoy_packets::{Instance, Packet, Schedule};
use convoy_scenario::{GREATEST_AT, Scenario, Sender, lookup};
use convoy_timeline::issue_of;

/// A packet of a run on its way. Ticks are counted from the start of the run.
#[derive(Clone, Copy)]
pub struct Flight {
    /// Its number: its place in the packet order (docs/PROTOCOL.md).
    pub number: usize,
    /// What it is, and where it goes.
    pub packet: Packet,
    /// The place that sends it.
    pub from: Sender,
    /// The tick at which it is sent: of a message its issue, and of a proposal the arrival of the message
    /// at the group that proposes.
    pub sent: u32,
    /// The tick at which it comes.
    pub arrival: u32,
}

/// The packet of that number on its way, in the run of the scenario under a schedule.
pub(crate) fn flight_of(
    instance: &Instance,
    schedule: &Schedule,
    number: usize,
    packet: Packet,
) -> Flight
    ensures { result ≡ flight_of instance.now schedule.now number packet }
{
    let sent = sent_tick(instance, schedule, packet);
    Flight {
        number,
        packet,
        from: sender(instance.scenario(), packet),
        sent,
        arrival: sent + delay(instance, schedule, packet),
    }
}

/// The tick at which a packet is sent, or a wait begins.
fn sent_tick(instance: &Instance, schedule: &Schedule, packet: Packet) -> u32
    ensures value { result ≡ sent_at instance.now schedule.now packet }
    ensures soon { result ≤ GREATEST_AT + u16.MAX + u16.MAX }
{
    match packet {
        Packet::Wait { message } => lookup::first_tick(instance.scenario(), message),
        Packet::Multicast { message, .. } => issue_of(instance, schedule, message),
        Packet::Propose { message, from, .. } => arrival(instance, schedule, message, from),
    }
}

/// The tick at which a message arrives at a group.
#[tactic(auto, unfolding(convoy_sim::specs::Times::arrive, convoy_packets::specs::Assignment::delay_of))]
fn arrival(instance: &Instance, schedule: &Schedule, message: usize, group: usize) -> u32
    ensures tick { result ≡ arrive instance.now schedule.now message group }
    ensures soon { result ≤ GREATEST_AT + u16.MAX + u16.MAX }
{
    let delay = instance.table().multicast_delay(schedule, message, group);
    issue_of(instance, schedule, message) + u32::from(delay)
}

/// The delay of a packet in a schedule, or how long a message waits there, in ticks.
#[tactic(auto, unfolding(convoy_packets::specs::Assignment::delay_of))]
fn delay(instance: &Instance, schedule: &Schedule, packet: Packet) -> u32
    ensures value { result ≡ delay_of instance.now schedule.now packet }
    ensures short { result ≤ u16.MAX }
{
    match packet {
        Packet::Wait { message } => u32::from(instance.table().wait_in(schedule, message)),
        Packet::Multicast { message, to } => {
            u32::from(instance.table().multicast_delay(schedule, message, to))
        }
        Packet::Propose { message, from, to } => {
            u32::from(instance.table().propose_delay(schedule, message, from, to))
        }
    }
}

/// Who sends a packet; a client where the scenario has no such message.
fn sender(scenario: &Scenario, packet: Packet) -> Sender
    ensures { result ≡ sender_of scenario.now packet }
{
    match packet {
        Packet::Wait { message } | Packet::Multicast { message, .. } => lookup::sender_of(
            scenario, message,
        ),
        Packet::Propose { from, .. } => Sender::Group(from),
    }
}
