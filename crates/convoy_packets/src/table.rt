ghost use Rattle.std.specs.Prelude.{◌≡◌, ◌<◌, ◌==◌, length, map, IfOk, Some};
ghost use Rattle.std.specs.List.{All, slice_get};
ghost use Rattle.convoy_packets.specs.Assignment.{delay_in, range_of};
ghost use Rattle.convoy_packets.specs.Packets.{place_of};
ghost use Rattle.convoy_packets.specs.Table.{table_of, IsRange, IsTable};
ghost use Rattle.convoy_packets.specs.declared.packet.Packet.TheVariants.{Wait, Multicast, Propose};

use super::listing::list_packets;
use super::packet::Packet;
use super::schedule::Schedule;
use super::slots::{entry_of, slots_for};
use convoy_scenario::lookup::{longest_wait, sender_of};
use convoy_scenario::{Scenario, Sender};
use std::alloc::{AllocError, Global};
use std::marker::Model;

/// The packets of a scenario in the order in which schedules list their delays, with the range of
/// each, and where each packet stands. A look-up takes constant time.
#[derive(Drop)]
pub struct PacketTable {
    timed: bool,
    packets: Vec<Packet>,
    ranges: Vec<(u16, u16)>,
    slots: Vec<Option<u16>>,
}

impl Model for PacketTable {
    ghost use Rattle.convoy_packets.specs.Table.{PacketTable, IsIndexed};

    ghost Value = { PacketTable };

    ghost view = { λ t. record { timed = t.timed; packets = t.packets.items; ranges = t.ranges.items } };

    ghost invariant = { λ t. IsIndexed
        (record { timed = t.timed; packets = t.packets.items; ranges = t.ranges.items }) t.slots.items };
}

impl PacketTable {
    /// The table of a scenario. Fails where memory runs out, and else never.
    pub fn of(alloc: Global, scenario: &Scenario) -> Result<PacketTable, AllocError>
        ensures value { IfOk result (λ table. table ≡ table_of scenario.now) }
        ensures lawful { IfOk result (λ table. IsTable table) }
    {
        let timed = scenario.is_timed();
        let packets = list_packets(alloc, scenario)?;
        let ranges = list_ranges(alloc, scenario, &packets)?;
        let slots = slots_for(alloc, &packets)?;
        Ok(PacketTable {
            timed,
            packets,
            ranges,
            slots,
        })
    }

    /// How many packets there are.
    pub fn len(&self) -> usize
        ensures value { result ≡ length self.now.packets }
        ensures lawful { IsTable self.now }
    {
        self.packets.len()
    }

    /// Whether there is no packet, as where each message goes to its sender alone, by no link.
    pub fn is_empty(&self) -> bool
        ensures { result ≡ (length self.now.packets == 0) }
    {
        self.packets.is_empty()
    }

    /// The packet at a place.
    pub fn packet(&self, place: usize) -> Packet
        requires { place < length self.now.packets }
        ensures { slice_get self.now.packets place ≡ Some result }
    {
        self.packets[place]
    }

    /// The least and the greatest delay of the packet at a place, in ticks.
    pub fn range(&self, place: usize) -> (u16, u16)
        requires { place < length self.now.packets }
        ensures value { slice_get self.now.ranges place ≡ Some result }
        ensures lawful { IsRange result }
    {
        self.ranges[place]
    }

    /// The least and the greatest delay of each packet, in ticks.
    pub fn ranges(&self) -> &[(u16, u16)]
        ensures value { result.now ≡ self.now.ranges }
        ensures lawful { IsTable self.now }
    {
        self.ranges.as_slice()
    }

    /// The place of a packet; None where the scenario has no such packet.
    pub fn place(&self, packet: Packet) -> Option<u16>
        ensures { result ≡ place_of packet self.now.packets }
    {
        entry_of(&self.slots, packet)
    }

    /// The place of the wait of a message; None where it does not wait.
    pub fn wait(&self, message: usize) -> Option<u16>
        ensures { result ≡ place_of (Wait message) self.now.packets }
    {
        self.place(Packet::Wait { message })
    }

    /// The place of the message on its way from its sender to the group `to`; None where there is
    /// no such packet.
    pub fn multicast_to(&self, message: usize, to: usize) -> Option<u16>
        ensures { result ≡ place_of (Multicast message to) self.now.packets }
    {
        self.place(Packet::Multicast { message, to })
    }

    /// The place of the local stamp of the group `from` for the message, on its way to the group
    /// `to`; None where there is no such packet.
    pub fn propose(&self, message: usize, from: usize, to: usize) -> Option<u16>
        ensures { result ≡ place_of (Propose message from to) self.now.packets }
    {
        self.place(Packet::Propose { message, from, to })
    }

    /// How many ticks a message waits in a schedule before it is issued; 0 where it does not wait.
    pub fn wait_in(&self, schedule: &Schedule, message: usize) -> u16
        ensures { result ≡ delay_in self.now.packets schedule.now.delays (Wait message) }
    {
        schedule.delay_at(self.wait(message))
    }

    /// The delay in a schedule of the message on its way from its sender to the group `to`, in
    /// ticks; 0 where there is no such packet.
    pub fn multicast_delay(&self, schedule: &Schedule, message: usize, to: usize) -> u16
        ensures { result ≡ delay_in self.now.packets schedule.now.delays (Multicast message to) }
    {
        schedule.delay_at(self.multicast_to(message, to))
    }

    /// The delay in a schedule of the local stamp of the group `from` for the message, on its way
    /// to the group `to`, in ticks; 0 where there is no such packet.
    pub fn propose_delay(&self, schedule: &Schedule, message: usize, from: usize, to: usize) -> u16
        ensures { result ≡ delay_in self.now.packets schedule.now.delays (Propose message from to) }
    {
        schedule.delay_at(self.propose(message, from, to))
    }
}

/// The ranges of some packets, in their order.
fn list_ranges(
    alloc: Global,
    scenario: &Scenario,
    packets: &[Packet],
) -> Result<Vec<(u16, u16)>, AllocError>
    ensures value { IfOk result (λ ranges. ranges.items ≡ map (range_of scenario.now) packets.now) }
    ensures lawful { IfOk result (λ ranges. All IsRange ranges.items) }
{
    let mut ranges = Vec::with_capacity(alloc, packets.len())?;
    for packet in packets {
        ranges.push(range_of(scenario, *packet))?;
    }
    Ok(ranges)
}

/// The least and the greatest delay of a packet, in ticks.
#[tactic(auto, using(crate::proofs::Ranges::range_lawful))]
fn range_of(scenario: &Scenario, packet: Packet) -> (u16, u16)
    ensures value { result ≡ range_of scenario.now packet }
    ensures lawful { IsRange result }
{
    match packet {
        Packet::Wait { message } => (0, longest_wait(scenario, message)),
        Packet::Multicast { message, to } => scenario.range_between(
            sender_of(scenario, message),
            to,
        ),
        Packet::Propose { from, to, .. } => scenario.range_between(Sender::Group(from), to),
    }
}
