ghost use Rattle.std.specs.Prelude.{◌≡◌};
ghost use Rattle.convoy_packets.specs.Assignment.{AreWithin};

use crate::chance::Chance;
use crate::pattern::End;
use convoy_packets::{Packet, PacketTable, Schedule};

/// Which packets of a message a sweep takes.
#[derive(Clone, Copy, PartialEq, Eq)]
enum Part {
    /// The message itself, on its way to all groups.
    Messages,
    /// Its stamps.
    Stamps,
    /// All that goes to one group, or its wait, which goes to none.
    Arrival,
}

/// A change of many packets of one message at once: all take the same end of their ranges.
#[derive(Drop)]
pub struct Sweep {
    message: usize,
    to: Option<usize>,
    part: Part,
    end: End,
}

impl Sweep {
    /// A sweep by chance over the message to which a packet belongs, and the group to which it goes.
    pub fn over(packet: Packet, chance: &mut Chance) -> Sweep {
        let (message, to) = way_of(packet);
        let part = match chance.below(3) {
            0 => Part::Messages,
            1 => Part::Stamps,
            _ => Part::Arrival,
        };
        let end = if chance.below(2) == 0 {
            End::Least
        } else {
            End::Most
        };
        Sweep {
            message,
            to,
            part,
            end,
        }
    }

    /// Changes a schedule by the sweep.
    #[tactic(auto, using(crate::proofs::Schedules::length_within))]
    pub fn change(&self, table: &PacketTable, schedule: &mut Schedule)
        requires { AreWithin table.now.ranges schedule.old.delays }
        ensures within { AreWithin table.now.ranges schedule.new.delays }
        ensures order { schedule.new.order ≡ schedule.old.order }
    {
        for i in 0..table.len() {
            if self.takes(table.packet(i)) {
                schedule.set(i, self.end.of(table.range(i)));
            }
        }
    }

    /// Whether the sweep takes the packet.
    fn takes(&self, packet: Packet) -> bool {
        let (message, to) = way_of(packet);
        message == self.message
            && match self.part {
                Part::Messages => matches!(packet, Packet::Multicast { .. }),
                Part::Stamps => matches!(packet, Packet::Propose { .. }),
                Part::Arrival => to == self.to,
            }
    }
}

/// The message to which a packet belongs, and the group to which it goes; a wait goes to none.
fn way_of(packet: Packet) -> (usize, Option<usize>) {
    match packet {
        Packet::Wait { message } => (message, None),
        Packet::Multicast { message, to } | Packet::Propose { message, to, .. } => (
            message,
            Some(to),
        ),
    }
}
