ghost use Rattle.std.specs.Prelude.{◌≡◌, ◌<◌, ◌^◌, length, IfOk};
ghost use Rattle.convoy_packets.specs.Slots.{slot_of, entry_of, with_place, HoldPlaces};

use super::packet::Packet;
use convoy_scenario::{MOST_GROUPS, MOST_MULTICASTS};
use std::alloc::{AllocError, Global};

/// How many slots a message has: one for its wait, one for each group that it may go to, and one for
/// each pair of groups.
const SLOTS_PER_MESSAGE: usize = 1 + MOST_GROUPS + MOST_GROUPS * MOST_GROUPS;

/// How many slots there are.
const SLOT_COUNT: usize = MOST_MULTICASTS * SLOTS_PER_MESSAGE;

/// The number of a packet's slot; None where a scenario can have no such packet.
fn slot_of(packet: Packet) -> Option<usize>
    ensures { result ≡ slot_of packet }
{
    match packet {
        Packet::Wait { message } if message < MOST_MULTICASTS => Some(message * SLOTS_PER_MESSAGE),
        Packet::Multicast { message, to } if message < MOST_MULTICASTS && to < MOST_GROUPS => {
            Some(message * SLOTS_PER_MESSAGE + 1 + to)
        }
        Packet::Propose { message, from, to }
            if message < MOST_MULTICASTS && from < MOST_GROUPS && to < MOST_GROUPS => {
            Some(message * SLOTS_PER_MESSAGE + 1 + MOST_GROUPS + from * MOST_GROUPS + to)
        }
        _ => None,
    }
}

/// Makes the slots of a list of packets: each holds the first place of its packet in the list.
pub(crate) fn slots_for(alloc: Global, packets: &[Packet]) -> Result<Vec<Option<u16>>, AllocError>
    requires { length packets.now < 2 ^ 16 }
    ensures { IfOk result (λ slots. HoldPlaces slots.items packets.now) }
{
    let mut slots = vec![in alloc; None; SLOT_COUNT]?;
    for (place, packet) in packets.iter().enumerate() {
        record_place(&mut slots, *packet, place as u16);
    }
    Ok(slots)
}

/// Writes the place into the packet's slot, unless an earlier place stands there.
fn record_place(slots: &mut [Option<u16>], packet: Packet, place: u16)
    requires { length slots.old ≡ SLOT_COUNT }
    ensures { slots.new ≡ with_place slots.old packet place }
{
    if let Some(slot) = slot_of(packet)
        && slots[slot].is_none()
    {
        slots[slot] = Some(place);
    }
}

/// The place that stands in a packet's slot.
pub(crate) fn entry_of(slots: &[Option<u16>], packet: Packet) -> Option<u16>
    requires { length slots.now ≡ SLOT_COUNT }
    ensures { result ≡ entry_of slots.now packet }
{
    let slot = slot_of(packet)?;
    slots[slot]
}
