//! Delays by which two moments of a group meet, or one comes just before the other.

ghost use Rattle.std.specs.Prelude.{◌≤◌, IfSome};
ghost use Rattle.convoy_packets.specs.Assignment.{IsWithin};

use crate::chance::Chance;
use crate::times::{arrival, earliest_issue, issue, settling};
use convoy_packets::{Instance, Packet, Schedule};

/// How many times such a delay is looked for.
const TRIES: usize = 8;

/// A delay of the range, in ticks, by which an arrival of a packet's message, or a commit, comes in the
/// tick of another moment of its group, or in the tick before or after. None where a few tries by
/// chance find no such delay in the range.
pub fn meeting_delay(
    instance: &Instance,
    schedule: &Schedule,
    packet: Packet,
    range: (u16, u16),
    chance: &mut Chance,
) -> Option<u16>
    ensures { IfSome result (λ delay. IsWithin range delay) }
{
    for _ in 0..TRIES {
        if let Some(delay) = wish(instance, schedule, packet, chance)
            && range.0 <= delay
            && delay <= range.1
        {
            return Some(delay);
        }
    }
    None
}

/// Such a delay of any size, if another moment by chance gives one.
fn wish(
    instance: &Instance,
    schedule: &Schedule,
    packet: Packet,
    chance: &mut Chance,
) -> Option<u16> {
    let (met, before) = match packet {
        Packet::Wait { message } => {
            let to = destination(instance, message, chance)?;
            let group = met_group(instance, message, to, chance)?;
            let met = met_tick(instance, schedule, message, group, chance)?;
            let coming = instance.table().multicast_delay(schedule, message, to);
            let proposing = instance.table().propose_delay(schedule, message, to, group);
            let on_its_way = u64::from(coming) + u64::from(proposing);
            (met, earliest_issue(instance, message)? + on_its_way)
        }
        Packet::Multicast { message, to } => {
            let group = met_group(instance, message, to, chance)?;
            let met = met_tick(instance, schedule, message, group, chance)?;
            let proposing = instance.table().propose_delay(schedule, message, to, group);
            (
                met,
                issue(instance, schedule, message)? + u64::from(proposing),
            )
        }
        Packet::Propose { message, from, to } => {
            let met = met_tick(instance, schedule, message, to, chance)?;
            (met, arrival(instance, schedule, message, from)?)
        }
    };
    u16::try_from(met.checked_sub(before)?).ok()
}

/// The group at which the moments are to meet: that of the packet, or by chance another one of the
/// message, where its proposal brings on a commit.
fn met_group(instance: &Instance, message: usize, to: usize, chance: &mut Chance) -> Option<usize> {
    if chance.below(5) < 3 {
        Some(to)
    } else {
        destination(instance, message, chance)
    }
}

/// A group by chance to which a message goes; None where there is no such message.
fn destination(instance: &Instance, message: usize, chance: &mut Chance) -> Option<usize> {
    if message >= instance.message_count() {
        return None;
    }
    let groups = instance.destinations(message);
    if groups.is_empty() {
        return None;
    }
    Some(groups[chance.below(groups.len())])
}

/// The tick of an arrival or a commit of another message by chance at a group, or the tick before or
/// after. None where the message that chance takes is the same, or does not go to the group.
fn met_tick(
    instance: &Instance,
    schedule: &Schedule,
    message: usize,
    group: usize,
    chance: &mut Chance,
) -> Option<u64> {
    if instance.message_count() == 0 {
        return None;
    }
    let other = chance.below(instance.message_count());
    if other == message || !instance.destinations(other).contains(&group) {
        return None;
    }
    let tick = if chance.below(2) == 0 {
        arrival(instance, schedule, other, group)?
    } else {
        settling(instance, schedule, other, group)?
    };
    tick.saturating_add(chance.below(3) as u64).checked_sub(1)
}
