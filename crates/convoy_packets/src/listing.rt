ghost use Rattle.std.specs.Prelude.{◌≡◌, ◌<◌, ◌≤◌, ◌++◌, length, OnOk, IfOk};
ghost use Rattle.std.specs.List.{flat_map};
ghost use Rattle.convoy_scenario.specs.Scenario.{message_at};
ghost use Rattle.convoy_packets.specs.Packets.{wait_packets, multicast_packets, propose_packets, packets_of};
ghost use Rattle.convoy_packets.specs.Slots.{HaveSlots};

use super::packet::{MOST_PACKETS, Packet};
use convoy_scenario::{AllocResult, Scenario};
use std::alloc::Global;

/// Lists the packets of a scenario: message by message its wait, if it may wait, the message itself to
/// each of its destinations to which it takes time, and then the local stamps by (from, to).
pub(crate) fn list_packets(alloc: Global, scenario: &Scenario) -> AllocResult<Vec<Packet>>
    ensures value { IfOk result (λ packets. packets.items ≡ packets_of scenario.now) }
    ensures few { IfOk result (λ packets. length packets.items ≤ MOST_PACKETS) }
    ensures known { IfOk result (λ packets. HaveSlots packets.items) }
{
    let mut packets = Vec::new(alloc);
    for message in 0..scenario.message_count() {
        list_wait(&mut packets, scenario, message)?;
        list_multicasts(&mut packets, scenario, message)?;
        list_proposals(&mut packets, scenario, message)?;
    }
    Ok(packets)
}

/// Adds the wait of a message, if it may wait.
fn list_wait(packets: &mut Vec<Packet>, scenario: &Scenario, message: usize) -> AllocResult<()>
    requires { message < length scenario.now.multicasts }
    ensures { OnOk result
        (packets.new.items ≡ packets.old.items
        ++ wait_packets message (message_at scenario.now message)) }
{
    if 0 < scenario.longest_wait(message) {
        packets.push(Packet::Wait { message })?;
    }
    Ok(())
}

/// Adds a message on its way to each of its destinations: to the group that sends it where that has a link to itself.
fn list_multicasts(
    packets: &mut Vec<Packet>,
    scenario: &Scenario,
    message: usize,
) -> AllocResult<()>
    requires { message < length scenario.now.multicasts }
    ensures { OnOk result
        (packets.new.items ≡ packets.old.items
        ++ multicast_packets scenario.now message (message_at scenario.now message)) }
{
    let sender = scenario.sender(message);
    for &to in scenario.destinations(message) {
        if scenario.takes_time(sender, to) {
            packets.push(Packet::Multicast { message, to })?;
        }
    }
    Ok(())
}

/// Adds the local stamps for a message, from each of its destinations to each to which they take time.
fn list_proposals(packets: &mut Vec<Packet>, scenario: &Scenario, message: usize) -> AllocResult<()>
    requires { message < length scenario.now.multicasts }
    ensures { OnOk result
        (packets.new.items ≡ packets.old.items
        ++ flat_map (propose_packets scenario.now message (message_at scenario.now message))
        (message_at scenario.now message).destinations) }
{
    for &from in scenario.destinations(message) {
        list_proposals_from(packets, scenario, message, from)?;
    }
    Ok(())
}

/// Adds the local stamp of one destination for a message, to each other destination, and to itself where that takes time.
fn list_proposals_from(
    packets: &mut Vec<Packet>,
    scenario: &Scenario,
    message: usize,
    from: usize,
) -> AllocResult<()>
    requires { message < length scenario.now.multicasts }
    ensures { OnOk result
        (packets.new.items ≡ packets.old.items
        ++ propose_packets scenario.now message (message_at scenario.now message) from) }
{
    for &to in scenario.destinations(message) {
        if scenario.stamp_takes_time(from, to) {
            packets.push(Packet::Propose { message, from, to })?;
        }
    }
    Ok(())
}
